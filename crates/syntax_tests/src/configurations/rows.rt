//! Rows of texts, and what is seen of each: `directives` words and places, `faults` first faults, `items` words and lines, `sites` what a site has.
use super::directives::{said, stands, words_are_read};
use super::faults::fault;
use super::items::written;
use super::sites::{lists, named, route, servers, settings, site};
use super::{directives, faults, items, sites};
use crate::rows::expect;
use std::alloc::{AllocError, Global};
use std::process::Abort;

/// Tests each row, `WORD TEXT => SEEN`; `|` is the end of a line.
pub(crate) fn hold(rt: &impl Abort, alloc: Global, rows: &str) {
    for row in rows.lines() {
        let (given, expected) = row.split_once(" => ").unwrap_or((row, ""));
        expect(rt, told(alloc, given).as_str(), expected, row);
    }
}

/// What is seen of a text, or `memory`.
fn told(alloc: Global, given: &str) -> String {
    match seen(alloc, given) {
        Ok(seen) => seen,
        Err(_) => {
            let mut all = String::new(alloc);
            let _ = all.push_str("memory");
            all
        }
    }
}

/// What is seen of a text.
fn seen(alloc: Global, given: &str) -> Result<String, AllocError> {
    let (word, text) = given.split_once(' ').unwrap_or((given, ""));
    let text = text.replace(alloc, "|", "\n")?;
    let text = text.as_str();
    match word {
        "items" => written(alloc, text)?.replace(alloc, "\n", "|"),
        "says" => said(alloc, text),
        "stands" => stands(alloc, text),
        "fault" => fault(alloc, text),
        "in-server" => fault(alloc, in_server(alloc, text)?.as_str()),
        "in-location" => fault(alloc, in_location(alloc, text)?.as_str()),
        "site" => site(alloc, text),
        "settings" => settings(alloc, text),
        "servers" => servers(alloc, text),
        "lists" => lists(alloc, text)?.replace(alloc, "\n", "|"),
        "route" => route(alloc, text),
        _ => named(alloc, text),
    }
}

/// A server in which this stands.
fn in_server(alloc: Global, text: &str) -> Result<String, AllocError> {
    format!(in alloc; "http {{ server {{ {text} }} }}")
}

/// A location in which this stands.
fn in_location(alloc: Global, text: &str) -> Result<String, AllocError> {
    format!(in alloc; "http {{ server {{ location / {{ {text} }} }} }}")
}

/// Directives, faults, items, and what is said of sites.
fn hold_all(rt: &impl Abort, alloc: Global) {
    hold(rt, alloc, directives::WORDS);
    hold(rt, alloc, directives::UNITS);
    hold(rt, alloc, directives::FORMS);
    hold(rt, alloc, directives::PLACES);
    hold(rt, alloc, faults::BLOCKS);
    hold(rt, alloc, faults::PORTS);
    hold(rt, alloc, faults::ORDER);
    hold(rt, alloc, faults::LUA);
    hold(rt, alloc, items::ITEMS);
    hold(rt, alloc, items::QUOTES);
    hold(rt, alloc, items::LUA);
    hold(rt, alloc, sites::DEFAULTS);
    hold(rt, alloc, sites::SETTINGS);
    hold(rt, alloc, sites::LISTS);
    hold(rt, alloc, sites::ROUTES);
    hold(rt, alloc, sites::NAMES);
}

#[test]
fn configurations_are_read(rt: HostRuntime) {
    hold_all(&rt, rt.alloc());
    assert!(rt; words_are_read());
}
