//! Tests of the record of a request: steps that a program takes on it, written as texts, and what each answers. `requests` shows what is asked of a request
//! and changed in it, `variables` each variable, `replies` what is said of the reply, `heads` the heads of replies.
mod heads;
mod parts;
mod replies;
mod requests;
mod variables;

use crate::rows::{Subject, hold};
use crate::texts::*;
use http_reply::{ReplyHead, head_text};
use parts::*;
use request_api::{Printed, Req, ReqFault};
use resty_base::{ByteLists, Bytes, Ms};
use std::alloc::{AllocError, Global};

/// The answers to steps on a record that begins with this head: steps with `, ` between, answers in brackets.
pub(crate) fn answers(alloc: Global, head: &str, steps: &str) -> Result<String, AllocError> {
    let mut all = String::new(alloc);
    if let Some(mut req) = begun(alloc, head)? {
        for step in steps.split(", ") {
            all.push('[')?;
            take(alloc, &mut req, step, &mut all)?;
            all.push(']')?;
        }
    }
    Ok(all)
}

/// Takes a step, a word and what follows it, and writes the answer.
fn take(alloc: Global, req: &mut Req, step: &str, all: &mut String) -> Result<(), AllocError> {
    let (word, given) = step.split_once(' ').unwrap_or((step, ""));
    match word {
        "field" | "fields" | "count" | "list" | "method" => {
            of_head(alloc, req, word, given, all)
        }
        "path" | "query" | "args" | "form" | "var" => of_target(alloc, req, word, given, all),
        "head" | "built-in" | "connection" => of_reply_head(alloc, req, word, given, all),
        _ => of_reply(alloc, req, word, given, all),
    }
}

/// A step on the head of the request.
fn of_head(
    alloc: Global,
    req: &mut Req,
    word: &str,
    given: &str,
    all: &mut String,
) -> Result<(), AllocError> {
    match word {
        "field" => all.push_str(set_field(alloc, req, given)?),
        "fields" => write_fields(all, req.head.headers.as_slice()),
        "count" => write_number(alloc, all, req.head.headers.as_slice().len() as u64),
        "list" => write_fields(all, &req.headers(alloc, given.parse().unwrap_or(0))?),
        _ => {
            let done = req.set_method(given.parse().unwrap_or(0));
            all.push_str(in_words(done))
        }
    }
}

/// A step on the target of the request, or one that reads a variable on the port 80.
fn of_target(
    alloc: Global,
    req: &mut Req,
    word: &str,
    given: &str,
    all: &mut String,
) -> Result<(), AllocError> {
    match word {
        "path" => {
            req.set_uri(plain_bytes(alloc, given)?);
            Ok(())
        }
        "query" => {
            req.set_uri_args(plain_bytes(alloc, given)?);
            Ok(())
        }
        "args" => write_pairs(all, &req.uri_args(alloc, given.parse().unwrap_or(0))?),
        "form" => write_pairs(all, &req.post_args(alloc, &plain_bytes(alloc, given)?, 0)?),
        _ => write_plain(all, &variable(alloc, req, given)?),
    }
}

/// A step that writes the head of the reply, or what it says of the connection.
fn of_reply_head(
    alloc: Global,
    req: &Req,
    word: &str,
    given: &str,
    all: &mut String,
) -> Result<(), AllocError> {
    match word {
        "head" => write_head(alloc, &handlers(alloc, req, given)?, all),
        "built-in" => write_head(alloc, &built_in(alloc, req, given)?, all),
        _ => all.push_str(connection(alloc, req)?),
    }
}

/// A step on the reply.
fn of_reply(
    alloc: Global,
    req: &mut Req,
    word: &str,
    given: &str,
    all: &mut String,
) -> Result<(), AllocError> {
    match word {
        "set" => all.push_str(set_line(alloc, req, given)?),
        "lines" => write_fields(all, req.reply.headers.as_slice()),
        "read" => read_lines(alloc, req, given, all),
        "status" => {
            let done = req.set_status(given.parse().unwrap_or(0));
            all.push_str(in_words(done))
        }
        "sent" => {
            req.reply.sent = true;
            Ok(())
        }
        "print" => all.push_str(print(alloc, req, given.parse().unwrap_or(0))?),
        "given" => write_number(alloc, all, req.reply.given),
        "eof" => {
            req.eof();
            Ok(())
        }
        _ => all.push_str("no such step"),
    }
}

fn in_words(done: Result<(), ReqFault>) -> &'static str {
    match done {
        Ok(()) => "ok",
        Err(ReqFault::BadRequest) => "bad request",
        Err(ReqFault::Memory) => "memory",
    }
}

/// The name of `NAME=VALUE|VALUE`, `NAME*COUNT` or `NAME`, and its values: those, so many `1`, or none.
fn named(alloc: Global, given: &str) -> Result<(Bytes, ByteLists), AllocError> {
    if let Some((name, values)) = given.split_once('=') {
        return Ok((plain_bytes(alloc, name)?, values_of(alloc, Some(values))?));
    }
    match given.split_once('*') {
        Some((name, count)) => Ok((
            plain_bytes(alloc, name)?,
            ones(alloc, count.parse().unwrap_or(0))?,
        )),
        None => Ok((plain_bytes(alloc, given)?, values_of(alloc, None)?)),
    }
}

/// Sets fields of the request.
fn set_field(alloc: Global, req: &mut Req, given: &str) -> Result<&'static str, AllocError> {
    let (name, values) = named(alloc, given)?;
    Ok(in_words(req.set_header(alloc, &name, &values)))
}

/// Sets fields of the reply.
fn set_line(alloc: Global, req: &mut Req, given: &str) -> Result<&'static str, AllocError> {
    let (name, values) = named(alloc, given)?;
    Ok(match req.set_reply_header(alloc, &name, &values) {
        Ok(true) => "set",
        Ok(false) => "too late",
        Err(fault) => in_words(Err(fault)),
    })
}

/// Writes the values of the reply's fields of this name.
fn read_lines(alloc: Global, req: &Req, name: &str, all: &mut String) -> Result<(), AllocError> {
    let values = req.reply_header(alloc, &plain_bytes(alloc, name)?)?;
    write_texts(all, values.as_slice())
}

/// The variable of this name on the port 80, `nil` for None.
fn variable(alloc: Global, req: &Req, name: &str) -> Result<Bytes, AllocError> {
    let value = req.variable(alloc, &plain_bytes(alloc, name)?, 80)?;
    Ok(value.unwrap_or(Bytes::from_static(b"nil")))
}

/// Prints so many bytes.
fn print(alloc: Global, req: &mut Req, count: usize) -> Result<&'static str, AllocError> {
    let mut bytes = Vec::new(alloc);
    bytes.resize(count, b'x')?;
    Ok(match req.print(&bytes) {
        Printed::Took => "took",
        Printed::SeenEof => "seen eof",
        Printed::OverLimit => "over limit",
    })
}

/// The head of a handler's reply: `keep` or `close`, and the default type.
fn handlers(alloc: Global, req: &Req, given: &str) -> Result<ReplyHead, AllocError> {
    let (keep, default_type) = given.split_once(' ').unwrap_or((given, ""));
    req.reply_head(
        alloc,
        &plain_bytes(alloc, default_type)?,
        None,
        keep == "keep",
    )
}

/// The head of a built-in reply: `keep` or `close`, and the length of its body.
fn built_in(alloc: Global, req: &Req, given: &str) -> Result<ReplyHead, AllocError> {
    let (keep, length) = given.split_once(' ').unwrap_or((given, ""));
    let length = length.parse().unwrap_or(0);
    req.reply_head(
        alloc,
        &Bytes::from_static(b"b"),
        Some(length),
        keep == "keep",
    )
}

/// What the head of a built-in reply says of the connection.
fn connection(alloc: Global, req: &Req) -> Result<&'static str, AllocError> {
    let head = built_in(alloc, req, "keep 1")?;
    Ok(if head.keep { "keep-alive" } else { "close" })
}

/// Writes the lines of the head but its date, each before a `|`.
fn write_head(alloc: Global, head: &ReplyHead, all: &mut String) -> Result<(), AllocError> {
    let text = head_text(alloc, head, Ms(0))?;
    for line in str::from_utf8(&text).unwrap_or("?").lines() {
        if !line.starts_with("Date: ") {
            all.push_str(line)?;
            all.push('|')?;
        }
    }
    Ok(())
}

#[test]
fn records_answer_steps(rt: HostRuntime) {
    hold(
        &rt,
        rt.alloc(),
        Subject::Record(requests::HEAD),
        requests::SETS,
    );
    hold(
        &rt,
        rt.alloc(),
        Subject::Record(requests::HEAD),
        requests::REFUSED,
    );
    hold(
        &rt,
        rt.alloc(),
        Subject::Record(requests::TWO),
        requests::MANY,
    );
    hold(
        &rt,
        rt.alloc(),
        Subject::Record(requests::HEAD),
        requests::LISTED,
    );
    hold(
        &rt,
        rt.alloc(),
        Subject::Record(requests::OPTIONS),
        requests::METHODS,
    );
    hold(
        &rt,
        rt.alloc(),
        Subject::Record(requests::HEAD),
        requests::ARGUMENTS,
    );
    hold(
        &rt,
        rt.alloc(),
        Subject::Record(variables::HEAD),
        variables::NAMES,
    );
    hold(
        &rt,
        rt.alloc(),
        Subject::Record(variables::POST),
        variables::ABSENT,
    );
    hold(
        &rt,
        rt.alloc(),
        Subject::Record(variables::ABSOLUTE),
        variables::HOST,
    );
    hold(
        &rt,
        rt.alloc(),
        Subject::Record(replies::HEAD),
        replies::SETS,
    );
    hold(
        &rt,
        rt.alloc(),
        Subject::Record(replies::HEAD),
        replies::REFUSED,
    );
    hold(
        &rt,
        rt.alloc(),
        Subject::Record(replies::HEAD),
        replies::MANY,
    );
    hold(
        &rt,
        rt.alloc(),
        Subject::Record(replies::HEAD),
        replies::STATUSES,
    );
    hold(
        &rt,
        rt.alloc(),
        Subject::Record(replies::HEAD),
        replies::PRINTS,
    );
    hold(
        &rt,
        rt.alloc(),
        Subject::Record(heads::OLD),
        heads::HANDLERS_OLD,
    );
    hold(
        &rt,
        rt.alloc(),
        Subject::Record(heads::NEW),
        heads::HANDLERS_NEW,
    );
    hold(
        &rt,
        rt.alloc(),
        Subject::Record(heads::ASKS_HEAD),
        heads::HANDLERS_HEAD,
    );
    hold(
        &rt,
        rt.alloc(),
        Subject::Record(heads::OLD),
        heads::BUILT_IN_OLD,
    );
    hold(
        &rt,
        rt.alloc(),
        Subject::Record(heads::NEW),
        heads::BUILT_IN_NEW,
    );
    hold(
        &rt,
        rt.alloc(),
        Subject::Record(heads::NEW),
        heads::CONNECTIONS,
    );
}
