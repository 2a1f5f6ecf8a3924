//! What a site of Lua answers a request with.

ghost use Rattle.std.specs.Prelude.{◌≡◌, [], IfErr, IfOk, Ok, Err, option_copied};
ghost use Rattle.conf.specs.Reading.{IsWhole};
ghost use Rattle.lua_values.specs.declared.values.Value.{Value as LuaValue};
ghost use Rattle.lua_run.specs.Answers as spec;
ghost use Rattle.lua_run.specs.Views.{handler_at, site_seen};
ghost use Rattle.reply_stages.specs.Views.{scope_seen};

use crate::sites::Site;
use conf::{Conf, LocationConf, Settings};
use http_in::BodyKind;
use lua_machine::Machine;
use lua_values::Value;
use reply_stages::{Scope, Sent, by_handler, line_of, of_status, scope_of};
use request_api::Req;
use resty_base::{Bytes, Ms};
use run_threads::{Handled, run_handler};
use std::alloc::{AllocError, Global};

/// Whether a body whose length is told is longer than it may be.
fn is_too_long(kind: BodyKind, max: u64) -> bool
    ensures { result ≡ spec.is_too_long kind max }
{
    match kind {
        BodyKind::Length(count) => max < count,
        BodyKind::Nothing | BodyKind::Chunked => false,
    }
}

/// The number of the content handler of a location. There is none where no location fits; requests from outside don't find an internal one.
fn located(location: Option<&LocationConf>) -> Result<u32, u16>
    ensures ok { IfOk result (λ number. spec.located (option_copied location.entry) ≡ Ok number) }
    ensures err { IfErr result (λ status. spec.located (option_copied location.entry) ≡ Err status) }
{
    match location {
        Some(location) if !location.internal => location.settings.content.ok_or(404),
        _ => Err(404),
    }
}

/// The number of the handler that a request with such a body is for, or the status of the reply that the server makes itself.
fn answer_in(kind: BodyKind, scope: &Scope<'_>) -> Result<u32, u16>
    ensures ok { IfOk result (λ number. spec.answer_in kind (scope_seen scope.now) ≡ Ok number) }
    ensures err { IfErr result (λ status. spec.answer_in kind (scope_seen scope.now) ≡ Err status) }
{
    if is_too_long(kind, scope.settings().max_body) {
        Err(413)
    } else {
        located(scope.location)
    }
}

/// Whether a handler makes the reply, and not the server itself.
pub(crate) fn has_handler(conf: &Conf, req: &Req) -> bool
    requires { IsWhole conf.now }
    ensures { result ≡ spec.has_handler conf.now req.now }
{
    let scope = scope_of(conf, &req.target);
    answer_in(req.head.body, &scope).is_ok()
}

/// What is sent, and the line of the log that is written before it, if any.
#[derive(Debug, Drop)]
pub(crate) struct Replied {
    pub(crate) line: Option<Bytes>,
    pub(crate) sent: Sent,
}

/// The function of the handler of this number.
fn handler<M: Machine>(site: &Site<M>, number: u32) -> Value
    ensures { result ≡ handler_at site.now.blocks number }
{
    match site.blocks.as_slice().get(number as usize) {
        Some(closure) => Value::Closure(*closure),
        None => Value::Nil,
    }
}

/// The reply by what a handler came to.
fn replied_after(
    alloc: Global,
    log_level: u8,
    default_type: &Bytes,
    handled: Handled,
    now: Ms,
) -> Result<Replied, AllocError>
    ensures { IfOk result (λ r. r ≡ spec.replied_by log_level default_type.now handled now.0) }
{
    match line_of(alloc, log_level, now, &handled.end) {
        Ok(line) => with_line(line, by_handler(alloc, default_type, handled, now)),
        Err(fault) => {
            drop(handled);
            Err(fault)
        }
    }
}

/// What is sent, behind this line of the log.
fn with_line(line: Option<Bytes>, sent: Result<Sent, AllocError>) -> Result<Replied, AllocError>
    ensures line { IfOk result (λ r. r.line ≡ line) }
    ensures sent { IfOk result (λ r. sent ≡ Ok r.sent) }
{
    match sent {
        Ok(sent) => Ok(Replied { line, sent }),
        Err(fault) => {
            drop(line);
            Err(fault)
        }
    }
}

/// Runs the handler of a number alone for the request.
fn replied_by<M: Machine>(
    alloc: Global,
    site: &Site<M>,
    req: Req,
    default_type: &Bytes,
    number: u32,
    now: Ms,
) -> Result<Replied, AllocError>
    ensures { IfOk result (λ r. r ≡ spec.replied (site_seen M.life site.now) req default_type.now (Ok number) now.0) }
{
    match site.store.copy_store() {
        Ok(store) => {
            let function = handler(site, number);
            let handled = run_handler(alloc, &site.machine, function, store, req)?;
            replied_after(alloc, site.conf.log_level, default_type, handled, now)
        }
        Err(fault) => {
            drop(req);
            Err(fault)
        }
    }
}

/// The server's own reply of this status.
fn replied_status(
    alloc: Global,
    req: Req,
    default_type: &Bytes,
    status: u16,
    now: Ms,
) -> Result<Replied, AllocError>
    ensures { IfOk result (λ r. r ≡ spec.replied_status req default_type.now status now.0) }
{
    Ok(Replied {
        line: None,
        sent: of_status(alloc, req, default_type, status, now)?,
    })
}

/// The request, whose connection isn't kept where it has no time for a next one.
fn with_keepalive(settings: &Settings, mut req: Req) -> Req
    ensures { result ≡ spec.with_keepalive settings.now req }
{
    req.head.keep = req.head.keep && settings.keepalive_timeout.0 > 0;
    req
}

/// The reply to a request.
pub(crate) fn reply_of<M: Machine>(
    alloc: Global,
    site: &Site<M>,
    req: Req,
    now: Ms,
) -> Result<Replied, AllocError>
    ensures { IfOk result (λ r. r ≡ spec.reply_of (site_seen M.life site.now) req now.0) }
{
    let scope = scope_of(&site.conf, &req.target);
    let settings = scope.settings();
    let answer = answer_in(req.head.body, &scope);
    let req = with_keepalive(settings, req);
    match answer {
        Ok(number) => replied_by(alloc, site, req, &settings.default_type, number, now),
        Err(status) => replied_status(alloc, req, &settings.default_type, status, now),
    }
}
