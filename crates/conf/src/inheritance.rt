//! What holds for a request: what its location says, else its server, else `http`, else the default.

ghost use Rattle.std.specs.Prelude.{◌≡◌, IfOk, option_copied};
ghost use Rattle.conf.specs.Inheritance as spec;

use crate::Settings;
use crate::blocks::{Said, effect_in};
use conf_rules::{Directive, Effect};
use resty_base::{Bytes, Ms};
use std::alloc::{AllocError, Global};

/// The default of times, and the one of `keepalive_timeout`.
const DEFAULT_TIME: u64 = 60_000;

const DEFAULT_KEEPALIVE: u64 = 75_000;

/// The default of `client_max_body_size`.
const DEFAULT_BODY: u64 = 1_048_576;

/// The default of `lua_socket_pool_size`.
const DEFAULT_POOL: u32 = 30;

/// The level that an effect gives, else the default.
pub(crate) fn level_or(default: u8, effect: Option<&Effect>) -> u8
    ensures { result ≡ spec.level_or default (option_copied effect.entry) }
{
    match effect {
        Some(Effect::Level(level)) => *level,
        _ => default,
    }
}

/// The count that an effect gives, else the default.
pub(crate) fn count_or(default: u32, effect: Option<&Effect>) -> u32
    ensures { result ≡ spec.count_or default (option_copied effect.entry) }
{
    match effect {
        Some(Effect::Count(count)) => *count,
        _ => default,
    }
}

/// The size that an effect gives, else the default.
fn size_or(default: u64, effect: Option<&Effect>) -> u64
    ensures { result ≡ spec.size_or default (option_copied effect.entry) }
{
    match effect {
        Some(Effect::Size(size)) => *size,
        _ => default,
    }
}

/// The time that an effect gives, else the default.
fn time_or(default: u64, effect: Option<&Effect>) -> Ms
    ensures { result.0 ≡ spec.time_or default (option_copied effect.entry) }
{
    match effect {
        Some(Effect::Time(time)) => Ms(*time),
        _ => Ms(default),
    }
}

/// The text that an effect gives, else the default.
pub(crate) fn text_or(default: &'static [u8], effect: Option<&Effect>) -> Result<Bytes, AllocError>
    ensures { IfOk result (λ text. text ≡ spec.text_or default.now (option_copied effect.entry)) }
{
    match effect {
        Some(Effect::Text(text)) => text.clone(),
        _ => Ok(Bytes::from_static(default)),
    }
}

/// The number of a block, where the effect is one.
pub(crate) fn block_of(effect: Option<&Effect>) -> Option<u32>
    ensures { result ≡ spec.block_of (option_copied effect.entry) }
{
    match effect {
        Some(Effect::Block(number)) => Some(*number),
        _ => None,
    }
}

/// What is said in a location, in its server and in `http`.
#[derive(Clone, Copy)]
pub(crate) struct Scope<'a> {
    pub(crate) location: &'a [Said],
    pub(crate) server: &'a [Said],
    pub(crate) http: &'a [Said],
}

impl<'a> Scope<'a> {
    /// What the innermost block says of a directive that says something of it.
    pub(crate) fn innermost(&self, directive: Directive) -> Option<&'a Effect>
        ensures { option_copied result ≡ spec.innermost self.now.location.now self.now.server.now self.now.http.now directive }
    {
        if let Some(effect) = effect_in(self.location, directive) {
            return Some(effect);
        }
        match effect_in(self.server, directive) {
            Some(effect) => Some(effect),
            None => effect_in(self.http, directive),
        }
    }

    /// A time of which the default is a minute.
    pub(crate) fn time(&self, directive: Directive) -> Ms
        ensures { result.0 ≡ spec.time_or 60_000 (spec.innermost self.now.location.now self.now.server.now self.now.http.now directive) }
    {
        time_or(DEFAULT_TIME, self.innermost(directive))
    }

    /// The number of the block that handles a phase.
    fn handler(&self, directive: Directive) -> Option<u32>
        ensures { result ≡ spec.block_of (spec.innermost self.now.location.now self.now.server.now self.now.http.now directive) }
    {
        block_of(self.innermost(directive))
    }

    /// The settings there, with this type.
    fn settings_with(&self, default_type: Bytes) -> Settings
        ensures { result ≡ record (spec.settings_of self.now.location.now self.now.server.now self.now.http.now) { default_type = default_type } }
    {
        Settings {
            default_type,
            max_body: size_or(DEFAULT_BODY, self.innermost(Directive::ClientMaxBodySize)),
            keepalive_timeout: time_or(
                DEFAULT_KEEPALIVE,
                self.innermost(Directive::KeepaliveTimeout),
            ),
            body_timeout: self.time(Directive::ClientBodyTimeout),
            send_timeout: self.time(Directive::SendTimeout),
            sock_connect: self.time(Directive::SocketConnectTimeout),
            sock_send: self.time(Directive::SocketSendTimeout),
            sock_read: self.time(Directive::SocketReadTimeout),
            sock_keepalive: self.time(Directive::SocketKeepaliveTimeout),
            pool_size: count_or(DEFAULT_POOL, self.innermost(Directive::SocketPoolSize)),
            rewrite: self.handler(Directive::RewriteByLua),
            access: self.handler(Directive::AccessByLua),
            content: self.handler(Directive::ContentByLua),
            header_filter: self.handler(Directive::HeaderFilterByLua),
            body_filter: self.handler(Directive::BodyFilterByLua),
            log: self.handler(Directive::LogByLua),
        }
    }

    /// The settings there.
    pub(crate) fn settings(&self) -> Result<Settings, AllocError>
        ensures { IfOk result (λ settings. settings ≡ spec.settings_of self.now.location.now self.now.server.now self.now.http.now) }
    {
        let default_type = text_or(b"text/plain", self.innermost(Directive::DefaultType))?;
        Ok(self.settings_with(default_type))
    }
}
