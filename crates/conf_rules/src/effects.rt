//! What the words of a directive mean.
ghost use Rattle.std.specs.Prelude.{◌≡◌, IfOk, map, option_copied};
ghost use Rattle.http_base.specs.Names.{lower};
ghost use Rattle.conf_rules.specs.Effects as spec;

use crate::values::{number_of, size_of, time_of};
use crate::words::{
    are_plain, begins_with, is_name, is_pattern, level_in, port_of, without_default, word,
};
use crate::{Directive, Place};
use http_base::lower;
use resty_base::{ByteLists, Bytes};
use std::alloc::{AllocError, Global};

/// The most connections that are taken at a time.
const MOST_CONNECTIONS: u64 = 512;

/// The longest body of a request, and the size that stands for more.
const MOST_BODY: u64 = 16_777_216;

/// The greatest size of a dictionary.
const MOST_DICTIONARY: u64 = 67_108_864;

/// Which paths a location is for.
#[derive(Debug, PartialEq, Eq, Drop)]
pub enum LocationKind {
    /// This path alone.
    Exact(Bytes),
    /// Paths that begin so.
    Prefix(Bytes),
    /// A name, with its `@`, that only handlers use.
    Named(Bytes),
}

/// What a directive says. Sizes are in bytes, times in milliseconds.
#[derive(Debug, Drop)]
pub enum Effect {
    Nothing,
    /// A log level, from 1 for `emerg` to 8 for `debug`.
    Level(u8),
    Count(u32),
    Size(u64),
    Time(u64),
    Text(Bytes),
    /// A port, and whether its server is the default one.
    Listen(u16, bool),
    /// Names of a server, in lower case.
    Names(ByteLists),
    Dictionary(Bytes, u64),
    Location(LocationKind),
    /// A block in which directives stand.
    Opens(Place),
    /// The number of a block of Lua, which its reader gives.
    Block(u32),
}

/// The only word, None where there are more or none.
fn only(words: &[Bytes]) -> Option<&[u8]>
    ensures { option_copied result ≡ spec.only words.now }
{
    if words.len() == 1 {
        Some(word(words, 0))
    } else {
        None
    }
}

/// What a directive without words says.
fn bare(words: &[Bytes]) -> Option<Effect>
    ensures { result ≡ spec.bare words.now }
{
    if words.is_empty() {
        Some(Effect::Nothing)
    } else {
        None
    }
}

/// What a directive without effect says, if it has as many words as nginx has it take.
fn idle(fits: bool) -> Option<Effect>
    ensures { result ≡ spec.idle fits }
{
    if fits { Some(Effect::Nothing) } else { None }
}

/// What a directive without words says that has a block of directives.
fn opens(place: Place, words: &[Bytes]) -> Option<Effect>
    ensures { result ≡ spec.opens place words.now }
{
    if words.is_empty() {
        Some(Effect::Opens(place))
    } else {
        None
    }
}

/// What `error_log` says.
fn level(words: &[Bytes]) -> Option<Effect>
    ensures { result ≡ spec.level words.now }
{
    Some(Effect::Level(level_in(words)?))
}

/// How many connections a number stands for.
fn connections_of(number: u64) -> Option<Effect>
    ensures { result ≡ spec.connections_of number }
{
    if number == 0 {
        None
    } else {
        Some(Effect::Count(number.min(MOST_CONNECTIONS) as u32))
    }
}

/// What `worker_connections` says.
fn connections(words: &[Bytes]) -> Option<Effect>
    ensures { result ≡ spec.connections words.now }
{
    connections_of(number_of(only(words)?)?)
}

/// How many sockets a number stands for.
fn pool_of(number: u64) -> Option<Effect>
    ensures { result ≡ spec.pool_of number }
{
    if number <= 4_294_967_295 {
        Some(Effect::Count(number as u32))
    } else {
        None
    }
}

/// What `lua_socket_pool_size` says.
fn pool(words: &[Bytes]) -> Option<Effect>
    ensures { result ≡ spec.pool words.now }
{
    pool_of(number_of(only(words)?)?)
}

/// The longest body for which a size stands: 0 and more than the most are the most.
fn body_of(size: u64) -> u64
    ensures { result ≡ spec.body_of size }
{
    if size == 0 {
        MOST_BODY
    } else {
        size.min(MOST_BODY)
    }
}

/// What `client_max_body_size` says.
fn body(words: &[Bytes]) -> Option<Effect>
    ensures { result ≡ spec.body words.now }
{
    Some(Effect::Size(body_of(size_of(only(words)?)?)))
}

/// What a time says.
fn time(words: &[Bytes]) -> Option<Effect>
    ensures { result ≡ spec.time words.now }
{
    Some(Effect::Time(time_of(only(words)?)?))
}

/// Whether the words after a port make its server the default one.
fn is_default(words: &[Bytes]) -> Option<bool>
    ensures { result ≡ spec.is_default words.now }
{
    if words.len() == 1 {
        Some(false)
    } else if words.len() == 2 && word(words, 1) == b"default_server".as_slice() {
        Some(true)
    } else {
        None
    }
}

/// What `listen` says.
fn listen(words: &[Bytes]) -> Option<Effect>
    ensures { result ≡ spec.listen words.now }
{
    let is_default = is_default(words)?;
    let port = port_of(word(words, 0))?;
    Some(Effect::Listen(port, is_default))
}

/// The names in lower case.
fn lowered(alloc: Global, words: &[Bytes]) -> Result<ByteLists, AllocError>
    ensures { IfOk result (λ names. names ≡ map lower words.now) }
{
    let mut names = Vec::new(alloc);
    for word in words {
        names.push(lower(alloc, word)?)?;
    }
    Ok(ByteLists::of(names))
}

/// What `server_name` says.
fn names(alloc: Global, words: &[Bytes]) -> Result<Option<Effect>, AllocError>
    ensures { IfOk result (λ effect. effect ≡ spec.names words.now) }
{
    if words.is_empty() {
        return Ok(None);
    }
    Ok(Some(Effect::Names(lowered(alloc, words)?)))
}

/// Whether the size may be that of a dictionary.
fn is_dictionary_size(size: u64) -> bool
    ensures { result ≡ spec.is_dictionary_size size }
{
    0 < size && size <= MOST_DICTIONARY
}

/// The size of a dictionary.
fn dictionary_size(text: &[u8]) -> Option<u64>
    ensures { result ≡ spec.dictionary_size text.now }
{
    let size = size_of(text)?;
    if is_dictionary_size(size) {
        Some(size)
    } else {
        None
    }
}

/// What `lua_shared_dict` says.
fn dictionary(alloc: Global, words: &[Bytes]) -> Result<Option<Effect>, AllocError>
    ensures { IfOk result (λ effect. effect ≡ spec.dictionary words.now) }
{
    if words.len() != 2 || !is_name(word(words, 0)) {
        return Ok(None);
    }
    match dictionary_size(word(words, 1)) {
        Some(size) => Ok(Some(Effect::Dictionary(
            Bytes::copy_from_slice(alloc, word(words, 0))?,
            size,
        ))),
        None => Ok(None),
    }
}

/// What `lua_package_path` says.
fn package_path(alloc: Global, words: &[Bytes]) -> Result<Option<Effect>, AllocError>
    ensures { IfOk result (λ effect. effect ≡ spec.package_path words.now) }
{
    let pattern = without_default(word(words, 0));
    if words.len() == 1 && is_pattern(pattern) {
        Ok(Some(Effect::Text(Bytes::copy_from_slice(alloc, pattern)?)))
    } else {
        Ok(None)
    }
}

/// What `default_type` says.
fn default_type(alloc: Global, words: &[Bytes]) -> Result<Option<Effect>, AllocError>
    ensures { IfOk result (λ effect. effect ≡ spec.default_type words.now) }
{
    let text = word(words, 0);
    if words.len() == 1 && are_plain(text) {
        Ok(Some(Effect::Text(Bytes::copy_from_slice(alloc, text)?)))
    } else {
        Ok(None)
    }
}

/// The location of one word: a path, or a name of one byte or more after its `@`.
fn plain_location(alloc: Global, text: &[u8]) -> Result<Option<Effect>, AllocError>
    ensures { IfOk result (λ effect. effect ≡ spec.plain_location text.now) }
{
    if begins_with(text, b'/') {
        let path = Bytes::copy_from_slice(alloc, text)?;
        Ok(Some(Effect::Location(LocationKind::Prefix(path))))
    } else if begins_with(text, b'@') && text.len() > 1 {
        let name = Bytes::copy_from_slice(alloc, text)?;
        Ok(Some(Effect::Location(LocationKind::Named(name))))
    } else {
        Ok(None)
    }
}

/// The location of a sign and a path.
fn signed_location(alloc: Global, sign: &[u8], path: &[u8]) -> Result<Option<Effect>, AllocError>
    ensures { IfOk result (λ effect. effect ≡ spec.signed_location sign.now path.now) }
{
    if !begins_with(path, b'/') {
        Ok(None)
    } else if sign == b"=".as_slice() {
        let path = Bytes::copy_from_slice(alloc, path)?;
        Ok(Some(Effect::Location(LocationKind::Exact(path))))
    } else if sign == b"^~".as_slice() {
        let path = Bytes::copy_from_slice(alloc, path)?;
        Ok(Some(Effect::Location(LocationKind::Prefix(path))))
    } else {
        Ok(None)
    }
}

/// What `location` says.
fn location(alloc: Global, words: &[Bytes]) -> Result<Option<Effect>, AllocError>
    ensures { IfOk result (λ effect. effect ≡ spec.location words.now) }
{
    if words.len() == 1 {
        plain_location(alloc, word(words, 0))
    } else if words.len() == 2 {
        signed_location(alloc, word(words, 0), word(words, 1))
    } else {
        Ok(None)
    }
}

/// What a directive says by the words after its name, None where they are no value of it.
#[tactic(auto, unfolding(crate::specs::Effects::effect_of))]
pub fn effect_of(
    alloc: Global,
    directive: Directive,
    words: &[Bytes],
) -> Result<Option<Effect>, AllocError>
    ensures { IfOk result (λ effect. effect ≡ spec.effect_of directive words.now) }
{
    match directive {
        Directive::WorkerProcesses
        | Directive::Daemon
        | Directive::Pid
        | Directive::Sendfile
        | Directive::TcpNopush
        | Directive::TcpNodelay => Ok(idle(words.len() == 1)),
        Directive::User => Ok(idle(words.len() == 1 || words.len() == 2)),
        Directive::AccessLog => Ok(idle(!words.is_empty())),
        Directive::Events => Ok(opens(Place::Events, words)),
        Directive::Http => Ok(opens(Place::Http, words)),
        Directive::Server => Ok(opens(Place::Server, words)),
        Directive::ErrorLog => Ok(level(words)),
        Directive::WorkerConnections => Ok(connections(words)),
        Directive::SocketPoolSize => Ok(pool(words)),
        Directive::ClientMaxBodySize => Ok(body(words)),
        Directive::KeepaliveTimeout
        | Directive::ClientBodyTimeout
        | Directive::SendTimeout
        | Directive::ClientHeaderTimeout
        | Directive::SocketConnectTimeout
        | Directive::SocketSendTimeout
        | Directive::SocketReadTimeout
        | Directive::SocketKeepaliveTimeout => Ok(time(words)),
        Directive::Listen => Ok(listen(words)),
        Directive::ServerName => names(alloc, words),
        Directive::LuaSharedDict => dictionary(alloc, words),
        Directive::LuaPackagePath => package_path(alloc, words),
        Directive::DefaultType => default_type(alloc, words),
        Directive::Location => location(alloc, words),
        _ => Ok(bare(words)),
    }
}
