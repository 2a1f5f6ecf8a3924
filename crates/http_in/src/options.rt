//! What else a head says: its host, whether the connection is kept, and whether the client waits for a 100 reply.

ghost use Rattle.std.specs.Prelude.{◌≡◌, IfOk};
ghost use Rattle.http_base.specs.Lent.{texts};
ghost use Rattle.http_in.specs.Options as spec;

use crate::framing::listed;
use crate::hosts::is_host;
use http_base::{Fields, same_name};
use resty_base::Bytes;
use std::alloc::{AllocError, Global};

/// Whether there are two hosts, none in 1.1, or one that isn't what a host has to be.
pub(crate) fn has_bad_host(alloc: Global, minor: u8, fields: &Fields) -> Result<bool, AllocError>
    ensures { IfOk result (λ bad. bad ≡ spec.has_bad_host minor fields.now) }
{
    let hosts = fields.values_of(alloc, b"host")?;
    Ok(match hosts.as_slice() {
        [] => minor == 1,
        [host] => !is_host(host),
        _ => true,
    })
}

/// Whether the connection is kept after the reply.
pub(crate) fn keeps(alloc: Global, minor: u8, fields: &Fields) -> Result<bool, AllocError>
    ensures { IfOk result (λ kept. kept ≡ spec.keeps minor fields.now) }
{
    let options = listed(alloc, fields, b"connection")?;
    Ok(!is_among(b"close", &options) && (minor == 1 || is_among(b"keep-alive", &options)))
}

/// Whether the client waits for a 100 reply before it sends the body.
pub(crate) fn expects(alloc: Global, minor: u8, fields: &Fields) -> Result<bool, AllocError>
    ensures { IfOk result (λ waits. waits ≡ spec.expects minor fields.now) }
{
    let values = fields.values_of(alloc, b"expect")?;
    Ok(minor == 1 && is_value(b"100-continue", &values))
}

/// Whether this word is one of the list.
fn is_among(word: &[u8], list: &[&[u8]]) -> bool
    ensures { result ≡ spec.is_among word.now (texts list.now) }
{
    for text in list {
        if same_name(text, word) {
            return true;
        }
    }
    false
}

/// Whether this word is one of the values.
fn is_value(word: &[u8], values: &[&Bytes]) -> bool
    ensures { result ≡ spec.is_among word.now (texts values.now) }
{
    for value in values {
        if same_name(value, word) {
            return true;
        }
    }
    false
}
