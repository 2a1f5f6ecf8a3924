//! The host of an authority (RFC 9110, 7.2).
ghost use Rattle.std.specs.Prelude.{◌≡◌, IfOk};
ghost use Rattle.http_base.specs.Hosts as hosts;

use crate::{lower, split_once};
use resty_base::Bytes;
use std::alloc::{AllocError, Global};

/// The host in lower case, without its port.
pub fn plain_host(alloc: Global, text: &[u8]) -> Result<Bytes, AllocError>
    ensures { IfOk result (λ host. host ≡ hosts.plain_host text.now) }
{
    lower(alloc, without_port(text))
}

/// The host as it is written: up to the first `:`, or to the `]` of what begins with `[`.
fn without_port(text: &[u8]) -> &[u8]
    ensures { result.now ≡ hosts.without_port text.now }
{
    match text {
        [b'[', ..] => {
            let (address, _) = split_once(text, b']');
            &text[..text.len().min(address.len() + 1)]
        }
        _ => split_once(text, b':').0,
    }
}
