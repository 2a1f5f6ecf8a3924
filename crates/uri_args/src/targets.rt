//! Targets: a path with its arguments, and the host of an absolute one.
ghost use Rattle.std.specs.Prelude.{◌≡◌, IfOk};
ghost use Rattle.uri_args.specs.Targets as spec;

use crate::path_of;
use crate::shared::{shared_after, split_shared};
use http_base::{plain_host, split_once};
use resty_base::Bytes;
use std::alloc::{AllocError, Global};

/// How many bytes `http://` has.
const SCHEME_LENGTH: usize = 7;

/// What a target says: the path without escapes and dot segments, the arguments as they are written, and the host
/// in lower case without its port, where the target has one.
#[derive(Debug, PartialEq, Eq, Drop)]
pub struct Target {
    pub path: Bytes,
    pub args: Bytes,
    pub host: Option<Bytes>,
}

/// What the target says, None where it is refused. The arguments, and a path that is written plainly, share the target.
pub fn target_of(alloc: Global, target: &Bytes) -> Result<Option<Target>, AllocError>
    ensures { IfOk result (λ found. found ≡ spec.target_of target.now) }
{
    if target.starts_with(b"http://") {
        let rest = shared_after(target, SCHEME_LENGTH)?;
        absolute_target(alloc, &rest)
    } else {
        local_target(alloc, None, target)
    }
}

/// What an absolute target says, by what stands after its `http://`.
fn absolute_target(alloc: Global, rest: &Bytes) -> Result<Option<Target>, AllocError>
    ensures { IfOk result (λ found. found ≡ spec.absolute_target rest.now) }
{
    let (authority, _) = split_once(rest, b'/');
    if authority.is_empty() {
        return Ok(None);
    }
    let host = plain_host(alloc, authority)?;
    let local = shared_after(rest, authority.len())?;
    local_target(alloc, Some(host), &local)
}

/// What a target from its path on says, on this host.
fn local_target(
    alloc: Global,
    host: Option<Bytes>,
    local: &Bytes,
) -> Result<Option<Target>, AllocError>
    ensures { IfOk result (λ found. found ≡ spec.local_target host local.now) }
{
    if !begins_with_slash(local) {
        return Ok(None);
    }
    let (escaped, after) = split_shared(local, b'?')?;
    let Some(path) = path_of(alloc, &escaped)? else {
        return Ok(None);
    };
    let args = match after {
        Some(args) => args,
        None => Bytes::new(),
    };
    Ok(Some(Target { path, args, host }))
}

/// Whether the text begins with `/`.
fn begins_with_slash(text: &[u8]) -> bool
    ensures { result ≡ spec.begins_with_slash text.now }
{
    matches!(text, [b'/', ..])
}
