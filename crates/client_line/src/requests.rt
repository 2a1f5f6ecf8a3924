//! Requests: heads with their targets.

ghost use Rattle.std.specs.Prelude.{◌≡◌, ◌≢◌, Some, length, slice_get, option_copied, IfOk};
ghost use Rattle.http_base.specs.FieldLists.{values_of};
ghost use Rattle.http_in.specs.Ends.{head_end};
ghost use Rattle.client_line.specs.Requests as spec;

use http_base::{Fields, plain_host, same_name};
use http_in::{Head, HeadRead, head_in};
use resty_base::{Bytes, Pair2};
use std::alloc::{AllocError, Global};
use uri_args::{Target, target_of};

/// What bytes that came lead to.
#[derive(Debug, Drop)]
pub enum LineOut {
    /// No further request yet, or one is present.
    Waiting,
    /// The next request; it is present from now on.
    Request(Head, Target),
    /// No request, whatever follows: the status of the reply.
    Refused(u16),
    /// Out of memory; the line is as it was.
    Memory,
}

/// The request of a whole head; its parts are slices of these bytes.
pub(crate) fn request_in(alloc: Global, head: Bytes) -> LineOut
    requires { head_end head ≡ Some (length head) }
    ensures { result ≢ LineOut.Memory → spec.IsOf head result }
{
    match head_in(alloc, head) {
        HeadRead::Whole(head, _) => request_of(alloc, head),
        HeadRead::Refused(code) => LineOut::Refused(code),
        HeadRead::More => LineOut::Waiting,
        HeadRead::Memory => LineOut::Memory,
    }
}

/// The request of a head, 400 where its target is refused.
fn request_of(alloc: Global, head: Head) -> LineOut
    ensures { result ≢ LineOut.Memory → result ≡ spec.request_of head }
{
    match target_for(alloc, &head) {
        Ok(Some(target)) => LineOut::Request(head, target),
        Ok(None) => LineOut::Refused(400),
        Err(_) => LineOut::Memory,
    }
}

/// The target of the head, None where it is refused. Its host is that of the Host field where it names none.
fn target_for(alloc: Global, head: &Head) -> Result<Option<Target>, AllocError>
    ensures { IfOk result (λ found. found ≡ spec.target_for head.now) }
{
    let Some(target) = target_of(alloc, &head.target)? else {
        return Ok(None);
    };
    let Target { path, args, host } = target;
    let host = match host {
        Some(host) => Some(host),
        None => host_of(alloc, &head.headers)?,
    };
    Ok(Some(Target { path, args, host }))
}

/// The host of the first Host field.
fn host_of(alloc: Global, fields: &Fields) -> Result<Option<Bytes>, AllocError>
    ensures { IfOk result (λ host. host ≡ spec.host_of fields.now) }
{
    match first_named(fields.as_slice(), b"host") {
        Some(host) => Ok(Some(plain_host(alloc, host)?)),
        None => Ok(None),
    }
}

/// The value of the first field of this name.
fn first_named<'a>(fields: &'a [Pair2], name: &[u8]) -> Option<&'a Bytes>
    ensures { option_copied result ≡ slice_get (values_of fields.now name.now) 0 }
{
    let mut rest = fields;
    while let [field, others @ ..] = rest {
        if same_name(&field.name, name) {
            return Some(&field.value);
        }
        rest = others;
    }
    None
}
