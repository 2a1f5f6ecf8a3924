//! The record of a request, and what a program may ask of its head and change in it.
ghost use Rattle.std.specs.Prelude.{◌≡◌, ◌↔◌, map, option_copied, IsTrue, IsFalse, IsSome, IsOk, IfOk, OnOk, OnErr, IsErrOf, IsOkUnless};
ghost use Rattle.uri_args.specs.Arguments.{args_of};
ghost use Rattle.request_api.specs.Requests as requests;
ghost use Rattle.request_api.specs.Setting as setting;

use crate::fields::set_fields;
use crate::{Reply, ReqFault};
use http_base::lower;
use http_in::Head;
use resty_base::{ByteLists, Bytes, Pair2};
use std::alloc::{AllocError, Global};
use uri_args::{Pair, Target, args_of};

/// What is known of a request: its head and its target as the program left them, how many internal redirects there were, and
/// what was said of the reply.
#[derive(Debug, Drop)]
pub struct Req {
    pub head: Head,
    pub target: Target,
    pub redirects: u8,
    pub reply: Reply,
}

impl Req {
    /// A request that begins, after so many internal redirects; takes no memory.
    pub fn begin(alloc: Global, head: Head, target: Target, redirects: u8) -> Req
        ensures { result ≡ requests.begun head target redirects }
    {
        Req {
            head,
            target,
            redirects,
            reply: Reply::new(alloc),
        }
    }

    /// The method.
    pub fn method(&self) -> &[u8]
        ensures { result.now ≡ self.now.head.method }
    {
        &self.head.method
    }

    /// Sets the method by its number: 2 GET, 4 HEAD, 8 POST, 16 PUT, 32 DELETE. Any other number is `BadRequest`. Takes no memory.
    pub fn set_method(&mut self, number: i64) -> Result<(), ReqFault>
        ensures done { OnOk result (self.new ≡ requests.with_method self.old number) }
        ensures allowed { IsOk result ↔ IsSome (requests.method_of number) }
        ensures refused { IsOkUnless result ReqFault.BadRequest }
        ensures kept { OnErr result (self.new ≡ self.old) }
    {
        match method_of(number) {
            Some(method) => {
                self.head.method = Bytes::from_static(method);
                Ok(())
            }
            None => Err(ReqFault::BadRequest),
        }
    }

    /// The first `max` arguments of the target that have a name, or all of them where `max` is 0.
    pub fn uri_args(&self, alloc: Global, max: u32) -> Result<Vec<Pair>, AllocError>
        ensures { IfOk result (λ pairs. pairs.items ≡ args_of self.now.target.args max) }
    {
        args_of(alloc, &self.target.args, max)
    }

    /// The same of a body that is a form.
    pub fn post_args(&self, alloc: Global, body: &Bytes, max: u32) -> Result<Vec<Pair>, AllocError>
        ensures { IfOk result (λ pairs. pairs.items ≡ args_of body.now max) }
    {
        args_of(alloc, body, max)
    }

    /// The first `max` header fields, or all of them where `max` is 0, with names in lower case. Values are shared.
    pub fn headers(&self, alloc: Global, max: u32) -> Result<Vec<Pair2>, AllocError>
        ensures { IfOk result (λ fields. fields.items ≡ requests.headers self.now max) }
    {
        let fields = self.head.headers.as_slice();
        lowered(alloc, &fields[..first_count(fields.len(), max)])
    }

    /// Sets the header fields of this name: one for each value, after all others. No value takes them out. `BadRequest` for a name
    /// or a value that no field may have, and where there would be more than 1,000 fields.
    pub fn set_header(
        &mut self,
        alloc: Global,
        name: &Bytes,
        values: &ByteLists,
    ) -> Result<(), ReqFault>
        ensures done { OnOk result (self.new ≡ requests.with_header self.old name.now values.now) }
        ensures allowed { OnOk result (IsFalse (setting.is_refused self.old.head.headers name.now values.now)) }
        ensures refused { IsErrOf result ReqFault.BadRequest → IsTrue (setting.is_refused self.old.head.headers name.now values.now) }
        ensures kept { OnErr result (self.new ≡ self.old) }
    {
        set_fields(alloc, &mut self.head.headers, name, values.as_slice())
    }

    /// Sets the path, as it is given; takes no memory.
    pub fn set_uri(&mut self, path: Bytes)
        ensures { self.new ≡ requests.with_path self.old path }
    {
        self.target.path = path;
    }

    /// Sets the arguments, as they are given; takes no memory.
    pub fn set_uri_args(&mut self, args: Bytes)
        ensures { self.new ≡ requests.with_args self.old args }
    {
        self.target.args = args;
    }
}

/// The method of a number.
fn method_of(number: i64) -> Option<&'static [u8]>
    ensures { option_copied result ≡ requests.method_of number }
{
    if number.is_negative() {
        None
    } else {
        method_numbered(number.unsigned_abs())
    }
}

fn method_numbered(number: u64) -> Option<&'static [u8]>
    ensures { option_copied result ≡ requests.method_numbered number }
{
    match number {
        2 => Some(b"GET"),
        4 => Some(b"HEAD"),
        8 => Some(b"POST"),
        16 => Some(b"PUT"),
        32 => Some(b"DELETE"),
        _ => None,
    }
}

/// How many of `count` fields are given: `max` at most, or all where `max` is 0.
fn first_count(count: usize, max: u32) -> usize
    ensures { result ≡ requests.first_count count max }
{
    if max == 0 {
        count
    } else {
        count.min(max as usize)
    }
}

/// The fields with their names in lower case.
fn lowered(alloc: Global, fields: &[Pair2]) -> Result<Vec<Pair2>, AllocError>
    ensures { IfOk result (λ lowered. lowered.items ≡ map requests.lowered fields.now) }
{
    let mut lowered = Vec::with_capacity(alloc, fields.len())?;
    for field in fields {
        lowered.push(Pair2 {
            name: lower(alloc, &field.name)?,
            value: field.value.clone()?,
        })?;
    }
    Ok(lowered)
}
