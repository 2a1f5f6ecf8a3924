//! What a program says of the reply.
ghost use Rattle.std.specs.Prelude.{◌≡◌, ◌↔◌, not, length, unsigned_abs, IsTrue, IsFalse, IsOk, IfOk, OnOk, OnErr, IsErrOf, IsOkUnless};
ghost use Rattle.request_api.specs.Requests.{new_reply};
ghost use Rattle.request_api.specs.Replies as replies;

use crate::fields::set_fields;
use crate::lengths::are_lengths;
use crate::names::dashed;
use crate::values::all_shared;
use crate::{Req, ReqFault};
use http_base::{Fields, same_name};
use resty_base::{ByteLists, Bytes};
use std::alloc::{AllocError, Global};

/// The most bytes that the calls that make output may be given in a request.
const OUTPUT_LIMIT: u64 = 4_194_304;

/// What was said of a reply.
#[derive(Debug, Drop)]
pub struct Reply {
    pub status: u16,
    /// The header fields that were set, with `-` for each `_` in their names.
    pub headers: Fields,
    /// Whether the head was sent.
    pub sent: bool,
    /// Whether the program said that the body is over.
    pub ended: bool,
    /// How many bytes the calls that make output were given.
    pub given: u64,
}

impl Reply {
    /// A reply of which nothing was said; takes no memory.
    pub fn new(alloc: Global) -> Reply
        ensures { result ≡ new_reply }
    {
        Reply {
            status: 200,
            headers: Fields::of(Vec::new(alloc)),
            sent: false,
            ended: false,
            given: 0,
        }
    }
}

/// What becomes of bytes that a program makes for the body.
#[derive(Clone, Copy, Debug, PartialEq, Eq)]
pub enum Printed {
    /// They are part of it.
    Took,
    /// The program said before that it is over.
    SeenEof,
    /// They are too many, with those before them.
    OverLimit,
}

impl Req {
    /// Sets the status, a number from 200 to 599, else `BadRequest`. After the head it stays as it is. Takes no memory.
    pub fn set_status(&mut self, status: i64) -> Result<(), ReqFault>
        ensures done { OnOk result (self.new ≡ replies.with_status self.old (unsigned_abs status)) }
        ensures allowed { IsOk result ↔ IsTrue (replies.is_status status) }
        ensures refused { IsOkUnless result ReqFault.BadRequest }
        ensures kept { OnErr result (self.new ≡ self.old) }
    {
        let number = status.unsigned_abs();
        if status.is_negative() || number < 200 || number > 599 {
            return Err(ReqFault::BadRequest);
        }
        if !self.reply.sent {
            self.reply.status = number as u16;
        }
        Ok(())
    }

    /// The values of the reply's fields of this name, with `_` for `-` as well. They are shared.
    pub fn reply_header(&self, alloc: Global, name: &Bytes) -> Result<ByteLists, AllocError>
        ensures { IfOk result (λ values. values ≡ replies.reply_header self.now name.now) }
    {
        let name = dashed(alloc, name)?;
        let values = self.reply.headers.values_of(alloc, &name)?;
        Ok(ByteLists::of(all_shared(alloc, &values)?))
    }

    /// Sets the reply's fields of this name, with `-` for each `_`: one for each value, after all others. No value takes them out.
    /// Returns whether this was done: after the head nothing is. `BadRequest` for `Connection`, `Date` and `Transfer-Encoding`, for
    /// a `Content-Length` that isn't one number of 1 to 15 digits, for a name or a value that no field may have, and where there
    /// would be more than 1,000 fields.
    pub fn set_reply_header(
        &mut self,
        alloc: Global,
        name: &Bytes,
        values: &ByteLists,
    ) -> Result<bool, ReqFault>
        ensures done { OnOk result (self.new ≡ replies.with_reply_header self.old name.now values.now) }
        ensures told { IfOk result (λ set. set ≡ not self.old.reply.sent) }
        ensures allowed { OnOk result (IsFalse (replies.is_refused self.old.reply name.now values.now)) }
        ensures refused { IsErrOf result ReqFault.BadRequest → IsTrue (replies.is_refused self.old.reply name.now values.now) }
        ensures kept { OnErr result (self.new ≡ self.old) }
    {
        if self.reply.sent {
            return Ok(false);
        }
        let name = dashed(alloc, name)?;
        if is_reserved(&name) || has_bad_length(&name, values.as_slice()) {
            return Err(ReqFault::BadRequest);
        }
        set_fields(alloc, &mut self.reply.headers, &name, values.as_slice())?;
        Ok(true)
    }

    /// Counts bytes that the program makes for the body: none after its end, and none that would pass 4,194,304 in all. Takes no memory.
    pub fn print(&mut self, bytes: &[u8]) -> Printed
        ensures told { result ≡ replies.printed self.old.reply (length bytes.now) }
        ensures after { self.new ≡ replies.after_print self.old (length bytes.now) }
    {
        let given = self.reply.given.saturating_add(bytes.len() as u64);
        if self.reply.ended {
            Printed::SeenEof
        } else if given > OUTPUT_LIMIT {
            Printed::OverLimit
        } else {
            self.reply.given = given;
            Printed::Took
        }
    }

    /// The body is over; takes no memory.
    pub fn eof(&mut self)
        ensures { self.new ≡ replies.after_eof self.old }
    {
        self.reply.ended = true;
    }
}

/// Whether fields of this name are the server's own.
fn is_reserved(name: &[u8]) -> bool
    ensures { result ≡ replies.is_reserved name.now }
{
    same_name(name, b"connection")
        || same_name(name, b"date")
        || same_name(name, b"transfer-encoding")
}

/// Whether this is a length of the body that is none.
fn has_bad_length(name: &[u8], values: &[Bytes]) -> bool
    ensures { result ≡ replies.has_bad_length name.now values.now }
{
    same_name(name, b"content-length") && !are_lengths(values)
}
