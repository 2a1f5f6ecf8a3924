//! What a call of `ngx` asks for.

ghost use Rattle.std.specs.Prelude.{◌≡◌, IfOk};
ghost use Rattle.ngx_calls.specs.Operations as spec;
ghost use Rattle.ngx_calls.specs.Printing.{printing};

use crate::printing::{Printing, print};
use lua_lib_base::Expected;
use lua_operators::argument_fault;
use lua_values::{BYTES_OF_A_STEP, STEP_LIMIT, Store, Value};
use resty_base::Bytes;
use std::alloc::{AllocError, Global};

/// What a call asks for.
#[derive(Debug, Drop)]
pub enum Wanted {
    /// These bytes are part of the body of the reply.
    Print(Bytes),
    /// The call is refused, and fails with this text.
    Refused(Bytes),
    /// No such call is built.
    Unknown,
}

/// It, and the steps that reading it took.
#[derive(Debug, Drop)]
pub struct Read {
    pub wanted: Wanted,
    pub steps: u64,
}

/// Reads the call of a number with its arguments.
pub fn read_operation(
    alloc: Global,
    number: u32,
    args: &[Value],
    store: &Store,
) -> Result<Read, AllocError>
    ensures { IfOk result (λ read. read ≡ spec.read_operation number args.now store.now.heap) }
{
    match number {
        0 => read_printing(alloc, b"print", b"", args, store),
        1 => read_printing(alloc, b"say", b"\n", args, store),
        _ => Ok(Read {
            wanted: Wanted::Unknown,
            steps: 0,
        }),
    }
}

/// A call of this name, which puts these bytes after what it prints.
fn read_printing(
    alloc: Global,
    name: &[u8],
    end: &[u8],
    args: &[Value],
    store: &Store,
) -> Result<Read, AllocError>
    ensures { IfOk result (λ read. read ≡ spec.read_printing name.now end.now (printing store.now.heap args.now)) }
{
    match print(alloc, args, end, store)? {
        Printing::BadRequest => Ok(Read {
            wanted: Wanted::Refused(Bytes::from_static(b"bad request")),
            steps: 0,
        }),
        Printing::BadArgument(number, found) => Ok(Read {
            wanted: Wanted::Refused(argument_fault(
                alloc,
                number,
                name,
                Expected::String.text(),
                found.name(),
            )?),
            steps: 0,
        }),
        Printing::Prints(bytes, taken) => Ok(Read {
            wanted: Wanted::Print(bytes),
            steps: (taken / BYTES_OF_A_STEP).min(STEP_LIMIT),
        }),
    }
}
