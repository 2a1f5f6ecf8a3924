//! What heads and bodies are put together from. Each is put after what `out` holds.
ghost use Rattle.std.specs.Prelude.{◌≡◌, ◌++◌, OnOk, decimal, flat_map};
ghost use Rattle.http_reply.specs.Lines as lines;

use itoa::Buffer;
use resty_base::Pair2;
use std::alloc::AllocError;

/// Puts a number in decimal digits.
pub(crate) fn put_number(out: &mut Vec<u8>, number: u64) -> Result<(), AllocError>
    ensures { OnOk result (out.new.items ≡ out.old.items ++ decimal number) }
{
    let mut buffer = Buffer::new();
    out.extend_from_slice(buffer.format(number).as_bytes())
}

/// Puts the end of a line.
pub(crate) fn put_line_end(out: &mut Vec<u8>) -> Result<(), AllocError>
    ensures { OnOk result (out.new.items ≡ out.old.items ++ lines.line_end) }
{
    out.extend_from_slice(b"\r\n")
}

/// Puts a field's line.
pub(crate) fn put_field(out: &mut Vec<u8>, name: &[u8], value: &[u8]) -> Result<(), AllocError>
    ensures { OnOk result (out.new.items ≡ out.old.items ++ lines.field_line name.now value.now) }
{
    out.extend_from_slice(name)?;
    out.extend_from_slice(b": ")?;
    out.extend_from_slice(value)?;
    out.extend_from_slice(b"\r\n")
}

/// Puts the line of a field whose value is a number.
pub(crate) fn put_number_field(
    out: &mut Vec<u8>,
    name: &[u8],
    number: u64,
) -> Result<(), AllocError>
    ensures { OnOk result (out.new.items ≡ out.old.items ++ lines.field_line name.now (decimal number)) }
{
    let mut buffer = Buffer::new();
    put_field(out, name, buffer.format(number).as_bytes())
}

/// Puts the lines of these fields.
pub(crate) fn put_fields(out: &mut Vec<u8>, fields: &[Pair2]) -> Result<(), AllocError>
    ensures { OnOk result (out.new.items ≡ out.old.items ++ lines.field_lines fields.now) }
{
    for field in fields {
        put_field(out, &field.name, &field.value)?;
    }
    Ok(())
}
