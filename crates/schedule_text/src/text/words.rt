//! The words of the texts: numbers, names, quoted bytes. Each is put after what `out` holds.
ghost use Rattle.std.specs.Prelude.{◌≡◌, ◌++◌, ◌<◌, OnOk, codes, decimal};
ghost use Rattle.std.specs.Fmt.{signed_decimal};
ghost use Rattle.schedule_text.specs.Words.{hex_digit, id_text, quoted, quoted_byte, strand_text};

use itoa::Buffer;
use resty_base::{Bytes, Id, StrandId};
use std::alloc::AllocError;

/// Puts a text as it is.
pub fn put(out: &mut Vec<u8>, text: &[u8]) -> Result<(), AllocError>
    ensures { OnOk result (out.new.items ≡ out.old.items ++ text.now) }
{
    out.extend_from_slice(text)
}

/// Puts a number.
pub fn put_number(out: &mut Vec<u8>, number: u64) -> Result<(), AllocError>
    ensures { OnOk result (out.new.items ≡ out.old.items ++ decimal number) }
{
    let mut buffer = Buffer::new();
    out.extend_from_slice(buffer.format(number).as_bytes())
}

/// Puts a number that may be below 0.
pub fn put_integer(out: &mut Vec<u8>, number: i64) -> Result<(), AllocError>
    ensures { OnOk result (out.new.items ≡ out.old.items ++ signed_decimal number) }
{
    let mut buffer = Buffer::new();
    out.extend_from_slice(buffer.format(number).as_bytes())
}

/// Puts a connection or a socket.
pub fn put_id(out: &mut Vec<u8>, id: &Id) -> Result<(), AllocError>
    ensures { OnOk result (out.new.items ≡ out.old.items ++ id_text id.now) }
{
    match id {
        Id::Conn(number) => put_numbered(out, b"c", *number),
        Id::Sock(number) => put_numbered(out, b"s", *number),
    }
}

/// Puts a strand.
pub fn put_strand(out: &mut Vec<u8>, strand: &StrandId) -> Result<(), AllocError>
    ensures { OnOk result (out.new.items ≡ out.old.items ++ strand_text strand.now) }
{
    match strand {
        StrandId::Conn(number) => put_numbered(out, b"c", *number),
        StrandId::Job(number) => put_numbered(out, b"t", *number),
    }
}

/// The lower-case hexadecimal digit of a number below 16.
fn hex(digit: u8) -> u8
    requires { digit < 16 }
    ensures { result ≡ hex_digit digit }
{
    if digit < 10 {
        b'0' + digit
    } else {
        b'a' - 10 + digit
    }
}

/// Puts a byte as it stands within quotes.
pub fn put_quoted_byte(out: &mut Vec<u8>, byte: u8) -> Result<(), AllocError>
    ensures { OnOk result (out.new.items ≡ out.old.items ++ quoted_byte byte) }
{
    match byte {
        b'"' => put(out, b"\\\""),
        b'\\' => put(out, b"\\\\"),
        b'\n' => put(out, b"\\n"),
        b'\r' => put(out, b"\\r"),
        b' '..=b'~' => put(out, &[byte]),
        _ => put(out, &[b'\\', b'x', hex(byte / 16), hex(byte % 16)]),
    }
}

/// Puts bytes between quotes.
pub fn put_quoted(out: &mut Vec<u8>, bytes: &[u8]) -> Result<(), AllocError>
    ensures { OnOk result (out.new.items ≡ out.old.items ++ quoted bytes.now) }
{
    put(out, b"\"")?;
    for byte in bytes {
        put_quoted_byte(out, *byte)?;
    }
    put(out, b"\"")
}

/// Puts a text and a number.
pub fn put_numbered(out: &mut Vec<u8>, text: &[u8], number: u64) -> Result<(), AllocError>
    ensures { OnOk result (out.new.items ≡ out.old.items ++ text.now ++ decimal number) }
{
    put(out, text)?;
    put_number(out, number)
}

/// Puts a text and a number of at most 32 bits.
pub fn put_small(out: &mut Vec<u8>, text: &[u8], number: u32) -> Result<(), AllocError>
    ensures { OnOk result (out.new.items ≡ out.old.items ++ text.now ++ decimal number) }
{
    put_numbered(out, text, number as u64)
}

/// Puts a text and a number that may be below 0.
pub fn put_with_integer(out: &mut Vec<u8>, text: &[u8], number: i64) -> Result<(), AllocError>
    ensures { OnOk result (out.new.items ≡ out.old.items ++ text.now ++ signed_decimal number) }
{
    put(out, text)?;
    put_integer(out, number)
}

/// Puts a text and a connection or a socket.
pub fn put_named(out: &mut Vec<u8>, text: &[u8], id: &Id) -> Result<(), AllocError>
    ensures { OnOk result (out.new.items ≡ out.old.items ++ text.now ++ id_text id.now) }
{
    put(out, text)?;
    put_id(out, id)
}

/// Puts a text and a strand.
pub fn put_who(out: &mut Vec<u8>, text: &[u8], who: &StrandId) -> Result<(), AllocError>
    ensures { OnOk result (out.new.items ≡ out.old.items ++ text.now ++ strand_text who.now) }
{
    put(out, text)?;
    put_strand(out, who)
}

/// Puts a text and quoted bytes.
pub fn put_with_quoted(out: &mut Vec<u8>, text: &[u8], bytes: &[u8]) -> Result<(), AllocError>
    ensures { OnOk result (out.new.items ≡ out.old.items ++ text.now ++ quoted bytes.now) }
{
    put(out, text)?;
    put_quoted(out, bytes)
}

/// Puts a text, a connection or a socket, a space and quoted bytes.
pub fn put_named_bytes(
    out: &mut Vec<u8>,
    text: &[u8],
    id: &Id,
    bytes: &Bytes,
) -> Result<(), AllocError>
    ensures { OnOk result (out.new.items ≡ out.old.items ++ text.now ++ id_text id.now ++ codes " " ++ quoted bytes.now) }
{
    put_named(out, text, id)?;
    put_with_quoted(out, b" ", bytes.as_slice())
}
