//! Lines of the log.

ghost use Rattle.std.specs.Prelude.{◌≡◌, ◌<◌, ◌++◌, true, flat_map, IfOk, OnOk};
ghost use Rattle.std.specs.Fmt.{digit_glyph};
ghost use Rattle.reply_stages.specs.Lines as spec;

use itoa::Buffer;
use lua_values::Value;
use resty_base::{Bytes, Ms};
use run_threads::End;
use std::alloc::{AllocError, Global};

/// The number of the level `error`; lines of a greater one than the configuration's aren't written.
const ERROR_LEVEL: u8 = 4;

/// An upper-case hex digit.
fn hex_digit(number: u8) -> u8
    requires { number < 16 }
    ensures { result ≡ digit_glyph true number }
{
    if number < 10 {
        b'0' + number
    } else {
        b'A' + (number - 10)
    }
}

/// Puts a byte, a control byte as `\x` and two digits.
fn put_escaped(line: &mut Vec<u8>, byte: u8) -> Result<(), AllocError>
    ensures { OnOk result (line.new.items ≡ line.old.items ++ spec.escaped_byte byte) }
{
    if byte < 32 || byte == 127 {
        line.extend_from_slice(b"\\x")?;
        line.push(hex_digit(byte / 16))?;
        line.push(hex_digit(byte % 16))?;
    } else {
        line.push(byte)?;
    }
    Ok(())
}

/// Puts a text with its control bytes escaped.
fn put_text(line: &mut Vec<u8>, text: &[u8]) -> Result<(), AllocError>
    ensures { OnOk result (line.new.items ≡ line.old.items ++ flat_map spec.escaped_byte text.now) }
{
    for byte in text {
        put_escaped(line, *byte)?;
    }
    Ok(())
}

/// The line of a text at a moment, of the level `error`.
fn error_line(alloc: Global, now: Ms, text: &[u8]) -> Result<Bytes, AllocError>
    ensures { IfOk result (λ line. line ≡ spec.error_line now.0 text.now) }
{
    let mut buffer = Buffer::new();
    let mut line = Vec::new(alloc);
    line.extend_from_slice(buffer.format(now.0).as_bytes())?;
    line.extend_from_slice(b" [error] ")?;
    put_text(&mut line, text)?;
    Ok(Bytes::from_vec(line)?)
}

/// What a fault says: a text, or nothing that is known.
fn message_of(fault: &Value) -> &[u8]
    ensures { result.now ≡ spec.message_of fault.now }
{
    match fault {
        Value::Text(text) => text,
        _ => b"unknown reason",
    }
}

/// What is logged of how a handler ended.
fn aborted(alloc: Global, end: &End) -> Result<Option<Bytes>, AllocError>
    ensures { IfOk result (λ text. text ≡ spec.aborted end.now) }
{
    match end {
        End::Ended => Ok(None),
        End::Failed(fault) => {
            let mut text = Vec::new(alloc);
            text.extend_from_slice(b"lua entry thread aborted: runtime error: ")?;
            text.extend_from_slice(message_of(fault))?;
            Ok(Some(Bytes::from_vec(text)?))
        }
        End::Spent => Ok(Some(Bytes::from_static(
            b"lua run aborted: step budget of 1000000 spent",
        ))),
    }
}

/// The line of it at a moment, where the configuration's level lets it be written.
pub fn line_of(alloc: Global, level: u8, now: Ms, end: &End) -> Result<Option<Bytes>, AllocError>
    ensures { IfOk result (λ line. line ≡ spec.line_of level now.0 end.now) }
{
    match aborted(alloc, end)? {
        Some(text) if ERROR_LEVEL <= level => Ok(Some(error_line(alloc, now, &text)?)),
        _ => Ok(None),
    }
}
