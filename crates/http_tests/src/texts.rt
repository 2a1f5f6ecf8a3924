//! Bytes in the rows of the tests. In those of calls and requests a character is the byte of its number, and `␍` and `␊` are the two bytes of a
//! line's end; in the others bytes are those of their text.
use http_base::Fields;
use resty_base::{Bytes, Pair2};
use std::alloc::{AllocError, Global};

fn byte_of(letter: char) -> u8 {
    match letter {
        '␍' => b'\r',
        '␊' => b'\n',
        _ => (letter as u32 & 0xff) as u8,
    }
}

fn letter_of(byte: u8) -> char {
    match byte {
        b'\r' => '␍',
        b'\n' => '␊',
        _ => byte as char,
    }
}

/// The joined bytes of texts.
pub(crate) fn joined(alloc: Global, texts: &[&str]) -> Result<Vec<u8>, AllocError> {
    let mut bytes = Vec::new(alloc);
    for text in texts {
        for letter in text.chars() {
            bytes.push(byte_of(letter))?;
        }
    }
    Ok(bytes)
}

/// The bytes of a text.
pub(crate) fn bytes_of(alloc: Global, text: &str) -> Result<Bytes, AllocError> {
    let bytes = joined(alloc, &[text])?;
    Bytes::copy_from_slice(alloc, bytes.as_slice())
}

/// Writes bytes.
pub(crate) fn write(all: &mut String, bytes: &[u8]) -> Result<(), AllocError> {
    for byte in bytes {
        all.push(letter_of(*byte))?;
    }
    Ok(())
}

/// Writes bytes in brackets.
pub(crate) fn write_part(all: &mut String, bytes: &[u8]) -> Result<(), AllocError> {
    all.push('[')?;
    write(all, bytes)?;
    all.push(']')
}

/// A field, written `NAME=VALUE`.
pub(crate) fn field_of(alloc: Global, text: &str) -> Result<Pair2, AllocError> {
    let (name, value) = text.split_once('=').unwrap_or((text, ""));
    Ok(Pair2 {
        name: bytes_of(alloc, name)?,
        value: bytes_of(alloc, value)?,
    })
}

/// Fields with a space after each.
pub(crate) fn fields_of(alloc: Global, text: &str) -> Result<Fields, AllocError> {
    let mut fields = Vec::new(alloc);
    for field in text.split_terminator(' ') {
        fields.push(field_of(alloc, field)?)?;
    }
    Ok(Fields::of(fields))
}

/// The bytes that are a text.
pub(crate) fn plain_bytes(alloc: Global, text: &str) -> Result<Bytes, AllocError> {
    Bytes::copy_from_slice(alloc, text.as_bytes())
}

/// Writes bytes that are a text, `?` where they are none.
pub(crate) fn write_plain(all: &mut String, bytes: &[u8]) -> Result<(), AllocError> {
    all.push_str(str::from_utf8(bytes).unwrap_or("?"))
}

/// Writes a number.
pub(crate) fn write_number(alloc: Global, all: &mut String, number: u64) -> Result<(), AllocError> {
    all.push_str(format!(in alloc; "{number}")?.as_str())
}
