//! The lines of a head, and the version that its first line ends with.

ghost use Rattle.std.specs.Prelude.{◌≡◌, ◌≤◌, length};
ghost use Rattle.http_in.specs.Lines as spec;

use http_base::split_once;
use resty_base::{byte_at, bytes_after};

/// How many bytes a blank and a version have.
const VERSION_LENGTH: usize = 9;

/// How many lines of the text aren't empty.
pub(crate) fn count_lines(text: &[u8]) -> usize
    requires { length text.now ≤ 16384 }
    ensures { result ≡ length (spec.full_lines text.now) }
{
    let mut count = 0;
    let mut rest = Some(text);
    while let Some(lines) = rest {
        let (line, after) = split_once(lines, b'\n');
        if !is_empty_line(line) {
            count += 1;
        }
        rest = after;
    }
    count
}

/// The first line of the text that isn't empty, without its end.
pub(crate) fn request_line(text: &[u8]) -> &[u8]
    ensures { result.now ≡ spec.without_return (spec.first_line (spec.full_lines text.now)) }
{
    let mut rest = Some(text);
    while let Some(lines) = rest {
        let (line, after) = split_once(lines, b'\n');
        if !is_empty_line(line) {
            return without_return(line);
        }
        rest = after;
    }
    b""
}

fn is_empty_line(line: &[u8]) -> bool
    ensures { result ≡ spec.is_empty_line line.now }
{
    matches!(line, [] | [b'\r'])
}

fn without_return(line: &[u8]) -> &[u8]
    ensures { result.now ≡ spec.without_return line.now }
{
    if line.ends_with(b"\r") {
        &line[..line.len() - 1]
    } else {
        line
    }
}

/// Whether the line ends with a version of HTTP other than 1.0 and 1.1.
pub(crate) fn has_other_version(line: &[u8]) -> bool
    ensures { result ≡ spec.has_other_version line.now }
{
    let text = bytes_after(line, line.len().saturating_sub(VERSION_LENGTH));
    is_version(text) && !is_known_version(text)
}

fn is_version(text: &[u8]) -> bool
    ensures { result ≡ spec.is_version text.now }
{
    text.starts_with(b" HTTP/")
        && byte_at(text, 6).is_ascii_digit()
        && byte_at(text, 7) == b'.'
        && byte_at(text, 8).is_ascii_digit()
}

fn is_known_version(text: &[u8]) -> bool
    ensures { result ≡ spec.is_known_version text.now }
{
    byte_at(text, 6) == b'1' && (byte_at(text, 8) == b'0' || byte_at(text, 8) == b'1')
}
