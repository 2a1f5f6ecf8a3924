//! How far a body has come, byte by byte.

ghost use Rattle.std.specs.Prelude.{◌≡◌};
ghost use Rattle.http_bodies.specs.States as spec;

use httparse::{is_space_or_tab, parse_hex_digit};

/// The most bytes that a chunk line may have, and all trailers together.
const LINE_LIMIT: u32 = 16_384;

/// The most digits that a chunk's size may have.
const DIGIT_LIMIT: u32 = 16;

/// What data is part of.
#[derive(Clone, Copy, Debug, PartialEq, Eq)]
pub enum DataOf {
    /// A body with a length.
    Body,
    /// A chunk.
    Chunk,
}

/// How far a body has come. A size is that of the chunk whose line is being read, with how many bytes of the line or
/// of the trailers came.
#[derive(Clone, Copy, Debug, PartialEq, Eq)]
pub enum BodyState {
    /// Data: one byte and so many more are still to come.
    Data(u64, DataOf),
    /// The digits of a size.
    Digits(u64, u32),
    /// Blanks after the digits.
    Blanks(u64, u32),
    /// An extension.
    Extension(u64, u32),
    /// The CR at the end of a chunk line came.
    Return(u64, u32),
    /// The data of a chunk came; then the CR after it.
    DataEnd,
    DataReturn,
    /// Trailers: at the beginning of a line, after a CR there, within a line.
    Trailers(u32),
    TrailersReturn(u32),
    TrailersLine(u32),
    /// All of the body came.
    Whole,
    /// It is refused with this status.
    Refused(u16),
}

impl BodyState {
    /// After one more byte; the sizes of chunks may come to `room` bytes more.
    pub(crate) fn after(self, room: u64, byte: u8) -> BodyState
        ensures { result ≡ spec.after_byte room self byte }
    {
        match self {
            BodyState::Data(more, of) => after_data(more, of),
            BodyState::Digits(size, used) => after_digits(size, used, byte),
            BodyState::Blanks(size, used) => after_blanks(size, used, byte),
            BodyState::Extension(size, used) => after_extension(size, used, byte),
            BodyState::Return(size, used) => after_return(room, size, used, byte),
            BodyState::DataEnd => expect(byte, b'\r', BodyState::DataReturn),
            BodyState::DataReturn => expect(byte, b'\n', BodyState::Digits(0, 0)),
            BodyState::Trailers(used) => after_trailers(used, byte),
            BodyState::TrailersReturn(used) => after_trailers_return(used, byte),
            BodyState::TrailersLine(used) => after_trailers_line(used, byte),
            BodyState::Whole => BodyState::Whole,
            BodyState::Refused(code) => BodyState::Refused(code),
        }
    }

    /// Whether the body is whole or refused.
    pub(crate) fn is_settled(self) -> bool
        ensures { result ≡ spec.is_settled self }
    {
        matches!(self, BodyState::Whole | BodyState::Refused(_))
    }
}

fn expect(byte: u8, wanted: u8, next: BodyState) -> BodyState
    ensures { result ≡ spec.expect byte wanted next }
{
    if byte == wanted {
        next
    } else {
        BodyState::Refused(400)
    }
}

fn after_data(more: u64, of: DataOf) -> BodyState
    ensures { result ≡ spec.after_data more of }
{
    if more > 0 {
        BodyState::Data(more - 1, of)
    } else {
        data_end(of)
    }
}

/// After the last byte of data.
pub(crate) fn data_end(of: DataOf) -> BodyState
    ensures { result ≡ spec.data_end of }
{
    match of {
        DataOf::Body => BodyState::Whole,
        DataOf::Chunk => BodyState::DataEnd,
    }
}

fn after_digits(size: u64, used: u32, byte: u8) -> BodyState
    ensures { result ≡ spec.after_digits size used byte }
{
    match parse_hex_digit(byte) {
        Some(digit) if used < DIGIT_LIMIT && size < 1 << 60 => BodyState::Digits(
            size * 16 + digit,
            used + 1,
        ),
        Some(_) => BodyState::Refused(400),
        None if used == 0 => BodyState::Refused(400),
        None => after_blanks(size, used, byte),
    }
}

fn after_blanks(size: u64, used: u32, byte: u8) -> BodyState
    ensures { result ≡ spec.after_blanks size used byte }
{
    if used >= LINE_LIMIT {
        return BodyState::Refused(400);
    }
    if is_space_or_tab(byte) {
        BodyState::Blanks(size, used + 1)
    } else if byte == b';' {
        BodyState::Extension(size, used + 1)
    } else if byte == b'\r' {
        BodyState::Return(size, used + 1)
    } else {
        BodyState::Refused(400)
    }
}

fn after_extension(size: u64, used: u32, byte: u8) -> BodyState
    ensures { result ≡ spec.after_extension size used byte }
{
    if used >= LINE_LIMIT {
        return BodyState::Refused(400);
    }
    match byte {
        b'\r' => BodyState::Return(size, used + 1),
        b'\n' => BodyState::Refused(400),
        _ => BodyState::Extension(size, used + 1),
    }
}

fn after_return(room: u64, size: u64, used: u32, byte: u8) -> BodyState
    ensures { result ≡ spec.after_return room size used byte }
{
    if used >= LINE_LIMIT || byte != b'\n' {
        BodyState::Refused(400)
    } else if size == 0 {
        BodyState::Trailers(0)
    } else if size > room {
        BodyState::Refused(413)
    } else {
        BodyState::Data(size - 1, DataOf::Chunk)
    }
}

fn after_trailers(used: u32, byte: u8) -> BodyState
    ensures { result ≡ spec.after_trailers used byte }
{
    if used >= LINE_LIMIT {
        return BodyState::Refused(400);
    }
    match byte {
        b'\n' => BodyState::Whole,
        b'\r' => BodyState::TrailersReturn(used + 1),
        _ => BodyState::TrailersLine(used + 1),
    }
}

fn after_trailers_return(used: u32, byte: u8) -> BodyState
    ensures { result ≡ spec.after_trailers_return used byte }
{
    if used >= LINE_LIMIT {
        return BodyState::Refused(400);
    }
    match byte {
        b'\n' => BodyState::Whole,
        _ => BodyState::TrailersLine(used + 1),
    }
}

fn after_trailers_line(used: u32, byte: u8) -> BodyState
    ensures { result ≡ spec.after_trailers_line used byte }
{
    if used >= LINE_LIMIT {
        return BodyState::Refused(400);
    }
    match byte {
        b'\n' => BodyState::Trailers(used + 1),
        _ => BodyState::TrailersLine(used + 1),
    }
}
