//! Tests of heads (HEADS), dates (DATES), built-in replies (BODIES, REASONS), chunks (SIZES, CHUNKS), framings (FRAMINGS) and bodies that are sent (SENT); the
//! values were worked out from RFC 9110 and 9112 by hand.
use crate::rows::{Subject, hold};
use crate::texts::*;
use http_base::Fields;
use http_reply::*;
use resty_base::{Bytes, Ms};
use std::alloc::{AllocError, Global};

/// Heads: a status, words and fields, the moment, and the text.
const HEADS: &str = "\
head 200 server:resty type:text/plain; 0 => \
HTTP/1.1 200 OK␍␊Server: resty␍␊Date: Thu, 01 Jan 1970 00:00:00 GMT␍␊Content-Type: text/plain␍␊Connection: close␍␊␍␊
head 404 server:s keep length:10; X-A=1 x-a=2; 999 => \
HTTP/1.1 404 Not Found␍␊Server: s␍␊Date: Thu, 01 Jan 1970 00:00:00 GMT␍␊Content-Length: 10␍␊Connection: keep-alive␍␊X-A: 1␍␊x-a: 2␍␊␍␊
head 299 server:resty keep type:a chunked; B=; 1000 => \
HTTP/1.1 299 ␍␊Server: resty␍␊Date: Thu, 01 Jan 1970 00:00:01 GMT␍␊\
Content-Type: a␍␊Transfer-Encoding: chunked␍␊Connection: keep-alive␍␊B: ␍␊␍␊
head 200 keep length:0; 0 => \
HTTP/1.1 200 OK␍␊Server: ␍␊Date: Thu, 01 Jan 1970 00:00:00 GMT␍␊Content-Length: 0␍␊Connection: keep-alive␍␊␍␊
head 204 keep length:5; 0 => \
HTTP/1.1 204 No Content␍␊Server: ␍␊Date: Thu, 01 Jan 1970 00:00:00 GMT␍␊Connection: keep-alive␍␊␍␊";

/// Moments have dates.
const DATES: &str = "\
date 0 => Thu, 01 Jan 1970 00:00:00 GMT
date 951782399999 => Mon, 28 Feb 2000 23:59:59 GMT
date 951868799000 => Tue, 29 Feb 2000 23:59:59 GMT
date 1700000000000 => Tue, 14 Nov 2023 22:13:20 GMT
date 99999999999999 => Wed, 16 Nov 5138 09:46:39 GMT
date 18446744073709551615 => Fri, 31 Dec 9999 23:59:59 GMT";

/// Bodies of built-in replies, with the lengths that their heads say, and a head.
const BODIES: &str = "\
body 200 => 200 OK␊ Some(7)
body 204 => 204 No Content␊ Some(15)
body 299 => 299 ␊ Some(5)
body 308 => 308 Permanent Redirect␊ Some(23)
body 413 => 413 Content Too Large␊ Some(22)
body 429 => 429 Too Many Requests␊ Some(22)
body 431 => 431 Request Header Fields Too Large␊ Some(36)
body 444 => 444 ␊ Some(5)
body 505 => 505 HTTP Version Not Supported␊ Some(31)
body 65535 => 65535 ␊ Some(7)
built-in 404 => \
HTTP/1.1 404 Not Found␍␊Server: resty␍␊Date: Thu, 01 Jan 1970 00:00:00 GMT␍␊Content-Type: text/plain␍␊Content-Length: 14␍␊Connection: close␍␊␍␊";

const REASONS: &str = "\
reason 200 => [OK]
reason 201 => [Created]
reason 202 => [Accepted]
reason 204 => [No Content]
reason 206 => [Partial Content]
reason 301 => [Moved Permanently]
reason 302 => [Found]
reason 303 => [See Other]
reason 304 => [Not Modified]
reason 307 => [Temporary Redirect]
reason 308 => [Permanent Redirect]
reason 400 => [Bad Request]
reason 401 => [Unauthorized]
reason 403 => [Forbidden]
reason 404 => [Not Found]
reason 405 => [Method Not Allowed]
reason 408 => [Request Timeout]
reason 409 => [Conflict]
reason 413 => [Content Too Large]
reason 429 => [Too Many Requests]
reason 431 => [Request Header Fields Too Large]
reason 500 => [Internal Server Error]
reason 501 => [Not Implemented]
reason 502 => [Bad Gateway]
reason 503 => [Service Unavailable]
reason 504 => [Gateway Timeout]
reason 505 => [HTTP Version Not Supported]
reason 0 => []
reason 100 => []
reason 203 => []
reason 418 => []
reason 506 => []";

/// Pieces are chunks.
const SIZES: &str = "\
start 1 => 1␍␊
start 9 => 9␍␊
start 10 => a␍␊
start 15 => f␍␊
start 16 => 10␍␊
start 255 => ff␍␊
start 4096 => 1000␍␊
start 4194304 => 400000␍␊
start 18446744073709551615 => ffffffffffffffff␍␊";

const CHUNKS: &str = "\
chunk  => []
chunk ab => [2␍␊ab␍␊]
chunk 0123456789abcdef => [10␍␊0123456789abcdef␍␊]
chunk ␍␊ => [2␍␊␍␊␍␊]
last => 0␍␊␍␊";

/// Framings by method, status, minor version and length.
const FRAMINGS: &str = "\
framing GET 200 1 - => Chunked
framing GET 200 0 - => UntilClose
framing GET 200 0 3 => Counted(3)
framing GET 200 1 0 => Counted(0)
framing HEAD 200 1 - => Bodiless
framing HEAD 404 1 14 => Bodiless
framing GET 204 1 - => Bodiless
framing GET 304 0 17 => Bodiless
framing POST 204 0 5 => Bodiless
framing POST 404 1 - => Chunked
framing head 200 1 - => Chunked";

/// Framings, pieces, the bytes of the body, and whether five bytes are short of it.
const SENT: &str = "\
sent chunked ab,,cde, => [2␍␊ab␍␊3␍␊cde␍␊0␍␊␍␊]
sent close ab,,cde, => [abcde]
sent 4 ab,,cde, => [abcd]
sent 5 ab,,cde, => [abcde]
sent 6 ab,,cde, => [abcde] short
sent 0 ab,,cde, => []
sent bodiless ab,,cde, => []
sent chunked => [0␍␊␍␊]
reply 14 404 Not Found␊ => \
HTTP/1.1 404 Not Found␍␊Server: resty␍␊Date: Thu, 01 Jan 1970 00:00:00 GMT␍␊Content-Type: text/plain␍␊Content-Length: 14␍␊\
Connection: close␍␊␍␊404 Not Found␊";

/// The number that a text writes, 0 where it writes none.
fn number(text: &str) -> u64 {
    text.parse().unwrap_or(0)
}

/// The status that a text writes.
fn status(text: &str) -> u16 {
    text.parse().unwrap_or(0)
}

/// What a call of `http_reply` gives.
pub(crate) fn answer(alloc: Global, call: &str) -> Result<String, AllocError> {
    let mut all = String::new(alloc);
    let (word, given) = call.split_once(' ').unwrap_or((call, ""));
    write_call(alloc, &mut all, word, given)?;
    Ok(all)
}

/// Writes what a call gives.
fn write_call(alloc: Global, all: &mut String, word: &str, given: &str) -> Result<(), AllocError> {
    match word {
        "head" => write_head(alloc, all, given),
        "date" => write(all, &date_text(Ms(number(given)))),
        "body" => write_status_body(alloc, all, status(given)),
        "built-in" => write_text(alloc, all, &built_in(alloc, status(given)), Ms(0)),
        "reason" => write_part(all, reason(status(given)).as_bytes()),
        "start" => write(all, chunk_start(given.parse().unwrap_or(0)).as_slice()),
        "chunk" => write_part(all, &chunk_text(alloc, &bytes_of(alloc, given)?)?),
        "last" => write(all, &last_chunk()),
        "framing" => write_framing(alloc, all, given),
        _ => write_body(alloc, all, word, given),
    }
}

/// Writes the head of `WORDS; MOMENT` or `WORDS; FIELDS; MOMENT`.
fn write_head(alloc: Global, all: &mut String, given: &str) -> Result<(), AllocError> {
    let (words, after) = given.split_once("; ").unwrap_or((given, ""));
    let (fields, now) = after.split_once("; ").unwrap_or(("", after));
    let head = described(alloc, words, fields_of(alloc, fields)?)?;
    write_text(alloc, all, &head, Ms(number(now)))
}

fn write_text(
    alloc: Global,
    all: &mut String,
    head: &ReplyHead,
    now: Ms,
) -> Result<(), AllocError> {
    write(all, &head_text(alloc, head, now)?)
}

/// The head that words describe, with these other fields.
fn described(alloc: Global, words: &str, others: Fields) -> Result<ReplyHead, AllocError> {
    let mut head = ReplyHead {
        status: 0,
        server: Bytes::new(),
        content_type: None,
        length: None,
        chunked: false,
        keep: false,
        others,
    };
    for word in words.split(' ') {
        describe(alloc, &mut head, word)?;
    }
    Ok(head)
}

/// Sets what a word says of a head.
fn describe(alloc: Global, head: &mut ReplyHead, word: &str) -> Result<(), AllocError> {
    let (name, value) = word.split_once(':').unwrap_or((word, ""));
    match name {
        "server" => head.server = bytes_of(alloc, value)?,
        "type" => head.content_type = Some(bytes_of(alloc, value)?),
        "length" => head.length = Some(number(value)),
        "chunked" => head.chunked = true,
        "keep" => head.keep = true,
        _ => head.status = status(word),
    }
    Ok(())
}

/// Writes the body of a built-in reply, and the length that its head says.
fn write_status_body(alloc: Global, all: &mut String, code: u16) -> Result<(), AllocError> {
    let length = built_in(alloc, code).length;
    write(all, &status_body(alloc, code)?)?;
    all.push_str(format!(in alloc; " {length:?}")?.as_str())
}

/// Writes the framing for `METHOD STATUS MINOR LENGTH`, in which `-` is no length.
fn write_framing(alloc: Global, all: &mut String, given: &str) -> Result<(), AllocError> {
    let (method, after) = given.split_once(' ').unwrap_or((given, ""));
    let (code, after) = after.split_once(' ').unwrap_or((after, ""));
    let (minor, length) = after.split_once(' ').unwrap_or((after, ""));
    let minor = minor.parse().unwrap_or(0);
    let framing = framing(method.as_bytes(), status(code), minor, length.parse().ok());
    all.push_str(format!(in alloc; "{framing:?}")?.as_str())
}

/// The framing that a word says; a number is that of a body of so many bytes.
fn framing_of(word: &str) -> Framing {
    match word {
        "bodiless" => Framing::Bodiless,
        "chunked" => Framing::Chunked,
        "close" => Framing::UntilClose,
        _ => Framing::Counted(number(word)),
    }
}

/// Writes the body, or the whole built-in reply, of `FRAMING PIECES`.
fn write_body(alloc: Global, all: &mut String, word: &str, given: &str) -> Result<(), AllocError> {
    let (framing, pieces) = given.split_once(' ').unwrap_or((given, ""));
    let framing = framing_of(framing);
    let pieces = pieces_of(alloc, pieces)?;
    if word == "reply" {
        return write_reply(alloc, all, framing, &pieces);
    }
    write_sent(alloc, all, framing, &pieces)
}

/// Writes a built-in reply with this body.
fn write_reply(
    alloc: Global,
    all: &mut String,
    framing: Framing,
    pieces: &[Bytes],
) -> Result<(), AllocError> {
    let head = built_in(alloc, 404);
    write(all, &reply(alloc, &head, framing, pieces, Ms(0))?)
}

/// Writes a body, and whether five bytes are short of it.
fn write_sent(
    alloc: Global,
    all: &mut String,
    framing: Framing,
    pieces: &[Bytes],
) -> Result<(), AllocError> {
    write_part(all, &body_bytes(alloc, framing, pieces)?)?;
    all.push_str(if framing.falls_short(5) { " short" } else { "" })
}

/// Pieces with a `,` after each.
fn pieces_of(alloc: Global, text: &str) -> Result<Vec<Bytes>, AllocError> {
    let mut pieces = Vec::new(alloc);
    for piece in text.split_terminator(',') {
        pieces.push(bytes_of(alloc, piece)?)?;
    }
    Ok(pieces)
}

#[test]
fn heads_dates_chunks_and_bodies_are_written(rt: HostRuntime) {
    hold(&rt, rt.alloc(), Subject::Reply, HEADS);
    hold(&rt, rt.alloc(), Subject::Reply, DATES);
    hold(&rt, rt.alloc(), Subject::Reply, BODIES);
    hold(&rt, rt.alloc(), Subject::Reply, REASONS);
    hold(&rt, rt.alloc(), Subject::Reply, SIZES);
    hold(&rt, rt.alloc(), Subject::Reply, CHUNKS);
    hold(&rt, rt.alloc(), Subject::Reply, FRAMINGS);
    hold(&rt, rt.alloc(), Subject::Reply, SENT);
}
