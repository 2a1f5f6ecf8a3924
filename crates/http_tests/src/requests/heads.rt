//! Tests of heads; the answers were worked out from RFC 9112 by hand.
use http_in::{BodyKind, HeadRead, HeadScan, head_of};
use std::alloc::{AllocError, Global};

/// A request line and a host of 1.1, and a request line of 1.0.
pub(crate) const A: &str = "GET / HTTP/1.1␍␊Host: a␍␊";

pub(crate) const B: &str = "GET / HTTP/1.0␍␊";

/// The answer in words: the status, or how many bytes the head has, its framing and its options.
fn in_words(alloc: Global, read: &HeadRead) -> Result<String, AllocError> {
    match read {
        HeadRead::More => format!(in alloc; "More"),
        HeadRead::Memory => format!(in alloc; "Memory"),
        HeadRead::Refused(code) => format!(in alloc; "{code}"),
        HeadRead::Whole(head, length) => {
            let keep = if head.keep { " keep" } else { "" };
            let expects = if head.expects { " expects" } else { "" };
            match head.body {
                BodyKind::Nothing => format!(in alloc; "{length} Nothing{keep}{expects}"),
                BodyKind::Length(n) => format!(in alloc; "{length} Length {n}{keep}{expects}"),
                BodyKind::Chunked => format!(in alloc; "{length} Chunked{keep}{expects}"),
            }
        }
    }
}

/// The answer to a head.
pub(crate) fn read(alloc: Global, bytes: &[u8]) -> Result<String, AllocError> {
    in_words(alloc, &head_of(alloc, bytes))
}

/// The method, the target and the fields of a whole head.
pub(crate) fn parts(alloc: Global, bytes: &[u8]) -> Result<String, AllocError> {
    match head_of(alloc, bytes) {
        HeadRead::Whole(head, _) => {
            let fields = head.headers.as_slice();
            format!(in alloc; "{:?} {:?} {fields:?}", head.method, head.target)
        }
        read => in_words(alloc, &read),
    }
}

/// Heads begin and end.
pub(super) const HEADS: &str = "\
head  => More
head ␍␊␊␍␊GET / HTTP/1.0␊␊ => 21 Nothing
head ␍␍␊GET / HTTP/1.0␍␊␍␊ => 400
head GET / HTTP/1.0␍␊␍ => More
head GET / HTTP/1.0␍␊␍␊GET => 18 Nothing
head GET / HTTP/1.0␍␊␍␊GET / HTTP/1.1␍␊␍␊ => 18 Nothing
head GET / HTTP/1.2␍␊␍␊ => 505
head GET / HTTP/1.10␍␊␍␊ => 400
head GET / HTTP/2␍␊␍␊ => 400
head GE(T x y HTTP/3.0␊␊ => 505
head HTTP/2.0␍␊␍␊ => 400
head GET /␍␊␍␊ => 400
head GET  / HTTP/1.0␊␊ => 400
head GET / HTTP/1.0 ␊␊ => 400
head G@T / HTTP/1.0␊␊ => 400
head purge x HTTP/1.0␊␊ => 18 Nothing
head GET /\u{c3}\u{a9} HTTP/1.0␊␊ => 18 Nothing
head GET /\u{ff} HTTP/1.0␊␊ => 400
head GET / HTTP/1.1␍␊X: y␍␊␍␊ => 400";

/// Where a head ends that comes in two pieces, and whether its scanner has ended.
pub(crate) fn scanned(alloc: Global, first: &[u8], second: &[u8]) -> Result<String, AllocError> {
    let mut scan = HeadScan::new();
    let before = scan.read(first);
    let after = scan.read(second);
    let (ended, last) = (scan.has_ended(), scan.read(b"\n\n"));
    format!(in alloc; "{before:?} {after:?} {ended} {last:?}")
}

/// No byte belongs to a head after its end.
pub(super) const SCANS: &str = "scan GET / HTTP/1.0␊|␊GET => None Some(1) true Some(0)";

pub(super) const FIELDS: &str = "\
fields-1.0 C:\t d e \t␍␊F:␍␊ => 33 Nothing
fields-1.0 C : d␍␊ => 400
fields-1.0 C: d␍␊ e␍␊ => 400
fields-1.0 : d␍␊ => 400
fields-1.0 Cd␍␊ => 400
fields-1.0 C: \0␍␊ => 400
fields-1.0 C: d␍e␍␊ => 400
fields-1.0 C: \u{ff}␍␊ => 24 Nothing
fields-1.0 Host: a␍␊host: a␍␊ => 400
fields-1.0 Transfer-Encoding: chunked␍␊ => 400
fields-1.0 Content-Length: 5␍␊Content-Length: 5␍␊ => 56 Length 5
fields-1.0 Connection: x␍␊Connection: Keep-Alive␍␊ => 57 Nothing keep
fields-1.0 Connection: keep-alive, close␍␊ => 49 Nothing
fields-1.0 Expect: 100-continue␍␊ => 40 Nothing";

pub(super) const PARTS: &str =
    "parts C:\t d e \t␍␊f:␍␊ => b\"GET\" b\"/\" [Pair2 { name: b\"C\", value: b\"d e\" }, Pair2 { name: b\"f\", value: b\"\" }]";

/// Bodies are framed.
pub(super) const FRAMINGS: &str = "\
fields-1.1 HOST: b␍␊ => 400
fields-1.1 Transfer-Encoding: Chunked␍␊ => 55 Chunked keep
fields-1.1 Transfer-Encoding: x, chunked␍␊ => 501
fields-1.1 Transfer-Encoding: chunked, x␍␊ => 400
fields-1.1 Transfer-Encoding: chunked,␍␊ => 400
fields-1.1 Transfer-Encoding: , chunked␍␊ => 501
fields-1.1 Transfer-Encoding: ␍␊ => 400
fields-1.1 Transfer-Encoding: chunked;a=1␍␊ => 400
fields-1.1 Transfer-Encoding: chunked, chunked␍␊ => 501
fields-1.1 Transfer-Encoding: x␍␊Transfer-Encoding: chunked␍␊ => 501
fields-1.1 Transfer-Encoding: x␍␊Content-Length: 1␍␊ => 400
fields-1.1 Transfer-Encoding: chunked␍␊Content-Length: 1␍␊ => 400
fields-1.1 Content-Length: 007␍␊ => 48 Length 7 keep
fields-1.1 Content-Length: 5, 5␍␊ => 400
fields-1.1 Content-Length: ␍␊ => 400
fields-1.1 Content-Length: 0x1␍␊ => 400
fields-1.1 Content-Length: 999999999999999␍␊ => 60 Length 999999999999999 keep
fields-1.1 Content-Length: 1000000000000000␍␊ => 400
fields-1.1 Content-Length: 0␍␊ => 46 Length 0 keep
fields-1.1 Content-Length: 5␍␊Content-Length: 05␍␊ => 400
fields-1.1 Content-Length: 5␍␊Content-Length: 6␍␊ => 400
fields-1.1 Connection: TE, Close␍␊ => 50 Nothing
fields-1.1 Connection: closed␍␊ => 47 Nothing keep
fields-1.1 Expect: 100-Continue␍␊ => 49 Nothing keep expects
fields-1.1 Expect: x, 100-continue␍␊ => 52 Nothing keep";

/// A front, a text, how often it stands after it, and what follows.
pub(super) const LIMITS: &str = "\
repeated ;␍␊;8192; => 431
repeated ;␍␊;8191;␍ => More
repeated GET / HTTP/1.1␍␊Host: a␍␊;X: y␍␊;99;␍␊ => 621 Nothing keep
repeated GET / HTTP/1.1␍␊Host: a␍␊;X: y␍␊;100;␍␊ => 431
repeated GET / HTTP/2.0␍␊;X: y␍␊;101;␍␊ => 431
repeated GET / HTTP/1.1␍␊Host: a␍␊X:;a;16352;␍␊␍␊ => 16383 Nothing keep
repeated GET / HTTP/1.1␍␊Host: a␍␊X:;a;16353;␍␊␍␊ => 16384 Nothing keep
repeated GET / HTTP/1.1␍␊Host: a␍␊X:;a;16354;␍␊␍␊ => 431";
