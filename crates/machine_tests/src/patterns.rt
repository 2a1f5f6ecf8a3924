//! Tests of patterns: rows `SUBJECT|PATTERN|FROM|TESTS => OUTCOME`, a subject, a pattern, the index from which it is sought, and
//! the tests that are allowed.

use crate::values::expect;
use lua_patterns::*;
use std::alloc::{AllocError, Global};
use std::process::Abort;

/// A search that a row asks for.
#[derive(Drop)]
struct Search {
    subject: Vec<u8>,
    pattern: Vec<u8>,
    from: usize,
    tests: u64,
}

/// The bytes of a text: each character is the byte of its number.
fn bytes_of(alloc: Global, text: &str) -> Result<Vec<u8>, AllocError> {
    let mut bytes = Vec::new(alloc);
    for sign in text.chars() {
        bytes.push(u8::try_from(u32::from(sign)).unwrap_or(b'?'))?;
    }
    Ok(bytes)
}

/// The search of a row.
fn search_of(alloc: Global, given: &str) -> Result<Search, AllocError> {
    let (subject, after) = given.split_once('|').unwrap_or((given, ""));
    let (pattern, after) = after.split_once('|').unwrap_or((after, ""));
    let (from, tests) = after.split_once('|').unwrap_or((after, ""));
    let (from, tests) = (from.parse().unwrap_or(0), tests.parse().unwrap_or(0));
    let subject = bytes_of(alloc, subject)?;
    Ok(Search {
        subject,
        pattern: bytes_of(alloc, pattern)?,
        from,
        tests,
    })
}

/// What a search gives with so many tests.
fn found(alloc: Global, search: &Search, tests: u64) -> Result<Searched, PatFault> {
    find_in(alloc, &search.subject, &search.pattern, search.from, tests)
}

/// Writes a text, or leaves it out where there is no memory for it, so that the row fails.
fn put(all: &mut String, text: &str) {
    let _ = all.push_str(text);
}

/// Writes a match as `START-END`, then its captures; or why there is none. The tests stand in parentheses.
fn see(all: &mut String, outcome: &Result<Searched, PatFault>) {
    let _ = match outcome {
        Ok(searched) => return see_searched(all, searched),
        Err(PatFault::Malformed { at, tests }) => write!(all, "malformed {at} ({tests})"),
        Err(PatFault::Captures { tests }) => write!(all, "too many captures ({tests})"),
        Err(fault) => write!(all, "{fault}"),
    };
}

/// Writes what a search found, and its tests.
fn see_searched(all: &mut String, searched: &Searched) {
    match &searched.found {
        None => put(all, "none"),
        Some(found) => see_match(all, found),
    }
    let tests = searched.tests;
    let _ = write!(all, " ({tests})");
}

/// Writes a match and its captures.
fn see_match(all: &mut String, found: &Found) {
    see_cap(all, Cap::Span(found.start, found.end));
    for cap in &found.captures {
        put(all, " ");
        see_cap(all, *cap);
    }
}

/// Writes a capture as `START-END` or `@INDEX`.
fn see_cap(all: &mut String, cap: Cap) {
    let _ = match cap {
        Cap::Span(start, end) => write!(all, "{start}-{end}"),
        Cap::Position(index) => write!(all, "@{index}"),
    };
}

/// What a row's search gives.
fn seen(alloc: Global, given: &str) -> String {
    let mut all = String::new(alloc);
    match search_of(alloc, given) {
        Ok(search) => see(&mut all, &found(alloc, &search, search.tests)),
        Err(_) => put(&mut all, "memory"),
    }
    all
}

/// Whether a search makes as many tests as it may and no fewer, so that with one fewer it is given up.
fn makes_all_tests(alloc: Global, search: &Search) -> bool {
    let tests = search.tests;
    tests == 0 || matches!(found(alloc, search, tests - 1), Err(PatFault::Tests))
}

/// Whether the search of a row makes as many tests as the row says.
fn is_exact(alloc: Global, row: &str) -> bool {
    let (given, _) = row.split_once(" => ").unwrap_or((row, ""));
    match search_of(alloc, given) {
        Ok(search) => makes_all_tests(alloc, &search),
        Err(_) => false,
    }
}

/// Tests each row.
fn hold(rt: &impl Abort, alloc: Global, rows: &str) {
    for row in rows.lines() {
        let (given, expected) = row.split_once(" => ").unwrap_or((row, ""));
        expect(rt, seen(alloc, given).as_str(), expected, row);
    }
}

/// Tests each row, and that its search makes exactly the tests of the row.
fn hold_exactly(rt: &impl Abort, alloc: Global, rows: &str) {
    hold(rt, alloc, rows);
    for row in rows.lines() {
        assert!(rt; is_exact(alloc, row), "{row}");
    }
}

/// Searches for classes, sets and repeated ones, and at both ends. The matches, their captures and whether there is a fault
/// are what Lua 5.1.5's own matcher gives, but for `%f`, which is an item there, and an index after the end, which is the end
/// there. The tests, and where a wrong item begins, were worked out from the rules, apart from this crate.
const CLASSES: &str = "\
hello world|o|0|6 => 4-5 (6)
hello world|o|5|4 => 7-8 (4)
hello world|o|8|4 => none (4)
hello world||0|1 => 0-0 (1)
hello world||11|1 => 11-11 (1)
hello world||12|0 => none (0)
||0|1 => 0-0 (1)
||1|0 => none (0)
|a|0|1 => none (1)
abc|abc|0|4 => 0-3 (4)
abc|abcd|0|7 => none (7)
key = value|^(%w+)%s*=%s*(%w+)$|0|20 => 0-11 0-3 6-11 (20)
x|[a|0|0 => malformed 0 (0)
aaa|a-b|0|20 => none (20)
abc|.|0|2 => 0-1 (2)
abc|...|0|4 => 0-3 (4)
abc|....|0|10 => none (10)
a.c|%.|0|3 => 1-2 (3)
a1 b2|%a|1|4 => 3-4 (4)
a1 b2|%d|0|3 => 1-2 (3)
a1 b2|%s|0|4 => 2-3 (4)
Hello|%l+|0|7 => 1-5 (7)
hELLo|%u+|0|6 => 1-4 (6)
a,b;c|%p|0|3 => 1-2 (3)
a,b;c|%P+|2|3 => 2-3 (3)
x\ty|%c|0|3 => 1-2 (3)
foo bar9|%w+|4|6 => 4-8 (6)
zz1F|%x+|0|6 => 2-4 (6)
zzg|%x|0|4 => none (4)
a b\tc|%S+|2|3 => 2-3 (3)
abc123|%D+|0|5 => 0-3 (5)
abc123|%A+|0|8 => 3-6 (8)
ABC|%L+|0|5 => 0-3 (5)
abc|%U|0|2 => 0-1 (2)
a_b|%W|0|3 => 1-2 (3)
0x|%X|0|3 => 1-2 (3)
\x7f|%C|0|2 => none (2)
a%b|%%|0|3 => 1-2 (3)
a-b|%-|0|3 => 1-2 (3)
q|%q|0|2 => 0-1 (2)
qQ|%Q|0|3 => 1-2 (3)
aaab|a*|0|5 => 0-3 (5)
aaab|a+|0|5 => 0-3 (5)
aaab|a-|0|1 => 0-0 (1)
aaab|a?|0|2 => 0-1 (2)
baaa|a*|0|2 => 0-0 (2)
baaa|a+|0|6 => 1-4 (6)
baaa|a-b|0|2 => 0-1 (2)
aaab|a-b|0|8 => 0-4 (8)
aaab|a*b|0|6 => 0-4 (6)
aaab|a*a|0|7 => 0-3 (7)
aaab|a?a?a?a?b|0|6 => 0-4 (6)
ab|a?b|0|3 => 0-2 (3)
b|a?b|0|3 => 0-1 (3)
xay|a?y|0|5 => 1-3 (5)
aXb|a.-b|0|5 => 0-3 (5)
aXbYb|a.-b|0|5 => 0-3 (5)
aXbYb|a.*b|0|9 => 0-5 (9)
<<a>>|<(.-)>|0|11 => 0-4 1-3 (11)
<<a>>|<(.*)>|0|12 => 0-5 1-4 (12)
THE (quick) fox|%((%a+)%)|0|15 => 4-11 5-10 (15)
aaa|a+a|0|7 => 0-3 (7)
aaa|a-a|0|2 => 0-1 (2)
aaa|^a-$|0|7 => 0-3 (7)
a|a+a|0|4 => none (4)
ab|x*|0|2 => 0-0 (2)
ab|x*b|0|5 => 1-2 (5)
a*aa|(a)*|0|5 => 0-2 0-1 (5)
x**|**|0|2 => 0-0 (2)
a--|--|0|1 => 0-0 (1)
aa++|a++|0|5 => 0-3 (5)
*a|*a|0|3 => 0-2 (3)
aab|a+-b|0|10 => none (10)
a\tb|%s?%s?b|0|7 => 1-3 (7)
ababb|[ab]-bb|0|10 => 0-5 (10)
aabb|a-b-$|0|11 => 0-4 (11)
abc|(.-)$|0|12 => 0-3 0-3 (12)
hello|^h|0|2 => 0-1 (2)
hello|^e|0|1 => none (1)
hello|^l|2|2 => 2-3 (2)
hello|^|3|1 => 3-3 (1)
hello|^|5|1 => 5-5 (1)
hello|^|6|0 => none (0)
hello|o$|0|6 => 4-5 (6)
hello|l$|0|8 => none (8)
hello|$|0|6 => 5-5 (6)
a$b|$b|0|4 => 1-3 (4)
a$|a$$|0|3 => 0-2 (3)
a^b|a^b|0|4 => 0-3 (4)
a^b|a^|0|3 => 0-2 (3)
^|^^|0|2 => 0-1 (2)
|^$|0|1 => 0-0 (1)
a|^$|0|1 => none (1)
x$*|$*|0|2 => 0-0 (2)
aa$$|$*$|0|8 => 2-4 (8)
hello|[aeiou]|0|3 => 1-2 (3)
hello|[^aeiou]+|0|3 => 0-1 (3)
b-d|[a-c]|0|2 => 0-1 (2)
d|[a-c]|0|2 => none (2)
c|[a-c]|0|2 => 0-1 (2)
a|[a-c]|0|2 => 0-1 (2)
-|[a-]|0|2 => 0-1 (2)
-|[-a]|0|2 => 0-1 (2)
]|[]]|0|2 => 0-1 (2)
a|[^]]|0|2 => 0-1 (2)
]|[^]]|0|2 => none (2)
^|[a^]|0|2 => 0-1 (2)
^|[^^]|0|2 => none (2)
x]|[]x]+|0|4 => 0-2 (4)
a1_|[%w_]+|0|5 => 0-3 (5)
a]b|[%]]|0|3 => 1-2 (3)
z|[%a-z]|0|2 => 0-1 (2)
-|[%a-z]|0|2 => 0-1 (2)
d|[a-%d]|0|2 => 0-1 (2)
5|[a-%d]|0|2 => none (2)
^|[]-a]|0|2 => 0-1 (2)
]|[]-a]|0|2 => 0-1 (2)
b|[]-a]|0|2 => none (2)
]|[a-%%]|0|2 => 0-1 (2)
%|[a-%%]|0|2 => none (2)
+|[+--]|0|2 => 0-1 (2)
,|[+--]|0|2 => 0-1 (2)
.|[+--]|0|2 => none (2)
0123|[0-9]-3|0|8 => 0-4 (8)
abc|[a-c]*c|0|7 => 0-3 (7)
%|[%%]|0|2 => 0-1 (2)
b|[a%-c]|0|2 => none (2)
-|[a%-c]|0|2 => 0-1 (2)
.|[.]|0|2 => 0-1 (2)
a|[.]|0|2 => none (2)
12a|[^%d]|0|4 => 2-3 (4)
A b|[%S%a]+|0|3 => 0-1 (3)
e-|[a-c-e]+|0|4 => 0-2 (4)
d|[a-c-e]|0|2 => none (2)
^]|[]^]+|0|4 => 0-2 (4)
\\|[%a\\]|0|2 => 0-1 (2)";

/// Searches with captures, back references and `%b`, and for wrong items; what is said of the others holds here.
const CAPTURES: &str = "\
hello|(h)(e)|0|7 => 0-2 0-1 1-2 (7)
hello|()ll()|0|9 => 2-4 @2 @4 (9)
hello|((h)(e))|0|9 => 0-2 0-2 0-1 1-2 (9)
hello|(.)%1|0|13 => 2-4 2-3 (13)
abcabc|(a.c)%1|0|7 => 0-6 0-3 (7)
abcab|(a.c)%1|0|18 => none (18)
\"it's\"|([\"'])(.-)%1|0|19 => 0-6 0-1 1-5 (19)
x\"it's\"|([\"'])(.-)%1|2|28 => none (28)
aba|(.)(.)%1|0|8 => 0-3 0-1 1-2 (8)
abba|(.)(.)%2%1|0|9 => 0-4 0-1 1-2 (9)
hello|()|5|2 => 5-5 @5 (2)
hello|(h)(l?)(e)|0|10 => 0-2 0-1 1-1 1-2 (10)
aXb|(a)(x?)|0|7 => 0-1 0-1 1-1 (7)
aab|(a*(.)%w(%s*))|0|17 => 0-3 0-3 1-2 3-3 (17)
a b c|(%a)%s(%a)%s(%a)|0|12 => 0-5 0-1 2-3 4-5 (12)
aaa|(a-)b|0|34 => none (34)
abab|(ab)%1|0|6 => 0-4 0-2 (6)
abac|(ab)%1|0|14 => none (14)
aa|()%1|0|6 => none (6)
abcd|(a(b(c)d))|0|11 => 0-4 0-4 1-4 2-3 (11)
xaay|(a)%1(y)|0|10 => 1-4 1-2 3-4 (10)
aabaab|(a+)b%1b?|0|9 => 0-6 0-2 (9)
aaaa|^(a+)%1$|0|13 => 0-4 0-2 (13)
aaaaa|^(a+)%1$|0|19 => none (19)
ab|(a?)(b?)%2%1|0|17 => 0-0 0-0 0-0 (17)
aa*|(a)%1*|0|6 => 0-3 0-1 (6)
^a|(^a)|0|5 => 0-2 0-2 (5)
a$b|(a$)b|0|6 => 0-3 0-2 (6)
aab|(a*)%1b|0|10 => 0-3 0-1 (10)
ab|()a()b()|0|6 => 0-2 @0 @1 @2 (6)
aaab|(a*)(a-)(a?)b|0|13 => 0-4 0-3 3-3 3-3 (13)
abab|(a)(b)%1%2|0|9 => 0-4 0-1 1-2 (9)
ba|((b?)a)%2|0|17 => 1-2 1-2 1-1 (17)
aXbXc|(.-)X(.*)|0|13 => 0-5 0-1 2-5 (13)
abc|(a(b(c)))%3|0|16 => none (16)
a(b(c)d)e|%b()|0|3 => 1-8 (3)
((a)|%b()|0|3 => 1-4 (3)
(((|%b()|0|4 => none (4)
x)(y|%b()|0|5 => none (5)
a'b'c|%b''|0|3 => 1-4 (3)
''|%b''|0|2 => 0-2 (2)
begin end|%bbd|0|2 => 0-9 (2)
f(a(b)c)g|f(%b())g|0|6 => 0-9 1-8 (6)
f(a)(b)|%b()%b()|0|4 => 1-7 (4)
[[]]]|%b[]$|0|8 => none (8)
[[]]|^%b[]$|0|2 => 0-4 (2)
(()|^%b()|0|1 => none (1)
(a)|%b()(.)|0|6 => none (6)
(a)b|%b()(.)|0|5 => 0-4 3-4 (5)
(((a(b)c)|%b()x|0|12 => none (12)
((((a(b)c)d|%b()%a|0|6 => 3-11 (6)
((((a)(b)c|%b()%b()|0|6 => 3-9 (6)
((((((a)b)c|%b()c|0|7 => 4-11 (7)
(((([a)|%b()%b[]|0|9 => none (9)
'''a'b'|%b''%a%b''$|0|6 => 1-7 (6)
<<<<>>|%b<>|0|4 => 2-6 (4)
xxxxyxy|%bxy$|0|8 => 5-7 (8)
(a)*b|%b()*b|0|4 => 0-5 (4)
(a)-|(%b())-|0|5 => 0-4 0-3 (5)
(a)(b|(%b()).%b()|0|15 => none (15)
(()a)|%b()$|1|6 => none (6)
a|%|0|0 => malformed 0 (0)
a|a%|0|1 => malformed 1 (1)
b|a%|0|2 => none (2)
a|(|0|1 => malformed 0 (1)
a|(a|0|2 => malformed 0 (2)
b|(a|0|4 => none (4)
a|)|0|0 => malformed 0 (0)
a|(a))|0|3 => malformed 3 (3)
a|a)|0|1 => malformed 1 (1)
a|%1|0|0 => malformed 0 (0)
a|(%1)|0|1 => malformed 1 (1)
a|(a)%2|0|3 => malformed 3 (3)
a|(a)%0|0|3 => malformed 3 (3)
a|%0|0|0 => malformed 0 (0)
a|[]|0|0 => malformed 0 (0)
a|[^]|0|0 => malformed 0 (0)
a|[%]|0|0 => malformed 0 (0)
a|[a-|0|0 => malformed 0 (0)
a|[%|0|0 => malformed 0 (0)
a|a[|0|1 => malformed 1 (1)
b|a[|0|2 => none (2)
a|%b|0|0 => malformed 0 (0)
a|%bx|0|0 => malformed 0 (0)
a|a%b(|0|1 => malformed 1 (1)
a|%f[a]|0|0 => malformed 0 (0)
THE|%f[%a]%a+|0|0 => malformed 0 (0)
x|y[a|0|2 => none (2)
ab|(a(b)|0|5 => malformed 0 (5)
ab|((a)(b|0|6 => malformed 0 (6)
ab|(a$|0|7 => none (7)
a|(a$|0|2 => malformed 0 (2)
aaa|a*(|0|5 => malformed 2 (5)
|[a|0|0 => malformed 0 (0)
|a-[|0|0 => malformed 2 (0)
ab|(a)b)|0|4 => malformed 4 (4)
ab|a(%1)|0|2 => malformed 2 (2)
a|(()|0|2 => malformed 0 (2)
a|[a-%|0|0 => malformed 0 (0)";

/// Wrong items, and the 33rd capture, that are met as the tests run out: with exactly the tests that are made before them
/// they are the outcome, with one fewer the pattern is too complex. Each kind of wrong item stands here, and before it
/// each way to get there: on, back by a byte fewer or more, and to a later start. The numbers were worked out by hand from
/// what `find_in` counts.
const WRONG_AT_THE_LAST_TEST: &str = "\
x|x[a|0|1 => malformed 1 (1)
ab|a-b%|0|3 => malformed 3 (3)
aab|a*b)|0|4 => malformed 3 (4)
ab|a(b%2|0|3 => malformed 3 (3)
ba|a%f|0|2 => malformed 1 (2)
aa|a*a%b(|0|5 => malformed 3 (5)
aab|a+[^|0|3 => malformed 2 (3)
b|a?[|0|1 => malformed 2 (1)
a|^a)|0|1 => malformed 2 (1)
aa|(a)%1%|0|4 => malformed 5 (4)
()x|%b()[|0|1 => malformed 4 (1)
a|()%0|0|1 => malformed 2 (1)
a|()(a|0|3 => malformed 2 (3)
|()()()()()()()()()()()()()()()()()()()()()()()()()()()()()()()()()|0|32 => too many captures (32)";

#[test]
fn searches_give_their_first_match_and_their_tests(rt: HostRuntime) {
    hold_exactly(&rt, rt.alloc(), CLASSES);
    hold_exactly(&rt, rt.alloc(), CAPTURES);
    hold_exactly(&rt, rt.alloc(), WRONG_AT_THE_LAST_TEST);
}

/// A line end in the subject.
const LINE_END: &str = "a\nb|a$|0|5";

/// Bytes that are no text. The rows whose pattern has no zero byte are what Lua 5.1.5's own matcher gives; in its
/// patterns a zero byte is the end.
const BYTES: &str = "\
\0|%z|0|100 => 0-1 (2)
a\0b|\0|0|100 => 1-2 (3)
\u{ff}|[^\0]|0|100 => 0-1 (2)
\0\u{ff}|[\0-\u{ff}]+|0|100 => 0-2 (4)
a\0|a\0$|0|100 => 0-2 (3)
%\0|%\0|0|100 => 1-2 (3)
\u{ff}\u{fe}|%a|0|100 => none (3)
\u{c8}|%W|0|100 => 0-1 (2)
\u{80}|%C|0|100 => 0-1 (2)";

/// Limits on tests and captures: more tests are needed, or as many are allowed as anywhere; 32 captures, and one more.
const LIMITS: &str = "\
aaaa|a*b|0|3 => pattern too complex
aaa|a-b|0|1000000 => none (20)
|()()()()()()()()()()()()()()()()()()()()()()()()()()()()()()()()|0|100 => \
0-0 @0 @0 @0 @0 @0 @0 @0 @0 @0 @0 @0 @0 @0 @0 @0 @0 @0 @0 @0 @0 @0 @0 @0 @0 @0 @0 @0 @0 @0 @0 @0 @0 (33)
|()()()()()()()()()()()()()()()()()()()()()()()()()()()()()()()()()|0|100 => too many captures (32)";

#[test]
fn searches_go_over_any_bytes_within_their_limits(rt: HostRuntime) {
    assert_eq!(rt; seen(rt.alloc(), LINE_END).as_str(), "none (5)");
    assert!(rt; is_exact(rt.alloc(), LINE_END));
    hold(&rt, rt.alloc(), BYTES);
    hold(&rt, rt.alloc(), LIMITS);
}
