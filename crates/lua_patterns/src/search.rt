//! The search, which is the public call.

ghost use Rattle.lua_patterns.specs.Searches.{search_trail, answer, Answers};

use crate::matcher::{Search, State};
use crate::{PatFault, Searched};
use resty_base::byte_at;
use std::alloc::Global;

/// Seeks the first match of a pattern (Lua 5.1 manual, 5.4.1) in a subject, from an index on, or at that index alone where
/// `^` stands first in the pattern. An index after the subject's end finds nothing. One test is counted for each
/// comparison of a class with the byte at an index, the subject's end included, for each parenthesis (`()` is one), `%b`
/// and back reference, and for each time the pattern's end is reached (with a `$` there it is one). `Tests` comes where
/// more than `tests` would be made, `Malformed` where a wrong item is reached, `Captures` at the 33rd capture; what is
/// wrong is met before its own count.
pub fn find_in(
    alloc: Global,
    subject: &[u8],
    pattern: &[u8],
    from: usize,
    tests: u64,
) -> Result<Searched, PatFault>
    ensures { Answers result (answer tests 0 (search_trail subject.now pattern.now «from»)) }
{
    if from > subject.len() {
        return Ok(Searched {
            tests: 0,
            found: None,
        });
    }
    let anchored = byte_at(pattern, 0) == b'^';
    let search = Search {
        subject,
        pattern,
        anchored,
        limit: tests,
    };
    let mut state = State {
        tests: 0,
        start: from,
        index: from,
        at: usize::from(anchored),
        captures: Vec::new(alloc),
        pending: Vec::new(alloc),
    };
    let found = search.run(alloc, &mut state)?;
    Ok(Searched {
        tests: state.tests,
        found,
    })
}
