//! The matcher: its state, a step for each kind of item, the way back to open choices, and its run.

ghost use Rattle.std.specs.Prelude.{◌≡◌, ◌+◌, ◌-◌, ◌<◌, ◌≤◌, ◌^◌, [], IsTrue, IfSome, IfErr, OnOk, Ok, drop, length};
ghost use Rattle.std.specs.List.{prefix_len};
ghost use Rattle.lua_patterns.specs.declared.answers.PatFault.{PatFault};
ghost use Rattle.lua_patterns.specs.Classes.{accepts};
ghost use Rattle.lua_patterns.specs.Trails.{accepts_first, closing_len, balanced_len, repeated_len};
ghost use Rattle.lua_patterns.specs.Balance.{AreRight};
ghost use Rattle.lua_patterns.specs.Matching.{capture_next, len_next, end_trail, ahead, GoesOn, GoesOnAt, GoesBack, Takes, Tries, Ends};

use crate::balance::Balance;
use crate::captures::{
    Cap, Capture, OpenCapture, close_at, closed_ones, first_open, forget_last, last_open,
    open_again, referenced,
};
use crate::classes::{Class, accepts, between};
use crate::items::{Item, Repeat, SizedItem, item_at};
use crate::{Found, PatFault};
use resty_base::bytes_after;
use std::alloc::Global;

/// How many captures a match may have.
const MOST_CAPTURES: usize = 32;

/// What doesn't change during a search: a match may begin at its first index alone where it is anchored.
#[derive(Clone, Copy)]
pub(crate) struct Search<'a> {
    pub subject: &'a [u8],
    pub pattern: &'a [u8],
    pub anchored: bool,
    pub limit: u64,
}

/// A choice that is open, or what is undone on the way back to an older one.
#[derive(Clone, Copy, Debug)]
pub(crate) enum Pending {
    /// Go on in the pattern at `after` from `index`, and then from the indices before it, down to `lowest`.
    Fewer {
        after: usize,
        lowest: usize,
        index: usize,
    },
    /// Take one byte more of the class at `index`, and go on in the pattern at `after`.
    More {
        class: Class,
        after: usize,
        index: usize,
    },
    /// Forget the last capture.
    Forget,
    /// Open a capture again.
    Reopen(OpenCapture),
}

/// Where a search stands: the tests that it made, where the match would start, the index in the subject, the index in
/// the pattern, the captures so far, and the choices that are open, the last one last.
#[derive(Drop)]
pub(crate) struct State {
    pub tests: u64,
    pub start: usize,
    pub index: usize,
    pub at: usize,
    pub captures: Vec<Capture>,
    pub pending: Vec<Pending>,
}

/// How a step ends: the match goes on, or doesn't from here, or is whole.
#[derive(Debug, Drop)]
pub(crate) enum Step {
    On,
    Back,
    Whole(Found),
}

/// How many bytes stand up to the closing byte, and with it, that closes the opening byte before them.
fn closing_len(text: &[u8], opening: u8, closing: u8) -> Option<usize>
    ensures value { result ≡ closing_len opening closing 0 text.now }
    ensures within { IfSome result (λ n. n ≤ length text.now) }
{
    let mut others: usize = 0;
    for (index, byte) in text.iter().enumerate() {
        if *byte == closing {
            if others == 0 {
                return Some(index + 1);
            }
            others -= 1;
        } else if *byte == opening {
            others += 1;
        }
    }
    None
}

/// How many bytes `%b` takes at the front.
pub(crate) fn balanced_len(text: &[u8], opening: u8, closing: u8) -> Option<usize>
    ensures value { result ≡ balanced_len opening closing text.now }
    ensures within { IfSome result (λ n. n ≤ length text.now) }
{
    let (first, rest) = text.split_first()?;
    if *first != opening {
        return None;
    }
    let len = closing_len(rest, opening, closing)?;
    Some(len + 1)
}

/// How many bytes a back reference takes at the front.
fn repeated_len(subject: &[u8], text: &[u8], cap: Cap) -> Option<usize>
    ensures value { result ≡ repeated_len subject.now text.now cap }
    ensures within { IfSome result (λ n. n ≤ length text.now) }
{
    let Cap::Span(start, end) = cap else {
        return None;
    };
    let bytes = between(subject, start, end);
    if text.starts_with(bytes) {
        Some(bytes.len())
    } else {
        None
    }
}

impl Search<'_> {
    /// Makes so many tests more.
    fn make_tests(&self, made: &mut u64, count: usize) -> Result<(), PatFault>
        ensures ok { OnOk result ((made.old + count ≤ self.now.limit) × (made.new ≡ made.old + count)) }
        ensures err { IfErr result (λ wrong. (wrong ≡ PatFault.Tests) × (self.now.limit < made.old + count)) }
    {
        if self.limit < *made || self.limit - *made < count as u64 {
            return Err(PatFault::Tests);
        }
        *made += count as u64;
        Ok(())
    }

    /// The class accepts the byte at an index, where there is one.
    fn accepts_at(&self, class: Class, index: usize) -> bool
        ensures value { result ≡ accepts_first (accepts self.now.pattern.now class) (drop index self.now.subject.now) }
        ensures within { IsTrue result → index < length self.now.subject.now }
    {
        index < self.subject.len() && accepts(self.pattern, class, self.subject[index])
    }

    /// How many bytes from an index on the class accepts.
    fn run_len(&self, class: Class, index: usize) -> usize
        ensures value { result ≡ prefix_len (accepts self.now.pattern.now class) (drop index self.now.subject.now) }
        ensures within { result ≤ length self.now.subject.now - index }
    {
        bytes_after(self.subject, index)
            .iter()
            .take_while(|byte| accepts(self.pattern, class, **byte))
            .count()
    }

    /// The class is taken once.
    fn once(&self, state: &mut State, class: Class, after: usize) -> Result<Step, PatFault>
        ensures { GoesOnAt self.now state.old (Item.Repeated class Repeat.Once) after state.new result }
    {
        self.make_tests(&mut state.tests, 1)?;
        if !self.accepts_at(class, state.index) {
            return Ok(Step::Back);
        }
        state.index += 1;
        state.at = after;
        Ok(Step::On)
    }

    /// The class is taken once, or else not at all.
    fn optional(&self, state: &mut State, class: Class, after: usize) -> Result<Step, PatFault>
        ensures { GoesOnAt self.now state.old (Item.Repeated class Repeat.Optional) after state.new result }
    {
        self.make_tests(&mut state.tests, 1)?;
        let index = state.index;
        state.at = after;
        if !self.accepts_at(class, index) {
            return Ok(Step::On);
        }
        state.pending.push(Pending::Fewer {
            after,
            lowest: index,
            index,
        })?;
        state.index = index + 1;
        Ok(Step::On)
    }

    /// The class is taken as often as it can be, or else fewer times.
    fn longest(&self, state: &mut State, class: Class, after: usize) -> Result<Step, PatFault>
        ensures { GoesOnAt self.now state.old (Item.Repeated class Repeat.Longest) after state.new result }
    {
        let lowest = state.index;
        let taken = self.run_len(class, lowest);
        self.make_tests(&mut state.tests, taken)?;
        self.make_tests(&mut state.tests, 1)?;
        state.at = after;
        if taken == 0 {
            return Ok(Step::On);
        }
        state.index = lowest + taken;
        state.pending.push(Pending::Fewer {
            after,
            lowest,
            index: lowest + taken - 1,
        })?;
        Ok(Step::On)
    }

    /// The class is taken at least once, as often as it can be.
    fn longest_of_some(
        &self,
        state: &mut State,
        class: Class,
        after: usize,
    ) -> Result<Step, PatFault>
        ensures { GoesOnAt self.now state.old (Item.Repeated class Repeat.LongestOfSome) after state.new result }
    {
        self.make_tests(&mut state.tests, 1)?;
        if !self.accepts_at(class, state.index) {
            return Ok(Step::Back);
        }
        state.index += 1;
        self.longest(state, class, after)
    }

    /// The class is taken not at all, or else more and more often.
    fn shortest(&self, state: &mut State, class: Class, after: usize) -> Result<Step, PatFault>
        requires further { state.old.at < after }
        requires within { state.old.at < length self.now.pattern.now }
        ensures { GoesOnAt self.now state.old (Item.Repeated class Repeat.Shortest) after state.new result }
    {
        let index = state.index;
        state.pending.push(Pending::More {
            class,
            after,
            index,
        })?;
        state.at = after;
        Ok(Step::On)
    }

    /// A class, with what says how often it is taken.
    fn repeated(
        &self,
        state: &mut State,
        class: Class,
        repeat: Repeat,
        after: usize,
    ) -> Result<Step, PatFault>
        requires further { state.old.at < after }
        requires within { state.old.at < length self.now.pattern.now }
        ensures { GoesOnAt self.now state.old (Item.Repeated class repeat) after state.new result }
    {
        match repeat {
            Repeat::Once => self.once(state, class, after),
            Repeat::Optional => self.optional(state, class, after),
            Repeat::Longest => self.longest(state, class, after),
            Repeat::LongestOfSome => self.longest_of_some(state, class, after),
            Repeat::Shortest => self.shortest(state, class, after),
        }
    }

    /// One capture more.
    fn captured(&self, state: &mut State, capture: Capture, after: usize) -> Result<Step, PatFault>
        ensures { GoesOn self.now state.old (capture_next self.now state.old capture after) state.new result }
    {
        if state.captures.as_slice().len() >= MOST_CAPTURES {
            return Err(PatFault::Captures { tests: state.tests });
        }
        self.make_tests(&mut state.tests, 1)?;
        state.pending.push(Pending::Forget)?;
        state.captures.push(capture)?;
        state.at = after;
        Ok(Step::On)
    }

    /// The last open capture is closed; `at` is the index of the parenthesis in the pattern.
    fn closed(&self, state: &mut State, at: usize, after: usize) -> Result<Step, PatFault>
        ensures { GoesOnAt self.now state.old (Item.Close at) after state.new result }
    {
        let Some(found) = last_open(&state.captures) else {
            return Err(PatFault::Malformed {
                at,
                tests: state.tests,
            });
        };
        self.make_tests(&mut state.tests, 1)?;
        state.pending.push(Pending::Reopen(found))?;
        close_at(&mut state.captures, found, state.index);
        state.at = after;
        Ok(Step::On)
    }

    /// Goes on after so many bytes, if there are so many.
    fn advance(&self, state: &mut State, len: Option<usize>, after: usize) -> Result<Step, PatFault>
        requires { IfSome len (λ n. state.old.index + n < 2 ^ 64) }
        ensures { GoesOn self.now state.old (len_next self.now state.old len after) state.new result }
    {
        self.make_tests(&mut state.tests, 1)?;
        let Some(len) = len else {
            return Ok(Step::Back);
        };
        state.index += len;
        state.at = after;
        Ok(Step::On)
    }

    /// A back reference to the capture of a digit; `at` is its index in the pattern.
    fn referred(
        &self,
        state: &mut State,
        digit: u8,
        at: usize,
        after: usize,
    ) -> Result<Step, PatFault>
        ensures { GoesOnAt self.now state.old (Item.Reference digit at) after state.new result }
    {
        let Some(cap) = referenced(&state.captures, digit) else {
            return Err(PatFault::Malformed {
                at,
                tests: state.tests,
            });
        };
        let len = repeated_len(self.subject, bytes_after(self.subject, state.index), cap);
        self.advance(state, len, after)
    }

    /// The subject's end stands here.
    fn at_end(&self, state: &mut State, after: usize) -> Result<Step, PatFault>
        requires further { state.old.at < after }
        requires within { state.old.at < length self.now.pattern.now }
        ensures { GoesOnAt self.now state.old Item.End after state.new result }
    {
        if state.index == self.subject.len() {
            state.at = after;
            return Ok(Step::On);
        }
        self.make_tests(&mut state.tests, 1)?;
        Ok(Step::Back)
    }

    /// The pattern's end is reached.
    fn whole(&self, alloc: Global, state: &mut State) -> Result<Step, PatFault>
        ensures { GoesOn self.now state.old (end_trail state.old) state.new result }
    {
        if let Some(at) = first_open(&state.captures) {
            return Err(PatFault::Malformed {
                at,
                tests: state.tests,
            });
        }
        self.make_tests(&mut state.tests, 1)?;
        let captures = closed_ones(alloc, &state.captures)?;
        Ok(Step::Whole(Found {
            start: state.start,
            end: state.index,
            captures,
        }))
    }

    /// One step: the item where the search stands, or the pattern's end.
    fn step(
        &self,
        alloc: Global,
        state: &mut State,
        balance: &mut Balance,
    ) -> Result<Step, PatFault>
        requires { AreRight self.now.subject.now balance.old.pairs.items }
        ensures steps { GoesOn self.now state.old (ahead self.now state.old) state.new result }
        ensures right { AreRight self.now.subject.now balance.new.pairs.items }
    {
        if state.at >= self.pattern.len() {
            return self.whole(alloc, state);
        }
        let SizedItem { item, size } = item_at(self.pattern, state.at);
        let after = state.at + size;
        match item {
            Item::Repeated(class, repeat) => self.repeated(state, class, repeat, after),
            Item::Open(at) => {
                let start = state.index;
                self.captured(state, Capture::Open { start, at }, after)
            }
            Item::Position => {
                let cap = Cap::Position(state.index);
                self.captured(state, Capture::Closed(cap), after)
            }
            Item::Close(at) => self.closed(state, at, after),
            Item::Balanced(opening, closing) => {
                let len = balance.len_at(alloc, self.subject, state.index, opening, closing)?;
                self.advance(state, len, after)
            }
            Item::Reference(digit, at) => self.referred(state, digit, at, after),
            Item::End => self.at_end(state, after),
            Item::Wrong(at) => Err(PatFault::Malformed {
                at,
                tests: state.tests,
            }),
        }
    }

    /// Goes on with the next index where a match may begin, if there is one.
    fn next_start(&self, state: &mut State) -> bool
        requires { state.old.pending.items ≡ [] }
        ensures { GoesBack self.now state.old state.new (Ok result) }
    {
        if self.anchored || state.start >= self.subject.len() {
            return false;
        }
        state.start += 1;
        state.index = state.start;
        state.at = 0;
        state.captures.clear();
        true
    }

    /// Goes on with one byte fewer of a repetition.
    fn fewer(
        &self,
        state: &mut State,
        after: usize,
        lowest: usize,
        index: usize,
    ) -> Result<(), PatFault>
        ensures { Takes self.now state.old (Pending.Fewer after lowest index) state.new result }
    {
        state.at = after;
        if index <= lowest {
            state.index = lowest;
            return Ok(());
        }
        state.index = index;
        state.pending.push(Pending::Fewer {
            after,
            lowest,
            index: index - 1,
        })?;
        Ok(())
    }

    /// Goes on with one byte more of a repetition, if the class accepts it.
    fn more(
        &self,
        state: &mut State,
        class: Class,
        after: usize,
        index: usize,
    ) -> Result<bool, PatFault>
        ensures { Tries self.now state.old (Pending.More class after index) state.new result }
    {
        self.make_tests(&mut state.tests, 1)?;
        if !self.accepts_at(class, index) {
            return Ok(false);
        }
        let index = index + 1;
        state.pending.push(Pending::More {
            class,
            after,
            index,
        })?;
        state.index = index;
        state.at = after;
        Ok(true)
    }

    /// Goes back to the last open choice, or on to the next index where a match may begin, if there is one.
    fn resume(&self, state: &mut State) -> Result<bool, PatFault>
        ensures { GoesBack self.now state.old state.new result }
    {
        while let Some(pending) = state.pending.pop() {
            match pending {
                Pending::Fewer {
                    after,
                    lowest,
                    index,
                } => {
                    self.fewer(state, after, lowest, index)?;
                    return Ok(true);
                }
                Pending::More {
                    class,
                    after,
                    index,
                } => {
                    if self.more(state, class, after, index)? {
                        return Ok(true);
                    }
                }
                Pending::Forget => forget_last(&mut state.captures),
                Pending::Reopen(found) => open_again(&mut state.captures, found),
            }
        }
        Ok(self.next_start(state))
    }

    /// The first match, in order of preference.
    pub(crate) fn run(&self, alloc: Global, state: &mut State) -> Result<Option<Found>, PatFault>
        ensures { Ends self.now state.old state.new result }
    {
        let mut balance = Balance {
            scanned: 0,
            pairs: Vec::new(alloc),
        };
        loop {
            match self.step(alloc, state, &mut balance)? {
                Step::On => {}
                Step::Back => {
                    if !self.resume(state)? {
                        return Ok(None);
                    }
                }
                Step::Whole(found) => return Ok(Some(found)),
            }
        }
    }
}
