//! How many bytes `%b` takes, kept for all indices once they were gone through often.

ghost use Rattle.std.specs.Prelude.{◌≡◌, ◌<◌, ◌+◌, ◌^◌, OnOk, IfSome, IfOk, IfErr, drop};
ghost use Rattle.lua_patterns.specs.Trails.{balanced_len};
ghost use Rattle.lua_patterns.specs.Balance.{IsRight, IsRightOf, AreRight, Waits, Reaches};

use crate::PatFault;
use crate::matcher::balanced_len;
use resty_base::bytes_after;
use std::alloc::Global;

/// Where `%b` matches with an opening and a closing byte: the suffixes of the subject at which it takes bytes, by their
/// lengths, from the shortest on, and how many bytes it takes at each.
#[derive(Drop)]
pub(crate) struct Pair {
    pub opening: u8,
    pub closing: u8,
    pub suffixes: Vec<usize>,
    pub lens: Vec<usize>,
}

/// What is kept of the reach of `%b` during a search: how many bytes were gone through, and the pairs that were worth
/// keeping since then.
#[derive(Drop)]
pub(crate) struct Balance {
    pub scanned: usize,
    pub pairs: Vec<Pair>,
}

/// Puts one byte more in front of a text that has these closing bytes that wait for an opening one. With it the text has
/// `suffix` bytes.
fn wait(
    ends: &mut Vec<usize>,
    byte: u8,
    suffix: usize,
    opening: u8,
    closing: u8,
) -> Result<(), PatFault>
    ensures ok { OnOk result (Waits opening closing byte suffix ends.old.items ends.new.items) }
    ensures memory { IfErr result (λ fault. fault ≡ PatFault.Memory) }
{
    if byte == closing {
        ends.push(suffix)?;
    } else if byte == opening {
        let _ = ends.pop();
    }
    Ok(())
}

impl Pair {
    /// Puts one byte more in front of a text that has these closing bytes that wait for an opening one. With it the text
    /// has `suffix` bytes.
    fn reach(&mut self, byte: u8, suffix: usize, ends: &[usize]) -> Result<(), PatFault>
        ensures ok { OnOk result (Reaches byte suffix ends.now self.old self.new) }
        ensures same { OnOk result ((self.new.opening ≡ self.old.opening) × (self.new.closing ≡ self.old.closing)) }
        ensures memory { IfErr result (λ fault. fault ≡ PatFault.Memory) }
    {
        if byte == self.opening {
            if let Some(end) = ends.last() {
                self.suffixes.push(suffix)?;
                self.lens
                    .push(suffix.saturating_sub(*end).saturating_add(1))?;
            }
        }
        Ok(())
    }

    /// Where the pair matches in a subject.
    fn of(alloc: Global, subject: &[u8], opening: u8, closing: u8) -> Result<Pair, PatFault>
        ensures right { IfOk result (IsRight opening closing subject.now) }
        ensures memory { IfErr result (λ fault. fault ≡ PatFault.Memory) }
    {
        let mut pair = Pair {
            opening,
            closing,
            suffixes: Vec::new(alloc),
            lens: Vec::new(alloc),
        };
        let mut ends = Vec::new(alloc);
        let mut left = subject.len();
        while left > 0 {
            left -= 1;
            let suffix = subject.len() - left;
            pair.reach(subject[left], suffix, ends.as_slice())?;
            wait(&mut ends, subject[left], suffix, opening, closing)?;
        }
        Ok(pair)
    }

    /// How many bytes `%b` takes at an index of the subject.
    fn len_at(&self, subject: &[u8], index: usize) -> Option<usize>
        requires { IsRightOf subject.now self.now }
        ensures value { result ≡ balanced_len self.now.opening self.now.closing (drop index subject.now) }
        ensures within { IfSome result (λ n. index + n < 2 ^ 64) }
    {
        let suffix = subject.len().checked_sub(index)?;
        match self.suffixes.binary_search(&suffix) {
            Ok(at) => Some(self.lens[at]),
            Err(_) => None,
        }
    }
}

/// The same, where the pair is among those that are kept.
fn kept_len(
    pairs: &[Pair],
    subject: &[u8],
    index: usize,
    opening: u8,
    closing: u8,
) -> Option<Option<usize>>
    requires { AreRight subject.now pairs.now }
    ensures value { IfSome result (λ len. len ≡ balanced_len opening closing (drop index subject.now)) }
    ensures within { IfSome result (λ len. IfSome len (λ n. index + n < 2 ^ 64)) }
{
    for pair in pairs {
        if pair.opening == opening && pair.closing == closing {
            return Some(pair.len_at(subject, index));
        }
    }
    None
}

impl Balance {
    /// How many bytes `%b` takes at an index of the subject. Where more bytes were gone through than the subject has, each
    /// pair that is met is worked out once for all indices.
    pub(crate) fn len_at(
        &mut self,
        alloc: Global,
        subject: &[u8],
        index: usize,
        opening: u8,
        closing: u8,
    ) -> Result<Option<usize>, PatFault>
        requires { AreRight subject.now self.old.pairs.items }
        ensures value { IfOk result (λ len. len ≡ balanced_len opening closing (drop index subject.now)) }
        ensures within { IfOk result (λ len. IfSome len (λ n. index + n < 2 ^ 64)) }
        ensures memory { IfErr result (λ fault. fault ≡ PatFault.Memory) }
        ensures right { AreRight subject.now self.new.pairs.items }
    {
        let text = bytes_after(subject, index);
        if self.scanned <= subject.len() {
            let len = balanced_len(text, opening, closing);
            self.scanned = self.scanned.saturating_add(len.unwrap_or(text.len()));
            return Ok(len);
        }
        if let Some(len) = kept_len(&self.pairs, subject, index, opening, closing) {
            return Ok(len);
        }
        let pair = Pair::of(alloc, subject, opening, closing)?;
        let len = pair.len_at(subject, index);
        self.pairs.push(pair)?;
        Ok(len)
    }
}
