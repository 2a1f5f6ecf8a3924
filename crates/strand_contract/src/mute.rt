//! A strand that does nothing, and waits for Stop: it meets the contract, so the contract's clauses can be met.

use crate::{Act, Acts, Answer, Place, Seen, Start, StrandContract};
use resty_base::{Bytes, Ms};
use std::alloc::{AllocError, Global};
use std::collections::VecDeque;

/// The site of strands that do nothing.
#[derive(Drop)]
pub struct MuteSite;

/// No strand of this site asks for a timer job.
#[derive(Debug, Drop)]
pub struct NoJob;

/// A strand that does nothing: it waits for Stop.
#[derive(Drop)]
pub struct Mute {
    is_client: bool,
    is_over: bool,
}

impl Mute {
    ghost use Rattle.std.specs.Prelude.{◌≡◌, true, IfOk};
    ghost use Rattle.strand_contract.specs.Mute.{end_acts};

    /// Ends its life.
    fn halt(&mut self, alloc: Global) -> Result<Acts<NoJob>, AllocError>
        ensures client { self.new.is_client ≡ self.old.is_client }
        ensures over { self.new.is_over ≡ true }
        ensures acts { IfOk result (λ acts. acts.items ≡ end_acts self.old.is_client) }
    {
        self.is_over = true;
        let mut acts = VecDeque::new(alloc);
        if self.is_client {
            acts.push_back(Act::HangUp(Place::Client))?;
        }
        acts.push_back(Act::Gone)?;
        Ok(acts)
    }
}

impl StrandContract for Mute {
    ghost use Rattle.std.specs.Prelude.{◌≡◌, List, [], ◌∷◌, IfOk, refl, if◌then◌else◌};
    ghost use Rattle.strand_contract.specs.Actions.{LocalAction, Did, Began};
    ghost use Rattle.strand_contract.specs.Mute.{is_client, was_halted, mute_behavior};
    ghost use Rattle.strand_contract.specs.MuteLaws.{mute-still, mute-quiet, mute-asks-last, mute-asks-fit, mute-hangs-up, mute-leaves, mute-keeps};
    ghost use Rattle.strand_contract.specs.MuteLaws.{mute-wakes, mute-ends};

    type Site = MuteSite;

    type Job = NoJob;

    ghost meaning = { λ site. record {
      behavior = mute_behavior;
      stands = λ strand es. (strand.is_client ≡ is_client es) × (strand.is_over ≡ was_halted es);
    } };

    ghost left = { λ strand. if strand.is_over then 0 else 3 };

    ghost still = { λ site strand a es. mute-still strand.is_client strand.is_over a es };

    ghost quiet = { λ site a es. mute-quiet a es };

    ghost silent = { λ site q a es h. refl };

    ghost grows = { λ site q a es execution. ([], refl) };

    ghost asks_last = { λ site es. mute-asks-last es };

    ghost asks_fit = { λ site es. mute-asks-fit es };

    ghost hangs_up_open = { λ site es q rest. mute-hangs-up es q rest };

    ghost leaves_nothing_open = { λ site es q. mute-leaves es q };

    ghost keeps = { λ site es execution lives rests. mute-keeps es };

    ghost wakes_quietly = { λ site a es execution. mute-wakes a es };

    ghost ends_at_stop = { λ site es execution. mute-ends es };

    fn connections(_site: &MuteSite) -> u32 {
        512
    }

    fn zones(_site: &MuteSite) -> u32 {
        0
    }

    fn zone_name(_site: &MuteSite, _zone: u32) -> Option<&Bytes> {
        None
    }

    fn zone_size(_site: &MuteSite, _zone: u32) -> u64 {
        0
    }

    fn begin(
        alloc: Global,
        _site: &MuteSite,
        _now: Ms,
        start: Start<NoJob>,
    ) -> Result<(Self, Acts<NoJob>), AllocError>
        ensures { IfOk result (λ r. ((r.0.is_client ≡ is_client (Did (Began _now.0 start) ∷ [])) × (r.0.is_over ≡ was_halted (Did (Began _now.0 start) ∷ [])))
            × (r.1.items ≡ mute_behavior.acts (Did (Began _now.0 start) ∷ []))) }
    {
        let is_client = match start {
            Start::Client(_) => true,
            Start::Job(_, _, _) => false,
        };
        let strand = Mute {
            is_client,
            is_over: false,
        };
        Ok((strand, VecDeque::new(alloc)))
    }

    fn given(
        &mut self,
        alloc: Global,
        _site: &MuteSite,
        _now: Ms,
        seen: Seen,
    ) -> Result<Acts<NoJob>, AllocError> {
        match seen {
            Seen::Stop => self.halt(alloc),
            _ => Ok(VecDeque::new(alloc)),
        }
    }

    fn answer(
        &mut self,
        _alloc: Global,
        _site: &MuteSite,
        _now: Ms,
        _answer: Answer,
    ) -> Result<Acts<NoJob>, AllocError> {
        unreachable!()
    }

    fn queued(&self, _site: &MuteSite, _place: Place) -> &[u8] {
        &[]
    }

    fn wants(&self, _place: Place) -> bool {
        true
    }
}
