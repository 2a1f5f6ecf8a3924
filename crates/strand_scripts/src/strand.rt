//! The scripted strand: it meets the contract by a plan.

ghost use Rattle.std.specs.Prelude.{◌≡◌, ◌++◌, IfOk};
ghost use Rattle.strand_scripts.specs.Turns.{waits_after, line_after, op_acts};

use crate::line::Line;
use crate::program::{Op, Rest, Site};
use resty_base::{Bytes, Ms};
use std::alloc::{AllocError, Global};
use std::collections::VecDeque;
use strand_contract::{Act, Acts, Answer, Place, Seen, Start, StrandContract};

/// No scripted strand asks for a timer job.
#[derive(Debug, Drop)]
pub struct NoJob;

/// What a scripted strand waits for.
#[derive(Clone, Copy, Debug, PartialEq, Eq)]
pub enum Wait {
    /// Its client's first byte, which names its program.
    Asking,
    /// The next run of its thread.
    Going,
    /// Its deadline.
    Sleeping,
    /// Its program is over: until all that was sent is taken.
    Sending,
}

/// The thread that goes by the program.
const THREAD: u32 = 0;

/// The thread that is recalled before it runs.
const SECOND: u32 = 1;

/// The deadline of a sleep.
const SLEEP: u32 = 2;

/// A scripted strand.
#[derive(Debug, Drop)]
pub struct ScriptStrand {
    line: Line,
    wait: Wait,
    rest: Rest,
}

impl ScriptStrand {
    ghost use Rattle.std.specs.Prelude.{◌≡◌, ◌++◌, [], ◌∷◌, IfOk, if◌then◌else◌};
    ghost use Rattle.strand_contract.specs.declared.turns.Act.TheVariants as act;
    ghost use Rattle.strand_scripts.specs.Turns as spec;
    ghost use Rattle.strand_scripts.specs.Turns.{turn};

    /// Puts the thread into the run queue.
    fn ready(&mut self, acts: &mut Acts<NoJob>) -> Result<(), AllocError>
        ensures { IfOk result (λ done. turn self.new acts.new.items ≡ spec.readied self.old acts.old.items) }
    {
        self.wait = Wait::Going;
        acts.push_back(Act::Ready(THREAD))?;
        Ok(())
    }

    /// Ends the life where the test is true.
    fn end_if(&mut self, acts: &mut Acts<NoJob>, ends: bool) -> Result<(), AllocError>
        ensures { IfOk result (λ done. turn self.new acts.new.items ≡ spec.end_if ends self.old acts.old.items) }
    {
        if ends {
            if self.line.is_open() {
                acts.push_back(Act::HangUp(Place::Client))?;
            }
            acts.push_back(Act::Gone)?;
            self.line.end();
        }
        Ok(())
    }

    /// The client sent bytes.
    fn hear(&mut self, acts: &mut Acts<NoJob>, site: &Site, bytes: &[u8]) -> Result<(), AllocError>
        ensures { IfOk result (λ done. turn self.new acts.new.items ≡ spec.heard site.now bytes.now self.old acts.old.items) }
    {
        let Some(name) = bytes.first() else {
            return Ok(());
        };
        match self.wait {
            Wait::Asking => {
                self.rest = Rest::of(site, *name)?;
                self.ready(acts)
            }
            Wait::Sleeping if matches!(self.rest.first(), Some(Op::Fail)) => Err(AllocError),
            Wait::Sleeping => {
                acts.push_back(Act::Cancel(SLEEP))?;
                self.ready(acts)
            }
            _ => Ok(()),
        }
    }

    /// The client sends no more.
    fn hear_end(&mut self, acts: &mut Acts<NoJob>) -> Result<(), AllocError>
        ensures { IfOk result (λ done. turn self.new acts.new.items ≡ spec.end_if (spec.is_asking self.old.wait) self.old acts.old.items) }
    {
        let ends = matches!(self.wait, Wait::Asking);
        self.end_if(acts, ends)
    }

    /// The client takes bytes again.
    fn offer(&mut self, acts: &mut Acts<NoJob>) -> Result<(), AllocError>
        ensures { IfOk result (λ done. turn self.new acts.new.items ≡ spec.offered_again self.old acts.old.items) }
    {
        self.line.put_off(false);
        if self.line.is_open() && !self.line.is_done() {
            acts.push_back(Act::Offer(Place::Client))?;
        }
        Ok(())
    }

    /// So many bytes of the piece were taken.
    fn take(&mut self, acts: &mut Acts<NoJob>, count: usize) -> Result<(), AllocError>
        ensures { IfOk result (λ done. turn self.new acts.new.items ≡ spec.took count self.old acts.old.items) }
    {
        self.line.take(count);
        let ends = matches!(self.wait, Wait::Sending) && self.line.is_done();
        self.end_if(acts, ends)
    }

    /// The write broke.
    fn lose(&mut self, acts: &mut Acts<NoJob>) -> Result<(), AllocError>
        ensures { IfOk result (λ done. turn self.new acts.new.items ≡ spec.lost self.old acts.old.items) }
    {
        self.line.put_off(false);
        self.end_if(acts, true)
    }

    /// Goes on with the program until the thread waits.
    fn run(&mut self, acts: &mut Acts<NoJob>, now: Ms) -> Result<(), AllocError>
        ensures { IfOk result (λ done. turn self.new acts.new.items ≡ spec.ran now.0 self.old.rest self.old.line acts.old.items) }
    {
        while let Some(op) = self.rest.first() {
            let wait = carry_out(&mut self.line, acts, op, now)?;
            self.rest.skip();
            if let Some(wait) = wait {
                self.wait = wait;
                return Ok(());
            }
        }
        self.wait = Wait::Sending;
        let ends = self.line.is_done();
        self.end_if(acts, ends)
    }

    /// Takes the turn that begins with what it is shown. It has no sockets: that is of its client's connection.
    fn see(
        &mut self,
        acts: &mut Acts<NoJob>,
        site: &Site,
        now: Ms,
        seen: Seen,
    ) -> Result<(), AllocError>
        ensures { IfOk result (λ done. turn self.new acts.new.items ≡ spec.shown site.now now.0 seen self.old acts.old.items) }
    {
        match seen {
            Seen::Bytes(_, bytes) => self.hear(acts, site, bytes.as_slice()),
            Seen::Ended(_) => self.hear_end(acts),
            Seen::Broken(_) => self.end_if(acts, true),
            Seen::Ready(_) => self.offer(acts),
            Seen::Took(_, count) => self.take(acts, count),
            Seen::Later(_) => {
                self.line.put_off(true);
                Ok(())
            }
            Seen::Lost(_) => self.lose(acts),
            Seen::Due(_) => self.ready(acts),
            Seen::Run(_) => self.run(acts, now),
            Seen::Stop => self.end_if(acts, true),
            _ => Ok(()),
        }
    }
}

/// Carries out one operation. It reports what the thread waits for then, if it doesn't go on.
fn carry_out(
    line: &mut Line,
    acts: &mut Acts<NoJob>,
    op: &Op,
    now: Ms,
) -> Result<Option<Wait>, AllocError>
    ensures waits { IfOk result (λ wait. wait ≡ waits_after op.now) }
    ensures line { IfOk result (λ wait. line.new ≡ line_after op.now line.old) }
    ensures acts { IfOk result (λ wait. acts.new.items ≡ acts.old.items ++ op_acts now.0 op.now line.old) }
{
    match op {
        Op::Sleep(span) => {
            acts.push_back(Act::Arm(SLEEP, Ms(now.0.saturating_add(span.0))))?;
            Ok(Some(Wait::Sleeping))
        }
        Op::Yield => {
            acts.push_back(Act::Ready(THREAD))?;
            Ok(Some(Wait::Going))
        }
        Op::Log(text) => {
            acts.push_back(Act::Log(text.clone()?))?;
            Ok(None)
        }
        Op::Say(text) => {
            if line.wants_offer(text) {
                acts.push_back(Act::Offer(Place::Client))?;
            }
            line.send(text)?;
            Ok(None)
        }
        Op::Recall => {
            acts.push_back(Act::Ready(SECOND))?;
            acts.push_back(Act::Unready(SECOND))?;
            Ok(None)
        }
        Op::Fail => Err(AllocError),
    }
}

impl StrandContract for ScriptStrand {
    ghost use Rattle.std.specs.Prelude.{◌≡◌, List, ℕ, [], ◌∷◌, IfOk};
    ghost use Rattle.strand_contract.specs.Actions.{LocalAction, Did, Began};
    ghost use Rattle.strand_plans.specs.Plans.{state_of};
    ghost use Rattle.strand_plans.proofs.Ledgers.{asks-last};
    ghost use Rattle.strand_plans.proofs.Grows.{grows};
    ghost use Rattle.strand_plans.proofs.PlanLaws.{silent, asks-fit, hangs-up-open, leaves-nothing-open, keeps, wakes-quietly, ends-at-stop};
    ghost use Rattle.strand_plans.proofs.Executions as executions;
    ghost use Rattle.strand_scripts.specs.Scripted.{script_plan, script_behavior};
    ghost use Rattle.strand_scripts.specs.Turns.{strand_after, left_of};
    ghost use Rattle.strand_scripts.specs.ConditionLaws.{IsScripted, nothing, meets, still};

    type Site = Site;

    type Job = NoJob;

    ghost meaning = { λ site. record {
      behavior = script_behavior site;
      stands = λ strand es. strand ≡ strand_after site es;
    } };

    ghost left = { λ strand. left_of strand };

    ghost still = { λ site strand a es. still site strand a es };

    ghost quiet = { λ site. executions.quiet (script_plan site) };

    ghost silent = { λ site. silent (script_plan site) };

    ghost grows = { λ site. grows (script_plan site) };

    ghost asks_last = { λ site. asks-last (script_plan site) };

    ghost asks_fit = { λ site. asks-fit (script_plan site) IsScripted nothing (meets _ site) };

    ghost hangs_up_open = { λ site. hangs-up-open (script_plan site) IsScripted nothing (meets _ site) };

    ghost leaves_nothing_open = { λ site. leaves-nothing-open (script_plan site) IsScripted nothing (meets _ site) };

    ghost keeps = { λ site. keeps (script_plan site) IsScripted nothing (meets _ site) };

    ghost wakes_quietly = { λ site. wakes-quietly (script_plan site) IsScripted nothing (meets _ site) };

    ghost ends_at_stop = { λ site. ends-at-stop (script_plan site) IsScripted nothing (meets _ site) };

    fn connections(site: &Site) -> u32 {
        site.connections
    }

    fn zones(_site: &Site) -> u32 {
        0
    }

    fn zone_name(_site: &Site, _zone: u32) -> Option<&Bytes> {
        None
    }

    fn zone_size(_site: &Site, _zone: u32) -> u64 {
        0
    }

    fn begin(
        alloc: Global,
        _site: &Site,
        _now: Ms,
        start: Start<NoJob>,
    ) -> Result<(Self, Acts<NoJob>), AllocError>
        ensures { IfOk result (λ r. (r.0 ≡ strand_after _site.now (Did (Began _now.0 start) ∷ []))
            × (r.1.items ≡ (script_behavior _site.now).acts (Did (Began _now.0 start) ∷ []))) }
    {
        let is_open = match start {
            Start::Client(_) => true,
            Start::Job(_, _, _) => false,
        };
        let strand = ScriptStrand {
            line: Line::new(alloc, is_open),
            wait: Wait::Asking,
            rest: Rest::nothing(),
        };
        Ok((strand, VecDeque::new(alloc)))
    }

    fn given(
        &mut self,
        alloc: Global,
        site: &Site,
        now: Ms,
        seen: Seen,
    ) -> Result<Acts<NoJob>, AllocError> {
        let mut acts = VecDeque::new(alloc);
        self.see(&mut acts, site, now, seen)?;
        Ok(acts)
    }

    fn answer(
        &mut self,
        _alloc: Global,
        _site: &Site,
        _now: Ms,
        _answer: Answer,
    ) -> Result<Acts<NoJob>, AllocError> {
        unreachable!()
    }

    fn queued(&self, _site: &Site, place: Place) -> &[u8] {
        match place {
            Place::Client => self.line.queued(),
            Place::Sock(_) => &[],
        }
    }

    fn wants(&self, _place: Place) -> bool {
        true
    }
}
