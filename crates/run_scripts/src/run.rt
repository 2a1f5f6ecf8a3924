//! The scripted run: it meets the contract.

use crate::script::Script;
use crate::steps::{counting, ending, giving_up, rousing, sleeping, stepping, turn_of, waking};
use http_in::Head;
use resty_base::{Bytes, Ms};
use run_contract::{NoJob, RunContract, RunSeen, RunTurn};
use std::alloc::{AllocError, Global};
use std::collections::VecDeque;
use strand_contract::Answer;
use uri_args::Target;

/// How far a run has come.
#[derive(Clone, Copy)]
pub enum Progress {
    /// The dictionary counts it.
    Counting,
    /// It asked its connection, and has no answer yet.
    Asked,
    /// What it asked for isn't there yet, and its thread sleeps.
    Sleeping,
    /// The thread woke first, and waits for its run.
    Woken,
    /// The client was hung up, or there is none, and the thread waits for its run.
    Gone,
    Over,
}

/// A run by a script.
#[derive(Drop)]
pub struct ScriptedRun {
    progress: Progress,
    has_client: bool,
}

impl ScriptedRun {
    ghost use Rattle.std.specs.Prelude.{◌≡◌, None, Some, IfOk};
    ghost use Rattle.run_scripts.specs.Turns as spec;
    ghost use Rattle.run_scripts.specs.Turns.{turn, step_made, asks_first};

    /// It does its first step and asks its connection.
    fn open(alloc: Global, site: &Script) -> Result<RunTurn<NoJob>, AllocError>
        ensures does { IfOk result (λ t. t.does.items ≡ step_made site.now.first) }
        ensures asks { IfOk result (λ t. t.asks ≡ Some site.now.asks) }
    {
        let mut turn = stepping(alloc, &site.first)?;
        turn.asks = Some(site.asks);
        Ok(turn)
    }

    /// It begins: it is counted first, where its script says so.
    fn come(alloc: Global, site: &Script) -> Result<(Self, RunTurn<NoJob>), AllocError>
        ensures turn { IfOk result (λ r. turn r.1.does.items r.0 ≡ spec.begun site.now site.now.counts) }
        ensures asks { IfOk result (λ r. r.1.asks ≡ asks_first site.now.asks site.now.counts) }
    {
        let (progress, turn) = match &site.counts {
            Some(key) => (Progress::Counting, counting(alloc, key)),
            None => (Progress::Asked, Self::open(alloc, site)),
        };
        let run = ScriptedRun {
            progress,
            has_client: true,
        };
        Ok((run, turn?))
    }

    /// What it asked for is there, or refused.
    fn hear(&mut self, alloc: Global, site: &Script) -> Result<RunTurn<NoJob>, AllocError>
        ensures turn { IfOk result (λ t. turn t.does.items self.new ≡ spec.heard site.now self.old.has_client self.old.progress) }
        ensures asks { IfOk result (λ t. t.asks ≡ None) }
    {
        match self.progress {
            Progress::Asked => {
                self.progress = Progress::Over;
                ending(alloc, &site.answered, site.closes)
            }
            Progress::Counting
            | Progress::Sleeping
            | Progress::Woken
            | Progress::Gone
            | Progress::Over => {
                self.progress = Progress::Over;
                ending(alloc, &site.later, site.closes)
            }
        }
    }

    /// What it asked for isn't there yet.
    fn sleep(&mut self, alloc: Global, site: &Script, now: Ms) -> Result<RunTurn<NoJob>, AllocError>
        ensures turn { IfOk result (λ t. turn t.does.items self.new ≡ spec.slept site.now now.0 self.old.has_client) }
        ensures asks { IfOk result (λ t. t.asks ≡ None) }
    {
        self.progress = Progress::Sleeping;
        let until = Ms(now.0.saturating_add(site.sleeps.0));
        sleeping(alloc, &site.not_yet, until)
    }

    /// Its thread runs.
    fn run(&mut self, alloc: Global, site: &Script) -> Result<RunTurn<NoJob>, AllocError>
        ensures turn { IfOk result (λ t. turn t.does.items self.new ≡ spec.ran site.now self.old.has_client self.old.progress) }
        ensures asks { IfOk result (λ t. t.asks ≡ None) }
    {
        let is_woken = matches!(self.progress, Progress::Woken);
        self.progress = Progress::Over;
        if is_woken {
            ending(alloc, &site.woken, site.closes)
        } else {
            giving_up(alloc, site.closes)
        }
    }

    /// The client is hung up: a thread that sleeps is woken.
    fn let_go(&mut self, alloc: Global) -> Result<RunTurn<NoJob>, AllocError>
        ensures turn { IfOk result (λ t. turn t.does.items self.new ≡ spec.let_go self.old.progress) }
        ensures asks { IfOk result (λ t. t.asks ≡ None) }
    {
        self.has_client = false;
        match self.progress {
            Progress::Sleeping => {
                self.progress = Progress::Gone;
                rousing(alloc)
            }
            Progress::Counting
            | Progress::Asked
            | Progress::Woken
            | Progress::Gone
            | Progress::Over => { Ok(turn_of(VecDeque::new(alloc))) }
        }
    }

    /// The client sends no more.
    fn hear_end(&self, alloc: Global, site: &Script) -> Result<RunTurn<NoJob>, AllocError>
        ensures turn { IfOk result (λ t. turn t.does.items self.now ≡ spec.client_ended site.now self.now.has_client self.now.progress) }
        ensures asks { IfOk result (λ t. t.asks ≡ None) }
    {
        match self.progress {
            Progress::Sleeping | Progress::Woken => stepping(alloc, &site.client_ends),
            Progress::Counting | Progress::Asked | Progress::Gone | Progress::Over => {
                Ok(turn_of(VecDeque::new(alloc)))
            }
        }
    }

    /// Takes the turn that begins with what it is told.
    fn see(
        &mut self,
        alloc: Global,
        site: &Script,
        now: Ms,
        seen: RunSeen,
    ) -> Result<RunTurn<NoJob>, AllocError>
        ensures turn { IfOk result (λ t. turn t.does.items self.new ≡ spec.told site.now now.0 seen self.old) }
        ensures asks { IfOk result (λ t. t.asks ≡ None) }
    {
        match seen {
            RunSeen::Run(_) => self.run(alloc, site),
            RunSeen::Due(_) => {
                self.progress = Progress::Woken;
                waking(alloc)
            }
            RunSeen::Body(_, _) | RunSeen::BodyRefused(_) | RunSeen::AllTaken => {
                self.hear(alloc, site)
            }
            RunSeen::NotYet => self.sleep(alloc, site, now),
            RunSeen::ClientEnded => self.hear_end(alloc, site),
            RunSeen::ClientGone => self.let_go(alloc),
            RunSeen::Sock(_, _) => Ok(turn_of(VecDeque::new(alloc))),
        }
    }
}

impl RunContract for ScriptedRun {
    ghost use Rattle.std.specs.Prelude.{◌≡◌};
    ghost use Rattle.run_scripts.specs.declared.run.ScriptedRun.{ScriptedRun};
    ghost use Rattle.run_scripts.specs.Scripted.{ScriptedHolds, scripted_plan};
    ghost use Rattle.run_scripts.specs.ScriptedLaws.{scripted-is-run};
    ghost use Rattle.run_scripts.specs.Turns.{left_of};

    type Site = Script;

    type Job = NoJob;

    ghost Inner = { ScriptedRun };

    ghost meaning = { λ site. record {
      plan = scripted_plan site;
      holds = ScriptedHolds site;
      stands = λ run b r. run ≡ r;
    } };

    ghost left = { left_of };

    ghost most = { λ site. 41 };

    ghost meets = { λ site. scripted-is-run site };

    ghost apart = { λ site run b c r same stands. stands };

    fn zones(_site: &Script) -> u32 {
        1
    }

    fn zone_name(site: &Script, zone: u32) -> Option<&Bytes> {
        if zone == 0 {
            Some(&site.dictionary)
        } else {
            None
        }
    }

    fn zone_size(_site: &Script, _zone: u32) -> u64 {
        12_288
    }

    fn begin(
        alloc: Global,
        site: &Script,
        _now: Ms,
        _sockets: u32,
        head: Head,
        target: Target,
    ) -> Result<(Self, RunTurn<NoJob>), AllocError> {
        drop(head);
        drop(target);
        Self::come(alloc, site)
    }

    fn begin_job(
        alloc: Global,
        _site: &Script,
        _now: Ms,
        _premature: bool,
        _job: NoJob,
    ) -> Result<(Self, RunTurn<NoJob>), AllocError> {
        let run = ScriptedRun {
            progress: Progress::Gone,
            has_client: false,
        };
        Ok((run, waking(alloc)?))
    }

    fn given(
        &mut self,
        alloc: Global,
        site: &Script,
        now: Ms,
        seen: RunSeen,
    ) -> Result<RunTurn<NoJob>, AllocError> {
        self.see(alloc, site, now, seen)
    }

    fn answer(
        &mut self,
        alloc: Global,
        site: &Script,
        _now: Ms,
        _answer: Answer,
    ) -> Result<RunTurn<NoJob>, AllocError> {
        self.progress = Progress::Asked;
        Self::open(alloc, site)
    }

    fn queued(&self, _site: &Script, _socket: u32) -> &[u8] {
        &[]
    }

    fn wants(&self, _socket: u32) -> bool {
        false
    }
}
