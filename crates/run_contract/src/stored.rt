//! Runs that answer each request with what a dictionary keeps under a key: they meet the contract, so each of its calls can be made.

ghost use Rattle.std.specs.Prelude.{◌≡◌, true, [], ◌∷◌, None, IfOk};
ghost use Rattle.strand_contract.specs.declared.turns.Act.TheVariants as act;
ghost use Rattle.resty_base.specs.declared.dictionary.DictCall.TheVariants as dict;
ghost use Rattle.run_contract.specs.declared.turns.Said.TheVariants as said;
ghost use Rattle.run_contract.specs.declared.turns.RunAct.TheVariants as made;
ghost use Rattle.run_contract.specs.Stored.{given_text};

use crate::{RunAct, RunContract, RunSeen, RunTurn, Said};
use http_in::Head;
use resty_base::{Boxed, Bytes, DictAnswer, DictCall, DictValue, Ms};
use std::alloc::{AllocError, Global};
use std::collections::VecDeque;
use strand_contract::{Act, Answer};
use uri_args::Target;

/// One dictionary, a key of it, and the reply where no text is kept under the key.
#[derive(Drop)]
pub struct StoredSite {
    pub dictionary: Bytes,
    pub key: Bytes,
    pub otherwise: Bytes,
}

/// No run of this site asks for a timer job.
#[derive(Drop)]
pub struct NoJob;

/// How far a run has come.
#[derive(Clone, Copy)]
pub enum Progress {
    /// Its thread waits for its run.
    Queued,
    /// The dictionary was asked.
    Asked,
    Replied,
}

/// A run that asks for the value, sends it as the whole reply and closes.
#[derive(Drop)]
pub struct StoredReply {
    progress: Progress,
    has_client: bool,
}

/// A turn that does nothing and says nothing.
fn silent(alloc: Global) -> RunTurn<NoJob>
    ensures does { result.does.items ≡ [] }
    ensures asks { result.asks ≡ None }
{
    RunTurn {
        does: VecDeque::new(alloc),
        asks: None,
    }
}

/// A turn that puts the thread into the queue.
fn queueing(alloc: Global) -> Result<RunTurn<NoJob>, AllocError>
    ensures does { IfOk result (λ turn. turn.does.items ≡ made.Act (act.Ready 0) ∷ []) }
    ensures asks { IfOk result (λ turn. turn.asks ≡ None) }
{
    let mut turn = silent(alloc);
    turn.does.push_back(RunAct::Act(Act::Ready(0)))?;
    Ok(turn)
}

/// A turn that asks for what is kept under the key.
fn asking(alloc: Global, site: &StoredSite) -> Result<RunTurn<NoJob>, AllocError>
    ensures does { IfOk result (λ turn. turn.does.items ≡ made.Act (act.Dict 0 (dict.Get site.now.key)) ∷ []) }
    ensures asks { IfOk result (λ turn. turn.asks ≡ None) }
{
    let mut turn = silent(alloc);
    let call = Boxed::new(alloc, DictCall::Get(site.key.clone()?))?;
    turn.does.push_back(RunAct::Act(Act::Dict(0, call)))?;
    Ok(turn)
}

/// The text that was found, or the other one.
fn text_of(site: &StoredSite, answer: Answer) -> Result<Bytes, AllocError>
    ensures { IfOk result (λ text. text ≡ given_text site.now.otherwise answer) }
{
    match answer {
        Answer::Dict(DictAnswer::Found(DictValue::Text(text), _)) => Ok(text),
        _ => site.otherwise.clone(),
    }
}

/// A turn that sends this as the whole reply.
fn replying(alloc: Global, text: Bytes) -> Result<RunTurn<NoJob>, AllocError>
    ensures does { IfOk result (λ turn. turn.does.items ≡ made.Say (said.Send text) ∷ made.Say (said.Ended true) ∷ made.Say said.Over ∷ []) }
    ensures asks { IfOk result (λ turn. turn.asks ≡ None) }
{
    let mut turn = silent(alloc);
    turn.does.push_back(RunAct::Say(Said::Send(text)))?;
    turn.does.push_back(RunAct::Say(Said::Ended(true)))?;
    turn.does.push_back(RunAct::Say(Said::Over))?;
    Ok(turn)
}

impl RunContract for StoredReply {
    ghost use Rattle.std.specs.Prelude.{◌+◌, if◌then◌else◌};
    ghost use Rattle.run_contract.specs.Stored.{Stored, stored_plan, StoredHolds, left_at};
    ghost use Rattle.run_contract.specs.StoredLaws.{stored-is-run};

    type Site = StoredSite;

    type Job = NoJob;

    ghost Inner = { Stored };

    ghost meaning = { λ site. record {
      plan = stored_plan site.dictionary site.key site.otherwise;
      holds = λ b r. StoredHolds site.key b r;
      stands = λ run b r. (run.progress ≡ r.progress) × (run.has_client ≡ r.client);
    } };

    ghost left = { λ run. left_at run.progress + (if run.has_client then 1 else 0) };

    ghost most = { λ site. 8 };

    ghost meets = { λ site. stored-is-run site.dictionary site.key site.otherwise };

    ghost apart = { λ site run b c r same stands. stands };

    fn zones(_site: &StoredSite) -> u32 {
        1
    }

    fn zone_name(site: &StoredSite, zone: u32) -> Option<&Bytes> {
        if zone == 0 {
            Some(&site.dictionary)
        } else {
            None
        }
    }

    fn zone_size(_site: &StoredSite, _zone: u32) -> u64 {
        12_288
    }

    fn begin(
        alloc: Global,
        _site: &StoredSite,
        _now: Ms,
        _sockets: u32,
        head: Head,
        target: Target,
    ) -> Result<(Self, RunTurn<NoJob>), AllocError> {
        drop(head);
        drop(target);
        let run = StoredReply {
            progress: Progress::Queued,
            has_client: true,
        };
        Ok((run, queueing(alloc)?))
    }

    fn begin_job(
        alloc: Global,
        _site: &StoredSite,
        _now: Ms,
        _premature: bool,
        _job: NoJob,
    ) -> Result<(Self, RunTurn<NoJob>), AllocError> {
        let run = StoredReply {
            progress: Progress::Queued,
            has_client: false,
        };
        Ok((run, queueing(alloc)?))
    }

    fn given(
        &mut self,
        alloc: Global,
        site: &StoredSite,
        _now: Ms,
        seen: RunSeen,
    ) -> Result<RunTurn<NoJob>, AllocError> {
        match seen {
            RunSeen::Run(_) => {
                self.progress = Progress::Asked;
                asking(alloc, site)
            }
            RunSeen::ClientGone => {
                self.has_client = false;
                Ok(silent(alloc))
            }
            RunSeen::Due(_)
            | RunSeen::Body(_, _)
            | RunSeen::BodyRefused(_)
            | RunSeen::AllTaken
            | RunSeen::NotYet
            | RunSeen::ClientEnded
            | RunSeen::Sock(_, _) => Ok(silent(alloc)),
        }
    }

    fn answer(
        &mut self,
        alloc: Global,
        site: &StoredSite,
        _now: Ms,
        answer: Answer,
    ) -> Result<RunTurn<NoJob>, AllocError> {
        self.progress = Progress::Replied;
        let text = text_of(site, answer)?;
        replying(alloc, text)
    }

    fn queued(&self, _site: &StoredSite, _socket: u32) -> &[u8] {
        &[]
    }

    fn wants(&self, _socket: u32) -> bool {
        false
    }
}
