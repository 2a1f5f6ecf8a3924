//! The steps of a script, as a run's turn has them.

ghost use Rattle.std.specs.Prelude.{◌≡◌, ◌++◌, ◌∷◌, [], None, IfOk};
ghost use Rattle.strand_contract.specs.declared.turns.Act.TheVariants as act;
ghost use Rattle.run_contract.specs.declared.turns.RunAct.TheVariants as made;
ghost use Rattle.run_scripts.specs.Turns.{moved, logged, sent, step_made, end_made, sleep_made, count_made};

use crate::script::Step;
use resty_base::{Boxed, Bytes, DictCall, Ms};
use run_contract::{LocationTimes, NoJob, RunAct, RunTurn, Said};
use std::alloc::{AllocError, Global};
use std::collections::VecDeque;
use strand_contract::Act;

/// The thread of a run that wakes it.
const THREAD: u32 = 0;

/// The deadline of its sleep.
const SLEEP: u32 = 2;

/// The dictionary that counts.
const COUNTS: u32 = 0;

/// What a turn does, in order.
type Does = VecDeque<RunAct<NoJob>>;

/// A turn that asks nothing.
pub(crate) fn turn_of(does: Does) -> RunTurn<NoJob>
    ensures does { result.does.items ≡ does.items }
    ensures asks { result.asks ≡ None }
{
    RunTurn { does, asks: None }
}

/// Another location's times hold, where there are some.
fn move_on(does: &mut Does, times: Option<LocationTimes>) -> Result<(), AllocError>
    ensures { IfOk result (λ done. does.new.items ≡ does.old.items ++ moved times) }
{
    if let Some(times) = times {
        does.push_back(RunAct::Say(Said::Times(times)))?;
    }
    Ok(())
}

/// A line is logged, where there is one.
fn log(does: &mut Does, line: &Option<Bytes>) -> Result<(), AllocError>
    ensures { IfOk result (λ done. does.new.items ≡ does.old.items ++ logged line.now) }
{
    if let Some(line) = line {
        does.push_back(RunAct::Act(Act::Log(line.clone()?)))?;
    }
    Ok(())
}

/// A text is sent, where there is one.
fn say(does: &mut Does, text: &Option<Bytes>) -> Result<(), AllocError>
    ensures { IfOk result (λ done. does.new.items ≡ does.old.items ++ sent text.now) }
{
    if let Some(text) = text {
        does.push_back(RunAct::Say(Said::Send(text.clone()?)))?;
    }
    Ok(())
}

/// A step is done.
fn put_step(does: &mut Does, step: &Step) -> Result<(), AllocError>
    ensures { IfOk result (λ done. does.new.items ≡ does.old.items ++ step_made step.now) }
{
    move_on(does, step.moves_on)?;
    log(does, &step.logs)?;
    say(does, &step.says)
}

/// Nothing waits any more, the reply is whole, and the run is over.
fn put_end(does: &mut Does, closes: bool) -> Result<(), AllocError>
    ensures { IfOk result (λ done. does.new.items ≡ does.old.items ++ end_made closes) }
{
    does.push_back(RunAct::Act(Act::Unready(THREAD)))?;
    does.push_back(RunAct::Act(Act::Cancel(SLEEP)))?;
    does.push_back(RunAct::Say(Said::Ended(closes)))?;
    does.push_back(RunAct::Say(Said::Over))?;
    Ok(())
}

/// The turn that has one more counted under the key.
pub(crate) fn counting(alloc: Global, key: &Bytes) -> Result<RunTurn<NoJob>, AllocError>
    ensures does { IfOk result (λ turn. turn.does.items ≡ count_made key.now) }
    ensures asks { IfOk result (λ turn. turn.asks ≡ None) }
{
    let call = DictCall::Incr {
        key: key.clone()?,
        by: 1,
        init: Some(0),
        ttl: 0,
    };
    let call = Boxed::new(alloc, call)?;
    let mut turn = turn_of(VecDeque::new(alloc));
    turn.does.push_back(RunAct::Act(Act::Dict(COUNTS, call)))?;
    Ok(turn)
}

/// The turn of a step.
pub(crate) fn stepping(alloc: Global, step: &Step) -> Result<RunTurn<NoJob>, AllocError>
    ensures does { IfOk result (λ turn. turn.does.items ≡ step_made step.now) }
    ensures asks { IfOk result (λ turn. turn.asks ≡ None) }
{
    let mut turn = turn_of(VecDeque::new(alloc));
    put_step(&mut turn.does, step)?;
    Ok(turn)
}

/// The turn of a step with which a run is over.
pub(crate) fn ending(alloc: Global, step: &Step, closes: bool) -> Result<RunTurn<NoJob>, AllocError>
    ensures does { IfOk result (λ turn. turn.does.items ≡ step_made step.now ++ end_made closes) }
    ensures asks { IfOk result (λ turn. turn.asks ≡ None) }
{
    let mut turn = stepping(alloc, step)?;
    put_end(&mut turn.does, closes)?;
    Ok(turn)
}

/// The turn with which a run is over, whose client is gone.
pub(crate) fn giving_up(alloc: Global, closes: bool) -> Result<RunTurn<NoJob>, AllocError>
    ensures does { IfOk result (λ turn. turn.does.items ≡ end_made closes) }
    ensures asks { IfOk result (λ turn. turn.asks ≡ None) }
{
    let mut turn = turn_of(VecDeque::new(alloc));
    put_end(&mut turn.does, closes)?;
    Ok(turn)
}

/// The turn of a step after which the thread sleeps until then.
pub(crate) fn sleeping(alloc: Global, step: &Step, until: Ms) -> Result<RunTurn<NoJob>, AllocError>
    ensures does { IfOk result (λ turn. turn.does.items ≡ step_made step.now ++ sleep_made until) }
    ensures asks { IfOk result (λ turn. turn.asks ≡ None) }
{
    let mut turn = stepping(alloc, step)?;
    turn.does.push_back(RunAct::Act(Act::Arm(SLEEP, until)))?;
    Ok(turn)
}

/// The turn that wakes the thread.
pub(crate) fn waking(alloc: Global) -> Result<RunTurn<NoJob>, AllocError>
    ensures does { IfOk result (λ turn. turn.does.items ≡ made.Act (act.Ready 0) ∷ []) }
    ensures asks { IfOk result (λ turn. turn.asks ≡ None) }
{
    let mut turn = turn_of(VecDeque::new(alloc));
    turn.does.push_back(RunAct::Act(Act::Ready(THREAD)))?;
    Ok(turn)
}

/// The turn that wakes the thread from its sleep.
pub(crate) fn rousing(alloc: Global) -> Result<RunTurn<NoJob>, AllocError>
    ensures does { IfOk result (λ turn. turn.does.items ≡ made.Act (act.Cancel 2) ∷ made.Act (act.Ready 0) ∷ []) }
    ensures asks { IfOk result (λ turn. turn.asks ≡ None) }
{
    let mut turn = turn_of(VecDeque::new(alloc));
    turn.does.push_back(RunAct::Act(Act::Cancel(SLEEP)))?;
    turn.does.push_back(RunAct::Act(Act::Ready(THREAD)))?;
    Ok(turn)
}
