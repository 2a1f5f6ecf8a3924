//! Laws: what came to a strand from outside decides what it does, whatever all others do.

ghost use Rattle.std.specs.Prelude.{◌≡◌, ℕ, List, ◌∷◌, ◌++◌, Option, true, false};
ghost use Rattle.resty_base.specs.declared.names.StrandId.{StrandId};
ghost use Rattle.resty_world.specs.Ids.{same_strand};
ghost use Rattle.strand_contract.specs.declared.turns.Place.{Place};
ghost use Rattle.strand_contract.specs.Actions.{Action, LocalAction};
ghost use Rattle.executions.specs.Executions.{GlobalAction, Of};
ghost use Rattle.strand_contract.specs.Alone.{lives, is_open, was_dropped, was_put_off, IsExecution, IsQuiescent, IsPrefixOf};
ghost use Rattle.strand_contract.specs.Behaviors.{Behavior};
ghost use Rattle.strand_contract.specs.Laws.{IsQuiet, Grows, Keeps};
ghost use Rattle.executions.specs.Executions.{projection};
ghost use Rattle.executions.specs.Histories.{part};
ghost use Rattle.executions.specs.Lawful.{IsLawful};
ghost use Rattle.execution_laws.specs.StrandInputs.{Input, gave};
ghost use Rattle.execution_laws.specs.StrandDrops.{EndsByClosings, before_drop};
ghost use Rattle.execution_laws.specs.Taken.{took};

use strand_contract::StrandContract;

/// An execution that is at rest and wasn't dropped is determined by what came from outside: its start and moment, what it
/// was told and shown, and the answers that it got.
pub fn one_execution<J>()
    ensures { (b : Behavior J) (es fs : List (LocalAction J)) → IsQuiet b → IsExecution b es → IsExecution b fs
        → was_dropped es ≡ false → was_dropped fs ≡ false → IsQuiescent b es → IsQuiescent b fs
        → gave es ≡ gave fs → es ≡ fs }
{}

/// What a strand did with the first of the inputs is the beginning of what it does with all of them.
pub fn a_beginning<J>()
    ensures { (b : Behavior J) (es fs : List (LocalAction J)) (more : List (Input J)) → IsQuiet b → IsExecution b es → IsExecution b fs
        → was_dropped es ≡ false → was_dropped fs ≡ false → IsQuiescent b fs
        → gave fs ≡ more ++ gave es → (later : List (LocalAction J)) × (fs ≡ later ++ es) }
{}

/// Two strands of one site, of two lawful executions, that weren't dropped and to which the same came from outside have
/// the same part, whatever all others do.
pub fn two_worlds<S: StrandContract>()
    ensures { (site : S.Site) (ms ns : List (GlobalAction S.Job)) (s t : StrandId)
        → IsLawful (S.meaning site).behavior ms → IsLawful (S.meaning site).behavior ns
        → was_dropped (part s ms) ≡ false → was_dropped (part t ns) ≡ false → gave (part s ms) ≡ gave (part t ns) → part s ms ≡ part t ns }
{}

/// A strand that is dropped leaves all others as they were. Before, it did what it does where it isn't dropped; then only
/// its places are closed, and all are in the end.
pub fn a_dropped_strand<J>()
    ensures others { (s t : StrandId) (x : Action J) (n : Option ℕ) (ms : List (GlobalAction J)) → same_strand t s ≡ false
        → projection t (Of s x n ∷ ms) ≡ projection t ms }
    ensures before { (b : Behavior J) (es fs : List (LocalAction J)) (more : List (Input J)) → IsQuiet b → IsExecution b es → IsExecution b fs
        → was_dropped es ≡ true → was_dropped fs ≡ false → IsQuiescent b fs
        → gave fs ≡ more ++ gave es → (later : List (LocalAction J)) × (fs ≡ later ++ before_drop es) }
    ensures closings { (b : Behavior J) (es : List (LocalAction J)) → IsQuiet b → IsExecution b es → was_dropped es ≡ true → EndsByClosings es }
    ensures closed { (b : Behavior J) (s : StrandId) (q : Place) (ms : List (GlobalAction J)) → IsLawful b ms → was_dropped (projection s ms) ≡ true
        → is_open q (projection s ms) ≡ false }
{}

/// What a place took, joined, is the first part of what was sent to it; and all of it where the place is open, the strand at
/// rest, and the place's last write wasn't put off.
pub fn what_was_taken<J>()
    ensures first { (b : Behavior J) (q : Place) (es : List (LocalAction J)) → Grows b → IsExecution b es → IsPrefixOf (took q es) (b.sent q es) }
    ensures all { (b : Behavior J) (q : Place) (es : List (LocalAction J)) → Grows b → Keeps b → IsExecution b es → lives es ≡ true → IsQuiescent b es
        → is_open q es ≡ true → was_put_off q es ≡ false → took q es ≡ b.sent q es }
{}
