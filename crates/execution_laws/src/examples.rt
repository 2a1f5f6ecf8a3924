//! Laws of small executions: of deadlines, of jobs that begin after Stop, of readiness and of drops; and two behaviors that no
//! strand may have.

ghost use Rattle.std.specs.Prelude.{◌≡◌, ◌⊎◌, ℕ, List, [], ◌∷◌, Option, true, false};
ghost use Rattle.resty_base.specs.declared.names.StrandId.{StrandId};
ghost use Rattle.strand_contract.specs.declared.turns.Place.{Place};
ghost use Rattle.strand_contract.specs.Actions.{Moment, Action, Ready, Due, Dropped, LocalAction, Told, Did, is_given};
ghost use Rattle.executions.specs.Executions.{GlobalAction, Of};
ghost use Rattle.strand_contract.specs.Alone.{lives, is_open, open_places, was_put_off, queued, Enabled, IsExecution, IsQuiescent, KeepsNothingBack};
ghost use Rattle.strand_contract.specs.Behaviors.{Behavior};
ghost use Rattle.executions.specs.Executions.{projection};
ghost use Rattle.executions.specs.Lawful.{IsLawful};
ghost use Rattle.strand_contract.specs.Laws.{Grows, WakesQuietly};
ghost use Rattle.strand_contract.specs.Mute.{was_halted};
ghost use Rattle.executions.specs.Ordered.{IsOrdered};
ghost use Rattle.execution_laws.specs.Examples.{waker, begun, sends_anew, arms_at_a_moment, began_premature, begins_turn};

/// A strand that armed a deadline for the present moment is at rest. The deadline doesn't come due until a moment is told; then
/// it does.
pub fn a_deadline_waits_for_a_moment<J>()
    ensures rests { (now c : ℕ) → IsExecution {J = J} waker (begun now c) × IsQuiescent {J = J} waker (begun now c) }
    ensures waits { (now c n : ℕ) → Enabled {J = J} waker (begun now c) (Did (Due n)) → ⊥ }
    ensures due { (now c : ℕ) → Enabled {J = J} waker (Told (Moment now) ∷ begun now c) (Did (Due 0)) }
{}

/// A job that began after Stop is at rest only once it was ended.
pub fn a_premature_job_is_ended<J>()
    ensures { (b : Behavior J) (es : List (LocalAction J)) → began_premature es ≡ true → lives es ≡ true → IsQuiescent b es → was_halted es ≡ true }
{}

/// A place that takes bytes again isn't put off, so nothing that is queued for it may be held back.
pub fn a_ready_place_is_offered_again<J>()
    ensures ready { (q : Place) (es : List (LocalAction J)) → was_put_off q (Did (Ready q) ∷ es) ≡ false }
    ensures offered { (b : Behavior J) (q : Place) (es : List (LocalAction J)) → KeepsNothingBack b (Did (Ready q) ∷ es) → is_open q es ≡ true
        → queued b q (Did (Ready q) ∷ es) ≡ [] }
{}

/// A strand may be dropped in the place of its beginning, and then nothing is left of it.
pub fn a_drop_at_the_beginning<J>()
    ensures { (b : Behavior J) → IsExecution b (Did Dropped ∷ []) × IsQuiescent b (Did Dropped ∷ []) }
{}

/// While something of a dropped strand is open, no turn of another begins: no thread runs, no place is offered, no deadline is
/// taken, and nothing is given.
pub fn a_dropped_strand_is_closed_first<J>()
    ensures { (b : Behavior J) (s t : StrandId) (x : Action J) (n : Option ℕ) (q : Place) (rest : List Place) (ms : List (GlobalAction J))
        → lives (projection s ms) ≡ false → open_places (projection s ms) ≡ q ∷ rest
        → IsLawful b (Of t x n ∷ ms) → IsOrdered b (Of t x n ∷ ms) → (begins_turn x ≡ true) ⊎ (is_given x ≡ true) → ⊥ }
{}

/// No strand sends anew what it sent, and none arms a deadline when one is due.
pub fn spoiled_behaviors<J>()
    ensures anew { Grows {J = J} sends_anew → ⊥ }
    ensures arms { WakesQuietly {J = J} arms_at_a_moment → ⊥ }
{}
