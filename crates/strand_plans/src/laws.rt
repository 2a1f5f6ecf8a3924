//! The laws of a strand, of each plan that meets the conditions.

ghost use Rattle.std.specs.Prelude.{◌≡◌, ℕ, List, [], ◌∷◌, true, false};
ghost use Rattle.strand_contract.specs.declared.turns.Place.{Place};
ghost use Rattle.strand_contract.specs.Actions.{LocalAction};
ghost use Rattle.strand_contract.specs.Alone.{lives, was_dropped, moment, is_open, taken, was_put_off, begun_offer, socket_count};
ghost use Rattle.strand_contract.specs.Alone.{todo, waiting, armed, to_offer, IsExecution};
ghost use Rattle.strand_contract.specs.Laws.{IsQuiet, IsSilent, Grows, AsksLast, AsksFit, HangsUpOpen, LeavesNothingOpen, Keeps, WakesQuietly, EndsAtStop};
ghost use Rattle.strand_plans.specs.Questions.{Question, asking};
ghost use Rattle.strand_plans.specs.Ledgers.{has, numbers};
ghost use Rattle.strand_plans.specs.Moves.{State};
ghost use Rattle.strand_plans.specs.Plans.{Plan, state_of, behavior_of};
ghost use Rattle.strand_plans.specs.Turns.{Comes};
ghost use Rattle.strand_plans.specs.Conditions.{IsPlan};
ghost use Rattle.strand_plans.specs.Tidiness.{NumbersOnce, IsTidy};
ghost use Rattle.strand_plans.specs.Sleeper.{sleeper, sleeper_asks, SleeperHolds, idler};

/// A plan that meets the conditions.
pub trait Planned {
    /// How a timer job starts.
    type Job;

    /// What it keeps beside its ledger.
    type Inner;

    ghost plan: { Plan Self.Job Self.Inner };

    /// What it knows of its states.
    ghost holds: { State Self.Job Self.Inner → Type 0 };

    ghost may_ask: { Question Self.Job → Type 0 };

    ghost meets: { IsPlan plan holds may_ask };
}

/// The ledger agrees with the contract's definitions, whatever the plan.
pub fn ledgers_agree<J, S>()
    ensures threads { (p : Plan J S) (es : List (LocalAction J)) → waiting (behavior_of p) es ≡ (state_of p es).ledger.threads }
    ensures places { (p : Plan J S) (es : List (LocalAction J)) → to_offer (behavior_of p) es ≡ (state_of p es).ledger.places }
    ensures deadlines { (p : Plan J S) (es : List (LocalAction J)) → armed (behavior_of p) es ≡ (state_of p es).ledger.armed }
    ensures begun { (p : Plan J S) (es : List (LocalAction J)) → begun_offer es ≡ (state_of p es).ledger.begun }
    ensures put_off { (p : Plan J S) (q : Place) (es : List (LocalAction J)) → was_put_off q es ≡ (state_of p es).ledger.put_off q }
    ensures taken { (p : Plan J S) (q : Place) (es : List (LocalAction J)) → taken q es ≡ (state_of p es).ledger.taken q }
    ensures count { (p : Plan J S) (es : List (LocalAction J)) → socket_count es ≡ (state_of p es).ledger.count }
{}

/// Laws that each plan keeps: those of the contract that need no condition, and that no thread is queued twice and no deadline armed twice.
pub fn any_plan<J, S>()
    ensures quiet { (p : Plan J S) → IsQuiet (behavior_of p) }
    ensures silent { (p : Plan J S) → IsSilent (behavior_of p) }
    ensures grows { (p : Plan J S) → Grows (behavior_of p) }
    ensures asks_last { (p : Plan J S) → AsksLast (behavior_of p) }
    ensures threads { (p : Plan J S) (es : List (LocalAction J)) → NumbersOnce (waiting (behavior_of p) es) }
    ensures deadlines { (p : Plan J S) (es : List (LocalAction J)) → NumbersOnce (numbers (armed (behavior_of p) es)) }
{}

/// The other laws of the contract.
pub fn met<P: Planned>()
    ensures asks_fit { AsksFit (behavior_of P.plan) }
    ensures hangs_up_open { HangsUpOpen (behavior_of P.plan) }
    ensures leaves_nothing_open { LeavesNothingOpen (behavior_of P.plan) }
    ensures keeps { Keeps (behavior_of P.plan) }
    ensures wakes_quietly { WakesQuietly (behavior_of P.plan) }
    ensures ends_at_stop { EndsAtStop (behavior_of P.plan) }
{}

/// What is known where an action comes to a strand that wasn't dropped, and of its ledger then.
pub fn known<P: Planned>()
    ensures comes { (a : LocalAction P.Job) (es : List (LocalAction P.Job)) → IsExecution (behavior_of P.plan) (a ∷ es) → was_dropped es ≡ false
        → Comes P.plan (moment (a ∷ es)) a (state_of P.plan es) }
    ensures holds { (es : List (LocalAction P.Job)) → IsExecution (behavior_of P.plan) es → was_dropped es ≡ false → P.holds (state_of P.plan es) }
    ensures tidy { (es : List (LocalAction P.Job)) → IsExecution (behavior_of P.plan) es → was_dropped es ≡ false → IsTidy (state_of P.plan es).ledger }
    ensures opened { (es : List (LocalAction P.Job)) (q : Place) → IsExecution (behavior_of P.plan) es → lives es ≡ true → todo (behavior_of P.plan) es ≡ []
        → is_open q es ≡ has q (state_of P.plan es).ledger.opened }
    ensures asked { (es : List (LocalAction P.Job)) (x : Question P.Job) → IsExecution (behavior_of P.plan) es
        → todo (behavior_of P.plan) es ≡ asking x ∷ [] → P.may_ask x }
{}

/// The conditions can be met: by a small plan with a deadline and a question.
pub fn sleeper_meets<J>()
    ensures { IsPlan {J = J} sleeper SleeperHolds sleeper_asks }
{}

/// What could be said of a plan that keeps a number: what it knows of its states, and what it may ask.
pub trait Claim {
    type Job;

    ghost holds: { State Self.Job ℕ → Type 0 };

    ghost may_ask: { Question Self.Job → Type 0 };
}

/// Not every plan meets them: one that does nothing doesn't end at Stop, whatever is said of it.
pub fn idler_does_not_meet<C: Claim>()
    ensures { ¬ (IsPlan idler C.holds C.may_ask) }
{}
