//! Each law is the contract of a function that does nothing.

ghost use Rattle.std.specs.Prelude.{◌≡◌, List, [], ◌∷◌, ◌++◌, true};
ghost use Rattle.resty_world.specs.declared.event.Event.{Event};
ghost use Rattle.resty_world.specs.declared.entry.Entry.{Entry};
ghost use Rattle.strand_contract.specs.Behaviors.{Behavior};
ghost use Rattle.strand_contract.specs.Laws.{IsQuiet};
ghost use Rattle.executions.specs.Executions.{GlobalAction, has_given};
ghost use Rattle.executions.specs.Histories.{entries_of, external};
ghost use Rattle.executions.specs.Beginnings.{IsBeginning};
ghost use Rattle.executions.specs.Ordered.{MayTurn};
ghost use Rattle.execution_laws.specs.Allowed.{IsAllowed, IsHistoryOf};
ghost use Rattle.execution_laws.specs.Inputs.{Input, Gives, inputs, events, drops};
ghost use Rattle.execution_laws.specs.Drops.{dropped_by, DropAlike, DropAlikeSoFar, DropTheSame};
ghost use Rattle.execution_laws.specs.GoesWell.{GoesWell};
ghost use Rattle.execution_laws.specs.Givens.{given};
ghost use Rattle.execution_laws.specs.Spoiled.{RunsInAnyOrder, StartsInAnyOrder, DropsLater, HasTwoHistories};
ghost use Rattle.execution_laws.specs.Sleepers.{sleeper, asker};

/// An event is one action: the strand that holds its id is shown it, or an idle socket gives it.
pub fn one_event<J>()
    ensures { (b : Behavior J) (m : GlobalAction J) (ms : List (GlobalAction J)) (e : Event) → IsQuiet b → IsBeginning b (m ∷ ms) → has_given m ≡ true
        → inputs (entries_of b m ms) ≡ Gives e ∷ [] → m ≡ given b e ms }
{}

/// Two actions that may come at one point are the same, where both drop the same strand or none, and the world gives and answers the same.
pub fn one_action<J>()
    ensures { (b : Behavior J) (m k : GlobalAction J) (ms : List (GlobalAction J)) → IsQuiet b → IsBeginning b (m ∷ ms) → IsBeginning b (k ∷ ms)
        → dropped_by m ≡ dropped_by k → inputs (entries_of b m ms) ≡ inputs (entries_of b k ms) → m ≡ k }
{}

/// Two executions that are allowed are the same, and leave the same history, where the world gave and answered the same and strands
/// were dropped at the same points.
pub fn one_history<J>()
    ensures execution { (b : Behavior J) (ms ns : List (GlobalAction J)) → IsQuiet b → IsAllowed b ms → IsAllowed b ns
        → inputs (external b ms) ≡ inputs (external b ns) → DropAlike ms ns → ms ≡ ns }
    ensures history { (b : Behavior J) (ms ns : List (GlobalAction J)) → IsQuiet b → IsAllowed b ms → IsAllowed b ns
        → inputs (external b ms) ≡ inputs (external b ns) → DropAlike ms ns → external b ms ≡ external b ns }
    ensures never_two { (b : Behavior J) → HasTwoHistories b (MayTurn b) DropAlike → ⊥ }
{}

/// With fewer of these given and answered an execution, and its history, is what the other began with.
pub fn a_beginning<J>()
    ensures execution { (b : Behavior J) (ms ns : List (GlobalAction J)) (more : List Input) → IsQuiet b → IsBeginning b ms → IsAllowed b ns
        → more ++ inputs (external b ms) ≡ inputs (external b ns) → DropAlikeSoFar ms ns → (later : List (GlobalAction J)) × (later ++ ms ≡ ns) }
    ensures history { (b : Behavior J) (ms ns : List (GlobalAction J)) (more : List Input) → IsQuiet b → IsBeginning b ms → IsAllowed b ns
        → more ++ inputs (external b ms) ≡ inputs (external b ns) → DropAlikeSoFar ms ns → (later : List Entry) × (later ++ external b ms ≡ external b ns) }
{}

/// Two histories of a site in which no strand was dropped are the same where the world gave and answered the same.
pub fn one_undropped_history<J>()
    ensures { (b : Behavior J) (g h : List Entry) → IsQuiet b → IsHistoryOf b g → IsHistoryOf b h → drops g ≡ [] → drops h ≡ []
        → inputs g ≡ inputs h → g ≡ h }
{}

/// Where the world takes all and fails nothing, as at the replay of a recorded schedule, the given events alone decide the history;
/// with fewer of them it is what the other began with.
pub fn a_replay<J>()
    ensures same { (b : Behavior J) (ms ns : List (GlobalAction J)) → IsQuiet b → IsAllowed b ms → IsAllowed b ns → GoesWell b ms → GoesWell b ns
        → events (external b ms) ≡ events (external b ns) → external b ms ≡ external b ns }
    ensures beginning { (b : Behavior J) (ms ns : List (GlobalAction J)) (more : List Event) → IsQuiet b → IsBeginning b ms → IsAllowed b ns
        → GoesWell b ms → GoesWell b ns → more ++ events (external b ms) ≡ events (external b ns)
        → (later : List Entry) × (later ++ external b ms ≡ external b ns) }
{}

/// Were threads run in any order, or jobs started before or after what else is due at the moment, or strands dropped later than at
/// their own turns, the same events would leave two histories.
pub fn spoiled_orders<J>()
    ensures runs { HasTwoHistories {J = J} sleeper (RunsInAnyOrder sleeper) DropAlike }
    ensures starts { (job : J) → HasTwoHistories (asker job) (StartsInAnyOrder (asker job)) DropAlike }
    ensures drops { HasTwoHistories {J = J} sleeper (DropsLater sleeper) DropAlike }
{}

/// Memory decides where a strand is dropped: the same strands dropped in the same order, but elsewhere, leave another history.
pub fn the_point_of_a_drop<J>()
    ensures { HasTwoHistories {J = J} sleeper (MayTurn sleeper) (DropTheSame sleeper) }
{}
