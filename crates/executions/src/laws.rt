//! Each law is the contract of a function that does nothing.

ghost use Rattle.std.specs.Prelude.{◌≡◌, ℕ, List, ◌∷◌, ◌++◌, Some, None, true, false};
ghost use Rattle.resty_base.specs.declared.names.StrandId.{StrandId};
ghost use Rattle.resty_world.specs.Ids.{same_strand};
ghost use Rattle.strand_contract.specs.declared.turns.Place.{Place};
ghost use Rattle.strand_contract.specs.Behaviors.{Behavior};
ghost use Rattle.strand_contract.specs.Laws.{IsQuiet};
ghost use Rattle.executions.specs.Executions.{GlobalAction, projection};
ghost use Rattle.strand_contract.specs.Alone.{lives, is_open, waiting, to_offer, armed, IsExecution};
ghost use Rattle.executions.specs.Queues.{only, run_queue, offer_queue};
ghost use Rattle.executions.specs.Agenda.{agenda};
ghost use Rattle.executions.specs.OwnDeadlines.{deadlines};
ghost use Rattle.executions.specs.Sockets.{owner, socket_at, pool};
ghost use Rattle.shared_rules.specs.Pool.{is_idle};
ghost use Rattle.executions.specs.Strands.{is_under_way};
ghost use Rattle.executions.specs.NextActions.{next, is_drop, IsAnswer};
ghost use Rattle.executions.specs.Beginnings.{IsBeginning};
ghost use Rattle.executions.specs.Ordered.{IsOrdered};
ghost use Rattle.executions.specs.Subsequences.{IsSubsequence, all_run, all_readied, all_offered, all_placed};

/// One strand's turn is under way at a time.
pub fn one_turn<J>()
    ensures { (b : Behavior J) (ms : List (GlobalAction J)) (s t : StrandId) → IsQuiet b → IsBeginning b ms
        → is_under_way b (projection s ms) ≡ true → is_under_way b (projection t ms) ≡ true → same_strand s t ≡ true }
{}

/// In an execution each action is the one that was next, or answers what the world was asked, or drops a strand.
pub fn one_next<J>()
    ensures { (b : Behavior J) (m : GlobalAction J) (ms : List (GlobalAction J)) → IsQuiet b → IsBeginning b (m ∷ ms)
        → is_drop m ≡ false → IsAnswer m (next b ms) }
{}

/// A socket's number has one holder, and none where the socket is idle.
pub fn one_holder<J>()
    ensures held { (b : Behavior J) (ms : List (GlobalAction J)) (s : StrandId) (k : ℕ) → IsBeginning b ms → is_open (Place.Sock k) (projection s ms) ≡ true
        → owner (socket_at s k ms).sock ms ≡ Some (s, k) }
    ensures idle { (b : Behavior J) (ms : List (GlobalAction J)) (n : ℕ) → IsBeginning b ms → is_idle n (pool ms) ≡ true → owner n ms ≡ None }
{}

/// Of the queues and of the agenda of all, what is a living strand's is what it has alone.
pub fn own_lines<J>()
    ensures threads { (b : Behavior J) (s : StrandId) (ms : List (GlobalAction J)) → IsQuiet b → IsExecution b (projection s ms)
        → lives (projection s ms) ≡ true → only s (run_queue b ms) ≡ waiting b (projection s ms) }
    ensures places { (b : Behavior J) (s : StrandId) (ms : List (GlobalAction J)) → IsQuiet b → IsExecution b (projection s ms)
        → lives (projection s ms) ≡ true → only s (offer_queue b ms) ≡ to_offer b (projection s ms) }
    ensures deadlines { (b : Behavior J) (s : StrandId) (ms : List (GlobalAction J)) → IsQuiet b → IsExecution b (projection s ms)
        → lives (projection s ms) ≡ true → deadlines s (agenda b ms) ≡ armed b (projection s ms) }
{}

/// What had its turn is a subsequence of what was put in line: threads that ran, and places whose offer began.
pub fn in_turn<J>()
    ensures threads { (b : Behavior J) (ms : List (GlobalAction J)) → IsOrdered b ms → IsSubsequence (all_run ms) (all_readied b ms) }
    ensures places { (b : Behavior J) (ms : List (GlobalAction J)) → IsOrdered b ms → IsSubsequence (all_offered ms) (all_placed b ms) }
{}
