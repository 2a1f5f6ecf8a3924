//! Each law is the contract of a function that does nothing.

ghost use Rattle.std.specs.Prelude.{◌≡◌, ℕ, nat_eq, Bool, pos, codes, List, [], ◌∷◌, Some, None, true, false};
ghost use Rattle.strand_contract.specs.Behaviors.{Behavior};
ghost use Rattle.executions.specs.Executions.{GlobalAction};
ghost use Rattle.executions.specs.Histories.{external};
ghost use Rattle.executions.specs.Lawful.{IsLawful, IsKept};
ghost use Rattle.executions.specs.Plain.{IsPlain};
ghost use Rattle.executions.specs.Ordered.{IsOrdered};
ghost use Rattle.executions.specs.Beginnings.{IsBeginning};
ghost use Rattle.engine_examples.specs.Checks.{breaks, Alone, Begins, Rest, Kept, Plain, Ordered};
ghost use Rattle.resty_base.specs.declared.dictionary.DictAnswer.{DictAnswer};
ghost use Rattle.resty_base.specs.declared.dictionary.DictValue.{DictValue};
ghost use Rattle.engine_examples.specs.Exchanges.{one_request, held_back, numbered, two_replies, read_as, two_idle};
ghost use Rattle.engine_examples.specs.Exchanges.{all_at_stop, socket_then_job, job_then_socket};
ghost use Rattle.engine_examples.specs.Exchanges.{b, narrow, sleepers, sleepers_exchanged, runs_early, sleeps_zero, ends_at_once};
ghost use Rattle.engine_examples.specs.Exchanges.{counted, counted_history, reused};
ghost use Rattle.engine_examples.specs.Exchanges.{reused_history, idle_at_stop, idle_stays, took_none, started, started_history, started_early, premature};
ghost use Rattle.engine_examples.specs.Exchanges.{wound_up, lives_on, never_started, dropped_by};
ghost use Rattle.engine_examples.specs.Exchanges.{line_then_socket, socket_then_line, others_between, none_between};
ghost use Rattle.engine_examples.specs.Exchanges.{turned, not_turned, all_at_50, in_order, job_first, crowded, fails, put_off, offered_again, forgets};
ghost use Rattle.engine_examples.specs.Exchanges.{jobs_at_stop, dropped_at_stop, dropped_by_others};

/// An execution that breaks nothing is lawful, kept, plain and ordered.
pub fn whole<J>()
    ensures { (same : J → J → Bool) (b : Behavior J) (ms : List (GlobalAction J)) → ((i j : J) → same i j ≡ true → i ≡ j)
        → breaks same b ms ≡ [] → IsLawful b ms × IsKept b ms × IsPlain b ms × IsOrdered b ms }
{}

/// A request gets its reply at once.
pub fn one_request_and_its_reply()
    ensures allowed { breaks nat_eq b one_request ≡ [] }
    ensures held_back { breaks nat_eq b held_back ≡ Alone 3 ∷ Rest 3 ∷ Kept 3 ∷ [] }
{}

/// Connections are numbered as they arrive.
pub fn numbers()
    ensures allowed { breaks nat_eq b (numbered 1) ≡ [] }
    ensures left_out { breaks nat_eq b (numbered 2) ≡ Plain 0 ∷ [] }
{}

/// Each client gets its own reply.
pub fn own_replies()
    ensures allowed { breaks nat_eq b (two_replies (codes "a")) ≡ [] }
    ensures of_another { breaks nat_eq b (two_replies (codes "b")) ≡ Alone 5 ∷ [] }
{}

/// Two sleepers that are due at one moment wake in the order in which they fell asleep, and before either runs.
pub fn sleepers_wake()
    ensures allowed { breaks nat_eq b sleepers ≡ [] }
    ensures exchanged { breaks nat_eq b sleepers_exchanged ≡ Ordered 7 ∷ [] }
    ensures early { breaks nat_eq b runs_early ≡ Ordered 8 ∷ Ordered 9 ∷ [] }
{}

/// A sleep of 0 ends at the next moment.
pub fn sleep_of_zero()
    ensures allowed { breaks nat_eq b sleeps_zero ≡ [] }
    ensures at_once { breaks nat_eq b ends_at_once ≡ Alone 3 ∷ Ordered 3 ∷ [] }
{}

/// Two count in one dictionary.
pub fn one_dictionary()
    ensures allowed { breaks nat_eq b (counted 2) ≡ [] }
    ensures history { external b (counted 2) ≡ counted_history }
    ensures counts_again { breaks nat_eq b (counted 1) ≡ Plain 12 ∷ [] }
{}

/// A key that is there is found.
pub fn a_key_that_is_there()
    ensures allowed { breaks nat_eq b (read_as (DictAnswer.Found (DictValue.Number (pos 1)) 0)) ≡ [] }
    ensures nothing { breaks nat_eq b (read_as DictAnswer.Nothing) ≡ Plain 4 ∷ [] }
{}

/// Of two idle sockets of a key the most recent is taken.
pub fn the_most_recent()
    ensures allowed { breaks nat_eq b (two_idle 2) ≡ [] }
    ensures another { breaks nat_eq b (two_idle 1) ≡ Plain 31 ∷ [] }
{}

/// At Stop strands are ended, then idle sockets are closed, then jobs start.
pub fn order_at_stop()
    ensures allowed { breaks nat_eq b (all_at_stop socket_then_job) ≡ [] }
    ensures job_first { breaks nat_eq b (all_at_stop job_then_socket) ≡ Ordered 20 ∷ [] }
{}

/// A socket is kept and taken again; idle, it gives a byte and is closed; Stop closes what is idle.
pub fn idle_sockets()
    ensures allowed { breaks nat_eq b reused ≡ [] }
    ensures history { external b reused ≡ reused_history }
    ensures at_stop { breaks nat_eq b idle_at_stop ≡ [] }
    ensures stays { breaks nat_eq b idle_stays ≡ Rest 15 ∷ [] }
    ensures took_none { breaks nat_eq b took_none ≡ Plain 3 ∷ [] }
{}

/// A job starts at a moment, or premature after Stop, when one that doesn't come to its end is ended.
pub fn jobs_start()
    ensures allowed { breaks nat_eq b started ≡ [] }
    ensures history { external b started ≡ started_history }
    ensures early { breaks nat_eq b started_early ≡ Ordered 8 ∷ [] }
    ensures premature { breaks nat_eq b (premature true) ≡ [] }
    ensures not_premature { breaks nat_eq b (premature false) ≡ Begins 9 ∷ [] }
    ensures wound_up { breaks nat_eq b wound_up ≡ [] }
    ensures lives_on { breaks nat_eq b lives_on ≡ Rest 10 ∷ [] }
    ensures never_started { breaks nat_eq b never_started ≡ [] }
{}

/// What is open of a dropped strand is closed at once, its line first.
pub fn dropped_strands()
    ensures allowed { breaks nat_eq b (dropped_by line_then_socket) ≡ [] }
    ensures exchanged { breaks nat_eq b (dropped_by socket_then_line) ≡ Alone 12 ∷ [] }
    ensures none_between { breaks nat_eq b none_between ≡ [] }
    ensures others_between { breaks nat_eq b others_between ≡ Ordered 9 ∷ [] }
{}

/// A connection is turned away where as many are open as may be.
pub fn turned_away()
    ensures allowed { breaks nat_eq narrow turned ≡ [] }
    ensures not_turned { breaks nat_eq narrow not_turned ≡ Plain 1 ∷ [] }
{}

/// An idle socket, a job and a sleeper that are due at one moment come in the order in which they were armed.
pub fn due_at_once()
    ensures allowed { breaks nat_eq b (all_at_50 in_order) ≡ [] }
    ensures job_first { breaks nat_eq b (all_at_50 job_first) ≡ Ordered 24 ∷ [] }
{}

/// Where one socket may be idle, the first is closed for the second; an idle one that is ready stays.
pub fn crowded_out()
    ensures allowed { breaks nat_eq b (crowded (Some 1)) ≡ [] }
    ensures stays { breaks nat_eq b (crowded None) ≡ Plain 25 ∷ [] }
{}

/// A dial is told as failed exactly where it failed.
pub fn dials()
    ensures failed { breaks nat_eq b (fails false) ≡ [] }
    ensures began { breaks nat_eq b (fails true) ≡ Plain 4 ∷ [] }
{}

/// A place that was put off is offered again once it is ready.
pub fn put_off_places()
    ensures allowed { breaks nat_eq b (put_off offered_again) ≡ [] }
    ensures forgotten { breaks nat_eq forgets (put_off []) ≡ Kept 8 ∷ [] }
{}

/// At Stop jobs start by the moment at which they are due.
pub fn jobs_at_the_end()
    ensures by_due { breaks nat_eq b (jobs_at_stop 2 1) ≡ [] }
    ensures by_number { breaks nat_eq b (jobs_at_stop 1 2) ≡ Ordered 8 ∷ [] }
{}

/// A strand may be dropped as Stop ends it, and never for what another does.
pub fn drops()
    ensures at_stop { breaks nat_eq b dropped_at_stop ≡ [] }
    ensures by_others { breaks nat_eq b dropped_by_others ≡ Ordered 5 ∷ Rest 6 ∷ Kept 6 ∷ [] }
{}

/// The spoiled exchanges are no beginnings of executions.
pub fn refused()
    ensures exchanged { IsBeginning b sleepers_exchanged → ⊥ }
    ensures at_once { IsBeginning b ends_at_once → ⊥ }
    ensures counts_again { IsBeginning b (counted 1) → ⊥ }
    ensures took_none { IsBeginning b took_none → ⊥ }
    ensures early { IsBeginning b started_early → ⊥ }
    ensures others_between { IsBeginning b others_between → ⊥ }
    ensures socket_first { IsBeginning b (dropped_by socket_then_line) → ⊥ }
    ensures job_first { IsBeginning b (all_at_50 job_first) → ⊥ }
    ensures by_number { IsBeginning b (jobs_at_stop 1 2) → ⊥ }
    ensures early_run { IsBeginning b runs_early → ⊥ }
    ensures held_back { IsBeginning b held_back → ⊥ }
    ensures nothing { IsBeginning b (read_as DictAnswer.Nothing) → ⊥ }
    ensures another_socket { IsBeginning b (two_idle 1) → ⊥ }
    ensures dialled { IsBeginning b (fails true) → ⊥ }
    ensures not_premature { IsBeginning b (premature false) → ⊥ }
    ensures before_sockets { IsBeginning b (all_at_stop job_then_socket) → ⊥ }
    ensures left_out { IsBeginning b (numbered 2) → ⊥ }
    ensures of_another { IsBeginning b (two_replies (codes "b")) → ⊥ }
    ensures by_others { IsBeginning b dropped_by_others → ⊥ }
{}
