//! The laws.

ghost use Rattle.std.specs.Prelude.{◌≡◌, ℕ, Bool, true, false, List, [], ◌∷◌, ◌++◌};
ghost use Rattle.resty_base.specs.declared.names.StrandId.{StrandId};
ghost use Rattle.resty_base.specs.declared.dictionary.DictAnswer.{DictAnswer};
ghost use Rattle.resty_base.specs.declared.dictionary.DictCall.TheVariants as dict;
ghost use Rattle.uri_args.specs.declared.targets.Target.{Target};
ghost use Rattle.http_in.specs.declared.heads.Head.{Head};
ghost use Rattle.strand_contract.specs.declared.turns.Answer.TheVariants as answer;
ghost use Rattle.strand_contract.specs.Behaviors.{Behavior};
ghost use Rattle.strand_contract.specs.Alone.{was_dropped, todo, IsPrefixOf, IsExecution};
ghost use Rattle.strand_contract.specs.Laws.{IsQuiet};
ghost use Rattle.strand_contract.specs.declared.turns.Start.TheVariants as start;
ghost use Rattle.strand_contract.specs.Actions.{LocalAction, Did, Began, Dict};
ghost use Rattle.executions.specs.Executions.{GlobalAction};
ghost use Rattle.executions.specs.Histories.{part};
ghost use Rattle.executions.specs.Lawful.{IsLawful};
ghost use Rattle.execution_laws.specs.StrandInputs.{gave};
ghost use Rattle.strand_plans.specs.Ledgers.{Ledger, left_at};
ghost use Rattle.strand_contract.specs.declared.turns.Place.TheVariants as place;
ghost use Rattle.strand_plans.specs.Plans.{state_of};
ghost use Rattle.run_contract.specs.declared.turns.RunSeen.TheVariants as seen;
ghost use Rattle.run_contract.specs.Runs.{RunPlan};
ghost use Rattle.run_contract.specs.Conditions.{IsRun};
ghost use Rattle.run_contract.specs.Stored.{stored_plan, given_text};
ghost use Rattle.connection_plan.specs.Asked.{bytes_of, asked_so_far, asked_in};
ghost use Rattle.connection_plan.specs.Clients.{Exchange};
ghost use Rattle.connection_plan.specs.Clients as stage;
ghost use Rattle.connection_plan.specs.Services.{Service};
ghost use Rattle.connection_plan.specs.Connections.{connection_plan, connection_behavior};
ghost use Rattle.connection_plan.specs.Examples.{echo_plan, echo_site};
ghost use Rattle.connection_plan.specs.Recalls.{recalls_plan};
ghost use Rattle.connection_laws.specs.Own.{MindsItsOwn};
ghost use Rattle.connection_laws.specs.Alone.{Beginning, Seen, Given, let_first, reply_alone};
ghost use Rattle.connection_laws.specs.Examples.{NeverLooks, tells_in_a_line, tells_in_a_question};
ghost use Rattle.connection_laws.specs.Taken.{TookAllBefore};
ghost use Rattle.connection_laws.specs.Between.{IsBetweenRequests};
ghost use Rattle.connection_laws.specs.Numbers.{DoTheSame, renumbered};
ghost use Rattle.connection_laws.specs.Replies.{lines_by, lines_written, IsSaidAlone, HaveOwnReplies, HaveOwnLines, IsJobAlone, LearnTheSame};

/// A site whose runs are lawful and mind their own.
pub trait Minding {
    /// How a timer job starts.
    type Job;

    /// What a run keeps beside its ledger.
    type Inner;

    ghost service: { Service Self.Job Self.Inner };

    /// What a run knows of its ledger and of itself.
    ghost holds: { Ledger Self.Job → Self.Inner → Type 0 };

    ghost runs: { IsRun service.runs holds };

    ghost minds: { MindsItsOwn service.runs };
}

/// In each execution every request that was asked has the reply that its run gives alone, and every head that was refused its refusal.
pub fn replies_are_said_alone<S: Minding>()
    ensures { (es : List (LocalAction S.Job)) → IsExecution (connection_behavior S.service) es
        → HaveOwnReplies es S.service (state_of (connection_plan S.service) es).inner.client.exchanges }
{}

/// So it is of the small site that replies with paths or with bodies, whatever happens to a connection of it.
pub fn replies_of_the_rows_are_said_alone<J>()
    ensures { (reads : Bool) (es : List (LocalAction J)) → IsExecution (connection_behavior {J = J} (echo_site reads)) es
        → HaveOwnReplies es (echo_site reads) (state_of (connection_plan {J = J} (echo_site reads)) es).inner.client.exchanges }
{}

/// In each execution that begins with a client the lines that its turns had logged are those of its runs, in order, each run's as it logs them alone; and a
/// refused head logs none.
pub fn lines_are_logged_alone<S: Minding>()
    ensures { (es : List (LocalAction S.Job)) (now client : ℕ) → let all = es ++ Did (Began now (start.Client client)) ∷ [] in
        IsExecution (connection_behavior S.service) all
        → HaveOwnLines all S.service (state_of (connection_plan S.service) all).inner.client.exchanges (lines_by (connection_behavior S.service) all) }
{}

/// The log entries of a strand are the first of the lines that its turns had logged, in order, and all of them where nothing is left to be done and it wasn't
/// given up.
pub fn lines_that_are_written<J>()
    ensures first { (b : Behavior J) (es : List (LocalAction J)) → IsQuiet b → IsExecution b es → IsPrefixOf (lines_written es) (lines_by b es) }
    ensures all { (b : Behavior J) (es : List (LocalAction J)) → IsQuiet b → IsExecution b es → was_dropped es ≡ false → todo b es ≡ []
        → lines_written es ≡ lines_by b es }
{}

/// A timer job logs what it logs alone, and while it goes on its threads, deadlines and sockets are those of the job alone.
pub fn job_alone<S: Minding>()
    ensures { (es : List (LocalAction S.Job)) (now n : ℕ) (premature : Bool) (job : S.Job) → let all = es ++ Did (Began now (start.Job n premature job)) ∷ [] in
        let st = state_of (connection_plan S.service) all in IsExecution (connection_behavior S.service) all
        → IsJobAlone all S.service now premature job (st.inner.client.stage ≡ stage.Busy) st.ledger (lines_by (connection_behavior S.service) all) }
{}

/// A client is hung up only once it took all that was sent to it, unless a timer of its connection runs out, it breaks, a write to it breaks, or Stop comes.
/// So it is of every site.
pub fn who_is_hung_up_took_all<J, R>()
    ensures { (site : Service J R) (es : List (LocalAction J)) → IsExecution (connection_behavior site) es → TookAllBefore (connection_behavior site) es }
{}

/// Where a connection waits for its client's next bytes and no run goes on, all that the bytes ask was begun, and all that was sent was taken: no request
/// waits for more bytes than its own. So it is of every site.
pub fn all_that_was_asked_is_answered<J, R>()
    ensures begun { (site : Service J R) (es : List (LocalAction J)) → let st = state_of (connection_plan site) es in
        IsExecution (connection_behavior site) es → IsBetweenRequests st → asked_so_far st.inner.client.exchanges ≡ asked_in (bytes_of es) }
    ensures taken { (site : Service J R) (es : List (LocalAction J)) → let st = state_of (connection_plan site) es in
        IsExecution (connection_behavior site) es → IsBetweenRequests st → left_at place.Client st.ledger ≡ [] }
{}

/// A connection and a job don't know their numbers: two whose beginnings differ in the number alone, and to which the same happens, do and send the same. So it
/// is of every site.
pub fn its_number_changes_nothing<J, R>()
    ensures client { (site : Service J R) (es : List (LocalAction J)) (now c d : ℕ) → DoTheSame (connection_behavior site)
        (es ++ Did (Began now (start.Client c)) ∷ []) (es ++ Did (Began now (start.Client d)) ∷ []) }
    ensures job { (site : Service J R) (es : List (LocalAction J)) (now m n : ℕ) (premature : Bool) (job : J) → DoTheSame (connection_behavior site)
        (es ++ Did (Began now (start.Job m premature job)) ∷ []) (es ++ Did (Began now (start.Job n premature job)) ∷ []) }
{}

/// Two connections or jobs of one site, in two lawful executions, that weren't dropped and to which the same came from outside but for their numbers have the
/// same part but for their numbers, whatever all others do. Here n is the number of t. So it is of every site.
pub fn who_is_given_the_same_does_the_same<J, R>()
    ensures { (site : Service J R) (ms ns : List (GlobalAction J)) (s t : StrandId) (n : ℕ) → let b = connection_behavior site in
        IsLawful b ms → IsLawful b ns → was_dropped (part s ms) ≡ false → was_dropped (part t ns) ≡ false
        → gave (renumbered n (part s ms)) ≡ gave (part t ns) → renumbered n (part s ms) ≡ part t ns }
{}

/// Two requests that ask the same, and whose runs learn the same, get the same reply, on whatever connections and after whatever else.
pub fn who_asks_and_learns_the_same_gets_the_same<S: Minding>()
    ensures { (es fs : List (LocalAction S.Job)) (older others : List Exchange) (head : Head) (target : Target) (reply other : List ℕ)
        → (x : IsSaidAlone es S.service older head target reply) → (y : IsSaidAlone fs S.service others head target other)
        → LearnTheSame {site = S.service} x y → reply ≡ other }
{}

/// A run whose turns are the same for all ledgers minds its own; and so do the runs of the examples, but for those that tell what was sent before: in their
/// reply, in a log line, or in a question.
pub fn runs_that_never_look_mind_their_own<J, R>()
    ensures minds { (p : RunPlan J R) → NeverLooks p → MindsItsOwn p }
    ensures stored { (name key otherwise : List ℕ) → MindsItsOwn {J = J} (stored_plan name key otherwise) }
    ensures echo { (reads : Bool) → MindsItsOwn {J = J} (echo_plan reads) }
    ensures recalling { MindsItsOwn {J = J} recalls_plan → ⊥ }
    ensures telling_in_a_line { MindsItsOwn {J = J} tells_in_a_line → ⊥ }
    ensures telling_in_a_question { MindsItsOwn {J = J} tells_in_a_question → ⊥ }
{}

/// What runs of the examples say alone: the path, the body, or what a dictionary keeps.
pub fn what_is_said_alone<J>()
    ensures path { (beginning : Beginning) → reply_alone {J = J} (echo_plan false) beginning false [] ≡ beginning.target.path }
    ensures body { (beginning : Beginning) (continues waited : Bool) (now : ℕ) (content : List ℕ)
        → reply_alone {J = J} (echo_plan true) beginning continues (Seen now (seen.Body content waited) ∷ []) ≡ let_first continues ++ content }
    ensures stored { (beginning : Beginning) (name key otherwise : List ℕ) (now later : ℕ) (given : DictAnswer)
        → reply_alone {J = J} (stored_plan name key otherwise) beginning false (Given later (Dict 0 (dict.Get key) given) ∷ Seen now (seen.Run 0) ∷ [])
        ≡ given_text otherwise (answer.Dict given) }
{}
