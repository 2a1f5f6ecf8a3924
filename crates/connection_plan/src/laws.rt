//! Laws of the definitions.

ghost use Rattle.std.specs.Prelude.{◌≡◌, ℕ, ◌<◌, Bool, true, false, List, [], ◌∷◌, ◌++◌, codes, length, None};
ghost use Rattle.uri_args.specs.declared.targets.Target.{Target};
ghost use Rattle.http_in.specs.declared.heads.Head.{Head};
ghost use Rattle.http_in.specs.declared.framing.BodyKind.TheVariants as kind;
ghost use Rattle.client_line.specs.declared.requests.LineOut.TheVariants as out;
ghost use Rattle.client_line.specs.Requests.{IsOf};
ghost use Rattle.client_line.specs.Records.{Came};
ghost use Rattle.client_line.specs.Lines.{after_asked, done};
ghost use Rattle.client_line.specs.Feeding.{fed};
ghost use Rattle.strand_contract.specs.declared.turns.Place.TheVariants as place;
ghost use Rattle.strand_contract.specs.declared.turns.Start.TheVariants as start;
ghost use Rattle.strand_contract.specs.declared.turns.Act.TheVariants as act;
ghost use Rattle.strand_contract.specs.Alone.{IsExecution};
ghost use Rattle.strand_contract.specs.Laws.{AsksFit, HangsUpOpen, LeavesNothingOpen, Keeps, WakesQuietly, EndsAtStop};
ghost use Rattle.strand_contract.specs.Actions.{LocalAction, Did, Began, Ended, Broken, Ready, Later, Close, Run, Due, Offer, Halted};
ghost use Rattle.strand_plans.specs.Ledgers.{Ledger};
ghost use Rattle.strand_plans.specs.Moves.{perform};
ghost use Rattle.strand_plans.specs.Plans.{state_of};
ghost use Rattle.strand_plans.specs.Conditions.{IsPlan};
ghost use Rattle.run_contract.specs.declared.turns.Asking.TheVariants as asking;
ghost use Rattle.run_contract.specs.Deeds.{Send};
ghost use Rattle.run_contract.specs.Conditions.{IsRun};
ghost use Rattle.connection_plan.specs.Services.{Service, Both};
ghost use Rattle.connection_plan.specs.Connections.{connection_plan, connection_behavior};
ghost use Rattle.connection_plan.specs.Conditions.{Knows, MayAsk};
ghost use Rattle.connection_plan.specs.Accounts.{Accounts};
ghost use Rattle.connection_plan.specs.Asked.{AsksInOrder};
ghost use Rattle.connection_plan.specs.InStep.{IsInStep};
ghost use Rattle.connection_plan.specs.Turns.{continue_reply, settled_at, settle};
ghost use Rattle.connection_plan.specs.Recalls.{recalls_plan, RecallsHolds, recalled};
ghost use Rattle.connection_plan.specs.Examples.{echo_plan, EchoHolds, Asks, began, came, took, acts, sent};
ghost use Rattle.connection_plan.specs.Scripts.{dialled, script_sent, script_acts, script_armed, say, dials, two_threads, moves_on, reads};
ghost use Rattle.connection_plan.specs.Scripts.{replies_elsewhere, minds_the_end};

/// A site whose runs are lawful.
pub trait Lawful {
    /// How a timer job starts.
    type Job;

    /// What a run keeps beside its ledger.
    type Inner;

    ghost service: { Service Self.Job Self.Inner };

    /// What a run knows of its ledger and of itself.
    ghost holds: { Ledger Self.Job → Self.Inner → Type 0 };

    ghost runs: { IsRun service.runs holds };
}

/// Its connections meet the conditions of a strand that goes by moves, turn by turn.
pub fn connections_meet<S: Lawful>()
    ensures { IsPlan (connection_plan S.service) (Knows S.service.runs S.holds) (MayAsk S.service) }
{}

/// So they keep the laws of a strand that don't hold of every plan.
pub fn connections_are_strands<S: Lawful>()
    ensures asks_fit { AsksFit (connection_behavior S.service) }
    ensures hangs_up_open { HangsUpOpen (connection_behavior S.service) }
    ensures leaves_nothing_open { LeavesNothingOpen (connection_behavior S.service) }
    ensures keeps { Keeps (connection_behavior S.service) }
    ensures wakes_quietly { WakesQuietly (connection_behavior S.service) }
    ensures ends_at_stop { EndsAtStop (connection_behavior S.service) }
{}

/// What a connection sends is the replies to what its client asked, in order.
pub fn replies_are_sent_in_order<S: Lawful>()
    ensures { (es : List (LocalAction S.Job)) → Accounts (state_of (connection_plan S.service) es) }
{}

/// In each execution, what a connection takes from its client is a beginning of what all bytes that came ask: their requests in order, and then the head
/// that is refused, where there is one.
pub fn requests_are_those_of_the_bytes<J, R>()
    ensures { (site : Service J R) (es : List (LocalAction J)) → IsExecution (connection_behavior site) es
        → AsksInOrder es (state_of (connection_plan site) es) }
{}

/// A line on which a body was asked for, under whatever limit, goes on after it as it would without; whatever comes.
pub fn asking_for_a_body_leaves_what_follows()
    ensures follows { (came : Came) (max : ℕ) → IsInStep came.at → done (after_asked came max) ≡ done came }
    ensures asked { (came : Came) (max : ℕ) → IsInStep came.at → IsInStep (after_asked came max).at }
    ensures fed { (came : Came) (piece : List ℕ) → IsInStep came.at → IsInStep (fed came piece).after.at }
    ensures done { (came : Came) → IsInStep came.at → IsInStep (done came).at }
{}

/// A request that is there as the one before it is done takes bytes of those that are held.
pub fn each_request_takes_bytes()
    ensures { (came : Came) (head : Head) (target : Target) → (fed (done came) []).answer ≡ out.Request head target
        → length (fed (done came) []).after.held < length came.held }
{}

/// Settling does one thing and settles again: a busy run is told what it waits for, and a reply that is taken is followed by the next request or the end.
/// So how often the definition lets it go on never shows.
pub fn settling_goes_on<S: Lawful>()
    ensures { (now : ℕ) (b : Ledger S.Job) (s : Both S.Inner) → Knows S.service.runs S.holds (record { ledger = b; inner = s }) → b.asked ≡ None
        → let again = settle S.service now in perform again b s ≡ perform (settled_at S.service now s.client.stage again again b s) b s }
{}

/// The runs of the worked rows are lawful.
pub fn runs_of_the_rows_are_lawful<J>()
    ensures { (reads : Bool) → IsRun {J = J} (echo_plan reads) EchoHolds }
{}

/// A request without a body gets its reply; once that is taken the keepalive timer begins, and the header timer with the next byte.
pub fn a_kept_connection()
    ensures begins { (bytes rest : List ℕ) → Asks kind.Nothing false (codes "/a") bytes rest
        → acts false (came bytes ∷ began ∷ []) ≡ act.Cancel 0 ∷ act.Offer place.Client ∷ [] }
    ensures replies { (bytes rest : List ℕ) → Asks kind.Nothing false (codes "/a") bytes rest → sent false (came bytes ∷ began ∷ []) ≡ codes "/a" }
    ensures waits { (bytes : List ℕ) → Asks kind.Nothing false (codes "/a") bytes []
        → acts false (took (codes "/a") ∷ Did (Offer place.Client) ∷ came bytes ∷ began ∷ []) ≡ act.Arm 0 (record { 0 = 1_020 }) ∷ [] }
    ensures next { (bytes : List ℕ) → Asks kind.Nothing false (codes "/a") bytes []
        → acts false (came (71 ∷ []) ∷ took (codes "/a") ∷ Did (Offer place.Client) ∷ came bytes ∷ began ∷ []) ≡ act.Arm 0 (record { 0 = 1_010 }) ∷ [] }
    ensures runs_out { (bytes : List ℕ) → Asks kind.Nothing false (codes "/a") bytes []
        → acts false (Did (Due 0) ∷ took (codes "/a") ∷ Did (Offer place.Client) ∷ came bytes ∷ began ∷ []) ≡ act.HangUp place.Client ∷ act.Gone ∷ [] }
{}

/// A head that is refused gets the reply of its status, after which the connection closes.
pub fn a_refused_head()
    ensures begins { (bytes : List ℕ) (code : ℕ) → IsOf bytes (out.Refused code)
        → acts false (came bytes ∷ began ∷ []) ≡ act.Cancel 0 ∷ act.Offer place.Client ∷ [] }
    ensures replies { (bytes : List ℕ) (code : ℕ) → IsOf bytes (out.Refused code) → sent false (came bytes ∷ began ∷ []) ≡ code ∷ [] }
    ensures closes { (bytes : List ℕ) (code : ℕ) → IsOf bytes (out.Refused code)
        → acts false (took (code ∷ []) ∷ Did (Offer place.Client) ∷ came bytes ∷ began ∷ []) ≡ act.HangUp place.Client ∷ act.Gone ∷ [] }
{}

/// Of two requests that come at once the second begins where the reply to the first is taken, and the offer goes on.
pub fn a_pipelined_pair()
    ensures first { (bytes more rest : List ℕ) (b : ℕ) → Asks kind.Nothing false (codes "/a") bytes (b ∷ more)
        → Asks kind.Nothing false (codes "/b") (b ∷ more) rest → sent false (came bytes ∷ began ∷ []) ≡ codes "/a" }
    ensures goes_on { (bytes more rest : List ℕ) (b : ℕ) → Asks kind.Nothing false (codes "/a") bytes (b ∷ more)
        → Asks kind.Nothing false (codes "/b") (b ∷ more) rest
        → acts false (took (codes "/a") ∷ Did (Offer place.Client) ∷ came bytes ∷ began ∷ []) ≡ [] }
    ensures second { (bytes more rest : List ℕ) (b : ℕ) → Asks kind.Nothing false (codes "/a") bytes (b ∷ more)
        → Asks kind.Nothing false (codes "/b") (b ∷ more) rest
        → sent false (took (codes "/a") ∷ Did (Offer place.Client) ∷ came bytes ∷ began ∷ []) ≡ codes "/a/b" }
{}

/// A body that isn't read is dropped after the reply: it is waited for, and once it is whole the next request is.
pub fn a_dropped_body()
    ensures waits { (bytes : List ℕ) → Asks (kind.Length 3) false (codes "/a") bytes []
        → acts false (took (codes "/a") ∷ Did (Offer place.Client) ∷ came bytes ∷ began ∷ []) ≡ act.Arm 0 (record { 0 = 1_030 }) ∷ [] }
    ensures anew { (bytes : List ℕ) → Asks (kind.Length 3) false (codes "/a") bytes []
        → acts false (came (1 ∷ []) ∷ took (codes "/a") ∷ Did (Offer place.Client) ∷ came bytes ∷ began ∷ []) ≡ act.Arm 0 (record { 0 = 1_030 }) ∷ [] }
    ensures whole { (bytes : List ℕ) → Asks (kind.Length 3) false (codes "/a") bytes []
        → acts false (came (1 ∷ 2 ∷ 3 ∷ []) ∷ took (codes "/a") ∷ Did (Offer place.Client) ∷ came bytes ∷ began ∷ []) ≡ act.Arm 0 (record { 0 = 1_020 }) ∷ [] }
{}

/// A client that waits for a 100 reply gets one before its body is waited for; and a body that is too large is refused.
pub fn a_body_that_is_read()
    ensures continues { (bytes : List ℕ) → Asks (kind.Length 3) true (codes "/a") bytes []
        → acts true (came bytes ∷ began ∷ []) ≡ act.Cancel 0 ∷ act.Offer place.Client ∷ act.Arm 0 (record { 0 = 1_030 }) ∷ [] }
    ensures anew { (bytes : List ℕ) → Asks (kind.Length 3) false (codes "/a") bytes []
        → acts true (came (1 ∷ []) ∷ came bytes ∷ began ∷ []) ≡ act.Arm 0 (record { 0 = 1_030 }) ∷ [] }
    ensures replies { (bytes : List ℕ) → Asks (kind.Length 3) true (codes "/a") bytes []
        → sent true (came (codes "hi!") ∷ came bytes ∷ began ∷ []) ≡ continue_reply ++ codes "hi!" }
    ensures refused { (bytes : List ℕ) → Asks (kind.Length 9) false (codes "/a") bytes [] → sent true (came bytes ∷ began ∷ []) ≡ 413 ∷ [] }
{}

/// A client that sends no head in time is hung up without a reply.
pub fn a_head_that_does_not_come()
    ensures { acts false (Did (Due 0) ∷ began ∷ []) ≡ act.HangUp place.Client ∷ act.Gone ∷ [] }
{}

/// A client that takes no bytes is waited for, anew each time, and then hung up.
pub fn a_client_that_takes_no_bytes()
    ensures waits { (bytes : List ℕ) (code : ℕ) → IsOf bytes (out.Refused code)
        → acts false (Did (Later place.Client) ∷ Did (Offer place.Client) ∷ came bytes ∷ began ∷ []) ≡ act.Arm 1 (record { 0 = 1_040 }) ∷ [] }
    ensures resumes { (bytes : List ℕ) (code : ℕ) → IsOf bytes (out.Refused code)
        → acts false (Did (Ready place.Client) ∷ Did (Later place.Client) ∷ Did (Offer place.Client) ∷ came bytes ∷ began ∷ [])
        ≡ act.Cancel 1 ∷ act.Offer place.Client ∷ [] }
    ensures runs_out { (bytes : List ℕ) (code : ℕ) → IsOf bytes (out.Refused code)
        → acts false (Did (Due 1) ∷ Did (Later place.Client) ∷ Did (Offer place.Client) ∷ came bytes ∷ began ∷ []) ≡ act.HangUp place.Client ∷ act.Gone ∷ [] }
{}

/// A client that ends before the body is whole gets 400; one whose connection breaks is hung up, and the run goes on to its end.
pub fn a_client_that_is_gone()
    ensures ends { acts false (Did (Ended place.Client) ∷ began ∷ []) ≡ act.HangUp place.Client ∷ act.Gone ∷ [] }
    ensures refuses { (bytes : List ℕ) → Asks (kind.Length 3) false (codes "/a") bytes []
        → sent true (Did (Ended place.Client) ∷ came bytes ∷ began ∷ []) ≡ 400 ∷ [] }
    ensures breaks { (bytes : List ℕ) → Asks (kind.Length 3) false (codes "/a") bytes []
        → acts true (Did (Broken place.Client) ∷ came bytes ∷ began ∷ []) ≡ act.HangUp place.Client ∷ act.Cancel 0 ∷ act.Ready 0 ∷ [] }
    ensures goes_on { (bytes : List ℕ) → Asks (kind.Length 3) false (codes "/a") bytes []
        → acts true (Did (Run 0) ∷ Did (Close place.Client) ∷ Did (Broken place.Client) ∷ came bytes ∷ began ∷ []) ≡ act.Gone ∷ [] }
{}

/// A job runs without a client, and Stop ends a connection.
pub fn a_job_and_stop()
    ensures begins { acts false (Did (Began 1_000 (start.Job 1 false 0)) ∷ []) ≡ act.Ready 0 ∷ [] }
    ensures ends { acts false (Did (Run 0) ∷ Did (Began 1_000 (start.Job 1 false 0)) ∷ []) ≡ act.Gone ∷ [] }
    ensures stops { acts false (Did Halted ∷ began ∷ []) ≡ act.HangUp place.Client ∷ act.Gone ∷ [] }
{}

/// A request as those of the rows can be sent, whatever follows it.
pub fn such_a_request_can_be_sent()
    ensures { (rest : List ℕ) → (bytes : List ℕ) × Asks kind.Nothing false (codes "/a") bytes rest }
{}

/// That a run is lawful doesn't make its reply depend on its own request alone: one that replies with all that was sent before is lawful, and its
/// replies to two requests that ask the same differ.
pub fn a_reply_may_tell_of_others<J>()
    ensures lawful { IsRun {J = J} recalls_plan RecallsHolds }
    ensures first { (bytes more rest : List ℕ) (b : ℕ) → Asks kind.Nothing false (codes "/a") bytes (b ∷ more)
        → Asks kind.Nothing false (codes "/a") (b ∷ more) rest → recalled (came bytes ∷ began ∷ []) ≡ 1 ∷ [] }
    ensures second { (bytes more rest : List ℕ) (b : ℕ) → Asks kind.Nothing false (codes "/a") bytes (b ∷ more)
        → Asks kind.Nothing false (codes "/a") (b ∷ more) rest
        → recalled (took (1 ∷ []) ∷ Did (Offer place.Client) ∷ came bytes ∷ began ∷ []) ≡ 1 ∷ 1 ∷ 1 ∷ [] }
{}

/// Acts and words of a turn keep their order: what is said before bytes are sent to a socket is offered before them, and the other way round.
pub fn words_and_sockets()
    ensures word_first { (bytes : List ℕ) → Asks kind.Nothing false (codes "/a") bytes []
        → script_acts (dials (say (codes "a") ∷ Send 0 (codes "b") ∷ [])) (dialled ∷ came bytes ∷ began ∷ [])
        ≡ act.Offer place.Client ∷ act.Offer (place.Sock 0) ∷ [] }
    ensures socket_first { (bytes : List ℕ) → Asks kind.Nothing false (codes "/a") bytes []
        → script_acts (dials (Send 0 (codes "b") ∷ say (codes "a") ∷ [])) (dialled ∷ came bytes ∷ began ∷ [])
        ≡ act.Offer (place.Sock 0) ∷ act.Offer place.Client ∷ [] }
{}

/// Two threads, of which the first reads the body: where that is there both go on in one turn, in their order; else the second goes on alone, and the
/// first with the rest of the body. The timer of the body is armed before the deadline by which the second sleeps, so at one moment it comes due first.
pub fn two_threads_and_a_body()
    ensures at_once { (bytes : List ℕ) → Asks (kind.Length 3) false (codes "/a") bytes (codes "hi!")
        → script_sent (two_threads [] (asking.Body 5)) (came bytes ∷ began ∷ []) ≡ codes "child parent " }
    ensures not_yet { (bytes : List ℕ) → Asks (kind.Length 3) false (codes "/a") bytes []
        → script_sent (two_threads [] (asking.Body 5)) (came bytes ∷ began ∷ []) ≡ codes "parent " }
    ensures later { (bytes : List ℕ) → Asks (kind.Length 3) false (codes "/a") bytes []
        → script_sent (two_threads [] (asking.Body 5)) (came (codes "hi!") ∷ came bytes ∷ began ∷ []) ≡ codes "parent child " }
    ensures in_order { (bytes : List ℕ) → Asks (kind.Length 3) false (codes "/a") bytes []
        → script_acts (two_threads [] (asking.Body 5)) (came bytes ∷ began ∷ [])
        ≡ act.Cancel 0 ∷ act.Arm 0 (record { 0 = 1_030 }) ∷ act.Offer place.Client ∷ act.Arm 2 (record { 0 = 1_030 }) ∷ [] }
    ensures armed { (bytes : List ℕ) → Asks (kind.Length 3) false (codes "/a") bytes []
        → script_armed (two_threads [] (asking.Body 5)) (came bytes ∷ began ∷ []) ≡ (0, 1_030) ∷ (2, 1_030) ∷ [] }
{}

/// The same two, of which the first waits until all that was said is taken: with nothing said both go on at once, else the first once the last byte is taken.
pub fn two_threads_and_a_flush()
    ensures at_once { (bytes : List ℕ) → Asks kind.Nothing false (codes "/a") bytes []
        → script_sent (two_threads [] asking.AllTaken) (came bytes ∷ began ∷ []) ≡ codes "child parent " }
    ensures not_yet { (bytes : List ℕ) → Asks kind.Nothing false (codes "/a") bytes []
        → script_sent (two_threads (say (codes "first ") ∷ []) asking.AllTaken) (came bytes ∷ began ∷ []) ≡ codes "first parent " }
    ensures in_order { (bytes : List ℕ) → Asks kind.Nothing false (codes "/a") bytes []
        → script_acts (two_threads (say (codes "first ") ∷ []) asking.AllTaken) (came bytes ∷ began ∷ [])
        ≡ act.Cancel 0 ∷ act.Offer place.Client ∷ act.Arm 2 (record { 0 = 1_030 }) ∷ [] }
    ensures partly { (bytes : List ℕ) → Asks kind.Nothing false (codes "/a") bytes []
        → script_sent (two_threads (say (codes "first ") ∷ []) asking.AllTaken)
        (took (codes "first ") ∷ Did (Offer place.Client) ∷ came bytes ∷ began ∷ []) ≡ codes "first parent " }
    ensures later { (bytes : List ℕ) → Asks kind.Nothing false (codes "/a") bytes []
        → script_sent (two_threads (say (codes "first ") ∷ []) asking.AllTaken)
        (took (codes "first parent ") ∷ Did (Offer place.Client) ∷ came bytes ∷ began ∷ []) ≡ codes "first parent child " }
{}

/// Once a run says that another location answers the request, timers that begin go by its times; one that runs already goes on.
pub fn a_location_of_other_times()
    ensures body { (bytes : List ℕ) → Asks (kind.Length 3) false (codes "/a") bytes []
        → script_armed (reads (moves_on ∷ []) []) (came bytes ∷ began ∷ []) ≡ (0, 1_003) ∷ [] }
    ensures goes_on { (bytes : List ℕ) → Asks (kind.Length 3) false (codes "/a") bytes []
        → script_armed (reads [] (moves_on ∷ [])) (came bytes ∷ began ∷ []) ≡ (0, 1_030) ∷ [] }
    ensures anew { (bytes : List ℕ) → Asks (kind.Length 3) false (codes "/a") bytes []
        → script_armed (reads [] (moves_on ∷ [])) (came (1 ∷ []) ∷ came bytes ∷ began ∷ []) ≡ (0, 1_003) ∷ [] }
    ensures send { (bytes : List ℕ) → Asks kind.Nothing false (codes "/a") bytes []
        → script_armed replies_elsewhere (Did (Later place.Client) ∷ Did (Offer place.Client) ∷ came bytes ∷ began ∷ []) ≡ (1, 1_004) ∷ [] }
    ensures keepalive { (bytes : List ℕ) → Asks kind.Nothing false (codes "/a") bytes []
        → script_armed replies_elsewhere (took (codes "x") ∷ Did (Offer place.Client) ∷ came bytes ∷ began ∷ []) ≡ (0, 1_002) ∷ [] }
{}

/// A run that goes on is told that its client sends no more; what it says then is still sent, and its deadlines stay armed.
pub fn a_client_that_ends()
    ensures told { (bytes : List ℕ) → Asks kind.Nothing false (codes "/a") bytes []
        → script_acts minds_the_end (Did (Ended place.Client) ∷ came bytes ∷ began ∷ []) ≡ act.Log (codes "ended") ∷ act.Offer place.Client ∷ [] }
    ensures sent { (bytes : List ℕ) → Asks kind.Nothing false (codes "/a") bytes []
        → script_sent minds_the_end (Did (Ended place.Client) ∷ came bytes ∷ began ∷ []) ≡ codes "bye" }
    ensures armed { (bytes : List ℕ) → Asks kind.Nothing false (codes "/a") bytes []
        → script_armed minds_the_end (Did (Ended place.Client) ∷ came bytes ∷ began ∷ []) ≡ (2, 1_030) ∷ [] }
{}
