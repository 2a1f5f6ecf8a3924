//! What follows a handler, by how it ended.
ghost use Rattle.std.specs.Prelude.{◌≡◌};
ghost use Rattle.phases.specs.After as spec;

use crate::outcomes::{Next, Outcome, Phase, Sent};

/// So many internal redirects a request may have.
const MOST_REDIRECTS: u8 = 10;

/// What follows a handler of this phase, of a request or a subrequest, that ended so: `sent` tells whether the reply's head was
/// sent by then, `redirects` how many internal redirects were before. A phase without a handler is told as `Ended`, a content
/// phase without one as `Exit(404)`.
pub fn after(phase: Phase, sub: bool, sent: Sent, redirects: u8, outcome: &Outcome) -> Next
    ensures { result ≡ spec.after phase sub sent redirects outcome.now }
{
    match phase {
        Phase::Log => after_log(outcome),
        _ => after_handler(phase, sub, sent, redirects, outcome),
    }
}

/// What follows the log's handler, which comes when the reply is over.
fn after_log(outcome: &Outcome) -> Next
    ensures { result ≡ spec.after_log outcome.now }
{
    match outcome {
        Outcome::Spent => Next::HangUp,
        _ => Next::Finish,
    }
}

/// What follows a handler of another phase.
fn after_handler(phase: Phase, sub: bool, sent: Sent, redirects: u8, outcome: &Outcome) -> Next
    ensures { result ≡ spec.after_handler phase sub sent redirects outcome.now }
{
    match outcome {
        Outcome::Ended | Outcome::ExitOk => after_end(phase, sub, sent),
        Outcome::Exit(status) => after_exit(*status, sub, sent),
        Outcome::Redirect(status, _) => after_status(*status, sent),
        Outcome::Exec(_) | Outcome::ExecNamed(_) => after_redirect(redirects, sent),
        Outcome::Failed => after_failure(phase, sent),
        Outcome::Spent => after_fault(sent),
    }
}

/// What follows a handler that came to its end.
fn after_end(phase: Phase, sub: bool, sent: Sent) -> Next
    ensures { result ≡ spec.after_end phase sub sent }
{
    match (phase, sent) {
        (Phase::Rewrite | Phase::Access, Sent::Here) => Next::Finish,
        (Phase::Rewrite, _) if !sub => Next::Run(Phase::Access),
        (Phase::Rewrite | Phase::Access, _) => Next::Run(Phase::Content),
        _ => Next::Finish,
    }
}

/// What follows a handler that ended the request with a status: 444 closes without a reply.
fn after_exit(status: u16, sub: bool, sent: Sent) -> Next
    ensures { result ≡ spec.after_exit status sub sent }
{
    if status == 444 && !sub {
        Next::HangUp
    } else {
        after_status(status, sent)
    }
}

/// What follows a handler that answers with a status.
fn after_status(status: u16, sent: Sent) -> Next
    ensures { result ≡ spec.after_status status sent }
{
    match sent {
        Sent::No if status >= 300 => Next::Reply(status),
        _ => Next::Finish,
    }
}

/// What follows a handler that redirects within the server.
fn after_redirect(redirects: u8, sent: Sent) -> Next
    ensures { result ≡ spec.after_redirect redirects sent }
{
    if redirects < MOST_REDIRECTS {
        Next::Again
    } else {
        after_fault(sent)
    }
}

/// What follows a handler that raised an error.
fn after_failure(phase: Phase, sent: Sent) -> Next
    ensures { result ≡ spec.after_failure phase sent }
{
    match phase {
        Phase::HeaderFilter | Phase::BodyFilter => Next::HangUp,
        _ => after_fault(sent),
    }
}

/// What follows where the request can't go on.
fn after_fault(sent: Sent) -> Next
    ensures { result ≡ spec.after_fault sent }
{
    match sent {
        Sent::No => Next::Reply(500),
        _ => Next::HangUp,
    }
}
