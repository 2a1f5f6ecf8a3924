//! The phases of a request, how a handler may end, and what may follow.

use resty_base::Bytes;
use uri_args::Target;

/// A phase of a request in which a handler may run, in the order in which they come.
#[derive(Debug, Clone, Copy, PartialEq, Eq)]
pub enum Phase {
    Rewrite,
    Access,
    Content,
    HeaderFilter,
    BodyFilter,
    Log,
}

/// Whether the head of the reply was sent when a handler ended, and if so in which handler.
#[derive(Debug, Clone, Copy, PartialEq, Eq)]
pub enum Sent {
    /// No head was sent.
    No,
    /// One was sent before this handler began.
    Before,
    /// One was sent in this handler.
    Here,
}

/// How a handler ended.
#[derive(Debug, PartialEq, Eq, Drop)]
pub enum Outcome {
    /// It came to its end, or there is none in this phase.
    Ended,
    /// It ended itself alone, by `ngx.exit(ngx.OK)`.
    ExitOk,
    /// It ended the request with this status. A content phase without a handler ends by 404.
    Exit(u16),
    /// It asked that the request begin anew, at this target.
    Exec(Target),
    /// It asked that the request go on at the location of this name.
    ExecNamed(Bytes),
    /// It answers with this status, and sends the client to this address.
    Redirect(u16, Bytes),
    /// It raised an error.
    Failed,
    /// It used up its steps.
    Spent,
}

/// What follows a handler.
#[derive(Debug, Clone, Copy, PartialEq, Eq)]
pub enum Next {
    /// The handler of this phase.
    Run(Phase),
    /// The reply that the server makes itself for this status.
    Reply(u16),
    /// The request begins anew, at another location.
    Again,
    /// The reply is over.
    Finish,
    /// The connection closes after what was queued before.
    HangUp,
}
