//! What a run waits for.

use run_contract::{Asking, RunSeen};

/// Whether a run waits for the body of its request, or until all that was sent is taken; whether it has a client; and what it asked its
/// connection without an answer yet.
#[derive(Clone, Copy)]
pub(crate) struct Waits {
    pub(crate) body: bool,
    pub(crate) taken: bool,
    pub(crate) client: bool,
    pub(crate) asks: Option<Asking>,
}

impl Waits {
    ghost use Rattle.std.specs.Prelude.{◌≡◌};
    ghost use Rattle.run_contract.specs.Runs as spec;
    ghost use Rattle.connection_strand.specs.Kept.{waits_of};

    /// As a run begins, with or without a client.
    pub(crate) fn at_first(client: bool) -> Waits
        ensures { waits_of result ≡ spec.waits_at_first client }
    {
        Waits {
            body: false,
            taken: false,
            client,
            asks: None,
        }
    }

    /// Once it was told that what it asked for isn't there yet.
    fn longer(self) -> Waits
        ensures { waits_of result ≡ spec.waits_longer self.asks (waits_of self) }
    {
        match self.asks {
            Some(Asking::Body(_)) => Waits {
                body: true,
                asks: None,
                ..self
            },
            Some(Asking::AllTaken) => Waits {
                taken: true,
                asks: None,
                ..self
            },
            None => self,
        }
    }

    /// Once it was told this.
    pub(crate) fn told(self, seen: &RunSeen) -> Waits
        ensures { waits_of result ≡ spec.waits_told seen.now (waits_of self) }
    {
        match seen {
            RunSeen::Body(_, _) | RunSeen::BodyRefused(_) => Waits {
                body: false,
                asks: None,
                ..self
            },
            RunSeen::AllTaken => Waits {
                taken: false,
                asks: None,
                ..self
            },
            RunSeen::NotYet => self.longer(),
            RunSeen::ClientGone => Waits::at_first(false),
            RunSeen::Run(_) | RunSeen::Due(_) | RunSeen::ClientEnded | RunSeen::Sock(_, _) => self,
        }
    }
}
