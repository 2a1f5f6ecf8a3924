//! What is sent to the client, and offers of it.

use crate::state::{Connection, Progress, both, put};
use connection_plan::ServiceContract;
use resty_base::Bytes;
use std::alloc::AllocError;
use strand_contract::{Act, Place};

impl<R: ServiceContract> Connection<R> {
    ghost use Rattle.std.specs.Prelude.{◌≡◌, IfOk, [], ◌+◌, ◌*◌, length};
    ghost use Rattle.strand_contract.specs.declared.turns.Place.TheVariants as place;
    ghost use Rattle.strand_plans.specs.Moves.{Send};
    ghost use Rattle.connection_plan.specs.Turns.{send};
    ghost use Rattle.connection_strand.specs.Views.{view_of, service};
    ghost use Rattle.connection_strand.specs.Costs.{Spends};
    ghost use Rattle.connection_strand.specs.Standing.{Goes};

    /// Asks for an offer, where something is left, the client takes bytes, and no offer is queued or goes on.
    pub(crate) fn ask_for_offer(
        &mut self,
        _site: &R::Site,
        progress: &mut Progress<R::Job>,
    ) -> Result<(), AllocError>
        ensures moves { let view = view_of (R.meaning _site.now) (R.serving _site.now) in IfOk result (λ done. Goes view
            (Send place.Client []) self.old progress.old self.new progress.new) }
        ensures waits { self.new.waits ≡ self.old.waits }
        ensures costs { IfOk result (λ done. Spends R.left R.bound 1 self.old progress.old self.new progress.new) }
    {
        if self.client.wants_offer() && !progress.is_offered {
            progress.is_offered = true;
            put(&mut progress.acts, Act::Offer(Place::Client))
        } else {
            Ok(())
        }
    }

    /// Sends bytes to the client, where it is there.
    pub(crate) fn send(
        &mut self,
        site: &R::Site,
        progress: &mut Progress<R::Job>,
        bytes: &Bytes,
    ) -> Result<(), AllocError>
        ensures moves { let view = view_of (R.meaning site.now) (R.serving site.now) in IfOk result (λ done. Goes view
            (send (service view) 0 bytes.now) self.old progress.old self.new progress.new) }
        ensures waits { self.new.waits ≡ self.old.waits }
        ensures costs { IfOk result (λ done. Spends R.left R.bound (16 * length bytes.now + 1) self.old progress.old self.new progress.new) }
    {
        if !self.client.is_open {
            return Ok(());
        }
        let queued = self.client.line.queue(bytes);
        both(queued, self.ask_for_offer(site, progress))
    }
}
