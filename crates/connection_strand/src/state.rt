//! A connection, and the turn that it takes.

ghost use Rattle.std.specs.Prelude.{◌≡◌, ◌++◌, ◌∷◌, [], Bool, if◌then◌else◌, IfOk, Ok};

use crate::client::Client;
use crate::waits::Waits;
use resty_base::Ms;
use std::alloc::{AllocError, Global};
use strand_contract::{Act, Acts};

/// The strand of a client's connection, or of a timer job: `R` answers its requests, or is the job.
#[derive(Drop)]
pub struct Connection<R> {
    pub(crate) client: Client,
    /// What answers the request, or is the job, until it is over.
    pub(crate) run: Option<R>,
    pub(crate) waits: Waits,
    /// The numbers of its open sockets, in the order in which it got them.
    pub(crate) sockets: Vec<u32>,
    /// How many sockets the connection had.
    pub(crate) count: u32,
    /// The socket that is to be given to the pool.
    pub(crate) keeping: Option<u32>,
    /// The newest turn that wasn't an answer began as the client took bytes: its offer goes on.
    pub(crate) is_taking: bool,
}

/// A turn that is taken: where its memory comes from, and its moment.
#[derive(Drop)]
pub(crate) struct Turn {
    pub(crate) alloc: Global,
    pub(crate) moment: Ms,
}

/// How far a turn came.
#[derive(Drop)]
pub struct Progress<J> {
    /// Its acts so far.
    pub(crate) acts: Acts<J>,
    /// An offer of the client is queued, or goes on.
    pub(crate) is_offered: bool,
}

/// Puts an act last.
pub(crate) fn put<J: Drop>(acts: &mut Acts<J>, act: Act<J>) -> Result<(), AllocError>
    ensures { IfOk result (λ done. acts.new.items ≡ acts.old.items ++ act ∷ []) }
{
    match acts.push_back(act) {
        Ok(()) => Ok(()),
        Err(refused) => {
            drop(refused.value);
            Err(AllocError)
        }
    }
}

/// Puts an act last, where it is due.
pub(crate) fn put_if<J: Drop>(
    is_due: bool,
    acts: &mut Acts<J>,
    act: Act<J>,
) -> Result<(), AllocError>
    ensures { IfOk result (λ done. acts.new.items ≡ acts.old.items ++ (if is_due then act ∷ [] else [])) }
{
    if is_due {
        put(acts, act)
    } else {
        drop(act);
        Ok(())
    }
}

/// Whether the turn goes on, where that was done.
pub(crate) fn going(done: Result<(), AllocError>, on: bool) -> Result<bool, AllocError>
    ensures { IfOk result (λ goes. (goes ≡ on) × (done ≡ Ok tt)) }
{
    match done {
        Ok(()) => Ok(on),
        Err(error) => Err(error),
    }
}

/// The acts of a turn, where it came to its end.
pub(crate) fn acts_of<J: Drop>(
    progress: Progress<J>,
    done: Result<(), AllocError>,
) -> Result<Acts<J>, AllocError>
    ensures { IfOk result (λ acts. (acts.items ≡ progress.acts.items) × (done ≡ Ok tt)) }
{
    match done {
        Ok(()) => Ok(progress.acts),
        Err(error) => Err(error),
    }
}

/// What the second gave, where both were done.
pub(crate) fn both<T: Drop>(
    first: Result<(), AllocError>,
    second: Result<T, AllocError>,
) -> Result<T, AllocError>
    ensures { IfOk result (λ x. (first ≡ Ok tt) × (second ≡ Ok x)) }
{
    match first {
        Ok(()) => second,
        Err(error) => Err(error),
    }
}

/// It was done, whether or not the turn goes on.
pub(crate) fn ended(went: Result<bool, AllocError>) -> Result<(), AllocError>
    ensures { IfOk result (λ done. (on : Bool) × (went ≡ Ok on)) }
{
    match went {
        Ok(_) => Ok(()),
        Err(error) => Err(error),
    }
}
