//! What the tables have of a run.
ghost use Rattle.std.specs.Prelude.{◌≡◌};
ghost use Rattle.ckr_points.specs.Restart.{step_in};

use ckr_base::Name8;
use ckr_meaning::Place;

/// Where a submitted job is.
#[derive(Clone, Copy)]
pub enum RunState {
    /// It waits for an initiator.
    Queued,
    /// It is on an initiator.
    On,
    /// The operator held it.
    Held,
    /// It was held, and waits for an initiator to go on.
    Released,
    Ended,
    /// Its restart was denied.
    Denied,
    /// The operator took it from the queue.
    Purged,
}

/// A submitted job's line; `initiator` is given exactly for a run that is on one.
#[derive(Drop)]
pub struct Run {
    /// From 1, in the order in which the decks were submitted.
    pub number: u32,
    pub name: Name8,
    pub state: RunState,
    /// From 1.
    pub initiator: Option<u8>,
}

/// The step that a place is before or in.
pub fn step_in(place: Place) -> u8
    ensures { result ≡ step_in place }
{
    match place {
        Place::Before(step) | Place::Opened(step) | Place::Within(step, _) => step,
    }
}
