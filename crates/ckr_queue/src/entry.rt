//! A run in the queue.
ghost use Rattle.std.specs.Prelude.{◌≡◌};
ghost use Rattle.std.specs.List.{list_any};
ghost use Rattle.ckr_queue.specs.Queue.{has_names, keeps_out, may_start};

use ckr_uses::{Uses, holds};

/// Where a run stands that has neither ended nor been purged.
#[derive(Clone, Copy)]
pub enum QueueState {
    /// It was submitted, and waits for an initiator and for its names.
    Queued,
    /// It is on an initiator.
    Selected,
    /// The operator holds it. It keeps its names.
    Held,
    /// The operator released it, and it waits for an initiator. It keeps its names.
    Released,
}

/// A run that has neither ended nor been purged.
#[derive(Drop)]
pub struct QueueEntry {
    /// Its number, from 1.
    pub number: u32,
    pub state: QueueState,
    /// The names that it has from its selection to its end.
    pub uses: Uses,
}

/// Which run an initiator is to take.
#[derive(Clone, Copy, PartialEq, Eq)]
pub enum Selection {
    /// The run of this number.
    Job(u32),
    /// None may start now.
    Idle,
}

/// Whether a run in this state has its names.
const fn has_names(state: QueueState) -> bool
    ensures { result ≡ has_names state }
{
    match state {
        QueueState::Queued => false,
        QueueState::Selected | QueueState::Held | QueueState::Released => true,
    }
}

/// Whether a run keeps another one waiting: it has its names, and its uses hold against those of the other.
fn keeps_out(entry: &QueueEntry, other: &QueueEntry) -> bool
    ensures { result ≡ keeps_out entry.now other.now }
{
    has_names(other.state) && holds(entry.uses.as_slice(), other.uses.as_slice())
}

/// Whether one of these keeps the run waiting.
fn is_kept_out(entry: &QueueEntry, entries: &[QueueEntry]) -> bool
    ensures { result ≡ list_any (keeps_out entry.now) entries.now }
{
    entries.iter().any(|other| keeps_out(entry, other))
}

/// Whether a run may start beside these: it is released, or it is queued and none of them keeps it waiting.
pub(crate) fn may_start(entry: &QueueEntry, entries: &[QueueEntry]) -> bool
    ensures { result ≡ may_start entries.now entry.now }
{
    match entry.state {
        QueueState::Released => true,
        QueueState::Queued => !is_kept_out(entry, entries),
        QueueState::Selected | QueueState::Held => false,
    }
}
