//! The queue of jobs: which job is next. The units: which volume each carries, and which volumes the step on each initiator has in use.
#![tactic(auto)]

mod entry;
mod laws;
mod mounts;
mod queue;
mod units;

pub use entry::{QueueEntry, QueueState, Selection};
pub use laws::{
    idle_where_none_may_start, mounts_begin_empty, pinned_volume_gets_unit,
    pinned_volumes_are_mounted, selections_are_lowest,
};
pub use mounts::{Mounts, VolumeList};
pub use queue::Queue;
pub use units::{Need, Units};
