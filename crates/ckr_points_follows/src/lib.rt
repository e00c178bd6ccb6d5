//! Whether an event follows on the tables of a desk.
#![tactic(auto)]

mod checkpoint;
mod deck_conflicts;
mod event;
mod hold;
mod lengths;
mod release;
mod restart;
mod rewrite;
mod rewrite_counts;
mod runs;
mod select;
mod start;
mod step_end;
mod steps;
mod submit;

pub use checkpoint::{cancelled_follows, checkpointed_follows};
pub use event::follows;
pub use hold::held_follows;
pub use release::released_follows;
pub use restart::restarted_follows;
pub use rewrite::rewritten_follows;
pub use rewrite_counts::{may_count, what_can_be_counted_may_be};
pub use select::{denied_follows, purged_follows, selected_follows};
pub use start::started_follows;
pub use step_end::{ended_follows, step_ended_follows};
pub use submit::submitted_follows;

/// A run with RESTART as it is judged, for the crates above this one.
pub use ckr_points_deferred::{
    RunNow, WantedNow, deferred_case, denial_of, earlier_number, entry_of_syschk, run_now,
    set_of_syschk, wanted_of,
};
