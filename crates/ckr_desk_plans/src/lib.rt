//! What a run's turn, and its next checkpoint, come to, by what the tables keep of it and its running step.
#![tactic(auto)]

mod checkpoint;
mod decision;
mod deferred;
mod due;
mod entry;
mod entry_laws;
mod entry_marks;
mod run_code;
mod running_step;
mod set_copy;
mod sharing;
mod unit_reply;

pub use checkpoint::{Checkpoint, checkpoint_of};
pub use decision::decided;
pub use deferred::queued_plan;
pub use due::{cancelled, checkpoint_due, step_ended};
pub use entry::{NextEntry, id_of, next_of};
pub use entry_laws::entries_are_those_of_the_job;
pub use run_code::{CodePlace, Extents, Seat, code_plan, lengths_of, place_of};
pub use running_step::RunningStep;
pub use set_copy::copy_of_set;
pub use sharing::shared_deck;
pub use unit_reply::{reached_by, worked_reply};

// The types of a running step's program and units, and why a DD isn't allocated, for the crates above.
pub use ckr_points_library::Refusal;
pub use ckr_steps::{StepRun, UnitAhead, Worked};

// What the jobs in memory, and the desk, ask of the tables beside.
pub use ckr_points_follows::{
    entry_of_syschk, follows, may_count, purged_follows, released_follows, run_now, set_of_syschk,
};
