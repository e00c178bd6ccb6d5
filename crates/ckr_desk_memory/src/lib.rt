//! The jobs of a desk in memory: the tables, the queue, and the running steps, each with its data sets.
#![tactic(auto)]

mod checkpoint;
mod entry;
mod event;
mod found_run;
mod holder_laws;
mod jobs;
mod known_point;
mod lines;
mod mount_memory;
mod mounts;
mod opening;
mod plan;
mod preparation;
mod replay;
mod rewrite;
mod served;
mod start;
mod unit_due;
mod unit_reply;
mod unit_step;
mod waiting;

pub use holder_laws::{
    holders_stay_apart, jobs_hold_their_own, own_events_follow, running_steps_stay_theirs,
};
pub use jobs::{Jobs, StepPoint};
pub use mounts::run_wanting;
pub use preparation::Prepared;

// A running step, and what its turn and its next checkpoint come to.
pub use ckr_desk_plans::{
    Checkpoint, NextEntry, RunningStep, copy_of_set, decided, entries_are_those_of_the_job,
    shared_deck,
};

// What the desk asks of the tables beside the jobs.
pub use ckr_desk_plans::{
    entry_of_syschk, may_count, purged_follows, released_follows, run_now, set_of_syschk,
};
pub use ckr_points_tables::{EffectiveJob, Tables, step_at};
