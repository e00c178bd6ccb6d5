//! The tables of a desk in code: its data sets and its runs, kept event by event.
#![tactic(auto)]

mod allocation;
mod begun_runs;
mod continuation;
mod entry_now;
mod event;
mod hold;
mod release;
mod restart;
mod room_law;
mod rooms;
mod selection;
mod submit;
mod tables;

pub use ckr_points_runs::{
    EffectiveJob, InEffect, LostNames, OwnStep, ReturnCode, RunTable, StepPoint, StepPoints,
    TakenStep, TakenSteps, WrittenEntries, WrittenEntry, checkpoint_dd, checkpoint_name, master_dd,
    master_name, place_now, point_at, step_at,
};
pub use entry_now::EntryNow;
pub use room_law::runs_have_room;
pub use submit::is_submittable;
pub use tables::Tables;
