//! What the tables keep of a run, and what an event of that run makes of it and of its data sets.
#![tactic(auto)]

mod checkpoint;
mod effective_job;
mod made_names;
mod marking;
mod marks_in_order;
mod new_sets;
mod own_step;
mod put_back;
mod rewrite;
mod run_change;
mod run_marks;
mod run_table;
mod spare;
mod start;
mod step_end;
mod step_points;
mod taken_step;

pub use checkpoint::{checkpoint_dd, checkpoint_name};
pub use effective_job::{EffectiveJob, has_step, step_at};
pub use made_names::{earlier_for, has_name, has_name_from, is_any_named};
pub use marking::Marking;
pub use marks_in_order::MarksInOrder;
pub use own_step::OwnStep;
pub use put_back::{
    delete_all_made, delete_printed, put_back_catalog, put_back_lengths, put_back_passed,
    put_back_sets,
};
pub use rewrite::{master_dd, master_name};
pub use run_change::change_run;
pub use run_marks::{mark_job, own_from};
pub use run_table::{
    InEffect, LostNames, ReturnCode, RunTable, StepPoint, WrittenEntries, WrittenEntry, place_of,
    table_at,
};
pub use spare::Spare;
pub use start::{point_at, put_marks, put_passed};
pub use step_end::{commit, place_now, step_now};
pub use step_points::StepPoints;
pub use taken_step::{TakenStep, TakenSteps};
