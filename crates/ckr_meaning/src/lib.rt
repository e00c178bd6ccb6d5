//! What the programs, the steps and the jobs mean: definitions by lists of records, and what holds of them.
#![tactic(auto)]

mod laws;
mod place;

pub use ckr_uses::{dispose, has_set_named, is_temporary, library_name};
pub use laws::{
    first_steps_leave_other_names, jobs_depend_on_their_names_alone,
    jobs_end_at_one_of_their_places, jobs_go_on_from_step_to_step, jobs_leave_other_names,
    jobs_that_begin_alike_go_on_alike, more_writes_fit_behind_the_first,
    records_have_the_record_length, same_states_have_the_same_rest,
    steps_end_as_their_work_where_it_fits, steps_leave_other_names, units_go_on,
    units_write_the_work, walks_go_on, writes_fit_that_leave_room, writes_go_on,
    writes_keep_to_the_space,
};
pub use place::Place;
