//! What becomes of a deck, and the event that keeps its cards; what a turn of the desk comes to, with its reply and its event or none, how a step
//! comes by its volumes in the machine room, and that turns keep the events of the desk.
#![tactic(auto)]

mod cards;
mod checkpoint_laws;
mod deck_laws;
mod deferred_laws;
mod entry_form_laws;
mod event_laws;
mod events;
mod failed_run;
mod inquiry;
mod machine_room;
mod mount_laws;
mod opening_law;
mod plan;
mod queue_law;
mod reply;
mod restart_laws;
mod step_laws;
mod stint_laws;
mod submit;
mod taking;
mod turn_laws;
mod unit_laws;

pub use cards::{job_of_kept, submitted_event};
pub use checkpoint_laws::{
    cancels_are_due_behind_checkpoints, checkpoints_are_due_once, checkpoints_leave_kept_events,
    entries_have_the_state_of_the_program, entries_in_range_have_a_spelling,
    events_of_checkpoints_may_come, written_entries_are_kept, written_entries_count,
};
pub use ckr_points::{Chkpt, How, Reply};
pub use ckr_points_library::Cause;
pub use deck_laws::{
    accepted_decks_are_formed, accepted_decks_are_within_limits, accepted_decks_have_check_parts,
    dds_of_accepted_decks_fit, names_stand_once_in_each_step, what_is_kept_is_the_deck,
};
pub use deferred_laws::deferred_restarts_are_judged;
pub use entry_form_laws::{
    check_sets_have_records_of_256_bytes, next_entries_have_an_identifier, passed_lists_are_short,
};
pub use event_laws::{events_between_steps_may_come, events_of_calls_may_come};
pub use events::{
    allocation_event, cancelled_event, checkpointed_event, coded_event, completed_event,
    held_event, purged_event, released_event, restarted_event, rewritten_event, rule_number,
    selected_event, started_event, step_ended_event,
};
pub use failed_run::FailedRun;
pub use inquiry::Inquiry;
pub use machine_room::MachineRoom;
pub use mount_laws::plans_with_their_volumes_stay;
pub use opening_law::{opened_desks_are_desks, sound_events_open_to_a_desk};
pub use plan::Plan;
pub use queue_law::the_queue_selects_the_next_run;
pub use reply::{Submitted, Turn};
pub use restart_laws::{
    codes_come_to_what_the_rules_say, events_of_restarts_may_come, held_runs_stop,
    restarted_runs_go_on, restarted_runs_stand_at_their_point, restarts_keep_the_desk,
    turns_rest_on_the_operators_answer,
};
pub use step_laws::{
    next_units_keep_the_desk, turns_within_a_step_keep_the_desk, units_keep_the_desk,
};
pub use stint_laws::stints_end_within_their_turns;
pub use submit::{Submission, submission_of};
pub use taking::{Taking, gives_up};
pub use turn_laws::{
    desks_behind_calls, desks_behind_steps_that_start, desks_behind_turns,
    desks_behind_turns_between_steps, restarted_jobs_leave_what_they_leave_once,
    turns_keep_the_desk,
};
pub use unit_laws::{
    codes_of_units_are_those_of_the_work, last_units_keep_the_desk, rewrites_keep_the_desk,
    work_keeps_the_desk,
};
