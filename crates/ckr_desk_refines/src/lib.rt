//! That images of the disk have what the events have committed, that the jobs in memory stand for the desk of the events, and what is listed of it.
#![tactic(auto)]

mod checkpoint_laws;
mod count_laws;
mod data_sets;
mod durable_laws;
mod entry_laws;
mod event_laws;
mod holder_laws;
mod holders;
mod lengths;
mod rewrite_laws;
mod shared_sets;
mod standing_laws;
mod unit_laws;

pub use checkpoint_laws::{
    checkpoints_in_memory_are_those_of_the_desk, desks_behind_checkpoints_stand,
    entries_are_committed_with_their_event, steps_that_stand_are_as_far,
};
pub use count_laws::{sound_events_add_a_run_for_each_deck, sound_events_add_few};
pub use data_sets::{Listed, free_set, is_held, set_at};
pub use durable_laws::{
    events_commit_what_a_step_has_written, events_leave_what_is_committed,
    units_leave_what_is_committed,
};
pub use entry_laws::{
    checkpoints_add_their_entry, checkpoints_leave_others, checkpoints_write_their_entry,
    entries_in_effect_have_the_state_of_their_job, entries_stay_in_images,
    events_leave_checkpoints_in_effect, events_leave_entries, kept_entries_are_not_refused,
    kept_entries_are_read, no_events_keep_no_entry, sound_events_keep_entries_within,
};
pub use event_laws::{
    desks_behind_calls_stand, desks_behind_codes_stand, desks_behind_continuations_stand,
    desks_behind_denials_stand, desks_behind_holds_stand, desks_behind_restarts_stand,
    desks_behind_turns_that_tell_stand, events_are_committed,
};
pub use holder_laws::runs_reach_names_that_they_hold;
pub use rewrite_laws::{
    desks_behind_rewrites_stand, rewrites_are_committed_once_they_are_written, rewrites_are_told,
};
pub use shared_sets::{
    events_leave_the_data_sets_of_other_steps, own_events_keep_where_data_sets_lie,
    shared_data_sets_do_not_grow,
};
pub use standing_laws::{desks_are_seen_in_memory, plans_are_those_of_the_desk};
pub use unit_laws::{
    desks_behind_units_stand, running_steps_have_a_unit_due,
    turns_that_work_tell_what_the_unit_came_to, turns_that_work_tell_what_was_foretold,
};

// The jobs in memory, and what is asked of them, of the crates below.
pub use ckr_desk_memory::{
    Checkpoint, Jobs, Prepared, RunningStep, StepPoint, Tables, decided, entry_of_syschk,
    may_count, purged_follows, released_follows, run_now, run_wanting, set_of_syschk, shared_deck,
    step_at,
};

// The entries on the disk, as they are read.
pub use ckr_desk_entries::{
    KeptThere, ReadError, StepState, effect_state, entries_are_refused_by_their_bytes, judged_there,
};
