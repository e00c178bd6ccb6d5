//! When the events of a desk are kept: what the tables keep beside what is sound, and that one more event keeps it, automatic restarts among them.
#![tactic(auto)]

mod checkpoint_laws;
mod continuation_laws;
mod kept_laws;
mod laws;
mod restart_laws;

pub use checkpoint_laws::checkpoints_stay_until_they_are_cut;
pub use continuation_laws::continued_runs_stand_at_their_point;
pub use kept_laws::events_stay_kept;
pub use laws::{
    entries_are_counted, events_go_on, kept_events_are_sound, next_events_keep_the_events,
    no_events_are_kept,
};
pub use restart_laws::{
    ready_runs_can_restart, restarts_go_back, restarts_keep_the_events, restarts_keep_the_points,
    restarts_leave_the_rest,
};
