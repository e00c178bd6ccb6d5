//! The tables of the desk, which are folded from the events, and what the jobs leave.
#![tactic(auto)]

mod denial;
mod freshness;
mod kept_entry;
mod marks;
mod needed;
mod reply;
mod run;
mod statements;
mod step_names;
mod syschk;

pub use denial::{Denial, Seen};
pub use freshness::fresh;
pub use kept_entry::kept_under;
pub use marks::{has_present_marks, is_marked_absent, is_of_step, mark_at, present_at};
pub use needed::Needed;
pub use reply::{Chkpt, How, Reply};
pub use run::{Run, RunState, step_in};
pub use statements::same_statements;
pub use step_names::{has_name, has_sysout_name, is_sysout};
pub use syschk::{is_syschk_found, syschk_name};
