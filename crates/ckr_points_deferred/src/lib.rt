//! The case of a deferred restart on the tables of a desk: the run that is continued, the step, and why it is denied.
#![tactic(auto)]

mod cases;
mod continuations;
mod denials;
mod earlier;
mod latest;
mod numbers;
mod runs;
mod sameness;
mod sets;
mod staleness;
mod syschk_entries;
mod wanted_now;

pub use cases::deferred_case;
pub use continuations::may_restart;
pub use denials::{denial_of, earlier_number, wanted_name};
pub use latest::latest_run;
pub use numbers::number_named;
pub use runs::{RunNow, run_now};
pub use sets::set_of;
pub use staleness::stale_denial;
pub use syschk_entries::{entry_of_syschk, set_of_syschk};
pub use wanted_now::{WantedNow, wanted_of};
