//! What the start and the end of a step do to the library and to the passed list.
#![tactic(auto)]

mod allocation;
mod allotment;
mod cause;
mod commit;
mod laws;
mod outputs;
mod step_end;
mod volume_room;

pub use allocation::allocate_step;
pub use allotment::{Allotment, Flaw, allotment_of, is_found, is_output, is_passed, is_wrong_kind};
pub use cause::{Cause, MadeList, Refusal};
pub use commit::{commit_lengths, has_text, output_name};
pub use laws::{allocated_steps_have_no_flaw, dispositions_are_those_of_the_step};
pub use outputs::open_outputs;
pub use step_end::{end_passed, end_step};
