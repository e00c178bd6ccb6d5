//! Statements: the faults of one statement (J01 to J11), what the statements of a deck say, and the rules of one DD.
#![tactic(auto)]

mod dd_faults;
mod deck_text;
mod faults;
mod operand_faults;

pub use dd_faults::{DdRule, breaks, is_chkdd, is_old, is_shared, is_temporary};
pub use deck_text::{DdText, JobText, StepText};
pub use faults::{Fault, MetFaults, fault_at, least_fault, seen_behind};
