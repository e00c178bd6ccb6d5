//! The programs of at most one input: COPY, SELECT, PRINT and IEFBR14, record by record.
#![tactic(auto)]

mod counts;
mod laws;
mod pages;
mod records;
mod state;
mod units;
mod writes;

pub use ckr_jcl::Kind;
pub use counts::{DueState, due_at};
pub use laws::{
    first_state_stands_for_no_records, read_parms_are_in_range, same_states_have_the_same_rest,
    the_last_unit_ends_as_the_work, units_from_any_record_write_the_rest, units_write_the_work,
};
pub use state::{ProgState, due, served};
pub use units::unit;
