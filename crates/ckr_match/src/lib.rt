//! The programs of two inputs in the order of their keys: MERGE, MASTER and UPDATE, record by record.
#![tactic(auto)]

mod images;
mod laws;
mod order;
mod state;
mod steps;
mod units;
mod writes;

pub use laws::{
    first_state_stands_for_no_records, same_states_have_the_same_rest,
    the_last_unit_ends_as_the_work, units_from_any_record_write_the_rest, units_write_the_work,
};
pub use state::{MatchState, due, served};
pub use units::unit;
