//! A running step: its program's units read and write the records of its data sets on the disk.
#![tactic(auto)]

mod entry_records;
mod files;
mod heads;
mod laws;
mod step_run;
mod unit_ahead;
mod unit_writes;
mod units;

pub use files::{Files, RecordSource};
pub use laws::{entries_read_back, entries_stay};
pub use step_run::{Progress, StepRun, Worked};
pub use unit_ahead::UnitAhead;
