//! The entries of checkpoints as the disk keeps them: whether each is whole when a desk is opened, and the one from which a run goes on.
#![tactic(auto)]

mod continuation;
mod entries;
mod entry_reads;
mod error;
mod kept_point;
mod step_state;

pub use continuation::{KeptThere, judged_there};
pub use entries::{effect_state, entries_are_refused_by_their_bytes};
pub use error::ReadError;
pub use step_state::StepState;
