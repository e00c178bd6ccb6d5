//! The desk: an event is on the disk before the jobs go on by it.
#![tactic(auto)]

mod attendance;
mod checkpoint;
mod continuation;
mod data_set;
mod desk;
mod entries;
mod error;
mod event_bytes;
mod mount;
mod opening;
mod plan;
mod preparation;
mod purge;
mod records;
mod release;
mod rewrite;
mod submit;
mod turn;
mod unit;

pub use desk::Desk;
pub use error::{DeskError, OpenError, Opening};

// What opening refuses of the entries, where each has its places.
pub use ckr_desk_refines::entries_are_refused_by_their_bytes;

// What the calls of a desk take and answer, of the crates below.
pub use ckr_desk_refines::Listed;
pub use ckr_desk_turn::{Cause, Chkpt, How, Reply, Submitted, Turn};
pub use ckr_points::{Denial, Run, RunState, Seen};
pub use ckr_rules::Rule;
pub use ckr_volumes::Layout;
