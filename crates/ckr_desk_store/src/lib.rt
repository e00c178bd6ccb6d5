//! The disk of an open desk: its events, and the records of its data sets, until it fails.
#![tactic(auto)]

mod entry;
mod error;
mod store;
mod unit;

pub use error::StoreError;
pub use store::Store;
