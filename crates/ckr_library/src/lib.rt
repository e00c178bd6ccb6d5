//! The library: which data sets there are, and what each is.
#![tactic(auto)]

mod fronts;
mod library;
mod sets;
mod shelf;
mod spread;
mod uses;

pub use library::Library;
pub use sets::{Content, DataSet, Extent, Kept, Part, Stamp};
pub use spread::{Packed, Span};
pub use uses::{Use, Uses};
