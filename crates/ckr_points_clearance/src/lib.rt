//! Whether what a step makes stands in the layout and lies clear.
#![tactic(auto)]

mod clearance;
mod items;
mod placements;
mod start;
mod stretches;

pub use start::makes_items;
