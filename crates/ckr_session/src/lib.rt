//! What the desk has of a stream between two lines, and the lines that it answers.
#![tactic(auto)]

mod clerk;
mod counts;
mod lines;
mod listing_lines;
mod orders;
mod report;
mod roster;
mod session;
mod stop;
mod tally;
mod text;
mod turns;

pub use clerk::Clerk;
pub use counts::{Counts, counts_of};
pub use lines::Lines;
pub use roster::Roster;
pub use session::Session;
pub use stop::{Halt, Stop};
pub use tally::Tally;
pub use text::Text;

// What a stream is served on, and the line of what one comes to, of the crates below.
pub use ckr_desk::{Desk, OpenError, Opening};
pub use ckr_report::{TextLine, totals_line};
