//! The texts of the product: each line that it writes, written without memory.
#![tactic(auto)]

mod denial;
mod ending;
mod listing;
mod name;
mod notice;
mod reply;
mod text_line;

pub use listing::{empty_library_line, job_line, library_line, no_jobs_line, record_line};
pub use notice::{
    acceptance_line, deck_refusal_line, format_line, no_volume_line, operator_line, purge_line,
    refusal_line, release_line, totals_line,
};
pub use reply::reply_line;
pub use text_line::TextLine;
