//! The rules of restarts: where an automatic or a deferred restart goes on, or why it is denied.
#![tactic(auto)]

mod cases;
mod rule_tables;

pub use cases::{AutoCase, DeferredCase, Rule, Verdict};
pub use rule_tables::{automatic, deferred};
