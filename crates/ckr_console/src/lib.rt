//! The operator: what he is asked, and who answers in his place.
#![tactic(auto)]

mod boxed;
mod console;
mod operator;
mod operators;
mod question;
mod scripts;

pub use console::Console;
pub use operator::Operator;
pub use operators::{Cautious, Scripted, Standing};
pub use question::{Answer, Question};
pub use scripts::{Letters, Script, Scripts, are_scripts, read_scripts};
