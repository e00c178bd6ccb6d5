//! What a deck says, as values: the job, its steps and DDs, PARM, the programs.
#![tactic(auto)]

mod card_image;
mod deck;
mod exact;
mod lists;
mod parm;
mod programs;
mod refusal;
mod text;

pub use card_image::CardImage;
pub use deck::{
    After, Cond, CondOp, Dd, Disp, Job, Kind, Origin, Parm, Rd, Restart, Role, Status, Step,
};
pub use lists::{Cards, Conds, Dds, Steps};
pub use parm::{no_parm, read_parm};
pub use programs::{
    names_checkpointed, names_read, names_updated, names_written, program_named, role_of,
};
pub use refusal::{DeckError, ParmError};
pub use text::{
    before, begins_list, begins_quoted, behind, in_apostrophes, in_parentheses, is_among,
    is_empty_or, is_spelled, is_word, item_at, item_count, length_before, number_value, opened,
};
