//! Names, codes and records, with their columns and digits: what every other crate stands on.
#![tactic(auto)]

mod code;
mod copies;
mod digits;
mod exact;
mod grammar;
mod lists;
mod memory;
mod names;
mod programs;
mod record;
mod record_columns;
mod words;

pub use code::Code;
pub use copies::copy_of;
pub use digits::{are_digits, decimal_text, last_digits, number_in_digits, small_number_in_digits};
pub use exact::{Duplicate, SameAs};
pub use lists::{ByteList, ItemList, Records, RoomyList};
pub use memory::NoMemory;
pub use names::{CheckId, DsName, Name8, Volser};
pub use programs::{Finish, Heads, NextDue, Output, UnitDone, Write};
pub use record::Rec;
pub use record_columns::{columns, fitted};
pub use words::{
    behind_word, first_word, is_blank, plain_number, trimmed, without_return, word_length,
};
