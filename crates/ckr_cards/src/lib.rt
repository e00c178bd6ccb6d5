//! The cards of a deck: columns, fields, continuation, in-stream records, statements and operands,
//! and the cut of a stream into decks.
#![tactic(auto)]

mod card;
mod columns;
mod cutter;
mod field;
mod kind;
mod laws;
mod lines;
mod operand;
mod parts;
mod statement;

pub use card::{Card, StoredCard, stored_line};
pub use cutter::{CutState, Cutter, Line};
pub use field::FieldSpot;
pub use kind::{StatementKind, is_continuation};
pub use laws::{
    each_card_stands_in_one_statement, each_line_stands_in_one_item, items_are_handed_over_in_turn,
    items_end_in_turn, lines_are_cut_in_turn, stored_lines_are_cards,
};
pub use lines::{InStream, calls_again, calls_first, is_record};
pub use operand::{Operand, Operands};
pub use parts::{Reading, part_length};
pub use statement::{CardList, Statement, read_statement, statement_of_cards};
