//! The fields of the formats on disk, both ways: each value has one spelling, and nothing else is read.
#![tactic(auto)]

mod error;
mod reader;
mod writer;

pub use error::ReadError;
pub use reader::Fields;
pub use writer::{
    put_byte, put_bytes, put_code, put_flag, put_four_bytes, put_record_bytes, put_short_text,
    put_two_bytes,
};
