//! What the desk is asked, and what becomes of a deck.

use ckr_base::Code;

/// One turn of an initiator.
#[derive(Clone, Copy)]
pub struct Turn {
    /// The initiator's number, from 1.
    pub initiator: u8,
    /// The code with which the running step is to fail. Its number is at most 4095.
    pub fail: Option<Code>,
}

/// What becomes of a deck that is submitted.
#[derive(Clone, Copy)]
pub enum Submitted {
    /// It is the job of this number, from 1.
    Job(u32),
    /// It is refused by the rule of this number, at this card, counted from 1. Number 0 is that of a deck whose job would
    /// have a number of eight digits.
    Refused { number: u8, card: u32 },
}
