//! The operators who take office later.
ghost use Rattle.std.specs.Prelude.{◌≡◌, ◌∷◌, ◌+◌, [], MatchOption, map};

use ckr_console::Operator;
use std::alloc::Global;
use std::marker::Model;
use std::vec::IntoIter;

/// The operators who take office next, in order, and the place of the one in office among all, counted from 1, or 0 where there was none.
#[derive(Drop)]
pub struct Roster<O: Operator> {
    later: IntoIter<O, Global>,
    place: u64,
}

impl<O: Operator> Model for Roster<O> {
    ghost use Rattle.std.specs.Prelude.{◌≡◌, ◌+◌, ◌<◌, ◌^◌, length, map};
    ghost use Rattle.std.specs.Vec.Iter.{into_iter_items, into_iter_len};
    ghost use Rattle.ckr_session.specs.Staff.{RosterView};

    ghost Value = { RosterView };

    ghost view = { λ a. record { later = map O.answering (into_iter_items a.later); place = a.place } };

    ghost invariant = { λ a. (into_iter_len a.later ≡ length (into_iter_items a.later)) × (a.place + into_iter_len a.later < 2 ^ 64) };
}

impl<O: Operator> Roster<O> {
    /// None of these has been in office yet. It takes no memory.
    pub fn new(operators: Vec<O>) -> Roster<O>
        ensures later { result.later ≡ map O.answering operators.items }
        ensures place { result.place ≡ 0 }
    {
        Roster {
            later: operators.into_iter(),
            place: 0,
        }
    }

    /// The place of the operator in office among all, counted from 1.
    pub fn place(&self) -> u64
        ensures { result ≡ self.now.place }
    {
        self.place
    }

    /// The operator who takes office now. None where there is no other.
    pub fn next(&mut self) -> Option<O>
        ensures { MatchOption result ((self.old.later ≡ []) × (self.new ≡ self.old))
            (λ operator. (self.old.later ≡ O.answering operator ∷ self.new.later) × (self.new.place ≡ self.old.place + 1)) }
    {
        let operator = self.later.next()?;
        self.place += 1;
        Some(operator)
    }
}
