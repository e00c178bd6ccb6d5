//! The reader of installation cards.
ghost use Rattle.std.specs.Prelude.{◌≡◌, ◌<◌, ◌+◌, ◌^◌, ℕ, List, [], ◌∷◌, IfOk, Ok, Err};
ghost use Rattle.std.specs.Bool.{OnTrue, OnFalse};
ghost use Rattle.ckr_volumes.specs.Header.{IsHeader};
ghost use Rattle.ckr_desk_format.specs.Installation.{nothing_said, by_line, by_lines, by_said, read_on, IsSoundLayout};

use crate::cards::{is_blank_line, read_card};
use crate::disk_layout::{Said, first_over, layout_of, may_follow, put, unsaid_bytes};
use ckr_volumes::Layout;

/// Why cards say no layout.
#[derive(Clone, Copy, PartialEq, Eq, Debug)]
pub enum CardRefusal {
    /// The card on this line, counted from 1, is wrong; or, where none is, it is the first at which the sizes are more
    /// than the disk.
    Line(u32),
    /// No card is wrong, and none says a volume.
    NoVolume,
}

/// A reader of installation cards, line by line. Blank lines are counted and say nothing.
#[derive(Drop)]
pub struct Installation {
    /// How many lines it has read.
    pub lines: u32,
    /// The first wrong line.
    pub wrong: Option<u32>,
    /// What the cards say, up to the first wrong one.
    pub said: Said,
}

/// Adds what a line says. Answers whether it may stand there; otherwise nothing is added.
fn follow(said: &mut Said, number: u32, line: &[u8]) -> bool
    requires { IsSoundLayout said.old }
    ensures follows { OnTrue result (by_line number said.old line.now ≡ Ok said.new) }
    ensures wrong { OnFalse result (by_line number said.old line.now ≡ Err number) }
    ensures sound { IsSoundLayout said.new }
{
    if is_blank_line(line) {
        return true;
    }
    match read_card(line) {
        Some(card) if may_follow(said, &card) => {
            put(said, number, card);
            true
        }
        _ => false,
    }
}

impl Installation {
    /// A reader that has read nothing.
    pub fn new() -> Installation
        ensures read { (rest : List (List ℕ)) → read_on result rest ≡ by_lines 1 nothing_said rest }
        ensures lines { result.lines ≡ 0 }
        ensures sound { IsSoundLayout result.said }
    {
        Installation {
            lines: 0,
            wrong: None,
            said: Said::new(),
        }
    }

    /// Reads the next line, given without its end.
    pub fn line(&mut self, text: &[u8])
        requires few { self.old.lines + 1 < 2 ^ 32 }
        requires sound { IsSoundLayout self.old.said }
        ensures read { (rest : List (List ℕ)) → read_on self.new rest ≡ read_on self.old (text.now ∷ rest) }
        ensures lines { self.new.lines ≡ self.old.lines + 1 }
        ensures sound { IsSoundLayout self.new.said }
    {
        self.lines += 1;
        if self.wrong.is_none() && !follow(&mut self.said, self.lines, text) {
            self.wrong = Some(self.lines);
        }
    }

    /// The layout that the lines say for a disk of so many bytes.
    ///
    /// `CardRefusal`: exactly by the lines and the size, as its variants say.
    pub fn finish(self, size: u64) -> Result<Layout, CardRefusal>
        requires { IsSoundLayout self.said }
        ensures exact { result ≡ by_said size (read_on self []) }

        // A header can have the layout, and it fits the disk.
        ensures header { IfOk result (λ layout. IsHeader layout size) }
    {
        if let Some(line) = self.wrong {
            return Err(CardRefusal::Line(line));
        }
        if self.said.volumes.is_empty() {
            return Err(CardRefusal::NoVolume);
        }
        let taken = unsaid_bytes(self.said.book);
        match first_over(size, taken, self.said.shares.as_slice()) {
            Some(line) => Err(CardRefusal::Line(line)),
            None => Ok(layout_of(self.said)),
        }
    }
}
