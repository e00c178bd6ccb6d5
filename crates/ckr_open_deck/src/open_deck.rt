//! The cards of the open deck.
ghost use Rattle.std.specs.Prelude.{◌≡◌, ◌≤◌, ◌<◌, ◌*◌, ◌++◌, ◌==◌, ◌%◌, [], None, length, IfSome, OnOk, OnErr};
ghost use Rattle.ckr_cards.specs.Card.{stored_line};

use ckr_base::NoMemory;
use ckr_cards::StoredCard;
use ckr_jcl_decks::MOST_CARDS;
use std::alloc::Global;
use std::marker::Model;

/// A line behind these cards, as which its card is kept: how many bytes of it, at most 80, and whether it was longer.
#[derive(Clone, Copy)]
pub(crate) struct PackedLine {
    pub length: u8,
    pub long: bool,
}

/// The cards of the open deck, one behind the other. It is seen as their bytes, 81 for each: 80 columns, and 1 where the line was longer.
///
/// A deck that can still be accepted has its cards as they are submitted. Of a deck with more cards than it may have the further ones are
/// kept as their lines: at most 80 bytes of each as they came, and two more.
#[derive(Drop)]
pub struct OpenDeck {
    pub(crate) cards: Vec<StoredCard>,
    pub(crate) lines: Vec<PackedLine>,
    pub(crate) text: Vec<u8>,
}

impl Model for OpenDeck {
    ghost use Rattle.std.specs.Prelude.{ℕ, List, ◌++◌};
    ghost use Rattle.std.specs.List.{flat_map};
    ghost use Rattle.std.specs.Coded.{coded_ℕ, coded_list};
    ghost use Rattle.ckr_open_deck.specs.PackedLines.{IsPacked, unpacked};

    ghost Value = { List ℕ };

    ghost coded = { coded_list coded_ℕ };

    ghost view = { λ a. flat_map (λ card. card) (a.cards.items ++ unpacked a.lines.items a.text.items) };

    ghost invariant = { λ a. IsPacked a.cards.items a.lines.items a.text.items };
}

impl OpenDeck {
    /// No card is in it. It takes no memory.
    pub fn new(alloc: Global) -> OpenDeck
        ensures { result ≡ [] }
    {
        OpenDeck {
            cards: Vec::new(alloc),
            lines: Vec::new(alloc),
            text: Vec::new(alloc),
        }
    }

    /// The bytes of all cards: what is submitted. None exactly where there are more cards than a deck may have.
    pub fn bytes(&self) -> Option<&[u8]>
        ensures value { IfSome result (λ bytes. bytes.now ≡ self.now) }
        ensures whole { length self.now % 81 ≡ 0 }
        ensures few { IfSome result (λ bytes. length bytes.now ≤ 81 * 100000) }
        ensures many { result ≡ None → 81 * 100000 < length self.now }
    {
        if self.cards.len() > MOST_CARDS as usize {
            return None;
        }
        Some(self.cards.as_flattened())
    }

    /// How many cards are in it.
    pub fn count(&self) -> usize
        ensures { 81 * result ≡ length self.now }
    {
        self.cards.len() + self.lines.len()
    }

    /// Whether no card is in it.
    pub fn is_empty(&self) -> bool
        ensures { result ≡ (length self.now == 0) }
    {
        self.cards.is_empty()
    }

    /// The card of a line more, behind the others. `NoMemory`: nothing has changed then.
    pub fn push(&mut self, line: &[u8], card: StoredCard) -> Result<(), NoMemory>
        requires { card ≡ stored_line line.now }
        ensures ok { OnOk result (self.new ≡ self.old ++ card) }
        ensures err { OnErr result (self.new ≡ self.old) }
    {
        if self.cards.len() > MOST_CARDS as usize {
            return self.pack(line);
        }
        self.cards.push(card)?;
        Ok(())
    }

    /// The card of a line more, behind the others, of which there are more than a deck may have. `NoMemory`: nothing has changed then.
    fn pack(&mut self, line: &[u8]) -> Result<(), NoMemory>
        requires { 81 * 100000 < length self.old }
        ensures ok { OnOk result (self.new ≡ self.old ++ stored_line line.now) }
        ensures err { OnErr result (self.new ≡ self.old) }
    {
        let front = &line[..line.len().min(80)];
        self.lines.push(PackedLine {
            length: front.len() as u8,
            long: line.len() > 80,
        })?;
        if self.text.extend_from_slice(front).is_err() {
            let _ = self.lines.pop();
            return Err(NoMemory);
        }
        Ok(())
    }

    /// Takes all cards out. Its memory stays for those of the next deck.
    pub fn clear(&mut self)
        ensures { self.new ≡ [] }
    {
        self.cards.clear();
        self.lines.clear();
        self.text.clear();
    }
}
