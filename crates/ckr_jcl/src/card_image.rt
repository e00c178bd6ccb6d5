//! A record in a deck.
ghost use Rattle.std.specs.Prelude.{◌≡◌, ◌↔◌, IsTrue, IfOk};

use ckr_base::{Duplicate, NoMemory, Rec, SameAs};
use std::alloc::Global;
use std::marker::Model;

/// A record in a deck, which is the 80 columns of its card, seen as its bytes. A list of such records is packed: each takes 80 bytes.
#[derive(PartialEq, Eq, Drop)]
pub struct CardImage {
    columns: [u8; 80],
}

impl Model for CardImage {
    ghost use Rattle.std.specs.Prelude.{◌≡◌, ℕ, List, length};
    ghost use Rattle.std.specs.Coded.{coded_ℕ, coded_list};

    ghost Value = { List ℕ };

    ghost coded = { coded_list coded_ℕ };

    ghost view = { λ a. a.columns };

    ghost invariant = { λ a. length a.columns ≡ 80 };

    ghost inverse = { λ bytes. record { columns = bytes } };
}

impl CardImage {
    /// The record of a card with these columns.
    pub fn of(columns: &[u8; 80]) -> CardImage
        ensures { result ≡ columns.now }
    {
        CardImage { columns: *columns }
    }

    /// The record as programs take it.
    pub fn record(&self) -> Rec
        ensures { result ≡ self.now }
    {
        Rec::of(&self.columns)
    }
}

impl Duplicate for CardImage {
    fn duplicate(&self, _alloc: Global) -> Result<CardImage, NoMemory> {
        Ok(CardImage::of(&self.columns))
    }
}

impl SameAs for CardImage {
    fn is_same_as(&self, other: &CardImage) -> bool {
        self == other
    }
}
