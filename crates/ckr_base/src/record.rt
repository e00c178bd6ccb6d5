//! A record of a data set, or a card of a deck.
ghost use Rattle.std.specs.Prelude.{◌≡◌, ◌≤◌, [], length};

use crate::copies::copy_of;
use arrayvec::ArrayVec;
use std::marker::Model;

/// A record of at most 256 bytes, seen as its bytes. Records are ordered by their bytes, a prefix first.
#[derive(PartialEq, Eq, Drop)]
pub struct Rec {
    bytes: ArrayVec<u8, 256>,
}

impl Model for Rec {
    ghost use Rattle.std.specs.Prelude.{ℕ, List, ◌≤◌, length};
    ghost use Rattle.std.specs.Coded.{coded_ℕ, coded_list};

    ghost Value = { List ℕ };

    ghost coded = { coded_list coded_ℕ };

    ghost view = { λ a. a.bytes.items };

    ghost invariant = { λ a. length a.bytes.items ≤ 256 };

    ghost inverse = { λ bytes. record { bytes = record { items = bytes } } };
}

/// The empty record: an `ArrayVec` of records wants one for its empty places.
impl Default for Rec {
    ghost is_default = { λ bytes. bytes ≡ [] };

    fn default() -> Rec {
        Rec {
            bytes: ArrayVec::new(),
        }
    }
}

impl Rec {
    /// The record of these bytes, of which there are at most 256.
    pub fn of(bytes: &[u8]) -> Rec
        requires { length bytes.now ≤ 256 }
        ensures { result ≡ bytes.now }
    {
        Rec {
            bytes: copy_of(bytes),
        }
    }

    /// Its bytes.
    pub fn bytes(&self) -> &[u8]
        ensures value { result.now ≡ self.now }
        ensures fits { length self.now ≤ 256 }
    {
        self.bytes.as_slice()
    }

    /// Another one of the same bytes, which takes no memory.
    pub fn copied(&self) -> Rec
        ensures { result ≡ self.now }
    {
        Rec {
            bytes: copy_of(self.bytes.as_slice()),
        }
    }
}
