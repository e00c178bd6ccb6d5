//! Names, serials and identifiers, each seen as its text.
//!
//! They are ordered by their bytes, a prefix first. None is `Copy`; `copied` gives another one, and takes no memory.
ghost use Rattle.std.specs.Prelude.{◌≡◌, ◌↔◌, IsTrue, IsSome, IfSome};
ghost use Rattle.std.specs.Ordering.{nat_cmp, eq_by_cmp};
ghost use Rattle.std.specs.Cmp.Lexicographic.{slice_cmp};
ghost use Rattle.ckr_base.specs.Grammar.{is_name8, is_ds_name, is_serial, is_check_id};

use crate::copies::copy_of;
use crate::grammar;
use arrayvec::ArrayVec;
use std::marker::Model;

/// The name of a job, a step or a DD: 1 to 8 of A to Z, 0 to 9, `@`, `#` and `$`, the first no digit (IBM GC28-6704).
#[derive(PartialEq, Eq, PartialOrd, Ord, Drop)]
pub struct Name8 {
    bytes: ArrayVec<u8, 8>,
}

impl Model for Name8 {
    ghost use Rattle.std.specs.Prelude.{ℕ, List, IsTrue};
    ghost use Rattle.std.specs.Coded.{coded_ℕ, coded_list};
    ghost use Rattle.ckr_base.specs.Grammar.{is_name8};

    ghost Value = { List ℕ };

    ghost coded = { coded_list coded_ℕ };

    ghost view = { λ a. a.bytes.items };

    ghost invariant = { λ a. IsTrue (is_name8 a.bytes.items) };

    ghost inverse = { λ text. record { bytes = record { items = text } } };
}

impl Name8 {
    /// The name that is written so. `None` exactly where the text isn't in the grammar of such names.
    pub fn read(text: &[u8]) -> Option<Name8>
        ensures grammar { IsSome result ↔ IsTrue (is_name8 text.now) }
        ensures value { IfSome result (λ read. read ≡ text.now) }
    {
        if !grammar::is_name8(text) {
            return None;
        }
        Some(Name8 {
            bytes: copy_of(text),
        })
    }

    /// The text that it was read from.
    pub fn text(&self) -> &[u8]
        ensures value { result.now ≡ self.now }
        ensures grammar { IsTrue (is_name8 self.now) }
    {
        self.bytes.as_slice()
    }

    /// Another one of the same text, which takes no memory.
    pub fn copied(&self) -> Name8
        ensures { result ≡ self.now }
    {
        Name8 {
            bytes: copy_of(self.bytes.as_slice()),
        }
    }
}

/// The name of a data set: names of 1 to 8 bytes joined by periods, in at most 44 bytes (IBM GC28-6704).
#[derive(PartialEq, Eq, PartialOrd, Ord, Drop)]
pub struct DsName {
    bytes: ArrayVec<u8, 44>,
}

impl Model for DsName {
    ghost use Rattle.std.specs.Prelude.{ℕ, List, IsTrue};
    ghost use Rattle.std.specs.Coded.{coded_ℕ, coded_list};
    ghost use Rattle.ckr_base.specs.Grammar.{is_ds_name};

    ghost Value = { List ℕ };

    ghost coded = { coded_list coded_ℕ };

    ghost view = { λ a. a.bytes.items };

    ghost invariant = { λ a. IsTrue (is_ds_name a.bytes.items) };

    ghost inverse = { λ text. record { bytes = record { items = text } } };
}

impl DsName {
    /// The name that is written so. `None` exactly where the text isn't in the grammar of such names.
    pub fn read(text: &[u8]) -> Option<DsName>
        ensures grammar { IsSome result ↔ IsTrue (is_ds_name text.now) }
        ensures value { IfSome result (λ read. read ≡ text.now) }
    {
        if !grammar::is_ds_name(text) {
            return None;
        }
        Some(DsName {
            bytes: copy_of(text),
        })
    }

    /// The text that it was read from.
    pub fn text(&self) -> &[u8]
        ensures value { result.now ≡ self.now }
        ensures grammar { IsTrue (is_ds_name self.now) }
    {
        self.bytes.as_slice()
    }

    /// Whether the names are the same.
    pub fn is_same(&self, other: &DsName) -> bool
        ensures { result ≡ eq_by_cmp (slice_cmp nat_cmp) self.now other.now }
    {
        self.cmp(other).is_eq()
    }

    /// Another one of the same text, which takes no memory.
    pub fn copied(&self) -> DsName
        ensures { result ≡ self.now }
    {
        DsName {
            bytes: copy_of(self.bytes.as_slice()),
        }
    }
}

/// The serial of a volume: 1 to 6 of A to Z, 0 to 9, `@`, `#`, `$` and the hyphen (IBM GC28-6704).
#[derive(PartialEq, Eq, PartialOrd, Ord, Drop)]
pub struct Volser {
    bytes: ArrayVec<u8, 6>,
}

impl Model for Volser {
    ghost use Rattle.std.specs.Prelude.{ℕ, List, IsTrue};
    ghost use Rattle.std.specs.Coded.{coded_ℕ, coded_list};
    ghost use Rattle.ckr_base.specs.Grammar.{is_serial};

    ghost Value = { List ℕ };

    ghost coded = { coded_list coded_ℕ };

    ghost view = { λ a. a.bytes.items };

    ghost invariant = { λ a. IsTrue (is_serial a.bytes.items) };

    ghost inverse = { λ text. record { bytes = record { items = text } } };
}

/// An `ArrayVec` of serials wants some serial for its empty places.
impl Default for Volser {
    fn default() -> Volser {
        Volser {
            bytes: copy_of(b"A"),
        }
    }
}

impl Volser {
    /// The serial that is written so. `None` exactly where the text isn't in the grammar of serials.
    pub fn read(text: &[u8]) -> Option<Volser>
        ensures grammar { IsSome result ↔ IsTrue (is_serial text.now) }
        ensures value { IfSome result (λ read. read ≡ text.now) }
    {
        if !grammar::is_serial(text) {
            return None;
        }
        Some(Volser {
            bytes: copy_of(text),
        })
    }

    /// The text that it was read from.
    pub fn text(&self) -> &[u8]
        ensures value { result.now ≡ self.now }
        ensures grammar { IsTrue (is_serial self.now) }
    {
        self.bytes.as_slice()
    }

    /// Whether the serials are the same.
    pub fn is_same(&self, other: &Volser) -> bool
        ensures { result ≡ eq_by_cmp (slice_cmp nat_cmp) self.now other.now }
    {
        self.cmp(other).is_eq()
    }

    /// Another one of the same text, which takes no memory.
    pub fn copied(&self) -> Volser
        ensures { result ≡ self.now }
    {
        Volser {
            bytes: copy_of(self.bytes.as_slice()),
        }
    }
}

/// The identifier of a checkpoint: 1 to 16 of A to Z, 0 to 9, `@`, `#` and `$` (IBM GC28-6708).
#[derive(PartialEq, Eq, Drop)]
pub struct CheckId {
    bytes: ArrayVec<u8, 16>,
}

impl Model for CheckId {
    ghost use Rattle.std.specs.Prelude.{ℕ, List, IsTrue};
    ghost use Rattle.std.specs.Coded.{coded_ℕ, coded_list};
    ghost use Rattle.ckr_base.specs.Grammar.{is_check_id};

    ghost Value = { List ℕ };

    ghost coded = { coded_list coded_ℕ };

    ghost view = { λ a. a.bytes.items };

    ghost invariant = { λ a. IsTrue (is_check_id a.bytes.items) };

    ghost inverse = { λ text. record { bytes = record { items = text } } };
}

impl CheckId {
    /// The identifier that is written so. `None` exactly where the text isn't in the grammar of identifiers.
    pub fn read(text: &[u8]) -> Option<CheckId>
        ensures grammar { IsSome result ↔ IsTrue (is_check_id text.now) }
        ensures value { IfSome result (λ read. read ≡ text.now) }
    {
        if !grammar::is_check_id(text) {
            return None;
        }
        Some(CheckId {
            bytes: copy_of(text),
        })
    }

    /// The text that it was read from.
    pub fn text(&self) -> &[u8]
        ensures value { result.now ≡ self.now }
        ensures grammar { IsTrue (is_check_id self.now) }
    {
        self.bytes.as_slice()
    }

    /// Another one of the same text, which takes no memory.
    pub fn copied(&self) -> CheckId
        ensures { result ≡ self.now }
    {
        CheckId {
            bytes: copy_of(self.bytes.as_slice()),
        }
    }
}
