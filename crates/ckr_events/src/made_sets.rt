//! The data sets that a step made.
ghost use Rattle.std.specs.Prelude.{◌≡◌, ◌+◌, ◌≤◌, ◌<◌, [], ◌∷◌, ◌++◌, OnErr, OnOk, length};

use crate::Made;
use ckr_base::NoMemory;
use std::alloc::Global;
use std::marker::Model;

/// Where the data sets of a step were made, at most 80, in the order of its DDs, seen as an `ArrayVec` is. They stand apart from the
/// event that tells them, so that no event is large.
#[derive(Drop)]
pub struct MadeSets {
    items: Vec<Made>,
}

impl Model for MadeSets {
    ghost use Rattle.std.specs.Prelude.{◌≤◌, length};
    ghost use Rattle.arrayvec.specs.ArrayVec.{ArrayVec as Items, array_vec_code};
    ghost use Rattle.ckr_events.specs.declared.event.Made.{Made as MadeSet};
    ghost use Rattle.ckr_events.specs.contracts.event.Made.{the_row};

    ghost Value = { Items MadeSet };

    ghost coded = { array_vec_code the_row.coded };

    ghost view = { λ a. record { items = a.items.items } };

    ghost invariant = { λ a. length a.items.items ≤ 80 };
}

impl MadeSets {
    /// None.
    pub fn new(alloc: Global) -> Self
        ensures { result.items ≡ [] }
    {
        MadeSets {
            items: Vec::new(alloc),
        }
    }

    /// All of them.
    pub fn as_slice(&self) -> &[Made]
        ensures items { result.now ≡ self.now.items }
        ensures few { length self.now.items ≤ 80 }
    {
        self.items.as_slice()
    }

    /// Puts one behind the others, of which there are fewer than 80.
    pub fn push(&mut self, made: Made) -> Result<(), NoMemory>
        requires { length self.old.items < 80 }
        ensures ok { OnOk result (self.new.items ≡ self.old.items ++ made ∷ []) }
        ensures len { OnOk result (length self.new.items ≡ length self.old.items + 1) }
        ensures err { OnErr result (self.new ≡ self.old) }
    {
        self.items.push(made)?;
        Ok(())
    }
}
