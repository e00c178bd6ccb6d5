//! An entry that a data set keeps, with its point.
ghost use Rattle.std.specs.Prelude.{◌≡◌, ◌==◌, ◌&&◌, false};
ghost use Rattle.std.specs.Option.{option_copied, option_map, option_map_or};
ghost use Rattle.ckr_jcl.specs.declared.deck.Step.{Step as StepOfDeck};
ghost use Rattle.ckr_library.specs.NameMaps.{same_name};
ghost use Rattle.ckr_points.specs.Restart.{kept_at};
ghost use Rattle.ckr_points_tables.specs.Entries.{entry_in};

use crate::Tables;
use crate::restart::{entry_for, marks_of};
use ckr_base::{CheckId, DsName};
use ckr_entry::Mark;
use ckr_jcl::{Job, Step};
use ckr_library::Kept;
use ckr_points::{is_of_step, kept_under};
use ckr_points_runs::WrittenEntry;

/// An entry that a data set keeps.
#[derive(Clone, Copy)]
pub struct EntryNow<'a> {
    pub kept: &'a Kept,
    /// The entry as its run wrote it, with its point: the last one that it wrote there. None where it wrote none there, as no entry
    /// of a desk: this one has no point.
    pub written: Option<&'a WrittenEntry>,
}

impl Tables {
    /// The first entry of an identifier that a data set keeps, with its point. None exactly where it keeps none.
    pub fn entry_at(&self, set: &DsName, id: &CheckId) -> Option<EntryNow<'_>>
        ensures { option_map entry_in result ≡ kept_at self.now.desk.sets set.now id.now }
    {
        let Some(kept) = kept_under(&self.library, set, id) else {
            return None;
        };
        Some(EntryNow {
            kept,
            written: entry_for(self.writings.as_slice(), set, kept),
        })
    }
}

impl<'a> EntryNow<'a> {
    /// The marks of its point.
    pub fn marks(&self) -> &'a [Mark]
        ensures { result.now ≡ (entry_in self.now).point.marks }
    {
        marks_of(self.written)
    }

    /// Whether its point is one of a run, in a step of this number.
    pub fn is_point_of(&self, run: u32, step: u8) -> bool
        ensures { result ≡ ((entry_in self.now).point.run == run && (entry_in self.now).point.step == step) }
    {
        match self.written {
            Some(written) => written.run == run && written.step == step,
            None => run == 0 && step == 0,
        }
    }

    /// Whether its point is of the job of a deck's name, and of a step of that name, if there is one.
    pub fn is_of_step(&self, deck: &Job, step: Option<&Step>) -> bool
        ensures { result ≡ (same_name (entry_in self.now).point.job deck.now.name && option_map_or (λ (own : StepOfDeck). same_name (entry_in self.now).point.step_name own.name) (option_copied step.entry) false) }
    {
        let _ = deck.name.text();
        match self.written {
            Some(written) => is_of_step(&written.job, &written.step_name, deck, step),
            None => false,
        }
    }
}
