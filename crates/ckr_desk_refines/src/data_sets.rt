//! The data sets of a desk: their lines in the order of their names, and those that no run holds.
ghost use Rattle.std.specs.Prelude.{◌≡◌, ℕ, List, slice_get};
ghost use Rattle.std.specs.Option.{option_copied, option_map};
ghost use Rattle.ckr_library.specs.declared.sets.DataSet.{DataSet as SetOfLibrary};
ghost use Rattle.ckr_desk_refines.specs.Standing.{StandsForDesk};
ghost use Rattle.ckr_desk_turn.specs.Desk.{DeskModel};
ghost use Rattle.ckr_volumes.specs.declared.layout.Layout.{Layout};
ghost use Rattle.ckr_volumes.specs.Records.{records_on};
ghost use Rattle.ckr_desk_refines.specs.Lengths.{line_seen};
ghost use Rattle.ckr_desk_refines.specs.Listing.{free_set, is_held, listed, records_of};

use crate::holders::is_held_in_any;
use crate::lengths::length_now;
use ckr_base::DsName;
use ckr_desk_memory::{Jobs, copy_of_set};
use ckr_library::{Content, DataSet};

/// A data set with its name, and with the length that it has by now.
#[derive(Drop)]
pub struct Listed {
    pub name: DsName,
    /// What the library knows of it; its length is the one that it has by now.
    pub set: DataSet,
}

/// The line of a data set of the library.
fn line_of(jobs: &Jobs, name: &DsName, set: &DataSet) -> Listed
    ensures { (result.name, result.set) ≡ line_seen jobs.now.running name.now set.now }
{
    let length = length_now(jobs, name, set);
    let mut set = copy_of_set(set);
    set.length = length;
    Listed {
        name: name.copied(),
        set,
    }
}

/// The data set at a place of the library, counted from 0 in the order of names, with the records that running steps have written
/// since the last event. None behind the last one. It takes no memory.
pub fn set_at(jobs: &Jobs, place: u32) -> Option<Listed>
    ensures { (layout : Layout) (image : List ℕ) (desk : DeskModel) → StandsForDesk layout jobs.now image desk → option_map (λ line. (line.name, line.set)) result ≡ slice_get (listed desk) place }
{
    let library = jobs.library();
    let name = library.name_at(place)?;
    let set = library.get(name)?;
    Some(line_of(jobs, name, set))
}

/// Whether a run holds the name of a data set: it is selected and not ended, and its submitted deck has the name, SYSCHK's included, by the
/// root of its job and the owners of its steps. It takes no memory.
pub fn is_held(jobs: &Jobs, name: &DsName) -> bool
    ensures { result ≡ is_held jobs.now.tables.desk name.now }
{
    let tables = jobs.tables();
    is_held_in_any(tables, tables.runs(), name)
}

/// The data set of a name that no run holds, unless it is one for checkpoint entries; its records may be read. None else. It takes no
/// memory.
pub fn free_set<'a>(jobs: &'a Jobs, name: &DsName) -> Option<&'a DataSet>
    ensures set { option_copied result ≡ free_set jobs.now.tables.desk name.now }
    ensures records { (desk : DeskModel) (image : List ℕ) (layout : Layout) → StandsForDesk layout jobs.now image desk → option_map (λ (set : SetOfLibrary). records_on image layout set set.length) (option_copied result) ≡ records_of desk name.now }
{
    let set = jobs.library().get(name)?;
    match set.content {
        Content::Plain if is_held(jobs, name) => None,
        Content::Plain => Some(set),
        Content::Checkpoints => None,
    }
}
