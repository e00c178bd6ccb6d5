//! The lengths that a commit gives to a step's outputs.
ghost use Rattle.std.specs.Prelude.{◌≡◌, ◌≤◌, [], List, length, true};
ghost use Rattle.std.specs.List.{list_all};
ghost use Rattle.ckr_jcl.specs.declared.deck.Cond.{Cond as Test};
ghost use Rattle.ckr_library.specs.Catalog.{with_length, HasSet, KeepsEntryRoom};
ghost use Rattle.ckr_library.specs.NameMaps.{entry_at, with_changed};
ghost use Rattle.ckr_meaning.specs.EffectiveJob.{name_of};
ghost use Rattle.ckr_points_library.specs.Commit.{committed, is_named, output_name, output_names, AreWithinSpace, IsWithinSpace};
ghost use Rattle.ckr_points_library.specs.Holdings.{owned};

use crate::allotment::is_output;
use ckr_base::DsName;
use ckr_jcl::{Dd, Step};
use ckr_library::Library;
use ckr_meaning::library_name;

/// The name of the data set of a DD, if it is an output: the step puts records or checkpoints into it.
pub fn output_name(dd: &Dd, root: u32, owner: u32, step: &Step) -> Option<DsName>
    requires root { root ≤ 9999999 }
    requires owner { owner ≤ 9999999 }
    ensures { (tests : List Test) → result ≡ output_name root (owned step.now owner tests) dd.now }
{
    if is_output(dd.role) {
        library_name(dd, root, owner, &step.name)
    } else {
        None
    }
}

/// A name isn't empty. It does nothing.
pub fn has_text(name: &DsName)
    ensures { is_named name.now ≡ true }
{
    let _ = name.text();
}

/// Sets the length of a data set, if it is there.
fn set_length(name: &DsName, length: u32, library: &mut Library)
    requires { IsWithinSpace length (entry_at library.old.sets name.now) }
    ensures sets { library.new.sets ≡ with_changed name.now (with_length length) library.old.sets }
    ensures room { library.new.room ≡ library.old.room }
    ensures entries { KeepsEntryRoom library.old library.new }
{
    if library.get(name).is_some() {
        library.set_length(name, length);
    }
}

/// Gives each output of a step its length, in records, in the order of the DDs; entries that end beyond it are dropped. There is
/// one length for each output that has a data set, at most its space. A name that isn't in the library changes nothing. It takes
/// no memory (this project's profile).
pub fn commit_lengths(step: &Step, root: u32, owner: u32, lengths: &[u32], library: &mut Library)
    requires root { root ≤ 9999999 }
    requires owner { owner ≤ 9999999 }
    requires lengths { length lengths.now ≡ length (output_names root (owned step.now owner [])) }
    requires space { AreWithinSpace (output_names root (owned step.now owner [])) lengths.now library.old.sets }
    ensures sets { (tests : List Test) → library.new.sets ≡ committed with_length (output_names root (owned step.now owner tests)) lengths.now library.old.sets }
    ensures room { library.new.room ≡ library.old.room }
    ensures entries { KeepsEntryRoom library.old library.new }
    ensures named { list_all is_named (output_names root (owned step.now owner [])) ≡ true }
{
    let mut place = 0;
    for dd in step.dds.as_slice() {
        if let Some(name) = output_name(dd, root, owner, step) {
            has_text(&name);
            set_length(&name, lengths[place], library);
            place += 1;
        }
    }
}
