//! The next records of a step's inputs.
ghost use Rattle.std.specs.Prelude.{◌≡◌, ◌≤◌, ◌<◌, IsTrue, IsSome, IfOk, slice_get};
ghost use Rattle.ckr_outside.specs.Disk.{OnlyReads, HasCause};
ghost use Rattle.ckr_volumes.specs.Layouts.{is_laid_out, disk_needed, StandsIn};
ghost use Rattle.ckr_meaning.specs.States.{first_of, second_of};
ghost use Rattle.ckr_steps.specs.Inputs.{AreStored, AreThere, IsSourceThere, head_of_set, head_of, heads_of};
ghost use Rattle.std.specs.Prelude.{Some};

use crate::files::{Files, RecordSource};
use crate::units;
use ckr_base::{Heads, Rec};
use ckr_entry::State;
use ckr_jcl::Cards;
use ckr_library::{DataSet, Library};
use ckr_outside::{Disk, Failed};
use ckr_volumes::{Layout, read_record};

/// The record of a deck at a place, counted from 0.
fn card_at(cards: &Cards, place: u32) -> Option<Rec>
    ensures { result ≡ slice_get cards.now place }
{
    match cards.as_slice().get(place as usize) {
        Some(card) => Some(card.record()),
        None => None,
    }
}

/// The next record of a data set of which so many were taken.
fn head_of_set<D: Disk>(
    disk: &mut D,
    layout: &Layout,
    set: &DataSet,
    taken: u32,
) -> Result<Option<Rec>, Failed>
    requires layout { IsTrue (is_laid_out layout.now) }
    requires fits { disk_needed layout.now ≤ D.size disk.old }
    requires stands { StandsIn layout.now set.now }
    ensures read { D.told → IfOk result (λ head. head ≡ head_of_set (D.content disk.old) layout.now (Some set.now) taken) }
    ensures few { IfOk result (λ head. IsSome head → taken < 1000000) }
    ensures only_reads { OnlyReads D.content D.may_leave D.moment D.left_since disk.old disk.new }
    ensures size { D.size disk.new ≡ D.size disk.old }
    ensures cause { HasCause (D.faults disk.old) (D.faults disk.new) result }
{
    if taken < set.length {
        let head = read_record(disk, layout, set, taken)?;
        Ok(Some(head))
    } else {
        Ok(None)
    }
}

/// The next record of an input.
fn head_of<D: Disk>(
    disk: &mut D,
    layout: &Layout,
    library: &Library,
    source: &RecordSource,
    taken: u32,
) -> Result<Option<Rec>, Failed>
    requires layout { IsTrue (is_laid_out layout.now) }
    requires fits { disk_needed layout.now ≤ D.size disk.old }
    requires stored { AreStored layout.now library.now }
    requires there { IsSourceThere library.now source.now }
    ensures read { D.told → IfOk result (λ head. head ≡ head_of (D.content disk.old) layout.now library.now source.now taken) }
    ensures few { IfOk result (λ head. IsSome head → taken < 1000000) }
    ensures only_reads { OnlyReads D.content D.may_leave D.moment D.left_since disk.old disk.new }
    ensures size { D.size disk.new ≡ D.size disk.old }
    ensures cause { HasCause (D.faults disk.old) (D.faults disk.new) result }
{
    match source {
        RecordSource::Nowhere => Ok(None),
        RecordSource::InDeck(cards) => Ok(card_at(cards, taken)),
        RecordSource::InSet(name) => match library.get(name) {
            Some(set) => head_of_set(disk, layout, set, taken),
            None => unreachable!(),
        },
    }
}

/// The next records of the inputs.
pub(crate) fn heads_of<D: Disk>(
    disk: &mut D,
    layout: &Layout,
    library: &Library,
    files: &Files,
    state: &State,
) -> Result<Heads, Failed>
    requires layout { IsTrue (is_laid_out layout.now) }
    requires fits { disk_needed layout.now ≤ D.size disk.old }
    requires stored { AreStored layout.now library.now }
    requires there { AreThere files.now library.now }
    ensures read { D.told → IfOk result (λ heads. heads ≡ heads_of (D.content disk.old) layout.now library.now files.now state.now) }
    ensures first { IfOk result (λ heads. IsSome heads.first → first_of state.now < 1000000) }
    ensures second { IfOk result (λ heads. IsSome heads.second → second_of state.now < 1000000) }
    ensures only_reads { OnlyReads D.content D.may_leave D.moment D.left_since disk.old disk.new }
    ensures size { D.size disk.new ≡ D.size disk.old }
    ensures cause { HasCause (D.faults disk.old) (D.faults disk.new) result }
{
    let first = head_of(disk, layout, library, &files.first, units::first_of(state))?;
    let second = head_of(
        disk,
        layout,
        library,
        &files.second,
        units::second_of(state),
    )?;
    Ok(Heads { first, second })
}
