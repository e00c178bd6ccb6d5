//! The records of a data set as they stand on the disk.
ghost use Rattle.std.specs.Prelude.{◌≡◌, ◌≤◌, ◌<◌, ◌∷◌, [], ◌++◌, None, IfOk, IfErr, OnOk};
ghost use Rattle.ckr_outside.specs.Disk.{OnlyReads};
ghost use Rattle.ckr_volumes.specs.Records.{record_at, records_on};
ghost use Rattle.ckr_volumes.specs.Layouts.{StandsIn};
ghost use Rattle.ckr_desk_refines.specs.Listing.{records_of};
ghost use Rattle.ckr_desk_store.specs.State.{IsSound};
ghost use Rattle.ckr_desk.specs.CallOutcomes.{HasComeTo, KeepsDesk};
ghost use Rattle.ckr_desk.specs.Records.{ReadingCause};
ghost use Rattle.ckr_desk.specs.Requests.{TellsFull};
ghost use Rattle.ckr_desk.specs.Soundness.{IsTrusted, KeepsWithin, state_of};
ghost use Rattle.ckr_desk.specs.State.{IsOpen, machine_room_of, room_left};

use crate::{Desk, DeskError};
use ckr_base::{DsName, Records};
use ckr_console::Operator;
use ckr_desk_refines::free_set;
use ckr_desk_store::Store;
use ckr_library::DataSet;
use ckr_outside::Disk;
use std::alloc::Global;

/// Reads the record at a place, and puts it behind those that were read.
fn read_next<D: Disk>(
    store: &mut Store<D>,
    set: &DataSet,
    place: u32,
    found: &mut Records,
) -> Result<(), DeskError>
    requires is_open { store.old.fault ≡ None }
    requires stands { StandsIn store.old.layout set.now }
    requires place { place < set.now.space }
    ensures read { D.told → OnOk result (found.new ≡ found.old ++ record_at (D.content store.old.disk) store.old.layout set.now place ∷ []) }
    ensures kept { OnOk result (store.new ≡ record store.old { disk = store.new.disk }) }
    ensures sound { IsSound D.content D.may_leave D.size store.new }
    ensures only_reads { OnlyReads D.content D.may_leave D.moment D.left_since store.old.disk store.new.disk }
    ensures size { D.size store.new.disk ≡ D.size store.old.disk }
    ensures faults { D.faults store.old.disk ≤ D.faults store.new.disk }
    ensures cause { IfErr result (ReadingCause D.faults store.old store.new) }
{
    let image = store.read_record(set, place)?;
    found.push(image)?;
    Ok(())
}

/// Reads the records of a data set, the first one first.
fn read_all<D: Disk>(
    alloc: Global,
    store: &mut Store<D>,
    set: &DataSet,
) -> Result<Records, DeskError>
    requires is_open { store.old.fault ≡ None }
    requires sound { IsSound D.content D.may_leave D.size store.old }
    requires stands { StandsIn store.old.layout set.now }
    ensures read { D.told → IfOk result (λ found. found ≡ records_on (D.content store.old.disk) store.old.layout set.now set.now.length) }
    ensures kept { OnOk result (store.new ≡ record store.old { disk = store.new.disk }) }
    ensures sound { IsSound D.content D.may_leave D.size store.new }
    ensures only_reads { OnlyReads D.content D.may_leave D.moment D.left_since store.old.disk store.new.disk }
    ensures size { D.size store.new.disk ≡ D.size store.old.disk }
    ensures faults { D.faults store.old.disk ≤ D.faults store.new.disk }
    ensures cause { IfErr result (ReadingCause D.faults store.old store.new) }
{
    let mut found = Records::new(alloc);
    for place in 0..set.length {
        read_next(store, set, place, &mut found)?;
    }
    Ok(found)
}

impl<D: Disk, O: Operator> Desk<D, O> {
    /// The records of a data set, the first one first. None exactly where there is no data set of the name, it is one for checkpoint
    /// entries, or a run holds it. The disk is only read.
    ///
    /// `NoMemory`. `DiskFault`: only where the disk's faults rose in this call; then the desk has stopped. `Stopped`: exactly where it
    /// had stopped before. `BookFull` doesn't come (this project's profile).
    pub fn records(&mut self, name: &DsName) -> Result<Option<Records>, DeskError>
        ensures records { IsTrusted D.told D.content D.may_leave self.old → IfOk result (λ found. found ≡ records_of (state_of D.content self.old).desk name.now) }
        ensures comes { IsTrusted D.told D.content D.may_leave self.old
            → HasComeTo D.told D.content D.may_leave None (state_of D.content self.old) self.old self.new result }
        ensures full { IfErr result (TellsFull (room_left self.old) None) }
        ensures machine_room { machine_room_of self.new ≡ machine_room_of self.old }
        ensures keeps { KeepsDesk D.content D.may_leave D.faults D.size self.old self.new result }

        // A stop at any moment leaves a sound image with the same events.
        ensures kept { IsOpen self.old → IsTrusted D.told D.content D.may_leave self.old → KeepsWithin D.content D.moment D.left_since D.size self.old self.new [] }
    {
        if let Some(fault) = self.store.fault() {
            return Err(DeskError::Stopped { fault });
        }
        match free_set(&self.jobs, name) {
            Some(set) => Ok(Some(read_all(self.alloc, &mut self.store, set)?)),
            None => Ok(None),
        }
    }
}
