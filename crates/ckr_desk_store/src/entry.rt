//! The entries of checkpoints on the disk of an open desk.
ghost use Rattle.std.specs.Prelude.{◌≡◌, ◌≤◌, ◌+◌, IfErr, IfOk, IfSome, IsTrue, OnOk, Err, None, Some, length};
ghost use Rattle.ckr_outside.specs.Disk.{EachSince, HasCause, Only};
ghost use Rattle.ckr_library.specs.Catalog.{Catalog, records_of, set_of};
ghost use Rattle.ckr_library.specs.NameMaps.{Name};
ghost use Rattle.ckr_steps.specs.EntryRecords.{ChangesRecords, HasEntry};
ghost use Rattle.ckr_steps.specs.Inputs.{AreStored};
ghost use Rattle.ckr_steps.specs.Writes.{ChangesKeeping};
ghost use Rattle.ckr_volumes.specs.Layouts.{StandsIn, disk_needed, is_laid_out};
ghost use Rattle.ckr_desk_store.specs.Answers.{DiskCause};
ghost use Rattle.ckr_desk_store.specs.OpenImages.{Opens, event_records};
ghost use Rattle.ckr_desk_store.specs.State.{IsSound};

use crate::{Store, StoreError};
use ckr_library::DataSet;
use ckr_outside::{Disk, Failed};
use ckr_steps::StepRun;
use ckr_volumes::Layout;

/// Writes the records of an entry behind the last one of a data set for checkpoints, for good. Answers the place of the first one.
fn write_for_good<D: Disk>(
    disk: &mut D,
    layout: &Layout,
    step: &StepRun,
    set: &DataSet,
    entry: &[u8],
) -> Result<u32, Failed>
    requires layout { IsTrue (is_laid_out layout.now) }
    requires fits { disk_needed layout.now ≤ D.size disk.old }
    requires stands { StandsIn layout.now set.now }
    requires records { set.now.lrecl ≡ 256 }
    requires space { set.now.length + records_of (length entry.now) ≤ set.now.space }
    ensures place { IfOk result (λ place. place ≡ set.now.length) }
    ensures written { D.told → OnOk result (HasEntry (D.content disk.new) layout.now set.now set.now.length entry.now) }
    ensures settled { OnOk result (Only (D.content disk.new) (D.may_leave disk.new)) }
    ensures changes { ChangesRecords D.told D.content D.may_leave D.moment D.left_since layout.now set.now set.now.length (records_of (length entry.now)) disk.old disk.new }
    ensures size { D.size disk.new ≡ D.size disk.old }
    ensures cause { HasCause (D.faults disk.old) (D.faults disk.new) result }
{
    let place = step.checkpoint(disk, layout, set, entry)?;
    disk.sync()?;
    Ok(place)
}

impl<D: Disk> Store<D> {
    /// Writes the records of an entry behind the last one of a running step's data set for checkpoints, whose length stays, and syncs: after
    /// an `Ok` a stop leaves them (IBM GC28-6708). The data set has 256 bytes a record, and space for them. Answers the place of the first
    /// one, counted from 0. It takes no memory.
    ///
    /// `DiskFault`: only where the disk's faults rose in this call; then the store has stopped, and these records alone may hold any bytes.
    /// `Stopped`: exactly where it had stopped before.
    pub fn write_entry(
        &mut self,
        step: &StepRun,
        set: &DataSet,
        entry: &[u8],
    ) -> Result<u32, StoreError>
        requires stands { StandsIn self.old.layout set.now }
        requires records { set.now.lrecl ≡ 256 }
        requires space { set.now.length + records_of (length entry.now) ≤ set.now.space }
        ensures place { IfOk result (λ place. place ≡ set.now.length) }
        ensures written { D.told → OnOk result (HasEntry (D.content self.new.disk) self.old.layout set.now set.now.length entry.now) }
        ensures settled { OnOk result (Only (D.content self.new.disk) (D.may_leave self.new.disk)) }

        // Every other record is as before, in each image that a stop may leave meanwhile too, and no event changes.
        ensures changes { ChangesRecords D.told D.content D.may_leave D.moment D.left_since self.old.layout set.now set.now.length (records_of (length entry.now)) self.old.disk self.new.disk }
        ensures keeps { (library : Catalog) (name : Name) → AreStored self.old.layout library → set_of library name ≡ Some set.now
            → ChangesKeeping D.told D.content D.may_leave D.moment D.left_since self.old.layout library self.old.disk self.new.disk }
        ensures events { D.told → event_records self.old.layout (D.content self.new.disk)
            ≡ event_records self.old.layout (D.content self.old.disk) }
        ensures kept { OnOk result (self.new ≡ record self.old { disk = self.new.disk }) }
        ensures sound { IsSound D.content D.may_leave D.size self.new }

        // A stop at any moment leaves a disk that opens with the same events.
        ensures any_moment { self.old.fault ≡ None → EachSince D.moment D.left_since self.old.disk self.new.disk
            (Opens self.old.layout (D.size self.old.disk)
            (λ records. records ≡ event_records self.old.layout (D.content self.old.disk))) }
        ensures size { D.size self.new.disk ≡ D.size self.old.disk }
        ensures faults { D.faults self.old.disk ≤ D.faults self.new.disk }

        ensures stopped { IfSome self.old.fault (λ fault. (result ≡ Err (StoreError.Stopped fault)) × (self.new ≡ self.old)) }
        ensures cause { IfErr result (DiskCause D.faults self.old self.new) }
    {
        if let Some(fault) = self.fault {
            return Err(StoreError::Stopped { fault });
        }
        self.synced = false;
        match write_for_good(&mut self.disk, &self.layout, step, set, entry) {
            Ok(place) => {
                self.synced = true;
                Ok(place)
            }
            Err(_) => {
                self.fault = Some(self.disk.faults());
                Err(StoreError::DiskFault)
            }
        }
    }
}
