//! The record that an event tells of.
ghost use Rattle.std.specs.Prelude.{◌≡◌, ◌≤◌, IfErr, OnOk, None};
ghost use Rattle.ckr_desk_refines.specs.Memory.Rewrite.{HasRecordPlace};
ghost use Rattle.ckr_outside.specs.Disk.{EachSince, Only};
ghost use Rattle.ckr_desk_store.specs.OpenImages.{event_records};
ghost use Rattle.ckr_desk_store.specs.State.{IsSound};
ghost use Rattle.ckr_desk.specs.Calls.{HasSameJobs};
ghost use Rattle.ckr_desk.specs.Rewrite.{IsFault, IsLackingBy, IsWrittenBy, LackAtMost};
ghost use Rattle.ckr_desk.specs.NoChange.{HasHalted};

use crate::{Desk, DeskError};
use ckr_console::Operator;
use ckr_events::Event;
use ckr_outside::Disk;

impl<D: Disk, O: Operator> Desk<D, O> {
    /// The record that an event tells of is written, if it tells of one. It has its place, since the event was kept. The disk isn't synced behind it, so
    /// a stop may leave that record alone otherwise, until the next event is kept, which is told behind a sync.
    pub(crate) fn rewrite(&mut self, event: &Event) -> Result<(), DeskError>
        requires is_open { self.old.store.fault ≡ None }
        requires sound { IsSound D.content D.may_leave D.size self.old.store }
        requires place { HasRecordPlace event.now self.old.jobs.tables.desk }
        ensures written { D.told → OnOk result (IsWrittenBy self.old.store.layout self.old.jobs.tables.desk event.now (D.content self.old.store.disk) (D.content self.new.store.disk)) }
        ensures pending { Only (D.content self.old.store.disk) (D.may_leave self.old.store.disk)
            → OnOk result (LackAtMost self.old.store.layout self.old.jobs.tables.desk event.now (D.content self.old.store.disk) (D.may_leave self.new.store.disk)) }
        ensures left { Only (D.content self.old.store.disk) (D.may_leave self.old.store.disk)
            → EachSince D.moment D.left_since self.old.store.disk self.new.store.disk (IsLackingBy D.content D.size event.now self.old) }
        ensures events { D.told → event_records self.old.store.layout (D.content self.new.store.disk) ≡ event_records self.old.store.layout (D.content self.old.store.disk) }
        ensures jobs { HasSameJobs self.old self.new }
        ensures machine_room { self.new.machine_room ≡ self.old.machine_room }
        ensures kept { OnOk result (self.new.store ≡ record self.old.store { disk = self.new.store.disk }) }
        ensures layout { self.new.store.layout ≡ self.old.store.layout }
        ensures size { D.size self.new.store.disk ≡ D.size self.old.store.disk }
        ensures faults { D.faults self.old.store.disk ≤ D.faults self.new.store.disk }
        ensures cause { IfErr result (IsFault (D.faults self.old.store.disk) (D.faults self.new.store.disk)) }
        ensures halted { IfErr result (HasHalted D.faults self.new.store) }
    {
        let Event::Rewritten {
            job,
            place,
            image,
            ..
        } = event
        else {
            return Ok(());
        };
        let Some(name) = self.jobs.updated(*job) else {
            unreachable!()
        };
        let Some(set) = self.jobs.library().get(&name) else {
            unreachable!()
        };
        self.store.write_record(set, *place, image)?;
        Ok(())
    }

    /// The same for good: the disk is synced behind it.
    pub(crate) fn rewrite_for_good(&mut self, event: &Event) -> Result<(), DeskError>
        requires is_open { self.old.store.fault ≡ None }
        requires sound { IsSound D.content D.may_leave D.size self.old.store }
        requires place { HasRecordPlace event.now self.old.jobs.tables.desk }
        ensures written { D.told → OnOk result (IsWrittenBy self.old.store.layout self.old.jobs.tables.desk event.now (D.content self.old.store.disk) (D.content self.new.store.disk)) }
        ensures settled { Only (D.content self.old.store.disk) (D.may_leave self.old.store.disk) → OnOk result (Only (D.content self.new.store.disk) (D.may_leave self.new.store.disk)) }
        ensures left { Only (D.content self.old.store.disk) (D.may_leave self.old.store.disk)
            → EachSince D.moment D.left_since self.old.store.disk self.new.store.disk (IsLackingBy D.content D.size event.now self.old) }
        ensures events { D.told → event_records self.old.store.layout (D.content self.new.store.disk) ≡ event_records self.old.store.layout (D.content self.old.store.disk) }
        ensures jobs { HasSameJobs self.old self.new }
        ensures machine_room { self.new.machine_room ≡ self.old.machine_room }
        ensures kept { OnOk result (self.new.store ≡ record self.old.store { disk = self.new.store.disk }) }
        ensures sound { OnOk result (IsSound D.content D.may_leave D.size self.new.store) }
        ensures layout { self.new.store.layout ≡ self.old.store.layout }
        ensures size { D.size self.new.store.disk ≡ D.size self.old.store.disk }
        ensures faults { D.faults self.old.store.disk ≤ D.faults self.new.store.disk }
        ensures cause { IfErr result (IsFault (D.faults self.old.store.disk) (D.faults self.new.store.disk)) }
        ensures halted { IfErr result (HasHalted D.faults self.new.store) }
    {
        self.rewrite(event)?;
        self.store.sync()?;
        Ok(())
    }
}
