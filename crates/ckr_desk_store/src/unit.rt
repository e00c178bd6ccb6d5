//! The units of running steps on the disk of an open desk.
ghost use Rattle.std.specs.Prelude.{◌≡◌, ◌≤◌, ℕ, Bool, false, IfOk, IfErr, IfSome, OnOk, IsTrue, Err};
ghost use Rattle.ckr_base.specs.declared.programs.NextDue.TheVariants.{Unit as OneUnit};
ghost use Rattle.ckr_outside.specs.Disk.{EachSince, OnlyReads};
ghost use Rattle.ckr_steps.specs.Inputs.{AreStored, AreThere};
ghost use Rattle.ckr_steps.specs.Places.{GoesOnAnywhere};
ghost use Rattle.ckr_steps.specs.StepUnit.{AreCounted, HasWorked, HasWorkedOut, behind_ahead, heads_on, worked_for};
ghost use Rattle.ckr_steps.specs.Units.{due_of};
ghost use Rattle.ckr_steps.specs.Writes.{ChangesKeeping, grown};
ghost use Rattle.ckr_desk_store.specs.Answers.{DiskCause};
ghost use Rattle.ckr_desk_store.specs.OpenImages.{event_records, Opens};
ghost use Rattle.ckr_desk_store.specs.State.{IsSound};

use crate::Store;
use crate::error::StoreError;
use ckr_library::Library;
use ckr_outside::Disk;
use ckr_steps::{StepRun, UnitAhead, Worked};

impl<D: Disk> Store<D> {
    /// Works the next unit of a running step out: it reads the next records of the step's inputs. Nothing is written, and the step stays
    /// where it is. It takes no memory. It is called where a unit is due.
    ///
    /// `DiskFault`: only where the disk's faults rose in this call; then the store has stopped. `Stopped`: exactly where
    /// it had stopped before.
    pub fn ahead(&mut self, step: &StepRun, sets: &Library) -> Result<UnitAhead, StoreError>
        requires due { due_of step.now.parm step.now.state ≡ OneUnit }
        requires counted { AreCounted step.now }
        requires stored { AreStored self.old.layout sets.now }
        requires there { AreThere step.now.files sets.now }
        ensures answer { D.told → IfOk result (λ ahead. ahead.worked ≡ worked_for sets.now step.now (heads_on (D.content self.old.disk) self.old.layout sets.now step.now)) }
        ensures ahead { IfOk result (HasWorkedOut D.told (D.content self.old.disk) self.old.layout step.now sets.now) }
        ensures kept { IfOk result (λ _. self.new ≡ record self.old { disk = self.new.disk }) }
        ensures sound { IsSound D.content D.may_leave D.size self.new }

        // A stop at any moment leaves a disk that opens with the same events.
        ensures any_moment { self.old.fault ≡ None → EachSince D.moment D.left_since self.old.disk self.new.disk
            (Opens self.old.layout (D.size self.old.disk)
            (λ records. records ≡ event_records self.old.layout (D.content self.old.disk))) }
        ensures only_reads { OnlyReads D.content D.may_leave D.moment D.left_since self.old.disk self.new.disk }
        ensures size { D.size self.new.disk ≡ D.size self.old.disk }
        ensures faults { D.faults self.old.disk ≤ D.faults self.new.disk }

        ensures stopped { IfSome self.old.fault (λ fault. (result ≡ Err (StoreError.Stopped fault)) × (self.new ≡ self.old)) }
        ensures cause { IfErr result (DiskCause D.faults self.old self.new) }
    {
        if let Some(fault) = self.fault {
            return Err(StoreError::Stopped { fault });
        }
        match step.ahead(&mut self.disk, &self.layout, sets) {
            Ok(ahead) => Ok(ahead),
            Err(_) => {
                self.fault = Some(self.disk.faults());
                Err(StoreError::DiskFault)
            }
        }
    }

    /// Does a unit of a running step that was worked out from where the step stands, with the step's own data sets, whose lengths rise.
    /// Nothing is read, and a rewrite in place isn't written here. No record below a length at entry, none of a data set apart from these,
    /// and no event changes in any image. It takes no memory. Answers what the unit came to.
    ///
    /// `DiskFault`: only where the disk's faults rose in this call; then the store has stopped, and the step doesn't go on.
    /// `Stopped`: exactly where it had stopped before.
    pub fn work(
        &mut self,
        step: &mut StepRun,
        sets: &mut Library,
        ahead: UnitAhead,
    ) -> Result<Worked, StoreError>
        requires stored { AreStored self.old.layout sets.old }
        requires there { AreThere step.old.files sets.old }
        requires ahead { HasWorkedOut D.told (D.content self.old.disk) self.old.layout step.old sets.old ahead }
        ensures answer { IfOk result (λ worked. worked ≡ ahead.worked) }
        ensures behind { OnOk result (step.new ≡ behind_ahead step.old ahead) }
        ensures lengths { OnOk result (sets.new.sets ≡ grown step.old.files ahead.writes.items sets.old.sets) }
        ensures worked { IfOk result (HasWorked D.told (D.content self.old.disk) (D.content self.new.disk) self.old.layout step.old step.new sets.old sets.new) }
        ensures counted { IfOk result (λ _. AreCounted step.new) }
        ensures goes_on { D.told → IfOk result (GoesOnAnywhere D.told (D.content self.old.disk) (D.content self.new.disk) self.old.layout step.old step.new sets.old sets.new) }
        ensures stored { AreStored self.old.layout sets.new }
        ensures there { AreThere step.new.files sets.new }
        ensures files { step.new.files ≡ step.old.files }
        ensures parm { step.new.parm ≡ step.old.parm }
        ensures keeps { ChangesKeeping D.told D.content D.may_leave D.moment D.left_since self.old.layout sets.old self.old.disk self.new.disk }
        ensures events { D.told → event_records self.old.layout (D.content self.new.disk)
            ≡ event_records self.old.layout (D.content self.old.disk) }
        ensures kept { IfOk result (λ _. self.new ≡ record self.old { disk = self.new.disk }) }
        ensures sound { IsSound D.content D.may_leave D.size self.new }

        // A stop at any moment leaves a disk that opens with the same events.
        ensures any_moment { self.old.fault ≡ None → EachSince D.moment D.left_since self.old.disk self.new.disk
            (Opens self.old.layout (D.size self.old.disk)
            (λ records. records ≡ event_records self.old.layout (D.content self.old.disk))) }
        ensures size { D.size self.new.disk ≡ D.size self.old.disk }
        ensures faults { D.faults self.old.disk ≤ D.faults self.new.disk }

        ensures stopped { IfSome self.old.fault (λ fault. (result ≡ Err (StoreError.Stopped fault)) × (self.new ≡ self.old)) }
        ensures cause { IfErr result (DiskCause D.faults self.old self.new) }
    {
        if let Some(fault) = self.fault {
            return Err(StoreError::Stopped { fault });
        }
        self.synced = false;
        match step.work(&mut self.disk, &self.layout, sets, ahead) {
            Ok(worked) => Ok(worked),
            Err(_) => {
                self.fault = Some(self.disk.faults());
                Err(StoreError::DiskFault)
            }
        }
    }
}
