//! A running step.
ghost use Rattle.std.specs.Prelude.{◌≡◌, ◌≤◌, ◌<◌, ◌+◌, ℕ, Bool, true, false, IsTrue, IfOk, OnOk, Some, length};
ghost use Rattle.std.specs.Option.{option_map_or};
ghost use Rattle.ckr_base.specs.declared.programs.NextDue.TheVariants.{Unit as OneUnit};
ghost use Rattle.ckr_outside.specs.Disk.{OnlyReads, HasCause};
ghost use Rattle.ckr_library.specs.declared.sets.DataSet.{DataSet as OneSet};
ghost use Rattle.ckr_library.specs.Catalog.{Catalog, Holding, records_of, set_of};
ghost use Rattle.ckr_library.specs.NameMaps.{Name, entry_at};
ghost use Rattle.ckr_meaning.specs.StepRun.{StepStart};
ghost use Rattle.ckr_programs.specs.Ranges.{IsInRange};
ghost use Rattle.ckr_volumes.specs.declared.layout.Layout.{Layout as OneLayout};
ghost use Rattle.ckr_volumes.specs.Layouts.{is_laid_out, disk_needed, StandsIn};
ghost use Rattle.ckr_steps.specs.Files.{files_of};
ghost use Rattle.ckr_steps.specs.Units.{first_state, due_of, served_of, taken_of, entries_of, IsCounted};
ghost use Rattle.ckr_steps.specs.Inputs.{AreStored, AreThere};
ghost use Rattle.ckr_steps.specs.Writes.{grown, ChangesKeeping};
ghost use Rattle.ckr_steps.specs.EntryRecords.{HasEntry, ChangesRecords, bytes_on};

use crate::entry_records::put_entry;
use crate::files::{Files, files_of};
use crate::heads::heads_of;
use crate::unit_ahead::{UnitAhead, gained};
use crate::unit_writes::put_all;
use crate::units;
use ckr_base::{Code, DsName, Duplicate, NextDue, NoMemory, Rec};
use ckr_entry::State;
use ckr_jcl::{Parm, Step};
use ckr_library::{DataSet, Library};
use ckr_outside::{Disk, Failed};
use ckr_volumes::Layout;
use std::alloc::Global;

/// What a unit of a step's work came to.
#[derive(PartialEq, Eq, Drop)]
pub enum Worked {
    /// The records taken so far; the records that the unit writes are on the disk.
    Went { taken: u32 },
    /// A record of the updated data set is to be rewritten: its place, counted from 0, and the image, which has the data set's
    /// record length. It isn't written yet.
    Rewrite { place: u32, image: Rec, taken: u32 },
    /// The program has ended abnormally.
    Abend(Code),
}

/// How far a step has come.
#[derive(Drop)]
pub struct Progress<'a> {
    /// The records taken of all inputs.
    pub taken: u32,
    /// The records that the program wrote and rewrote.
    pub writes: u32,
    /// Where the program stands.
    pub state: &'a State,
}

/// A running step: where its program stands, its PARM, its inputs with the records that are in the deck, its outputs, and the
/// number of its writes.
#[derive(Drop)]
pub struct StepRun {
    state: State,
    parm: Parm,
    pub files: Files,
    writes: u32,
}

impl StepRun {
    ghost use Rattle.ckr_steps.specs.StepUnit.{AreCounted, behind_ahead, heads_on, worked_for, HasWorked, HasWorkedOut};
    ghost use Rattle.ckr_steps.specs.Places.{files_at, MayStart, IsStepPlace, GoesOnAnywhere, DueAt, HasFewCards, HasMade, HasWithin, IsPointOf};

    /// A step that starts, by the numbers of the run's root and of the run that owns the step, each at most 9,999,999. It keeps
    /// its own copy of the records in the deck and of the PARM, which is one that `read_parm` gives for the program.
    ///
    /// `NoMemory`: there is none for the copies.
    pub fn begin(alloc: Global, step: &Step, root: u32, owner: u32) -> Result<StepRun, NoMemory>
        requires root { root ≤ 9999999 }
        requires owner { owner ≤ 9999999 }
        requires parm { IsInRange step.now.parm }
        ensures begun { IfOk result (λ run. run ≡ record { state = first_state step.now.program; parm = step.now.parm; files = files_of root owner step.now; writes = 0 }) }
        ensures counted { IfOk result AreCounted }

        // Where the library has the data sets of a step that may start, the step stands before its first record.
        ensures stands { (start : StepStart) (layout : OneLayout) (library : Catalog) → start.root ≡ root → start.owned.owner ≡ owner → start.owned.step ≡ step.now
            → MayStart start → HasMade layout start library → IfOk result (λ run. IsStepPlace start 0 false run library) }
        ensures there { (start : StepStart) (layout : OneLayout) (library : Catalog) → start.root ≡ root → start.owned.owner ≡ owner → start.owned.step ≡ step.now
            → MayStart start → HasMade layout start library → HasFewCards (files_at start).first → HasFewCards (files_at start).second
            → IfOk result (λ run. AreThere run.files library) }
    {
        Ok(StepRun {
            state: units::first_state(step.program),
            parm: step.parm.duplicate(alloc)?,
            files: files_of(alloc, step, root, owner)?,
            writes: 0,
        })
    }

    /// A step that goes on from a point of it, by the numbers that `begin` takes: it has its program's state there and the number of its
    /// writes, so the next unit takes the record behind the point. Nothing is read. It keeps its own copies, as `begin` says.
    ///
    /// `NoMemory`: there is none for the copies.
    pub fn at_point(
        alloc: Global,
        step: &Step,
        root: u32,
        owner: u32,
        state: &State,
        writes: u32,
    ) -> Result<StepRun, NoMemory>
        requires root { root ≤ 9999999 }
        requires owner { owner ≤ 9999999 }
        requires counted { IsCounted step.now.parm state.now writes }
        ensures at { IfOk result (λ run. run ≡ record { state = state.now; parm = step.now.parm; files = files_of root owner step.now; writes = writes }) }
        ensures counted { IfOk result AreCounted }

        // Where the point is one of a step that might start, and the library has the data sets as they were there, the step stands where it stood.
        ensures stands { (start : StepStart) (layout : OneLayout) (library : Catalog) (taken : ℕ) → start.root ≡ root → start.owned.owner ≡ owner → start.owned.step ≡ step.now
            → MayStart start → IsPointOf start taken state.now writes → HasWithin layout start writes library → IfOk result (λ run. IsStepPlace start taken false run library) }
        ensures there { (start : StepStart) (layout : OneLayout) (library : Catalog) → start.root ≡ root → start.owned.owner ≡ owner → start.owned.step ≡ step.now
            → MayStart start → HasWithin layout start writes library → HasFewCards (files_at start).first → HasFewCards (files_at start).second
            → IfOk result (λ run. AreThere run.files library) }
    {
        Ok(StepRun {
            state: state.copied(),
            parm: step.parm.duplicate(alloc)?,
            files: files_of(alloc, step, root, owner)?,
            writes,
        })
    }

    /// What the step is to do next (this project's profile).
    pub fn due(&self) -> NextDue
        ensures due { result ≡ due_of self.now.parm self.now.state }

        // It has finished exactly where the closing unit is done, with the return code of the step's work.
        ensures at { (start : StepStart) (taken : ℕ) (closed : Bool) (library : Catalog) → IsStepPlace start taken closed self.now library → DueAt start closed result }
    {
        units::due(&self.state, &self.parm)
    }

    /// The checkpoint or the cancel that is due is done. `written` says that the checkpoint wrote an entry, which counts its
    /// identifier; the step has at most a million entries.
    pub fn served(&mut self, written: bool)
        requires counted { AreCounted self.old }
        requires entries { written ≡ true → entries_of self.old.state < 1000000 }
        ensures step { self.new ≡ record self.old { state = served_of self.old.parm written self.old.state } }
        ensures counted { AreCounted self.new }
        ensures stands { (start : StepStart) (taken : ℕ) (closed : Bool) (library : Catalog) → IsStepPlace start taken closed self.old library → IsStepPlace start taken closed self.new library }
    {
        units::served(&mut self.state, &self.parm, written);
    }

    /// How far the step has come.
    pub fn progress(&self) -> Progress<'_>
        requires { AreCounted self.now }
        ensures taken { result.taken ≡ taken_of self.now.state }
        ensures writes { result.writes ≡ self.now.writes }
        ensures state { result.state.now ≡ self.now.state }
    {
        Progress {
            taken: units::taken_of(&self.state),
            writes: self.writes,
            state: &self.state,
        }
    }

    /// How far the step comes by a unit that was worked out.
    pub fn progress_behind<'a>(&self, ahead: &'a UnitAhead) -> Progress<'a>
        requires { AreCounted (behind_ahead self.now ahead.now) }
        ensures taken { result.taken ≡ taken_of (behind_ahead self.now ahead.now).state }
        ensures writes { result.writes ≡ (behind_ahead self.now ahead.now).writes }
        ensures state { result.state.now ≡ (behind_ahead self.now ahead.now).state }
    {
        Progress {
            taken: units::taken_of(&ahead.state),
            writes: self.writes + ahead.count,
            state: &ahead.state,
        }
    }

    /// The length of one of the step's data sets behind a unit that was worked out, and 0 where there is no such data set.
    pub fn length_behind(&self, ahead: &UnitAhead, library: &Library, name: &DsName) -> u32
        requires { (name : Name) (set : OneSet) → set_of library.now name ≡ Some set → set.length ≤ 1000000 }
        ensures { result ≡ option_map_or (λ (holding : Holding). holding.set.length) (entry_at (grown self.now.files ahead.now.writes.items library.now.sets) name.now) 0 }
    {
        match library.get(name) {
            Some(set) => set.length + gained(ahead.writes.as_slice(), &self.files, name),
            None => 0,
        }
    }

    /// Writes the records of an entry behind the last one of a data set for checkpoints, whose length stays: 256 bytes each, with zeros behind
    /// the entry's last one (IBM GC28-6708). The data set has 256 bytes a record, and space for them. No memory is taken. Answers the place
    /// of the first one, counted from 0.
    ///
    /// `Failed`: only where the disk's faults rose in this call; then these records alone may hold any bytes.
    pub fn checkpoint<D: Disk>(
        &self,
        disk: &mut D,
        layout: &Layout,
        set: &DataSet,
        entry: &[u8],
    ) -> Result<u32, Failed>
        requires layout { IsTrue (is_laid_out layout.now) }
        requires fits { disk_needed layout.now ≤ D.size disk.old }
        requires stands { StandsIn layout.now set.now }
        requires records { set.now.lrecl ≡ 256 }
        requires space { set.now.length + records_of (length entry.now) ≤ set.now.space }
        ensures place { IfOk result (λ place. place ≡ set.now.length) }
        ensures written { D.told → OnOk result (HasEntry (D.content disk.new) layout.now set.now set.now.length entry.now) }

        // The bytes that stand there are the entry.
        ensures reads_back { D.told → OnOk result (bytes_on (D.content disk.new) layout.now set.now set.now.length (length entry.now) ≡ entry.now) }

        // Every other record is as before, also in each image that a stop may leave.
        ensures changes { ChangesRecords D.told D.content D.may_leave D.moment D.left_since layout.now set.now set.now.length (records_of (length entry.now)) disk.old disk.new }

        // So the records stay that each data set of a library has, where this is one of them.
        ensures keeps { (library : Catalog) (name : Name) → AreStored layout.now library → set_of library name ≡ Some set.now → ChangesKeeping D.told D.content D.may_leave D.moment D.left_since layout.now library disk.old disk.new }
        ensures size { D.size disk.new ≡ D.size disk.old }
        ensures cause { HasCause (D.faults disk.old) (D.faults disk.new) result }
    {
        put_entry(disk, layout, set, set.length, entry)?;
        Ok(set.length)
    }

    /// Works the next unit out: it reads the next records of the inputs. Nothing is written, and the step stays where it is. It takes no
    /// memory. It is called where a unit is due.
    ///
    /// `Failed`: only where the disk's faults rose in this call.
    pub fn ahead<D: Disk>(
        &self,
        disk: &mut D,
        layout: &Layout,
        library: &Library,
    ) -> Result<UnitAhead, Failed>
        requires due { due_of self.now.parm self.now.state ≡ OneUnit }
        requires counted { AreCounted self.now }
        requires layout { IsTrue (is_laid_out layout.now) }
        requires fits { disk_needed layout.now ≤ D.size disk.old }
        requires stored { AreStored layout.now library.now }
        requires there { AreThere self.now.files library.now }
        ensures answer { D.told → IfOk result (λ ahead. ahead.worked ≡ worked_for library.now self.now (heads_on (D.content disk.old) layout.now library.now self.now)) }
        ensures ahead { IfOk result (HasWorkedOut D.told (D.content disk.old) layout.now self.now library.now) }
        ensures only_reads { OnlyReads D.content D.may_leave D.moment D.left_since disk.old disk.new }
        ensures size { D.size disk.new ≡ D.size disk.old }
        ensures cause { HasCause (D.faults disk.old) (D.faults disk.new) result }
    {
        let heads = heads_of(disk, layout, library, &self.files, &self.state)?;
        let mut state = self.state.copied();
        let done = units::unit(&mut state, &self.parm, &heads, self.writes);
        Ok(UnitAhead::of(library, &self.files, state, done))
    }

    /// Does a unit that was worked out from where the step stands: its records are written behind the last ones of their data sets, whose
    /// lengths in the library rise. A record is cut or filled with blanks to the record length. A write that has no space isn't made, and
    /// the program has ended with SB37; the unit's writes before it are made. A rewrite in place isn't written here; it counts as a write.
    /// One of a place that isn't below the data set's length isn't made. Nothing is read, and no memory is taken. Answers what the unit came to.
    ///
    /// `Failed`: only where the disk's faults rose in this call; then the step doesn't go on.
    pub fn work<D: Disk>(
        &mut self,
        disk: &mut D,
        layout: &Layout,
        library: &mut Library,
        ahead: UnitAhead,
    ) -> Result<Worked, Failed>
        requires layout { IsTrue (is_laid_out layout.now) }
        requires fits { disk_needed layout.now ≤ D.size disk.old }
        requires stored { AreStored layout.now library.old }
        requires there { AreThere self.old.files library.old }
        requires ahead { HasWorkedOut D.told (D.content disk.old) layout.now self.old library.old ahead }
        ensures answer { IfOk result (λ worked. worked ≡ ahead.worked) }
        ensures behind { OnOk result (self.new ≡ behind_ahead self.old ahead) }
        ensures lengths { OnOk result (library.new.sets ≡ grown self.old.files ahead.writes.items library.old.sets) }
        ensures worked { IfOk result (HasWorked D.told (D.content disk.old) (D.content disk.new) layout.now self.old self.new library.old library.new) }
        ensures counted { OnOk result (AreCounted self.new) }

        // From wherever the step stands in its job, it goes on as its work does: a record more is taken or the program is closed, with
        // the writes for it behind those before, or the step ends as its work ends.
        ensures goes_on { D.told → IfOk result (GoesOnAnywhere D.told (D.content disk.old) (D.content disk.new) layout.now self.old self.new library.old library.new) }
        ensures stored { AreStored layout.now library.new }
        ensures there { AreThere self.new.files library.new }
        ensures files { self.new.files ≡ self.old.files }
        ensures parm { self.new.parm ≡ self.old.parm }

        // The records that each data set of the library has at entry stay, in every image that a stop may leave.
        ensures keeps { ChangesKeeping D.told D.content D.may_leave D.moment D.left_since layout.now library.old disk.old disk.new }
        ensures size { D.size disk.new ≡ D.size disk.old }
        ensures cause { HasCause (D.faults disk.old) (D.faults disk.new) result }
    {
        let UnitAhead {
            worked,
            state,
            writes,
            count,
        } = ahead;
        self.state = state;
        self.writes += count;
        put_all(disk, layout, library, &self.files, writes.as_slice())?;
        Ok(worked)
    }
}
