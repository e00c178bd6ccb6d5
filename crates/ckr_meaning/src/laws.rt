//! What holds of every step and of every job. Each law is the contract of a function that does nothing.
ghost use Rattle.std.specs.Prelude.{◌≡◌, ◌<◌, ◌≤◌, ℕ, suc, pred, ◌+◌, Bool, true, false, List, ◌++◌, length, take, drop, Option, Some, None};
ghost use Rattle.ckr_base.specs.declared.code.Code.TheVariants.{System};
ghost use Rattle.ckr_base.specs.declared.programs.Finish.TheVariants.{Abend};
ghost use Rattle.ckr_base.specs.declared.programs.Write.{Write as RecordWritten};
ghost use Rattle.ckr_uses.specs.Uses.{are_distinct};
ghost use Rattle.ckr_entry.specs.declared.point.State.{State as ProgramState};
ghost use Rattle.ckr_library.specs.NameMaps.{Name, entry_at};
ghost use Rattle.ckr_programs.specs.Units.{end_of, written_by};
ghost use Rattle.ckr_meaning.specs.declared.place.Place.{Place as PlaceInJob};
ghost use Rattle.ckr_meaning.specs.declared.place.Place.TheVariants.{Before, Opened, Within};
ghost use Rattle.ckr_meaning.specs.Fronts.{BeginAlike, StandAlike, WalkAlike, front_names};
ghost use Rattle.ckr_meaning.specs.LibrarySet.{Library, AreWithinSpace, HasRecordLengths};
ghost use Rattle.ckr_meaning.specs.EffectiveJob.{AgreeOn, Effective, HasDistinctNames, OwnedStep, is_among, names_of, names_of_job, step_at};
ghost use Rattle.ckr_meaning.specs.Program.{ProgramCase, OutputRoom, fitting, fitting_in, records_taken, rest, room_after, unit_done, units_from, upto, work};
ghost use Rattle.ckr_meaning.specs.States.{IsSameRemainder};
ghost use Rattle.ckr_meaning.specs.StepRun.{StepStart, case_at, disposed_at, made_at, placed_at, room_at, within_at, work_at, written_all};
ghost use Rattle.ckr_meaning.specs.JobRun.{Walk, all_go_on, at, end_of_job, is_bypassed, is_place, job_run, start_at, start_in, walk_before, walk_from, walked};

/// What is left to write depends on the state, the PARM and the records that are left alone, whichever the program is.
pub fn same_states_have_the_same_rest()
    ensures { (first second : ProgramCase) (one other : ℕ) (state : ProgramState) → IsSameRemainder first second one other state → rest first one ≡ rest second other }
{}

/// From the first record on all units of a program together write its work, whichever the program is. From any record on they
/// write exactly what the work has behind the writes for the records before, and the last one ends as the work ends.
pub fn units_write_the_work()
    ensures all { (case : ProgramCase) → written_by (units_from case 0) ≡ (work case).writes }
    ensures rest { (case : ProgramCase) (taken : ℕ) → taken ≤ records_taken case → written_by (units_from case taken) ≡ rest case taken }
    ensures end { (case : ProgramCase) (taken : ℕ) → taken ≤ records_taken case → end_of (units_from case taken) ≡ Some (work case).finish }
{}

/// The writes for the first records begin the work. Those for one record more are those for the records before and what the next
/// unit writes, and behind the last record the unit writes what the work has left.
pub fn units_go_on()
    ensures work { (case : ProgramCase) (taken : ℕ) → taken ≤ records_taken case → (work case).writes ≡ upto case taken ++ rest case taken }
    ensures more { (case : ProgramCase) (taken : ℕ) → taken < records_taken case → upto case (taken + 1) ≡ upto case taken ++ (unit_done case taken).writes.items }
    ensures all { (case : ProgramCase) → (work case).writes ≡ upto case (records_taken case) ++ (unit_done case (records_taken case)).writes.items }
{}

/// What fits of more writes is what fits of the first ones, and then what fits of the others in the room behind the first ones,
/// if those left any.
pub fn more_writes_fit_behind_the_first()
    ensures { (first more : List RecordWritten) (room : OutputRoom) → fitting (first ++ more) room ≡ fitting first room ++ fitting_in (room_after first room) more }
{}

/// Writes that leave room fit as they are, and of others a front fits.
pub fn writes_fit_that_leave_room()
    ensures all { (writes : List RecordWritten) (room left : OutputRoom) → room_after writes room ≡ Some left → fitting writes room ≡ writes }
    ensures some { (writes : List RecordWritten) (room : OutputRoom) → room_after writes room ≡ None → length (fitting writes room) < length writes }
    ensures front { (writes : List RecordWritten) (room : OutputRoom) → take (length (fitting writes room)) writes ≡ fitting writes room }
{}

/// A step whose writes all fit ends as its program's work does, and any other one with SB37.
pub fn steps_end_as_their_work_where_it_fits()
    ensures all { (start : StepStart) (left : OutputRoom) → room_after (work (case_at start)).writes (room_at start) ≡ Some left → work_at start ≡ work (case_at start) }
    ensures some { (start : StepStart) → room_after (work (case_at start)).writes (room_at start) ≡ None → (work_at start).finish ≡ Abend (System 2871) }
{}

/// Where each record is as long as its data set says before a step or a job, so it is after any of their writes and at their end:
/// a record that is written is cut or filled to the record length.
pub fn records_have_the_record_length()
    ensures within { (start : StepStart) (writes : ℕ) → HasRecordLengths start.standing.sets → HasRecordLengths (within_at start writes) }
    ensures disposed { (start : StepStart) (abnormal : Bool) (library : Library) → HasRecordLengths library → HasRecordLengths (disposed_at start abnormal library).sets }
    ensures place { (job : Effective) (library : Library) (place : PlaceInJob) → HasRecordLengths library → HasRecordLengths (at job library place).sets }
    ensures job { (job : Effective) (library : Library) (cut : Option PlaceInJob) → HasRecordLengths library → HasRecordLengths (job_run job library cut) }
{}

/// A name that no DD of a step has keeps its data set through the step's writes and dispositions.
pub fn steps_leave_other_names()
    ensures within { (start : StepStart) (writes : ℕ) (name : Name) → is_among (names_of start.root start.owned) name ≡ false → entry_at (within_at start writes) name ≡ entry_at start.standing.sets name }
    ensures disposed { (start : StepStart) (abnormal : Bool) (library : Library) (name : Name) → is_among (names_of start.root start.owned) name ≡ false → entry_at (disposed_at start abnormal library).sets name ≡ entry_at library name }
{}

/// A name that no DD of a job has keeps its data set, at each place of the job and at its end, wherever it is cut.
pub fn jobs_leave_other_names()
    ensures place { (job : Effective) (library : Library) (place : PlaceInJob) (name : Name) → is_among (names_of_job job) name ≡ false → entry_at (at job library place).sets name ≡ entry_at library name }
    ensures job { (job : Effective) (library : Library) (cut : Option PlaceInJob) (name : Name) → is_among (names_of_job job) name ≡ false → entry_at (job_run job library cut) name ≡ entry_at library name }
{}

/// To walk over steps and then over others is to walk over them all; the steps go on to be numbered.
pub fn walks_go_on()
    ensures { (root number : ℕ) (first second : List OwnedStep) (walk : Walk) → walked root number (first ++ second) walk ≡ walked root (number + length first) second (walked root number first walk) }
{}

/// Within a step the library goes on from write to write, and begins with the step's data sets as they are made.
pub fn writes_go_on()
    ensures none { (start : StepStart) → within_at start 0 ≡ made_at start }
    ensures more { (start : StepStart) (writes more : ℕ) → within_at start (writes + more) ≡ written_all start (take more (drop writes (work_at start).writes)) (within_at start writes) }
{}

/// Two libraries that agree on the names of a job agree on them at each place of the job and at its end, and the job passes the
/// same data sets and ends at the same place: what it does depends on its own names alone.
pub fn jobs_depend_on_their_names_alone()
    ensures place { (job : Effective) (first second : Library) (place : PlaceInJob) → AgreeOn (names_of_job job) first second → AgreeOn (names_of_job job) (at job first place).sets (at job second place).sets }
    ensures passed { (job : Effective) (first second : Library) (place : PlaceInJob) → AgreeOn (names_of_job job) first second → (at job first place).passed ≡ (at job second place).passed }
    ensures end { (job : Effective) (first second : Library) → AgreeOn (names_of_job job) first second → end_of_job job first ≡ end_of_job job second }
    ensures job { (job : Effective) (first second : Library) (cut : Option PlaceInJob) → AgreeOn (names_of_job job) first second → AgreeOn (names_of_job job) (job_run job first cut) (job_run job second cut) }
{}

/// Where a job ends, at its own end in a step, at an abend or behind its last step, is one of its places.
pub fn jobs_end_at_one_of_their_places()
    ensures { (job : Effective) (library : Library) → is_place job library (end_of_job job library) ≡ true }
{}

/// A job goes on from step to step: a step that is bypassed leaves everything as it is, and behind any other one stands what its
/// normal dispositions make of all its writes.
pub fn jobs_go_on_from_step_to_step()
    ensures bypassed { (job : Effective) (library : Library) (number : ℕ) (owned : OwnedStep) → step_at job (suc number) ≡ Some owned → is_bypassed (walk_before job library (suc number)).rcs owned ≡ true → at job library (Before (suc (suc number))) ≡ at job library (Before (suc number)) }
    ensures behind { (job : Effective) (library : Library) (number : ℕ) (owned : OwnedStep) (start : StepStart) → step_at job (suc number) ≡ Some owned → start_at job library (suc number) ≡ Some start → is_bypassed (walk_before job library (suc number)).rcs owned ≡ false → at job library (Before (suc (suc number))) ≡ disposed_at start false (within_at start (length (work_at start).writes)) }
{}

/// Where no data set has more records than it has space for before a step or a job whose steps each have different names, so it is
/// after any of their writes and at their end.
pub fn writes_keep_to_the_space()
    ensures within { (start : StepStart) (writes : ℕ) → are_distinct (names_of start.root start.owned) ≡ true → AreWithinSpace start.standing.sets → AreWithinSpace (within_at start writes) }
    ensures disposed { (start : StepStart) (abnormal : Bool) (library : Library) → AreWithinSpace library → AreWithinSpace (disposed_at start abnormal library).sets }
    ensures place { (job : Effective) (library : Library) (place : PlaceInJob) → HasDistinctNames job → AreWithinSpace library → AreWithinSpace (at job library place).sets }
    ensures job { (job : Effective) (library : Library) (cut : Option PlaceInJob) → HasDistinctNames job → AreWithinSpace library → AreWithinSpace (job_run job library cut) }
{}

/// A job that begins with the same steps as another one, on libraries that agree on the names of these, comes equally far in them: it
/// goes on to each of them where the other one does, has the same standing at each place, has made the same names with the same return
/// codes, and each of these steps places the same data sets, does the same work and has the same records to take.
pub fn jobs_that_begin_alike_go_on_alike()
    ensures step { (count number : ℕ) (first second : Effective) (one other : Library) → BeginAlike count first second one other → number ≤ count → step_at first number ≡ step_at second number }
    ensures walk { (count number : ℕ) (first second : Effective) (one other : Library) → BeginAlike count first second one other → pred number ≤ count → WalkAlike (front_names count first) (walk_before first one number) (walk_before second other number) }
    ensures goes { (count number : ℕ) (first second : Effective) (one other : Library) → BeginAlike count first second one other → pred number ≤ count → all_go_on first.root 1 (take (pred number) first.steps) (walk_from one) ≡ all_go_on second.root 1 (take (pred number) second.steps) (walk_from other) }
    ensures opened { (count number : ℕ) (first second : Effective) (one other : Library) → BeginAlike count first second one other → number ≤ count → StandAlike (front_names count first) (at first one (Opened number)) (at second other (Opened number)) }
    ensures within { (count number writes : ℕ) (first second : Effective) (one other : Library) → BeginAlike count first second one other → number ≤ count → StandAlike (front_names count first) (at first one (Within number writes)) (at second other (Within number writes)) }
    ensures placed { (count number : ℕ) (first second : Effective) (one other : Library) (owned : OwnedStep) → BeginAlike count first second one other → number ≤ count → step_at first number ≡ Some owned → placed_at (start_in first.root number owned (walk_before first one number)) ≡ placed_at (start_in second.root number owned (walk_before second other number)) }
    ensures work { (count number : ℕ) (first second : Effective) (one other : Library) (owned : OwnedStep) → BeginAlike count first second one other → number ≤ count → step_at first number ≡ Some owned → work_at (start_in first.root number owned (walk_before first one number)) ≡ work_at (start_in second.root number owned (walk_before second other number)) }
    ensures case { (count number : ℕ) (first second : Effective) (one other : Library) (owned : OwnedStep) → BeginAlike count first second one other → number ≤ count → step_at first number ≡ Some owned → case_at (start_in first.root number owned (walk_before first one number)) ≡ case_at (start_in second.root number owned (walk_before second other number)) }
{}

/// The first steps of a job leave the names that only later ones have.
pub fn first_steps_leave_other_names()
    ensures before { (count number : ℕ) (job : Effective) (library : Library) (name : Name) → is_among (front_names count job) name ≡ false → pred number ≤ count → entry_at (at job library (Before number)).sets name ≡ entry_at library name }
    ensures opened { (count number : ℕ) (job : Effective) (library : Library) (name : Name) → is_among (front_names count job) name ≡ false → number ≤ count → entry_at (at job library (Opened number)).sets name ≡ entry_at library name }
    ensures within { (count number writes : ℕ) (job : Effective) (library : Library) (name : Name) → is_among (front_names count job) name ≡ false → number ≤ count → entry_at (at job library (Within number writes)).sets name ≡ entry_at library name }
{}
