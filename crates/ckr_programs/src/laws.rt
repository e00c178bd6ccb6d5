//! What holds of every program's units together. Each law is the contract of a function that does nothing.
ghost use Rattle.std.specs.Prelude.{◌≡◌, ◌<◌, ◌≤◌, ℕ, List, length, Some, None, Ok};
ghost use Rattle.ckr_jcl.specs.ParmGrammar.{read_parm_text};
ghost use Rattle.ckr_jcl.specs.declared.deck.Kind.{Kind as Program};
ghost use Rattle.ckr_jcl.specs.declared.deck.Parm.{Parm as ReadParm};
ghost use Rattle.ckr_programs.specs.Ranges.{IsInRange};
ghost use Rattle.ckr_programs.specs.State.{first_state};
ghost use Rattle.ckr_programs.specs.declared.state.ProgState.{ProgState as State};
ghost use Rattle.ckr_programs.specs.Work.{ProgCase, taken_records, work, rest};
ghost use Rattle.ckr_programs.specs.Units.{StandsFor, IsSameRemainder, unit_done, units_from, written_by, end_of};

/// The state before the first record stands for no records taken.
pub fn first_state_stands_for_no_records()
    ensures { (case : ProgCase) → StandsFor (first_state case.program) case 0 }
{}

/// From the first record on all units together write the program's work.
pub fn units_write_the_work()
    ensures { (case : ProgCase) → written_by (units_from case 0) ≡ (work case).writes }
{}

/// From any record on the units write exactly what the work has behind the writes for the records before.
pub fn units_from_any_record_write_the_rest()
    ensures { (case : ProgCase) (taken : ℕ) → taken ≤ length (taken_records case) → written_by (units_from case taken) ≡ rest case taken }
{}

/// From any record on the last unit ends the program as the work ends, and no other one does.
pub fn the_last_unit_ends_as_the_work()
    ensures end { (case : ProgCase) (taken : ℕ) → taken ≤ length (taken_records case) → end_of (units_from case taken) ≡ Some (work case).finish }
    ensures others { (case : ProgCase) (taken : ℕ) → taken < length (taken_records case) → (unit_done case taken).finish ≡ None }
{}

/// What is left to write depends on the state, the PARM and the records that are left alone.
pub fn same_states_have_the_same_rest()
    ensures { (first second : ProgCase) (one other : ℕ) (state : State) → IsSameRemainder first second one other state → rest first one ≡ rest second other }
{}

/// A PARM that `read_parm` gives has a SUM field of at most 15 columns and a key of at most 32.
pub fn read_parms_are_in_range()
    ensures { (program : Program) (text : List ℕ) (parm : ReadParm) → read_parm_text program text ≡ Ok parm → IsInRange parm }
{}
