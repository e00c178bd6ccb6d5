//! What holds of every program's units together. Each law is the contract of a function that does nothing.
ghost use Rattle.std.specs.Prelude.{◌≡◌, ◌<◌, ◌≤◌, ℕ, length, Some, None};
ghost use Rattle.ckr_programs.specs.Units.{written_by, end_of};
ghost use Rattle.ckr_match.specs.State.{first_state};
ghost use Rattle.ckr_match.specs.declared.state.MatchState.{MatchState as State};
ghost use Rattle.ckr_match.specs.Work.{MatchCase, taken_records, work, rest};
ghost use Rattle.ckr_match.specs.Units.{StandsFor, IsSameRemainder, unit_done, units_from};

/// The state before the first record stands for no records taken.
pub fn first_state_stands_for_no_records()
    ensures { (case : MatchCase) → StandsFor (first_state case.program) case 0 }
{}

/// From the first record on all units together write the program's work.
pub fn units_write_the_work()
    ensures { (case : MatchCase) → written_by (units_from case 0) ≡ (work case).writes }
{}

/// From any record on the units write exactly what the work has behind the writes for the records before.
pub fn units_from_any_record_write_the_rest()
    ensures { (case : MatchCase) (taken : ℕ) → taken ≤ length (taken_records case) → written_by (units_from case taken) ≡ rest case taken }
{}

/// From any record on the last unit ends the program as the work ends, and no other one does.
pub fn the_last_unit_ends_as_the_work()
    ensures end { (case : MatchCase) (taken : ℕ) → taken ≤ length (taken_records case) → end_of (units_from case taken) ≡ Some (work case).finish }
    ensures others { (case : MatchCase) (taken : ℕ) → taken < length (taken_records case) → (unit_done case taken).finish ≡ None }
{}

/// What is left to write depends on the state, the PARM and the records that are left alone.
pub fn same_states_have_the_same_rest()
    ensures { (first second : MatchCase) (one other : ℕ) (state : State) → IsSameRemainder first second one other state → rest first one ≡ rest second other }
{}
