//! One unit of a program's work.
ghost use Rattle.std.specs.Prelude.{◌≡◌, ◌≤◌, ◌<◌, ◌+◌, ◌^◌, ℕ, false};
ghost use Rattle.ckr_base.specs.declared.programs.NextDue.TheVariants.{Unit as OneUnit};
ghost use Rattle.ckr_programs.specs.State.{due_in};
ghost use Rattle.ckr_programs.specs.Steps.{closing_unit, record_unit, behind_record, closed_state, unit_of, state_of};
ghost use Rattle.ckr_programs.specs.Work.{ProgCase};
ghost use Rattle.ckr_programs.specs.Units.{IsUnitAt, StandsFor, unit_done, is_returned};

use crate::pages::total_line;
use crate::records::{amount_of, can_take, is_summing, writes_at};
use crate::state::ProgState;
use crate::writes::single;
use arrayvec::ArrayVec;
use ckr_base::{Code, Finish, Heads, Rec, UnitDone};
use ckr_jcl::Parm;

/// A byte in the SUM field isn't a digit.
const DATA_EXCEPTION: Code = Code::System(0x0C7);

/// The unit behind the last record.
fn close(state: &mut ProgState, parm: &Parm) -> UnitDone
    requires { state.old.sum < 10 ^ 22 }
    ensures done { result ≡ closing_unit parm.now state.old }
    ensures state { state.new ≡ closed_state state.old }
{
    let writes = if is_summing(state.kind, parm) {
        single(total_line(state.sum))
    } else {
        ArrayVec::new()
    };
    state.closed = true;
    UnitDone {
        taken: 0,
        writes,
        finish: Some(Finish::Returned(0)),
    }
}

/// The unit of a record.
fn take(state: &mut ProgState, parm: &Parm, head: &Rec) -> UnitDone
    requires field { parm.now.sum.1 ≤ 15 }
    requires count { state.old.first ≤ 2000000 }
    requires sum { state.old.sum < 10 ^ 22 }
    ensures done { result ≡ record_unit parm.now state.old head.now }
    ensures state { state.new ≡ behind_record parm.now state.old head.now }
    ensures count { state.new.first ≡ state.old.first + result.taken }
    ensures bound { state.new.sum < state.old.sum + 10 ^ 15 }
{
    if !can_take(state.kind, parm, head) {
        return UnitDone {
            taken: 0,
            writes: ArrayVec::new(),
            finish: Some(Finish::Abend(DATA_EXCEPTION)),
        };
    }
    let writes = writes_at(state.kind, parm, state.first, head);
    state.sum += amount_of(state.kind, parm, head);
    state.first += 1;
    state.checkpointed = false;
    state.cancelled = false;
    UnitDone {
        taken: 1,
        writes,
        finish: None,
    }
}

/// One unit of the program's work (this project's profile): it takes the next record of the input, or it is the closing
/// unit behind the last one. `taken` is 1 for a record. A record with a byte in the SUM field that isn't a digit ends
/// the program with S0C7; it isn't taken, and nothing is written. It takes no memory.
///
/// It is called where a unit is due, with a PARM that `read_parm` gives, at most 2,000,000 records taken and a sum below
/// 10^22. `heads.second` isn't looked at.
pub fn unit(state: &mut ProgState, parm: &Parm, heads: &Heads) -> UnitDone
    requires due { due_in parm.now state.old ≡ OneUnit }
    requires field { parm.now.sum.1 ≤ 15 }
    requires count { state.old.first ≤ 2000000 }
    requires sum { state.old.sum < 10 ^ 22 }

    // The state, the PARM and the head tell what it does.
    ensures unit { result ≡ unit_of parm.now state.old heads.now.first }
    ensures state { state.new ≡ state_of parm.now state.old heads.now.first }

    // From a state that stands for the records taken it does what is next, and the state stands for one more.
    ensures work { (case : ProgCase) (taken : ℕ) → IsUnitAt state.old parm.now heads.now.first case taken → result ≡ unit_done case taken }
    ensures stands { (case : ProgCase) (taken : ℕ) → IsUnitAt state.old parm.now heads.now.first case taken → StandsFor state.new case (taken + result.taken) }

    // A record counts, and adds at most 15 digits to the sum. What is done at a count stays done until then.
    ensures count { state.new.first ≡ state.old.first + result.taken }
    ensures bound { state.new.sum < state.old.sum + 10 ^ 15 }
    ensures entries { state.new.entries ≡ state.old.entries }
    ensures closed { state.new.closed ≡ is_returned result.finish }
    ensures same_count { result.taken ≡ 0 → state.new ≡ record state.old { closed = state.new.closed } }
    ensures new_count { result.taken ≡ 1 → (state.new.checkpointed ≡ false) × (state.new.cancelled ≡ false) }
{
    match &heads.first {
        Some(head) => take(state, parm, head),
        None => close(state, parm),
    }
}
