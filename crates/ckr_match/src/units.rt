//! One unit of a program's work.
ghost use Rattle.std.specs.Prelude.{◌≡◌, ◌≤◌, ◌<◌, ◌+◌, ◌==◌, if◌then◌else◌, ℕ, false};
ghost use Rattle.ckr_base.specs.declared.programs.NextDue.TheVariants.{Unit as OneUnit};
ghost use Rattle.ckr_programs.specs.Units.{is_returned};
ghost use Rattle.ckr_match.specs.State.{due_in};
ghost use Rattle.ckr_match.specs.Steps.{counted, record_unit, behind_record, closing_writes, closing_unit, closed_state, unit_of, state_of};
ghost use Rattle.ckr_match.specs.Work.{MatchCase, rejects_in};
ghost use Rattle.ckr_match.specs.Units.{IsUnitAt, StandsFor, unit_done, taken_behind};

use crate::images::key_of;
use crate::order::{chosen, is_next};
use crate::state::{MatchState, return_code};
use crate::steps::{RecordStep, held_of, step_of};
use crate::writes::{rejects_in, write_held};
use arrayvec::ArrayVec;
use ckr_base::{Code, Finish, Heads, Rec, UnitDone, Write};
use ckr_jcl::{Kind, Parm};

/// A record is out of order.
const OUT_OF_ORDER: Code = Code::User(101);

/// What MASTER holds is written in closing.
fn closing_writes(state: &MatchState) -> ArrayVec<Write, 4>
    ensures { result.items ≡ closing_writes state.now }
{
    match state.kind {
        Kind::Master => write_held(held_of(state)),
        _ => ArrayVec::new(),
    }
}

/// The unit behind the last records.
fn close(state: &mut MatchState) -> UnitDone
    ensures done { result ≡ closing_unit state.old }
    ensures state { state.new ≡ closed_state state.old }
{
    let writes = closing_writes(state);
    let code = return_code(state.rejects);
    state.closed = true;
    UnitDone {
        taken: 0,
        writes,
        finish: Some(Finish::Returned(code)),
    }
}

/// A record is counted, and its key, what is held and the last master are kept.
fn count(
    state: &mut MatchState,
    second: bool,
    key: ArrayVec<u8, 32>,
    step: RecordStep,
) -> ArrayVec<Write, 4>
    requires first { state.old.first ≤ 2000000 }
    requires second { state.old.second ≤ 2000000 }
    requires rejects { state.old.rejects ≤ 2000000 }
    ensures writes { result ≡ step.writes }
    ensures state { state.new ≡ counted second key.items step state.old }
{
    state.rejects += rejects_in(&step.writes);
    state.checkpointed = false;
    state.cancelled = false;
    state.held = step.held;
    state.last = step.last;
    if second {
        state.second += 1;
        state.second_key = key;
    } else {
        state.first += 1;
        state.first_key = key;
    }
    step.writes
}

/// The unit of a record of the first or of the second input.
#[tactic(auto, using(crate::proofs::Rejects::record_rejects))]
fn take(state: &mut MatchState, parm: &Parm, second: bool, head: &Rec) -> UnitDone
    requires key { parm.now.key.1 ≤ 32 }
    requires first { state.old.first ≤ 2000000 }
    requires second { state.old.second ≤ 2000000 }
    requires rejects { state.old.rejects ≤ 2000000 }
    ensures done { result ≡ record_unit parm.now state.old second head.now }
    ensures state { state.new ≡ behind_record parm.now state.old second head.now }
    ensures first { state.new.first ≡ state.old.first + (if result.taken == 1 then 1 else 0) }
    ensures second { state.new.second ≡ state.old.second + (if result.taken == 2 then 1 else 0) }
    ensures rejects { state.new.rejects ≡ state.old.rejects + rejects_in result.writes.items }
    ensures rejected { rejects_in result.writes.items ≤ (if result.taken == 2 then 1 else 0) }
    ensures entries { state.new.entries ≡ state.old.entries }
    ensures closed { state.new.closed ≡ state.old.closed }
    ensures goes_on { is_returned result.finish ≡ false }
    ensures same_count { result.taken ≡ 0 → state.new ≡ state.old }
    ensures new_count { 0 < result.taken → (state.new.checkpointed ≡ false) × (state.new.cancelled ≡ false) }
{
    let key = key_of(state.kind, parm, second, head.bytes());
    if !is_next(state, second, key.as_slice()) {
        return UnitDone {
            taken: 0,
            writes: ArrayVec::new(),
            finish: Some(Finish::Abend(OUT_OF_ORDER)),
        };
    }
    let step = step_of(parm, state, second, head);
    UnitDone {
        taken: if second { 2 } else { 1 },
        writes: count(state, second, key, step),
        finish: None,
    }
}

/// One unit of the program's work (this project's profile): it takes the record with the smaller key, the first input's
/// where they are equal, or it is the closing unit behind the last records. `taken` names the input, 1 or 2. A record
/// out of order ends the program with U0101; it isn't taken, and nothing is written. It takes no memory.
///
/// It is called where a unit is due, with a PARM that `read_parm` gives, and at most 2,000,000 records taken of each
/// input and rejected.
pub fn unit(state: &mut MatchState, parm: &Parm, heads: &Heads) -> UnitDone
    requires due { due_in parm.now state.old ≡ OneUnit }
    requires key { parm.now.key.1 ≤ 32 }
    requires first { state.old.first ≤ 2000000 }
    requires second { state.old.second ≤ 2000000 }
    requires rejects { state.old.rejects ≤ 2000000 }

    // The state, the PARM and the heads tell what it does.
    ensures unit { result ≡ unit_of parm.now state.old heads.now }
    ensures state { state.new ≡ state_of parm.now state.old heads.now }

    // From a state that stands for the records taken it does what is next, and the state stands for one more.
    ensures work { (case : MatchCase) (taken : ℕ) → IsUnitAt state.old parm.now heads.now case taken → result ≡ unit_done case taken }
    ensures stands { (case : MatchCase) (taken : ℕ) → IsUnitAt state.old parm.now heads.now case taken → StandsFor state.new case (taken_behind result taken) }

    // Records and rejects are counted; only a record of the second input is rejected. What is done at a count stays done until a record is taken.
    ensures first { state.new.first ≡ state.old.first + (if result.taken == 1 then 1 else 0) }
    ensures second { state.new.second ≡ state.old.second + (if result.taken == 2 then 1 else 0) }
    ensures rejects { state.new.rejects ≡ state.old.rejects + rejects_in result.writes.items }
    ensures rejected { rejects_in result.writes.items ≤ (if result.taken == 2 then 1 else 0) }
    ensures entries { state.new.entries ≡ state.old.entries }
    ensures closed { state.new.closed ≡ is_returned result.finish }
    ensures same_count { result.taken ≡ 0 → state.new ≡ record state.old { closed = state.new.closed } }
    ensures new_count { 0 < result.taken → (state.new.checkpointed ≡ false) × (state.new.cancelled ≡ false) }
{
    match chosen(state.kind, parm, heads) {
        Some((second, head)) => take(state, parm, second, head),
        None => close(state),
    }
}
