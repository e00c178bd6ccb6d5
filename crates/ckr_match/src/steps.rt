//! What a record makes: its writes, what is then held, and the last master.
ghost use Rattle.std.specs.Prelude.{◌≡◌, ◌≤◌};
ghost use Rattle.ckr_match.specs.Master.{outcome_of_code, outcome_of};
ghost use Rattle.ckr_match.specs.Steps.{carried, released, master_step, place_by, update_step, step_of};

use crate::images::{behind_code, code_of, have_same_key};
use crate::state::MatchState;
use crate::writes::{put_reject, single, write_at, write_held};
use arrayvec::ArrayVec;
use ckr_base::{Output, Rec, Write};
use ckr_jcl::{Kind, Parm};

/// What is held behind a record, and whether the record is rejected.
#[derive(Drop)]
pub struct RecordOutcome {
    pub held: Option<Rec>,
    pub rejected: bool,
}

/// What a record writes, and what is then held and the last master with its place.
#[derive(Drop)]
pub struct RecordStep {
    pub writes: ArrayVec<Write, 4>,
    pub held: Option<Rec>,
    pub last: Option<(u32, Rec)>,
}

/// What a transaction of this code and image leaves of what is held.
fn outcome_of_code(code: u8, image: Rec, held: Option<Rec>) -> RecordOutcome
    ensures { result ≡ outcome_of_code code image held }
{
    match held {
        None => {
            if code == b'A' {
                RecordOutcome {
                    held: Some(image),
                    rejected: false,
                }
            } else {
                RecordOutcome {
                    held: None,
                    rejected: true,
                }
            }
        }
        Some(held) => {
            if code == b'C' {
                return RecordOutcome {
                    held: Some(image),
                    rejected: false,
                };
            }
            if code == b'D' {
                return RecordOutcome {
                    held: None,
                    rejected: false,
                };
            }
            RecordOutcome {
                held: Some(held),
                rejected: true,
            }
        }
    }
}

/// What a master or a transaction leaves of what is held.
fn outcome_of(second: bool, head: &Rec, held: Option<Rec>) -> RecordOutcome
    ensures { result ≡ outcome_of second head.now held }
{
    if second {
        outcome_of_code(
            code_of(head.bytes()),
            Rec::of(behind_code(head.bytes())),
            held,
        )
    } else {
        RecordOutcome {
            held: Some(head.copied()),
            rejected: false,
        }
    }
}

/// A held master of the transaction's key.
fn carried(parm: &Parm, second: bool, head: &Rec, held: &Option<Rec>) -> Option<Rec>
    requires { parm.now.key.1 ≤ 32 }
    ensures { result ≡ carried parm.now second head.now held.now }
{
    match held {
        Some(master) => {
            if second && have_same_key(parm, master.bytes(), behind_code(head.bytes())) {
                Some(master.copied())
            } else {
                None
            }
        }
        None => None,
    }
}

/// A held master that is to be written: one of another key, and the one before a master.
fn released(parm: &Parm, second: bool, head: &Rec, held: &Option<Rec>) -> Option<Rec>
    requires { parm.now.key.1 ≤ 32 }
    ensures { result ≡ released parm.now second head.now held.now }
{
    match held {
        Some(master) => {
            if second && have_same_key(parm, master.bytes(), behind_code(head.bytes())) {
                None
            } else {
                Some(master.copied())
            }
        }
        None => None,
    }
}

/// What is held.
pub(crate) fn held_of(state: &MatchState) -> Option<Rec>
    ensures { result ≡ state.now.held }
{
    match &state.held {
        Some(master) => Some(master.copied()),
        None => None,
    }
}

/// The last master with its place.
fn last_of(state: &MatchState) -> Option<(u32, Rec)>
    ensures { result ≡ state.now.last }
{
    match &state.last {
        Some((place, master)) => Some((*place, master.copied())),
        None => None,
    }
}

/// MASTER's step.
fn master_step(parm: &Parm, state: &MatchState, second: bool, head: &Rec) -> RecordStep
    requires { parm.now.key.1 ≤ 32 }
    ensures { result ≡ master_step parm.now state.now second head.now }
{
    let mut writes = write_held(released(parm, second, head, &state.held));
    let outcome = outcome_of(second, head, carried(parm, second, head, &state.held));
    put_reject(&mut writes, outcome.rejected, head);
    RecordStep {
        writes,
        held: outcome.held,
        last: last_of(state),
    }
}

/// The place of the last master, where it has the transaction's key.
fn place_by(parm: &Parm, head: &Rec, last: &Option<(u32, Rec)>) -> Option<u32>
    requires { parm.now.key.1 ≤ 32 }
    ensures { result ≡ place_by parm.now head.now last.now }
{
    match last {
        Some((place, master)) => {
            if have_same_key(parm, behind_code(head.bytes()), master.bytes()) {
                Some(*place)
            } else {
                None
            }
        }
        None => None,
    }
}

/// UPDATE's step.
fn update_step(parm: &Parm, state: &MatchState, second: bool, head: &Rec) -> RecordStep
    requires { parm.now.key.1 ≤ 32 }
    ensures { result ≡ update_step parm.now state.now second head.now }
{
    if !second {
        return RecordStep {
            writes: ArrayVec::new(),
            held: held_of(state),
            last: Some((state.first, head.copied())),
        };
    }
    let place = if code_of(head.bytes()) == b'C' {
        place_by(parm, head, &state.last)
    } else {
        None
    };
    let mut writes = ArrayVec::new();
    writes.push(write_at(place, head));
    RecordStep {
        writes,
        held: held_of(state),
        last: last_of(state),
    }
}

/// The step of a record of the first or of the second input.
pub(crate) fn step_of(parm: &Parm, state: &MatchState, second: bool, head: &Rec) -> RecordStep
    requires { parm.now.key.1 ≤ 32 }
    ensures { result ≡ step_of state.now.kind parm.now state.now second head.now }
{
    match state.kind {
        Kind::Master => master_step(parm, state, second, head),
        Kind::Update => update_step(parm, state, second, head),
        Kind::Merge => RecordStep {
            writes: single(Output::Main, head.copied()),
            held: held_of(state),
            last: last_of(state),
        },
        _ => RecordStep {
            writes: ArrayVec::new(),
            held: held_of(state),
            last: last_of(state),
        },
    }
}
