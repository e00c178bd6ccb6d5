//! A point of a run: where its step stands, and what the tables had of its data sets.
ghost use Rattle.std.specs.Prelude.{◌≡◌, ◌≤◌, length};
ghost use Rattle.ckr_library.specs.NameMaps.{same_name};

use crate::{Marks, PassedList};
use arrayvec::ArrayVec;
use ckr_base::{CheckId, DsName, Name8, Rec};
use ckr_library::Stamp;
use ckr_match::MatchState;
use ckr_programs::ProgState;

/// What the tables had of a data set at a point.
#[derive(Clone, Copy)]
pub struct Present {
    /// The number of the volume of its first part, counted from 0.
    pub volume: u8,
    /// The bytes of a record, 1 to 256.
    pub lrecl: u16,
    /// How many records had room in it, 1 to 5,000,000.
    pub space: u32,
    /// How many records it had, at most its space.
    pub length: u32,
    /// Whether it was in the catalog.
    pub cataloged: bool,
    /// Who had made it, and who had changed it last.
    pub stamp: Stamp,
}

/// What a point says of a name.
#[derive(Drop)]
pub struct Mark {
    pub name: DsName,
    /// None where there was no data set of this name.
    pub present: Option<Present>,
}

/// A data set that a step of a run has passed on to a later one (IBM GC28-6704).
#[derive(Drop)]
pub struct Passed {
    pub name: DsName,
    /// Whether the run made it, or a step of an earlier run that it continues.
    pub made: bool,
}

impl Passed {
    /// Whether the data set has this name.
    pub fn is_of(&self, name: &DsName) -> bool
        ensures { result ≡ same_name name.now self.now.name }
    {
        name.is_same(&self.name)
    }
}

/// Where the program of a step stands.
#[derive(Drop)]
pub enum State {
    /// Of COPY, SELECT, PRINT and IEFBR14.
    Plain(ProgState),
    /// Of MERGE, MASTER and UPDATE.
    Matched(MatchState),
}

impl State {
    /// The same state again, which takes no memory.
    pub fn copied(&self) -> State
        ensures { result ≡ self.now }
    {
        match self {
            State::Plain(state) => State::Plain(*state),
            State::Matched(state) => State::Matched(copy_of(state)),
        }
    }
}

/// The same state of a program of two inputs.
fn copy_of(state: &MatchState) -> MatchState
    ensures { result ≡ state.now }
{
    MatchState {
        kind: state.kind,
        first: state.first,
        second: state.second,
        rejects: state.rejects,
        entries: state.entries,
        checkpointed: state.checkpointed,
        cancelled: state.cancelled,
        closed: state.closed,
        first_key: key_of(state.first_key.as_slice()),
        second_key: key_of(state.second_key.as_slice()),
        held: held_copy(&state.held),
        last: last_copy(&state.last),
    }
}

/// The record that is held, again.
fn held_copy(held: &Option<Rec>) -> Option<Rec>
    ensures { result ≡ held.now }
{
    match held {
        None => None,
        Some(image) => Some(image.copied()),
    }
}

/// The last master with its place, again.
fn last_copy(last: &Option<(u32, Rec)>) -> Option<(u32, Rec)>
    ensures { result ≡ last.now }
{
    match last {
        None => None,
        Some((place, image)) => Some((*place, image.copied())),
    }
}

/// A key of these bytes.
pub(crate) fn key_of(bytes: &[u8]) -> ArrayVec<u8, 32>
    requires { length bytes.now ≤ 32 }
    ensures { result.items ≡ bytes.now }
{
    match ArrayVec::try_from(bytes) {
        Ok(key) => key,
        Err(_) => unreachable!(),
    }
}

/// Where a run stood at the start of a step, or at a checkpoint in it.
#[derive(Drop)]
pub struct Point {
    /// The identifier of the checkpoint; None at the start of a step.
    pub id: Option<CheckId>,
    /// The name of the job.
    pub job: Name8,
    /// The number of the run, from 1.
    pub run: u32,
    /// The number of the run that owns the step, from 1.
    pub owner: u32,
    /// The number of the step, 1 to 64.
    pub step: u8,
    pub step_name: Name8,
    /// How many checkpoint entries the job had written, the one of this point included, at most 9,999,999.
    pub count: u32,
    /// How many records the step had taken, at most 2,000,000.
    pub taken: u32,
    /// How many writes the step had made, at most 3,000,000.
    pub writes: u32,
    /// Where the program stood; at a checkpoint with this checkpoint done and counted.
    pub state: State,
    /// The marks of the names of the job.
    pub marks: Marks,
    /// What was passed on and not yet received.
    pub passed: PassedList,
}
