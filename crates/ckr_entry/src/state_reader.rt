//! Reading the state of a program.
ghost use Rattle.std.specs.Prelude.{◌≡◌};
ghost use Rattle.ckr_fields.specs.Readers.{Gives};
ghost use Rattle.ckr_fields.specs.Fields.{record_bytes};
ghost use Rattle.ckr_entry.specs.Numbers.{given_at};
ghost use Rattle.ckr_entry.specs.States.{taken_of_inputs, counts_at, key_at, placed, copy_at, select_at, merge_at, master_at, update_at, print_at, state_behind, state_at, plain_state, matched_state};

use crate::head::Counts;
use crate::numbers::{number, sum};
use crate::point::{State, key_of};
use arrayvec::ArrayVec;
use ckr_base::Rec;
use ckr_fields::{Fields, ReadError};
use ckr_match::MatchState;
use ckr_programs::{Kind, ProgState};

/// The records taken of the two inputs, `taken` together.
#[tactic(auto, unfolding(ckr_fields::specs::Fields::judged_at))]
fn taken_of_inputs(fields: &mut Fields, taken: u32) -> Result<(u32, u32), ReadError>
    ensures { Gives (λ x. x) ((taken_of_inputs taken).read fields.old) result fields.new }
{
    let first = number(fields, 0, taken.min(1_000_000))?;
    let left = fields.left();
    let second = fields.four_bytes()?;
    if second <= 1_000_000 && first + second == taken {
        Ok((first, second))
    } else {
        Err(ReadError::Wrong(left))
    }
}

/// The counts of a step that has taken so many records.
#[tactic(auto, unfolding(crate::specs::States::counts_at))]
fn counts(fields: &mut Fields, taken: u32) -> Result<Counts, ReadError>
    ensures { Gives (λ x. x) (counts_at taken fields.old) result fields.new }
{
    let (first, second) = taken_of_inputs(fields, taken)?;
    let rejects = number(fields, 0, 1_000_000)?;
    let entries = number(fields, 1, 1_000_000)?;
    Ok(Counts {
        first,
        second,
        rejects,
        entries,
    })
}

/// The key of the last record of an input.
#[tactic(auto, unfolding(crate::specs::States::key_at, ckr_fields::specs::Fields::text_at))]
fn key(fields: &mut Fields) -> Result<ArrayVec<u8, 32>, ReadError>
    ensures { Gives (λ x. x) (key_at fields.old) result fields.new }
{
    let size = fields.byte_between(0, 32)?;
    let bytes = fields.bytes(size as usize)?;
    Ok(key_of(bytes))
}

/// The master that MASTER holds, if it holds one.
#[tactic(auto, unfolding(crate::specs::Numbers::given_at))]
fn held(fields: &mut Fields) -> Result<Option<Rec>, ReadError>
    ensures { Gives (λ x. x) (given_at record_bytes.read fields.old) result fields.new }
{
    if !fields.flag()? {
        return Ok(None);
    }
    let held = fields.record_bytes()?;
    Ok(Some(held))
}

/// A master with its place among the records taken of the first input.
#[tactic(auto, unfolding(ckr_fields::specs::Fields::judged_at))]
fn placed(fields: &mut Fields, first: u32) -> Result<(u32, Rec), ReadError>
    ensures { Gives (λ x. x) ((placed first).read fields.old) result fields.new }
{
    let left = fields.left();
    let place = fields.four_bytes()?;
    if place >= first {
        return Err(ReadError::Wrong(left));
    }
    let master = fields.record_bytes()?;
    Ok((place, master))
}

/// The last master that UPDATE took, with its place, if it took one.
#[tactic(auto, unfolding(crate::specs::Numbers::given_at))]
fn last(fields: &mut Fields, first: u32) -> Result<Option<(u32, Rec)>, ReadError>
    ensures { Gives (λ x. x) (given_at (placed first).read fields.old) result fields.new }
{
    if !fields.flag()? {
        return Ok(None);
    }
    let last = placed(fields, first)?;
    Ok(Some(last))
}

/// A state of a program of one input at a checkpoint.
fn plain(kind: Kind, counts: Counts, sum: u128) -> State
    ensures { result ≡ State.Plain (plain_state kind counts sum) }
{
    State::Plain(ProgState {
        kind,
        first: counts.first,
        second: counts.second,
        rejects: counts.rejects,
        entries: counts.entries,
        checkpointed: true,
        cancelled: false,
        closed: false,
        sum,
    })
}

/// A state of a program of two inputs at a checkpoint.
fn matched(
    kind: Kind,
    counts: Counts,
    first_key: ArrayVec<u8, 32>,
    second_key: ArrayVec<u8, 32>,
    held: Option<Rec>,
    last: Option<(u32, Rec)>,
) -> State
    ensures { result ≡ State.Matched (matched_state kind counts first_key second_key held last) }
{
    State::Matched(MatchState {
        kind,
        first: counts.first,
        second: counts.second,
        rejects: counts.rejects,
        entries: counts.entries,
        checkpointed: true,
        cancelled: false,
        closed: false,
        first_key,
        second_key,
        held,
        last,
    })
}

/// The state of COPY.
#[tactic(auto, unfolding(crate::specs::States::copy_at))]
fn copying(fields: &mut Fields, taken: u32) -> Result<State, ReadError>
    ensures { Gives (λ x. x) (copy_at taken fields.old) result fields.new }
{
    let counts = counts(fields, taken)?;
    Ok(plain(Kind::Copy, counts, 0))
}

/// The state of SELECT.
#[tactic(auto, unfolding(crate::specs::States::select_at))]
fn selecting(fields: &mut Fields, taken: u32) -> Result<State, ReadError>
    ensures { Gives (λ x. x) (select_at taken fields.old) result fields.new }
{
    let counts = counts(fields, taken)?;
    Ok(plain(Kind::Select, counts, 0))
}

/// The state of MERGE.
#[tactic(auto, unfolding(crate::specs::States::merge_at))]
fn merging(fields: &mut Fields, taken: u32) -> Result<State, ReadError>
    ensures { Gives (λ x. x) (merge_at taken fields.old) result fields.new }
{
    let counts = counts(fields, taken)?;
    let first_key = key(fields)?;
    let second_key = key(fields)?;
    Ok(matched(Kind::Merge, counts, first_key, second_key, None, None))
}

/// The state of MASTER.
#[tactic(auto, unfolding(crate::specs::States::master_at))]
fn mastering(fields: &mut Fields, taken: u32) -> Result<State, ReadError>
    ensures { Gives (λ x. x) (master_at taken fields.old) result fields.new }
{
    let counts = counts(fields, taken)?;
    let first_key = key(fields)?;
    let second_key = key(fields)?;
    let held = held(fields)?;
    Ok(matched(Kind::Master, counts, first_key, second_key, held, None))
}

/// The state of UPDATE.
#[tactic(auto, unfolding(crate::specs::States::update_at))]
fn updating(fields: &mut Fields, taken: u32) -> Result<State, ReadError>
    ensures { Gives (λ x. x) (update_at taken fields.old) result fields.new }
{
    let counts = counts(fields, taken)?;
    let first_key = key(fields)?;
    let second_key = key(fields)?;
    let last = last(fields, counts.first)?;
    Ok(matched(Kind::Update, counts, first_key, second_key, None, last))
}

/// The state of PRINT.
#[tactic(auto, unfolding(crate::specs::States::print_at))]
fn printing(fields: &mut Fields, taken: u32) -> Result<State, ReadError>
    ensures { Gives (λ x. x) (print_at taken fields.old) result fields.new }
{
    let counts = counts(fields, taken)?;
    let sum = sum(fields)?;
    Ok(plain(Kind::Print, counts, sum))
}

/// The state of a step that has taken so many records.
#[tactic(auto, unfolding(crate::specs::States::state_at, crate::specs::States::state_behind))]
pub(crate) fn state(fields: &mut Fields, taken: u32) -> Result<State, ReadError>
    ensures { Gives (λ x. x) (state_at taken fields.old) result fields.new }
{
    let left = fields.left();
    match fields.byte()? {
        1 => copying(fields, taken),
        2 => selecting(fields, taken),
        3 => merging(fields, taken),
        4 => mastering(fields, taken),
        5 => updating(fields, taken),
        6 => printing(fields, taken),
        _ => Err(ReadError::Wrong(left)),
    }
}
