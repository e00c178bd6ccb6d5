//! The state of a step's program, whichever it is.
ghost use Rattle.std.specs.Prelude.{◌≡◌, ◌≤◌, ◌<◌, ◌+◌, ℕ, IsSome, length};
ghost use Rattle.ckr_base.specs.declared.programs.NextDue.TheVariants.{Unit as OneUnit};
ghost use Rattle.ckr_match.specs.State.{has_two_inputs};
ghost use Rattle.ckr_meaning.specs.States.{first_of, second_of};
ghost use Rattle.ckr_steps.specs.Units.{first_state, due_of, served_of, unit_of, state_of, taken_of, entries_of, IsCounted};

use ckr_base::{Heads, NextDue, UnitDone};
use ckr_entry::State;
use ckr_jcl::{Kind, Parm};
use ckr_match::MatchState;
use ckr_programs::ProgState;

/// Whether it is a program of two inputs.
fn has_two_inputs(kind: Kind) -> bool
    ensures { result ≡ has_two_inputs kind }
{
    matches!(kind, Kind::Merge | Kind::Master | Kind::Update)
}

/// The state before the first record of a program.
#[tactic(auto, unfolding(crate::specs::Units::first_state))]
pub(crate) fn first_state(kind: Kind) -> State
    ensures { result ≡ first_state kind }
{
    if has_two_inputs(kind) {
        State::Matched(MatchState::first(kind))
    } else {
        State::Plain(ProgState::first(kind))
    }
}

/// What is due.
#[tactic(auto, unfolding(crate::specs::Units::due_of))]
pub(crate) fn due(state: &State, parm: &Parm) -> NextDue
    ensures { result ≡ due_of parm.now state.now }
{
    match state {
        State::Plain(state) => ckr_programs::due(state, parm),
        State::Matched(state) => ckr_match::due(state, parm),
    }
}

/// What is due is done.
#[tactic(auto, unfolding(crate::specs::Units::served_of))]
pub(crate) fn served(state: &mut State, parm: &Parm, written: bool)
    requires { entries_of state.old ≤ 1000000 }
    ensures { state.new ≡ served_of parm.now written state.old }
{
    match state {
        State::Plain(state) => ckr_programs::served(state, parm, written),
        State::Matched(state) => ckr_match::served(state, parm, written),
    }
}

/// One unit of the program's work, of a step with so many writes, where more than a million records of an input are never there.
#[tactic(auto, unfolding(crate::specs::Units::due_of, crate::specs::Units::unit_of, crate::specs::Units::state_of))]
pub(crate) fn unit(state: &mut State, parm: &Parm, heads: &Heads, writes: u32) -> UnitDone
    requires due { due_of parm.now state.old ≡ OneUnit }
    requires counted { IsCounted parm.now state.old writes }
    requires first { IsSome heads.now.first → first_of state.old < 1000000 }
    requires second { IsSome heads.now.second → second_of state.old < 1000000 }
    ensures unit { result ≡ unit_of parm.now state.old heads.now }
    ensures state { state.new ≡ state_of parm.now state.old heads.now }
    ensures counted { (more : ℕ) → more ≤ 4 → more ≤ length result.writes.items → IsCounted parm.now state.new (writes + more) }
{
    match state {
        State::Plain(state) => ckr_programs::unit(state, parm, heads),
        State::Matched(state) => ckr_match::unit(state, parm, heads),
    }
}

/// The records taken of the first input.
pub(crate) fn first_of(state: &State) -> u32
    ensures { result ≡ first_of state.now }
{
    match state {
        State::Plain(state) => state.first,
        State::Matched(state) => state.first,
    }
}

/// The records taken of the second input.
pub(crate) fn second_of(state: &State) -> u32
    ensures { result ≡ second_of state.now }
{
    match state {
        State::Plain(state) => state.second,
        State::Matched(state) => state.second,
    }
}

/// The records taken of all inputs.
pub(crate) fn taken_of(state: &State) -> u32
    requires first { first_of state.now ≤ 1000001 }
    requires second { second_of state.now ≤ 1000001 }
    ensures { result ≡ taken_of state.now }
{
    first_of(state) + second_of(state)
}
