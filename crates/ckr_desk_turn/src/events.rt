//! The event of each thing that a turn does.
ghost use Rattle.std.specs.Prelude.{◌≡◌, ◌≤◌, length, None};
ghost use Rattle.ckr_events.specs.Format.{length_list, all_made};
ghost use Rattle.ckr_rules.specs.RuleTables.{rule_number};
ghost use Rattle.ckr_desk_turn.specs.Allocation.{cause_numbers};
ghost use Rattle.ckr_desk_turn.specs.Spelling.{IsSpelled, IsCode};

use crate::Cause;
use arrayvec::ArrayVec;
use ckr_base::{CheckId, Code, Rec};
use ckr_events::{Ending, Event, MadeSets};
use ckr_rules::Rule;

/// A run is selected on an initiator.
pub fn selected_event(job: u32, initiator: u8) -> Event
    ensures event { result ≡ Event.Selected job initiator 0 0 None }
    ensures spelled { IsSpelled result }
{
    Event::Selected {
        job,
        initiator,
        earlier: 0,
        step: 0,
        id: None,
    }
}

/// A queued run is purged.
pub fn purged_event(job: u32) -> Event
    ensures event { result ≡ Event.Purged job }
    ensures spelled { IsSpelled result }
{
    Event::Purged { job }
}

/// A step has ended. Steps are numbered from 1.
pub fn step_ended_event(
    job: u32,
    step: u8,
    rc: u16,
    writes: u32,
    lengths: ArrayVec<u32, 16>,
) -> Event
    requires step { 1 ≤ step }
    requires lengths { length_list.fits lengths.items }
    ensures event { result ≡ Event.StepEnded job step rc writes lengths }
    ensures spelled { IsSpelled result }
{
    Event::StepEnded {
        job,
        step,
        rc,
        writes,
        lengths,
    }
}

/// A step has written a checkpoint's entry behind the last record of its data set: its identifier, the records taken and the writes made so
/// far, the place of its first record, counted from 0, and the number of its bytes.
pub fn checkpointed_event(
    job: u32,
    id: CheckId,
    taken: u32,
    writes: u32,
    lengths: ArrayVec<u32, 16>,
    place: u32,
    bytes: u32,
) -> Event
    requires lengths { length_list.fits lengths.items }
    ensures event { result ≡ Event.Checkpointed job id taken writes lengths place bytes }
    ensures spelled { IsSpelled result }
{
    let _grammar = id.text();
    Event::Checkpointed {
        job,
        id,
        taken,
        writes,
        lengths,
        place,
        bytes,
    }
}

/// A step has cancelled the request for automatic restarts.
pub fn cancelled_event(job: u32) -> Event
    ensures event { result ≡ Event.Cancelled job }
    ensures spelled { IsSpelled result }
{
    Event::Cancelled { job }
}

/// A job has ended behind its last step.
pub fn completed_event(job: u32) -> Event
    ensures event { result ≡ Event.Ended job Ending.Completed }
    ensures spelled { IsSpelled result }
{
    Event::Ended {
        job,
        ending: Ending::Completed,
    }
}

/// A job is restarted on an initiator after a code, at its checkpoint in effect or at the start of its step. The code's number is at most 4095.
pub fn restarted_event(job: u32, initiator: u8, code: Code, checkpoint: bool) -> Event
    requires code { IsCode code }
    ensures event { result ≡ Event.Restarted job initiator code checkpoint }
    ensures spelled { IsSpelled result }
{
    Event::Restarted {
        job,
        initiator,
        code,
        checkpoint,
    }
}

/// The number by which events tell a rule.
pub fn rule_number(rule: Rule) -> u8
    ensures value { result ≡ rule_number rule }
    ensures most { result ≤ 26 }
{
    match rule {
        Rule::A1 => 1,
        Rule::A2 => 2,
        Rule::A3 => 3,
        Rule::A4 => 4,
        Rule::A5 => 5,
        Rule::A6 => 6,
        Rule::D1 => 17,
        Rule::D2 => 18,
        Rule::D3 => 19,
        Rule::D4 => 20,
        Rule::D5 => 21,
        Rule::D6 => 22,
        Rule::D7 => 23,
        Rule::D8 => 24,
        Rule::D9 => 25,
        Rule::D10 => 26,
    }
}

/// A job has ended with a code, after which one of the rules A1 to A6 denied a restart. The code's number is at most 4095.
#[tactic(auto, using(crate::proofs::Spelling::coded_spelled))]
pub fn coded_event(
    job: u32,
    code: Code,
    rule: Rule,
    writes: u32,
    lengths: ArrayVec<u32, 16>,
) -> Event
    requires code { IsCode code }
    requires rule { rule_number rule ≤ 6 }
    requires lengths { length_list.fits lengths.items }
    ensures event { result ≡ Event.Ended job (Ending.Coded code (rule_number rule) writes lengths) }
    ensures spelled { IsSpelled result }
{
    Event::Ended {
        job,
        ending: Ending::Coded {
            code,
            rule: rule_number(rule),
            writes,
            lengths,
        },
    }
}

/// A job is held with a code. The code's number is at most 4095.
#[tactic(auto, using(crate::proofs::Spelling::held_spelled))]
pub fn held_event(job: u32, code: Code, writes: u32, lengths: ArrayVec<u32, 16>) -> Event
    requires code { IsCode code }
    requires lengths { length_list.fits lengths.items }
    ensures event { result ≡ Event.Held job code writes lengths }
    ensures spelled { IsSpelled result }
{
    Event::Held {
        job,
        code,
        writes,
        lengths,
    }
}

/// A held job is released.
pub fn released_event(job: u32) -> Event
    ensures event { result ≡ Event.Released job }
    ensures spelled { IsSpelled result }
{
    Event::Released { job }
}

/// The number of a cause, and its two numbers; one that a cause doesn't have is 0.
fn cause_numbers(cause: Cause) -> (u8, u32, u32)
    ensures { (result.0, result.1, result.2) ≡ cause_numbers cause }
{
    match cause {
        Cause::Missing => (1, 0, 0),
        Cause::Exists => (2, 0, 0),
        Cause::WrongKind => (3, 0, 0),
        Cause::WrongVolume => (4, 0, 0),
        Cause::NoVolume => (5, 0, 0),
        Cause::NoSpace { need, free } => (6, need, free),
        Cause::Units { need, units } => (7, need as u32, units as u32),
        Cause::MountRefused { volume } => (8, volume as u32, 0),
    }
}

/// The data set of a DD of the job's next step couldn't be allocated, and the job has ended.
pub fn allocation_event(job: u32, dd: u8, cause: Cause) -> Event
    ensures event { result ≡ Event.Ended job (Ending.Allocation dd (cause_numbers cause).0 (cause_numbers cause).1 (cause_numbers cause).2) }
    ensures spelled { IsSpelled result }
{
    let (number, first, second) = cause_numbers(cause);
    Event::Ended {
        job,
        ending: Ending::Allocation {
            dd,
            cause: number,
            first,
            second,
        },
    }
}

/// A step has started, with the data sets that it makes. Steps are numbered from 1.
pub fn started_event(job: u32, step: u8, made: MadeSets) -> Event
    requires step { 1 ≤ step }
    requires made { all_made.fits made.items }
    ensures event { result ≡ Event.Started job step made }
    ensures spelled { IsSpelled result }
{
    Event::Started { job, step, made }
}

/// A step has rewritten a record in place: the place, counted from 0, and the record as it is now.
pub fn rewritten_event(
    job: u32,
    taken: u32,
    writes: u32,
    lengths: ArrayVec<u32, 16>,
    place: u32,
    image: Rec,
) -> Event
    requires lengths { length_list.fits lengths.items }
    requires image { length image ≤ 256 }
    ensures event { result ≡ Event.Rewritten job taken writes lengths place image }
    ensures spelled { IsSpelled result }
{
    Event::Rewritten {
        job,
        taken,
        writes,
        lengths,
        place,
        image,
    }
}
