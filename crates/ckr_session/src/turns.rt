//! Turns, and the lines for their replies.
ghost use Rattle.std.specs.Prelude.{◌≡◌, ◌<◌, ◌≤◌, ◌+◌, ◌-◌, ◌^◌, ◌++◌, [], OnOk, IfOk, IfErr, Some, None, length, false, true};
ghost use Rattle.std.specs.List.{flat_map};
ghost use Rattle.ckr_desk.specs.Model.Plans.{IsAnyCode, IsToldReply};
ghost use Rattle.ckr_desk.specs.Soundness.{IsTrusted};
ghost use Rattle.ckr_desk.specs.State.{IsOpen, disk_of, layout_of};
ghost use Rattle.ckr_session.specs.Stops.{Goes, Has, Stopped};
ghost use Rattle.ckr_outside.specs.Faults.{Rose};
ghost use Rattle.ckr_session.specs.Calls.{Turned, turns, turns_fit, after_turns, is_rest};
ghost use Rattle.ckr_session.specs.Events.{turns_events};
ghost use Rattle.ckr_session.specs.Service.{HaltCause, attended_of};
ghost use Rattle.ckr_session.specs.Staff.{attended_event, attended_fits, attended_reply, behind_attended};
ghost use Rattle.ckr_session.specs.Lines.{IsTold, telling};
ghost use Rattle.ckr_session.specs.Texts.{answer_text, run_text, goes_on, is_same_work, is_work, work_in, with_waiting, waiting_count};
ghost use Rattle.ckr_session.specs.Tallies.{with_replies};
ghost use Rattle.ckr_session.specs.Turns.{Adds, IsToldWaiting, TurnHalt, TurnsHaltTelling};

use crate::lines::Lines;
use crate::report::reply_line;
use crate::stop::Halt;
use crate::tally::Tally;
use crate::text::Text;
use ckr_base::{Name8, NoMemory};
use ckr_console::Operator;
use ckr_desk::{Desk, DeskError, Layout, Reply, Turn};
use ckr_outside::{Disk, Sink};

fn is_work(reply: &Reply) -> bool
    ensures { result ≡ is_work reply.now }
{
    matches!(reply, Reply::Worked { .. })
}

/// Whether the initiator rests behind a turn.
fn is_rest(reply: &Reply) -> bool
    ensures { result ≡ is_rest reply.now }
{
    matches!(
        reply,
        Reply::Idle | Reply::WaitingUnits { .. } | Reply::AwaitingReply
    )
}

/// Whether a reply tells of work of this step of this job.
fn is_work_of(job: u32, step: &Name8, reply: &Reply) -> bool
    ensures { result ≡ is_same_work (Some (job, step.now)) (work_in reply.now) }
{
    match reply {
        Reply::Worked {
            job: other,
            step: other_step,
            ..
        } => job == *other && step.text() == other_step.text(),
        _ => false,
    }
}

/// Whether one line tells both.
fn goes_on(last: &Reply, reply: &Reply) -> bool
    ensures { result ≡ goes_on last.now reply.now }
{
    match last {
        Reply::Worked { job, step, .. } => is_work_of(*job, step, reply),
        _ => false,
    }
}

/// The last replies in a row of work that one line will tell, and how many they are.
type Waiting = Option<(Reply, u32)>;

/// A reply behind the lines of those before it. It waits where others may go on it, and is told where none does.
fn begin(layout: &Layout, initiator: u8, reply: Reply, out: &mut Text) -> Result<Waiting, NoMemory>
    requires reply { IsToldReply reply }
    ensures adds { IfOk result (λ now. Adds layout.now initiator None reply now out.old out.new) }
    ensures count { IfOk result (λ now. waiting_count now ≤ 1) }
    ensures rest { IfOk result (λ now. is_rest reply ≡ true → now ≡ None) }
    ensures told { IfOk result (λ now. IsToldWaiting now) }
{
    if is_work(&reply) {
        return Ok(Some((reply, 1)));
    }
    reply_line(layout, initiator, &reply, 1, out)?;
    Ok(None)
}

/// Adds a reply to those that wait, or behind the line of those that it doesn't go on.
fn add(
    layout: &Layout,
    initiator: u8,
    waiting: Waiting,
    reply: Reply,
    out: &mut Text,
) -> Result<Waiting, NoMemory>
    requires count { waiting_count waiting < 2 ^ 32 - 1 }
    requires told { IsToldWaiting waiting }
    requires reply { IsToldReply reply }
    ensures adds { IfOk result (λ now. Adds layout.now initiator waiting reply now out.old out.new) }
    ensures count { IfOk result (λ now. waiting_count now ≤ waiting_count waiting + 1) }
    ensures rest { IfOk result (λ now. is_rest reply ≡ true → now ≡ None) }
    ensures told { IfOk result (λ now. IsToldWaiting now) }
{
    let Some((last, times)) = waiting else {
        return begin(layout, initiator, reply, out);
    };
    if goes_on(&last, &reply) {
        return Ok(Some((reply, times + 1)));
    }
    reply_line(layout, initiator, &last, times, out)?;
    begin(layout, initiator, reply, out)
}

/// The line for the replies that wait, which no other one goes on.
fn finish(layout: &Layout, initiator: u8, waiting: Waiting, out: &mut Text) -> Result<(), NoMemory>
    requires { IsToldWaiting waiting }
    ensures { OnOk result (out.new ≡ out.old ++ flat_map (run_text layout.now initiator) (with_waiting waiting [])) }
{
    match waiting {
        Some((last, times)) => reply_line(layout, initiator, &last, times, out),
        None => Ok(()),
    }
}

/// One turn of an initiator.
fn one_turn<D: Disk, O: Operator>(desk: &mut Desk<D, O>, turn: Turn) -> Result<Reply, Halt>
    requires above { 1 ≤ turn.initiator }
    requires below { turn.initiator ≤ (layout_of desk.old).initiators }
    requires code { IsAnyCode turn.fail }
    requires is_open { IsOpen desk.old }
    ensures reply { IsTrusted D.told D.content D.may_leave desk.old → IfOk result (λ reply. reply ≡ attended_reply (attended_of D.content desk.old) turn) }
    ensures told { IfOk result (λ reply. IsToldReply reply) }
    ensures fits { IsTrusted D.told D.content D.may_leave desk.old → OnOk result (attended_fits (attended_of D.content desk.old) turn ≡ true) }
    ensures after { IsTrusted D.told D.content D.may_leave desk.old → OnOk result (attended_of D.content desk.new ≡ behind_attended (attended_of D.content desk.old) turn) }
    ensures is_open { OnOk result (IsOpen desk.new) }
    ensures layout { layout_of desk.new ≡ layout_of desk.old }
    ensures events { IsTrusted D.told D.content D.may_leave desk.old → OnOk result (Has D.content D.moment D.left_since D.size desk.old (disk_of desk.new) (attended_event (attended_of D.content desk.old) turn)) }
    ensures trusted { OnOk result (IsTrusted D.told D.content D.may_leave desk.old → IsTrusted D.told D.content D.may_leave desk.new) }
    ensures goes { IsTrusted D.told D.content D.may_leave desk.old → OnOk result (Goes D.content D.moment D.left_since D.size desk.old desk.new) }
    ensures later { D.faults (disk_of desk.old) ≤ D.faults (disk_of desk.new) }
    ensures size { D.size (disk_of desk.new) ≡ D.size (disk_of desk.old) }
    ensures halt { IsTrusted D.told D.content D.may_leave desk.old → IfErr result (λ halt. Stopped D.content D.moment D.left_since D.size desk.old (disk_of desk.new) (TurnHalt halt turn (attended_of D.content desk.old))) }
    ensures cause { IfErr result (λ halt. HaltCause (IsTrusted D.told D.content D.may_leave desk.old) halt (D.faults (disk_of desk.old)) (D.faults (disk_of desk.new))) }
{
    match desk.turn(turn) {
        Ok(reply) => Ok(reply),
        Err(DeskError::NoMemory) => Err(Halt::Memory),
        Err(DeskError::BookFull { .. }) => Err(Halt::Book),
        Err(DeskError::DiskFault) => Err(Halt::Disk),
        Err(DeskError::Stopped { .. }) => unreachable!(),
    }
}

/// At most so many such turns of an initiator, up to the first behind which it rests, and their lines, which go out before the next turn. Work that isn't known to
/// have ended isn't told where a turn isn't made. Each reply is counted.
pub fn turned<K: Sink, D: Disk, O: Operator>(
    desk: &mut Desk<D, O>,
    turn: Turn,
    count: u32,
    tally: &mut Tally,
    lines: &mut Lines,
    sink: &mut K,
) -> Result<(), Halt>
    requires few { count ≤ 1_000_000 }
    requires above { 1 ≤ turn.initiator }
    requires below { turn.initiator ≤ (layout_of desk.old).initiators }
    requires code { IsAnyCode turn.fail }
    requires is_open { IsOpen desk.old }
    requires fresh { lines.old.failed ≡ false }
    ensures fits { IsTrusted D.told D.content D.may_leave desk.old → OnOk result (turns_fit turn count (attended_of D.content desk.old) ≡ true) }
    ensures text { IsTrusted D.told D.content D.may_leave desk.old → OnOk result (IsTold (telling lines.old (K.written sink.old) (K.faults sink.old))
        (lines.old.text ++ answer_text (Turned (layout_of desk.old) turn.initiator (turns turn count (attended_of D.content desk.old)))) (telling lines.new (K.written sink.new) (K.faults sink.new))) }
    ensures tally { IsTrusted D.told D.content D.may_leave desk.old → OnOk result (tally.new ≡ with_replies tally.old (turns turn count (attended_of D.content desk.old))) }
    ensures after { IsTrusted D.told D.content D.may_leave desk.old → OnOk result (attended_of D.content desk.new ≡ after_turns turn count (attended_of D.content desk.old)) }
    ensures is_open { OnOk result (IsOpen desk.new) }
    ensures layout { OnOk result (layout_of desk.new ≡ layout_of desk.old) }
    ensures events { IsTrusted D.told D.content D.may_leave desk.old → OnOk result (Has D.content D.moment D.left_since D.size desk.old (disk_of desk.new)
        (turns_events turn (length (turns turn count (attended_of D.content desk.old))) (attended_of D.content desk.old))) }
    ensures trusted { OnOk result (IsTrusted D.told D.content D.may_leave desk.old → IsTrusted D.told D.content D.may_leave desk.new) }
    ensures goes { IsTrusted D.told D.content D.may_leave desk.old → OnOk result (Goes D.content D.moment D.left_since D.size desk.old desk.new) }
    ensures later { D.faults (disk_of desk.old) ≤ D.faults (disk_of desk.new) }
    ensures size { D.size (disk_of desk.new) ≡ D.size (disk_of desk.old) }
    ensures halt { IsTrusted D.told D.content D.may_leave desk.old → IfErr result (λ halt. Stopped D.content D.moment D.left_since D.size desk.old (disk_of desk.new)
        (TurnsHaltTelling (layout_of desk.old) turn halt count (attended_of D.content desk.old) (telling lines.old (K.written sink.old) (K.faults sink.old)) (telling lines.new (K.written sink.new) (K.faults sink.new)))) }
    ensures cause { IfErr result (λ halt. HaltCause (IsTrusted D.told D.content D.may_leave desk.old) halt (D.faults (disk_of desk.old)) (D.faults (disk_of desk.new))) }
    ensures sink_later { K.faults sink.old ≤ K.faults sink.new }
    ensures failed { lines.new.failed ≡ true → Rose (K.faults sink.old) (K.faults sink.new) }
{
    let mut waiting = None;
    for _ in 0..count {
        lines.write(sink);
        let reply = one_turn(desk, turn)?;
        tally.count(&reply);
        let rests = is_rest(&reply);
        waiting = add(
            desk.layout(),
            turn.initiator,
            waiting,
            reply,
            &mut lines.text,
        )?;
        if rests {
            return Ok(());
        }
    }
    finish(desk.layout(), turn.initiator, waiting, &mut lines.text)?;
    Ok(())
}
