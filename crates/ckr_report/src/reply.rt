//! The lines for the replies of an initiator.
ghost use Rattle.std.specs.Prelude.{◌≡◌, ◌≤◌, ◌+◌, [], ◌∷◌, ◌++◌, codes, length};
ghost use Rattle.std.specs.Fmt.{decimal};
ghost use Rattle.arrayvec.specs.ArrayVec.{array_vec_len};
ghost use Rattle.ckr_points.specs.Replies.{IsToldReply};
ghost use Rattle.ckr_report.specs.Replies.{chkpt_code, entry_text, job_part, reply_part, reply_text, restart_text, step_part};

use crate::denial::denied;
use crate::ending::job_ended;
use crate::name::{check_id, short_name};
use crate::text_line::{TextLine, counted, initiator_part, job, put};
use ckr_base::{CheckId, Name8};
use ckr_points::{Chkpt, Reply};
use ckr_volumes::Layout;

/// The line for so many replies of an initiator in a row, of which this is the last (this project's profile).
pub fn reply_line(initiator: u8, reply: &Reply, times: u32, layout: &Layout, out: &mut TextLine)
    requires empty { out.old.items ≡ [] }

    // A code with which a job ended has a spelling.
    requires told { IsToldReply reply.now }
    ensures text { out.new.items ≡ reply_text layout.now initiator reply.now times }
    ensures bound { length (reply_text layout.now initiator reply.now times) ≤ 400 }
{
    initiator_part(initiator, out);
    reply_part(layout, reply, times, out);
}

/// What stands behind the initiator.
fn reply_part(layout: &Layout, reply: &Reply, times: u32, out: &mut TextLine)
    requires told { IsToldReply reply.now }
    requires room { array_vec_len out.old + 270 ≤ 400 }
    ensures text { out.new.items ≡ out.old.items ++ reply_part layout.now reply.now times }
    ensures few { array_vec_len out.new ≤ array_vec_len out.old + 270 }
{
    match reply {
        Reply::Idle => put(b" IDLE\n", out),
        Reply::NothingToFail => put(b" NOTHING TO FAIL\n", out),
        Reply::AwaitingReply => put(b" AWAITING REPLY\n", out),
        Reply::WaitingUnits { need, free } => waiting_units(*need, *free, out),
        Reply::Selected { job } => job_told(*job, b" SELECTED\n", out),
        Reply::DeniedRestart { job, denial } => denied(*job, denial, out),
        Reply::Started { job, step } => step_told(*job, step, b" STARTED\n", out),
        Reply::Worked { job, step, taken } => worked(*job, step, times, *taken, out),
        Reply::Checkpointed {
            job,
            step,
            code,
            id,
        } => checkpointed(*job, step, *code, id, out),
        Reply::Cancelled { job, step } => step_told(*job, step, b" CHKPT CANCEL\n", out),
        Reply::StepEnded { job, step, rc } => step_ended(*job, step, *rc, out),
        Reply::Restarted {
            job,
            step,
            id,
            taken,
        } => restarted(*job, step, id, *taken, out),
        Reply::JobHeld { job } => job_told(*job, b" HELD\n", out),
        Reply::JobEnded { job, how } => job_ended(layout, *job, how, out),
    }
}

/// A blank and the job.
pub(crate) fn job_part(number: u32, out: &mut TextLine)
    requires room { array_vec_len out.old + 29 ≤ 400 }
    ensures text { out.new.items ≡ out.old.items ++ job_part number }
    ensures few { array_vec_len out.new ≤ array_vec_len out.old + 29 }
{
    put(b" ", out);
    job(number, out);
}

/// The job and the step.
fn step_part(number: u32, step: &Name8, out: &mut TextLine)
    requires room { array_vec_len out.old + 38 ≤ 400 }
    ensures text { out.new.items ≡ out.old.items ++ step_part number step.now }
    ensures few { array_vec_len out.new ≤ array_vec_len out.old + 38 }
{
    job_part(number, out);
    put(b" ", out);
    short_name(step, out);
}

/// The job, and at most 30 bytes behind it.
fn job_told(number: u32, words: &[u8], out: &mut TextLine)
    requires words { length words.now ≤ 30 }
    requires room { array_vec_len out.old + 59 ≤ 400 }
    ensures text { out.new.items ≡ out.old.items ++ (job_part number ++ words.now) }
    ensures few { array_vec_len out.new ≤ array_vec_len out.old + 59 }
{
    job_part(number, out);
    put(words, out);
}

/// The job and the step, and at most 30 bytes behind these.
fn step_told(number: u32, step: &Name8, words: &[u8], out: &mut TextLine)
    requires words { length words.now ≤ 30 }
    requires room { array_vec_len out.old + 68 ≤ 400 }
    ensures text { out.new.items ≡ out.old.items ++ (step_part number step.now ++ words.now) }
    ensures few { array_vec_len out.new ≤ array_vec_len out.old + 68 }
{
    step_part(number, step, out);
    put(words, out);
}

fn waiting_units(need: u8, free: u8, out: &mut TextLine)
    requires room { array_vec_len out.old + 101 ≤ 400 }
    ensures text { out.new.items ≡ out.old.items ++ (codes " WAITING UNITS NEED " ++ decimal need ++ codes " FREE " ++ decimal free ++ 10 ∷ []) }
    ensures few { array_vec_len out.new ≤ array_vec_len out.old + 101 }
{
    counted(b" WAITING UNITS NEED ", u64::from(need), out);
    counted(b" FREE ", u64::from(free), out);
    put(b"\n", out);
}

fn worked(number: u32, step: &Name8, times: u32, taken: u32, out: &mut TextLine)
    requires room { array_vec_len out.old + 139 ≤ 400 }
    ensures text { out.new.items ≡ out.old.items ++ (step_part number step.now ++ codes " WORKED " ++ decimal times ++ codes " TAKEN " ++ decimal taken ++ 10 ∷ []) }
    ensures few { array_vec_len out.new ≤ array_vec_len out.old + 139 }
{
    step_part(number, step, out);
    counted(b" WORKED ", u64::from(times), out);
    counted(b" TAKEN ", u64::from(taken), out);
    put(b"\n", out);
}

fn step_ended(number: u32, step: &Name8, rc: u16, out: &mut TextLine)
    requires room { array_vec_len out.old + 89 ≤ 400 }
    ensures text { out.new.items ≡ out.old.items ++ (step_part number step.now ++ codes " ENDED RC " ++ decimal rc ++ 10 ∷ []) }
    ensures few { array_vec_len out.new ≤ array_vec_len out.old + 89 }
{
    step_part(number, step, out);
    counted(b" ENDED RC ", u64::from(rc), out);
    put(b"\n", out);
}

// ---- checkpoints and restarts

fn chkpt_code(code: Chkpt) -> &'static [u8; 2]
    ensures { result.now ≡ chkpt_code code }
{
    match code {
        Chkpt::Done | Chkpt::Suppressed => b"00",
        Chkpt::NotWritten => b"08",
    }
}

/// The entry that was written, or that none was to be.
fn entry(id: &Option<CheckId>, out: &mut TextLine)
    requires room { array_vec_len out.old + 17 ≤ 400 }
    ensures text { out.new.items ≡ out.old.items ++ entry_text id.now }
    ensures few { array_vec_len out.new ≤ array_vec_len out.old + 17 }
{
    match id {
        Some(id) => {
            put(b" ", out);
            check_id(id, out);
        }
        None => put(b" SUPPRESSED", out),
    }
}

fn checkpointed(number: u32, step: &Name8, code: Chkpt, id: &Option<CheckId>, out: &mut TextLine)
    requires room { array_vec_len out.old + 65 ≤ 400 }
    ensures text { out.new.items ≡ out.old.items ++ (step_part number step.now ++ codes " CHKPT " ++ chkpt_code code ++ entry_text id.now ++ 10 ∷ []) }
    ensures few { array_vec_len out.new ≤ array_vec_len out.old + 65 }
{
    step_part(number, step, out);
    put(b" CHKPT ", out);
    put(chkpt_code(code), out);
    entry(id, out);
    put(b"\n", out);
}

/// Where a job goes on.
fn restart(id: &Option<CheckId>, taken: u32, out: &mut TextLine)
    requires room { array_vec_len out.old + 75 ≤ 400 }
    ensures text { out.new.items ≡ out.old.items ++ restart_text id.now taken }
    ensures few { array_vec_len out.new ≤ array_vec_len out.old + 75 }
{
    match id {
        Some(id) => {
            check_id(id, out);
            counted(b" TAKEN ", u64::from(taken), out);
            put(b" CHKPT 04", out);
        }
        None => put(b"STEP", out),
    }
}

fn restarted(number: u32, step: &Name8, id: &Option<CheckId>, taken: u32, out: &mut TextLine)
    requires room { array_vec_len out.old + 128 ≤ 400 }
    ensures text { out.new.items ≡ out.old.items ++ (step_part number step.now ++ codes " RESTARTED AT " ++ restart_text id.now taken ++ 10 ∷ []) }
    ensures few { array_vec_len out.new ≤ array_vec_len out.old + 128 }
{
    step_part(number, step, out);
    put(b" RESTARTED AT ", out);
    restart(id, taken, out);
    put(b"\n", out);
}
