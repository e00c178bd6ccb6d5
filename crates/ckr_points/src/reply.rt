//! What a turn answers.

use crate::Denial;
use ckr_base::{CheckId, Code, Name8};
use ckr_points_library::Cause;
use ckr_rules::Rule;

/// What CHKPT comes to (IBM GC28-6708).
#[derive(Clone, Copy)]
pub enum Chkpt {
    /// The entry is written: code 00.
    Done,
    /// No entry is written: code 08.
    NotWritten,
    /// The RD in effect suppresses CHKPT: code 00, and nothing is written.
    Suppressed,
}

/// How a job ended.
#[derive(Drop)]
pub enum How {
    /// After its last step.
    Completed,
    /// By this code, after which this rule denied a restart.
    Abended {
        code: Code,
        rule: Rule,
    },
    /// The data set of this DD of this step couldn't be allocated.
    Allocation {
        step: Name8,
        dd: Name8,
        cause: Cause,
    },
}

/// What a turn answers. `job` is the number of the job, and `step` the name of its step.
#[derive(Drop)]
pub enum Reply {
    /// There is no job to be run: none is released, and each queued one would use what a selected one holds.
    Idle,
    /// A code was given, and no step runs on the initiator.
    NothingToFail,
    /// The operator hasn't answered.
    AwaitingReply,
    /// The step needs more units than are free.
    WaitingUnits {
        need: u8,
        free: u8,
    },
    /// The job is on the initiator from now on.
    Selected {
        job: u32,
    },
    /// The restart that the job asks for is denied.
    DeniedRestart {
        job: u32,
        denial: Denial,
    },
    /// The step has begun.
    Started {
        job: u32,
        step: Name8,
    },
    /// One unit of work is done, and `taken` records are taken so far.
    Worked {
        job: u32,
        step: Name8,
        taken: u32,
    },
    /// A checkpoint was due; `id` is None exactly where it is suppressed.
    Checkpointed {
        job: u32,
        step: Name8,
        code: Chkpt,
        id: Option<CheckId>,
    },
    /// CHKPT CANCEL was due.
    Cancelled {
        job: u32,
        step: Name8,
    },
    /// The step has ended with this return code.
    StepEnded {
        job: u32,
        step: Name8,
        rc: u16,
    },
    /// The job goes on at a checkpoint, or where `id` is None at the start of the step.
    Restarted {
        job: u32,
        step: Name8,
        id: Option<CheckId>,
        taken: u32,
    },
    /// The operator holds the job, and the initiator is free.
    JobHeld {
        job: u32,
    },
    /// The job has ended, and the initiator is free.
    JobEnded {
        job: u32,
        how: How,
    },
}
