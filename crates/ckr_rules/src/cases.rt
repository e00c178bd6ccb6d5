//! The cases of a restart, and what the rules say of them.

use ckr_jcl::Rd;

/// A rule by which a restart is denied (the rules are IBM GC28-6708's, restated; this project's profile numbers them).
#[derive(Clone, Copy, PartialEq, Eq)]
pub enum Rule {
    /// RD is NR or NC.
    A1,
    /// RD is omitted, and no checkpoint is in effect.
    A2,
    /// The code isn't in the installation's list.
    A3,
    /// The run rewrote a record in place since the point.
    A4,
    /// The run has three restarts at this point already.
    A5,
    /// The operator replied NO.
    A6,
    /// No run of this job name was ever selected, or the entry's run isn't known.
    D1,
    /// SYSCHK's data set isn't found on its volume, or has no checkpoint entries.
    D2,
    /// No entry of that identifier stands in it.
    D3,
    /// The entry is of another job name or another step name.
    D4,
    /// The earlier run hasn't ended.
    D5,
    /// The earlier run didn't start that step itself or continue in it.
    D6,
    /// The step's statements differ.
    D7,
    /// A needed name that was there doesn't exist.
    D8,
    /// A needed name that wasn't there exists.
    D9,
    /// A needed name has another stamp, another length or the wrong kind.
    D10,
}

/// Where a run goes on, or the rule by which it doesn't.
#[derive(Clone, Copy, PartialEq, Eq)]
pub enum Verdict {
    /// At the start of the step.
    Step,
    /// At the checkpoint.
    Checkpoint,
    Denied(Rule),
}

/// What an automatic restart is judged by.
#[derive(Clone, Copy)]
pub struct AutoCase {
    /// The RD in effect; None where it is omitted.
    pub rd: Option<Rd>,
    /// Whether a checkpoint is in effect.
    pub checkpoint: bool,
    /// Whether the code is in the installation's list.
    pub eligible: bool,
    /// Whether the run rewrote a record in place since the point.
    pub rewritten: bool,
    /// The run's restarts at the point.
    pub restarts: u8,
    /// Whether the operator replied NO.
    pub refused: bool,
}

/// What a deferred restart is judged by.
#[derive(Clone, Copy)]
pub struct DeferredCase {
    /// Whether RESTART names a checkpoint.
    pub checkpoint: bool,
    /// Whether a run of this job name was selected, and the entry's run, where the entry was found, is known.
    pub known: bool,
    /// Whether SYSCHK's data set was found and has checkpoint entries.
    pub found_set: bool,
    /// Whether the entry was found in it.
    pub found_entry: bool,
    /// Whether the entry is of this job name and this step name.
    pub same_job_step: bool,
    /// Whether the earlier run has ended.
    pub ended: bool,
    /// Whether the earlier run started that step itself or continued in it.
    pub reached: bool,
    /// Whether the step has the same statements.
    pub same_statements: bool,
    /// The rule among D8 to D10 that the least stale needed name meets.
    pub stale: Option<Rule>,
}
