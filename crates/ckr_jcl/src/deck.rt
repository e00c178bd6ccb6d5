//! A deck as it is read: a job, its steps and their DDs.

use crate::{Cards, Conds, Dds, Steps};
use arrayvec::ArrayVec;
use ckr_base::{CheckId, DsName, Name8, Volser};

/// The restarts that a job or a step asks for (IBM GC28-6708).
#[derive(Clone, Copy, PartialEq, Eq)]
pub enum Rd {
    /// Automatic restarts at the step and at a checkpoint.
    R,
    /// Automatic restarts at the step; checkpoints are suppressed.
    Rnc,
    /// No automatic restart; checkpoints are written.
    Nr,
    /// No automatic restart; checkpoints are suppressed.
    Nc,
}

/// A program (this project's profile; IEFBR14 is IBM's).
#[derive(Clone, Copy, PartialEq, Eq)]
pub enum Kind {
    Copy,
    Select,
    Merge,
    Master,
    Update,
    Print,
    /// IEFBR14, which reads and writes nothing.
    Br14,
}

/// What PARM says to a program. A 0 or an empty text was not given.
#[derive(PartialEq, Eq, Drop)]
pub struct Parm {
    /// A checkpoint is taken after as many records, 1 to 9,999,999.
    pub chk: u32,
    /// What the checkpoints' identifiers begin with.
    pub ids: ArrayVec<u8, 8>,
    /// The request for automatic restarts is cancelled after as many records, 1 to 9,999,999.
    pub cancel: u32,
    /// The key's first column from 1, and its length, 1 to 32; together at most 256.
    pub key: (u16, u16),
    /// The column, 1 to 256, where `val` is looked for.
    pub col: u16,
    /// The text that a selected record has.
    pub val: ArrayVec<u8, 40>,
    /// The title of each page.
    pub title: ArrayVec<u8, 40>,
    /// The summed field's first column from 1, and its length, 1 to 15; together at most 257.
    pub sum: (u16, u16),
}

/// What a program does with a DD.
#[derive(Clone, Copy, PartialEq, Eq)]
pub enum Role {
    /// Its records are an input.
    Reads,
    /// Its records are an output.
    Writes,
    /// Its records are an input and are rewritten in place.
    Updates,
    /// Checkpoints are written to it.
    Checkpoints,
    /// It is allocated and disposed of, and nothing else.
    Unused,
}

/// Where the records of a DD are (IBM GC28-6704).
#[derive(Drop)]
pub enum Origin {
    /// In the deck, behind `*` or `DATA`.
    InStream(Cards),
    /// In the data set of this name.
    Named(DsName),
    /// In the job's temporary data set of this name, written `&&name`.
    Temporary(Name8),
    /// In a temporary data set without a name.
    Unnamed,
    /// In a data set for the printer.
    Sysout,
    /// Nowhere.
    Dummy,
}

/// What is known of a data set before a step (IBM GC28-6704).
#[derive(Clone, Copy, PartialEq, Eq)]
pub enum Status {
    /// The step makes it.
    New,
    /// It exists, and no other job may use it.
    Old,
    /// It exists, and other jobs may read it.
    Shr,
    /// It exists and is extended, or the step makes it.
    Mod,
}

/// What becomes of a data set after a step (IBM GC28-6704).
#[derive(Clone, Copy, PartialEq, Eq)]
pub enum After {
    /// It is removed.
    Delete,
    /// It stays.
    Keep,
    /// It is passed to a later step of the job.
    Pass,
    /// It stays and is put into the catalog.
    Catlg,
    /// It stays and is taken out of the catalog.
    Uncatlg,
}

/// A disposition: the status, and what becomes of the data set after a normal and after an abnormal end.
#[derive(Clone, Copy, PartialEq, Eq)]
pub struct Disp {
    pub status: Status,
    /// None where it was not given.
    pub normal: Option<After>,
    /// None where it was not given.
    pub abnormal: Option<After>,
}

/// A DD of a step, or the SYSCHK of a job.
#[derive(Drop)]
pub struct Dd {
    pub name: Name8,
    pub role: Role,
    pub origin: Origin,
    pub disp: Disp,
    /// The volumes that VOL names; none where it was not given.
    pub volumes: ArrayVec<Volser, 5>,
    /// The space in records, 1 to 1,000,000.
    pub space: Option<u32>,
    /// The length of a record in bytes, 1 to 256.
    pub lrecl: u16,
}

/// How a test of COND compares its number with a return code.
#[derive(Clone, Copy, PartialEq, Eq)]
pub enum CondOp {
    Gt,
    Ge,
    Eq,
    Lt,
    Le,
    Ne,
}

/// A test of return codes (IBM GC28-6704).
#[derive(Clone, Copy, PartialEq, Eq)]
pub struct Cond {
    pub code: u16,
    pub op: CondOp,
    /// The number of the step whose return code is tested; without one each earlier step's is.
    pub step: Option<u8>,
}

/// A step of a job.
#[derive(Drop)]
pub struct Step {
    pub name: Name8,
    pub program: Kind,
    pub parm: Parm,
    pub rd: Option<Rd>,
    pub cond: Conds,
    /// In the order of the deck.
    pub dds: Dds,
}

/// Where a job begins again (IBM GC28-6708).
#[derive(PartialEq, Eq, Drop)]
pub struct Restart {
    /// The number of the step, from 1.
    pub step: u8,
    /// The checkpoint; without one the step begins anew.
    pub id: Option<CheckId>,
}

/// The job of a deck.
#[derive(Drop)]
pub struct Job {
    pub name: Name8,
    pub rd: Option<Rd>,
    pub cond: Conds,
    pub restart: Option<Restart>,
    /// The data set that keeps the checkpoint of `restart`.
    pub syschk: Option<Dd>,
    /// In the order of the deck, numbered from 1.
    pub steps: Steps,
}
