//! A data set, and what the library keeps of a checkpoint entry.

use arrayvec::ArrayVec;
use ckr_base::CheckId;

/// Who made, emptied or extended a data set, and how often its records were rewritten since (this project's profile).
#[derive(Clone, Copy, PartialEq, Eq)]
pub struct Stamp {
    /// The number of the run that owns the step, from 1.
    pub run: u32,
    /// The number of the step, from 1.
    pub step: u8,
    /// The records that this step rewrote in place since.
    pub rewrites: u32,
}

/// Records that stand next to each other on a volume.
#[derive(Clone, Copy, Default)]
pub struct Extent {
    /// The byte of the volume at which the first record begins.
    pub start: u32,
    /// How many records have room in it.
    pub records: u32,
}

/// What the records of a data set are.
#[derive(Clone, Copy)]
pub enum Content {
    /// Records of programs.
    Plain,
    /// Checkpoint entries, in records of 256 bytes.
    Checkpoints,
}

/// The part of a data set that lies on one volume.
#[derive(Default, Drop)]
pub struct Part {
    /// The number of the volume, counted from 0.
    pub volume: u8,
    /// Its records, in order.
    pub extents: ArrayVec<Extent, 5>,
    /// How many records have room in it.
    pub records: u32,
}

/// What the library knows of a data set. Its records stand on the volumes.
#[derive(Drop)]
pub struct DataSet {
    /// Its parts in order, one for each volume.
    pub parts: ArrayVec<Part, 5>,
    /// Whether it is found without the serial of its volume.
    pub cataloged: bool,
    /// The bytes of a record.
    pub lrecl: u16,
    /// How many records have room in it.
    pub space: u32,
    /// How many records it has.
    pub length: u32,
    /// Who made it, and who changed it last.
    pub stamp: Stamp,
    /// What its records are.
    pub content: Content,
}

/// A checkpoint entry: its identifier, its run, and where it stands in its data set.
#[derive(Drop)]
pub struct Kept {
    /// The identifier that names it.
    pub id: CheckId,
    /// The number of the run that wrote it.
    pub run: u32,
    /// The record at which it begins, counted from 0.
    pub place: u32,
    /// Its length in bytes.
    pub bytes: u32,
}
