//! The layout of a disk.

use arrayvec::ArrayVec;
use ckr_base::{Code, Volser};

/// A volume, and where it stands on the disk. The volumes of a layout are numbered from 0.
#[derive(Default, Drop)]
pub struct Volume {
    /// Its serial, which no other volume of the disk has.
    pub serial: Volser,
    /// The byte of the disk at which it begins.
    pub start: u64,
    /// Its length in bytes, 1,024 to 268,435,456.
    pub bytes: u32,
}

/// What the header of a disk says (this project's profile).
#[derive(Drop)]
pub struct Layout {
    /// The version of the format.
    pub version: u16,
    /// How many initiators there are, 1 to 8.
    pub initiators: u8,
    /// How many units a volume can be mounted on, 1 to 16.
    pub units: u8,
    /// The volumes, 1 to 32, one after another behind the image areas.
    pub volumes: ArrayVec<Volume, 32>,
    /// The codes after which a restart is permitted, 1 to 32 different ones.
    pub eligible: ArrayVec<Code, 32>,
    /// The length of the book in bytes, 256 to 268,435,456. It begins behind the header.
    pub book: u32,
    /// The length of each of the two image areas in bytes. They stand behind the book.
    pub image: u32,
}

/// A volume has no hole for a new part.
#[derive(Clone, Copy, PartialEq, Eq, Debug)]
pub struct NoSpace {
    /// The records that are wanted.
    pub need: u32,
    /// The records that the largest hole has room for.
    pub free: u32,
}
