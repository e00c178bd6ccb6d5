//! Why a step isn't started, and what one that starts makes.
ghost use Rattle.std.specs.Prelude.{◌≡◌};
ghost use Rattle.ckr_points_library.specs.Allocation.{cause_of};
ghost use Rattle.ckr_points_library.specs.Holdings.{meant_flaw};

use crate::Flaw;
use ckr_base::RoomyList;
use ckr_events::Made;

/// The parts of the data sets that a step makes, in the order of its DDs.
pub type MadeList = RoomyList<Made>;

/// Why a DD isn't allocated (this project's profile).
#[derive(Clone, Copy)]
pub enum Cause {
    /// Its data set isn't found.
    Missing,
    /// The step would make its data set, and the library has the name.
    Exists,
    /// Records of programs are asked for where checkpoint entries stand, or the other way round.
    WrongKind,
    /// Its data set is on other volumes than VOL says.
    WrongVolume,
    /// A volume that VOL names isn't installed.
    NoVolume,
    /// No volume has room for so many records; `free` is the room of the largest hole that was looked at, in records.
    NoSpace { need: u32, free: u32 },
    /// The step's volumes are more than all units.
    Units { need: u8, units: u8 },
    /// The operator refused to mount this volume, counted from 0.
    MountRefused { volume: u8 },
}

/// The first DD of a step that isn't allocated.
#[derive(Clone, Copy)]
pub struct Refusal {
    /// The number of the DD in its step, from 1.
    pub dd: u8,
    /// Why.
    pub cause: Cause,
}

/// The cause that a flaw is.
pub(crate) fn cause_of(flaw: Flaw) -> Cause
    ensures { result ≡ cause_of (meant_flaw flaw) }
{
    match flaw {
        Flaw::Missing => Cause::Missing,
        Flaw::Exists => Cause::Exists,
        Flaw::WrongKind => Cause::WrongKind,
    }
}
