//! What reading and formatting a disk answer where they can't do what was asked.
ghost use Rattle.std.specs.Prelude.{◌≡◌};
ghost use Rattle.ckr_journal.specs.declared.error.LayoutError.TheVariants as LayoutErrors;
ghost use Rattle.ckr_journal.specs.declared.error.FormatError.TheVariants as FormatErrors;

use ckr_outside::Failed;
use thiserror::Error;

/// Why no layout was read.
#[derive(Clone, Copy, Debug, Drop, Error, PartialEq, Eq)]
pub enum LayoutError {
    /// The disk failed, and its count of faults rose.
    #[error("the disk failed")]
    Fault,
    /// The disk has fewer than 512 bytes, the header's gate isn't open, or its mark isn't there.
    #[error("the disk isn't formatted")]
    NotFormatted,
    /// The header has this version, which isn't known.
    #[error("version {0} of the format isn't known")]
    Version(u16),
    /// The header's field at this offset is the first that is out of its limits. Offset 11 stands also for a sum of all
    /// lengths that exceeds the disk.
    #[error("the header is wrong at {offset}")]
    BadHeader { offset: u32 },
}

impl From<Failed> for LayoutError {
    ghost from_gives = { λ _ e. e ≡ LayoutErrors.Fault };

    fn from(_: Failed) -> Self {
        LayoutError::Fault
    }
}

/// Why a disk wasn't formatted.
#[derive(Clone, Copy, Debug, Drop, Error, PartialEq, Eq)]
pub enum FormatError {
    /// The disk failed, and its count of faults rose. What it holds has to be formatted again.
    #[error("the disk failed")]
    Fault,
    /// The layout needs more bytes than the disk has.
    #[error("the layout needs {need} bytes, and the disk has {size}")]
    TooSmall { need: u64, size: u64 },
}

impl From<Failed> for FormatError {
    ghost from_gives = { λ _ e. e ≡ FormatErrors.Fault };

    fn from(_: Failed) -> Self {
        FormatError::Fault
    }
}

/// Why no event was read.
#[derive(Clone, Copy, Debug, Drop, Error, PartialEq, Eq)]
pub enum NextEventError {
    /// There was no memory for the event.
    #[error("no memory for the event")]
    NoMemory,
    /// The disk failed, and its count of faults rose.
    #[error("the disk failed")]
    Fault,
    /// The gate is open, and behind it stands no whole record, one that is no event, or one of more bytes than an event has.
    #[error("no event stands here")]
    Bad,
}
