//! Why a disk isn't opened, and why a call of the desk did nothing, or not all that was asked.
ghost use Rattle.std.specs.Prelude.{◌≡◌};
ghost use Rattle.ckr_desk.specs.Errors.{of_entry, of_store, opening_of_entry};
ghost use Rattle.ckr_desk.specs.declared.error.OpenError.TheVariants as OpenErrors;
ghost use Rattle.ckr_desk.specs.declared.error.DeskError.TheVariants.{NoMemory as WithoutMemory};

use ckr_base::NoMemory;
use ckr_desk_refines::ReadError;
use ckr_desk_store::StoreError;
use ckr_outside::Failed;
use thiserror::Error;

/// Why a call of the desk did nothing, or not all that was asked.
#[derive(Clone, Copy, Debug, Drop, Error)]
pub enum DeskError {
    /// There was no memory. Nothing has changed.
    #[error("there is no memory")]
    NoMemory,
    /// The disk failed, and its count of faults rose. The desk has stopped.
    #[error("the disk failed")]
    DiskFault,
    /// The event needs more bytes of the book than are left. Nothing has changed.
    #[error("the event needs {need} bytes of the book, and {room} are left")]
    BookFull { need: u32, room: u32 },
    /// The desk has stopped since an earlier call, whose fault was the disk's one of this number. Nothing has changed.
    #[error("stopped by fault {fault} of the disk")]
    Stopped { fault: u64 },
}

impl From<NoMemory> for DeskError {
    ghost from_gives = { λ _ e. e ≡ WithoutMemory };

    fn from(_: NoMemory) -> Self {
        DeskError::NoMemory
    }
}

impl From<StoreError> for DeskError {
    ghost from_gives = { λ error e. e ≡ of_store error };

    fn from(error: StoreError) -> Self {
        match error {
            StoreError::DiskFault => DeskError::DiskFault,
            StoreError::BookFull { need, room } => DeskError::BookFull { need, room },
            StoreError::Stopped { fault } => DeskError::Stopped { fault },
        }
    }
}

impl From<ReadError> for DeskError {
    ghost from_gives = { λ error e. e ≡ of_entry error };

    fn from(error: ReadError) -> Self {
        match error {
            ReadError::NoMemory => DeskError::NoMemory,
            ReadError::Fault => DeskError::DiskFault,
        }
    }
}

/// Why a disk isn't opened. All but the first two come exactly by the bytes that the disk reads, in this order.
#[derive(Clone, Copy, Debug, Drop, Error)]
pub enum OpenError {
    /// There is no memory.
    #[error("there is no memory")]
    NoMemory,
    /// The disk failed, and its count of faults rose.
    #[error("the disk failed")]
    Fault,
    /// There are fewer than 512 bytes, the gate isn't open, or the mark isn't there.
    #[error("the disk isn't formatted")]
    NotFormatted,
    /// The header has this version, which isn't known.
    #[error("the disk has version {0}, which isn't known")]
    Version(u16),
    /// The field of the header at this offset is the first that is out of its limits.
    #[error("the header is wrong at {offset}")]
    BadHeader { offset: u32 },
    /// The record whose gate is at this place of the book is the first that is too long, is no event or doesn't follow.
    #[error("the book is wrong at {offset}")]
    BadBook { offset: u32 },
    /// The entry of the checkpoint in effect of this run is the first that isn't a point of the step that the run is in. The offset is that of
    /// the entry's first byte that shows it, or 0 where it is another point, or has no place in its data set (IBM GC28-6708).
    #[error("the entry of job {job} is wrong at {offset}")]
    BadEntry { job: u32, offset: u32 },
}

/// A disk that isn't opened, and why.
#[derive(Drop)]
pub struct Opening<D> {
    pub error: OpenError,
    pub disk: D,
}

impl From<NoMemory> for OpenError {
    ghost from_gives = { λ _ e. e ≡ OpenErrors.NoMemory };

    fn from(_: NoMemory) -> Self {
        OpenError::NoMemory
    }
}

impl From<Failed> for OpenError {
    ghost from_gives = { λ _ e. e ≡ OpenErrors.Fault };

    fn from(_: Failed) -> Self {
        OpenError::Fault
    }
}

impl From<ReadError> for OpenError {
    ghost from_gives = { λ error e. e ≡ opening_of_entry error };

    fn from(error: ReadError) -> Self {
        match error {
            ReadError::NoMemory => OpenError::NoMemory,
            ReadError::Fault => OpenError::Fault,
        }
    }
}
