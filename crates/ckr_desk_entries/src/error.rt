//! Why an entry wasn't read.
ghost use Rattle.std.specs.Prelude.{◌≡◌};
ghost use Rattle.ckr_desk_entries.specs.declared.error.ReadError.TheVariants as ReadErrors;

use ckr_base::NoMemory;
use ckr_outside::Failed;
use thiserror::Error;

/// Why an entry wasn't read.
#[derive(Clone, Copy, Debug, Drop, Error)]
pub enum ReadError {
    /// There is no memory.
    #[error("there is no memory")]
    NoMemory,
    /// The disk failed, and its count of faults rose.
    #[error("the disk failed")]
    Fault,
}

impl From<NoMemory> for ReadError {
    ghost from_gives = { λ _ e. e ≡ ReadErrors.NoMemory };

    fn from(_: NoMemory) -> Self {
        ReadError::NoMemory
    }
}

impl From<Failed> for ReadError {
    ghost from_gives = { λ _ e. e ≡ ReadErrors.Fault };

    fn from(_: Failed) -> Self {
        ReadError::Fault
    }
}
