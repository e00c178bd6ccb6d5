//! What a book answers where it can't do what was asked.
ghost use Rattle.std.specs.Prelude.{◌≡◌};
ghost use Rattle.ckr_book.specs.declared.error.BookError.TheVariants.{Fault};

use ckr_outside::Failed;
use thiserror::Error;

/// Why a book wasn't opened, or a record wasn't appended.
#[derive(Clone, Copy, Debug, Drop, Error, PartialEq, Eq)]
pub enum BookError {
    /// The disk failed, and its count of faults rose. The book has to be opened again.
    #[error("the disk failed")]
    Fault,
    /// The record needs more bytes than the room that is left.
    #[error("the record needs {need} bytes, and {room} are left")]
    Full { need: u32, room: u32 },
    /// An open gate stands at this place of the book, and no whole record behind it.
    #[error("no whole record stands at {offset}")]
    Bad { offset: u32 },
}

impl From<Failed> for BookError {
    ghost from_gives = { λ _ e. e ≡ Fault };

    fn from(_: Failed) -> Self {
        BookError::Fault
    }
}
