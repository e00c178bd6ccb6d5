//! Why words are no command.
ghost use Rattle.std.specs.Prelude.{◌≡◌};
ghost use Rattle.ckr_words.specs.Matches.{refusal_of};

use ckr_base::NoMemory;
use clap::error::ErrorKind;
use std::alloc::AllocError;
use thiserror::Error;

/// Why words are no command, or weren't read.
#[derive(Clone, Copy, Debug, Error)]
pub enum WordsError {
    /// There is no memory for the reading of a command, or for the operators of a run.
    #[error("there is no memory")]
    NoMemory,
    /// They are in no command's grammar.
    #[error("the words are no command")]
    Refused,
}

impl From<NoMemory> for WordsError {
    ghost use Rattle.ckr_words.specs.declared.error.WordsError.TheVariants.{NoMemory as no_memory};

    ghost from_gives = { λ _ e. e ≡ no_memory };

    fn from(_error: NoMemory) -> Self {
        WordsError::NoMemory
    }
}

impl From<AllocError> for WordsError {
    ghost use Rattle.ckr_words.specs.declared.error.WordsError.TheVariants.{NoMemory as no_memory};

    ghost from_gives = { λ _ e. e ≡ no_memory };

    fn from(_error: AllocError) -> Self {
        WordsError::NoMemory
    }
}

/// What a refusal by clap comes to.
pub fn refusal(kind: ErrorKind) -> WordsError
    ensures { result ≡ refusal_of kind }
{
    match kind {
        ErrorKind::OutOfMemory => WordsError::NoMemory,
        _ => WordsError::Refused,
    }
}
