//! Why a deck or a PARM is refused.
ghost use Rattle.std.specs.Prelude.{◌≡◌};
ghost use Rattle.ckr_jcl.specs.declared.refusal.DeckError.TheVariants.{NoMemory};

use ckr_base::NoMemory;

/// Why the cards of a deck make no job.
#[derive(Clone, Copy, PartialEq, Eq, Debug)]
pub enum DeckError {
    /// The allocator had no memory.
    NoMemory,
    /// The deck is refused: by the rule J`number`, 1 to 24, at `card`, counted from 1 (this project's profile).
    At { number: u8, card: u32 },
}

impl From<NoMemory> for DeckError {
    ghost from_gives = { λ _ made. made ≡ NoMemory };

    fn from(_error: NoMemory) -> Self {
        DeckError::NoMemory
    }
}

/// Why a text is no PARM of a program.
#[derive(Clone, Copy, Debug)]
pub struct ParmError {
    /// The offset of the first wrong item, or the text's length where a required item is missing.
    pub place: u8,
}
