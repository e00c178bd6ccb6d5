//! Why a call ends before the stream does.

use ckr_base::NoMemory;
use std::alloc::AllocFailed;

/// Why the requests of a stream aren't served any further (this project's profile).
#[derive(Clone, Copy)]
pub enum Halt {
    /// There is no memory.
    Memory,
    /// The book has no room for the event of a request.
    Book,
    /// The disk failed.
    Disk,
}

/// Why a stream isn't served any further (this project's profile).
#[derive(Clone, Copy)]
pub enum Stop {
    /// The source failed.
    Source,
    /// The sink failed.
    Sink,
    /// There is no memory.
    Memory,
    /// The source gave more bytes than a stream may have, 16,777,216.
    Limit,
    /// The book has no room for the event of a request.
    Book,
    /// The disk failed.
    Disk,
}

impl From<NoMemory> for Halt {
    ghost use Rattle.ckr_session.specs.declared.stop.Halt.TheVariants.{Memory};
    ghost use Rattle.std.specs.Prelude.{◌≡◌};

    ghost from_gives = { λ _ e. e ≡ Memory };

    fn from(_: NoMemory) -> Self {
        Halt::Memory
    }
}

impl<T: Drop> From<AllocFailed<T>> for Stop {
    ghost use Rattle.ckr_session.specs.declared.stop.Stop.TheVariants.{Memory};
    ghost use Rattle.std.specs.Prelude.{◌≡◌};

    ghost from_gives = { λ _ e. e ≡ Memory };

    fn from(_: AllocFailed<T>) -> Self {
        Stop::Memory
    }
}
