//! Room for the bytes of an event, which is there before the event is told.
ghost use Rattle.std.specs.Prelude.{◌≡◌, ◌++◌};
ghost use Rattle.ckr_events.specs.Event.{IsCounted, spelling};

use ckr_base::NoMemory;
use ckr_events::{Event, encode_front};
use std::alloc::Global;
use std::marker::Model;

/// Room for an event of each kind but Submitted, and for what stands before the cards of that one, in bytes.
const ROOM: usize = 4096;

/// Room for the bytes of one event but for the cards of a deck, which stay where they are.
#[derive(Drop)]
pub(crate) struct EventBytes {
    bytes: Vec<u8>,
}

impl Model for EventBytes {
    ghost use Rattle.std.specs.Prelude.{◌≤◌, ℕ, List, vec_capacity};

    ghost Value = { List ℕ };

    ghost view = { λ s. s.bytes.items };

    ghost invariant = { λ s. 4096 ≤ vec_capacity s.bytes };
}

impl EventBytes {
    /// Takes the room.
    pub(crate) fn new(alloc: Global) -> Result<EventBytes, NoMemory> {
        let mut bytes = Vec::new(alloc);
        bytes.reserve(ROOM)?;
        Ok(EventBytes { bytes })
    }

    /// The bytes of an event in two parts, one behind the other: those that are spelled in the room now, and the cards of a deck as they
    /// stand in the event. It takes no memory.
    pub(crate) fn of<'a>(&'a mut self, event: &'a Event) -> (&'a [u8], &'a [u8])
        requires { IsCounted event.now }
        ensures { result.0.now ++ result.1.now ≡ spelling event.now }
    {
        self.bytes.clear();
        let rest = encode_front(event, &mut self.bytes);
        (self.bytes.as_slice(), rest)
    }
}
