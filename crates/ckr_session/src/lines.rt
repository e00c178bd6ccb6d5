//! Lines that are told, and go out as they come.
ghost use Rattle.std.specs.Prelude.{◌≡◌, ◌≤◌, [], List, ℕ, false, true};
ghost use Rattle.ckr_session.specs.Lines.{FailsBy, IsTold, Telling, telling};

use crate::text::Text;
use ckr_outside::{Failed, Sink, put_all};
use std::alloc::Global;

/// The text that waits to be written, and whether a write has failed. Behind one that has, nothing is written.
#[derive(Drop)]
pub struct Lines {
    /// What waits.
    pub text: Text,
    /// Whether a write has failed.
    pub failed: bool,
}

impl Lines {
    /// Nothing waits, and no write has failed. It takes no memory.
    pub fn new(alloc: Global) -> Lines
        ensures text { result.text ≡ [] }
        ensures failed { result.failed ≡ false }
    {
        Lines {
            text: Text::new(alloc),
            failed: false,
        }
    }

    /// What waits is written, and nothing waits then. Where the sink fails, what it didn't take is lost, and `failed` tells so from then on (this project's
    /// profile).
    pub fn write<K: Sink>(&mut self, sink: &mut K)
        ensures told { (from : Telling) (told : List ℕ) → from.faults ≤ K.faults sink.old → IsTold from told (telling self.old (K.written sink.old) (K.faults sink.old)) → IsTold from told (telling self.new (K.written sink.new) (K.faults sink.new)) }
        ensures text { self.new.text ≡ [] }
        ensures failed { self.new.failed ≡ true → FailsBy (telling self.old (K.written sink.old) (K.faults sink.old)) (K.faults sink.new) }
        ensures later { K.faults sink.old ≤ K.faults sink.new }
    {
        if self.failed {
            self.text.clear();
            return;
        }
        match put_all(sink, self.text.bytes()) {
            Ok(()) => self.text.clear(),
            Err(Failed) => {
                self.text.clear();
                self.failed = true;
            }
        }
    }
}
