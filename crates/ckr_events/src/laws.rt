//! What holds of every event and every string of bytes.
ghost use Rattle.std.specs.Prelude.{◌≡◌, ◌≤◌, ℕ, List, Ok, length};
ghost use Rattle.ckr_fields.specs.Bytes.{AreBytes};
ghost use Rattle.ckr_events.specs.declared.event.Event.{Event};
ghost use Rattle.ckr_events.specs.Event.{IsEvent, spelling, event_of, most_bytes};

/// Each event that has a spelling is the one that is read from it.
pub fn what_is_spelled_is_read()
    ensures { (event : Event) → IsEvent event → event_of (spelling event) ≡ Ok event }
{}

/// What is read from bytes has a spelling, and the bytes are that one.
pub fn what_is_read_is_spelled()
    ensures { (bytes : List ℕ) (event : Event) → AreBytes bytes → event_of bytes ≡ Ok event → IsEvent event × (bytes ≡ spelling event) }
{}

/// An event has no more bytes than the longest of its kind: a deck has its cards of 80 bytes behind nine
/// others, and every other event at most 3,447.
#[tactic(auto, using(crate::proofs::Sizes::short_events))]
pub fn events_are_short()
    ensures { (bytes : List ℕ) (event : Event) → event_of bytes ≡ Ok event → length bytes ≤ most_bytes event }
{}
