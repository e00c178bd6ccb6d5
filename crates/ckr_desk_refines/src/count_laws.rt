//! How many data sets and runs there are behind sound events, and how often each data set has been rewritten. A law is the contract of a
//! function that does nothing.
ghost use Rattle.std.specs.Prelude.{◌≡◌, ◌≤◌, ◌<◌, ℕ, List, length, Ok};
ghost use Rattle.ckr_events.specs.declared.event.Event.{Event};
ghost use Rattle.ckr_events.specs.declared.event.Event.TheVariants.{Submitted as SubmittedEvent};
ghost use Rattle.ckr_events.specs.Event.{event_of};
ghost use Rattle.ckr_library.specs.NameMaps.{EachEntry};
ghost use Rattle.ckr_points.specs.Events.{AreSound};
ghost use Rattle.ckr_points.specs.Office.{office};
ghost use Rattle.ckr_points.specs.Restart.{Decked};
ghost use Rattle.ckr_volumes.specs.declared.layout.Layout.{Layout};
ghost use Rattle.ckr_desk_refines.specs.Counts.{HasRewrites, KeepCards, added_by, added_by_all, decks_in};

/// Behind sound events there are no more data sets than these can have added, and the stamp of none tells more rewrites. An event adds no
/// more than there are bytes of which it is read, whatever these are: so both are fewer than the bytes of a book that has the events.
pub fn sound_events_add_few()
    ensures sets { (layout : Layout) (events : List Decked) → AreSound layout events → length (office events).tables.sets ≤ added_by_all events }
    ensures rewrites { (layout : Layout) (events : List Decked) → AreSound layout events → EachEntry (HasRewrites (added_by_all events)) (office events).tables.sets }
    ensures bytes { (bytes : List ℕ) (event : Event) → event_of bytes ≡ Ok event → added_by event ≤ length bytes }
{}

/// Behind sound events there are as many runs as decks were submitted. The event of each deck keeps a card, so that it is read of more than 80 bytes.
pub fn sound_events_add_a_run_for_each_deck()
    ensures runs { (layout : Layout) (events : List Decked) → AreSound layout events → length (office events).tables.runs ≡ decks_in events }
    ensures keep { (layout : Layout) (events : List Decked) → AreSound layout events → KeepCards events }
    ensures cards { (bytes : List ℕ) (job : ℕ) (cards : List ℕ) → event_of bytes ≡ Ok (SubmittedEvent job cards) → 0 < length cards → 80 < length bytes }
{}
