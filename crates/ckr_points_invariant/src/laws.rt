//! What the tables keep from event to event. Each law is the contract of a function that does nothing.
ghost use Rattle.std.specs.Prelude.{◌≡◌, false, List, [], ◌∷◌, ◌++◌, Option};
ghost use Rattle.ckr_events.specs.declared.event.Event.{Event};
ghost use Rattle.ckr_jcl.specs.declared.deck.Job.{Job};
ghost use Rattle.ckr_volumes.specs.declared.layout.Layout.{Layout};
ghost use Rattle.ckr_points_invariant.specs.Continuations.{NoneGoesBack, goes_back};
ghost use Rattle.ckr_points_invariant.specs.Counts.{AreCounted};
ghost use Rattle.ckr_points_invariant.specs.Invariant.{IsKept};
ghost use Rattle.ckr_points.specs.Events.{AreSound, IsNext};
ghost use Rattle.ckr_points.specs.Office.{Office, no_office, office, office_after};
ghost use Rattle.ckr_points.specs.Restart.{Decked};
ghost use Rattle.ckr_points.specs.Soundness.{IsSoundOffice};

/// No events are kept events.
pub fn no_events_are_kept()
    ensures { (layout : Layout) → IsKept layout no_office }
{}

/// Kept events are sound: data sets stand apart inside their volumes. Each name of the tables agrees with what its holder's place has,
/// or with what the ended jobs left. So does the passed list of each holder. The records of a data set begin what the step of its stamp
/// writes, and no mark of that stamp is longer.
pub fn kept_events_are_sound()
    ensures { (layout : Layout) (now : Office) → IsKept layout now → IsSoundOffice layout now }
{}

/// The office of a list of events and one more is the one behind this event. Sound events are sound with one more that may come and
/// carries what its job gives, and each front of them is sound.
pub fn events_go_on()
    ensures office { (events : List Decked) (event : Decked) → office (events ++ event ∷ []) ≡ office_after event (office events) }
    ensures sound { (layout : Layout) (events : List Decked) (event : Decked) → AreSound layout events → IsNext layout (office events) event → AreSound layout (events ++ event ∷ []) }
    ensures front { (layout : Layout) (front more : List Decked) → AreSound layout (front ++ more) → AreSound layout front }
{}

/// At every prefix of sound events by which no run goes back each run has counted the entries that it wrote, the point of each step those
/// that its run had written before it started, and each entry those and itself.
pub fn entries_are_counted()
    ensures { (layout : Layout) (front more : List Decked) → AreSound layout (front ++ more) → NoneGoesBack (front ++ more) → AreCounted front (office front) }
{}

/// One more event that may come, and carries what its job gives, leaves the events kept, but one by which a run goes back. Of these, restarts have
/// laws of their own (`restarts_keep_the_events`), and so have runs that continue others (`continued_runs_stand_at_their_point`).
pub fn next_events_keep_the_events()
    ensures { (layout : Layout) (now : Office) (event : Event) (deck : Option Job) → goes_back event ≡ false → IsKept layout now → IsNext layout now (event, deck) → IsKept layout (office_after (event, deck) now) }
{}
