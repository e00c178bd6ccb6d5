//! All that is kept from event to event. The law is the contract of a function that does nothing.
ghost use Rattle.std.specs.Prelude.{◌≡◌, List, ◌++◌, Option};
ghost use Rattle.ckr_events.specs.declared.event.Event.{Event};
ghost use Rattle.ckr_jcl.specs.declared.deck.Job.{Job};
ghost use Rattle.ckr_volumes.specs.declared.layout.Layout.{Layout};
ghost use Rattle.ckr_points.specs.Events.{AreSound, IsNext};
ghost use Rattle.ckr_points.specs.Office.{Office, no_office, office, office_after};
ghost use Rattle.ckr_points.specs.Restart.{Decked};
ghost use Rattle.ckr_points.specs.Soundness.{IsSoundOffice};
ghost use Rattle.ckr_points_invariant.specs.KeptEvents.{AreKept};

/// The tables agree with what the jobs of the selected runs give, each run once and without its restarts; each point says what its run's job
/// has there; all runs are ready to restart; each run keeps what it had as it began its steps, ended runs too; and data sets keep their
/// entries as they were written. It is so where there are no events, behind one more event that may come and carries what its job gives,
/// whichever it is, and at every prefix of sound events. So the tables are sound there.
pub fn events_stay_kept()
    ensures none { (layout : Layout) → AreKept layout no_office }
    ensures next { (layout : Layout) (now : Office) (event : Event) (deck : Option Job) → AreKept layout now → IsNext layout now (event, deck) → AreKept layout (office_after (event, deck) now) }
    ensures prefix { (layout : Layout) (front more : List Decked) → AreSound layout (front ++ more) → AreKept layout (office front) }
    ensures sound { (layout : Layout) (front more : List Decked) → AreSound layout (front ++ more) → IsSoundOffice layout (office front) }
{}
