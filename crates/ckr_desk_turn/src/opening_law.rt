//! The desk behind its opening. A law is the contract of a function that does nothing.
ghost use Rattle.std.specs.Prelude.{List};
ghost use Rattle.ckr_points.specs.Events.{AreSound};
ghost use Rattle.ckr_points.specs.Office.{Office, no_office, office};
ghost use Rattle.ckr_points.specs.Restart.{Decked};
ghost use Rattle.ckr_points_invariant.specs.Invariant.{IsKept};
ghost use Rattle.ckr_desk_turn.specs.Desk.{DeskModel, opened};
ghost use Rattle.ckr_volumes.specs.declared.layout.Layout.{Layout as LayoutOfDisk};
ghost use Rattle.ckr_desk_turn.specs.Invariant.{HasRuns, IsDesk};
ghost use Rattle.ckr_desk_turn.specs.DeckEvents.{AreDeckEvents};

/// A desk that is opened on kept events is as its events have brought it about: what was running is marked. The events of a
/// desk are such ones at any time, and so are no events.
pub fn opened_desks_are_desks()
    ensures opened_so { (layout : LayoutOfDisk) (office : Office) → IsKept layout office → HasRuns office → IsDesk (opened layout office) }
    ensures at_any_time { (desk : DeskModel) → IsDesk desk → HasRuns desk.office }
    ensures at_first { (layout : LayoutOfDisk) → IsDesk (opened layout no_office) }
{}

/// Sound events whose decks are those of their cards are kept, and leave what the runs of a desk have. So a desk that is opened on them is as they
/// have brought it about.
pub fn sound_events_open_to_a_desk()
    ensures kept { (layout : LayoutOfDisk) (events : List Decked) → AreSound layout events → AreDeckEvents events → IsKept layout (office events) }
    ensures runs { (layout : LayoutOfDisk) (events : List Decked) → AreSound layout events → AreDeckEvents events → HasRuns (office events) }
    ensures opened_so { (layout : LayoutOfDisk) (events : List Decked) → AreSound layout events → AreDeckEvents events → IsDesk (opened layout (office events)) }
{}
