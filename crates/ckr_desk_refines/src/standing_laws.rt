//! What holds of jobs in memory that stand for the desk of the events. A law is the contract of a function that does nothing.
ghost use Rattle.std.specs.Prelude.{◌≡◌, ℕ, List, []};
ghost use Rattle.ckr_desk_memory.specs.View.{JobsView, jobs_of};
ghost use Rattle.ckr_desk_turn.specs.Desk.{DeskModel, jobs_of as jobs_of_desk, opened};
ghost use Rattle.ckr_desk_turn.specs.Invariant.{IsDesk};
ghost use Rattle.ckr_desk_turn.specs.Turns.{MountedTurn, plan_for};
ghost use Rattle.ckr_points.specs.Office.{Office};
ghost use Rattle.ckr_volumes.specs.declared.layout.Layout.{Layout};
ghost use Rattle.ckr_desk_refines.specs.Commits.{HasCommitted};
ghost use Rattle.ckr_desk_refines.specs.Entries.{AreRead, HasEntries};
ghost use Rattle.ckr_desk_refines.specs.InEffect.{AreInEffect};
ghost use Rattle.ckr_desk_refines.specs.Standing.{StandsForDesk, desk_seen};

/// What a turn comes to by the jobs in memory is what it comes to at the desk that they stand for.
pub fn plans_are_those_of_the_desk()
    ensures { (layout : Layout) (jobs : JobsView) (image : List ℕ) (desk : DeskModel) (turn : MountedTurn) → StandsForDesk layout jobs image desk
        → plan_for layout (jobs_of jobs) turn ≡ plan_for desk.layout (jobs_of_desk desk) turn }
{}

/// A desk is what is seen of it in memory, with what its events have brought about.
pub fn desks_are_seen_in_memory()
    ensures { (layout : Layout) (jobs : JobsView) (image : List ℕ) (desk : DeskModel) → StandsForDesk layout jobs image desk → desk ≡ desk_seen layout desk.office jobs }
{}

/// Jobs in memory with no running step stand for the desk that is opened, where the image has what is committed, and the points are those that
/// were read of the entries in effect, in this image or in an earlier one that had the entries that the tables keep.
pub fn opened_desks_stand()
    ensures { (layout : Layout) (office : Office) (jobs : JobsView) (earlier image : List ℕ) → IsDesk (opened layout office) → AreInEffect office → HasCommitted layout office image → HasEntries layout office earlier
        → jobs.tables.desk ≡ office.tables → jobs.failed ≡ (opened layout office).failed → jobs.running ≡ [] → AreRead layout office.tables earlier jobs.points
        → StandsForDesk layout jobs image (opened layout office) }
{}
