//! What accepted decks and sound events give to the entries of checkpoints. A law is the contract of a function that does nothing.
ghost use Rattle.std.specs.Prelude.{◌≡◌, ◌<◌, ◌≤◌, length, true, List, Some};
ghost use Rattle.ckr_base.specs.Grammar.{is_check_id};
ghost use Rattle.ckr_library.specs.declared.sets.Content.TheVariants.{Checkpoints};
ghost use Rattle.ckr_library.specs.NameMaps.{Name, entry_at};
ghost use Rattle.ckr_points.specs.Events.{AreSound};
ghost use Rattle.ckr_points.specs.Office.{office};
ghost use Rattle.ckr_points.specs.Restart.{Decked};
ghost use Rattle.ckr_points.specs.Rows.{TableSet};
ghost use Rattle.ckr_volumes.specs.declared.layout.Layout.{Layout as LayoutOfDisk};
ghost use Rattle.ckr_desk_turn.specs.CheckSets.{HaveCheckRecords};
ghost use Rattle.ckr_desk_turn.specs.Checkpoints.{check_set, is_in_range, next_entry, next_id};
ghost use Rattle.ckr_desk_turn.specs.Desk.{DeskModel, DeskStep};
ghost use Rattle.ckr_desk_turn.specs.Invariant.{IsDesk, IsGoing};
ghost use Rattle.ckr_desk_turn.specs.DeckEvents.{AreDeckEvents};

/// The identifier of the next entry of a running step is in the grammar of identifiers, where the run has written fewer than 9,999,999
/// entries: so it is wherever the numbers of the entry are in the ranges that a checkpoint asks for. For IDS of an accepted deck has at most
/// 8 bytes, and a number up to 9,999,999 has at most 7 digits (this project's profile).
pub fn next_entries_have_an_identifier()
    ensures counted { (desk : DeskModel) (on : DeskStep) (going : IsGoing desk.office on) → IsDesk desk → going.row.count ≤ 9999998 → is_check_id (next_id going.row going.start) ≡ true }
    ensures ranged { (desk : DeskModel) (on : DeskStep) (going : IsGoing desk.office on) → IsDesk desk → is_in_range (next_entry desk.office.tables.sets going.row going.start on.progress) ≡ true → is_check_id (next_id going.row going.start) ≡ true }
{}

/// A data set for checkpoints has records of 256 bytes, behind any sound events of decks: whatever its DD says of them, it is
/// made so, and it stays so. What stands under the name of a running step's DD for checkpoints is such a data set, since allocation refuses
/// one of another kind (this project's profile).
pub fn check_sets_have_records_of_256_bytes()
    ensures sound { (layout : LayoutOfDisk) (events : List Decked) → AreSound layout events → AreDeckEvents events → HaveCheckRecords (office events).tables.sets }
    ensures content { (desk : DeskModel) (on : DeskStep) (going : IsGoing desk.office on) → IsDesk desk → (set : Name) (table : TableSet) → check_set going.start ≡ Some set → entry_at desk.office.tables.sets set ≡ Some table → table.set.content ≡ Checkpoints }
    ensures records { (desk : DeskModel) (on : DeskStep) (going : IsGoing desk.office on) → IsDesk desk → HaveCheckRecords desk.office.tables.sets → (set : Name) (table : TableSet) → check_set going.start ≡ Some set → entry_at desk.office.tables.sets set ≡ Some table → table.set.lrecl ≡ 256 }
{}

/// Fewer than 65,536 names are passed on in a running step: at most one for each DD of the steps before it, of which an accepted deck has
/// at most 64, each with at most 16 DDs (this project's profile).
pub fn passed_lists_are_short()
    ensures { (desk : DeskModel) (on : DeskStep) (going : IsGoing desk.office on) → IsDesk desk → length going.row.passed < 65536 }
{}
