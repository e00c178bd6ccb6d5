//! How many turns a stint of a run takes. A law is the contract of a function that does nothing.
ghost use Rattle.std.specs.Prelude.{◌≡◌, ◌≤◌, ◌+◌, ◌*◌, ℕ, suc, List, Some};
ghost use Rattle.std.specs.List.{AllByRecursion};
ghost use Rattle.ckr_points.specs.Office.{Leg, leg_of};
ghost use Rattle.ckr_points.specs.Rows.{RunRow};
ghost use Rattle.ckr_desk_turn.specs.Desk.{DeskModel};
ghost use Rattle.ckr_desk_turn.specs.Invariant.{IsDesk};
ghost use Rattle.ckr_desk_turn.specs.Stints.{GivesNoCode, begun, checkpoints_ahead, inputs_ahead, stint_turns, records_ahead, steps_ahead};
ghost use Rattle.ckr_desk_turn.specs.Select.{run_on_initiator};
ghost use Rattle.ckr_desk_turn.specs.Turns.{AnsweredTurn, IsAnsweredTurnOf, turn_of};

/// A stint of a run goes from Selected or Restarted up to the next Restarted, JobHeld or JobEnded. Wherever in its stint a run is on its initiator, and
/// whatever turns come one after the other, those of its initiator without a code and those of any others, whatever becomes of the volumes and
/// whatever the operator answers: the turns of its initiator up to the one that ends the stint, this one and the one that began the stint counted, and
/// those that WaitingUnits or AwaitingReply answers aside, number at most r + c + 8 s + 2. Here r is the input records behind the run's place, c
/// the checkpoints that are due behind it, and s the steps from it on, each step as the run's job comes to it without interruption (`turns`). Without the
/// turn that began the stint, and by the records that the programs take, r + c + 4 s + 1 is enough (`records`). Behind a turn that answers Selected
/// or Restarted the run that it names is on the initiator (`starts`), and a run on an initiator has a leg (`led`). How often a run waits isn't
/// bounded: until units are free, or the operator answers. This project's profile.
pub fn stints_end_within_their_turns()
    ensures turns { (initiator : ℕ) (turns : List AnsweredTurn) (desk : DeskModel) (row : RunRow) (leg : Leg) → IsDesk desk → AllByRecursion (IsAnsweredTurnOf desk.layout) turns → AllByRecursion (GivesNoCode initiator) turns
        → run_on_initiator desk.office.tables initiator ≡ Some row → leg_of desk.office row.number ≡ Some leg
        → suc (stint_turns initiator turns desk) ≤ inputs_ahead desk leg row + checkpoints_ahead desk leg row + 8 * steps_ahead desk leg row + 2 }
    ensures records { (initiator : ℕ) (turns : List AnsweredTurn) (desk : DeskModel) (row : RunRow) (leg : Leg) → IsDesk desk → AllByRecursion (IsAnsweredTurnOf desk.layout) turns → AllByRecursion (GivesNoCode initiator) turns
        → run_on_initiator desk.office.tables initiator ≡ Some row → leg_of desk.office row.number ≡ Some leg
        → stint_turns initiator turns desk ≤ records_ahead desk leg row + checkpoints_ahead desk leg row + 4 * steps_ahead desk leg row + 1 }
    ensures starts { (desk : DeskModel) (one : AnsweredTurn) (job : ℕ) → IsDesk desk → IsAnsweredTurnOf desk.layout one → begun (turn_of desk one.turn one.answer).reply ≡ Some job
        → (row : RunRow) × (run_on_initiator (turn_of desk one.turn one.answer).desk.office.tables one.turn.turn.initiator ≡ Some row) × (row.number ≡ job) }
    ensures led { (initiator : ℕ) (desk : DeskModel) (row : RunRow) → IsDesk desk → run_on_initiator desk.office.tables initiator ≡ Some row → (leg : Leg) × (leg_of desk.office row.number ≡ Some leg) }
{}
