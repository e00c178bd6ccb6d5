//! A queued run with RESTART that comes to an initiator. A law is the contract of a function that does nothing.
ghost use Rattle.std.specs.Prelude.{◌≡◌, ℕ, true, Option, None, Some};
ghost use Rattle.std.specs.Option.{is_some};
ghost use Rattle.ckr_console.specs.declared.question.Answer.{Answer as OperatorAnswer};
ghost use Rattle.ckr_events.specs.declared.event.Event.TheVariants.{Denied as DeniedEvent};
ghost use Rattle.ckr_jcl.specs.declared.deck.Restart.{Restart as RestartOfDeck};
ghost use Rattle.ckr_library.specs.NameMaps.{Name as NameOfSet};
ghost use Rattle.ckr_points.specs.Denials.{denial_of, tells_a_name};
ghost use Rattle.ckr_points.specs.RuleCases.{stale_denial, wanted_of};
ghost use Rattle.ckr_points.specs.Rows.{RunRow};
ghost use Rattle.ckr_points.specs.Soundness.{deferred_rule};
ghost use Rattle.ckr_rules.specs.RuleTables.{rule_number};
ghost use Rattle.ckr_rules.specs.declared.cases.Rule.{Rule as RuleOfRestart};
ghost use Rattle.ckr_rules.specs.declared.cases.Verdict.{Verdict as VerdictOfRules};
ghost use Rattle.ckr_rules.specs.declared.cases.Verdict.TheVariants.{Step, Checkpoint, Denied};
ghost use Rattle.ckr_desk_turn.specs.Deferred.{continued_by};
ghost use Rattle.ckr_desk_turn.specs.Desk.{DeskModel, done_by};
ghost use Rattle.ckr_desk_turn.specs.Invariant.{IsDesk};
ghost use Rattle.ckr_desk_turn.specs.Permissions.{GoesOnAtEntry, GoesOnAtStart, IsJudgedNext};
ghost use Rattle.ckr_desk_turn.specs.Restarts.{GoesOnBy};
ghost use Rattle.ckr_desk_turn.specs.Turns.{MountedTurn, turn_of};

/// A queued run with RESTART that comes to an initiator is judged by the deferred rules, on the tables as they are then: its turn comes to what
/// they say, and nothing rests on the operator. Where one of them holds, the event by which the restart is denied may come, and it names the first
/// one that does. It is the event that the turn tells, with the name that the denial tells: that of the first needed name on which the point isn't
/// fresh, where the rule is one on data sets, and else none. Where none holds, the event of the selection may come. Behind it the run stands at the
/// start of the step, with the entries counted that the earlier run's point tells; or at the checkpoint of the entry, and is running there, behind the
/// records taken and the writes that the entry tells. The desk behind each of these events is as its events have brought it about.
pub fn deferred_restarts_are_judged()
    ensures turn { (desk : DeskModel) (one : MountedTurn) (row : RunRow) (restart : RestartOfDeck) (verdict : VerdictOfRules) (answer : OperatorAnswer) → IsDesk desk → IsJudgedNext desk one.turn.initiator row restart verdict → one.turn.fail ≡ None
        → turn_of desk one answer ≡ done_by (continued_by verdict desk.office.tables one.turn.initiator row (wanted_of row desk.office.tables restart)) desk }
    ensures denied { (desk : DeskModel) (initiator : ℕ) (row : RunRow) (restart : RestartOfDeck) (rule : RuleOfRestart) (name : Option NameOfSet) → IsDesk desk → IsJudgedNext desk initiator row restart (Denied rule) → GoesOnBy desk (DeniedEvent row.number (rule_number rule) name) }
    ensures first { (desk : DeskModel) (initiator : ℕ) (row : RunRow) (restart : RestartOfDeck) (rule : RuleOfRestart) → IsDesk desk → IsJudgedNext desk initiator row restart (Denied rule) → deferred_rule desk.layout desk.office.tables row ≡ rule_number rule }
    ensures told { (desk : DeskModel) (one : MountedTurn) (row : RunRow) (restart : RestartOfDeck) (rule : RuleOfRestart) (answer : OperatorAnswer) → IsDesk desk → IsJudgedNext desk one.turn.initiator row restart (Denied rule) → one.turn.fail ≡ None
        → (turn_of desk one answer).event ≡ Some (DeniedEvent row.number (rule_number rule) (denial_of row (wanted_of row desk.office.tables restart) desk.office.tables rule).name) }
    ensures named { (desk : DeskModel) (initiator : ℕ) (row : RunRow) (restart : RestartOfDeck) (rule : RuleOfRestart) → IsJudgedNext desk initiator row restart (Denied rule) → tells_a_name rule ≡ true
        → let wanted = wanted_of row desk.office.tables restart in let denial = denial_of row wanted desk.office.tables rule in (stale_denial row wanted desk.office.tables ≡ Some denial) × (denial.rule ≡ rule) × (is_some denial.name ≡ true) }
    ensures step { (desk : DeskModel) (initiator : ℕ) (row : RunRow) (restart : RestartOfDeck) → IsDesk desk → IsJudgedNext desk initiator row restart Step → GoesOnAtStart desk initiator row restart }
    ensures checkpoint { (desk : DeskModel) (initiator : ℕ) (row : RunRow) (restart : RestartOfDeck) → IsDesk desk → IsJudgedNext desk initiator row restart Checkpoint → GoesOnAtEntry desk initiator row restart }
{}
