//! The plans that no taking of volumes changes. A law is the contract of a function that does nothing.
ghost use Rattle.std.specs.Prelude.{◌≡◌, None};
ghost use Rattle.ckr_points.specs.Rows.{TablesModel as TablesOfDesk};
ghost use Rattle.ckr_volumes.specs.declared.layout.Layout.{Layout as LayoutOfDisk};
ghost use Rattle.ckr_desk_turn.specs.declared.plan.Plan.{Plan as PlanOfTurn};
ghost use Rattle.ckr_desk_turn.specs.declared.taking.Taking.{Taking as TakingOfTurn};
ghost use Rattle.ckr_desk_turn.specs.declared.taking.Taking.TheVariants.{Taken};
ghost use Rattle.ckr_desk_turn.specs.Mounts.{plan_by, wanting};

/// Where a step has its volumes on units its plan stays, and where a plan wants none it stays whatever has become of any.
pub fn plans_with_their_volumes_stay()
    ensures kept { (layout : LayoutOfDisk) (tables : TablesOfDesk) (plan : PlanOfTurn) → plan_by layout tables Taken plan ≡ plan }
    ensures none { (layout : LayoutOfDisk) (tables : TablesOfDesk) (taking : TakingOfTurn) (plan : PlanOfTurn) → wanting tables plan ≡ None → plan_by layout tables taking plan ≡ plan }
{}
