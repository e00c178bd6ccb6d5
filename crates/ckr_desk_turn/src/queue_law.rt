//! What holds of every desk. A law is the contract of a function that does nothing.
ghost use Rattle.std.specs.Prelude.{◌≡◌};
ghost use Rattle.ckr_points.specs.Rows.{TablesModel as TablesOfDesk};
ghost use Rattle.ckr_queue.specs.Queue.{selection_of};
ghost use Rattle.ckr_desk_turn.specs.Select.{next_run};
ghost use Rattle.ckr_desk_turn.specs.Queue.{queue_of, selection_for};

/// The queue of the tables' runs selects the run that comes next to an initiator, and is idle exactly where none does.
pub fn the_queue_selects_the_next_run()
    ensures { (tables : TablesOfDesk) → selection_of (queue_of tables) ≡ selection_for (next_run tables) }
{}
