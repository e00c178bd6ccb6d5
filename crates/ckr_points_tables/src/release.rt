//! The hold of a run ends.
ghost use Rattle.std.specs.Prelude.{◌≡◌, Option, None};
ghost use Rattle.ckr_events.specs.declared.event.Event.TheVariants.{Released};
ghost use Rattle.ckr_jcl.specs.declared.deck.Job.{Job as JobOfDeck};
ghost use Rattle.ckr_points.specs.Restart.{after_event};
ghost use Rattle.ckr_points_tables.specs.Invariant.{MayFollow};
ghost use Rattle.ckr_points_tables.specs.Release.{released_line};

use crate::Tables;
use ckr_points::{Run, RunState};

impl Tables {
    /// Goes on by the end of a run's hold, which follows: the tables are those of one more event, Released. It takes no memory
    /// (this project's profile).
    pub fn release(&mut self, job: u32)
        requires follows { MayFollow self.old.desk (Released job) None }
        ensures { (deck : Option JobOfDeck) → self.new.desk ≡ after_event (Released job) deck self.old.desk }
    {
        let place = job as usize - 1;
        release_run(&mut self.lines[place]);
        self.ended = self.ended.min(place);
        self.changed = self.changed.max(job as usize);
    }
}

/// A run waits for an initiator to go on.
fn release_run(line: &mut Run)
    ensures { line.new ≡ released_line line.old }
{
    line.state = RunState::Released;
}
