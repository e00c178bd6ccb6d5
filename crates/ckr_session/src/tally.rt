//! What is counted of the replies.
ghost use Rattle.std.specs.Prelude.{◌≡◌};
ghost use Rattle.ckr_session.specs.Tallies.{no_tally, with_reply};

use ckr_desk::{How, Reply};

/// How many jobs have ended behind their last step, and how many restarts were made. A count stands still at its greatest value (this project's profile).
#[derive(Clone, Copy)]
pub struct Tally {
    /// The jobs that have ended behind their last step.
    pub completed: u64,
    /// The restarts.
    pub restarts: u64,
}

impl Tally {
    /// Nothing is counted yet.
    pub fn new() -> Tally
        ensures { result ≡ no_tally }
    {
        Tally {
            completed: 0,
            restarts: 0,
        }
    }

    /// Counts a reply.
    pub fn count(&mut self, reply: &Reply)
        ensures { self.new ≡ with_reply self.old reply.now }
    {
        match reply {
            Reply::JobEnded {
                how: How::Completed,
                ..
            } => self.completed = self.completed.saturating_add(1),
            Reply::Restarted { .. } => self.restarts = self.restarts.saturating_add(1),
            _ => {}
        }
    }
}
