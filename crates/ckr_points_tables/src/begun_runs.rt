//! The runs that have begun: those behind the first ones, which have all ended, and before the last ones, which wait.
ghost use Rattle.std.specs.Prelude.{◌≡◌, ◌≤◌, ◌-◌, drop, length, take};
ghost use Rattle.ckr_points_tables.specs.BegunRuns.{is_over, AreEnded};

use ckr_points::{Run, RunState};

/// Whether a run has ended.
fn is_over(state: RunState) -> bool
    ensures { result ≡ is_over state }
{
    matches!(state, RunState::Ended | RunState::Denied | RunState::Purged)
}

/// How many of these runs, from the first one on, have ended. At least so many have.
pub(crate) fn count_ended(lines: &[Run], least: usize) -> usize
    requires { AreEnded least lines.now }
    ensures { AreEnded result lines.now }
{
    for place in least..lines.len() {
        if !is_over(lines[place].state) {
            return place;
        }
    }
    lines.len()
}

/// The lines from this place on, and before that one.
pub(crate) fn lines_between(lines: &[Run], from: usize, to: usize) -> &[Run]
    requires { from ≤ length lines.now }
    ensures { result.now ≡ take (to - from) (drop from lines.now) }
{
    let behind = &lines[from..];
    &behind[..to.saturating_sub(from).min(behind.len())]
}
