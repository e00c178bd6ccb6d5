//! How long a data set is by now.
ghost use Rattle.std.specs.Prelude.{◌≡◌, map};
ghost use Rattle.ckr_desk_memory.specs.Parts.{step_seen};
ghost use Rattle.ckr_desk_memory.specs.View.{length_in};
ghost use Rattle.ckr_desk_refines.specs.Lengths.{length_seen, longest_seen};

use ckr_base::DsName;
use ckr_desk_memory::{Jobs, RunningStep};
use ckr_library::{Content, DataSet};

/// The records that the data sets of a running step have under a name.
fn length_in_step(on: &RunningStep, name: &DsName) -> u32
    ensures { result ≡ length_in on.now.sets.sets name.now }
{
    match on.sets.get(name) {
        Some(set) => set.length,
        None => 0,
    }
}

/// The length of a data set by what is committed of it, and by what one of the running steps has written.
fn longest(running: &[RunningStep], name: &DsName, committed: u32) -> u32
    ensures { result ≡ longest_seen name.now (map step_seen running.now) committed }
{
    let mut most = committed;
    for on in running {
        most = most.max(length_in_step(on, name));
    }
    most
}

/// How many records a data set of the library has by now, with those that running steps have written since the last event.
pub(crate) fn length_now(jobs: &Jobs, name: &DsName, set: &DataSet) -> u32
    ensures { result ≡ length_seen set.now.content jobs.now.running name.now set.now.length }
{
    match set.content {
        Content::Plain => longest(jobs.running(), name, set.length),
        Content::Checkpoints => set.length,
    }
}
