//! The jobs go on by the events of the desk as they are read again.
ghost use Rattle.std.specs.Prelude.{◌≡◌, IfOk, OnErr, OnOk, unwrap_or};
ghost use Rattle.std.specs.Option.{is_some};
ghost use Rattle.ckr_desk_memory.specs.Holders.{AreHolders};
ghost use Rattle.ckr_desk_memory.specs.Invariant.{AreJobs};
ghost use Rattle.ckr_desk_memory.specs.Replay.{deck_of, goes_on, has_few_digits, replayed, IsBounded};
ghost use Rattle.ckr_points.specs.Follows.{follows};

use crate::{Jobs, shared_deck};
use ckr_base::NoMemory;
use ckr_desk_plans::{follows, may_count};
use ckr_desk_turn::job_of_kept;
use ckr_events::Event;
use ckr_jcl::Job;
use ckr_points_tables::Tables;
use ckr_volumes::Layout;
use std::alloc::Global;

/// The deck of the cards that an event keeps.
fn deck_of(alloc: Global, event: &Event) -> Result<Option<Job>, NoMemory>
    requires { IsBounded event.now }
    ensures { IfOk result (λ deck. deck ≡ deck_of event.now) }
{
    match event {
        Event::Submitted { cards, .. } => job_of_kept(alloc, cards.as_slice()),
        _ => Ok(None),
    }
}

/// Whether an event submits no deck, or one under a number of at most seven digits.
fn has_few_digits(event: &Event) -> bool
    ensures { result ≡ has_few_digits event.now }
{
    match event {
        Event::Submitted { job, .. } => *job <= 9_999_999,
        _ => true,
    }
}

/// Whether an event follows, with the deck that it submits.
fn follows_with(tables: &Tables, layout: &Layout, event: &Event, deck: &Option<Job>) -> bool
    ensures { result ≡ follows layout.now tables.now.desk event.now deck.now }
{
    match deck {
        Some(deck) => follows(tables, layout, event, Some(deck)),
        None => follows(tables, layout, event, None),
    }
}

/// Whether the desk goes on by an event, with the deck that it submits.
fn goes_on(tables: &Tables, layout: &Layout, event: &Event, deck: &Option<Job>) -> bool
    ensures { result ≡ goes_on layout.now tables.now.desk event.now deck.now }
{
    has_few_digits(event) && follows_with(tables, layout, event, deck) && may_count(tables, event)
}

impl Jobs {
    /// Goes on by an event of the desk that is read again, whichever it is, and starts no step. False exactly where it doesn't follow, its
    /// deck has a number of more than seven digits, or its rewrite can't be counted; then the jobs are as before. An event keeps at most
    /// 3,355,443 cards, and the code of a run that is held is at most 4095 (this project's profile). Where steps stand at their checkpoints
    /// `open` is told.
    ///
    /// `NoMemory`: the jobs are as before.
    pub fn replay(&mut self, layout: &Layout, event: &Event) -> Result<bool, NoMemory>
        requires bounded { IsBounded event.now }
        requires jobs { AreJobs layout.now self.old }
        ensures answer { IfOk result (λ goes. goes ≡ is_some (replayed layout.now self.old.tables.desk event.now)) }
        ensures ok { OnOk result (self.new.tables.desk ≡ unwrap_or (replayed layout.now self.old.tables.desk event.now) self.old.tables.desk) }
        ensures err { OnErr result (self.new.tables.desk ≡ self.old.tables.desk) }
        ensures running { self.new.running ≡ self.old.running }
        ensures failed { self.new.failed ≡ self.old.failed }
        ensures points { self.new.points ≡ self.old.points }
        ensures jobs { AreJobs layout.now self.new }
        ensures holders { AreHolders self.old.tables.desk → AreHolders self.new.tables.desk }
    {
        let deck = deck_of(self.alloc, event)?;
        if !goes_on(&self.tables, layout, event, &deck) {
            return Ok(false);
        }
        let uses = self.make_room(event, deck.as_ref())?;
        let shared = shared_deck(self.alloc, deck)?;
        self.go_on(event, shared, uses);
        Ok(true)
    }
}
