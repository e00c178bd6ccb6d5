//! The tables go on by an event.
ghost use Rattle.std.specs.Prelude.{◌≡◌, ℕ, suc, ◌≤◌, ◌<◌, [], ◌∷◌, ◌++◌, true, false, Some, IsTrue, Option, length, vec_len, vec_capacity};
ghost use Rattle.std.specs.Option.{option_map, option_map_or};
ghost use Rattle.std.specs.Rc.{rc_value};
ghost use Rattle.ckr_library.specs.NameMaps.{are_named_in_order};
ghost use Rattle.ckr_jcl.specs.declared.deck.Job.{Job as JobOfDeck};
ghost use Rattle.ckr_points.specs.Tables.{after_submitted};
ghost use Rattle.ckr_points_tables.specs.Invariant.{is_run_change, is_submittable, put_at, HasRoom, HasRunRoom, IsAnySubmittable, MayContinue, MayCount, MayFollow, MaySubmit};
ghost use Rattle.ckr_points.specs.Restart.{after_event};
ghost use Rattle.ckr_points_runs.specs.View.{facts_of};
ghost use Rattle.ckr_points_tables.specs.View.{fresh_facts};

use crate::Tables;
use crate::begun_runs::count_ended;
use ckr_base::RoomyList;
use ckr_entry::PassedList;
use ckr_events::Event;
use ckr_jcl::Job;
use ckr_library::Library;
use ckr_points::{Run, RunState};
use ckr_points_runs::{EffectiveJob, RunTable, StepPoints, change_run, earlier_for};
use std::alloc::Global;
use std::rc::Rc;

impl Tables {
    /// Goes on by an event that follows: the tables are those of one more event. A deck is given exactly where the event is
    /// Submitted and its cards are a deck, and it is that deck. There is room for the event, by `make_room` for it or for one
    /// that differs from it in its writes and lengths alone; Rewritten needs none. The deck of a run that is selected to continue an
    /// earlier one is such that it may. It takes no memory (this project's profile).
    pub fn apply(&mut self, event: &Event, deck: Option<Rc<Job>>)
        requires follows { MayFollow self.old.desk event.now (option_map rc_value deck) }
        requires deck { MaySubmit event.now (option_map rc_value deck) }
        requires room { HasRoom self.old event.now }
        requires count { MayCount event.now self.old.desk.sets }
        requires continues { MayContinue event.now self.old.desk }
        ensures { self.new.desk ≡ after_event event.now (option_map rc_value deck) self.old.desk }
    {
        match event {
            Event::Submitted { job: number, .. } => self.submit_deck(*number, deck),
            Event::Selected {
                job: number,
                initiator,
                earlier,
                step,
                id,
            } => {
                if *earlier == 0 {
                    self.change(event)
                } else {
                    self.continue_run(*number, *initiator, *earlier, *step, id)
                }
            }
            Event::Restarted {
                job: number,
                initiator,
                checkpoint,
                ..
            } => self.restart(*number, *initiator, *checkpoint),
            Event::Held {
                job: number,
                code,
                writes,
                lengths,
            } => self.hold(*number, *code, *writes, lengths),
            Event::Released { job: number } => self.release(*number),
            _ => self.change(event),
        }
    }

    /// A deck is submitted, where it is given. There is room for its run.
    fn submit_deck(&mut self, number: u32, deck: Option<Rc<Job>>)
        requires next { number ≡ suc (length self.old.desk.runs) }
        requires deck { IsAnySubmittable number (option_map rc_value deck) }
        requires room { HasRunRoom self.old.room }
        ensures { self.new.desk ≡ option_map_or (λ job. after_submitted number job self.old.desk) (option_map rc_value deck) self.old.desk }
    {
        if let Some(deck) = deck {
            self.submit(number, deck);
        }
    }

    /// A run of the tables goes on by an event that follows. There is room for it.
    fn change(&mut self, event: &Event)
        requires change { is_run_change event.now ≡ true }
        requires follows { (deck : Option JobOfDeck) → MayFollow self.old.desk event.now deck }
        requires room { HasRoom self.old event.now }
        requires count { MayCount event.now self.old.desk.sets }
        ensures { (deck : Option JobOfDeck) → self.new.desk ≡ after_event event.now deck self.old.desk }
    {
        let number = event.job();
        let place = number as usize - 1;
        let before = self.lines[place].initiator;
        // By the tables of the runs that own the earlier steps, so before the table of this one is changed.
        let tables = self.tables.as_slice();
        let earlier = earlier_for(event, number, &self.tables[place], tables);
        in_order(&self.library);
        change_run(
            event,
            earlier.as_slice(),
            &mut self.lines[place],
            &mut self.tables[place],
            &mut self.library,
            &mut self.spare,
            &mut self.writings[place],
        );
        let after = self.lines[place].initiator;
        put_at(&mut self.index, before, 0);
        put_at(&mut self.index, after, number);
        self.ended = count_ended(self.lines.as_slice(), self.ended.min(place));
        self.changed = self.changed.max(number as usize);
    }

    /// A deck is submitted. There is room for its run.
    fn submit(&mut self, number: u32, deck: Rc<Job>)
        requires next { number ≡ suc (length self.old.desk.runs) }
        requires deck { IsTrue (is_submittable number (rc_value deck)) }
        requires room { HasRunRoom self.old.room }
        ensures { self.new.desk ≡ after_submitted number (rc_value deck) self.old.desk }
    {
        let alloc = *self.tables.allocator();
        let line = Run {
            number,
            name: deck.as_ref().name.copied(),
            state: RunState::Queued,
            initiator: None,
        };
        put(&mut self.lines, line);
        put(&mut self.tables, fresh_table(alloc, number, deck));
        put(&mut self.writings, RoomyList::new(alloc));
    }
}

/// The data sets stand in the order of their names.
fn in_order(library: &Library)
    ensures { IsTrue (are_named_in_order library.now.sets) }
{
    let _ = library.name_at(0);
}

/// A run that was just submitted.
fn fresh_table(alloc: Global, number: u32, deck: Rc<Job>) -> RunTable
    ensures { facts_of result ≡ fresh_facts number (rc_value deck) }
{
    RunTable {
        job: EffectiveJob::plain(alloc, number, deck),
        place: None,
        code: None,
        count: 0,
        codes: RoomyList::new(alloc),
        passed: PassedList::new(alloc),
        lost: Vec::new(alloc),
        points: StepPoints::new(alloc),
        in_effect: None,
    }
}

/// Puts an item behind the others. There is a spare place for it.
fn put<T: Drop>(items: &mut Vec<T>, item: T)
    requires { vec_len items.old < vec_capacity items.old }
    ensures { items.new.items ≡ items.old.items ++ item ∷ [] }
{
    match items.push(item) {
        Ok(()) => {}
        Err(_) => unreachable!(),
    }
}

/// Writes a run's number into the index at an initiator, if there is one.
pub(crate) fn put_at(index: &mut [u32; 256], initiator: Option<u8>, number: u32)
    ensures index { index.new ≡ put_at initiator number index.old }
    ensures fits { (i : ℕ) → initiator ≡ Some i → i < 256 }
{
    if let Some(initiator) = initiator {
        index[initiator as usize] = number;
    }
}
