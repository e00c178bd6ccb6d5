//! What no clause says: jobs of one name, as the desk's rows have them.
ghost use Rattle.std.specs.Prelude.{◌≡◌, [], Some, IfSome, IfNone};
ghost use Rattle.ckr_queue.specs.declared.entry.QueueState.TheVariants.{Selected as SelectedRun};
ghost use Rattle.ckr_queue.specs.Queue.{state_of};

use ckr_base::{DsName, NoMemory};
use ckr_queue::{Queue, Selection};
use ckr_uses::{Use, Uses};
use std::alloc::Global;
use std::test::Fail;

/// One use of a name.
fn use_of(alloc: Global, text: &[u8], exclusive: bool) -> Result<Uses, NoMemory> {
    let mut uses = Uses::new(alloc);
    if let Some(name) = DsName::read(text) {
        uses.push(Use { name, exclusive })?;
    }
    Ok(uses)
}

/// An initiator takes the next run.
#[tactic(auto, using(ckr_queue::proofs::Select::states))]
fn take_next(queue: &mut Queue) -> Option<u32>
    ensures some { IfSome result (λ number. state_of number queue.new.entries ≡ Some SelectedRun) }
    ensures none { IfNone result (queue.new.entries ≡ queue.old.entries) }
{
    match queue.select() {
        Selection::Job(number) => {
            queue.take(number);
            Some(number)
        }
        Selection::Idle => None,
    }
}

/// A run that is on an initiator is held, and goes on.
fn hold_and_resume(queue: &mut Queue, number: u32)
    requires { state_of number queue.old.entries ≡ Some SelectedRun }
    ensures { state_of number queue.new.entries ≡ Some SelectedRun }
{
    queue.hold(number);
    queue.resume(number);
}

/// Two runs that name one data set come, the second one first.
fn submit_two(queue: &mut Queue, alloc: Global, exclusive: bool) -> Result<(), NoMemory>
    requires { queue.old.entries ≡ [] }
{
    queue.submit(2, use_of(alloc, b"X.A", exclusive)?)?;
    queue.submit(1, use_of(alloc, b"X.A", exclusive)?)?;
    Ok(())
}

/// The first run is taken, the second waits, and is next once the first has ended.
#[tactic(auto, using(ckr_queue::proofs::Select::states))]
fn waits_for_the_end(queue: &mut Queue) -> bool {
    let Some(first) = take_next(queue) else {
        return false;
    };
    let waits = queue.select() == Selection::Idle;
    queue.end(first);
    first == 1 && waits && queue.select() == Selection::Job(2)
}

/// Two jobs that name one data set OLD: the second waits until the first has ended.
#[test]
fn an_exclusive_name_waits_for_the_end(rt: HostRuntime) -> Result<(), Fail> {
    let mut queue = Queue::new(rt.alloc());
    submit_two(&mut queue, rt.alloc(), true)?;
    assert!(rt; waits_for_the_end(&mut queue));
    Ok(())
}

/// Both runs are taken, the lower number first.
fn are_taken_at_once(queue: &mut Queue) -> bool {
    take_next(queue) == Some(1) && take_next(queue) == Some(2) && queue.select() == Selection::Idle
}

/// The same with SHR: both are selected, the lower number first, whatever the order in which they came.
#[test]
fn a_shared_name_waits_for_nothing(rt: HostRuntime) -> Result<(), Fail> {
    let mut queue = Queue::new(rt.alloc());
    submit_two(&mut queue, rt.alloc(), false)?;
    assert!(rt; are_taken_at_once(&mut queue));
    Ok(())
}

/// The third run is held, and is next once it is released.
fn is_next_once_released(queue: &mut Queue) -> bool
    requires { state_of 3 queue.old.entries ≡ Some SelectedRun }
{
    let unheld = !queue.release(3);
    queue.hold(3);
    let waits = queue.select() == Selection::Idle;
    unheld && waits && queue.release(3) && !queue.release(3) && queue.select() == Selection::Job(3)
}

/// Of three runs, of which the first two name one data set, the third is held and released. The second waits, and is purged.
fn are_served(queue: &mut Queue) -> bool {
    if take_next(queue) != Some(1) || take_next(queue) != Some(3) {
        return false;
    }
    is_next_once_released(queue) && !queue.purge(1) && queue.purge(2) && !queue.purge(2)
}

/// A held run keeps its names, and a released one is next, before queued ones that wait.
#[test]
fn a_released_run_is_next(rt: HostRuntime) -> Result<(), Fail> {
    let mut queue = Queue::new(rt.alloc());
    queue.submit(1, use_of(rt.alloc(), b"X.A", true)?)?;
    queue.submit(2, use_of(rt.alloc(), b"X.A", true)?)?;
    queue.submit(3, use_of(rt.alloc(), b"X.B", true)?)?;
    assert!(rt; are_served(&mut queue));
    Ok(())
}

/// The first run is held and goes on, and the second waits.
fn goes_on(queue: &mut Queue) -> bool {
    let Some(first) = take_next(queue) else {
        return false;
    };
    hold_and_resume(queue, first);
    !queue.release(first) && queue.select() == Selection::Idle
}

/// A run that is held goes on with no release. It is on its initiator then, and has kept its names.
#[test]
fn a_held_run_goes_on(rt: HostRuntime) -> Result<(), Fail> {
    let mut queue = Queue::new(rt.alloc());
    submit_two(&mut queue, rt.alloc(), true)?;
    assert!(rt; goes_on(&mut queue));
    Ok(())
}
