//! The step points of a run.
ghost use Rattle.std.specs.Prelude.{◌≡◌, ◌+◌, ◌<◌, ◌≤◌, [], OnOk, IsOk, Some, nat_lt, length, map, slice_get};
ghost use Rattle.ckr_library.specs.Places.{lead};
ghost use Rattle.ckr_points.specs.Tables.{point_rewritten};
ghost use Rattle.ckr_points.specs.Marks.{point_at, with_point};
ghost use Rattle.ckr_points.specs.Restart.{point_restarted};
ghost use Rattle.ckr_points.specs.Rows.{StartPoint as StartOfStep};
ghost use Rattle.ckr_points_runs.specs.View.{has_step, point_of};

use crate::StepPoint;
use ckr_base::NoMemory;
use std::alloc::Global;
use std::marker::Model;

/// The step points of a run, in ascending order of the steps: seen as they stand, and with the spare places.
#[derive(Drop)]
pub struct StepPoints {
    items: Vec<StepPoint>,
}

impl Model for StepPoints {
    ghost use Rattle.std.specs.Prelude.{◌-◌, vec_len, vec_capacity};
    ghost use Rattle.ckr_base.specs.RoomyLists.{Roomy};
    ghost use Rattle.ckr_points_runs.specs.declared.run_table.StepPoint.{StepPoint};

    ghost Value = { Roomy StepPoint };

    ghost view = { λ a. record { items = a.items.items; room = vec_capacity a.items - vec_len a.items } };

    ghost use Rattle.std.specs.Prelude.{◌≡◌, map, true};
    ghost use Rattle.ckr_points_runs.specs.PointOrder.{are_in_order};
    ghost use Rattle.ckr_points_runs.specs.View.{point_of};

    ghost invariant = { λ a. are_in_order (map point_of a.items.items) ≡ true };
}

impl StepPoints {
    /// No points, and no spare places. It takes no memory.
    pub fn new(alloc: Global) -> Self
        ensures { result.items ≡ [] }
    {
        StepPoints {
            items: Vec::new(alloc),
        }
    }

    /// The points, in order.
    pub fn as_slice(&self) -> &[StepPoint]
        ensures { result.now ≡ self.now.items }
    {
        self.items.as_slice()
    }

    /// Gives the list at least `more` spare places.
    ///
    /// `NoMemory`: the points are as before.
    pub fn reserve(&mut self, more: u32) -> Result<(), NoMemory>
        ensures items { self.new.items ≡ self.old.items }
        ensures ok { OnOk result (more ≤ self.new.room) }
        ensures room { self.old.room ≤ self.new.room }
    {
        self.items.reserve(more as usize)?;
        Ok(())
    }

    /// Puts a point at the place of its step, in place of the one that was there. There is a spare place, and it takes no memory.
    pub fn put(&mut self, point: StepPoint)
        requires { 0 < self.old.room }
        ensures points { map point_of self.new.items ≡ with_point (point_of point) (map point_of self.old.items) }
        ensures room { self.old.room ≤ self.new.room + 1 }
    {
        let place = place_for(self.items.as_slice(), point.step);
        if has_step(self.items.as_slice(), place, point.step) {
            self.items[place] = point;
            return;
        }
        match self.items.insert(place, point) {
            Ok(()) => {}
            Err(_) => unreachable!(),
        }
    }

    /// The run rewrote a record in place in the step of this number.
    pub fn rewrite(&mut self, step: u8)
        ensures points { map point_of self.new.items ≡ map (point_rewritten step) (map point_of self.old.items) }
        ensures room { self.new.room ≡ self.old.room }
    {
        for place in 0..self.items.len() {
            rewrite_one(&mut self.items[place], step);
        }
    }

    /// The run was restarted once more at the start of the step of this number.
    pub fn restart(&mut self, step: u8)
        requires few { (point : StartOfStep) → point_at (map point_of self.old.items) step ≡ Some point → point.restarts < 255 }
        ensures points { (point : StartOfStep) → point_at (map point_of self.old.items) step ≡ Some point → map point_of self.new.items ≡ with_point (point_restarted point) (map point_of self.old.items) }
        ensures room { self.new.room ≡ self.old.room }
    {
        let place = place_for(self.items.as_slice(), step);
        if has_step(self.items.as_slice(), place, step) {
            restart_one(&mut self.items[place]);
        }
    }
}

/// The run was restarted once more at a point.
fn restart_one(point: &mut StepPoint)
    requires { point.old.restarts < 255 }
    ensures { point_of point.new ≡ point_restarted (point_of point.old) }
{
    point.restarts += 1;
}

/// The run rewrote a record in place in a step.
fn rewrite_one(point: &mut StepPoint, step: u8)
    ensures { point_of point.new ≡ point_rewritten step (point_of point.old) }
{
    if point.step == step {
        point.rewritten = true;
    }
}

/// The place of a step: that of its point, or where that is to stand.
fn place_for(items: &[StepPoint], step: u8) -> usize
    ensures place { result ≡ lead (λ point. nat_lt point.step step) items.now }
    ensures bound { result ≤ length items.now }
{
    let mut place = 0;
    while place < items.len() && items[place].step < step {
        place += 1;
    }
    place
}

/// Whether the point at a place is that of a step.
fn has_step(items: &[StepPoint], place: usize, step: u8) -> bool
    ensures { result ≡ has_step step (slice_get items.now place) }
{
    match items.get(place) {
        Some(point) => point.step == step,
        None => false,
    }
}
