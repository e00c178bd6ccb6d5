//! The machine room: the console, with the operator in office, and the units, on which he mounts volumes. That a step has all its volumes on units
//! before it starts is IBM GC28-6704, allocation; what is asked, in which order, and what stays mounted is this project's profile.
ghost use Rattle.std.specs.Prelude.{◌≡◌, ◌<◌, ◌≤◌, [], ℕ, IfSome, IsTrue, List, None, Some, false, length};
ghost use Rattle.std.specs.Option.{is_some, option_map};
ghost use Rattle.ckr_console.specs.Answering.{answer_in_office, asked};
ghost use Rattle.ckr_desk_turn.specs.Mounts.{asked_for, gives_up, mount_question};
ghost use Rattle.ckr_desk_turn.specs.declared.taking.Taking.TheVariants.{Taken as AllTaken};
ghost use Rattle.ckr_queue.specs.Mounts.{held_at, units_with, with_held};
ghost use Rattle.ckr_queue.specs.Units.{are_mounted, is_among, is_volume_list, need_of, IsMountedBeside};
ghost use Rattle.ckr_desk_turn.specs.MachineRoom.{FitsUnits, IsAskedFor, NeedsNoQuestion, are_there, behind_attempt, given_up_if};

use crate::{Taking, gives_up};
use ckr_console::{Answer, Console, Operator, Question};
use ckr_points::Reply;
use ckr_queue::{Mounts, Need, VolumeList};
use ckr_volumes::Layout;
use std::marker::Model;

/// The console, and the units with the volumes on them.
#[derive(Drop)]
pub struct MachineRoom<O: Operator> {
    console: Console<O>,
    mounts: Mounts,
}

impl<O: Operator> Model for MachineRoom<O> {
    ghost use Rattle.ckr_desk_turn.specs.MachineRoom.{MachineRoomView};

    ghost Value = { MachineRoomView };

    ghost view = { λ a. record { operator = a.console; mounts = a.mounts } };
}

/// The question whether a volume of the layout, counted from 0, will be mounted on a unit.
fn mount_question(layout: &Layout, volume: u8, unit: u8) -> Question
    requires { volume < length layout.now.volumes.items }
    ensures { result ≡ mount_question layout.now volume unit }
{
    let serial = layout.volumes.as_slice()[volume as usize].serial.copied();
    Question::Mount {
        volume: serial,
        unit,
    }
}

impl<O: Operator> MachineRoom<O> {
    /// This operator is in office, or nobody, and the units are as `mounts` has them.
    pub fn new(operator: Option<O>, mounts: Mounts) -> MachineRoom<O>
        ensures { result ≡ record { operator = option_map O.answering operator; mounts = mounts } }
    {
        MachineRoom {
            console: Console::new(operator),
            mounts,
        }
    }

    /// The next operator takes office, and the former one is dropped.
    pub fn shift(&mut self, operator: O)
        ensures { self.new ≡ record self.old { operator = Some (O.answering operator) } }
    {
        self.console.shift(operator);
    }

    /// The answer of the operator in office. Where nobody is, the question stays unanswered.
    pub fn ask(&mut self, question: &Question) -> Answer
        ensures answer { result ≡ answer_in_office question.now self.old.operator }
        ensures behind { self.new ≡ record self.old { operator = asked self.old.operator } }
    {
        self.console.ask(question)
    }

    /// Whether the step on an initiator, from 1 to 8, holds its volumes.
    pub fn holds(&self, initiator: u8) -> bool
        requires above { 1 ≤ initiator }
        requires below { initiator ≤ 8 }
        ensures { result ≡ is_some (held_at self.now.mounts initiator) }
    {
        self.mounts.holds(initiator)
    }

    /// What becomes of the volumes that a step wants, where nobody is to be asked for it: they need more units than there are, or than are free, or
    /// all of them are on units. None where the operator is to be asked; then they need no more units than are free, and one of them is on no unit.
    pub fn unasked(&self, layout: &Layout, volumes: &[u8]) -> Option<Taking>
        requires list { IsTrue (is_volume_list volumes.now) }
        ensures some { IfSome result (λ taking. NeedsNoQuestion layout.now volumes.now self.now taking) }
        ensures none { result ≡ None → FitsUnits layout.now volumes.now self.now }
        ensures lacking { result ≡ None → are_mounted (units_with [] self.now.mounts) volumes.now ≡ false }
    {
        if layout.units < volumes.len() as u8 {
            return Some(Taking::Exceeds {
                need: volumes.len() as u8,
            });
        }
        let Need { need, free } = self.mounts.need(volumes);
        if free < need {
            return Some(Taking::Lacks { need, free });
        }
        if self.mounts.are_mounted(volumes) {
            return Some(Taking::Taken);
        }
        None
    }

    /// One of the volumes that a step wants: where it is on no unit the operator is asked whether it will be mounted on the one that is for it.
    fn mount(&mut self, layout: &Layout, volumes: &[u8], volume: u8) -> Taking
        requires list { IsTrue (is_volume_list volumes.now) }
        requires there { volume < length layout.now.volumes.items }
        requires among { IsTrue (is_among volumes.now volume) }
        requires fit { (need_of (units_with [] self.old.mounts) volumes.now).need ≤ (need_of (units_with [] self.old.mounts) volumes.now).free }
        ensures mounted { result ≡ AllTaken → IsMountedBeside volumes.now volume (units_with volumes.now self.old.mounts) (units_with volumes.now self.new.mounts) }
        ensures asked { (rest : List ℕ) → IsAskedFor layout.now volumes.now volume rest self.old self.new result }
    {
        let Some(unit) = self.mounts.unit_for(volumes, volume) else {
            return Taking::Taken;
        };
        match self.console.ask(&mount_question(layout, volume, unit)) {
            Answer::Yes => {
                self.mounts.mount(volumes, volume, unit);
                Taking::Taken
            }
            Answer::No | Answer::Hold => Taking::Refused { volume },
            Answer::Silent => Taking::Awaited,
        }
    }

    /// Has the volumes mounted that a step wants, which need no more units than are free: one question for each that is on no unit, in their order, until one
    /// isn't answered with yes. Those that were mounted stay so.
    pub fn mount_all(&mut self, layout: &Layout, volumes: &[u8]) -> Taking
        requires list { IsTrue (is_volume_list volumes.now) }
        requires there { IsTrue (are_there layout.now volumes.now) }
        requires fit { FitsUnits layout.now volumes.now self.old }
        ensures taking { result ≡ (asked_for layout.now volumes.now self.old.mounts self.old.operator).taking }
        ensures behind { self.new ≡ behind_attempt (asked_for layout.now volumes.now self.old.mounts self.old.operator) }
        ensures mounted { result ≡ AllTaken → IsTrue (are_mounted (units_with [] self.new.mounts) volumes.now) }
    {
        for volume in volumes {
            match self.mount(layout, volumes, *volume) {
                Taking::Taken => {}
                taking => return taking,
            }
        }
        Taking::Taken
    }

    /// The step on an initiator takes its volumes, all of which are on units. It held none before.
    pub fn take(&mut self, initiator: u8, volumes: VolumeList)
        requires above { 1 ≤ initiator }
        requires below { initiator ≤ 8 }
        requires none { held_at self.old.mounts initiator ≡ None }
        requires list { IsTrue (is_volume_list volumes.items) }
        requires mounted { IsTrue (are_mounted (units_with [] self.old.mounts) volumes.items) }
        ensures { self.new ≡ record self.old { mounts = with_held initiator volumes.items self.old.mounts } }
    {
        self.mounts.take(initiator, volumes);
    }

    /// Behind a turn with such a reply the step on its initiator gives its volumes up, or keeps them. Those that it gives up stay on their units.
    pub fn give_up_behind(&mut self, initiator: u8, reply: &Reply)
        requires above { 1 ≤ initiator }
        requires below { initiator ≤ 8 }
        ensures { self.new ≡ given_up_if (gives_up reply.now) initiator self.old }
    {
        if gives_up(reply) {
            self.mounts.give_up(initiator);
        }
    }
}
