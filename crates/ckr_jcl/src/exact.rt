//! Copies of the parts of a deck that are the same value, and the test whether two parts are the same.
ghost use Rattle.std.specs.Prelude.{◌≡◌, ◌↔◌, IsTrue, IfOk};

use crate::{Cond, Dd, Disp, Job, Kind, Origin, Parm, Rd, Restart, Role, Step};
use arrayvec::ArrayVec;
use ckr_base::{Duplicate, NoMemory, SameAs, Volser};
use std::alloc::Global;

/// The same serials again.
fn copied_volumes(volumes: &ArrayVec<Volser, 5>) -> ArrayVec<Volser, 5>
    ensures { result ≡ volumes.now }
{
    let mut copy = ArrayVec::new();
    for volume in volumes.as_slice() {
        copy.push(volume.copied());
    }
    copy
}

/// The same text again.
fn copied_text<const N: usize>(text: &ArrayVec<u8, N>) -> ArrayVec<u8, N>
    ensures { result ≡ text.now }
{
    match ArrayVec::try_from(text.as_slice()) {
        Ok(copy) => copy,
        Err(_) => unreachable!(),
    }
}

impl Duplicate for Parm {
    fn duplicate(&self, _alloc: Global) -> Result<Parm, NoMemory> {
        Ok(Parm {
            chk: self.chk,
            ids: copied_text(&self.ids),
            cancel: self.cancel,
            key: self.key,
            col: self.col,
            val: copied_text(&self.val),
            title: copied_text(&self.title),
            sum: self.sum,
        })
    }
}

impl Duplicate for Cond {
    fn duplicate(&self, _alloc: Global) -> Result<Cond, NoMemory> {
        Ok(*self)
    }
}

impl Duplicate for Origin {
    fn duplicate(&self, alloc: Global) -> Result<Origin, NoMemory> {
        match self {
            Origin::InStream(cards) => Ok(Origin::InStream(cards.duplicate(alloc)?)),
            Origin::Named(name) => Ok(Origin::Named(name.copied())),
            Origin::Temporary(name) => Ok(Origin::Temporary(name.copied())),
            Origin::Unnamed => Ok(Origin::Unnamed),
            Origin::Sysout => Ok(Origin::Sysout),
            Origin::Dummy => Ok(Origin::Dummy),
        }
    }
}

impl Duplicate for Dd {
    fn duplicate(&self, alloc: Global) -> Result<Dd, NoMemory> {
        Ok(Dd {
            name: self.name.copied(),
            role: self.role,
            origin: self.origin.duplicate(alloc)?,
            disp: self.disp,
            volumes: copied_volumes(&self.volumes),
            space: self.space,
            lrecl: self.lrecl,
        })
    }
}

impl SameAs for Origin {
    fn is_same_as(&self, other: &Origin) -> bool {
        match (self, other) {
            (Origin::InStream(cards), Origin::InStream(others)) => cards.is_same_as(others),
            (Origin::Named(name), Origin::Named(another)) => name == another,
            (Origin::Temporary(name), Origin::Temporary(another)) => name == another,
            (Origin::Unnamed, Origin::Unnamed) => true,
            (Origin::Sysout, Origin::Sysout) => true,
            (Origin::Dummy, Origin::Dummy) => true,
            _ => false,
        }
    }
}

impl SameAs for Role {
    fn is_same_as(&self, other: &Role) -> bool {
        self == other
    }
}

impl SameAs for Disp {
    fn is_same_as(&self, other: &Disp) -> bool {
        self == other
    }
}

/// Whether two lists of serials are the same.
fn are_same_volumes(first: &[Volser], second: &[Volser]) -> bool
    ensures { IsTrue result ↔ (first.now ≡ second.now) }
{
    match (first, second) {
        ([], []) => true,
        ([a, first_rest @ ..], [b, second_rest @ ..]) => {
            a.is_same_as(b) && are_same_volumes(first_rest, second_rest)
        }
        _ => false,
    }
}

impl SameAs for Dd {
    fn is_same_as(&self, other: &Dd) -> bool {
        if !self.name.is_same_as(&other.name) {
            return false;
        }
        if !self.role.is_same_as(&other.role) {
            return false;
        }
        if !self.origin.is_same_as(&other.origin) {
            return false;
        }
        if !self.disp.is_same_as(&other.disp) {
            return false;
        }
        if !are_same_volumes(self.volumes.as_slice(), other.volumes.as_slice()) {
            return false;
        }
        self.space.is_same_as(&other.space) && self.lrecl == other.lrecl
    }
}

impl Duplicate for Step {
    fn duplicate(&self, alloc: Global) -> Result<Step, NoMemory> {
        Ok(Step {
            name: self.name.copied(),
            program: self.program,
            parm: self.parm.duplicate(alloc)?,
            rd: self.rd,
            cond: self.cond.duplicate(alloc)?,
            dds: self.dds.duplicate(alloc)?,
        })
    }
}

impl Duplicate for Restart {
    fn duplicate(&self, _alloc: Global) -> Result<Restart, NoMemory> {
        Ok(Restart {
            step: self.step,
            id: self.id.as_ref().map(|id| id.copied()),
        })
    }
}

/// The same restart again, where there is one.
fn restart_copied(restart: &Option<Restart>, alloc: Global) -> Result<Option<Restart>, NoMemory>
    ensures { IfOk result (λ copy. copy ≡ restart.now) }
{
    match restart {
        Some(restart) => Ok(Some(restart.duplicate(alloc)?)),
        None => Ok(None),
    }
}

/// The same DD again, where there is one.
fn dd_copied(dd: &Option<Dd>, alloc: Global) -> Result<Option<Dd>, NoMemory>
    ensures { IfOk result (λ copy. copy ≡ dd.now) }
{
    match dd {
        Some(dd) => Ok(Some(dd.duplicate(alloc)?)),
        None => Ok(None),
    }
}

impl Duplicate for Job {
    fn duplicate(&self, alloc: Global) -> Result<Job, NoMemory> {
        Ok(Job {
            name: self.name.copied(),
            rd: self.rd,
            cond: self.cond.duplicate(alloc)?,
            restart: restart_copied(&self.restart, alloc)?,
            syschk: dd_copied(&self.syschk, alloc)?,
            steps: self.steps.duplicate(alloc)?,
        })
    }
}

impl SameAs for Kind {
    fn is_same_as(&self, other: &Kind) -> bool {
        self == other
    }
}

impl SameAs for Rd {
    fn is_same_as(&self, other: &Rd) -> bool {
        self == other
    }
}

impl SameAs for Parm {
    fn is_same_as(&self, other: &Parm) -> bool {
        self == other
    }
}

impl SameAs for Cond {
    fn is_same_as(&self, other: &Cond) -> bool {
        self == other
    }
}

impl SameAs for Restart {
    fn is_same_as(&self, other: &Restart) -> bool {
        self == other
    }
}

impl SameAs for Step {
    fn is_same_as(&self, other: &Step) -> bool {
        if !self.name.is_same_as(&other.name) {
            return false;
        }
        if !self.program.is_same_as(&other.program) {
            return false;
        }
        if !self.parm.is_same_as(&other.parm) {
            return false;
        }
        if !self.rd.is_same_as(&other.rd) {
            return false;
        }
        if !self.cond.is_same_as(&other.cond) {
            return false;
        }
        self.dds.is_same_as(&other.dds)
    }
}

impl SameAs for Job {
    fn is_same_as(&self, other: &Job) -> bool {
        if !self.name.is_same_as(&other.name) {
            return false;
        }
        if !self.rd.is_same_as(&other.rd) {
            return false;
        }
        if !self.cond.is_same_as(&other.cond) {
            return false;
        }
        if !self.restart.is_same_as(&other.restart) {
            return false;
        }
        if !self.syschk.is_same_as(&other.syschk) {
            return false;
        }
        self.steps.is_same_as(&other.steps)
    }
}
