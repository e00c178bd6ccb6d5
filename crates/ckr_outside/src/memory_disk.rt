//! A disk in memory that fails where it is told to. It keeps a record of its calls, and what they changed.
ghost use Rattle.std.specs.Prelude.{◌≡◌, ◌<◌, ◌≤◌, ◌+◌, ◌^◌, ◌++◌, [], ◌∷◌, length, replicate, IfOk, OnOk, OnErr};
ghost use Rattle.ckr_outside.specs.Disk.{Overwrites, ChangesWithin, Only, OnlyReads, Remembers, HasCause, part};
ghost use Rattle.ckr_outside.specs.Changes.{content_after};

use crate::Disk;
use crate::changes::{Change, Pick, leave, put};
use crate::failure::Failed;
use crate::plan::{FailurePlan, ListedCalls};
use ckr_base::NoMemory;
use std::alloc::Global;

/// Which call of a disk it was.
#[derive(Clone, Copy, PartialEq, Eq)]
pub enum CallKind {
    Read,
    Write,
    Sync,
}

/// A call of a disk, with its place and its number of bytes. A sync has 0 and 0.
#[derive(Clone, Copy, PartialEq, Eq)]
pub struct DiskCall {
    pub kind: CallKind,
    pub at: u64,
    pub length: u64,
}

/// Records a call and what it changed. Where no memory is found, neither is recorded.
fn keep(
    changes: &mut Vec<Change>,
    calls: &mut Vec<DiskCall>,
    change: Change,
    call: DiskCall,
) -> Result<(), NoMemory>
    ensures changes { OnOk result (changes.new.items ≡ changes.old.items ++ change ∷ []) }
    ensures calls { OnOk result (calls.new.items ≡ calls.old.items ++ call ∷ []) }
    ensures changes_err { OnErr result (changes.new.items ≡ changes.old.items) }
    ensures calls_err { OnErr result (calls.new.items ≡ calls.old.items) }
{
    calls.try_reserve(1)?;
    changes.push(change)?;
    calls.push(call)?;
    Ok(())
}

/// The bytes once more.
fn copy_of(alloc: Global, bytes: &[u8]) -> Result<Vec<u8>, NoMemory>
    ensures { IfOk result (λ copy. copy.items ≡ bytes.now) }
{
    Ok(bytes.to_vec(alloc)?)
}

/// A disk in memory. It fails exactly at the listed calls, which are counted from 0, from the stop on, and where it
/// finds no memory for the record of its calls.
#[derive(Drop)]
pub struct MemDisk {
    alloc: Global,
    first: Vec<u8>,
    bytes: Vec<u8>,
    changes: Vec<Change>,
    calls: Vec<DiskCall>,
    plan: FailurePlan,
    stop_at: Option<u64>,
    ghost replays: { bytes.items ≡ content_after first.items changes.items },
    ghost bounded: { length bytes.items < 2 ^ 64 },
}

impl MemDisk {
    ghost use Rattle.ckr_outside.specs.MemDisk.{content_of, MayLeave, faults_of, lacks_of, calls_of, next_number, IsPlanned, left_of};

    /// A disk of so many bytes that reads zeros, with nothing pending. The calls with the listed numbers fail, and all
    /// from the number `stop_at` on.
    pub fn new(
        alloc: Global,
        size: u64,
        failing: Vec<u64>,
        stop_at: Option<u64>,
    ) -> Result<MemDisk, NoMemory>
        ensures zeros { IfOk result (λ disk. content_of disk ≡ replicate size 0) }
        ensures durable { IfOk result (λ disk. Only (replicate size 0) (MayLeave disk)) }
        ensures planned { IfOk result (λ disk. IsPlanned disk failing.items stop_at × (next_number disk ≡ 0)) }
        ensures no_call { IfOk result (λ disk. calls_of disk ≡ []) }
        ensures no_fault { IfOk result (λ disk. (faults_of disk ≡ 0) × (lacks_of disk ≡ 0)) }
    {
        Ok(MemDisk {
            alloc,
            first: vec![in alloc; 0; size as usize]?,
            bytes: vec![in alloc; 0; size as usize]?,
            changes: Vec::new(alloc),
            calls: Vec::new(alloc),
            plan: FailurePlan::new(ListedCalls::Wide(failing)),
            stop_at,
        })
    }

    /// The disk after a stop. No call of it is to fail, and its record and counts begin anew.
    pub fn stop(self, pick: Pick) -> MemDisk
        ensures content { content_of result ≡ left_of pick self }
        ensures image { MayLeave self (content_of result) }
        ensures size { length (content_of result) ≡ length (content_of self) }
        ensures kept { pick ≡ Pick.Kept → content_of result ≡ content_of self }
        ensures settled { Only (content_of result) (MayLeave result) }
        ensures planned { IsPlanned result [] None × (next_number result ≡ 0) }
        ensures no_call { calls_of result ≡ [] }
        ensures no_fault { (faults_of result ≡ 0) × (lacks_of result ≡ 0) }
    {
        let MemDisk {
            alloc,
            mut first,
            mut bytes,
            mut changes,
            mut calls,
            plan: _,
            stop_at: _,
        } = self;
        bytes.copy_from_slice(&first);
        leave(&mut first, &mut bytes, &changes, pick);
        bytes.copy_from_slice(&first);
        changes.clear();
        calls.clear();
        MemDisk {
            alloc,
            first,
            bytes,
            changes,
            calls,
            plan: FailurePlan::new(ListedCalls::Wide(Vec::new(alloc))),
            stop_at: None,
        }
    }

    /// How many of its faults were want of memory.
    pub fn lacks(&self) -> u64
        ensures { result ≡ lacks_of self.now }
    {
        self.plan.lacks
    }

    /// The calls in order, failed ones too but those that found no memory. It takes no memory.
    pub fn calls(&self) -> &[DiskCall]
        ensures { result.now ≡ calls_of self.now }
    {
        &self.calls
    }
}

impl Disk for MemDisk {
    ghost use Rattle.std.proofs.Common.{refl, sym, ◌∙◌, ap, subst};
    ghost use Rattle.ckr_outside.specs.Changes.{IsImage, LeftSince};
    ghost use Rattle.ckr_outside.specs.Images.{image_read, length-content_after, since_sized, since_now, since_only_now};
    ghost use Rattle.ckr_outside.specs.MemDisk.{content_of, MayLeave, moment_of, MightHaveLeft, faults_of, AnswersAsPlanned};

    ghost told = { Unit {0} };

    ghost content = { λ d. d.bytes.items };

    ghost may_leave = { λ d. IsImage d.first.items d.changes.items };

    ghost moment = { λ d. length d.changes.items };

    ghost left_since = { λ d. LeftSince d.first.items d.changes.items };

    ghost size = { λ d. length d.bytes.items };

    ghost faults = { λ d. d.plan.faults };

    ghost bounded = { λ d. d.bounded };

    ghost tells = { λ d image is. tt };

    ghost reads_an_image = { λ d told. subst (IsImage d.first.items d.changes.items) (sym d.replays) (image_read d.first.items d.changes.items) };

    ghost as_long = { λ d told. refl };

    ghost sized = { λ d t image left. since_sized d.first.items d.changes.items t image left ∙ sym (ap length d.replays ∙ length-content_after d.first.items d.changes.items) };

    ghost counts_now = { λ d t image le is. since_now d.first.items d.changes.items t image le is };

    ghost only_now = { λ d image left. since_only_now d.first.items d.changes.items image left };

    fn size(&self) -> u64 {
        self.bytes.len() as u64
    }

    fn read(&mut self, at: u64, buf: &mut [u8]) -> Result<(), Failed>
        requires { at + length buf.old ≤ length (content_of self.old) }
        ensures read { OnOk result (buf.new ≡ part at (length buf.old) (content_of self.old)) }
        ensures only_reads { OnlyReads content_of MayLeave moment_of MightHaveLeft self.old self.new }
        ensures remembers { Remembers (moment_of self.old) (MightHaveLeft self.old) (MightHaveLeft self.new) }
        ensures size { length (content_of self.new) ≡ length (content_of self.old) }
        ensures cause { HasCause (faults_of self.old) (faults_of self.new) result }
        ensures planned { AnswersAsPlanned self.old self.new
            (record { kind = CallKind.Read; at = at; length = length buf.old }) result }
    {
        let call = DiskCall {
            kind: CallKind::Read,
            at,
            length: buf.len() as u64,
        };
        let due = self.plan.call_is_due(self.stop_at);
        let Ok(()) = keep(&mut self.changes, &mut self.calls, Change::Nothing, call) else {
            return Err(self.plan.lack());
        };
        if due {
            return Err(self.plan.fail());
        }
        let start = at as usize;
        buf.copy_from_slice(&self.bytes[start..start + buf.len()]);
        Ok(())
    }

    fn write_at(&mut self, at: u64, bytes: &[u8]) -> Result<(), Failed>
        requires { at + length bytes.now ≤ length (content_of self.old) }
        ensures written { OnOk result (Overwrites at bytes.now (content_of self.old) (content_of self.new)) }
        ensures changes { ChangesWithin (Unit {0}) content_of MayLeave moment_of MightHaveLeft
            at (length bytes.now) self.old self.new }
        ensures remembers { Remembers (moment_of self.old) (MightHaveLeft self.old) (MightHaveLeft self.new) }
        ensures size { length (content_of self.new) ≡ length (content_of self.old) }
        ensures cause { HasCause (faults_of self.old) (faults_of self.new) result }
        ensures planned { AnswersAsPlanned self.old self.new
            (record { kind = CallKind.Write; at = at; length = length bytes.now }) result }
    {
        let call = DiskCall {
            kind: CallKind::Write,
            at,
            length: bytes.len() as u64,
        };
        if self.plan.call_is_due(self.stop_at) {
            let change = Change::Spoiled {
                at,
                length: bytes.len() as u64,
            };
            let Ok(()) = keep(&mut self.changes, &mut self.calls, change, call) else {
                return Err(self.plan.lack());
            };
            return Err(self.plan.fail());
        }
        let Ok(kept) = copy_of(self.alloc, bytes) else {
            return Err(self.plan.lack());
        };
        let change = Change::Wrote { at, bytes: kept };
        let Ok(()) = keep(&mut self.changes, &mut self.calls, change, call) else {
            return Err(self.plan.lack());
        };
        put(&mut self.bytes, at, bytes);
        Ok(())
    }

    fn sync(&mut self) -> Result<(), Failed>
        ensures durable { OnOk result (Only (content_of self.new) (MayLeave self.new)) }
        ensures only_reads { OnlyReads content_of MayLeave moment_of MightHaveLeft self.old self.new }
        ensures remembers { Remembers (moment_of self.old) (MightHaveLeft self.old) (MightHaveLeft self.new) }
        ensures size { length (content_of self.new) ≡ length (content_of self.old) }
        ensures cause { HasCause (faults_of self.old) (faults_of self.new) result }
        ensures planned { AnswersAsPlanned self.old self.new
            (record { kind = CallKind.Sync; at = 0; length = 0 }) result }
    {
        let call = DiskCall {
            kind: CallKind::Sync,
            at: 0,
            length: 0,
        };
        if self.plan.call_is_due(self.stop_at) {
            let Ok(()) = keep(&mut self.changes, &mut self.calls, Change::Nothing, call) else {
                return Err(self.plan.lack());
            };
            return Err(self.plan.fail());
        }
        let Ok(()) = keep(&mut self.changes, &mut self.calls, Change::Synced, call) else {
            return Err(self.plan.lack());
        };
        Ok(())
    }

    fn faults(&self) -> u64 {
        self.plan.faults
    }
}
