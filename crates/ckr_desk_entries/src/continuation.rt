//! The entry at which a run goes on, a checkpoint of an earlier one: it is read from the disk, and judged by what the tables keep of it.
ghost use Rattle.std.specs.Prelude.{◌≡◌, ◌==◌, ◌≤◌, ◌<◌, ◌++◌, IfErr, IfOk, IsSome, IsTrue, OnOk, None, false};
ghost use Rattle.std.specs.Option.{option_map_or};
ghost use Rattle.ckr_entry.specs.Entry.{IsEntry, entry_in};
ghost use Rattle.ckr_entry.specs.Parts.{entry_of};
ghost use Rattle.ckr_jcl.specs.declared.deck.Kind.{Kind as KindOf};
ghost use Rattle.ckr_library.specs.Catalog.{ends_within};
ghost use Rattle.ckr_outside.specs.Disk.{OnlyReads};
ghost use Rattle.ckr_points.specs.Statements.{kind_number};
ghost use Rattle.ckr_points_tables.specs.Entries.{entry_in as entry_now};
ghost use Rattle.ckr_steps.specs.EntryRecords.{bytes_on};
ghost use Rattle.ckr_steps.specs.Units.{program_of};
ghost use Rattle.ckr_volumes.specs.Layouts.{StandsIn};
ghost use Rattle.ckr_volumes.specs.Records.{record_at};
ghost use Rattle.ckr_desk_store.specs.State.{IsSound};
ghost use Rattle.ckr_desk_entries.specs.Continuation.{IsStateFound, StoreCause, judged_entry, judged_read, judged_there, there_of};

use crate::entry_reads::{ends_within, kind_number, program_of, put, records_of};
use crate::kept_point::is_as_kept;
use crate::{ReadError, StepState};
use ckr_base::NoMemory;
use ckr_desk_store::Store;
use ckr_entry::{EntryError, Point, State, decode_entry};
use ckr_jcl::Kind;
use ckr_library::{DataSet, Kept};
use ckr_outside::Disk;
use ckr_points_tables::EntryNow;
use ckr_rules::Rule;
use std::alloc::Global;

/// An entry that a data set keeps.
#[derive(Clone, Copy)]
pub struct KeptThere<'a> {
    pub set: &'a DataSet,
    pub entry: EntryNow<'a>,
}

/// Reads the record at a place, and puts its bytes behind those that were read.
fn read_next<D: Disk>(
    store: &mut Store<D>,
    set: &DataSet,
    place: u32,
    found: &mut Vec<u8>,
) -> Result<(), ReadError>
    requires is_open { store.old.fault ≡ None }
    requires stands { StandsIn store.old.layout set.now }
    requires place { place < set.now.space }
    ensures read { D.told → OnOk result (found.new.items ≡ found.old.items ++ record_at (D.content store.old.disk) store.old.layout set.now place) }
    ensures kept { OnOk result (store.new ≡ record store.old { disk = store.new.disk }) }
    ensures sound { IsSound D.content D.may_leave D.size store.new }
    ensures only_reads { OnlyReads D.content D.may_leave D.moment D.left_since store.old.disk store.new.disk }
    ensures size { D.size store.new.disk ≡ D.size store.old.disk }
    ensures faults { D.faults store.old.disk ≤ D.faults store.new.disk }
    ensures cause { IfErr result (StoreCause D.faults store.old store.new) }
{
    let Ok(record) = store.read_record(set, place) else {
        return Err(ReadError::Fault);
    };
    put(found, record.bytes())?;
    Ok(())
}

/// The bytes of an entry that has its places in a data set.
#[tactic(auto, using(crate::proofs::EntryReads::pieces))]
fn read_entry<D: Disk>(
    alloc: Global,
    store: &mut Store<D>,
    set: &DataSet,
    kept: &Kept,
) -> Result<Vec<u8>, ReadError>
    requires is_open { store.old.fault ≡ None }
    requires sound { IsSound D.content D.may_leave D.size store.old }
    requires stands { StandsIn store.old.layout set.now }
    requires places { IsTrue (ends_within set.now.space kept.now) }
    ensures read { D.told → IfOk result (λ found. found.items ≡ bytes_on (D.content store.old.disk) store.old.layout set.now kept.now.place kept.now.bytes) }
    ensures kept { OnOk result (store.new ≡ record store.old { disk = store.new.disk }) }
    ensures sound { IsSound D.content D.may_leave D.size store.new }
    ensures only_reads { OnlyReads D.content D.may_leave D.moment D.left_since store.old.disk store.new.disk }
    ensures size { D.size store.new.disk ≡ D.size store.old.disk }
    ensures faults { D.faults store.old.disk ≤ D.faults store.new.disk }
    ensures cause { IfErr result (StoreCause D.faults store.old store.new) }
{
    let mut found = Vec::new(alloc);
    for place in 0..records_of(kept.bytes) {
        read_next(store, set, kept.place + place, &mut found)?;
    }
    found.truncate(kept.bytes as usize);
    Ok(found)
}

/// Whether a state is of a program.
fn is_of_program(state: &State, program: Option<Kind>) -> bool
    ensures { result ≡ option_map_or (λ (kind : KindOf). kind_number (program_of state.now) == kind_number kind) program false }
{
    match program {
        Some(kind) => kind_number(program_of(state)) == kind_number(kind),
        None => false,
    }
}

/// Where the step stands at which a run goes on, by the point that was read of an entry; or the rule that denies it.
fn judged_state(
    point: Point,
    entry: &EntryNow<'_>,
    program: Option<Kind>,
) -> Result<StepState, Rule>
    requires { IsSome point.id }
    ensures { result ≡ judged_entry (entry_now entry.now) program (entry_of point) }
{
    if !is_as_kept(&point, entry) {
        return Err(Rule::D3);
    }
    if !is_of_program(&point.state, program) {
        return Err(Rule::D7);
    }
    Ok(StepState {
        state: point.state,
        writes: point.writes,
    })
}

/// The same by the bytes of an entry.
fn judged_bytes(
    alloc: Global,
    bytes: &[u8],
    entry: &EntryNow<'_>,
    program: Option<Kind>,
) -> Result<Result<StepState, Rule>, NoMemory>
    ensures judged { IfOk result (λ found. found ≡ judged_read (entry_now entry.now) program (entry_in bytes.now)) }
    ensures form { OnOk result (IfOk (entry_in bytes.now) IsEntry) }
{
    match decode_entry(alloc, bytes) {
        Ok(point) => Ok(judged_state(point, entry, program)),
        Err(EntryError::NoMemory) => Err(NoMemory),
        Err(EntryError::Bad { .. }) => Ok(Err(Rule::D3)),
    }
}

/// Reads the entry of a checkpoint at which a run is to go on: where its step stands there, or the rule that denies it. It is D3 where the
/// entry hasn't its places in its data set, or its bytes aren't one with the point that the tables keep, and D7 where its state is of another
/// program than this one (IBM GC28-6708, this project's profile).
///
/// `NoMemory`. `Fault`: only where the disk's faults rose in this call; then the store has stopped. The disk is only read.
pub fn judged_there<D: Disk>(
    alloc: Global,
    store: &mut Store<D>,
    there: &KeptThere<'_>,
    program: Option<Kind>,
) -> Result<Result<StepState, Rule>, ReadError>
    requires is_open { store.old.fault ≡ None }
    requires sound { IsSound D.content D.may_leave D.size store.old }
    requires stands { StandsIn store.old.layout (there_of there.now).set }
    ensures judged { D.told → IfOk result (λ found. found ≡ judged_there store.old.layout (D.content store.old.disk) program (there_of there.now)) }
    ensures its { IfOk result (IsStateFound program) }
    ensures kept { OnOk result (store.new ≡ record store.old { disk = store.new.disk }) }
    ensures sound { IsSound D.content D.may_leave D.size store.new }
    ensures only_reads { OnlyReads D.content D.may_leave D.moment D.left_since store.old.disk store.new.disk }
    ensures size { D.size store.new.disk ≡ D.size store.old.disk }
    ensures faults { D.faults store.old.disk ≤ D.faults store.new.disk }
    ensures cause { IfErr result (StoreCause D.faults store.old store.new) }
{
    if !ends_within(there.entry.kept, there.set.space) {
        return Ok(Err(Rule::D3));
    }
    let bytes = read_entry(alloc, store, there.set, there.entry.kept)?;
    Ok(judged_bytes(alloc, bytes.as_slice(), &there.entry, program)?)
}
