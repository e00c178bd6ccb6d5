//! The records of an entry, written into a data set for checkpoints.
ghost use Rattle.std.specs.Prelude.{◌≡◌, ◌≤◌, ◌+◌, IsTrue, get_or, length, OnOk};
ghost use Rattle.ckr_outside.specs.Disk.{HasCause};
ghost use Rattle.ckr_library.specs.Catalog.{records_of};
ghost use Rattle.ckr_volumes.specs.Layouts.{is_laid_out, disk_needed, StandsIn};
ghost use Rattle.ckr_steps.specs.EntryRecords.{zero_filled, HasEntry, ChangesRecords};

use arrayvec::ArrayVec;
use ckr_base::Rec;
use ckr_library::DataSet;
use ckr_outside::{Disk, Failed};
use ckr_volumes::{Layout, write_record};

/// The bytes of a record of a data set for checkpoints.
const RECORD: usize = 256;

/// The byte at a place, counted from 0; a place behind the bytes has a zero.
fn byte_or_zero(bytes: &[u8], place: usize) -> u8
    ensures { result ≡ get_or bytes.now place 0 }
{
    match bytes.get(place) {
        Some(byte) => *byte,
        None => 0,
    }
}

/// A record of these bytes, with zeros behind them.
#[tactic(auto, using(crate::proofs::EntryRecords::fills), unfolding(crate::specs::EntryRecords::zero_filled))]
fn filled(bytes: &[u8]) -> Rec
    ensures value { result ≡ zero_filled bytes.now }
    ensures size { length result ≡ 256 }
{
    let mut record: ArrayVec<u8, RECORD> = ArrayVec::new();
    for place in 0..RECORD {
        record.push(byte_or_zero(bytes, place));
    }
    Rec::of(record.as_slice())
}

/// Writes the records of an entry into a data set, the first one at this place.
pub(crate) fn put_entry<D: Disk>(
    disk: &mut D,
    layout: &Layout,
    set: &DataSet,
    place: u32,
    entry: &[u8],
) -> Result<(), Failed>
    requires layout { IsTrue (is_laid_out layout.now) }
    requires fits { disk_needed layout.now ≤ D.size disk.old }
    requires stands { StandsIn layout.now set.now }
    requires records { set.now.lrecl ≡ 256 }
    requires space { place + records_of (length entry.now) ≤ set.now.space }
    ensures written { D.told → OnOk result (HasEntry (D.content disk.new) layout.now set.now place entry.now) }
    ensures changes { ChangesRecords D.told D.content D.may_leave D.moment D.left_since layout.now set.now place (records_of (length entry.now)) disk.old disk.new }
    ensures size { D.size disk.new ≡ D.size disk.old }
    ensures cause { HasCause (D.faults disk.old) (D.faults disk.new) result }
{
    if entry.is_empty() {
        return Ok(());
    }
    let (first, rest) = entry.split_at(RECORD.min(entry.len()));
    write_record(disk, layout, set, place, &filled(first))?;
    put_entry(disk, layout, set, place + 1, rest)
}
