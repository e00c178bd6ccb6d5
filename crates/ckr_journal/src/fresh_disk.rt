//! Formatting a disk.
ghost use Rattle.std.specs.Prelude.{ℕ, ◌≡◌, ◌≤◌, ◌<◌, ◌+◌, [], ◌∷◌, ◌++◌, length, take, drop, false, OnOk, IfErr, Ok, Err};
ghost use Rattle.ckr_outside.specs.Disk.{Overwrites, Only, EachSince, ChangesWithin, HasCause, part};
ghost use Rattle.ckr_outside.specs.Faults.{Rose};
ghost use Rattle.ckr_book.specs.Next.{NoneAt};
ghost use Rattle.ckr_volumes.specs.Header.{header_of, header_bytes, IsHeader};
ghost use Rattle.ckr_volumes.specs.Layouts.{disk_needed};
ghost use Rattle.ckr_journal.specs.Layouts.{FormatCause};
ghost use Rattle.ckr_journal.specs.FormatStops.{IsOldOrFresh};

use crate::error::FormatError;
use arrayvec::ArrayVec;
use ckr_outside::{Disk, Failed};
use ckr_volumes::{HEADER_BYTES, Layout, header_bytes};

/// An open gate.
const OPEN: u8 = 1;

/// A closed gate.
const CLOSED: u8 = 0;

/// Makes the disk one of this layout, with an empty book. It takes no memory. The header's gate is closed and synced
/// first, then the rest of the header and the book's first gate, closed, are written and synced, and then the header's
/// gate is opened and synced. The volumes keep their bytes.
///
/// `TooSmall`: exactly where the disk has fewer bytes than the layout needs; then nothing has changed. `Fault`: only
/// where the disk's faults rose in this call; then it has to be formatted again.
pub fn format<D: Disk>(disk: &mut D, layout: &Layout) -> Result<(), FormatError>
    requires { IsHeader layout.now (disk_needed layout.now) }
    ensures header { D.told → OnOk result
        (header_of (take 512 (D.content disk.new)) (D.size disk.new) ≡ Ok layout.now) }
    ensures empty { D.told → OnOk result (NoneAt (part 512 layout.now.book (D.content disk.new)) false) }
    ensures settled { OnOk result (Only (D.content disk.new) (D.may_leave disk.new)) }

    // Outside the header and the first gate of the book no byte changes, also in what a stop leaves.
    ensures changes { ChangesWithin D.told D.content D.may_leave D.moment D.left_since 0 513 disk.old disk.new }

    // A stop at any moment leaves an image of before, but for the header's gate, or one that isn't formatted, or one of
    // this layout with an empty book.
    ensures any_moment { EachSince D.moment D.left_since disk.old disk.new
        (IsOldOrFresh (D.may_leave disk.old) (D.size disk.old) layout.now) }
    ensures size { D.size disk.new ≡ D.size disk.old }
    ensures faults { D.faults disk.old ≤ D.faults disk.new }

    // `TooSmall` comes exactly where the disk is too small, and changes nothing.
    ensures too_small { D.size disk.old < disk_needed layout.now
        → result ≡ Err (FormatError.TooSmall (disk_needed layout.now) (D.size disk.old)) }
    ensures unchanged { D.size disk.old < disk_needed layout.now → disk.new ≡ disk.old }
    ensures cause { IfErr result (FormatCause (Rose (D.faults disk.old) (D.faults disk.new))
        (disk_needed layout.now) (D.size disk.old)) }
{
    let need = bytes_needed(layout);
    let size = disk.size();
    if size < need {
        return Err(FormatError::TooSmall { need, size });
    }
    let header = header_of(layout);
    put_gate(disk, CLOSED)?;
    stage(disk, behind_gate(header.as_slice()))?;
    put_gate(disk, OPEN)?;
    Ok(())
}

/// How many bytes of a disk the layout needs.
fn bytes_needed(layout: &Layout) -> u64
    requires { length layout.now.volumes.items ≤ 32 }
    ensures { result ≡ disk_needed layout.now }
{
    let mut end = 512 + layout.book as u64 + 2 * layout.image as u64;
    for volume in layout.volumes.as_slice() {
        end += volume.bytes as u64;
    }
    end
}

/// The bytes of the header, the gate open.
fn header_of(layout: &Layout) -> ArrayVec<u8, HEADER_BYTES>
    requires { IsHeader layout.now (disk_needed layout.now) }
    ensures bytes { result.items ≡ header_bytes layout.now }
    ensures long { length result.items ≡ 512 }
    ensures room { 768 ≤ disk_needed layout.now }
    ensures reads { (size : ℕ) → IsHeader layout.now size → header_of result.items size ≡ Ok layout.now }
{
    header_bytes(layout)
}

/// The header behind its gate.
fn behind_gate(header: &[u8]) -> &[u8]
    requires { 1 ≤ length header.now }
    ensures { result.now ≡ drop 1 header.now }
{
    &header[1..]
}

/// Puts the header's gate for good.
fn put_gate<D: Disk>(disk: &mut D, gate: u8) -> Result<(), Failed>
    requires { 1 ≤ D.size disk.old }
    ensures written { D.told → OnOk result (Overwrites 0 (gate ∷ []) (D.content disk.old) (D.content disk.new)) }
    ensures durable { OnOk result (Only (D.content disk.new) (D.may_leave disk.new)) }
    ensures changes { ChangesWithin D.told D.content D.may_leave D.moment D.left_since 0 1 disk.old disk.new }
    ensures size { D.size disk.new ≡ D.size disk.old }
    ensures cause { HasCause (D.faults disk.old) (D.faults disk.new) result }
{
    disk.write_at(0, &[gate])?;
    disk.sync()
}

/// Puts what stands behind the header's gate, and the book's first gate, closed, for good.
fn stage<D: Disk>(disk: &mut D, fields: &[u8]) -> Result<(), Failed>
    requires fits { 513 ≤ D.size disk.old }
    requires long { length fields.now ≡ 511 }
    ensures written { D.told → OnOk result
        (Overwrites 1 (fields.now ++ 0 ∷ []) (D.content disk.old) (D.content disk.new)) }
    ensures durable { OnOk result (Only (D.content disk.new) (D.may_leave disk.new)) }
    ensures changes { ChangesWithin D.told D.content D.may_leave D.moment D.left_since 1 512 disk.old disk.new }
    ensures size { D.size disk.new ≡ D.size disk.old }
    ensures cause { HasCause (D.faults disk.old) (D.faults disk.new) result }
{
    write_fields(disk, fields)?;
    disk.sync()
}

/// Writes what stands behind the header's gate, and the book's first gate, closed.
fn write_fields<D: Disk>(disk: &mut D, fields: &[u8]) -> Result<(), Failed>
    requires fits { 513 ≤ D.size disk.old }
    requires long { length fields.now ≡ 511 }
    ensures written { D.told → OnOk result
        (Overwrites 1 (fields.now ++ 0 ∷ []) (D.content disk.old) (D.content disk.new)) }
    ensures changes { ChangesWithin D.told D.content D.may_leave D.moment D.left_since 1 512 disk.old disk.new }
    ensures size { D.size disk.new ≡ D.size disk.old }
    ensures cause { HasCause (D.faults disk.old) (D.faults disk.new) result }
{
    disk.write_at(1, fields)?;
    disk.write_at(512, &[CLOSED])
}
