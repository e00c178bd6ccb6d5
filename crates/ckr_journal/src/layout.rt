//! Reading the header of a disk.
ghost use Rattle.std.specs.Prelude.{◌≡◌, ◌≤◌, ◌+◌, IsTrue, IfOk, IfErr, OnOk, length, take, min};
ghost use Rattle.ckr_outside.specs.Disk.{OnlyReads, HasCause};
ghost use Rattle.ckr_outside.specs.Faults.{Rose};
ghost use Rattle.ckr_volumes.specs.Header.{header_of, IsHeader};
ghost use Rattle.ckr_volumes.specs.Layouts.{is_laid_out};
ghost use Rattle.ckr_journal.specs.Layouts.{Answers, LayoutCause};

use crate::error::LayoutError;
use ckr_outside::{Disk, Failed};
use ckr_volumes::{HEADER_BYTES, HeaderError, Layout, read_header};

/// The layout that the header of the disk says.
///
/// `Fault`: only where the disk's faults rose in this call. The others: the first cause in the order of the variants,
/// exactly by the first 512 bytes and the disk's size (this project's profile).
pub fn read_layout<D: Disk>(disk: &mut D) -> Result<Layout, LayoutError>
    ensures exact { D.told → Answers (header_of (take 512 (D.content disk.old)) (D.size disk.old)) result }
    ensures header { IfOk result (λ layout. IsHeader layout (D.size disk.old)) }
    ensures laid { IfOk result (λ layout. IsTrue (is_laid_out layout)) }
    ensures only_reads { OnlyReads D.content D.may_leave D.moment D.left_since disk.old disk.new }
    ensures size { D.size disk.new ≡ D.size disk.old }
    ensures faults { D.faults disk.old ≤ D.faults disk.new }
    ensures cause { IfErr result (LayoutCause (Rose (D.faults disk.old) (D.faults disk.new))) }
{
    let length = front_length(disk.size());
    match said_in(disk, length)? {
        Ok(layout) => Ok(layout),
        Err(HeaderError::NotFormatted) => Err(LayoutError::NotFormatted),
        Err(HeaderError::Version(version)) => Err(LayoutError::Version(version)),
        Err(HeaderError::BadHeader { offset }) => Err(LayoutError::BadHeader { offset }),
    }
}

/// How many bytes of a disk of this size the header may stand in.
fn front_length(size: u64) -> usize
    ensures { result ≡ min 512 size }
{
    if size < 512 { size as usize } else { 512 }
}

/// What the first bytes of the disk say.
fn said_in<D: Disk>(disk: &mut D, length: usize) -> Result<Result<Layout, HeaderError>, Failed>
    requires { length ≡ min 512 (D.size disk.old) }
    ensures exact { D.told → IfOk result (λ said. said ≡ header_of (take 512 (D.content disk.old)) (D.size disk.old)) }
    ensures header { IfOk result (λ said. IfOk said (λ layout. IsHeader layout (D.size disk.old))) }
    ensures laid { IfOk result (λ said. IfOk said (λ layout. IsTrue (is_laid_out layout))) }
    ensures only_reads { OnlyReads D.content D.may_leave D.moment D.left_since disk.old disk.new }
    ensures size { D.size disk.new ≡ D.size disk.old }
    ensures cause { HasCause (D.faults disk.old) (D.faults disk.new) result }
{
    let mut room = [0; HEADER_BYTES];
    let buf = &mut room[..length];
    read_front(disk, buf)?;
    Ok(read_header(buf, disk.size()))
}

/// Reads the bytes that the header may stand in.
fn read_front<D: Disk>(disk: &mut D, buf: &mut [u8]) -> Result<(), Failed>
    requires { length buf.old ≡ min 512 (D.size disk.old) }
    ensures read { D.told → OnOk result (buf.new ≡ take 512 (D.content disk.old)) }
    ensures only_reads { OnlyReads D.content D.may_leave D.moment D.left_since disk.old disk.new }
    ensures size { D.size disk.new ≡ D.size disk.old }
    ensures cause { HasCause (D.faults disk.old) (D.faults disk.new) result }
{
    disk.read(0, buf)
}
