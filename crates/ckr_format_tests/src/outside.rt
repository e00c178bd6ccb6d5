//! Objects of the outside that fail in mid-stream, and a disk in a real file.
ghost use Rattle.std.specs.Prelude.{◌≡◌, ◌≤◌, ◌+◌, length};
ghost use Rattle.ckr_outside.specs.MemDisk.{content_of};

use ckr_outside::{
    CallKind, Disk, DiskCall, FileDisk, MemDisk, MemSink, MemSource, ReadAhead, Sink, Source,
    StdSink, StdSource, put_all,
};
use std::fs::{self, File};
use std::io::{self, ErrorKind, Read, Write};
use std::test::Fail;

/// A stream of which every other call is interrupted.
#[derive(Drop)]
struct Unsteady {
    interrupted: bool,
}

impl Unsteady {
    fn call(&mut self) -> io::Result<()> {
        self.interrupted = !self.interrupted;
        if self.interrupted {
            return Err(io::Error::from(ErrorKind::Interrupted));
        }
        Ok(())
    }
}

impl Read for Unsteady {
    fn read(&mut self, buf: &mut [u8]) -> io::Result<usize> {
        self.call()?;
        b"$Q".as_slice().read(buf)
    }
}

impl Write for Unsteady {
    fn write(&mut self, buf: &[u8]) -> io::Result<usize> {
        self.call()?;
        Ok(buf.len())
    }

    fn flush(&mut self) -> io::Result<()> {
        Ok(())
    }
}

/// What one call takes: these bytes, or none where it fails.
fn takes(source: &mut MemSource, wanted: Option<&[u8]>) -> bool {
    let mut buf = [0; 3];
    match source.take(&mut buf) {
        Ok(taken) => wanted.is_some() && buf.get(..taken) == wanted,
        Err(_) => wanted.is_none(),
    }
}

#[test]
fn a_source_gives_its_bytes_and_fails_where_listed(rt: HostRuntime) -> Result<(), Fail> {
    let alloc = rt.alloc();
    let mut source = MemSource::new(b"DECK".to_vec(alloc)?, [1].to_vec(alloc)?);
    assert!(rt; takes(&mut source, Some(b"DEC")));
    assert!(rt; takes(&mut source, None));
    assert!(rt; takes(&mut source, Some(b"K")));
    assert!(rt; takes(&mut source, Some(b"")));
    Ok(())
}

/// Whether a sink takes the piece.
fn puts(sink: &mut MemSink, piece: &[u8]) -> bool {
    put_all(sink, piece).is_ok()
}

#[test]
fn a_sink_keeps_what_was_put_and_fails_where_listed(rt: HostRuntime) -> Result<(), Fail> {
    let alloc = rt.alloc();
    let mut sink = MemSink::new(alloc, [1].to_vec(alloc)?);
    assert!(rt; puts(&mut sink, b"I1 "));
    assert!(rt; !puts(&mut sink, b"LOST"));
    assert!(rt; puts(&mut sink, b"IDLE"));
    assert!(rt; sink.bytes() == b"I1 IDLE".as_slice());
    assert!(rt; sink.lacks() == 0);
    Ok(())
}

#[test]
fn a_source_passes_on_what_memory_holds(rt: HostRuntime) -> Result<(), Fail> {
    let mut source = StdSource::new(b"$T 1 9".as_slice());
    let mut buf = [0; 8];
    assert!(rt; source.take(&mut buf)? == 6);
    assert!(rt; buf.as_slice() == b"$T 1 9\0\0".as_slice());
    assert!(rt; source.take(&mut buf)? == 0);
    Ok(())
}

#[test]
fn a_sink_passes_on_what_memory_holds(rt: HostRuntime) -> Result<(), Fail> {
    let mut text = Vec::new(rt.alloc());
    let mut sink = StdSink::new(&mut text);
    put_all(&mut sink, b"I1 IDLE")?;
    assert!(rt; text.as_slice() == b"I1 IDLE".as_slice());
    Ok(())
}

#[test]
fn a_call_that_was_interrupted_is_made_again(rt: HostRuntime) -> Result<(), Fail> {
    let mut source = StdSource::new(Unsteady { interrupted: false });
    let mut buf = [0; 3];
    assert!(rt; source.take(&mut buf)? == 2);
    assert!(rt; buf.as_slice() == b"$Q\0".as_slice());
    let mut sink = StdSink::new(Unsteady { interrupted: false });
    assert!(rt; sink.put(b"I1 IDLE")? == 7);
    Ok(())
}

/// Two bytes are written into a file, for good.
fn keeps_two_bytes(disk: &mut FileDisk) -> bool {
    disk.write_at(2, &[7, 8]).is_ok() && disk.sync().is_ok()
}

/// A file that is opened for reading alone has these bytes and zeros around them, and can't be written.
fn is_read_alone(disk: &mut FileDisk) -> bool {
    let mut buf = [9; 6];
    disk.read(1, &mut buf).is_ok()
        && buf.as_slice() == [0, 7, 8, 0, 0, 0].as_slice()
        && disk.size() == 4_294_967_296
        && disk.write_at(0, &[1]).is_err()
        && disk.faults() == 1
}

#[test]
fn a_file_reads_back_what_was_written_and_zeros_behind(rt: HostRuntime) -> Result<(), Fail> {
    let made = File::options()
        .read(true)
        .write(true)
        .create(true)
        .open(&rt, "disk")?;
    assert!(rt; keeps_two_bytes(&mut FileDisk::new(Some(made))));
    let read = File::open(&rt, "disk")?;
    assert!(rt; is_read_alone(&mut FileDisk::new(Some(read))));
    fs::remove_file(&rt, "disk")?;
    Ok(())
}

#[test]
fn without_a_file_each_call_fails(rt: HostRuntime) -> Result<(), Fail> {
    let mut disk = FileDisk::new(None);
    assert!(rt; disk.read(0, &mut [0; 1]).is_err());
    assert!(rt; disk.write_at(0, &[1]).is_err());
    assert!(rt; disk.sync().is_err());
    assert!(rt; disk.faults() == 3);
    Ok(())
}

/// Makes four calls of a disk of 8 bytes, of which the second and the fourth fail.
fn are_answered(disk: &mut MemDisk) -> bool
    requires { 8 ≤ length (content_of disk.old) }
{
    disk.write_at(6, &[5, 5]).is_ok()
        && disk.sync().is_err()
        && disk.sync().is_ok()
        && disk.read(0, &mut [0; 3]).is_err()
}

/// These calls.
static CALLS: [DiskCall; 4] = [
    DiskCall {
        kind: CallKind::Write,
        at: 6,
        length: 2,
    },
    DiskCall {
        kind: CallKind::Sync,
        at: 0,
        length: 0,
    },
    DiskCall {
        kind: CallKind::Sync,
        at: 0,
        length: 0,
    },
    DiskCall {
        kind: CallKind::Read,
        at: 0,
        length: 3,
    },
];

#[test]
fn listed_calls_of_a_disk_fail_and_all_are_recorded(rt: HostRuntime) -> Result<(), Fail> {
    let alloc = rt.alloc();
    let mut disk = MemDisk::new(alloc, 8, [1].to_vec(alloc)?, Some(3))?;
    assert!(rt; are_answered(&mut disk));
    assert!(rt; (disk.faults(), disk.lacks()) == (2, 0));
    assert!(rt; disk.calls() == CALLS.as_slice());
    Ok(())
}

/// These bytes are written at a place of a disk.
fn is_written<D: Disk>(disk: &mut D, at: u64, bytes: &[u8]) -> bool
    requires { at + length bytes.now ≤ D.size disk.old }
    ensures { D.size disk.new ≡ D.size disk.old }
{
    disk.write_at(at, bytes).is_ok()
}

/// A disk reads these four bytes at a place.
fn is_read<D: Disk>(disk: &mut D, at: u64, wanted: &[u8]) -> bool
    requires { at + 4 ≤ D.size disk.old }
    ensures { D.size disk.new ≡ D.size disk.old }
{
    let mut buf = [0; 4];
    disk.read(at, &mut buf).is_ok() && buf.as_slice() == wanted
}

/// What is read one behind the other is what was written last, before and behind what was read already.
fn is_as_written<D: Disk>(disk: &mut D) -> bool
    requires { 16 ≤ D.size disk.old }
{
    is_written(disk, 0, b"ABCDEFGHIJKL")
        && is_read(disk, 0, b"ABCD")
        && is_read(disk, 4, b"EFGH")
        && is_written(disk, 2, b"cdef")
        && is_written(disk, 10, b"kl")
        && is_read(disk, 8, b"IJkl")
        && is_read(disk, 12, &[0; 4])
        && is_read(disk, 0, b"ABcd")
        && is_read(disk, 4, b"efGH")
}

#[test]
fn a_disk_that_is_read_ahead_reads_what_was_written(rt: HostRuntime) -> Result<(), Fail> {
    let disk = MemDisk::new(rt.alloc(), 100_000, Vec::new(rt.alloc()), None)?;
    let mut ahead = ReadAhead::new(rt.alloc(), disk);
    assert!(rt; is_as_written(&mut ahead));
    let mut short = ReadAhead::new(
        rt.alloc(),
        MemDisk::new(rt.alloc(), 16, Vec::new(rt.alloc()), None)?,
    );
    assert!(rt; is_as_written(&mut short));
    Ok(())
}
