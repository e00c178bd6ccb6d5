//! The command `make` over memory: what it writes, and what it leaves.
use crate::calls::{Ended, NEVER, call};
use ckr_base::NoMemory;
use ckr_console::{Answer, Standing};
use ckr_outside::{MemDisk, MemSink, MemSource};
use ckr_service::{Closed, batch_desk};
use std::alloc::Global;
use std::test::Fail;

/// The bytes of the disk that the made stream needs: the header, the book and one volume.
const SIZE: u64 = 50_332_160;

/// The records of the fifth job.
const FIFTH: &[u8] = b"=00005-1\n=00005-2\n=00005-3\n=00005-4\n=00005-5\n=00005-6\n";

/// The call `make jobs night.disk` on a disk of zeros, with one operator, who says yes to everything. This put of the sink fails.
fn made(alloc: Global, jobs: &str, size: u64, put: u32) -> Result<Ended, Fail> {
    let zeros = match MemDisk::new(alloc, size, Vec::new(alloc), None) {
        Ok(disk) => disk,
        Err(NoMemory) => return Err("there is memory".into()),
    };
    let mut words = Vec::new(alloc);
    for word in ["make", jobs, "night.disk"] {
        words.push(String::from_str(alloc, word)?)?;
    }
    let mut failing = Vec::new(alloc);
    failing.push(put)?;
    let mut sink = MemSink::new(alloc, failing);

    // The source isn't read: its first call would fail.
    let mut taking = Vec::new(alloc);
    taking.push(0u32)?;
    let mut source = MemSource::new(b"$Q\n".to_vec(alloc)?, taking);
    let mut operators = Vec::new(alloc);
    operators.push(Standing(Answer::Yes))?;
    let Closed { status, disk } = batch_desk(
        alloc,
        &words,
        &mut source,
        &mut sink,
        zeros,
        operators,
    );
    Ok(Ended {
        status,
        text: sink.bytes().to_vec(alloc)?,
        disk,
    })
}

#[test]
fn ten_jobs_are_made(rt: HostRuntime) -> Result<(), Fail> {
    let ended = made(rt.alloc(), "10", SIZE, NEVER)?;
    assert_eq!(rt; ended.status, 0);
    assert!(rt; ended.text.as_slice() == b"MADE 10 JOBS 37 RECORDS 2 RESTARTS\n".as_slice());

    // The fifth job has six records; its data set is there when the disk is opened again.
    let listed = call(rt.alloc(), "run", b"$R GEN.D00005\n", ended.disk)?;
    assert_eq!(rt; listed.status, 0);
    assert!(rt; listed.text.as_slice() == FIFTH);
    Ok(())
}

#[test]
fn a_small_disk_is_refused(rt: HostRuntime) -> Result<(), Fail> {
    let ended = made(rt.alloc(), "1", SIZE - 1, NEVER)?;
    assert_eq!(rt; ended.status, 8);
    assert!(rt; ended.text.is_empty());
    Ok(())
}

#[test]
fn a_closed_sink_is_told(rt: HostRuntime) -> Result<(), Fail> {
    let ended = made(rt.alloc(), "1", SIZE, 0)?;
    assert_eq!(rt; ended.status, 5);
    assert!(rt; ended.text.is_empty());
    Ok(())
}
