//! A file of the system as a disk. What it holds can't be told.
ghost use Rattle.std.specs.Prelude.{◌≤◌, []};
ghost use Rattle.std.specs.Io.{ReadsAtMost};
ghost use Rattle.std.proofs.Common.{lit< as literal_below};
ghost use Rattle.ckr_outside.specs.Faults.{Rose};

use crate::Disk;
use crate::failure::{Failed, count_on};
use std::fs::File;
use std::io::{self, ErrorKind};
use std::os::unix::fs::FileExt;

/// How many bytes it has, whatever the file's length.
const SIZE: u64 = 4_294_967_296;

/// A disk of 4,294,967,296 bytes in a file. It reads zeros past the file's end, and the file grows with what is
/// written. Without a file every read, write and sync fails.
#[derive(Drop)]
pub struct FileDisk {
    file: Option<File>,
    failures: u64,
}

impl FileDisk {
    /// The disk in this file, which has not failed yet. It takes no memory.
    pub fn new(file: Option<File>) -> FileDisk {
        FileDisk { file, failures: 0 }
    }

    /// A call fails.
    fn fail(&mut self) -> Failed
        ensures rose { Rose self.old.failures self.new.failures }
        ensures never_falls { self.old.failures ≤ self.new.failures }
    {
        count_on(&mut self.failures);
        Failed
    }
}

/// Reads into the front of the buffer what the file has from this place on, and answers how many bytes: 0 at its end. A
/// call that was interrupted is made again.
fn read_some(file: &File, at: u64, buf: &mut [u8]) -> io::Result<usize>
    ensures { ReadsAtMost result buf.new }
{
    for _ in 0..u64::MAX {
        match file.read_at(buf, at) {
            Err(error) if error.kind() == ErrorKind::Interrupted => {}
            answer => return answer,
        }
    }
    Err(io::Error::from(ErrorKind::Interrupted))
}

/// Fills the buffer from this place of the file on, and with zeros past its end.
fn read_or_zeros(file: &File, at: u64, buf: &mut [u8]) -> io::Result<()> {
    let mut filled = 0;
    while filled < buf.len() {
        let place = at.saturating_add(filled as u64);
        match read_some(file, place, &mut buf[filled..])? {
            0 => {
                buf[filled..].fill(0);
                filled = buf.len();
            }
            taken => filled += taken,
        }
    }
    Ok(())
}

impl Disk for FileDisk {
    ghost told = { ⊥ };

    ghost content = { λ _. [] };

    ghost may_leave = { λ _ _. ⊥ };

    ghost moment = { λ _. 0 };

    ghost left_since = { λ _ _ _. ⊥ };

    ghost size = { λ _. 4294967296 };

    ghost faults = { λ d. d.failures };

    ghost bounded = { λ d. literal_below tt };

    ghost tells = { λ d image is. is };

    ghost reads_an_image = { λ d told. told };

    ghost as_long = { λ d told. absurd told };

    ghost sized = { λ d t image left. absurd left };

    ghost counts_now = { λ d t image le is. is };

    ghost only_now = { λ d image left. left };

    fn size(&self) -> u64 {
        SIZE
    }

    fn read(&mut self, at: u64, buf: &mut [u8]) -> Result<(), Failed> {
        match &self.file {
            Some(file) if read_or_zeros(file, at, buf).is_ok() => Ok(()),
            _ => Err(self.fail()),
        }
    }

    fn write_at(&mut self, at: u64, bytes: &[u8]) -> Result<(), Failed> {
        match &self.file {
            Some(file) if file.write_all_at(bytes, at).is_ok() => Ok(()),
            _ => Err(self.fail()),
        }
    }

    fn sync(&mut self) -> Result<(), Failed> {
        match &self.file {
            Some(file) if file.sync_all().is_ok() => Ok(()),
            _ => Err(self.fail()),
        }
    }

    fn faults(&self) -> u64 {
        self.failures
    }
}
