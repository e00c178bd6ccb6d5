//! A disk that is read ahead.
ghost use Rattle.std.specs.Prelude.{◌≡◌};

use crate::block::Block;
use crate::{Disk, Failed};
use std::alloc::Global;
use std::marker::Model;

/// A disk, and a block of its bytes in memory. Bytes that are read one behind the other, as a book is when its disk is opened
/// or a data set by its step, come from the block: one read of the disk for many. It is seen as the disk itself, so whatever
/// holds of every disk holds of it.
#[derive(Drop)]
pub struct ReadAhead<D: Disk> {
    disk: D,
    block: Block,
    /// The byte behind those that were read last.
    next: u64,
}

impl<D: Disk> Model for ReadAhead<D> {
    ghost use Rattle.ckr_outside.specs.Block.{IsBlockOn};

    ghost Value = { D };

    ghost view = { λ a. a.disk };

    ghost invariant = { λ a. IsBlockOn D.told (D.content a.disk) (D.size a.disk) a.block.base a.block.from a.block.to a.block.bytes.items };
}

impl<D: Disk> ReadAhead<D> {
    /// The disk, of which nothing was read yet. Where there is no memory for the block, each read is one of the disk.
    pub fn new(alloc: Global, disk: D) -> ReadAhead<D>
        ensures { result ≡ disk }
    {
        ReadAhead {
            disk,
            block: Block::new(alloc),
            next: 0,
        }
    }
}

impl<D: Disk> Disk for ReadAhead<D> {
    ghost told = { D.told };

    ghost content = { D.content };

    ghost may_leave = { D.may_leave };

    ghost moment = { D.moment };

    ghost left_since = { D.left_since };

    ghost size = { D.size };

    ghost faults = { D.faults };

    ghost bounded = { D.bounded };

    ghost tells = { D.tells };

    ghost reads_an_image = { D.reads_an_image };

    ghost as_long = { D.as_long };

    ghost sized = { D.sized };

    ghost counts_now = { D.counts_now };

    ghost only_now = { D.only_now };

    fn size(&self) -> u64 {
        self.disk.size()
    }

    /// Bytes that follow those read last are read with those behind them, as many as the block has room for, unless the disk ends
    /// before that. So a read fails too where the disk fails on bytes behind the ones asked for.
    fn read(&mut self, at: u64, buf: &mut [u8]) -> Result<(), Failed> {
        let follows = at == self.next;
        self.next = at + buf.len() as u64;
        if self.block.has(at, buf.len()) {
            self.block.give(at, buf);
            return Ok(());
        }
        let room = self.block.room();
        if !follows || buf.len() > room || self.disk.size() - at < room as u64 {
            return self.disk.read(at, buf);
        }
        self.block.begin(at);
        self.disk.read(at, &mut self.block.bytes)?;
        self.block.to = at + room as u64;
        self.block.give(at, buf);
        Ok(())
    }

    fn write_at(&mut self, at: u64, bytes: &[u8]) -> Result<(), Failed> {
        self.block.give_up(at, bytes.len(), self.next);
        self.disk.write_at(at, bytes)
    }

    fn sync(&mut self) -> Result<(), Failed> {
        self.disk.sync()
    }

    fn faults(&self) -> u64 {
        self.disk.faults()
    }
}
