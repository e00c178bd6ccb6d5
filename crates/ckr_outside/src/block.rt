//! A block of a disk's bytes in memory.
ghost use Rattle.std.specs.Prelude.{◌≡◌, ◌<◌, ◌≤◌, ◌+◌, ◌-◌, ◌&&◌, ◌^◌, length, nat_le};
ghost use Rattle.ckr_outside.specs.Disk.{part};
ghost use Rattle.ckr_outside.specs.Block.{LiesClear};

use std::alloc::Global;

/// How many bytes of the disk are in memory at most.
const BLOCK_BYTES: usize = 65_536;

/// Bytes of a disk in memory: those from `from` up to `to`, counted from the disk's first byte. What else stands in `bytes`
/// is of no meaning.
#[derive(Drop)]
pub(crate) struct Block {
    pub(crate) bytes: Vec<u8>,
    /// Where the first one of `bytes` stands on the disk.
    base: u64,
    from: u64,
    pub(crate) to: u64,
}

impl Block {
    /// A block without bytes. Where there is no memory for it, it never has any.
    pub(crate) fn new(alloc: Global) -> Block
        ensures base { result.base ≡ 0 }
        ensures from { result.from ≡ 0 }
        ensures to { result.to ≡ 0 }
    {
        let bytes = match vec![in alloc; 0; BLOCK_BYTES] {
            Ok(bytes) => bytes,
            Err(_) => Vec::new(alloc),
        };
        Block {
            bytes,
            base: 0,
            from: 0,
            to: 0,
        }
    }

    /// How many bytes it has room for.
    pub(crate) fn room(&self) -> usize
        ensures { result ≡ length self.now.bytes.items }
    {
        self.bytes.len()
    }

    /// Whether it has these bytes of the disk.
    pub(crate) fn has(&self, at: u64, count: usize) -> bool
        requires { at + count < 2 ^ 64 }
        ensures { result ≡ (nat_le self.now.from at && nat_le (at + count) self.now.to) }
    {
        self.from <= at && at + count as u64 <= self.to
    }

    /// Fills the buffer with bytes that it has.
    pub(crate) fn give(&self, at: u64, buf: &mut [u8])
        requires base { self.now.base ≤ at }
        requires inside { at + length buf.old ≤ self.now.base + length self.now.bytes.items }
        ensures { buf.new ≡ part (at - self.now.base) (length buf.old) self.now.bytes.items }
    {
        let start = (at - self.base) as usize;
        buf.copy_from_slice(&self.bytes[start..start + buf.len()]);
    }

    /// Gives up the bytes of a range that is about to be written. Of those on both sides of it the block goes on with the
    /// ones before it, unless reading has come past it.
    pub(crate) fn give_up(&mut self, at: u64, count: usize, next: u64)
        requires { at + count < 2 ^ 64 }
        ensures bytes { self.new.bytes.items ≡ self.old.bytes.items }
        ensures base { self.new.base ≡ self.old.base }
        ensures from { self.old.from ≤ self.new.from }
        ensures to { self.new.to ≤ self.old.to }
        ensures apart { LiesClear self.new.from self.new.to at count }
    {
        let end = at + count as u64;
        if end <= self.from || self.to <= at {
            return;
        }
        if end <= next {
            self.from = end;
        } else {
            self.to = at;
        }
    }

    /// It gives up all its bytes, and is to go on from this place of the disk.
    pub(crate) fn begin(&mut self, at: u64)
        ensures { self.new ≡ record self.old { base = at; from = at; to = at } }
    {
        self.base = at;
        self.from = at;
        self.to = at;
    }
}
