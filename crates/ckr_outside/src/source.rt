//! Where a stream of bytes comes from.
ghost use Rattle.std.specs.Prelude.{◌≡◌, ◌<◌, ◌≤◌, ◌+◌, List, ℕ, Option, IfOk, OnErr, length, take};
ghost use Rattle.std.specs.Io.KnownBytes.{ReadConsumes, Consumes, Keeps, IsAtEnd};
ghost use Rattle.ckr_outside.specs.Faults.{Rose};

use crate::Failed;

/// The most bytes of a stream.
pub const STREAM_LIMIT: usize = 16_777_216;

/// The most bytes that are taken at once.
pub const PIECE_BYTES: usize = 4096;

/// A stream of bytes that is taken in pieces.
pub trait Source {
    /// The bytes left, where told.
    ghost left: { Self → Option (List ℕ) };

    /// How often it has failed.
    ghost faults: { Self → ℕ };

    /// Takes the next bytes into the front of the buffer, and answers how many. 0 into a buffer that isn't empty is
    /// the end of the stream. After an `Err` the bytes left are the same, where told.
    fn take(&mut self, buf: &mut [u8]) -> Result<usize, Failed>
        ensures bound { IfOk result (λ taken. taken ≤ length buf.new) }
        ensures bytes { ReadConsumes (left self.old) (left self.new) result buf.new }
        ensures later { faults self.old ≤ faults self.new }
        ensures cause { OnErr result (Rose (faults self.old) (faults self.new)) };
}

/// Takes the next bytes behind so many, one more than the limit of a stream at most. 0 is the end of the stream.
pub fn take_piece<S: Source>(
    source: &mut S,
    buffer: &mut [u8],
    count: usize,
) -> Result<usize, Failed>
    requires few { count ≤ 16_777_216 }
    requires room { 0 < length buffer.old }
    ensures given { IfOk result (λ taken. Consumes (S.left source.old) (S.left source.new) (take taken buffer.new)) }
    ensures bound { IfOk result (λ taken. (taken ≤ length buffer.new) × (count + taken ≤ 16_777_217)) }
    ensures end { IfOk result (λ taken. taken ≡ 0 → IsAtEnd (S.left source.new)) }
    ensures kept { OnErr result (Keeps (S.left source.old) (S.left source.new)) }
    ensures later { S.faults source.old ≤ S.faults source.new }
    ensures cause { OnErr result (Rose (S.faults source.old) (S.faults source.new)) }
{
    let most = buffer.len().min(STREAM_LIMIT + 1 - count);
    source.take(&mut buffer[..most])
}
