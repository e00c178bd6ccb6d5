//! The whole stream of a source.
ghost use Rattle.std.specs.Prelude.{◌≤◌, IfOk, IfErr};
ghost use Rattle.ckr_desk_format.specs.Streams.{TookAll, StoppedBy};

use ckr_outside::{PIECE_BYTES, STREAM_LIMIT, Source, take_piece};
use std::alloc::Global;

/// Why a stream wasn't read to its end.
#[derive(Clone, Copy)]
pub enum StreamStop {
    /// The source failed.
    Source,
    /// There was no memory.
    Memory,
    /// It has more bytes than a stream may have.
    Limit,
}

/// Takes all bytes of the source.
///
/// `StreamStop`: `Source` only where the source's faults rose, `Limit` exactly where it gave a byte more than a stream may have.
pub(crate) fn take_all<S: Source>(alloc: Global, source: &mut S) -> Result<Vec<u8>, StreamStop>
    ensures all { IfOk result (λ bytes. TookAll (S.left source.old) (S.left source.new) bytes.items) }
    ensures stop { IfErr result (λ stop. StoppedBy stop (S.faults source.old) (S.faults source.new) (S.left source.old) (S.left source.new)) }
    ensures later { S.faults source.old ≤ S.faults source.new }
{
    let mut bytes = Vec::new(alloc);
    let mut buffer = [0u8; PIECE_BYTES];
    loop {
        let Ok(taken) = take_piece(source, &mut buffer, bytes.len()) else {
            return Err(StreamStop::Source);
        };
        if taken == 0 {
            return Ok(bytes);
        }
        if bytes.len() + taken > STREAM_LIMIT {
            return Err(StreamStop::Limit);
        }
        match bytes.extend_from_slice(&buffer[..taken]) {
            Ok(()) => {}
            Err(_) => return Err(StreamStop::Memory),
        }
    }
}
