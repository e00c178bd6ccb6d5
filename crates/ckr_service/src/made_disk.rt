//! The disk that `make` formats.
ghost use Rattle.std.specs.Prelude.{◌≡◌, ◌≤◌};
ghost use Rattle.ckr_service.specs.MadeDisk.{FormatsSo};
ghost use Rattle.ckr_service.specs.MadeStream.{made_size};

use crate::faultless::{Bytes, Discard};
use crate::made_stream::cards;
use ckr_base::NoMemory;
use ckr_desk_format::{FormatOutcome, format_disk};
use ckr_outside::Disk;
use std::alloc::Global;

/// The bytes of a disk that the installation needs: its header, its book and its volume.
pub const MADE_SIZE: u64 = 50_332_160;

/// Formats a disk that is large enough by the cards of `make`.
pub fn format_made<D: Disk>(alloc: Global, disk: &mut D) -> FormatOutcome
    requires { made_size ≤ D.size disk.old }
    ensures so { FormatsSo D.told D.content D.may_leave D.moment D.left_since D.size D.faults result disk.old disk.new }
    ensures size { D.size disk.new ≡ D.size disk.old }
    ensures later { D.faults disk.old ≤ D.faults disk.new }
{
    match cards(alloc) {
        Ok(cards) => format_disk(alloc, &mut Bytes::new(cards), &mut Discard, disk),
        Err(NoMemory) => FormatOutcome::NoMemory,
    }
}
