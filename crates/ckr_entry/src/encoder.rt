//! The bytes of an entry.
ghost use Rattle.std.specs.Prelude.{◌≡◌, IfOk};
ghost use Rattle.ckr_entry.specs.Parts.{entry_of};
ghost use Rattle.ckr_entry.specs.Entry.{IsCounted, spelling};

use crate::Point;
use crate::set_writer::{put_marks, put_passed};
use crate::writer::{put_head, put_state};
use ckr_base::NoMemory;
use std::alloc::Global;

/// The one spelling of the point. The lists of the point have fewer than 65,536 items each. What has no entry, as a point
/// without an identifier, is written all the same, and isn't read again. It fails where there is no memory for the bytes.
pub fn encode_entry(alloc: Global, point: &Point) -> Result<Vec<u8>, NoMemory>
    requires { IsCounted (entry_of point.now) }
    ensures { IfOk result (λ bytes. bytes.items ≡ spelling (entry_of point.now)) }
{
    let marks = point.marks.as_slice();
    let passed = point.passed.as_slice();
    let mut out = Vec::new(alloc);
    // At most 60 bytes before the state and 346 of it, the counts of the lists, and their items.
    out.reserve(410 + 67 * marks.len() + 46 * passed.len())?;
    put_head(&mut out, point);
    put_state(&mut out, &point.state);
    put_marks(&mut out, marks);
    put_passed(&mut out, passed);
    Ok(out)
}
