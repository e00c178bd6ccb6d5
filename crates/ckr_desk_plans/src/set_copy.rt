//! The same data set once more. It takes no memory.
ghost use Rattle.std.specs.Prelude.{◌≡◌, ◌≤◌, length};

use arrayvec::ArrayVec;
use ckr_library::{DataSet, Extent, Part};

fn copy_of_extents(extents: &[Extent]) -> ArrayVec<Extent, 5>
    requires { length extents.now ≤ 5 }
    ensures { result.items ≡ extents.now }
{
    let mut copy = ArrayVec::new();
    for extent in extents {
        copy.push(*extent);
    }
    copy
}

fn copy_of_part(part: &Part) -> Part
    ensures { result ≡ part.now }
{
    Part {
        volume: part.volume,
        extents: copy_of_extents(part.extents.as_slice()),
        records: part.records,
    }
}

fn copy_of_parts(parts: &[Part]) -> ArrayVec<Part, 5>
    requires { length parts.now ≤ 5 }
    ensures { result.items ≡ parts.now }
{
    let mut copy = ArrayVec::new();
    for part in parts {
        copy.push(copy_of_part(part));
    }
    copy
}

/// The same data set.
pub fn copy_of_set(set: &DataSet) -> DataSet
    ensures { result ≡ set.now }
{
    DataSet {
        parts: copy_of_parts(set.parts.as_slice()),
        cataloged: set.cataloged,
        lrecl: set.lrecl,
        space: set.space,
        length: set.length,
        stamp: set.stamp,
        content: set.content,
    }
}
