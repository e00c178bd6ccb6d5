//! Records for the output.
ghost use Rattle.std.specs.Prelude.{◌≡◌, [], ◌∷◌};
ghost use Rattle.ckr_programs.specs.Work.{to_main};

use arrayvec::ArrayVec;
use ckr_base::{Output, Rec, Write};

/// A record for the output.
pub(crate) fn to_main(image: Rec) -> Write
    ensures { result ≡ to_main image }
{
    Write {
        output: Output::Main,
        image,
    }
}

/// One record for the output.
pub(crate) fn single(image: Rec) -> ArrayVec<Write, 4>
    ensures { result.items ≡ to_main image ∷ [] }
{
    let mut writes = ArrayVec::new();
    writes.push(to_main(image));
    writes
}
