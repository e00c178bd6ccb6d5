//! Records for the outputs.
ghost use Rattle.std.specs.Prelude.{◌≡◌, ◌+◌, ◌<◌, [], ◌∷◌, ◌++◌, map, length};
ghost use Rattle.arrayvec.specs.ArrayVec.{array_vec_len};
ghost use Rattle.ckr_base.specs.declared.programs.Output.TheVariants.{Main, Rejects};
ghost use Rattle.ckr_match.specs.Master.{write_to, write_held, reject_if};
ghost use Rattle.ckr_match.specs.Work.{write_at, rejects_in, is_reject};

use crate::images::behind_code;
use arrayvec::ArrayVec;
use ckr_base::{Output, Rec, Write};

/// A write to an output.
fn write_to(output: Output, image: Rec) -> Write
    ensures { result ≡ write_to output image }
{
    Write { output, image }
}

/// One write.
pub(crate) fn single(output: Output, image: Rec) -> ArrayVec<Write, 4>
    ensures { result.items ≡ write_to output image ∷ [] }
{
    let mut writes = ArrayVec::new();
    writes.push(write_to(output, image));
    writes
}

/// The master that is held, for the output.
pub(crate) fn write_held(held: Option<Rec>) -> ArrayVec<Write, 4>
    ensures value { result.items ≡ write_held held }
    ensures size { array_vec_len result < 2 }
{
    match held {
        Some(image) => single(Output::Main, image),
        None => ArrayVec::new(),
    }
}

/// The rewrite of a master's place with the transaction's image, or a reject.
pub(crate) fn write_at(place: Option<u32>, head: &Rec) -> Write
    ensures { result ≡ write_at place head.now }
{
    match place {
        Some(place) => write_to(Output::InPlace(place), Rec::of(behind_code(head.bytes()))),
        None => write_to(Output::Rejects, head.copied()),
    }
}

/// Puts a rejected transaction behind the writes.
pub(crate) fn put_reject(writes: &mut ArrayVec<Write, 4>, rejected: bool, head: &Rec)
    requires { array_vec_len writes.old < 4 }
    ensures { writes.new.items ≡ writes.old.items ++ map (write_to Rejects) (reject_if rejected head.now) }
{
    if rejected {
        writes.push(write_to(Output::Rejects, head.copied()));
    }
}

/// How many of the writes are rejects.
pub(crate) fn rejects_in(writes: &ArrayVec<Write, 4>) -> u32
    ensures value { result ≡ rejects_in writes.now.items }
    ensures size { result < 5 }
{
    writes
        .as_slice()
        .iter()
        .filter(|write| matches!(write.output, Output::Rejects))
        .count() as u32
}
