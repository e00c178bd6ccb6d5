//! One line of text, and what is written into it.
ghost use Rattle.std.specs.Prelude.{◌≡◌, ◌≤◌, ◌+◌, ◌++◌, length};
ghost use Rattle.std.specs.Fmt.{decimal};
ghost use Rattle.arrayvec.specs.ArrayVec.{array_vec_len};
ghost use Rattle.ckr_report.specs.Numbers.{initiator_text, job_text, padded, stamp_text};

use arrayvec::ArrayVec;
use ckr_library::Stamp;

/// A line with its end. Each line of this crate has room in it.
pub type TextLine = ArrayVec<u8, 400>;

/// Puts bytes behind the others.
pub(crate) fn put(bytes: &[u8], out: &mut TextLine)
    requires room { array_vec_len out.old + length bytes.now ≤ 400 }
    ensures text { out.new.items ≡ out.old.items ++ bytes.now }
    ensures few { array_vec_len out.new ≤ array_vec_len out.old + length bytes.now }
{
    match out.try_extend_from_slice(bytes) {
        Ok(()) => {}
        Err(_) => unreachable!(),
    }
}

/// Puts a number in decimal, with zeros before it up to so many digits.
fn padded(width: u8, number: u64, out: &mut TextLine)
    requires room { array_vec_len out.old + length (padded width number) ≤ 400 }
    ensures { out.new.items ≡ out.old.items ++ padded width number }
{
    if 9 < number {
        padded(width.saturating_sub(1), number / 10, out);
    } else if 1 < width {
        padded(width - 1, 0, out);
    }
    put(&[b'0' + (number % 10) as u8], out);
}

/// Puts a number in decimal.
pub(crate) fn number(number: u64, out: &mut TextLine)
    requires room { array_vec_len out.old + 20 ≤ 400 }
    ensures text { out.new.items ≡ out.old.items ++ decimal number }
    ensures few { array_vec_len out.new ≤ array_vec_len out.old + 20 }
{
    padded(0, number, out);
}

/// Puts at most 30 bytes and a number behind these.
pub(crate) fn counted(words: &[u8], count: u64, out: &mut TextLine)
    requires words { length words.now ≤ 30 }
    requires room { array_vec_len out.old + 50 ≤ 400 }
    ensures text { out.new.items ≡ out.old.items ++ (words.now ++ decimal count) }
    ensures few { array_vec_len out.new ≤ array_vec_len out.old + 50 }
{
    put(words, out);
    number(count, out);
}

/// Puts `J` and seven digits.
pub(crate) fn job(job: u32, out: &mut TextLine)
    requires room { array_vec_len out.old + 28 ≤ 400 }
    ensures text { out.new.items ≡ out.old.items ++ job_text job }
    ensures few { array_vec_len out.new ≤ array_vec_len out.old + 28 }
{
    put(b"J", out);
    padded(7, u64::from(job), out);
}

/// Puts `I` and the initiator's number.
pub(crate) fn initiator_part(initiator: u8, out: &mut TextLine)
    requires room { array_vec_len out.old + 21 ≤ 400 }
    ensures text { out.new.items ≡ out.old.items ++ initiator_text initiator }
    ensures few { array_vec_len out.new ≤ array_vec_len out.old + 21 }
{
    put(b"I", out);
    number(u64::from(initiator), out);
}

/// Puts the run, the step and the rewrites of a stamp.
pub(crate) fn stamp(stamp: &Stamp, out: &mut TextLine)
    requires room { array_vec_len out.old + 62 ≤ 400 }
    ensures text { out.new.items ≡ out.old.items ++ stamp_text stamp.now }
    ensures few { array_vec_len out.new ≤ array_vec_len out.old + 62 }
{
    number(u64::from(stamp.run), out);
    put(b".", out);
    number(u64::from(stamp.step), out);
    put(b".", out);
    number(u64::from(stamp.rewrites), out);
}
