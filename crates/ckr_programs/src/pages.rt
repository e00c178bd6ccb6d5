//! The lines that PRINT writes.
ghost use Rattle.std.specs.Prelude.{◌≡◌, ◌+◌, ◌≤◌, ◌<◌, ◌^◌, ◌++◌, map, length};
ghost use Rattle.arrayvec.specs.ArrayVec.{array_vec_len};
ghost use Rattle.ckr_programs.specs.Pages.{title_text, heading, print_line, lines_of, total_line};
ghost use Rattle.ckr_programs.specs.Work.{to_main};

use crate::writes::{single, to_main};
use arrayvec::ArrayVec;
use ckr_base::{Rec, Write, decimal_text, last_digits};
use ckr_jcl::Parm;

/// The records of a page.
const PAGE: u32 = 50;

/// Puts a text behind a line that has room for it.
fn put(line: &mut ArrayVec<u8, 256>, text: &[u8])
    requires { array_vec_len line.old + length text.now ≤ 256 }
    ensures items { line.new.items ≡ line.old.items ++ text.now }
    ensures len { array_vec_len line.new ≡ array_vec_len line.old + length text.now }
{
    match line.try_extend_from_slice(text) {
        Ok(()) => {}
        Err(_) => unreachable!(),
    }
}

/// Puts the title and a blank behind a line, where a title is given.
fn put_title(line: &mut ArrayVec<u8, 256>, title: &[u8])
    requires { array_vec_len line.old + length title.now < 256 }
    ensures items { line.new.items ≡ line.old.items ++ title_text title.now }
    ensures len { array_vec_len line.new ≤ array_vec_len line.old + length title.now + 1 }
{
    if title.is_empty() {
        return;
    }
    put(line, title);
    put(line, b" ");
}

/// The heading of a page, counted from 1.
fn heading(parm: &Parm, page: u32) -> Rec
    ensures { result ≡ heading parm.now page }
{
    let mut line = ArrayVec::new();
    put(&mut line, b"1");
    put_title(&mut line, parm.title.as_slice());
    put(&mut line, b"PAGE ");
    let digits: ArrayVec<u8, 6> = last_digits(u128::from(page), 6);
    put(&mut line, digits.as_slice());
    Rec::of(line.as_slice())
}

/// A blank and the record, together cut to 256 bytes.
#[tactic(auto, using(crate::proofs::OutputRecords::take_shorter))]
fn print_line(head: &Rec) -> Rec
    ensures { result ≡ print_line head.now }
{
    let bytes = head.bytes();
    let mut line = ArrayVec::new();
    put(&mut line, b" ");
    put(&mut line, &bytes[..bytes.len().min(255)]);
    Rec::of(line.as_slice())
}

/// The lines for a record at its place, counted from 0.
pub(crate) fn page_lines(parm: &Parm, place: u32, head: &Rec) -> ArrayVec<Write, 4>
    ensures { result.items ≡ map to_main (lines_of parm.now (place, head.now)) }
{
    if place % PAGE != 0 {
        return single(print_line(head));
    }
    let mut writes = single(heading(parm, place / PAGE + 1));
    writes.push(to_main(print_line(head)));
    writes
}

/// The line of the total.
pub(crate) fn total_line(sum: u128) -> Rec
    requires { sum < 10 ^ 22 }
    ensures { result ≡ total_line sum }
{
    let mut line = ArrayVec::new();
    put(&mut line, b"0TOTAL ");
    put(&mut line, decimal_text(sum).as_slice());
    Rec::of(line.as_slice())
}
