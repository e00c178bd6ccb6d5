//! What a program makes of one record.
ghost use Rattle.std.specs.Prelude.{◌≡◌, ◌≤◌, ◌<◌, ◌^◌, true, map, length};
ghost use Rattle.ckr_programs.specs.Records.{is_selected, is_summing, sum_field, can_take, amount_of};
ghost use Rattle.ckr_programs.specs.Work.{to_main};
ghost use Rattle.ckr_programs.specs.Units.{images_at};

use crate::pages::page_lines;
use crate::writes::single;
use arrayvec::ArrayVec;
use ckr_base::{Rec, Write, are_digits, columns, number_in_digits};
use ckr_jcl::{Kind, Parm};

/// Whether the columns from COL on equal VAL.
fn is_selected(parm: &Parm, head: &Rec) -> bool
    ensures { result ≡ is_selected parm.now head.now }
{
    let before = usize::from(parm.col.saturating_sub(1));
    let columns = match head.bytes().get(before..) {
        Some(columns) => columns,
        None => &[],
    };
    columns.starts_with(parm.val.as_slice())
}

/// Whether it is PRINT with SUM.
pub(crate) fn is_summing(kind: Kind, parm: &Parm) -> bool
    ensures { result ≡ is_summing kind parm.now }
{
    match kind {
        Kind::Print => parm.sum.0 != 0,
        _ => false,
    }
}

/// The columns of the SUM field.
fn sum_field(parm: &Parm, head: &Rec) -> ArrayVec<u8, 15>
    requires { parm.now.sum.1 ≤ 15 }
    ensures value { result.items ≡ sum_field parm.now head.now }
    ensures size { length result.items ≤ 15 }
{
    columns(head.bytes(), parm.sum.0, parm.sum.1)
}

/// Whether the program can take the record: a byte in the SUM field that isn't a digit forbids it.
pub(crate) fn can_take(kind: Kind, parm: &Parm, head: &Rec) -> bool
    requires { parm.now.sum.1 ≤ 15 }
    ensures { result ≡ can_take kind parm.now head.now }
{
    !is_summing(kind, parm) || are_digits(sum_field(parm, head).as_slice())
}

/// What a record that the program can take adds to the sum.
pub(crate) fn amount_of(kind: Kind, parm: &Parm, head: &Rec) -> u128
    requires field { parm.now.sum.1 ≤ 15 }
    requires taken { can_take kind parm.now head.now ≡ true }
    ensures value { result ≡ amount_of kind parm.now head.now }
    ensures bound { result < 10 ^ 15 }
{
    if !is_summing(kind, parm) {
        return 0;
    }
    u128::from(number_in_digits(sum_field(parm, head).as_slice()))
}

/// What the program writes for a record at its place, counted from 0.
pub(crate) fn writes_at(kind: Kind, parm: &Parm, place: u32, head: &Rec) -> ArrayVec<Write, 4>
    ensures { result.items ≡ map to_main (images_at kind parm.now place head.now) }
{
    match kind {
        Kind::Copy => single(head.copied()),
        Kind::Select => {
            if is_selected(parm, head) {
                single(head.copied())
            } else {
                ArrayVec::new()
            }
        }
        Kind::Print => page_lines(parm, place, head),
        _ => ArrayVec::new(),
    }
}
