//! Numbers in decimal digits.
ghost use Rattle.std.specs.Prelude.{◌≡◌, ◌≤◌, ◌<◌, ◌+◌, ◌^◌, ◌++◌, true, length};
ghost use Rattle.std.specs.List.{list_all};
ghost use Rattle.arrayvec.specs.ArrayVec.{array_vec_len};
ghost use Rattle.ckr_base.specs.Grammar.{is_digit};
ghost use Rattle.ckr_base.specs.Words.{number_in_digits};
ghost use Rattle.ckr_base.specs.Digits.{last_digits, significant, decimal_text};

use crate::copies::copy_of;
use crate::grammar::is_digit;
use arrayvec::ArrayVec;

/// Whether each byte is a decimal digit.
pub fn are_digits(text: &[u8]) -> bool
    ensures { result ≡ list_all is_digit text.now }
{
    text.iter().all(|byte| is_digit(*byte))
}

/// The number that at most 15 decimal digits stand for.
pub fn number_in_digits(digits: &[u8]) -> u64
    requires digits { list_all is_digit digits.now ≡ true }
    requires few { length digits.now ≤ 15 }
    ensures value { result ≡ number_in_digits digits.now }
    ensures bound { result < 10 ^ 15 }
    ensures size { result < 10 ^ length digits.now }
{
    let mut number = 0;
    for digit in digits {
        number = number * 10 + u64::from(*digit - b'0');
    }
    number
}

/// The number that at most 9 decimal digits stand for.
#[tactic(auto, using(crate::proofs::Blanks::power_of_nine))]
pub fn small_number_in_digits(digits: &[u8]) -> u32
    requires digits { list_all is_digit digits.now ≡ true }
    requires few { length digits.now ≤ 9 }
    ensures { result ≡ number_in_digits digits.now }
{
    number_in_digits(digits) as u32
}

/// Puts the last `count` decimal digits of a number behind the text.
fn put_last_digits<const N: usize>(text: &mut ArrayVec<u8, N>, count: u8, number: u128)
    requires { array_vec_len text.old + count ≤ N }
    ensures items { text.new.items ≡ text.old.items ++ last_digits count number }
    ensures len { array_vec_len text.new ≡ array_vec_len text.old + count }
{
    if count == 0 {
        return;
    }
    put_last_digits(text, count - 1, number / 10);
    text.push(b'0' + (number % 10) as u8);
}

/// The last `count` decimal digits of a number, leading zeros included.
pub fn last_digits<const N: usize>(number: u128, count: u8) -> ArrayVec<u8, N>
    requires { count ≤ N }
    ensures value { result.items ≡ last_digits count number }
    ensures size { length result.items ≡ count }
{
    let mut text = ArrayVec::new();
    put_last_digits(&mut text, count, number);
    text
}

/// The digits without leading zeros; one digit stays.
fn significant(digits: &[u8]) -> &[u8]
    ensures value { result.now ≡ significant digits.now }
    ensures size { length result.now ≤ length digits.now }
{
    match digits {
        [] => digits,
        [digit, rest @ ..] => {
            if *digit == b'0' && 1 <= rest.len() {
                significant(rest)
            } else {
                digits
            }
        }
    }
}

/// A number below 10^22 in decimal, without leading zeros.
pub fn decimal_text(number: u128) -> ArrayVec<u8, 22>
    requires { number < 10 ^ 22 }
    ensures { result.items ≡ decimal_text number }
{
    let digits: ArrayVec<u8, 22> = last_digits(number, 22);
    copy_of(significant(digits.as_slice()))
}
