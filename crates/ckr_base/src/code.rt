//! The completion code of a step.
ghost use Rattle.std.specs.Prelude.{◌≡◌, ◌≤◌, ◌<◌, ℕ, List, [], ◌∷◌};
ghost use Rattle.ckr_base.specs.Grammar.{is_digit};
ghost use Rattle.ckr_base.specs.declared.code.Code.TheVariants.{System};
ghost use Rattle.ckr_base.specs.CodeText.{code_of, code_text, code_letter, number_of, same_code, is_hex_digit, digit_value, digit_of};

use crate::grammar::is_digit;
use arrayvec::ArrayVec;

/// A completion code: of the system, as S0C7, or of the user, as U0101 (IBM GC28-6704). Its number is at most 4095.
#[derive(Clone, Copy, PartialEq, Eq)]
pub enum Code {
    System(u16),
    User(u16),
}

/// An `ArrayVec` of codes wants some code for its empty places.
impl Default for Code {
    ghost is_default = { λ code. code ≡ System 0 };

    fn default() -> Code {
        Code::System(0)
    }
}

/// 0 to 9 and A to F.
const fn is_hex_digit(byte: u8) -> bool
    ensures { result ≡ is_hex_digit byte }
{
    is_digit(byte) || b'A' <= byte && byte <= b'F'
}

/// What a digit stands for.
const fn digit_value(byte: u8) -> u16
    requires { 48 ≤ byte }
    ensures { result ≡ digit_value byte }
{
    if byte <= b'9' {
        byte as u16 - 48
    } else {
        byte as u16 - 55
    }
}

/// The digit of a value.
const fn digit_of(value: u16) -> u8
    requires { value < 16 }
    ensures { result ≡ digit_of value }
{
    if value <= 9 {
        value as u8 + 48
    } else {
        value as u8 + 55
    }
}

impl Code {
    /// `S` or `U`.
    pub fn letter(&self) -> u8
        ensures { result ≡ code_letter self.now }
    {
        match self {
            Code::System(_) => b'S',
            Code::User(_) => b'U',
        }
    }

    /// Its number, of the system or of the user.
    pub fn number(&self) -> u16
        ensures { result ≡ number_of self.now }
    {
        match self {
            Code::System(number) | Code::User(number) => *number,
        }
    }

    /// Whether two codes are the same.
    pub fn is_same(&self, other: &Code) -> bool
        ensures { result ≡ same_code self.now other.now }
    {
        self.letter() == other.letter() && self.number() == other.number()
    }

    /// The code that a text stands for: `S` and three hexadecimal digits in upper case, or `U` and four decimal digits
    /// of at most 4095. `None` exactly where the text is neither.
    pub fn read(text: &[u8]) -> Option<Code>
        ensures { result ≡ code_of text.now }
    {
        match text {
            [b'S', a, b, c] => read_system(*a, *b, *c),
            [b'U', a, b, c, d] => read_user(*a, *b, *c, *d),
            _ => None,
        }
    }

    /// The one text that reads as this code. Its number has to be at most 4095.
    pub fn write(&self) -> ArrayVec<u8, 5>
        requires { number_of self.now ≤ 4095 }
        ensures reads { code_of result.items ≡ Some self.now }
        ensures only { (text : List ℕ) → code_of text ≡ Some self.now → text ≡ result.items }
    {
        match *self {
            Code::System(number) => write_system(number),
            Code::User(number) => write_user(number),
        }
    }
}

/// The code of `S` and these digits.
fn read_system(a: u8, b: u8, c: u8) -> Option<Code>
    ensures { result ≡ code_of (83 ∷ a ∷ b ∷ c ∷ []) }
{
    if is_hex_digit(a) && is_hex_digit(b) && is_hex_digit(c) {
        Some(Code::System(digit_value(a) * 256 + digit_value(b) * 16 + digit_value(c)))
    } else {
        None
    }
}

/// The code of `U` and these digits.
fn read_user(a: u8, b: u8, c: u8, d: u8) -> Option<Code>
    ensures { result ≡ code_of (85 ∷ a ∷ b ∷ c ∷ d ∷ []) }
{
    if is_digit(a) && is_digit(b) && is_digit(c) && is_digit(d) {
        let number = digit_value(a) * 1000
            + digit_value(b) * 100
            + digit_value(c) * 10
            + digit_value(d);
        if number <= 4095 {
            return Some(Code::User(number));
        }
    }
    None
}

/// `S` and three hexadecimal digits.
fn write_system(number: u16) -> ArrayVec<u8, 5>
    requires { number ≤ 4095 }
    ensures { result.items ≡ code_text (Code.System number) }
{
    let mut text = ArrayVec::new();
    text.push(b'S');
    text.push(digit_of(number / 256));
    text.push(digit_of(number / 16 % 16));
    text.push(digit_of(number % 16));
    text
}

/// `U` and four decimal digits.
fn write_user(number: u16) -> ArrayVec<u8, 5>
    requires { number ≤ 4095 }
    ensures { result.items ≡ code_text (Code.User number) }
{
    let mut text = ArrayVec::new();
    text.push(b'U');
    text.push(digit_of(number / 1000));
    text.push(digit_of(number / 100 % 10));
    text.push(digit_of(number / 10 % 10));
    text.push(digit_of(number % 10));
    text
}
