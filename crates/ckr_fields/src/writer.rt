//! Writing fields behind what stands in a vector that has room for them. None of it takes memory.
ghost use Rattle.std.specs.Prelude.{◌≡◌, ◌≤◌, ◌+◌, ◌++◌, [], ◌∷◌, length, vec_len, vec_capacity};
ghost use Rattle.std.specs.Int.{w16, w32, to_be_bytes};
ghost use Rattle.ckr_fields.specs.Fields.{flag_spell, code_spell};

use ckr_base::Code;

/// Puts these bytes behind the others.
pub fn put_bytes(out: &mut Vec<u8>, bytes: &[u8])
    requires { vec_len out.old + length bytes.now ≤ vec_capacity out.old }
    ensures items { out.new.items ≡ out.old.items ++ bytes.now }
    ensures len { vec_len out.new ≡ vec_len out.old + length bytes.now }
    ensures capacity { vec_capacity out.old ≤ vec_capacity out.new }
{
    match out.extend_from_slice(bytes) {
        Ok(()) => {}
        Err(_) => unreachable!(),
    }
}

/// A number of one byte.
pub fn put_byte(out: &mut Vec<u8>, number: u8)
    requires { vec_len out.old + 1 ≤ vec_capacity out.old }
    ensures items { out.new.items ≡ out.old.items ++ number ∷ [] }
    ensures len { vec_len out.new ≡ vec_len out.old + 1 }
    ensures capacity { vec_capacity out.old ≤ vec_capacity out.new }
{
    put_bytes(out, &[number]);
}

/// A number of two bytes, the highest first.
pub fn put_two_bytes(out: &mut Vec<u8>, number: u16)
    requires { vec_len out.old + 2 ≤ vec_capacity out.old }
    ensures items { out.new.items ≡ out.old.items ++ to_be_bytes w16 number }
    ensures len { vec_len out.new ≡ vec_len out.old + 2 }
    ensures capacity { vec_capacity out.old ≤ vec_capacity out.new }
{
    put_bytes(out, &number.to_be_bytes());
}

/// A number of four bytes, the highest first.
pub fn put_four_bytes(out: &mut Vec<u8>, number: u32)
    requires { vec_len out.old + 4 ≤ vec_capacity out.old }
    ensures items { out.new.items ≡ out.old.items ++ to_be_bytes w32 number }
    ensures len { vec_len out.new ≡ vec_len out.old + 4 }
    ensures capacity { vec_capacity out.old ≤ vec_capacity out.new }
{
    put_bytes(out, &number.to_be_bytes());
}

/// A text of fewer than 256 bytes behind its length of one byte.
pub fn put_short_text(out: &mut Vec<u8>, text: &[u8])
    requires short { length text.now ≤ 255 }
    requires room { vec_len out.old + (length text.now + 1) ≤ vec_capacity out.old }
    ensures items { out.new.items ≡ out.old.items ++ (length text.now ∷ text.now) }
    ensures len { vec_len out.new ≡ vec_len out.old + (length text.now + 1) }
    ensures capacity { vec_capacity out.old ≤ vec_capacity out.new }
{
    put_byte(out, text.len() as u8);
    put_bytes(out, text);
}

/// The bytes of a record behind their length of two bytes.
pub fn put_record_bytes(out: &mut Vec<u8>, bytes: &[u8])
    requires short { length bytes.now ≤ 256 }
    requires room { vec_len out.old + (length bytes.now + 2) ≤ vec_capacity out.old }
    ensures items { out.new.items ≡ out.old.items ++ (to_be_bytes w16 (length bytes.now) ++ bytes.now) }
    ensures len { vec_len out.new ≡ vec_len out.old + (length bytes.now + 2) }
    ensures capacity { vec_capacity out.old ≤ vec_capacity out.new }
{
    put_two_bytes(out, bytes.len() as u16);
    put_bytes(out, bytes);
}

/// A flag: 0 or 1.
pub fn put_flag(out: &mut Vec<u8>, flag: bool)
    requires { vec_len out.old + 1 ≤ vec_capacity out.old }
    ensures items { out.new.items ≡ out.old.items ++ flag_spell flag }
    ensures len { vec_len out.new ≡ vec_len out.old + 1 }
    ensures capacity { vec_capacity out.old ≤ vec_capacity out.new }
{
    if flag {
        put_byte(out, 1);
    } else {
        put_byte(out, 0);
    }
}

/// A completion code: `S` or `U`, and its number.
pub fn put_code(out: &mut Vec<u8>, code: Code)
    requires { vec_len out.old + 3 ≤ vec_capacity out.old }
    ensures items { out.new.items ≡ out.old.items ++ code_spell code }
    ensures len { vec_len out.new ≡ vec_len out.old + 3 }
    ensures capacity { vec_capacity out.old ≤ vec_capacity out.new }
{
    match code {
        Code::System(number) => {
            put_byte(out, b'S');
            put_two_bytes(out, number);
        }
        Code::User(number) => {
            put_byte(out, b'U');
            put_two_bytes(out, number);
        }
    }
}
