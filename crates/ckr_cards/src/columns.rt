//! The columns of a statement.
ghost use Rattle.std.specs.Prelude.{◌≡◌, ◌≤◌, length, take, drop};
ghost use Rattle.ckr_cards.specs.Card.{is_blank, word, behind_blanks, blanks_before};
ghost use Rattle.ckr_cards.specs.Field.{field_of, goes_on};

/// A blank or a tab.
pub(crate) const fn is_blank(byte: u8) -> bool
    ensures { result ≡ is_blank byte }
{
    byte == b' ' || byte == b'\t'
}

/// How many blanks stand first.
pub(crate) fn leading_blanks(text: &[u8]) -> usize
    ensures count { result ≡ blanks_before text.now }
    ensures rest { drop result text.now ≡ behind_blanks text.now }
    ensures bound { result ≤ length text.now }
{
    let mut count: usize = 0;
    for byte in text {
        if !is_blank(*byte) {
            return count;
        }
        count += 1;
    }
    count
}

/// How many bytes the operand field at the head of a text has.
pub(crate) fn field_length(text: &[u8]) -> usize
    ensures field { take result text.now ≡ field_of text.now }
    ensures bound { result ≤ length text.now }
{
    let mut quoted = false;
    let mut at: usize = 0;
    for byte in text {
        if is_blank(*byte) && !quoted {
            return at;
        }
        if *byte == b'\'' {
            quoted = !quoted;
        }
        at += 1;
    }
    at
}

/// Whether a field ends with a comma outside apostrophes.
pub(crate) fn goes_on(field: &[u8]) -> bool
    ensures { result ≡ goes_on field.now }
{
    let mut quoted = false;
    let mut comma = false;
    for byte in field {
        comma = *byte == b',' && !quoted;
        if *byte == b'\'' {
            quoted = !quoted;
        }
    }
    comma
}
