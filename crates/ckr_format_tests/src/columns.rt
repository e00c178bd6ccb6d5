//! What no clause says: the vectors of the formats.
use arrayvec::ArrayVec;
use ckr_base::{Rec, columns, decimal_text, fitted, last_digits};

/// A record, a length of 1 to 256, and the record at that length.
type FittedRow = (&'static [u8], u16, &'static [u8]);

static FITTED_ROWS: [FittedRow; 4] = [
    (b"ABCDE", 3, b"ABC"),
    (b"ABC", 3, b"ABC"),
    (b"AB", 5, b"AB   "),
    (b"", 1, b" "),
];

fn is_fitted(row: &FittedRow) -> bool {
    let (record, length, expected) = *row;
    record.len() <= 256 && length <= 256 && fitted(&Rec::of(record), length).bytes() == expected
}

#[test]
fn records_are_cut_or_filled(rt: HostRuntime) {
    for row in &FITTED_ROWS {
        assert!(rt; is_fitted(row), "{:?}", row.0);
    }
}

/// A record, a column, which is counted from 1, how many there are, at most 32, and what stands there.
type ColumnRow = (&'static [u8], u16, u16, &'static [u8]);

static COLUMN_ROWS: [ColumnRow; 4] = [
    (b"ABCDE", 2, 3, b"BCD"),
    (b"ABCDE", 4, 3, b"DE "),
    (b"AB", 9, 2, b"  "),
    (b"ABC", 1, 1, b"A"),
];

fn are_columns(row: &ColumnRow) -> bool {
    let (record, column, count, expected) = *row;
    if 32 < count {
        return false;
    }
    let found: ArrayVec<u8, 32> = columns(record, column, count);
    found.as_slice() == expected
}

#[test]
fn columns_beyond_the_record_are_blanks(rt: HostRuntime) {
    for row in &COLUMN_ROWS {
        assert!(rt; are_columns(row), "{:?}", row.0);
    }
}

/// A number, and its digits.
type DecimalRow = (u128, &'static [u8]);

static DECIMAL_ROWS: [DecimalRow; 4] = [
    (0, b"0"),
    (7, b"7"),
    (1_000, b"1000"),
    (9_999_999_999_999_999_999_999, b"9999999999999999999999"),
];

fn is_decimal(row: &DecimalRow) -> bool {
    let (number, text) = *row;
    number < 10_000_000_000_000_000_000_000 && decimal_text(number).as_slice() == text
}

#[test]
fn numbers_have_their_digits(rt: HostRuntime) {
    let page: ArrayVec<u8, 6> = last_digits(20_000, 6);
    assert!(rt; page.as_slice() == b"020000".as_slice());
    for row in &DECIMAL_ROWS {
        assert!(rt; is_decimal(row), "{:?}", row.1);
    }
}
