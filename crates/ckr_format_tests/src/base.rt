//! What no clause says: the spellings of the formats, and that each call can succeed.
use ckr_base::{
    ByteList, CheckId, Code, DsName, Duplicate, Name8, NoMemory, Rec, Records, RoomyList, SameAs,
    Volser,
};
use std::alloc::Global;
use std::test::Fail;

/// A text, and the code that it spells.
type CodeRow = (&'static [u8], Option<Code>);

static CODE_ROWS: [CodeRow; 9] = [
    (b"S0C7", Some(Code::System(199))),
    (b"U4095", Some(Code::User(4095))),
    (b"SB37", Some(Code::System(2871))),
    (b"U0101", Some(Code::User(101))),
    (b"U4096", None),
    (b"S0c7", None),
    (b"S0C70", None),
    (b"U101", None),
    (b"", None),
];

/// The code is written so, if it has a number that can be written.
fn is_written(code: Code, text: &[u8]) -> bool {
    match code {
        Code::System(number) if number <= 4095 => Code::System(number).write().as_slice() == text,
        Code::User(number) if number <= 4095 => Code::User(number).write().as_slice() == text,
        _ => false,
    }
}

/// The text is read as its code, and the code is written so.
fn is_spelled(row: &CodeRow) -> bool {
    let (text, code) = *row;
    match Code::read(text) {
        Some(read) => code == Some(read) && is_written(read, text),
        None => code.is_none(),
    }
}

#[test]
fn codes_have_the_spellings_of_the_formats(rt: HostRuntime) {
    for row in &CODE_ROWS {
        assert!(rt; is_spelled(row), "{:?}", row.0);
    }
}

/// A text, and whether it is a name, the name of a data set, a serial and an identifier.
type NameRow = (&'static [u8], bool, bool, bool, bool);

static NAME_ROWS: [NameRow; 15] = [
    (b"A", true, true, true, true),
    (b"PAYROLL8", true, true, false, true),
    (b"PAYROLL89", false, false, false, true),
    (b"1ABC", false, false, true, true),
    (b"$#@9", true, true, true, true),
    (b"a", false, false, false, false),
    (b"GEN-01", false, false, true, false),
    (b"PAY.MASTER.OLD", false, true, false, false),
    (b"PAY..OLD", false, false, false, false),
    (b"PAY.", false, false, false, false),
    (
        b"A2345678.B2345678.C2345678.D2345678.E2345678",
        false,
        true,
        false,
        false,
    ),
    (
        b"A2345678.B2345678.C2345678.D2345678.E234567.F",
        false,
        false,
        false,
        false,
    ),
    (b"C000000100000001", false, false, false, true),
    (b"C0000001000000012", false, false, false, false),
    (b"", false, false, false, false),
];

fn is_name(row: &NameRow) -> bool {
    Name8::read(row.0).is_some() == row.1
}

fn is_data_set(row: &NameRow) -> bool {
    DsName::read(row.0).is_some() == row.2
}

fn is_serial(row: &NameRow) -> bool {
    Volser::read(row.0).is_some() == row.3
}

fn is_identifier(row: &NameRow) -> bool {
    CheckId::read(row.0).is_some() == row.4
}

/// Each name is read from the texts of its grammar alone.
fn is_told(row: &NameRow) -> bool {
    is_name(row) && is_data_set(row) && is_serial(row) && is_identifier(row)
}

#[test]
fn names_have_their_grammars(rt: HostRuntime) {
    for row in &NAME_ROWS {
        assert!(rt; is_told(row), "{:?}", row.0);
    }
}

fn bytes_grow(alloc: Global) -> Result<bool, NoMemory> {
    let mut bytes = ByteList::new(alloc);
    bytes.push(7)?;
    bytes.push(8)?;
    Ok(bytes.as_slice() == [7, 8].as_slice())
}

/// A copy of records is the same as they are, until one more comes.
fn records_grow(alloc: Global) -> Result<bool, NoMemory> {
    let mut records = Records::new(alloc);
    records.push(Rec::of(b"ALPHA"))?;
    let copy = records.duplicate(alloc)?;
    let same = copy.is_same_as(&records);
    records.push(Rec::of(b"BETA"))?;
    Ok(same && !copy.is_same_as(&records))
}

fn roomy_list_grows(alloc: Global) -> Result<bool, NoMemory> {
    let mut roomy = RoomyList::<u32>::new(alloc);
    roomy.reserve(2)?;
    roomy.push(1)?;
    roomy.push(2)?;
    Ok(roomy.as_slice() == [1, 2].as_slice())
}

#[test]
fn lists_grow(rt: HostRuntime) -> Result<(), Fail> {
    assert!(rt; bytes_grow(rt.alloc())?);
    assert!(rt; records_grow(rt.alloc())?);
    assert!(rt; roomy_list_grows(rt.alloc())?);
    Ok(())
}
