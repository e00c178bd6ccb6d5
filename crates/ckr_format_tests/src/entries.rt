//! Points and the bytes of their entries, both ways.

use crate::hexadecimal::bytes_of;
use ckr_base::{CheckId, DsName, Name8, NoMemory};
use ckr_entry::{
    EntryError, Mark, Marks, PassedList, Point, Present, State, decode_entry, encode_entry, find,
};
use ckr_jcl::Kind;
use ckr_library::{Kept, Stamp};
use ckr_programs::ProgState;
use std::alloc::Global;
use std::test::Fail;

/// An entry begins so with each field at its least, up to the records taken and the writes.
const LEAST: &str = "434b5054 0130 0141 00000000 00000000 00 0141 00000001";

/// And so with each field at its greatest.
const GREATEST: &str =
    "434b5054 105a5a5a5a5a5a5a5a5a5a5a5a5a5a5a5a 085a5a5a5a5a5a5a5a ffffffff ffffffff ff 085a5a5a5a5a5a5a5a 0098967f";

/// No marks, and nothing passed on.
const NO_SETS: &str = "0000 0000";

/// A name that was absent and one of 44 bytes that was there, and two data sets that were passed on.
const SETS: &str =
    "0002 0141 00 2c5a5a5a5a5a5a5a5a2e5a5a5a5a5a5a5a5a2e5a5a5a5a5a5a5a5a2e5a5a5a5a5a5a5a5a2e5a5a5a5a5a5a5a5a 01 ff ffff ffffffff ffffffff 01 ffffffff ff ffffffff 0002 0142 01 0141 00";

/// What the bytes are read as is spelled so.
fn is_spelled(alloc: Global, bytes: &[u8]) -> Result<bool, NoMemory> {
    match decode_entry(alloc, bytes) {
        Ok(point) => Ok(encode_entry(alloc, &point)?.as_slice() == bytes),
        Err(_) => Ok(false),
    }
}

/// The bytes are no entry, which shows at this place.
fn is_bad_at(alloc: Global, bytes: &[u8], place: usize) -> bool {
    match decode_entry(alloc, bytes) {
        Err(EntryError::Bad { offset }) => offset as usize == place,
        _ => false,
    }
}

/// Each front of the bytes is no entry, which shows at its end.
fn has_no_front(alloc: Global, bytes: &[u8]) -> bool {
    for size in 0..bytes.len() {
        if !is_bad_at(alloc, &bytes[..size], size) {
            return false;
        }
    }
    true
}

/// The bytes with one behind them are no entry, which shows there.
fn is_whole(alloc: Global, mut bytes: Vec<u8>) -> Result<bool, NoMemory> {
    let size = bytes.len();
    bytes.push(0)?;
    Ok(is_bad_at(alloc, &bytes, size))
}

/// The texts have the bytes of an entry, of no front of them and of none with a byte behind them.
fn is_entry(alloc: Global, texts: &[&str]) -> Result<bool, NoMemory> {
    let bytes = bytes_of(alloc, texts)?;
    Ok(is_spelled(alloc, &bytes)? && has_no_front(alloc, &bytes) && is_whole(alloc, bytes)?)
}

/// The records taken and the writes, each field at its least.
const FEW: &str = "00000000 00000000";

/// And so each field at its greatest.
const MANY: &str = "001e8480 002dc6c0";

/// The counts of the state that the kinds share, at their least.
const ZERO: &str = "00000000 00000000 00000000 00000001";

/// And so at their greatest.
const MILLION: &str = "000f4240 000f4240 000f4240 000f4240";

/// Two keys of no bytes.
const NO_KEYS: &str = "00 00";

/// A key of 32 bytes.
const KEY: &str = "20ffffffffffffffffffffffffffffffffffffffffffffffffffffffffffffffff";

/// The size of a record of 256 bytes.
const LONG: &str = "0100";

/// 64 bytes of a record.
const PART: &str =
    "ffffffffffffffffffffffffffffffffffffffffffffffffffffffffffffffffffffffffffffffffffffffffffffffffffffffffffffffffffffffffffffffff";

/// The texts of entries of each kind, with each field at its least and at its greatest.
static ENTRIES: [&[&str]; 14] = [
    &[LEAST, FEW, "01", ZERO, NO_SETS],
    &[GREATEST, MANY, "01", MILLION, SETS],
    &[LEAST, FEW, "02", ZERO, NO_SETS],
    &[GREATEST, MANY, "02", MILLION, SETS],
    &[LEAST, FEW, "03", ZERO, NO_KEYS, NO_SETS],
    &[GREATEST, MANY, "03", MILLION, KEY, KEY, SETS],
    &[
        LEAST,
        FEW,
        "06",
        ZERO,
        "00000000000000000000000000000000",
        NO_SETS,
    ],
    &[
        GREATEST,
        MANY,
        "06",
        MILLION,
        "000000000000003635c9adc5de9fffff",
        SETS,
    ],
    &[LEAST, FEW, "04", ZERO, NO_KEYS, "00", NO_SETS],
    &[LEAST, FEW, "04", ZERO, NO_KEYS, "01 0000", NO_SETS],
    &[
        GREATEST, MANY, "04", MILLION, KEY, KEY, "01", LONG, PART, PART, PART, PART, SETS,
    ],
    &[LEAST, FEW, "05", ZERO, NO_KEYS, "00", NO_SETS],
    &[
        GREATEST,
        MANY,
        "05",
        MILLION,
        KEY,
        KEY,
        "01 000f423f",
        LONG,
        PART,
        PART,
        PART,
        PART,
        SETS,
    ],
    &[
        GREATEST,
        MANY,
        "05",
        MILLION,
        KEY,
        KEY,
        "01 00000000 0000",
        SETS,
    ],
];

#[test]
fn each_kind_is_read_and_written(rt: HostRuntime) -> Result<(), Fail> {
    for texts in &ENTRIES {
        assert!(rt; is_entry(rt.alloc(), *texts)?);
    }
    Ok(())
}

/// Bytes that are no entry, in two parts, and where that shows.
type Fault = (&'static str, &'static str, usize);

static FAULTS: [Fault; 28] = [
    ("434b5055 0130 0141", "", 0),
    ("434b5054 00", "", 4),
    ("434b5054 0161", "", 4),
    ("434b5054 0130 0131", "", 6),
    ("434b5054 0130 0141 00000000 00000000 00 09", "", 17),
    (
        "434b5054 0130 0141 00000000 00000000 00 0141 00000000",
        "",
        19,
    ),
    (
        "434b5054 0130 0141 00000000 00000000 00 0141 00989680",
        "",
        19,
    ),
    (LEAST, "00000002 002dc6c1", 27),
    (LEAST, "00000002 00000000 00", 31),
    (LEAST, "00000002 00000000 07", 31),
    (LEAST, "00000002 00000000 01 00000003 00000000", 32),
    (LEAST, "ffffffff 00000000 01 000f4241 00000000", 32),
    (LEAST, "00000002 00000000 01 00000001 00000000", 36),
    (LEAST, "001e8481 00000000 01 000f4240 000f4241", 36),
    (LEAST, "00000002 00000000 01 00000001 00000001 000f4241", 40),
    (
        LEAST,
        "00000002 00000000 01 00000001 00000001 00000000 00000000",
        44,
    ),
    (
        LEAST,
        "00000002 00000000 01 00000001 00000001 00000000 000f4241",
        44,
    ),
    (
        LEAST,
        "00000002 00000000 03 00000001 00000001 00000000 00000001 21",
        48,
    ),
    (
        LEAST,
        "00000002 00000000 04 00000001 00000001 00000000 00000001 00 00 02",
        50,
    ),
    (
        LEAST,
        "00000002 00000000 04 00000001 00000001 00000000 00000001 00 00 01 0101",
        51,
    ),
    (
        LEAST,
        "00000002 00000000 05 00000001 00000001 00000000 00000001 00 00 01 00000001",
        51,
    ),
    (
        LEAST,
        "00000002 00000000 06 00000001 00000001 00000000 00000001 000000000000003635c9adc5dea00000",
        48,
    ),
    (
        LEAST,
        "00000002 00000000 06 00000001 00000001 00000000 00000001 01000000000000000000000000000000",
        48,
    ),
    (
        LEAST,
        "00000002 00000000 01 00000001 00000001 00000000 00000001 0002 0141 00 0141 00",
        53,
    ),
    (
        LEAST,
        "00000002 00000000 01 00000001 00000001 00000000 00000001 0002 0142 00 0141 00",
        53,
    ),
    (
        LEAST,
        "00000002 00000000 01 00000001 00000001 00000000 00000001 0001 0141 02",
        52,
    ),
    (
        LEAST,
        "00000002 00000000 01 00000001 00000001 00000000 00000001 0001 0141 01 00 0050 00000001 00000001 02",
        64,
    ),
    (
        LEAST,
        "00000002 00000000 01 00000001 00000001 00000000 00000001 0000 0001 0141 02",
        54,
    ),
];

fn is_fault(alloc: Global, fault: &Fault) -> Result<bool, NoMemory> {
    let bytes = bytes_of(alloc, &[fault.0, fault.1])?;
    Ok(is_bad_at(alloc, &bytes, fault.2))
}

#[test]
fn the_first_wrong_field_is_told(rt: HostRuntime) -> Result<(), Fail> {
    for fault in &FAULTS {
        assert!(rt; is_fault(rt.alloc(), fault)?, "{} {}", fault.0, fault.1);
    }
    Ok(())
}

/// What the tables had of a data set whose stamp has step 1 and no rewrites.
fn present(lrecl: u16, space: u32, length: u32, cataloged: bool, run: u32) -> Present {
    Present {
        volume: 0,
        lrecl,
        space,
        length,
        cataloged,
        stamp: Stamp {
            run,
            step: 1,
            rewrites: 0,
        },
    }
}

/// Puts a data set behind the others; false where that is no name.
fn put_mark(marks: &mut Marks, text: &[u8], known: Present) -> Result<bool, NoMemory> {
    let Some(name) = DsName::read(text) else {
        return Ok(false);
    };
    marks.push(Mark {
        name,
        present: Some(known),
    })?;
    Ok(true)
}

/// The data sets of a COPY that has taken and written 20 records of 60.
fn worked_marks(alloc: Global) -> Result<Marks, NoMemory> {
    let mut marks = Marks::new(alloc);
    put_mark(&mut marks, b"CHK.K", present(256, 20, 1, false, 2))?;
    put_mark(&mut marks, b"IN.A", present(80, 100, 60, true, 1))?;
    put_mark(&mut marks, b"OUT.K", present(80, 100, 20, false, 2))?;
    Ok(marks)
}

fn worked_state() -> State {
    let mut state = ProgState::first(Kind::Copy);
    state.first = 20;
    state.entries = 1;
    state.checkpointed = true;
    State::Plain(state)
}

/// The first checkpoint of the COPY.
fn worked_point(alloc: Global, marks: Marks) -> Option<Point> {
    Some(Point {
        id: CheckId::read(b"C0000001"),
        job: Name8::read(b"K")?,
        run: 2,
        owner: 2,
        step: 1,
        step_name: Name8::read(b"S1")?,
        count: 1,
        taken: 20,
        writes: 20,
        state: worked_state(),
        marks,
        passed: PassedList::new(alloc),
    })
}

/// The point has three data sets, and its entry has these bytes.
fn is_entry_of(alloc: Global, point: &Point, bytes: &[u8]) -> Result<bool, NoMemory> {
    if point.marks.as_slice().len() != 3 || !point.passed.as_slice().is_empty() {
        return Ok(false);
    }
    Ok(encode_entry(alloc, point)?.as_slice() == bytes)
}

/// The bytes of its entry.
static WORKED: [&str; 6] = [
    "434b5054 084330303030303031 014b 00000002 00000002 01 025331 00000001",
    "00000014 00000014 01 00000014 00000000 00000000 00000001 0003",
    "0543484b2e4b 01 00 0100 00000014 00000001 00 00000002 01 00000000",
    "04494e2e41 01 00 0050 00000064 0000003c 01 00000001 01 00000000",
    "054f55542e4b 01 00 0050 00000064 00000014 00 00000002 01 00000000",
    "0000",
];

#[test]
fn fields_stand_in_their_order(rt: HostRuntime) -> Result<(), Fail> {
    let alloc = rt.alloc();
    let bytes = bytes_of(alloc, &WORKED)?;
    assert!(rt; bytes.len() == 143);
    match worked_point(alloc, worked_marks(alloc)?) {
        Some(point) => assert!(rt; is_entry_of(alloc, &point, &bytes)?),
        None => assert!(rt; false),
    }
    assert!(rt; is_entry(alloc, &WORKED)?);
    Ok(())
}

/// Puts an entry of this identifier behind the others.
fn put_kept(list: &mut Vec<Kept>, text: &[u8]) -> Result<(), NoMemory> {
    if let Some(id) = CheckId::read(text) {
        list.push(Kept {
            id,
            run: 1,
            place: 0,
            bytes: 143,
        })?;
    }
    Ok(())
}

/// Entries of two identifiers, of the second one twice.
fn two_kept(alloc: Global) -> Result<Vec<Kept>, NoMemory> {
    let mut list = Vec::new(alloc);
    put_kept(&mut list, b"A1")?;
    put_kept(&mut list, b"A2")?;
    put_kept(&mut list, b"A2")?;
    Ok(list)
}

/// The place of the first entry of an identifier, if there is one.
fn place_of(list: &[Kept], text: &[u8]) -> Option<usize> {
    find(list, &CheckId::read(text)?)
}

#[test]
fn the_first_entry_of_an_identifier_is_found(rt: HostRuntime) -> Result<(), Fail> {
    let list = two_kept(rt.alloc())?;
    assert!(rt; list.len() == 3);
    assert!(rt; place_of(&list, b"A1") == Some(0));
    assert!(rt; place_of(&list, b"A2") == Some(1));
    assert!(rt; CheckId::read(b"A3").is_some() && place_of(&list, b"A3").is_none());
    Ok(())
}
