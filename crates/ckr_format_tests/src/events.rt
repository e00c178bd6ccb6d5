//! Events and their bytes, both ways.
ghost use Rattle.ckr_events.specs.Event.{IsCounted};

use crate::hexadecimal::bytes_of;
use arrayvec::ArrayVec;
use ckr_base::{CheckId, Code, DsName, NoMemory};
use ckr_events::{Ending, Event, EventError, decode, encode, encode_front};
use std::alloc::Global;
use std::test::Fail;

/// The event is spelled so.
fn is_spelled(alloc: Global, event: &Event, bytes: &[u8]) -> Result<bool, NoMemory>
    requires { IsCounted event.now }
{
    Ok(encode(alloc, event)?.as_slice() == bytes)
}

/// What the bytes are read as is spelled so.
fn is_spelled_again(alloc: Global, bytes: &[u8]) -> Result<bool, NoMemory> {
    match decode(alloc, bytes) {
        Ok(event) => is_spelled(alloc, &event, bytes),
        Err(_) => Ok(false),
    }
}

/// The bytes are no event, which shows at this place.
fn is_bad_at(alloc: Global, bytes: &[u8], place: usize) -> bool {
    match decode(alloc, bytes) {
        Err(EventError::Bad { offset }) => offset as usize == place,
        _ => false,
    }
}

/// Each front of the bytes is no event, which shows at its end.
fn has_no_front(alloc: Global, bytes: &[u8]) -> bool {
    for size in 0..bytes.len() {
        if !is_bad_at(alloc, &bytes[..size], size) {
            return false;
        }
    }
    true
}

/// The bytes with one behind them are no event, which shows there.
fn is_whole(alloc: Global, mut bytes: Vec<u8>) -> Result<bool, NoMemory> {
    let size = bytes.len();
    bytes.push(0)?;
    Ok(is_bad_at(alloc, &bytes, size))
}

/// The text has the bytes of an event, of no front of them and of none with a byte behind them.
fn is_event(alloc: Global, text: &str) -> Result<bool, NoMemory> {
    let bytes = bytes_of(alloc, &[text])?;
    Ok(is_spelled_again(alloc, &bytes)? && has_no_front(alloc, &bytes) && is_whole(alloc, bytes)?)
}

/// Each kind with its fields at their least and at their greatest.
static EVENTS: [&str; 31] = [
    "01 00000000 00000000",
    "01 ffffffff 00000001 2f2f4a204a4f4220202020202020202020202020202020202020202020202020202020202020202020202020202020202020202020202020202020202020202020202020202020202020202020202020",
    "02 00000000 00 00000000 00 00",
    "02 ffffffff ff ffffffff ff 10 23303132333435363738394142435a40",
    "03 00000000 11 00",
    "03 ffffffff 1a 01 41",
    "04 00000000 01 00",
    "04 ffffffff ff 02 01 00 00 ff ff 05 0000000000000000 ffffffffffffffff 0000000100000002 0000000300000004 0000000500000006",
    "05 00000000 00000000 00000000 00 00000000 0000",
    "05 ffffffff ffffffff ffffffff 02 00000000 ffffffff ffffffff 0003 00ff41",
    "06 00000000 01 30 00000000 00000000 00 00000000 00000000",
    "06 ffffffff 02 5a24 ffffffff ffffffff 01 ffffffff ffffffff ffffffff",
    "07 00000000",
    "07 ffffffff",
    "08 00000000 01 0000 00000000 00",
    "08 ffffffff ff ffff ffffffff 01 ffffffff",
    "09 00000000 00 53 0000 00",
    "09 ffffffff ff 55 0fff 01",
    "0a 00000000 53 0000 00000000 00",
    "0a ffffffff 55 0fff ffffffff 01 ffffffff",
    "0b 00000000",
    "0b ffffffff",
    "0c 00000000 00",
    "0c 00000000 01 53 0000 01 00000000 00",
    "0c ffffffff 01 55 0fff 06 ffffffff 01 ffffffff",
    "0c 00000000 02 00 01 00000000 00000000",
    "0c ffffffff 02 ff 05 00000000 00000000",
    "0c ffffffff 02 ff 07 ffffffff ffffffff",
    "0c ffffffff 02 ff 08 ffffffff 00000000",
    "0d 00000000",
    "0d ffffffff",
];

#[test]
fn each_kind_is_read_and_written(rt: HostRuntime) -> Result<(), Fail> {
    for text in &EVENTS {
        assert!(rt; is_event(rt.alloc(), *text)?, "{text}");
    }
    Ok(())
}

/// Bytes that are no event, and where that shows.
type Fault = (&'static str, usize);

static FAULTS: [Fault; 23] = [
    ("00 00000001", 0),
    ("0e 00000001", 0),
    ("02 00000001 01 00000000 00 11", 11),
    ("02 00000001 01 00000000 00 01 61", 11),
    ("03 00000001 10 00", 5),
    ("03 00000001 1b 00", 5),
    ("03 00000001 11 2d", 6),
    ("03 00000001 11 02 3141", 6),
    ("04 00000001 00 00", 5),
    ("04 00000001 01 51", 6),
    ("04 00000001 01 01 00 00 00", 7),
    ("04 00000001 01 01 01 00 06", 9),
    ("05 00000001 00000000 00000000 00 00000000 0101", 18),
    ("06 00000001 00", 5),
    ("08 00000001 01 0000 00000000 11", 12),
    ("09 00000001 01 54 0000 00", 6),
    ("09 00000001 01 53 1000 00", 6),
    ("09 00000001 01 53 0000 02", 9),
    ("0c 00000001 03", 5),
    ("0c 00000001 01 53 0000 07", 9),
    ("0c 00000001 02 01 09", 7),
    ("0c 00000001 02 01 05 00000001 00000000", 8),
    ("0c 00000001 02 01 08 00000001 00000001", 12),
];

fn is_fault(alloc: Global, fault: &Fault) -> Result<bool, NoMemory> {
    let bytes = bytes_of(alloc, &[fault.0])?;
    Ok(is_bad_at(alloc, &bytes, fault.1))
}

#[test]
fn the_first_wrong_field_is_told(rt: HostRuntime) -> Result<(), Fail> {
    for fault in &FAULTS {
        assert!(rt; is_fault(rt.alloc(), fault)?, "{}", fault.0);
    }
    Ok(())
}

/// The event is spelled as the text has it, and so is what the bytes are read as.
fn is_text_of(alloc: Global, event: &Event, text: &str) -> Result<bool, NoMemory>
    requires { IsCounted event.now }
{
    let bytes = bytes_of(alloc, &[text])?;
    Ok(is_spelled(alloc, event, &bytes)? && is_spelled_again(alloc, &bytes)?)
}

fn selected(alloc: Global) -> Result<bool, NoMemory> {
    let event = Event::Selected {
        job: 1,
        initiator: 1,
        earlier: 0,
        step: 0,
        id: None,
    };
    is_text_of(alloc, &event, "020000000101000000000000")
}

fn selected_again(alloc: Global) -> Result<bool, NoMemory> {
    let event = Event::Selected {
        job: 9,
        initiator: 2,
        earlier: 3,
        step: 4,
        id: CheckId::read(b"C0000001"),
    };
    is_text_of(
        alloc,
        &event,
        "02 00000009 02 00000003 04 08 4330303030303031",
    )
}

fn denied(alloc: Global) -> Result<bool, NoMemory> {
    let event = Event::Denied {
        job: 5,
        rule: 26,
        name: DsName::read(b"IN.A"),
    };
    is_text_of(alloc, &event, "03 00000005 1a 04 494e2e41")
}

fn ended(alloc: Global) -> Result<bool, NoMemory> {
    let mut lengths = ArrayVec::new();
    lengths.push(7);
    let ending = Ending::Coded {
        code: Code::System(199),
        rule: 3,
        writes: 6,
        lengths,
    };
    is_text_of(
        alloc,
        &Event::Ended { job: 8, ending },
        "0c 00000008 01 53 00c7 03 00000006 01 00000007",
    )
}

#[test]
fn fields_stand_in_their_order(rt: HostRuntime) -> Result<(), Fail> {
    let alloc = rt.alloc();
    assert!(rt; selected(alloc)?);
    assert!(rt; selected_again(alloc)?);
    assert!(rt; denied(alloc)?);
    assert!(rt; ended(alloc)?);
    assert!(rt; is_text_of(alloc, &Event::Released { job: 2 }, "0b00000002")?);
    assert!(rt; is_text_of(alloc, &Event::Cancelled { job: 258 }, "0700000102")?);
    Ok(())
}

#[test]
fn a_small_event_goes_behind_what_stands_there(rt: HostRuntime) -> Result<(), Fail> {
    let mut buf = [7].to_vec(rt.alloc())?;
    buf.reserve(4096)?;
    let purged = Event::Purged { job: 3 };
    let rest = encode_front(&purged, &mut buf);
    assert!(rt; rest.is_empty());
    assert!(rt; buf.as_slice() == [7, 13, 0, 0, 0, 3].as_slice());
    Ok(())
}
