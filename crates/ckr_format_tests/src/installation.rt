//! Installation cards, and what they say.
use ckr_base::{Code, Volser};
use ckr_desk_format::{CardRefusal, Installation};
use ckr_volumes::{Layout, Volume};

/// The cards of the worked installation.
const WORKED: [&str; 5] = [
    "INITIATORS 2",
    "UNITS 2",
    "BOOK 100000",
    "VOLUME VOL001 200000",
    "VOLUME VOL002 200000",
];

/// What at most a thousand lines say.
fn said(lines: &[&str], size: u64) -> Result<Layout, CardRefusal> {
    let mut reader = Installation::new();
    for line in lines {
        if reader.lines < 1000 {
            reader.line(line.as_bytes());
        }
    }
    reader.finish(size)
}

/// The numbers of the worked installation.
fn has_its_numbers(layout: &Layout) -> bool {
    (layout.initiators, layout.units) == (2, 2)
        && (layout.version, layout.book, layout.image) == (1, 100_000, 0)
}

fn is_volume(volume: &Volume, serial: &[u8], start: u64, bytes: u32) -> bool {
    Volser::read(serial).as_ref() == Some(&volume.serial)
        && (volume.start, volume.bytes) == (start, bytes)
}

/// The volumes of the worked installation.
fn are_its_volumes(volumes: &[Volume]) -> bool {
    match volumes {
        [first, second] => {
            is_volume(first, b"VOL001", 100_512, 200_000)
                && is_volume(second, b"VOL002", 300_512, 200_000)
        }
        _ => false,
    }
}

/// The codes after which a restart is permitted where no card says so.
static CODES: [Code; 3] = [
    Code::System(0x001),
    Code::System(0x2f3),
    Code::System(0xb37),
];

/// The cards of the worked installation are accepted, and say this.
fn is_worked(size: u64) -> bool {
    match said(&WORKED, size) {
        Ok(layout) => {
            has_its_numbers(&layout)
                && are_its_volumes(&layout.volumes)
                && layout.eligible.as_slice() == CODES.as_slice()
        }
        Err(_) => false,
    }
}

#[test]
fn worked_installation(rt: HostRuntime) {
    assert!(rt; is_worked(500_512));
}

/// The initiators, the units and the book where no card says them.
fn has_default_numbers(layout: &Layout) -> bool {
    (layout.initiators, layout.units, layout.book) == (2, 4, 1_048_576)
}

/// A card of a volume alone is accepted, and the rest goes by default.
fn goes_by_default(size: u64) -> bool {
    match said(&["VOLUME A 1024"], size) {
        Ok(layout) => has_default_numbers(&layout),
        Err(_) => false,
    }
}

#[test]
fn what_no_card_says(rt: HostRuntime) {
    assert!(rt; goes_by_default(1_050_112));
}

static TABS: [&str; 3] = ["UNITS\t3", "ELIGIBLE\tU0001\tSFFF", "VOLUME\tA 1024"];

/// Cards whose words are parted by tabs are accepted, and say this.
fn parts_words(size: u64) -> bool {
    match said(&TABS, size) {
        Ok(layout) => {
            layout.units == 3
                && layout.eligible.as_slice() == [Code::User(1), Code::System(0xfff)].as_slice()
        }
        Err(_) => false,
    }
}

#[test]
fn tabs_part_words(rt: HostRuntime) {
    assert!(rt; parts_words(u64::MAX));
}

/// These lines are refused by the one of this number.
fn is_refused(lines: &[&str], size: u64, number: u32) -> bool {
    match said(lines, size) {
        Err(refusal) => refusal == CardRefusal::Line(number),
        Ok(_) => false,
    }
}

static REFUSED_LINES: [&str; 23] = [
    "INITIATORS 0",
    "INITIATORS 9",
    "INITIATORS 02",
    "INITIATORS  2",
    "INITIATORS 2 ",
    " INITIATORS 2",
    "UNITS 17",
    "UNITS \t2",
    "UNITS",
    "BOOK 255",
    "BOOK 268435457",
    "VOLUME B 1023",
    "VOLUME B 268435457",
    "VOLUME ABCDEFG 2000",
    "VOLUME b 2000",
    "VOLUME B",
    "VOLUME A 2000",
    "ELIGIBLE",
    "ELIGIBLE S001 S001",
    "ELIGIBLE S001  S002",
    "ELIGIBLE U4096",
    "IMAGE 0",
    "units 2",
];

#[test]
fn lines_that_are_refused(rt: HostRuntime) {
    for line in &REFUSED_LINES {
        assert!(rt;
            is_refused(&["VOLUME A 1024", "", *line, "UNITS 99"], u64::MAX, 3),
            "{line}"
        );
    }
}

static SINGLE_CARDS: [&str; 4] = ["INITIATORS 1", "UNITS 1", "BOOK 256", "ELIGIBLE S001"];

/// The card may stand once.
fn is_single(card: &str) -> bool {
    said(&[card, "VOLUME A 1024"], u64::MAX).is_ok()
        && is_refused(&[card, " \t", card], u64::MAX, 3)
}

#[test]
fn cards_that_stand_twice(rt: HostRuntime) {
    for card in &SINGLE_CARDS {
        assert!(rt; is_single(*card), "{card}");
    }
}

const CARDS: [&str; 3] = ["VOLUME A 2000", "BOOK 1000", "VOLUME B 3000"];

/// Cards, the size of the disk, and the line that refuses them.
type SizeRow = (&'static [&'static str], u64, u32);

static SIZE_ROWS: [SizeRow; 6] = [
    (&WORKED, 500_511, 5),
    (&["VOLUME A 1024"], 1_050_111, 1),
    (&CARDS, 2_511, 1),
    (&CARDS, 3_511, 2),
    (&CARDS, 6_511, 3),
    (&["UNITS 1", "VOLUME A 1024"], 0, 2),
];

#[test]
fn sizes_in_the_order_of_the_cards(rt: HostRuntime) {
    for row in &SIZE_ROWS {
        assert!(rt; is_refused(row.0, row.1, row.2), "{} bytes", row.1);
    }
    assert!(rt; said(&CARDS, 6_512).is_ok());
}

fn has_no_volume(lines: &[&str]) -> bool {
    match said(lines, 0) {
        Err(refusal) => refusal == CardRefusal::NoVolume,
        Ok(_) => false,
    }
}

#[test]
fn cards_without_a_volume(rt: HostRuntime) {
    assert!(rt; has_no_volume(&["BOOK 100000"]));
    assert!(rt; has_no_volume(&[]));
}
