//! The room of the book: streams that fill it, and a deck that just has room.
use crate::calls::{SMALL_SIZE, STREAM, call, formatted, text_of};
use std::alloc::Global;
use std::test::Fail;

/// Cards of a disk whose book is full within the stream, and the text up to there.
static FULL_BOOKS: [(&[u8], &[u8]); 2] = [
    (
        b"BOOK 592\nVOLUME VOL001 2000\n",
        b"J0000001 COPY1 SUBMITTED\nI1 J0000001 SELECTED\n",
    ),
    (b"BOOK 574\nVOLUME VOL001 2000\n", b""),
];

/// Whether the stream is broken off so, and the disk opens again.
fn is_full(alloc: Global, row: &(&[u8], &[u8])) -> Result<bool, Fail> {
    let (cards, text) = *row;
    let disk = formatted(alloc, cards, SMALL_SIZE, None, None)?;
    let ended = call(alloc, "run", STREAM, disk)?;
    let again = call(alloc, "run", b"", ended.disk)?;
    Ok(ended.status == 3 && ended.text.as_slice() == text && again.status == 0)
}

#[test]
fn the_book_is_full(rt: HostRuntime) -> Result<(), Fail> {
    let alloc = rt.alloc();
    for (place, row) in FULL_BOOKS.iter().enumerate() {
        assert!(rt; is_full(alloc, row)?, "row {place}");
    }
    Ok(())
}

/// Cards of a disk, and the status and the text of a call with one deck on it.
static BOOKS: [(&[u8], u8, &[u8]); 2] = [
    (b"BOOK 334\nVOLUME VOL001 2000\n", 3, b""),
    (
        b"BOOK 335\nVOLUME VOL001 2000\n",
        0,
        b"J0000001 J SUBMITTED\n",
    ),
];

/// Whether a deck is answered so.
fn is_submitted_so(alloc: Global, row: &(&[u8], u8, &[u8])) -> Result<bool, Fail> {
    let (cards, status, text) = *row;
    let deck = b"//J JOB\n//S1 EXEC PGM=IEFBR14\n//*\n//*\n";
    let (ended, written) = text_of(alloc, cards, SMALL_SIZE, deck)?;
    Ok(ended == status && written.as_slice() == text)
}

#[test]
fn a_deck_needs_its_room_of_the_book(rt: HostRuntime) -> Result<(), Fail> {
    let alloc = rt.alloc();
    for (place, row) in BOOKS.iter().enumerate() {
        assert!(rt; is_submitted_so(alloc, row)?, "row {place}");
    }
    Ok(())
}
