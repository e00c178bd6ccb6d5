//! A disk that is opened and opened again, decks that are submitted, and a job that runs to its end.
ghost use Rattle.std.specs.Prelude.{IfOk};
ghost use Rattle.ckr_volumes.specs.Header.{IsHeader};
ghost use Rattle.ckr_volumes.specs.Layouts.{disk_needed};

use arrayvec::ArrayVec;
use ckr_base::{Code, DsName, Volser, trimmed};
use ckr_console::{Answer, Standing};
use ckr_desk::{Desk, DeskError, Listed, OpenError};
use ckr_desk_turn::{Reply, Submitted, Turn};
use ckr_journal::format;
use ckr_outside::MemDisk;
use ckr_volumes::{Layout, Volume};
use std::alloc::Global;
use std::process::Abort;
use std::test::Fail;

/// The layout of `INITIATORS 2`, `UNITS 2`, `BOOK 100000`, `VOLUME VOL001 200000`.
fn worked() -> Result<Layout, Fail>
    ensures { IfOk result (λ layout. IsHeader layout (disk_needed layout)) }
{
    let mut volumes = ArrayVec::new();
    volumes.push(Volume {
        serial: Volser::read(b"VOL001").ok_or("the serial is well formed")?,
        start: 100_512,
        bytes: 200_000,
    });
    let mut eligible = ArrayVec::new();
    eligible.push(Code::System(0x0c1));
    Ok(Layout {
        version: 1,
        initiators: 2,
        units: 2,
        volumes,
        eligible,
        book: 100_000,
        image: 0,
    })
}

/// A disk of that layout, formatted.
fn formatted(alloc: Global) -> Result<MemDisk, Fail> {
    let mut disk = MemDisk::new(alloc, 300_512, Vec::new(alloc), None)?;
    format(&mut disk, &worked()?)?;
    Ok(disk)
}

fn open(alloc: Global, disk: MemDisk) -> Result<Desk<MemDisk, Standing>, Fail> {
    match Desk::open_on(alloc, disk, Some(Standing(Answer::Yes))) {
        Ok(desk) => Ok(desk),
        Err(opening) => Err(opening.error.into()),
    }
}

/// A desk on a disk that is formatted so.
fn fresh(alloc: Global) -> Result<Desk<MemDisk, Standing>, Fail> {
    open(alloc, formatted(alloc)?)
}

/// The desk on the disk that another one leaves.
fn open_again(
    alloc: Global,
    desk: Desk<MemDisk, Standing>,
) -> Result<Desk<MemDisk, Standing>, Fail> {
    open(alloc, close(desk))
}

// Each call of the desk stands in one helper, so that its clauses are seen there alone. A test that has a desk of its own closes it before it
// asks what came, since each way out of a function drops what it owns.

/// Hands the disk back.
fn close(desk: Desk<MemDisk, Standing>) -> MemDisk {
    desk.close()
}

/// The data set at a place of the library.
fn listed_at(desk: &Desk<MemDisk, Standing>, place: u32) -> Option<Listed> {
    desk.set_at(place)
}

/// Submits cards. None where they haven't 81 bytes each, or are more than a hundred.
fn submitted(
    desk: &mut Desk<MemDisk, Standing>,
    cards: &[u8],
) -> Option<Result<Submitted, DeskError>> {
    if cards.len() % 81 != 0 || cards.len() < 81 || 8_100 < cards.len() {
        return None;
    }
    Some(desk.submit(cards))
}

/// Purges a job.
fn purge(desk: &mut Desk<MemDisk, Standing>, job: u32) -> Result<bool, DeskError> {
    desk.purge(job)
}

/// One turn of the first initiator. None where the layout has none.
fn turned(desk: &mut Desk<MemDisk, Standing>) -> Option<Result<Reply, DeskError>> {
    if desk.layout().initiators < 1 {
        return None;
    }
    Some(desk.turn(Turn {
        initiator: 1,
        fail: None,
    }))
}

#[test]
fn opened_again(rt: HostRuntime) -> Result<(), Fail> {
    let desk = fresh(rt.alloc())?;
    let before = desk.runs().is_empty();
    let again = open_again(rt.alloc(), desk)?;
    let behind = again.runs().is_empty() && again.layout().book == 100_000;
    close(again);
    assert!(rt; before && behind);
    Ok(())
}

#[test]
fn never_formatted(rt: HostRuntime) -> Result<(), Fail> {
    let alloc = rt.alloc();
    let zeros = MemDisk::new(alloc, 512, Vec::new(alloc), None)?;
    match Desk::open_on(alloc, zeros, Some(Standing(Answer::Yes))) {
        Ok(_) => Err("it was never formatted".into()),
        Err(opening) => {
            assert!(rt; matches!(opening.error, OpenError::NotFormatted));
            Ok(())
        }
    }
}

/// The cards of these lines, of at most 80 bytes, as a reader stores them.
fn cards_of(alloc: Global, lines: &[&[u8]]) -> Result<Vec<u8>, Fail> {
    let mut cards = Vec::new(alloc);
    for line in lines {
        for column in 0..80 {
            cards.push(line.get(column).copied().unwrap_or(b' '))?;
        }
        cards.push(0)?;
    }
    Ok(cards)
}

/// The cards of a copy of the record `ALPHA` to `OUT.A`.
fn copy_cards(alloc: Global) -> Result<Vec<u8>, Fail> {
    cards_of(
        alloc,
        &[
            b"//COPY1 JOB",
            b"//S1 EXEC PGM=COPY",
            b"//SYSUT1 DD *",
            b"ALPHA",
            b"/*",
            b"//SYSUT2 DD DSN=OUT.A,DISP=(NEW,CATLG),SPACE=(80,10)",
        ],
    )
}

/// What becomes of cards that are submitted.
fn submit(desk: &mut Desk<MemDisk, Standing>, cards: &[u8]) -> Result<Submitted, Fail> {
    Ok(submitted(desk, cards).ok_or("the cards have 81 bytes each")??)
}

/// Submits that copy.
fn submit_copy(alloc: Global, desk: &mut Desk<MemDisk, Standing>) -> Result<Submitted, Fail> {
    submit(desk, &copy_cards(alloc)?)
}

/// Submits two decks, and purges the first one's job; whether all is answered so.
fn submit_and_purge(alloc: Global, desk: &mut Desk<MemDisk, Standing>) -> Result<bool, Fail> {
    Ok(
        matches!(submit_copy(alloc, desk)?, Submitted::Job(1))
            && matches!(submit_copy(alloc, desk)?, Submitted::Job(2))
            && purge(desk, 1)?
            && !purge(desk, 1)?,
    )
}

#[test]
fn submitted_and_purged(rt: HostRuntime) -> Result<(), Fail> {
    let mut desk = fresh(rt.alloc())?;
    let answered = submit_and_purge(rt.alloc(), &mut desk)?;
    let again = open_again(rt.alloc(), desk)?;
    let runs = again.runs().len();
    close(again);
    assert!(rt; answered && runs == 2);
    Ok(())
}

/// What a turn of the first initiator answers.
fn turn(desk: &mut Desk<MemDisk, Standing>) -> Result<Reply, Fail> {
    Ok(turned(desk).ok_or("a layout has an initiator")??)
}

/// Whether the one data set that is listed has the record that the job copies, and nothing more.
fn has_copied(desk: &mut Desk<MemDisk, Standing>) -> Result<bool, Fail> {
    let name = DsName::read(b"OUT.A").ok_or("the name is well formed")?;
    let listed = listed_at(desk, 0).ok_or("a data set is listed")?;
    if listed.name != name || listed.set.length != 1 || listed_at(desk, 1).is_some() {
        return Ok(false);
    }
    let records = desk.records(&name)?.ok_or("no run holds it")?;
    let mut copied = records.as_slice().iter();
    Ok(
        copied
            .next()
            .is_some_and(|it| trimmed(it.bytes()) == b"ALPHA".as_slice())
            && copied.next().is_none(),
    )
}

/// Whether a turn is answered by the start of the step of the copy.
fn is_started(reply: &Reply) -> bool {
    match reply {
        Reply::Started { job: 1, step } => step.text() == b"S1".as_slice(),
        _ => false,
    }
}

/// Whether a turn is answered by the first record of the copy.
fn is_worked(reply: &Reply) -> bool {
    match reply {
        Reply::Worked {
            job: 1,
            step,
            taken: 1,
        } => step.text() == b"S1".as_slice(),
        _ => false,
    }
}

/// Runs the copy; whether each turn is answered so.
fn run_copy(alloc: Global, desk: &mut Desk<MemDisk, Standing>) -> Result<bool, Fail> {
    let started = matches!(submit_copy(alloc, desk)?, Submitted::Job(1))
        && matches!(turn(desk)?, Reply::Selected { job: 1 })
        && is_started(&turn(desk)?)
        && is_worked(&turn(desk)?);
    for _ in 0..3 {
        turn(desk)?;
    }
    Ok(started && matches!(turn(desk)?, Reply::Idle) && has_copied(desk)?)
}

#[test]
fn run_to_its_end(rt: HostRuntime) -> Result<(), Fail> {
    let mut desk = fresh(rt.alloc())?;
    let ran = run_copy(rt.alloc(), &mut desk)?;
    let mut again = open_again(rt.alloc(), desk)?;
    let kept = has_copied(&mut again)?;
    close(again);
    assert!(rt; ran && kept);
    Ok(())
}

/// Submits a copy of two records to a data set with space for one, and does the first unit of it; whether one record is written.
fn begin_long_copy(alloc: Global, desk: &mut Desk<MemDisk, Standing>) -> Result<bool, Fail> {
    let cards = cards_of(
        alloc,
        &[
            b"//COPY2 JOB",
            b"//S1 EXEC PGM=COPY",
            b"//SYSUT1 DD *",
            b"ALPHA",
            b"BETA",
            b"/*",
            b"//SYSUT2 DD DSN=OUT.A,DISP=(NEW,CATLG),SPACE=(80,1)",
        ],
    )?;
    submit(desk, &cards)?;
    for _ in 0..3 {
        turn(desk)?;
    }
    Ok(listed_at(desk, 0).is_some_and(|it| it.set.length == 1))
}

/// Fills the book with decks, and then by purging their jobs, until fewer than 11 bytes of it are left.
fn fill_book(alloc: Global, desk: &mut Desk<MemDisk, Standing>) -> Result<(), Fail> {
    let cards = copy_cards(alloc)?;
    for _ in 0..1_000 {
        if !submitted(desk, &cards).is_some_and(|it| it.is_ok()) {
            break;
        }
    }
    for job in 2..1_000 {
        match purge(desk, job) {
            Ok(_) => {}
            Err(DeskError::BookFull { .. }) => return Ok(()),
            Err(error) => return Err(error.into()),
        }
    }
    Err("the book is never full".into())
}

/// What the event of a turn of the first initiator needs, and the room of the book, where it has no room.
fn lack_in_turn(desk: &mut Desk<MemDisk, Standing>) -> Option<(u32, u32)> {
    match turned(desk) {
        Some(Err(DeskError::BookFull { need, room })) => Some((need, room)),
        _ => None,
    }
}

/// Whether a turn has no room for its event, of 19 bytes, and the next one neither.
fn has_no_room_twice(desk: &mut Desk<MemDisk, Standing>) -> bool {
    let first = lack_in_turn(desk);
    let second = lack_in_turn(desk);
    first.is_some_and(|(need, room)| need == 25 && room < 11)
        && first == second
        && listed_at(desk, 0).is_some_and(|it| it.set.length == 1)
}

/// Whether a long copy is begun, and has no room for its next event once the book is full.
fn is_out_of_room(alloc: Global, desk: &mut Desk<MemDisk, Standing>) -> Result<bool, Fail> {
    let begun = begin_long_copy(alloc, desk)?;
    fill_book(alloc, desk)?;
    Ok(begun && has_no_room_twice(desk))
}

#[test]
fn no_room_for_the_event_of_a_unit(rt: HostRuntime) -> Result<(), Fail> {
    let mut desk = fresh(rt.alloc())?;
    let full = is_out_of_room(rt.alloc(), &mut desk)?;
    close(desk);
    assert!(rt; full);
    Ok(())
}
