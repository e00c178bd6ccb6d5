//! What no clause says: the actions, the names and the uses as the rules have them.

use crate::decks::job_of;
use arrayvec::ArrayVec;
use ckr_base::{DsName, Name8, NoMemory};
use ckr_jcl::{After, Cards, Dd, Disp, Origin, Role, Status};
use ckr_uses::{Use, Uses, dispose, holds, library_name, uses_of};
use std::alloc::Global;
use std::test::Fail;

static STATUSES: [Status; 4] = [Status::New, Status::Old, Status::Shr, Status::Mod];

/// A normal disposition of a data set, whether it is temporary and whether the step made it, and the action at a normal
/// end, and at an abnormal one for which nothing was written.
type DefaultRow = (Option<After>, bool, bool, After, After);

static DEFAULT_ROWS: [DefaultRow; 18] = [
    (None, false, false, After::Keep, After::Keep),
    (None, false, true, After::Delete, After::Delete),
    (None, true, false, After::Delete, After::Delete),
    (
        Some(After::Delete),
        false,
        false,
        After::Delete,
        After::Delete,
    ),
    (
        Some(After::Delete),
        false,
        true,
        After::Delete,
        After::Delete,
    ),
    (
        Some(After::Delete),
        true,
        false,
        After::Delete,
        After::Delete,
    ),
    (Some(After::Keep), false, false, After::Keep, After::Keep),
    (Some(After::Keep), false, true, After::Keep, After::Keep),
    (Some(After::Keep), true, false, After::Keep, After::Keep),
    (Some(After::Pass), false, false, After::Pass, After::Keep),
    (Some(After::Pass), false, true, After::Pass, After::Delete),
    (Some(After::Pass), true, false, After::Pass, After::Delete),
    (Some(After::Catlg), false, false, After::Catlg, After::Catlg),
    (Some(After::Catlg), false, true, After::Catlg, After::Catlg),
    (Some(After::Catlg), true, false, After::Catlg, After::Catlg),
    (
        Some(After::Uncatlg),
        false,
        false,
        After::Uncatlg,
        After::Uncatlg,
    ),
    (
        Some(After::Uncatlg),
        false,
        true,
        After::Uncatlg,
        After::Uncatlg,
    ),
    (
        Some(After::Uncatlg),
        true,
        false,
        After::Uncatlg,
        After::Uncatlg,
    ),
];

/// The actions are those of the row.
fn goes_by_default(status: Status, row: &DefaultRow) -> bool {
    let (normal, temporary, made, at_normal, at_abnormal) = *row;
    let disp = Disp {
        status,
        normal,
        abnormal: None,
    };
    dispose(temporary, &disp, made, false) == at_normal
        && dispose(temporary, &disp, made, true) == at_abnormal
}

fn all_go_by_default(status: Status) -> bool {
    for row in &DEFAULT_ROWS {
        if !goes_by_default(status, row) {
            return false;
        }
    }
    true
}

#[test]
fn what_is_not_written_goes_by_default(rt: HostRuntime) {
    for status in &STATUSES {
        assert!(rt; all_go_by_default(*status));
    }
}

static ABNORMALS: [After; 4] = [After::Delete, After::Keep, After::Catlg, After::Uncatlg];

static NORMALS: [After; 5] = [
    After::Delete,
    After::Keep,
    After::Pass,
    After::Catlg,
    After::Uncatlg,
];

/// Whether a data set is temporary, and whether the step made it.
static KINDS: [(bool, bool); 4] = [(false, false), (false, true), (true, false), (true, true)];

/// An abnormal disposition that is written holds at an abnormal end alone.
fn goes_as_written(abnormal: After, normal: After, kind: &(bool, bool)) -> bool {
    let disp = Disp {
        status: Status::Mod,
        normal: Some(normal),
        abnormal: Some(abnormal),
    };
    dispose(kind.0, &disp, kind.1, false) == normal
        && dispose(kind.0, &disp, kind.1, true) == abnormal
}

fn each_kind_goes_as_written(abnormal: After, normal: After) -> bool {
    for kind in &KINDS {
        if !goes_as_written(abnormal, normal, kind) {
            return false;
        }
    }
    true
}

fn all_go_as_written(abnormal: After) -> bool {
    for normal in &NORMALS {
        if !each_kind_goes_as_written(abnormal, *normal) {
            return false;
        }
    }
    true
}

#[test]
fn what_is_written_for_an_abnormal_end(rt: HostRuntime) {
    for abnormal in &ABNORMALS {
        assert!(rt; all_go_as_written(*abnormal));
    }
}

/// The name of the data set of SYSUT2 of step LIST, with root 12 and owner 9,999,999.
fn name_of(origin: Origin) -> Option<DsName> {
    let step = Name8::read(b"LIST")?;
    let dd = Dd {
        name: Name8::read(b"SYSUT2")?,
        role: Role::Unused,
        origin,
        disp: Disp {
            status: Status::New,
            normal: None,
            abnormal: None,
        },
        volumes: ArrayVec::new(),
        space: None,
        lrecl: 80,
    };
    library_name(&dd, 12, 9_999_999, &step)
}

fn is_written(name: Option<DsName>, text: &[u8]) -> bool {
    match name {
        Some(name) => name.text() == text,
        None => false,
    }
}

/// The data set of an origin has this name.
fn is_named(origin: Origin, text: &[u8]) -> bool {
    is_written(name_of(origin), text)
}

fn named() -> Option<Origin> {
    Some(Origin::Named(DsName::read(b"PAY.MASTER.NEW")?))
}

fn temporary() -> Option<Origin> {
    Some(Origin::Temporary(Name8::read(b"WORK")?))
}

#[test]
fn names_in_the_library(rt: HostRuntime) -> Result<(), Fail> {
    let named = named().ok_or("a name")?;
    let temporary = temporary().ok_or("a name")?;
    assert!(rt; is_named(named, b"PAY.MASTER.NEW"));
    assert!(rt; is_named(temporary, b"SYSTEMP.J0000012.WORK"));
    assert!(rt; is_named(Origin::Unnamed, b"SYSTEMP.J0000012.LIST.SYSUT2"));
    assert!(rt; is_named(Origin::Sysout, b"SYSOUT.J9999999.LIST.SYSUT2"));
    assert!(rt; name_of(Origin::Dummy).is_none());
    assert!(rt; name_of(Origin::InStream(Cards::new(rt.alloc()))).is_none());
    Ok(())
}

/// The uses of a deck, as the run of this number; none where it is no accepted deck.
fn uses(alloc: Global, run: u32, lines: &[&[u8]]) -> Result<Uses, NoMemory> {
    match job_of(alloc, lines)? {
        Some(job) if run <= 9_999_999 => Ok(uses_of(alloc, run, &job)?),
        _ => Ok(Uses::new(alloc)),
    }
}

const OLD: [&[u8]; 3] = [
    b"//A JOB",
    b"//S EXEC PGM=IEFBR14",
    b"//D DD DSN=X.A,DISP=OLD",
];

const SHARED: [&[u8]; 3] = [
    b"//B JOB",
    b"//S EXEC PGM=IEFBR14",
    b"//D DD DSN=X.A,DISP=SHR",
];

const DELETED: [&[u8]; 3] = [
    b"//C JOB",
    b"//S EXEC PGM=IEFBR14",
    b"//D DD DSN=X.A,DISP=(SHR,KEEP,DELETE)",
];

const OTHER: [&[u8]; 3] = [
    b"//D JOB",
    b"//S EXEC PGM=IEFBR14",
    b"//D DD DSN=X.B,DISP=OLD",
];

const RESTARTED: [&[u8]; 3] = [
    b"//E JOB RESTART=S",
    b"//S EXEC PGM=IEFBR14",
    b"//D DD DSN=X.A,DISP=SHR",
];

/// Two decks, and whether a run of the first holds one of the second.
type HoldRow = (&'static [&'static [u8]], &'static [&'static [u8]], bool);

static HOLD_ROWS: [HoldRow; 6] = [
    (&OLD, &OLD, true),
    (&SHARED, &SHARED, false),
    (&OLD, &SHARED, true),
    (&DELETED, &SHARED, true),
    (&OLD, &OTHER, false),
    (&RESTARTED, &SHARED, true),
];

fn is_held(alloc: Global, row: &HoldRow) -> Result<bool, NoMemory> {
    let first = uses(alloc, 1, row.0)?;
    let second = uses(alloc, 2, row.1)?;
    let held = holds(first.as_slice(), second.as_slice());
    Ok(!first.as_slice().is_empty() && !second.as_slice().is_empty() && held == row.2)
}

#[test]
fn runs_that_hold(rt: HostRuntime) -> Result<(), Fail> {
    for (place, row) in HOLD_ROWS.iter().enumerate() {
        assert!(rt; is_held(rt.alloc(), row)?, "row {place}");
    }
    Ok(())
}

/// Whether the uses are of these names, exclusive or not.
fn are_uses(uses: &[Use], wanted: &[(&[u8], bool)]) -> bool {
    uses.len() == wanted.len()
        && uses.iter().zip(wanted).all(|(used, (name, exclusive))| used.name.text() == *name
            && used.exclusive == *exclusive)
}

/// A run, its deck, and its uses: one for each name, SYSCHK's included; a run with RESTART has its job's name in those of its
/// own data sets.
type UseRow = (
    u32,
    &'static [&'static [u8]],
    &'static [(&'static [u8], bool)],
);

static USE_ROWS: [UseRow; 2] = [
    (
        7,
        &[
            b"//A JOB",
            b"//S EXEC PGM=IEFBR14",
            b"//D DD DSN=X.A,DISP=SHR",
            b"//T EXEC PGM=IEFBR14",
            b"//F DD DSN=X.A,DISP=OLD",
            b"//G DD SYSOUT=A",
            b"//H DD DUMMY",
        ],
        &[(b"X.A", true), (b"SYSOUT.J0000007.T.G", true)],
    ),
    (
        8,
        &[
            b"//A JOB RESTART=(S,C0000001)",
            b"//SYSCHK DD DSN=CHK.A,DISP=OLD",
            b"//S EXEC PGM=IEFBR14",
            b"//D DD DSN=&&W,SPACE=(80,1)",
        ],
        &[(b"SYSTEMP.A.W", true), (b"CHK.A", true)],
    ),
];

fn has_uses(alloc: Global, row: &UseRow) -> Result<bool, NoMemory> {
    let (run, lines, wanted) = *row;
    Ok(are_uses(uses(alloc, run, lines)?.as_slice(), wanted))
}

#[test]
fn uses_of_a_deck(rt: HostRuntime) -> Result<(), Fail> {
    for row in &USE_ROWS {
        assert!(rt; has_uses(rt.alloc(), row)?, "run {}", row.0);
    }
    Ok(())
}
