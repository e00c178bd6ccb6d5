//! Programs on a small disk, one after the other.

use super::{Case, End, Source};
use ckr_base::Code;
use ckr_jcl::Kind;

const FULL: Code = Code::System(0xB37);

pub(super) static CASES: [Case; 6] = [
    (
        Kind::Copy,
        b"CHK=2,CANCEL=1",
        &[
            (b"SYSUT1", Source::Deck(&[b"X1", b"X2", b"X3", b"X4"])),
            (b"SYSUT2", Source::Set(b"A")),
        ],
        End::Abend(FULL, 3),
    ),
    (
        Kind::Copy,
        b"CHK=2,CANCEL=1",
        &[
            (b"SYSUT1", Source::Deck(&[b"1A", b"1B", b"3C"])),
            (b"SYSUT2", Source::Set(b"B")),
        ],
        End::Returned(0, 3),
    ),
    (
        Kind::Select,
        b"COL=1,VAL=1",
        &[
            (b"SYSUT1", Source::Set(b"B")),
            (b"SYSUT2", Source::Set(b"C")),
        ],
        End::Returned(0, 2),
    ),
    (
        Kind::Merge,
        b"KEY=1:1",
        &[
            (b"IN1", Source::Set(b"B")),
            (b"IN2", Source::Deck(&[b"2D"])),
            (b"OUT", Source::Set(b"D")),
        ],
        End::Abend(FULL, 1),
    ),
    // By the second byte of the images of `A`; the rejects go to `D`.
    (
        Kind::Update,
        b"KEY=2:1",
        &[
            (b"MASTER", Source::Set(b"A")),
            (b"TRANS", Source::Deck(&[b"CY2"])),
            (b"REJECTS", Source::Set(b"D")),
        ],
        End::Returned(0, 1),
    ),
    (
        Kind::Update,
        b"KEY=2:1",
        &[
            (b"MASTER", Source::Set(b"A")),
            (b"TRANS", Source::Deck(&[b"CZ4"])),
            (b"REJECTS", Source::Set(b"D")),
        ],
        End::Abend(FULL, 0),
    ),
];
