//! Whether two steps have the same statements.
ghost use Rattle.std.specs.Prelude.{◌≡◌, ◌==◌};
ghost use Rattle.std.specs.Cmp.Lexicographic.{pointwise};
ghost use Rattle.std.specs.Option.{option_eq};
ghost use Rattle.ckr_points.specs.Statements.{kind_number, same_after, same_cond, same_dd, same_disp, same_origin, same_parm, same_statements, status_number};

use ckr_jcl::{After, Cond, Dd, Disp, Kind, Origin, Parm, Status, Step};

/// Whether the programs are the same.
fn same_program(first: Kind, second: Kind) -> bool
    ensures { result ≡ (kind_number first == kind_number second) }
{
    first == second
}

/// Whether the statuses are the same.
fn same_status(first: Status, second: Status) -> bool
    ensures { result ≡ (status_number first == status_number second) }
{
    first == second
}

/// Whether the same is written of what becomes of a data set.
fn same_after(first: Option<After>, second: Option<After>) -> bool
    ensures { result ≡ option_eq same_after first second }
{
    first == second
}

/// Whether the dispositions are the same, as they are written: what isn't given isn't the same as what it stands for.
fn same_disp(first: Disp, second: Disp) -> bool
    ensures { result ≡ same_disp first second }
{
    same_status(first.status, second.status)
        && same_after(first.normal, second.normal)
        && same_after(first.abnormal, second.abnormal)
}

/// Whether the records of two DDs are in the same place; records in the deck are compared.
fn same_origin(first: &Origin, second: &Origin) -> bool
    ensures { result ≡ same_origin first.now second.now }
{
    match (first, second) {
        (Origin::InStream(cards), Origin::InStream(others)) => {
            cards.as_slice() == others.as_slice()
        }
        (Origin::Named(name), Origin::Named(other)) => name == other,
        (Origin::Temporary(name), Origin::Temporary(other)) => name == other,
        (Origin::Unnamed, Origin::Unnamed)
        | (Origin::Sysout, Origin::Sysout)
        | (Origin::Dummy, Origin::Dummy) => true,
        _ => false,
    }
}

/// Whether two DDs say the same.
fn same_dd(first: &Dd, second: &Dd) -> bool
    ensures { result ≡ same_dd first.now second.now }
{
    first.name == second.name
        && same_origin(&first.origin, &second.origin)
        && same_disp(first.disp, second.disp)
        && first.volumes.as_slice() == second.volumes.as_slice()
        && first.space == second.space
        && first.lrecl == second.lrecl
}

/// Whether the DDs of two steps say the same, in the same order.
fn same_dds(first: &[Dd], second: &[Dd]) -> bool
    ensures { result ≡ pointwise same_dd first.now second.now }
{
    match (first, second) {
        ([], []) => true,
        ([one, rest @ ..], [other, others @ ..]) => same_dd(one, other) && same_dds(rest, others),
        _ => false,
    }
}

/// Whether two tests of return codes are the same.
fn same_cond(first: &Cond, second: &Cond) -> bool
    ensures { result ≡ same_cond first.now second.now }
{
    first == second
}

/// Whether the tests of two steps are the same, in the same order.
fn same_conds(first: &[Cond], second: &[Cond]) -> bool
    ensures { result ≡ pointwise same_cond first.now second.now }
{
    match (first, second) {
        ([], []) => true,
        ([one, rest @ ..], [other, others @ ..]) => {
            same_cond(one, other) && same_conds(rest, others)
        }
        _ => false,
    }
}

/// Whether PARM says the same.
fn same_parm(first: &Parm, second: &Parm) -> bool
    ensures { result ≡ same_parm first.now second.now }
{
    first == second
}

/// Whether two steps have the same statements: their names, programs, PARMs and tests, and their DDs in the same order. RD isn't
/// compared, and records in the deck are (IBM GC28-6708, this project's profile).
pub fn same_statements(first: &Step, second: &Step) -> bool
    ensures { result ≡ same_statements first.now second.now }
{
    first.name == second.name
        && same_program(first.program, second.program)
        && same_parm(&first.parm, &second.parm)
        && same_conds(first.cond.as_slice(), second.cond.as_slice())
        && same_dds(first.dds.as_slice(), second.dds.as_slice())
}
