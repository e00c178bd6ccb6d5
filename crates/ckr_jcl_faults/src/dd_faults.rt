//! The rules that are looked at DD by DD.
ghost use Rattle.std.specs.Prelude.{◌≡◌, ◌&&◌, ◌||◌, not, List, codes};
ghost use Rattle.std.specs.Option.{is_some, is_none};
ghost use Rattle.ckr_jcl_faults.specs.DdFaults.{is_new, is_old, is_shared, is_mod, is_temporary, is_referring_name, is_ill_formed, is_elsewhere, is_library, is_left_out_dd, breaks_role, keeps, is_wrong_use, is_out_of_space, wants_space, is_wrong_space, is_chkdd, is_out_of_length, is_wrong_record, breaks};
ghost use Rattle.ckr_jcl.specs.Programs.{is_unused};
ghost use Rattle.ckr_jcl_operands.specs.DcbValues.{is_unfixed_dcb};

use crate::deck_text::DdText;
use ckr_jcl::{After, Role, Status, is_spelled};
use ckr_jcl_operands::{DsnText, VolText};

/// A rule that is looked at DD by DD.
#[derive(Clone, Copy)]
pub enum DdRule {
    /// No form that this desk leaves out stands in it: J17.
    LeftOut,
    /// Its data set name is well formed: J18.
    IllNamed,
    /// Its role, its status and its name go together: J20.
    WrongUse,
    /// Its space is given, and within the limits: J21.
    WrongSpace,
    /// Its records are fixed, of 1 to 256 bytes: J22.
    WrongRecords,
}

/// Whether a data set name is a temporary one.
pub fn is_temporary(dsn: &Option<DsnText>) -> bool
    ensures { result ≡ is_temporary dsn.now }
{
    matches!(dsn, Some(DsnText::Passing(_)))
}

/// Whether a data set name is of a form that this desk leaves out.
fn is_referring_name(dsn: &Option<DsnText>) -> bool
    ensures { result ≡ is_referring_name dsn.now }
{
    matches!(dsn, Some(DsnText::Referring))
}

/// Whether a data set name is ill formed.
fn is_ill_formed(dsn: &Option<DsnText>) -> bool
    ensures { result ≡ is_ill_formed dsn.now }
{
    matches!(dsn, Some(DsnText::IllFormed))
}

/// Whether a volume is one of several, or a reference.
fn is_elsewhere(volume: &Option<VolText>) -> bool
    ensures { result ≡ is_elsewhere volume.now }
{
    matches!(volume, Some(VolText::Elsewhere))
}

/// Whether a DD is one of a library of programs.
fn is_library(name: &[u8]) -> bool
    ensures { result ≡ is_library name.now }
{
    is_spelled(b"JOBLIB", name) || is_spelled(b"STEPLIB", name)
}

/// Whether a DD has a form that this desk leaves out.
#[tactic(auto, unfolding(crate::specs::DdFaults::is_left_out_dd))]
fn is_left_out_dd(dd: &DdText) -> bool
    ensures { result ≡ is_left_out_dd dd.now }
{
    if is_referring_name(&dd.dsn) || is_elsewhere(&dd.volume) || dd.dcb.refers {
        return true;
    }
    is_library(dd.name.text()) || (dd.dummy && !is_unused(dd.role))
}

/// Whether a DD has no role.
const fn is_unused(role: Role) -> bool
    ensures { result ≡ is_unused role }
{
    matches!(role, Role::Unused)
}

/// Whether a data set is made.
const fn is_new(status: Status) -> bool
    ensures { result ≡ is_new status }
{
    matches!(status, Status::New)
}

/// Whether a data set is used alone.
pub const fn is_old(status: Status) -> bool
    ensures { result ≡ is_old status }
{
    matches!(status, Status::Old)
}

/// Whether a data set is shared.
pub const fn is_shared(status: Status) -> bool
    ensures { result ≡ is_shared status }
{
    matches!(status, Status::Shr)
}

/// Whether a data set is extended.
const fn is_mod(status: Status) -> bool
    ensures { result ≡ is_mod status }
{
    matches!(status, Status::Mod)
}

/// Whether its role doesn't allow the status or the place of the records of a DD.
#[tactic(auto, unfolding(crate::specs::DdFaults::breaks_role))]
fn breaks_role(role: Role, dd: &DdText) -> bool
    ensures { result ≡ breaks_role role dd.now }
{
    let status = dd.disp.status;
    match role {
        Role::Reads => (is_new(status) || is_mod(status)) && !dd.in_stream,
        Role::Writes => dd.in_stream || is_shared(status),
        Role::Updates => dd.in_stream || !is_old(status),
        Role::Checkpoints => dd.in_stream || is_shared(status) || dd.sysout,
        Role::Unused => false,
    }
}

/// Whether a disposition keeps a data set for other jobs.
const fn keeps(after: Option<After>) -> bool
    ensures { result ≡ keeps after }
{
    matches!(after, Some(After::Keep | After::Catlg | After::Uncatlg))
}

/// Whether the role, the status and the name of a DD don't go together.
#[tactic(auto, unfolding(crate::specs::DdFaults::is_wrong_use))]
fn is_wrong_use(dd: &DdText) -> bool
    ensures { result ≡ is_wrong_use dd.now }
{
    if breaks_role(dd.role, dd) {
        return true;
    }
    if is_temporary(&dd.dsn) && (keeps(dd.disp.normal) || keeps(dd.disp.abnormal)) {
        return true;
    }
    dd.dsn.is_none() && !is_new(dd.disp.status)
}

/// Whether a space is 0 or more than 1,000,000 records.
fn is_out_of_space(space: Option<u32>) -> bool
    ensures { result ≡ is_out_of_space space }
{
    match space {
        Some(records) => records < 1 || records > 1_000_000,
        None => false,
    }
}

/// Whether a DD that makes a data set lacks SPACE.
fn wants_space(dd: &DdText) -> bool
    ensures { result ≡ wants_space dd.now }
{
    if !is_new(dd.disp.status) || dd.space.is_some() {
        return false;
    }
    !(dd.sysout || dd.in_stream || dd.dummy)
}

/// Whether the space of a DD is missing or out of its limits.
#[tactic(auto, unfolding(crate::specs::DdFaults::is_wrong_space))]
fn is_wrong_space(dd: &DdText) -> bool
    ensures { result ≡ is_wrong_space dd.now }
{
    wants_space(dd) || is_out_of_space(dd.space)
}

/// Whether checkpoints are written to a DD.
pub fn is_chkdd(dd: &DdText) -> bool
    ensures { result ≡ is_chkdd dd.now }
{
    is_spelled(b"CHKDD", dd.name.text())
}

/// Whether a record length is 0 or more than 256.
fn is_out_of_length(length: Option<u16>) -> bool
    ensures { result ≡ is_out_of_length length }
{
    match length {
        Some(bytes) => bytes < 1 || bytes > 256,
        None => false,
    }
}

/// Whether the records of a DD aren't fixed, or out of their limits.
#[tactic(auto, unfolding(crate::specs::DdFaults::is_wrong_record))]
fn is_wrong_record(dd: &DdText) -> bool
    ensures { result ≡ is_wrong_record dd.now }
{
    if is_chkdd(dd) {
        return false;
    }
    dd.dcb.unfixed.unwrap_or(false) || is_out_of_length(dd.dcb.length)
}

/// Whether a DD breaks a rule.
#[tactic(auto, unfolding(crate::specs::DdFaults::breaks))]
pub fn breaks(rule: DdRule, dd: &DdText) -> bool
    ensures { result ≡ breaks rule dd.now }
{
    match rule {
        DdRule::LeftOut => is_left_out_dd(dd),
        DdRule::IllNamed => is_ill_formed(&dd.dsn),
        DdRule::WrongUse => is_wrong_use(dd),
        DdRule::WrongSpace => is_wrong_space(dd),
        DdRule::WrongRecords => is_wrong_record(dd),
    }
}
