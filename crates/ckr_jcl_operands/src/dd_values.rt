//! The values of DSN, DISP, VOL, SPACE and SYSOUT.
ghost use Rattle.std.specs.Prelude.{◌≡◌, ◌*◌, ◌≤◌, ◌==◌, ◌&&◌, ◌||◌, not, IsTrue, IfSome, length, unwrap_or};
ghost use Rattle.std.specs.List.{list_any, list_all};
ghost use Rattle.std.specs.Option.{option_map, option_copied, is_some};
ghost use Rattle.ckr_base.specs.Grammar.{is_letter, is_digit, is_name8, is_ds_name, is_serial};
ghost use Rattle.ckr_cards.specs.Card.{begins};
ghost use Rattle.ckr_cards.specs.Field.{parts_of};
ghost use Rattle.ckr_cards.specs.Tables.{look_up};
ghost use Rattle.ckr_jcl.specs.Text.{number_value, before, opened, item_at, is_empty_or, or_empty};
ghost use Rattle.ckr_jcl.specs.Qualifiers.{first_qualifier, is_kept_name};
ghost use Rattle.ckr_jcl_operands.specs.DdValues.{is_backward, is_parenthesis, is_referring, is_passing, passing_name, permanent_name, dsn_value, statuses, abnormal_ends, passes, status_named, abnormal_end, normal_end, disp_of, disp_from, disp_in, disp_listed, disp_value, serial_value, serials_value, serials_listed, volume_part, volume_in, volume_listed, vol_value, unit_value, quantity_in, quantity_listed, quantity_value, is_release, product, space_in, space_listed, space_value, is_class, is_class_first, is_sysout};

use ckr_base::{DsName, Name8, Volser};
use ckr_cards::part_length;
use ckr_jcl::{
    After, Disp, Status, before, begins_list, begins_quoted, in_parentheses, is_empty_or,
    is_spelled, item_at, item_count, number_value, opened,
};

/// The value of DSN.
#[derive(Drop)]
pub enum DsnText {
    Permanent(DsName),
    /// `&&` and a name.
    Passing(Name8),
    /// A name with a member, a generation or a backward reference, or in apostrophes.
    Referring,
    /// A name that is ill formed in another way, or one that the desk keeps for itself.
    IllFormed,
}

/// The value of VOL.
#[derive(Drop)]
pub enum VolText {
    Serial(Volser),
    /// `PRIVATE` alone.
    Private,
    /// Several serials, or a reference.
    Elsewhere,
}

/// Whether a text is a backward reference.
#[tactic(auto, unfolding(crate::specs::DdValues::is_backward))]
pub(crate) fn is_backward(text: &[u8]) -> bool
    ensures { result ≡ is_backward text.now }
{
    text.starts_with(b"*.")
}

/// Whether a text has a parenthesis.
fn has_parenthesis(text: &[u8]) -> bool
    ensures { result ≡ list_any is_parenthesis text.now }
{
    text.iter().any(|byte| *byte == b'(' || *byte == b')')
}

/// Whether a data set name is of a form that this desk leaves out.
#[tactic(auto, unfolding(crate::specs::DdValues::is_referring))]
fn is_referring(text: &[u8]) -> bool
    ensures { result ≡ is_referring text.now }
{
    begins_quoted(text) || is_backward(text) || has_parenthesis(text)
}

/// Whether a data set name is a temporary one.
#[tactic(auto, unfolding(crate::specs::DdValues::is_passing))]
fn is_passing(text: &[u8]) -> bool
    ensures value { result ≡ is_passing text.now }
    ensures bound { IsTrue result → 2 ≤ length text.now }
{
    text.starts_with(b"&&")
}

/// Whether the desk keeps a name for itself.
#[tactic(auto, unfolding(ckr_jcl::specs::Qualifiers::is_kept_name))]
fn is_kept_name(text: &[u8]) -> bool
    ensures { result ≡ is_kept_name text.now }
{
    let qualifier = before(b'.', text);
    is_spelled(b"SYSOUT", qualifier) || is_spelled(b"SYSTEMP", qualifier)
}

/// A temporary name.
fn passing_name(name: &[u8]) -> DsnText
    ensures { result ≡ passing_name name.now }
{
    match Name8::read(name) {
        Some(name) => DsnText::Passing(name),
        None => DsnText::IllFormed,
    }
}

/// A data set name.
fn permanent_name(text: &[u8]) -> DsnText
    ensures { result ≡ permanent_name text.now }
{
    if is_kept_name(text) {
        return DsnText::IllFormed;
    }
    match DsName::read(text) {
        Some(name) => DsnText::Permanent(name),
        None => DsnText::IllFormed,
    }
}

/// The value of DSN.
#[tactic(auto, unfolding(crate::specs::DdValues::dsn_value))]
pub fn dsn_value(text: &[u8]) -> DsnText
    ensures { result ≡ dsn_value text.now }
{
    if is_referring(text) {
        return DsnText::Referring;
    }
    if is_passing(text) {
        return passing_name(&text[2..]);
    }
    permanent_name(text)
}

/// The status that a text names.
fn status_named(text: &[u8]) -> Option<Status>
    ensures { result ≡ status_named text.now }
{
    if is_spelled(b"NEW", text) {
        return Some(Status::New);
    }
    if is_spelled(b"OLD", text) {
        return Some(Status::Old);
    }
    if is_spelled(b"SHR", text) {
        return Some(Status::Shr);
    }
    if is_spelled(b"MOD", text) {
        return Some(Status::Mod);
    }
    None
}

/// The abnormal disposition that a text names.
fn abnormal_end(text: &[u8]) -> Option<After>
    ensures { result ≡ abnormal_end text.now }
{
    if is_spelled(b"DELETE", text) {
        return Some(After::Delete);
    }
    if is_spelled(b"KEEP", text) {
        return Some(After::Keep);
    }
    if is_spelled(b"CATLG", text) {
        return Some(After::Catlg);
    }
    if is_spelled(b"UNCATLG", text) {
        return Some(After::Uncatlg);
    }
    None
}

/// The normal disposition that a text names.
fn normal_end(text: &[u8]) -> Option<After>
    ensures { result ≡ normal_end text.now }
{
    if is_spelled(b"PASS", text) {
        return Some(After::Pass);
    }
    abnormal_end(text)
}

/// The status of a DISP; the outer None is a text that names none.
fn status_part(text: &[u8]) -> Option<Option<Status>>
    ensures { result ≡ or_empty status_named text.now }
{
    if text.is_empty() {
        return Some(None);
    }
    Some(Some(status_named(text)?))
}

/// The normal disposition of a DISP.
fn normal_part(text: &[u8]) -> Option<Option<After>>
    ensures { result ≡ or_empty normal_end text.now }
{
    if text.is_empty() {
        return Some(None);
    }
    Some(Some(normal_end(text)?))
}

/// The abnormal disposition of a DISP.
fn abnormal_part(text: &[u8]) -> Option<Option<After>>
    ensures { result ≡ or_empty abnormal_end text.now }
{
    if text.is_empty() {
        return Some(None);
    }
    Some(Some(abnormal_end(text)?))
}

/// The disposition of a status, NEW where it is omitted, and of what follows.
pub fn disp_of(status: Option<Status>, normal: Option<After>, abnormal: Option<After>) -> Disp
    ensures { result ≡ disp_of status normal abnormal }
{
    Disp {
        status: status.unwrap_or(Status::New),
        normal,
        abnormal,
    }
}

/// The disposition of a list.
#[tactic(auto, unfolding(crate::specs::DdValues::disp_in))]
fn disp_in(list: &[u8]) -> Option<Disp>
    ensures { result ≡ disp_in (parts_of list.now) }
{
    if item_count(list) > 3 {
        return None;
    }
    let status = status_part(item_at(0, list))?;
    let normal = normal_part(item_at(1, list))?;
    let abnormal = abnormal_part(item_at(2, list))?;
    Some(disp_of(status, normal, abnormal))
}

/// The value of DISP.
#[tactic(auto, unfolding(crate::specs::DdValues::disp_value))]
pub fn disp_value(text: &[u8]) -> Option<Disp>
    ensures { result ≡ disp_value text.now }
{
    match opened(text) {
        Some(list) => disp_in(list),
        None => None,
    }
}

/// One serial.
fn serial_value(text: &[u8]) -> Option<VolText>
    ensures { result ≡ serial_value text.now }
{
    match Volser::read(text) {
        Some(serial) => Some(VolText::Serial(serial)),
        None => None,
    }
}

/// Whether a text is a serial.
fn is_serial(text: &[u8]) -> bool
    ensures { result ≡ is_serial text.now }
{
    Volser::read(text).is_some()
}

/// Whether each item is a serial.
fn are_serials(list: &[u8]) -> bool
    ensures { result ≡ list_all is_serial (parts_of list.now) }
{
    let mut rest = list;
    loop {
        let length = part_length(rest);
        if !is_serial(&rest[..length]) {
            return false;
        }
        if length == rest.len() {
            return true;
        }
        rest = &rest[length + 1..];
    }
}

/// One serial, or several.
#[tactic(auto, unfolding(crate::specs::DdValues::serials_value))]
fn serials_value(list: &[u8]) -> Option<VolText>
    ensures { result ≡ serials_value (parts_of list.now) }
{
    if item_count(list) == 1 {
        return serial_value(item_at(0, list));
    }
    if are_serials(list) {
        return Some(VolText::Elsewhere);
    }
    None
}

/// `SER=` and serials, or `REF=` and any text.
#[tactic(auto, unfolding(crate::specs::DdValues::volume_part))]
fn volume_part(text: &[u8]) -> Option<VolText>
    ensures { result ≡ volume_part text.now }
{
    if text.starts_with(b"SER=") {
        return match opened(&text[4..]) {
            Some(list) => serials_value(list),
            None => None,
        };
    }
    if text.starts_with(b"REF=") {
        return Some(VolText::Elsewhere);
    }
    None
}

/// `p,SER=v` or `p,r,SER=v`.
#[tactic(auto, unfolding(crate::specs::DdValues::volume_in))]
fn volume_in(list: &[u8]) -> Option<VolText>
    ensures { result ≡ volume_in (parts_of list.now) }
{
    if !is_empty_or(b"PRIVATE", item_at(0, list)) {
        return None;
    }
    let count = item_count(list);
    if count == 2 {
        return volume_part(item_at(1, list));
    }
    if count == 3 && is_empty_or(b"RETAIN", item_at(1, list)) {
        return volume_part(item_at(2, list));
    }
    None
}

/// The value of VOL.
#[tactic(auto, unfolding(crate::specs::DdValues::vol_value))]
pub fn vol_value(text: &[u8]) -> Option<VolText>
    ensures { result ≡ vol_value text.now }
{
    if begins_list(text) {
        return match in_parentheses(text) {
            Some(list) => volume_in(list),
            None => None,
        };
    }
    if is_spelled(b"PRIVATE", text) {
        return Some(VolText::Private);
    }
    volume_part(text)
}

/// How many records one unit of space has.
#[tactic(auto, unfolding(crate::specs::DdValues::unit_value))]
fn unit_value(text: &[u8]) -> Option<u32>
    ensures value { result ≡ unit_value text.now }
    ensures bound { IfSome result (λ records. records ≤ 2000) }
{
    if is_spelled(b"TRK", text) {
        return Some(100);
    }
    if is_spelled(b"CYL", text) {
        return Some(2000);
    }
    match number_value(text) {
        Some(_) => Some(1),
        None => None,
    }
}

/// `q` or `q,q2`.
#[tactic(auto, unfolding(crate::specs::DdValues::quantity_in))]
fn quantity_in(list: &[u8]) -> Option<u32>
    ensures { result ≡ quantity_in (parts_of list.now) }
{
    let count = item_count(list);
    if count == 1 || (count == 2 && number_value(item_at(1, list)).is_some()) {
        return number_value(item_at(0, list));
    }
    None
}

/// A quantity, of which the second one has no effect.
#[tactic(auto, unfolding(crate::specs::DdValues::quantity_value))]
fn quantity_value(text: &[u8]) -> Option<u32>
    ensures { result ≡ quantity_value text.now }
{
    match opened(text) {
        Some(list) => quantity_in(list),
        None => None,
    }
}

/// Whether what stands behind the quantity may stand there.
#[tactic(auto, unfolding(crate::specs::DdValues::is_release))]
fn is_release(list: &[u8]) -> bool
    ensures { result ≡ is_release (parts_of list.now) }
{
    let count = item_count(list);
    if count == 2 {
        return true;
    }
    if count == 3 {
        return is_spelled(b"RLSE", item_at(2, list));
    }
    count == 4 && is_empty_or(b"RLSE", item_at(2, list)) && is_spelled(b"CONTIG", item_at(3, list))
}

/// The space of a list in records, where 1,000,001 stands for each one that is too large.
#[tactic(auto, unfolding(crate::specs::DdValues::space_in))]
fn space_in(list: &[u8]) -> Option<u32>
    ensures { result ≡ space_in (parts_of list.now) }
{
    if !is_release(list) {
        return None;
    }
    let unit = unit_value(item_at(0, list))?;
    let quantity = quantity_value(item_at(1, list))?;
    let records = u64::from(unit) * u64::from(quantity);
    Some(records.min(1_000_001) as u32)
}

/// The value of SPACE in records.
#[tactic(auto, unfolding(crate::specs::DdValues::space_value))]
pub fn space_value(text: &[u8]) -> Option<u32>
    ensures { result ≡ space_value text.now }
{
    match in_parentheses(text) {
        Some(list) => space_in(list),
        None => None,
    }
}

/// Whether a text is an output class.
fn is_class(text: &[u8]) -> bool
    ensures { result ≡ is_class text.now }
{
    match text {
        [byte] => {
            (b'A' <= *byte && *byte <= b'Z') || (b'0' <= *byte && *byte <= b'9') || *byte == b'*'
        }
        _ => false,
    }
}

/// Whether a text is a value of SYSOUT.
#[tactic(auto, unfolding(crate::specs::DdValues::is_sysout))]
pub(crate) fn is_sysout(text: &[u8]) -> bool
    ensures { result ≡ is_sysout text.now }
{
    match opened(text) {
        Some(list) => is_class(item_at(0, list)),
        None => false,
    }
}
