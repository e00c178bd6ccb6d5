//! What becomes of a data set at the end of a step.
ghost use Rattle.std.specs.Prelude.{◌≡◌};
ghost use Rattle.ckr_uses.specs.Disposal.{by_maker, dispose, is_temporary, normal_after, without_pass};

use ckr_jcl::{After, Disp, Origin};

/// The action at the end of a step.
pub const fn dispose(temporary: bool, disp: &Disp, made: bool, abnormal: bool) -> After
    ensures { result ≡ dispose temporary disp.now made abnormal }
{
    let goes = temporary || made;
    if !abnormal {
        return normal_after(goes, disp);
    }
    match disp.abnormal {
        Some(after) => after,
        None => without_pass(goes, normal_after(goes, disp)),
    }
}

/// `Delete` where the data set goes with its maker, else `Keep`.
const fn by_maker(goes: bool) -> After
    ensures { result ≡ by_maker goes }
{
    if goes { After::Delete } else { After::Keep }
}

/// The normal disposition, written or by default.
const fn normal_after(goes: bool, disp: &Disp) -> After
    ensures { result ≡ normal_after goes disp.now }
{
    match disp.normal {
        Some(after) => after,
        None => by_maker(goes),
    }
}

/// The same with PASS replaced.
const fn without_pass(goes: bool, after: After) -> After
    ensures { result ≡ without_pass goes after }
{
    match after {
        After::Pass => by_maker(goes),
        other => other,
    }
}

/// Whether a data set is temporary, as the default dispositions go: one of a name with `&&`, or of no name.
pub const fn is_temporary(origin: &Origin) -> bool
    ensures { result ≡ is_temporary origin.now }
{
    matches!(origin, Origin::Temporary(_) | Origin::Unnamed)
}
