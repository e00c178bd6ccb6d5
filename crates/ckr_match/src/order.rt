//! Which input's record is taken, and which are out of order.
ghost use Rattle.std.specs.Prelude.{◌≡◌, ◌≤◌, MatchOption};
ghost use Rattle.ckr_match.specs.Images.{keys_of};
ghost use Rattle.ckr_match.specs.Steps.{may_come, is_next};
ghost use Rattle.ckr_match.specs.InputOrder.{chosen, taken_of};

use crate::images::{has_transactions, is_below, key_of};
use crate::state::MatchState;
use ckr_base::{Heads, Rec};
use ckr_jcl::{Kind, Parm};

/// The record with the smaller key, the first input's where they are equal, and whether it is the second input's.
pub(crate) fn chosen<'a>(kind: Kind, parm: &Parm, heads: &'a Heads) -> Option<(bool, &'a Rec)>
    requires { parm.now.key.1 ≤ 32 }
    ensures { MatchOption result (chosen (keys_of kind parm.now) heads.now.first heads.now.second ≡ None) (λ next. chosen (keys_of kind parm.now) heads.now.first heads.now.second ≡ Some (taken_of next.0 next.1.now)) }
{
    match (&heads.first, &heads.second) {
        (None, None) => None,
        (Some(head), None) => Some((false, head)),
        (None, Some(head)) => Some((true, head)),
        (Some(head), Some(other)) => {
            let first = key_of(kind, parm, false, head.bytes());
            let second = key_of(kind, parm, true, other.bytes());
            if is_below(second.as_slice(), first.as_slice()) {
                Some((true, other))
            } else {
                Some((false, head))
            }
        }
    }
}

/// Whether a key may follow the last one of its input, of which `count` records were taken.
fn may_come(strict: bool, count: u32, last: &[u8], key: &[u8]) -> bool
    ensures { result ≡ may_come strict count last.now key.now }
{
    if count == 0 {
        return true;
    }
    if strict {
        is_below(last, key)
    } else {
        !is_below(key, last)
    }
}

/// Whether the record of this key is in order: masters ascend strictly.
pub(crate) fn is_next(state: &MatchState, second: bool, key: &[u8]) -> bool
    ensures { result ≡ is_next state.now second key.now }
{
    if second {
        may_come(false, state.second, state.second_key.as_slice(), key)
    } else {
        may_come(
            has_transactions(state.kind),
            state.first,
            state.first_key.as_slice(),
            key,
        )
    }
}
