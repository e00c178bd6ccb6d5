//! Decks that are shared.
ghost use Rattle.std.specs.Prelude.{◌≡◌, IfErr, IfOk, IsSome};
ghost use Rattle.std.specs.Option.{option_map};
ghost use Rattle.std.specs.Rc.{rc_value};

use ckr_base::NoMemory;
use ckr_jcl::Job;
use std::alloc::Global;
use std::rc::Rc;

/// The same deck, to be shared, if there is one.
///
/// `NoMemory`: only where there is a deck.
pub fn shared_deck(alloc: Global, deck: Option<Job>) -> Result<Option<Rc<Job>>, NoMemory>
    ensures value { IfOk result (λ shared. option_map rc_value shared ≡ deck) }
    ensures takes { IfErr result (λ _. IsSome deck) }
{
    match deck {
        Some(deck) => Ok(Some(Rc::new(alloc, deck)?)),
        None => Ok(None),
    }
}
