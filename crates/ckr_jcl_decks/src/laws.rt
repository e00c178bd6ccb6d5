//! What holds of every deck. Each law is the contract of a function that does nothing.
ghost use Rattle.std.specs.Prelude.{◌≡◌, List, length, Ok, Err};
ghost use Rattle.ckr_cards.specs.declared.card.Card.{Card};
ghost use Rattle.ckr_cards.specs.Statement.{statements_of};
ghost use Rattle.ckr_jcl.specs.declared.deck.Job.{Job as JobOfDeck};
ghost use Rattle.ckr_jcl_faults.specs.declared.faults.Fault.{Fault as FaultOfDeck};
ghost use Rattle.ckr_jcl_faults.specs.Faults.{nothing_seen};
ghost use Rattle.ckr_jcl_decks.specs.Deck.{deck_of};
ghost use Rattle.ckr_jcl_decks.specs.Least.{IsRefusal, AreSound, IsDeckJob};

/// A deck is refused by the least card, and then the least number, of the first statement that has
/// a fault of J01 to J11; where no statement has one, of the faults J12 to J24 of the whole deck.
#[tactic(auto, using(crate::proofs::Refusals::refusal_law))]
pub fn refusals_are_first_and_least()
    ensures { (cards : List Card) (fault : FaultOfDeck) → deck_of cards ≡ Err fault → IsRefusal (length cards) (statements_of cards) fault }
{}

/// A deck that is accepted has no fault, and its job is what its statements say.
pub fn accepted_decks_are_sound()
    ensures { (cards : List Card) (job : JobOfDeck) → deck_of cards ≡ Ok job → AreSound nothing_seen (statements_of cards) × IsDeckJob (length cards) (statements_of cards) job }
{}
