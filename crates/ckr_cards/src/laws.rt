//! What holds of every deck and every stream. Each law is the contract of a function that does nothing.
ghost use Rattle.std.specs.Prelude.{◌≡◌, ℕ, List, ◌++◌};
ghost use Rattle.ckr_cards.specs.Card.{cards_of_lines, cards_in_bytes, stored_lines};
ghost use Rattle.ckr_cards.specs.declared.card.Card.{Card as CardOfDeck};
ghost use Rattle.ckr_cards.specs.Cut.{items_of_lines, line_kinds, all_lines};
ghost use Rattle.ckr_cards.specs.CutSteps.{run};
ghost use Rattle.ckr_cards.specs.Session.{handed_of, handed_by, handed_within, first_session, session_behind_all};
ghost use Rattle.ckr_cards.specs.CutProgress.{begin, behind_all, ended_items, items_behind};
ghost use Rattle.ckr_cards.specs.Statement.{statements_of, cards_in};

use crate::CutState;

/// Each card of a deck stands in exactly one statement, in its order.
#[tactic(auto, using(crate::proofs::DeckLaws::laws))]
pub fn each_card_stands_in_one_statement()
    ensures { (cards : List CardOfDeck) → cards_in (statements_of cards) ≡ cards }
{}

/// Each line of a stream stands in exactly one item, in its order.
#[tactic(auto, using(crate::proofs::DeckLaws::laws))]
pub fn each_line_stands_in_one_item()
    ensures { (lines : List (List ℕ)) → all_lines (items_of_lines lines) ≡ lines }
{}

/// What each line is by the whole stream is what the lines before it leave open.
#[tactic(auto, using(crate::proofs::DeckLaws::laws))]
pub fn lines_are_cut_in_turn()
    ensures { (lines : List (List ℕ)) → line_kinds lines ≡ run CutState.Outside lines }
{}

/// The items of a stream are those that end within its first lines, and those of the rest, by what
/// the first lines leave open.
#[tactic(auto, using(crate::proofs::DeckLaws::laws))]
pub fn items_end_in_turn()
    ensures { (first rest : List (List ℕ)) → items_of_lines (first ++ rest) ≡ ended_items begin first ++ items_behind (behind_all begin first) rest }
{}

/// The same of what the items hand over, where a deck is its cards in 81 bytes each.
#[tactic(auto, using(crate::proofs::DeckLaws::laws))]
pub fn items_are_handed_over_in_turn()
    ensures { (first rest : List (List ℕ)) → handed_of (items_of_lines (first ++ rest)) ≡ handed_within first_session first ++ handed_by (session_behind_all first_session first) rest }
{}

/// The cards that are stored of lines are the cards of the lines.
#[tactic(auto, using(crate::proofs::DeckLaws::laws))]
pub fn stored_lines_are_cards()
    ensures { (lines : List (List ℕ)) → cards_in_bytes (stored_lines lines) ≡ cards_of_lines 1 lines }
{}
