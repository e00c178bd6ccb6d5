//! The cards of a deck as a reader stores them, and as an event keeps them.
ghost use Rattle.std.specs.Prelude.{◌≡◌, ◌≤◌, ◌<◌, ◌+◌, ◌*◌, ◌/◌, ◌^◌, [], ◌∷◌, ◌++◌, length, take, drop, flat_map, IfOk, OnOk};
ghost use Rattle.std.specs.Simd.{first_chunks};
ghost use Rattle.ckr_desk_turn.specs.Cards.{with_short_mark, stored_of_kept, columns_of, kept_of_stored, kept_deck, IsSpelledDeck};

use ckr_base::{ByteList, NoMemory};
use ckr_events::Event;
use ckr_jcl::{DeckError, Job};
use ckr_jcl_decks::read_deck;
use std::alloc::Global;

/// The columns of a card.
const COLUMNS: usize = 80;

/// What stands behind the columns of a card whose line was not longer.
const SHORT: u8 = 0;

fn put_columns(kept: &mut ByteList, card: &[u8; 81]) -> Result<(), NoMemory>
    ensures { OnOk result (kept.new ≡ kept.old ++ columns_of card.now) }
{
    kept.extend(&card[..COLUMNS])
}

fn put_all_columns(kept: &mut ByteList, cards: &[[u8; 81]]) -> Result<(), NoMemory>
    ensures { OnOk result (kept.new ≡ kept.old ++ flat_map columns_of cards.now) }
{
    for card in cards {
        put_columns(kept, card)?;
    }
    Ok(())
}

/// The columns of each card. A reader stores behind them whether its line was longer.
#[tactic(auto, unfolding(crate::specs::Cards::kept_of_stored))]
fn kept_of_stored(alloc: Global, cards: &[u8]) -> Result<ByteList, NoMemory>
    ensures { IfOk result (λ kept. kept ≡ kept_of_stored cards.now) }
{
    let mut kept = ByteList::new(alloc);
    put_all_columns(&mut kept, cards.as_chunks::<81>().0)?;
    Ok(kept)
}

/// The event of the deck of a job. It keeps the columns of each card. The job's number is less than 4,294,967,296, and there are fewer
/// than 4,294,967,295 cards, of 81 bytes each.
#[tactic(auto, using(crate::proofs::Decks::KeptCards::kept_long, crate::proofs::Decks::KeptCards::submitted_spelled))]
pub fn submitted_event(alloc: Global, job: u32, cards: &[u8]) -> Result<Event, NoMemory>
    requires some { 81 ≤ length cards.now }
    requires few { length cards.now < 81 * 4294967295 }
    ensures event { IfOk result (λ event. event ≡ Event.Submitted job (kept_of_stored cards.now)) }
    ensures spelled { IfOk result (IsSpelledDeck (length cards.now / 81)) }
{
    let cards = kept_of_stored(alloc, cards)?;
    Ok(Event::Submitted { job, cards })
}

fn put_card(stored: &mut ByteList, columns: &[u8; 80]) -> Result<(), NoMemory>
    ensures card { OnOk result (stored.new ≡ stored.old ++ with_short_mark columns.now) }
    ensures long { OnOk result (length stored.new ≡ length stored.old + 81) }
{
    stored.extend(columns)?;
    stored.push(SHORT)
}

fn put_all_cards(stored: &mut ByteList, cards: &[[u8; 80]]) -> Result<(), NoMemory>
    ensures cards { OnOk result (stored.new ≡ stored.old ++ flat_map with_short_mark cards.now) }
    ensures long { OnOk result (length stored.new ≡ length stored.old + 81 * length cards.now) }
{
    for columns in cards {
        put_card(stored, columns)?;
    }
    Ok(())
}

/// The cards of an event as a reader stores them: no line was longer.
#[tactic(auto, unfolding(crate::specs::Cards::stored_of_kept))]
fn stored_of_kept(alloc: Global, cards: &[u8]) -> Result<ByteList, NoMemory>
    ensures value { IfOk result (λ stored. stored ≡ stored_of_kept cards.now) }
    ensures long { IfOk result (λ stored. length stored ≡ 81 * (length cards.now / 80)) }
{
    let mut stored = ByteList::new(alloc);
    put_all_cards(&mut stored, cards.as_chunks::<80>().0)?;
    Ok(stored)
}

/// The job of the cards that an event keeps, of 80 bytes each; there are at most 3,355,443. `None` exactly where they are no deck.
#[tactic(auto, unfolding(crate::specs::Cards::kept_deck))]
pub fn job_of_kept(alloc: Global, cards: &[u8]) -> Result<Option<Job>, NoMemory>
    requires { length cards.now ≤ 2 ^ 28 }
    ensures { IfOk result (λ job. job ≡ kept_deck cards.now) }
{
    if cards.len() < COLUMNS {
        return Ok(None);
    }
    let stored = stored_of_kept(alloc, cards)?;
    match read_deck(alloc, stored.as_slice()) {
        Ok(job) => Ok(Some(job)),
        Err(DeckError::At { .. }) => Ok(None),
        Err(DeckError::NoMemory) => Err(NoMemory),
    }
}
