//! A card.
ghost use Rattle.std.specs.Prelude.{◌≡◌, ◌≤◌, ◌++◌, drop, length, take};
ghost use Rattle.ckr_cards.specs.Card.{columns, stored_card, stored_line};

/// A card in 81 bytes: its 80 columns, and 1 where its line was longer than 80 bytes.
pub type StoredCard = [u8; 81];

/// A card of a deck.
#[derive(Clone, Copy)]
pub struct Card {
    /// Its place in the deck, counted from 1.
    pub number: u32,
    /// Its 80 columns.
    pub bytes: [u8; 80],
    /// Whether the line was longer than 80 bytes.
    pub long: bool,
}

impl Card {
    /// The card of a number that is stored in 81 bytes.
    pub fn stored(number: u32, stored: &StoredCard) -> Card
        ensures { result ≡ stored_card number stored.now }
    {
        let mut bytes = [b' '; 80];
        bytes.copy_from_slice(&stored[..80]);
        Card {
            number,
            bytes,
            long: stored[80] == 1,
        }
    }

    /// Columns 1 to 71, which are those that are read.
    pub fn columns(&self) -> &[u8]
        ensures { result.now ≡ columns self.now }
    {
        &self.bytes[..71]
    }
}

/// Puts bytes over the front of others, of which there are no fewer.
fn put_front(stored: &mut [u8], front: &[u8])
    requires { length front.now ≤ length stored.old }
    ensures { stored.new ≡ front.now ++ drop (length front.now) stored.old }
{
    stored[..front.len()].copy_from_slice(front);
}

/// A line as it is stored: its first 80 bytes, filled with blanks, and 1 where it is longer.
pub fn stored_line(line: &[u8]) -> StoredCard
    ensures { result ≡ stored_line line.now }
{
    let mut stored = [b' '; 81];
    put_front(&mut stored, &line[..line.len().min(80)]);
    stored[80] = u8::from(line.len() > 80);
    stored
}

/// Columns 1 to 71 of a stored card.
pub(crate) fn columns_in(stored: &StoredCard) -> &[u8]
    ensures { result.now ≡ take 71 stored.now }
{
    &stored[..71]
}
