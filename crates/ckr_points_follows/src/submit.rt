//! Whether the submission of a deck follows.
ghost use Rattle.std.specs.Prelude.{◌≡◌, suc, not, ◌==◌, ◌&&◌, length};
ghost use Rattle.std.specs.Option.{is_some, option_copied};
ghost use Rattle.ckr_points.specs.Follows.{is_empty};

use ckr_jcl::Job;
use ckr_points_tables::Tables;

/// Whether a submission follows: its number is the next one, it has cards, and they are a deck, which is given.
pub fn submitted_follows(tables: &Tables, job: u32, cards: &[u8], deck: Option<&Job>) -> bool
    ensures { result ≡ (job == suc (length tables.now.desk.runs) && not (is_empty cards.now) && is_some (option_copied deck.entry)) }
{
    job as u64 == tables.runs().len() as u64 + 1 && !cards.is_empty() && deck.is_some()
}
