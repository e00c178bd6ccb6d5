//! What holds of every deck. A law is the contract of a function that does nothing.
ghost use Rattle.std.specs.Prelude.{◌≡◌, ◌≤◌, ℕ, List, length, true, Ok, Some};
ghost use Rattle.std.specs.List.{AllByRecursion};
ghost use Rattle.ckr_jcl.specs.declared.deck.Job.{Job as JobOfDeck};
ghost use Rattle.ckr_jcl_decks.specs.Deck.{stored_deck};
ghost use Rattle.ckr_meaning.specs.EffectiveJob.{HasDistinctNames, plain_job};
ghost use Rattle.ckr_points.specs.Payload.{is_formed, is_orderly};
ghost use Rattle.ckr_points.specs.Syschk.{names_its_set};
ghost use Rattle.ckr_desk_turn.specs.Cards.{kept_deck, kept_of_stored};
ghost use Rattle.ckr_desk_turn.specs.DeckLimits.{FitsAllocation, HasCheckParts, HasNamesOnce, IsFormed, IsWithinLimits};

/// The cards that the event of an accepted deck keeps are that deck: what the desk reads again is what was submitted.
pub fn what_is_kept_is_the_deck()
    ensures { (cards : List ℕ) (job : JobOfDeck) → 81 ≤ length cards → stored_deck cards ≡ Ok job → kept_deck (kept_of_stored cards) ≡ Some job }
{}

/// Each DD of an accepted deck that has a data set is such as allocation needs it: its records have 1 to 256 bytes, a space is given
/// with NEW and is 1 to 1,000,000 records, and VOL names at most one volume (IBM GC28-6704; the limits are this project's profile).
pub fn dds_of_accepted_decks_fit()
    ensures { (cards : List ℕ) (job : JobOfDeck) → stored_deck cards ≡ Ok job → AllByRecursion FitsAllocation job.steps }
{}

/// An accepted deck has at most 64 steps, each of at most 16 DDs whose VOL names at most five volumes, and each step's PARM is in the ranges
/// that the programs rest on (this project's profile).
pub fn accepted_decks_are_within_limits()
    ensures steps { (cards : List ℕ) (job : JobOfDeck) → stored_deck cards ≡ Ok job → length job.steps ≤ 64 }
    ensures each { (cards : List ℕ) (job : JobOfDeck) → stored_deck cards ≡ Ok job → AllByRecursion IsWithinLimits job.steps }
{}

/// No data set name stands twice in a step of an accepted deck, whichever run is the root and whichever one owns the step (IBM GC28-6704).
pub fn names_stand_once_in_each_step()
    ensures each { (cards : List ℕ) (job : JobOfDeck) → stored_deck cards ≡ Ok job → AllByRecursion HasNamesOnce job.steps }
    ensures job { (cards : List ℕ) (job : JobOfDeck) (run : ℕ) → stored_deck cards ≡ Ok job → HasDistinctNames (plain_job run job) }
{}

/// The DDs of an accepted deck have the roles that their step's program has for their names, what a step writes, updates or checkpoints
/// isn't SHR, what it updates is an OLD data set, and no data set name stands twice in a step. It is an orderly deck of each run whose number
/// has at most seven digits: no name that it writes has the desk's own qualifiers, and what goes to SYSOUT is kept at both ends of its step.
/// Its SYSCHK, where it is given, names a data set.
pub fn accepted_decks_are_formed()
    ensures each { (cards : List ℕ) (job : JobOfDeck) → stored_deck cards ≡ Ok job → AllByRecursion IsFormed job.steps }
    ensures job { (cards : List ℕ) (job : JobOfDeck) (run : ℕ) → stored_deck cards ≡ Ok job → is_formed (plain_job run job) ≡ true }
    ensures orderly { (cards : List ℕ) (job : JobOfDeck) (run : ℕ) → run ≤ 9999999 → stored_deck cards ≡ Ok job → is_orderly run job ≡ true }
    ensures syschk { (cards : List ℕ) (job : JobOfDeck) → stored_deck cards ≡ Ok job → names_its_set job.syschk ≡ true }
{}

/// What checkpoints are taken by in a step of an accepted deck: IDS is at most 8 bytes of names, where it is given, and a data set for
/// checkpoints has records of 256 bytes, whatever its DD says of them (this project's profile).
pub fn accepted_decks_have_check_parts()
    ensures { (cards : List ℕ) (job : JobOfDeck) → stored_deck cards ≡ Ok job → AllByRecursion HasCheckParts job.steps }
{}
