//! What holds of every run's uses. Each law is the contract of a function that does nothing.
ghost use Rattle.std.specs.Prelude.{◌≡◌, ◌≤◌, ◌↔◌, ℕ, List, true, false};
ghost use Rattle.ckr_jcl.specs.declared.deck.Job.{Job as JobOfDeck};
ghost use Rattle.ckr_library.specs.declared.uses.Use.{Use as UseOfName};
ghost use Rattle.ckr_library.specs.NameMaps.{Name};
ghost use Rattle.ckr_uses.specs.SetNames.{run_name};
ghost use Rattle.ckr_uses.specs.Uses.{IsMerged, Shares, holds, holds_at, merged, uses_of};

/// Two runs hold against each other, or neither does against the other.
pub fn holding_is_symmetric()
    ensures { (first second : List UseOfName) → holds first second ≡ holds second first }
{}

/// Two runs hold against each other exactly where one name stands in both and at least one of its uses is exclusive.
pub fn holding_is_at_a_name()
    ensures { (first second : List UseOfName) → (holds first second ≡ true) ↔ ((name : Name) × (holds_at name first second ≡ true)) }
{}

/// Of many uses each name is kept once, and it is exclusive where one of its uses is.
pub fn each_name_has_one_use()
    ensures { (uses : List UseOfName) → IsMerged uses (merged uses) }
{}

/// To keep one use for each name changes nothing of what holds.
pub fn one_use_for_each_name_holds_as_all()
    ensures { (first second : List UseOfName) → holds (merged first) (merged second) ≡ holds first second }
{}

/// A name that two jobs without RESTART use with SHR alone, and KEEP at both ends, doesn't hold.
pub fn shared_names_do_not_hold()
    ensures { (name : Name) (one two : ℕ) (first second : JobOfDeck) → Shares name one first → Shares name two second → holds_at name (uses_of one first) (uses_of two second) ≡ false }
{}

/// Runs of different numbers have different names for their own data sets.
pub fn names_tell_runs_apart()
    ensures { (one two : ℕ) → one ≤ 9999999 → two ≤ 9999999 → run_name one ≡ run_name two → one ≡ two }
{}
