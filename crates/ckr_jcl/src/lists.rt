//! Lists of the parts of a deck.

use crate::{CardImage, Cond, Dd, Step};
use ckr_base::ItemList;

/// The records of a DD in the deck.
pub type Cards = ItemList<CardImage>;

/// The DDs of a step, at most 16.
pub type Dds = ItemList<Dd>;

/// The steps of a job, at most 64, which are numbered from 1.
pub type Steps = ItemList<Step>;

/// The tests of a step, or of all steps of a job.
pub type Conds = ItemList<Cond>;
