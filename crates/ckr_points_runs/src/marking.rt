//! What the marks of a run's names go by.

use crate::EffectiveJob;
use ckr_entry::Mark;
use ckr_library::Library;

/// What the marks of a run's names go by: names of its own steps as the data sets are, others as they were carried over.
#[derive(Clone, Copy)]
pub struct Marking<'a> {
    /// The number of the run.
    pub run: u32,
    /// Its job, which has the names.
    pub job: &'a EffectiveJob,
    /// The place of the first step whose names are marked as the data sets are.
    pub own_from: usize,
    /// The marks of the point from which the run was continued.
    pub carried: &'a [Mark],
    /// The data sets as they are.
    pub library: &'a Library,
}
