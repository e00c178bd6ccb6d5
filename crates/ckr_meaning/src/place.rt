//! How far a job has come.

/// A place in a job, by the number of a step from 1.
#[derive(Clone, Copy)]
pub enum Place {
    /// Before the step, or behind the last one, whose number is one less.
    Before(u8),
    /// In the step, with its outputs opened and nothing made yet.
    Opened(u8),
    /// In the step, behind so many of its writes.
    Within(u8, u32),
}
