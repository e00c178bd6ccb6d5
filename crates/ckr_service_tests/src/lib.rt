//! Tests of the whole call over memory.
#![tactic(auto)]

#[cfg(test)]
mod books;
#[cfg(test)]
mod calls;
#[cfg(test)]
mod checkpoints;
#[cfg(test)]
mod continuations;
#[cfg(test)]
mod denials;
#[cfg(test)]
mod makes;
#[cfg(test)]
mod mounts;
#[cfg(test)]
mod operators;
#[cfg(test)]
mod programs;
#[cfg(test)]
mod refusals;
#[cfg(test)]
mod restarts;
#[cfg(test)]
mod rows;
#[cfg(test)]
mod stops;
#[cfg(test)]
mod takeovers;
#[cfg(test)]
mod words;
