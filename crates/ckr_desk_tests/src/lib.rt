//! Tests of the desk on a disk in memory.
#![tactic(auto)]

#[cfg(test)]
mod desk;
