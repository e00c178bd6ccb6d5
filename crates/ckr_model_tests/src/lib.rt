//! Tests of the model.
#![tactic(auto)]

#[cfg(test)]
mod allocation;
#[cfg(test)]
mod checkpoints;
#[cfg(test)]
mod decks;
#[cfg(test)]
mod deferred;
#[cfg(test)]
mod denials;
#[cfg(test)]
mod follows;
#[cfg(test)]
mod freshness;
#[cfg(test)]
mod inputs;
#[cfg(test)]
mod installation;
#[cfg(test)]
mod matching;
#[cfg(test)]
mod operators;
#[cfg(test)]
mod programs;
#[cfg(test)]
mod queue;
#[cfg(test)]
mod restart_decks;
#[cfg(test)]
mod restart_histories;
#[cfg(test)]
mod restarts;
#[cfg(test)]
mod rules;
#[cfg(test)]
mod statements;
#[cfg(test)]
mod steps;
#[cfg(test)]
mod submissions;
#[cfg(test)]
mod tables;
#[cfg(test)]
mod uses;
