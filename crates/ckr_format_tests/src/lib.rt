//! Tests of the outside, of the formats, and of what stands below the model.
#![tactic(auto)]

#[cfg(test)]
mod base;
#[cfg(test)]
mod book;
#[cfg(test)]
mod cards;
#[cfg(test)]
mod columns;
#[cfg(test)]
mod decks;
#[cfg(test)]
mod entries;
#[cfg(test)]
mod events;
#[cfg(test)]
mod fields;
#[cfg(test)]
mod formatting;
#[cfg(test)]
mod hexadecimal;
#[cfg(test)]
mod installation;
#[cfg(test)]
mod journal;
#[cfg(test)]
mod library;
#[cfg(test)]
mod open_deck;
#[cfg(test)]
mod outside;
#[cfg(test)]
mod parms;
#[cfg(test)]
mod volumes;
