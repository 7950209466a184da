//! The public names of the library, each with its signature, its fields and its derived traits, as a caller
//! would use them. If a name is hidden or renamed, or gets another type, this crate no longer compiles.
#![tactic(auto)]

mod commands;
mod derives;
mod pictures;
mod players;
mod sheets;
mod streams;
mod words;
