//! Cue sheets of Compact Discs: the album and its tracks, or the first refused line with the reason.
#![tactic(auto)]

mod command;
mod fault;
mod judge;
mod reader;
mod sheet;

pub use fault::{CueStop, CueText, CueWhy};
pub use sheet::{Sheet, accepted_sheets_are_in_order};
