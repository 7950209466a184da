//! A trial of authoring, correction and playing on a large generated input.
#![tactic(auto)]

mod comparing;
mod course;
mod gallery;
mod generating;
mod lines;
mod needs;
mod replay;
mod run;
mod schedules;
mod scratches;
mod script_text;
mod streams;
mod trying;

pub use schedules::{
    generated_scripts_are_authored, generated_scripts_are_ready, trial_sheet_is_read,
};
pub use scratches::{scratched_streams_are_recovered, scratched_words_are_near};
pub use trying::{TrialStop, trial};
