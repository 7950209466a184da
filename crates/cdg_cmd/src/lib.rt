//! The commands of the workshop over sources and sinks: their words, their statuses, and the lines for these statuses.
#![tactic(auto)]

mod calls;
mod command;
mod laws;
mod making;
mod packs;
mod status;
mod stopped;
mod streams;
mod top;

pub use command::{Command, Split, read_words};
pub use status::{Refusal, Status, Which, report_status};
pub use top::{perform, run, split};
