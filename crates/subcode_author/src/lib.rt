//! Writes the subcode of a disc: the layout of a cue sheet, its texts, and the pictures of a script.
#![tactic(auto)]

mod author;
mod heap;
mod laws;
mod stops;

pub use author::{
    accept_disc, author_in, author_planned, author_stream, plans_report_what_an_author_reports,
};
pub use heap::{Heap, MemoryStop};
pub use laws::{
    accepted_scripts_are_in_order, accepted_scripts_have_streams, authored_streams_are_one,
    each_disc_has_one_answer, parts_are_prefixes,
};
pub use stops::AuthorStop;
