//! Writes a stream block by block: the P bits and Q frames of a layout, the text packs of a lead-in, and the packs of a
//! source, which are spread over the program.
#![tactic(auto)]

mod sheet_texts;
mod source;
mod stream;

pub use sheet_texts::{LeadInStop, judge_lead_in, pack_texts, texts_of_sheet};
pub use source::{PackSource, unless_idle};
pub use stream::write_stream;
