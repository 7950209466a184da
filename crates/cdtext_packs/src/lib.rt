//! CD-TEXT: the packs of a disc's texts, and the texts of its packs.
#![tactic(auto)]

mod kinds;
mod laws;
mod lead_in_texts;
mod map;
mod pack;
mod reader;
mod reading;
mod text;

pub use kinds::{KINDS, Offer, PackStop, TextFault, TextKind};
pub use laws::{bursts_are_noticed, offers_keep_the_first, texts_come_back, texts_of_packs_fit};
pub use lead_in_texts::{LeadInTexts, lead_in_packs_are_read, lead_in_symbols};
pub use map::{Strings, TextMap};
pub use pack::{MOST_PACKS, PACK_BYTES, TEXT_BYTES, TextPack, pack_all};
pub use reader::TextReader;
pub use text::write_lines;
