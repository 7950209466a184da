//! Stages that play a subcode stream: they make words from blocks, and packs, pictures and counts from words; and the
//! calls that play a whole stream.
#![tactic(auto)]

mod block_packs;
mod block_words;
mod check;
mod convert;
mod counting;
mod listings;
mod painting;
mod played;
mod screen;

pub use block_packs::BlockPacks;
pub use block_words::{BlockOfWords, BlockWords, SectorBlocks};
pub use check::Checker;
pub use convert::Converter;
pub use counting::{Counting, FrameCounts, WordCounts};
pub use listings::{TextLister, list_frames};
pub use painting::{Painting, draw_word};
pub use played::{PlayStop, Played, one_text_is_written, play_stop, pump_blocks, watch};
pub use screen::Viewer;
