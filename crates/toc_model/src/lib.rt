//! The layout of a Compact Disc: where the tracks of a cue sheet lie, and the P bit and Q frame of each block.
#![tactic(auto)]

mod layout;
mod place;

pub use layout::{Layout, LayoutStop, count_blocks, toc_need};
