//! A survey of the blocks of a stream, as numbers for programs in C: the frame of each block, a row for each block,
//! and the counts of the blocks of a player.
#![tactic(auto)]

mod checks;
mod counting;
mod from_frame;
mod plain;
mod reading;
mod surveying;
mod tally;
mod to_frame;

pub use counting::WordMarks;
pub use from_frame::plain_of;
pub use plain::PlainFrame;
pub use surveying::{BlockRow, NO_TIME, block_at, rows_add_up_to_check, survey, unit_bytes};
pub use tally::{PlayerTally, feed_and_count};
pub use to_frame::frame_of;
