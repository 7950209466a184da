//! Readings of one disc, mended word by word into packs, or block by block into a stream.
#![tactic(auto)]

mod agreements;
mod blocks;
mod candidates;
mod choice;
mod choosing;
mod cover;
mod held_readings;
mod laws;
mod losses;
mod many;
mod mended_stream;
mod mender;
mod parts;
mod readings;
mod rows;
mod silences;
mod stream_laws;
mod streams;
mod tallies;
mod ways;
mod words;

pub use candidates::{Candidate, Coverage, WordReading, decode};
pub use choice::{MOST_READINGS, Mended, WordSource, mend};
pub use cover::is_unread_block;
pub use laws::{
    a_clean_codeword_is_mended, a_clean_reading_comes_out, a_codeword_that_counts_alone_is_mended,
    a_reading_gives_its_conversion, a_reading_that_counts_alone_is_converted,
    an_error_free_reading_comes_out, damaged_readings_give_back_the_packs, one_codeword_is_mended,
    packs_come_back, the_order_of_readings_changes_names_alone,
};
pub use many::{MendReport, mend_readings, mend_report};
pub use mended_stream::{mend_stream, mend_stream_report};
pub use stream_laws::{
    each_word_stands_in_the_stream, frames_are_those_chosen, mended_packs_are_recovered,
    one_reading_is_corrected, the_order_of_readings_changes_no_byte,
};
pub use streams::{MendCounts, mend_streams};
pub use tallies::{AGREED, NO_READING, Tallies};
