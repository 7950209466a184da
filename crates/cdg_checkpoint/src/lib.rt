//! Checkpoints in the middle of a stream: the state of a player is saved to a file of 65,045 bytes and restored from
//! it.
#![tactic(auto)]

mod checking;
mod checkpointer;
mod composing;
mod fields;
mod file;
mod laws;
mod plain_file;
mod restoring;
mod resuming;
mod stops;
mod watch;

pub use checking::judge;
pub use checkpointer::Checkpointer;
pub use fields::StreamCounts;
pub use file::CheckpointFile;
pub use laws::{
    a_resumed_stream_is_the_whole, a_saved_stream_goes_on_as_the_whole, files_are_read_back,
    sound_checkpoints_are_accepted,
};
pub use plain_file::{FILE_BYTES, PlainFile, SLOTS_BYTES};
pub use resuming::gathered_slots;
pub use stops::{ResumeStop, Resumed};
