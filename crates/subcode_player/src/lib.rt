//! The interface for other programs: a player of subcode streams, and the call that authors a stream.
#![tactic(auto)]

mod player;

pub use player::Player;
pub use raw_subcode::Form;
pub use stream_stages::{
    Checker, Converter, PlayStop, Played, TextLister, Viewer, list_frames, one_text_is_written,
};
pub use subcode_author::{AuthorStop, author_stream};
