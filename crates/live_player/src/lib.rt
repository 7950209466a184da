//! A player of subcode streams that is fed block by block, and its output: pixels in the formats of displays, and the
//! changed part of the screen.
#![tactic(auto)]

mod change;
mod drawing;
mod feeding;
mod format;
mod keeping;
mod line;
mod live;
mod looking;
mod marks;
mod pairs;
mod parity;
mod plain;
mod plays;
mod saving;
mod seeing;
mod table;
mod watch;
mod writing;

pub use change::{ScreenChange, touched_change, unchanged_stays};
pub use drawing::play;
pub use feeding::{draw_all, feed_all, pack_change};
pub use format::PixelFormat;
pub use keeping::form_of;
pub use live::LivePlayer;
pub use looking::{PICTURE_BYTES, ScreenPart, part_of_screen};
pub use marks::{Mark, seek_block, seek_pack};
pub use parity::{ParityCounts, count_parity, seal_packs, valid_parity_is_that_of_a_codeword};
pub use plain::{PlainPlayer, PlainWords};
pub use plays::AnyPlayer;
pub use saving::{a_saved_player_goes_on, save};
pub use seeing::read_pack;
pub use watch::Watch;
pub use writing::{write_picture, write_pixels};
