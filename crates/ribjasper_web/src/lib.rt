//! The calls for web pages: a player in the memory of the page, and its screen. No call allocates.
#![tactic(auto)]

mod changing;
mod counting;
mod marking;
mod mending;
mod parity;
mod picture;
mod planar;
mod playing;
mod reading;
mod saving;
mod surveying;
mod texts;

pub use counting::WebCounts;
pub use live_player::{Mark, PlainPlayer, PlainWords};
pub use picture::WebShown;
pub use reading::WebPack;
