//! Presses a `.cdg` file into the subcode of a disc, in time with the audio of a cue sheet. Also makes those packs of
//! such a file idle that change nothing.
#![tactic(auto)]

mod file;
mod laws;
mod press;
mod stops;
mod thinner;

pub use laws::{each_press_has_one_answer, pressable_files_have_streams, pressed_streams_are_one};
pub use press::press_stream;
pub use stops::PressStop;
pub use thinner::{Thinner, thin_forms_stand_alike};
