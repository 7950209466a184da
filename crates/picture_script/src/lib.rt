//! Picture scripts: lines that draw on a window of 288 by 192 pixels, and the pictures that they show.
#![tactic(auto)]

mod canvas;
mod grammar;
mod reader;
mod reasons;
mod script;
mod show_lines;

pub use canvas::Canvas;
pub use reasons::{ScriptStop, ScriptWhy};
pub use script::{MOST_PICTURES, Script};
pub use show_lines::{ShowLines, each_picture_has_a_line};
