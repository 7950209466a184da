//! Laws of authored and of pressed streams: the lists of their Q channel and of the texts in their lead-in, and the
//! packs and screens that a player recovers from them.
#![tactic(auto)]

mod answers;
mod pressed;
mod scheduled_screens;
mod texts;

pub use answers::{
    authored_frames_are_listed, copied_text_lists_are_answered, damaged_text_lists_are_answered,
    frame_lists_are_answered, text_lists_are_answered,
};
pub use pressed::{pressed_files_are_shown, pressed_packs_come_back};
pub use scheduled_screens::{screens_show_pictures, shown_moments_give_pictures};
pub use texts::{
    accepted_sheets_have_text_packs, authored_lead_ins_hold_the_packs, authored_texts_are_listed,
    damaged_lead_ins_give_the_texts, streams_without_texts_are_listed,
};
