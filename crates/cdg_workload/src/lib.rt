//! A large script from a number, and scratches of a stream from a number: input for trials of an author and a player.
#![tactic(auto)]

mod needle;
mod scratching;
mod script;

pub use scratching::{
    Scratches, scratch, scratches_are_bursts, scratches_are_damage, scratches_go_block_by_block,
};
pub use script::{
    BLOCKS_A_PICTURE, BLOCKS_HELD, MOST_GENERATED, generated_scripts_are_read,
    generated_scripts_are_short, generated_scripts_have_times, write_script,
};
