//! Blocks of 96 bytes of subcode: eight channels of 96 bits, P to W, one bit of each in a byte.
#![tactic(auto)]

mod block;
mod form;
mod lane_table;
mod lanes;
mod laws;
mod packs;
mod rows;
mod sizes;

pub use block::Block;
pub use form::Form;
pub use laws::{
    carried_packs_are_read, planar_forms_are_unique, planar_forms_turn_back, q_bits_are_read,
};
pub use packs::text_symbols;
pub use sizes::{
    AUDIO_BYTES, BLOCK_BYTES, MOST_UNITS, SECTOR_BYTES, SLOTS_A_BLOCK, SYMBOLS_A_SLOT,
};
