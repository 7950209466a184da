// A player as plain numbers.
ghost use Rattle.std.specs.Prelude.{◌++◌};
ghost use Rattle.rw_interleave.specs.Windows.{IsWindow};

use cdg_screen::PlainScreen;
use raw_subcode::BLOCK_BYTES;

/// The bytes of the first three of the last seven slots.
pub const EARLY_BYTES: usize = 72;

/// The last slots of a stream and the rest of its lead-in, as plain numbers.
#[repr(C)]
#[derive(Drop)]
pub struct PlainWords {
    /// The symbols of the first three of the last seven slots.
    pub early: [u8; EARLY_BYTES],
    /// The symbols of the other four.
    pub late: [u8; BLOCK_BYTES],
    /// The number of the seven slots that were read.
    pub count: usize,
    /// True only if all seven slots were read and all their symbols are 0.
    pub quiet: bool,
    /// The form of the stream: 0 raw, 1 packs, else sectors.
    pub form: u32,
    /// The blocks of the lead-in that are not read yet.
    pub lead_in: u32,
    ghost holds: { IsWindow (early ++ late) count quiet },
}

/// A player as plain numbers, which a caller can allocate anywhere. If all its bytes are 0, it is a player of
/// a raw stream with no lead-in, before its first block.
#[repr(C)]
#[derive(Drop)]
pub struct PlainPlayer {
    pub words: PlainWords,
    pub screen: PlainScreen,
    /// The blocks of the lead-in, read or not.
    pub lead_in: u32,
    /// The blocks that were read.
    pub blocks: u32,
    /// The words so far with no codeword near.
    pub bad: u32,
}
