// The sizes of blocks, sectors and slots, and the longest stream. Clauses call them by the names of specs/Sizes.antt.

/// How many symbols a slot has: as many as a pack (IEC 60908).
pub const SYMBOLS_A_SLOT: usize = 24;

/// How many slots a block has. Each slot has room for the symbols of a pack (IEC 60908).
pub const SLOTS_A_BLOCK: usize = 4;

/// How many bytes a block has: one for each symbol of its slots. So each channel has 96 bits in a block.
pub const BLOCK_BYTES: usize = SLOTS_A_BLOCK * SYMBOLS_A_SLOT;

/// How many bytes of audio a sector has: 1/75 second of 44,100 samples a second, each of two channels with
/// two bytes.
pub const AUDIO_BYTES: usize = 2_352;

/// How many bytes a sector has: its audio and then its block.
pub const SECTOR_BYTES: usize = AUDIO_BYTES + BLOCK_BYTES;

/// The maximum number of units (blocks or sectors) in a stream: enough for the longest lead-in (450,000
/// blocks) and the longest program (449,999 blocks). The number of each unit, counted from 0, has at most six
/// digits.
pub const MOST_UNITS: u32 = 1_000_000;
