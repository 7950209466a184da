// The numbers of blocks in a second, a minute, a lead-in and a program, of tracks on a disc, of bytes in a
// text, and of characters and values in some fields of a cue sheet and of the Q channel. Clauses use the
// names of specs/Counts.antt and specs/Fields.antt.

/// Blocks in a second: a block takes 588 samples, of 44,100 samples in a second (IEC 60908).
pub const BLOCKS_A_SECOND: u32 = 75;

/// Blocks in a minute.
pub const BLOCKS_A_MINUTE: u32 = 60 * BLOCKS_A_SECOND;

/// Blocks in the pause before the first track: two seconds, so that file time 00:00:00 is absolute time
/// 00:02:00.
pub const PAUSE_BLOCKS: u32 = 2 * BLOCKS_A_SECOND;

/// How many times can be written: 00:00:00 to 99:59:74, since minutes have two decimal digits.
pub const TIME_COUNT: u32 = 100 * BLOCKS_A_MINUTE;

/// The number of the last block whose time can be written: 99:59:74.
pub const LAST_BLOCK: u32 = TIME_COUNT - 1;

/// The maximum number of blocks in a lead-in: each of them has a different time.
pub const MOST_LEAD_IN: u32 = TIME_COUNT;

/// The maximum number of blocks in a program. The lead-out begins at the next block, and the table of
/// contents must be able to write the time of this block.
pub const MOST_PROGRAM: u32 = LAST_BLOCK;

/// The maximum number of tracks on a disc: their numbers have two decimal digits, from 01 on.
pub const MOST_TRACKS: u8 = 99;

/// The maximum number of bytes in a text: 2^26. Cue sheets and scripts with a thousand pictures of the whole
/// window are shorter. An input without an end is refused before it uses all memory.
pub const MOST_TEXT_BYTES: usize = 67_108_864;

/// The number of digits in a catalogue number, which is a bar code (EAN-13).
pub const CATALOGUE_DIGITS: usize = 13;

/// The number of characters in an ISRC, the recording code of a track (ISO 3901).
pub const ISRC_CHARACTERS: usize = 12;

/// The number of values of a control field, which has four bits.
pub const CONTROL_VALUES: u8 = 16;
