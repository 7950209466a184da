// A frame with a number for its kind.
use disc_time::CATALOGUE_DIGITS;

/// A frame of the Q channel. Times are blocks, below 450,000.
#[repr(C)]
#[derive(Clone, Copy)]
pub struct PlainFrame {
    /// 0 a place in the program area; 1 to 4 an entry of the table of contents: a track, the first track, the
    /// last track, the lead-out; 5 the catalogue number; 6 the recording code of a track; 7 bits with no fields of
    /// their own.
    pub kind: u32,
    /// The time from the start of the track's music (kind 0), or the running time of the lead-in (kinds 1 to
    /// 4).
    pub time: u32,
    /// The absolute time (kind 0), or the time at which the track or the lead-out begins (kinds 1 and 4).
    pub absolute: u32,
    /// Four bits: 8 four channels, 4 data, 2 copying permitted, 1 pre-emphasis.
    pub control: u8,
    /// The mode, 0 to 15 (kind 7).
    pub mode: u8,
    /// The track, 1 to 99 (kinds 0 to 3).
    pub track: u8,
    /// The index, 0 to 99 (kind 0).
    pub index: u8,
    /// The disc's type (kind 2).
    pub disc: u8,
    /// The frame of the absolute time, 0 to 74 (kinds 5 and 6).
    pub frame: u8,
    /// Thirteen digits (kind 5), twelve letters and digits (kind 6), or bytes 1 to 9 of the frame (kind 7).
    pub text: [u8; CATALOGUE_DIGITS],
}

/// The numbers of the kinds.
pub(crate) mod kinds {
    /// A place in the program area.
    pub(crate) const PROGRAM: u32 = 0;

    /// The start of a track, in the table of contents.
    pub(crate) const TRACK: u32 = 1;

    /// The first track, and the disc's type.
    pub(crate) const FIRST: u32 = 2;

    pub(crate) const LAST: u32 = 3;

    /// The start of the lead-out.
    pub(crate) const LEAD_OUT: u32 = 4;

    pub(crate) const CATALOGUE: u32 = 5;

    /// The recording code of a track.
    pub(crate) const CODE: u32 = 6;

    /// Bits with no fields of their own.
    pub(crate) const OTHER: u32 = 7;
}
