// Readings in memory, and which of their blocks are eligible.
ghost use Rattle.std.specs.Prelude.{◌≡◌, ◌<◌, ◌≤◌, ◌+◌, ◌*◌, ◌/◌, true, ℕ, [], length, map, slice_index_or};
ghost use Rattle.raw_subcode.specs.Channels.{symbols_of};
ghost use Rattle.raw_subcode.specs.Sizes.{block_bytes};
ghost use Rattle.rw_mend.specs.Words.{block_at};
ghost use Rattle.rw_mend.specs.Chosen.{channels_of, has_eligible_channels, has_eligible_symbols, is_framed_block, is_read_block};
ghost use Rattle.rw_mend.specs.HeldReadings.{AreHeld, AreMarks, HaveSamePart, held_blocks};

use crate::{MOST_READINGS, is_unread_block};
use q_channel::is_frame;
use raw_subcode::{BLOCK_BYTES, Block};

/// Readings of equal length, one behind another.
#[derive(Clone, Copy)]
pub(crate) struct HeldReadings<'a> {
    pub(crate) bytes: &'a [u8],
    pub(crate) count: usize,
    /// The number of bytes in each reading.
    pub(crate) size: usize,
}

impl<'a> HeldReadings<'a> {
    pub(crate) fn block(&self, r: usize, b: usize) -> &'a [u8]
        requires held { AreHeld self.now }
        requires within { r < self.now.count }
        requires inside { block_bytes * b + block_bytes ≤ self.now.size }
        ensures block { result.now ≡ slice_index_or (held_blocks self.now b) r [] }
        ensures size { length result.now ≡ block_bytes }
    {
        let at = self.size * r + BLOCK_BYTES * b;
        &self.bytes[at..at + BLOCK_BYTES]
    }

    /// Whether all readings have the same bits P and Q in block b.
    pub(crate) fn have_same_channels(&self, b: usize) -> bool
        requires held { AreHeld self.now }
        requires inside { block_bytes * b + block_bytes ≤ self.now.size }
        ensures { result ≡ true → HaveSamePart channels_of (held_blocks self.now b) }
    {
        let first = self.block(0, b);
        for r in 1..self.count {
            if !have_same_channels(first, self.block(r, b)) {
                return false;
            }
        }
        true
    }

    /// Whether block b is the same in all readings.
    pub(crate) fn have_same_block(&self, b: usize) -> bool
        requires held { AreHeld self.now }
        requires inside { block_bytes * b + block_bytes ≤ self.now.size }
        ensures { result ≡ true → HaveSamePart (λ block. block) (held_blocks self.now b) }
    {
        let first = self.block(0, b);
        for r in 1..self.count {
            if first != self.block(r, b) {
                return false;
            }
        }
        true
    }

    /// The readings whose symbols are eligible in block b.
    pub(crate) fn eligible_symbols(&self, b: usize) -> [bool; MOST_READINGS]
        requires held { AreHeld self.now }
        requires inside { block_bytes * b + block_bytes ≤ self.now.size }
        ensures { AreMarks (has_eligible_symbols (held_blocks self.now b))
            (held_blocks self.now b) result }
    {
        let mut is_any = false;
        let mut marks = [false; MOST_READINGS];
        for r in 0..self.count {
            marks[r] = !is_unread_block(self.block(r, b));
            is_any |= marks[r];
        }
        if is_any { marks } else { [true; MOST_READINGS] }
    }

    /// The readings whose channels P and Q are eligible in block b.
    pub(crate) fn eligible_channels(&self, b: usize) -> [bool; MOST_READINGS]
        requires held { AreHeld self.now }
        requires inside { block_bytes * b + block_bytes ≤ self.now.size }
        ensures { AreMarks (has_eligible_channels (held_blocks self.now b))
            (held_blocks self.now b) result }
    {
        let mut is_any = false;
        let mut marks = [false; MOST_READINGS];
        for r in 0..self.count {
            marks[r] = is_framed(self.block(r, b));
            is_any |= marks[r];
        }
        if is_any {
            marks
        } else {
            self.eligible_symbols(b)
        }
    }
}

// Whether two blocks have the same bits P and Q. A loop over all bytes is faster than one that stops early.
fn have_same_channels(one: &[u8], other: &[u8]) -> bool
    requires one { length one.now ≡ block_bytes }
    requires other { length other.now ≡ block_bytes }
    ensures { result ≡ true → channels_of other.now ≡ channels_of one.now }
{
    let mut same = true;
    for k in 0..BLOCK_BYTES {
        same &= one[k] / 64 == other[k] / 64;
    }
    same
}

// Whether the Q channel of a block is a frame.
fn is_framed(block: &[u8]) -> bool
    requires { length block.now ≡ block_bytes }
    ensures { result ≡ is_framed_block block.now }
{
    let mut bytes = [0; BLOCK_BYTES];
    bytes.copy_from_slice(block);
    is_frame(&Block::from_bytes(&bytes).q_frame())
}
