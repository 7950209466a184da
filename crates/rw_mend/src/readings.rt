// Readings of one stream in memory, and the blocks in which a reading equals the first.
ghost use Rattle.std.specs.Prelude.{◌≡◌, ◌<◌, length, true, ◌≤◌, ◌+◌, ◌*◌, ◌/◌};
ghost use Rattle.rw_mend.specs.Readings.{AreHeldReadings, program_in, size_in};
ghost use Rattle.rw_mend.specs.Histories.{AreSameFrom};
ghost use Rattle.rw_mend.specs.Words.{HoldsWord, block_at};
ghost use Rattle.raw_subcode.specs.Sizes.{block_bytes};

use raw_subcode::{BLOCK_BYTES, SLOTS_A_BLOCK};

/// Readings of equal length: the first, and all others one behind another.
#[derive(Clone, Copy)]
pub(crate) struct Readings<'a> {
    pub(crate) first: &'a [u8],
    pub(crate) others: &'a [u8],
    /// The number of readings, including the first.
    pub(crate) count: usize,
    /// The number of lead-in bytes in each reading.
    pub(crate) start: usize,
}

impl<'a> Readings<'a> {
    pub(crate) fn program(&self, r: usize) -> &'a [u8]
        requires within { r < self.now.count }
        requires readings { AreHeldReadings self.now }
        ensures program { result.now ≡ program_in self.now r }
        ensures size { length result.now ≡ size_in self.now }
    {
        if r == 0 {
            return &self.first[self.start..];
        }
        let size = self.first.len();
        let others = &self.others[size * (r - 1)..];
        &others[self.start..size]
    }
}

/// Advances to word `n` from the word before it. From block `same_from` to the last block under the word, all
/// blocks of a program equal those of the first reading.
#[inline]
#[tactic(auto, using(crate::proofs::Alike::followed_on, crate::proofs::Alike::followed_anew))]
pub(crate) fn follow(first: &[u8], program: &[u8], n: usize, same_from: &mut usize)
    requires size { length first.now ≡ length program.now }
    requires within { HoldsWord n (length program.now) }
    requires before { AreSameFrom first.now program.now ((n + 6) / 4 + 1) same_from.old }
    ensures { AreSameFrom first.now program.now ((n + 7) / 4 + 1) same_from.new }
{
    if n % SLOTS_A_BLOCK == 1 {
        let last = n / SLOTS_A_BLOCK + 2;
        if !is_same_at(first, program, last) {
            *same_from = last + 1;
        }
    }
}

// Whether block `b` of a program equals that of the first reading.
#[inline]
fn is_same_at(first: &[u8], program: &[u8], b: usize) -> bool
    requires first { block_bytes * b + block_bytes ≤ length first.now }
    requires program { block_bytes * b + block_bytes ≤ length program.now }
    ensures { result ≡ true → block_at program.now b ≡ block_at first.now b }
{
    let at = BLOCK_BYTES * b;
    are_same(&first[at..at + BLOCK_BYTES], &program[at..at + BLOCK_BYTES])
}

// Whether two blocks are equal. A loop over all bytes is faster than one that stops early.
#[inline]
fn are_same(one: &[u8], other: &[u8]) -> bool
    requires one { length one.now ≡ block_bytes }
    requires other { length other.now ≡ block_bytes }
    ensures { result ≡ true → other.now ≡ one.now }
{
    let mut same = true;
    for k in 0..BLOCK_BYTES {
        same &= one[k] == other[k];
    }
    same
}
