// The changes of neighbouring symbols, by the words of a generator.
ghost use Rattle.std.specs.Prelude.{◌≡◌, ◌<◌, ◌≤◌, ◌+◌, ◌-◌, ◌^◌, ◌++◌, drop, false, length, take, true};
ghost use Rattle.raw_subcode.specs.Sizes.{block_bytes};
ghost use Rattle.rw_interleave.specs.Stream.{most_burst};
ghost use Rattle.cdg_io.specs.Run.{run_state, run_gives};
ghost use Rattle.cdg_workload.specs.Steps.{next_needle, ready, byte_next, byte_gives, AreCombined};

use rand_core::utils::NextWord;
use rand_pcg::Pcg32;
use raw_subcode::BLOCK_BYTES;

// The minimum number of symbols between two bursts.
const LEAST_GAP: u32 = 192;

// The number of possible sizes of the gap before a burst, from the minimum on.
const GAP_COUNT: u32 = 64;

// The maximum number of symbols in a burst.
const MOST_BURST: usize = 16;

// The number of possible changes of a burst, each of which changes every symbol.
const CHANGE_COUNT: u32 = 63;

/// Passes symbols in order, and changes them in bursts.
#[derive(Drop)]
pub struct Needle {
    /// The number of symbols before the next changed one.
    pub gap: u32,
    /// The number of symbols that are changed then.
    pub left: u32,
    /// The number with which these symbols are combined (exclusive or).
    pub change: u8,
    pub words: Pcg32,
}

impl Needle {
    // If a burst has ended, makes the next one from a word of the generator.
    #[tactic(auto, unfolding(crate::specs::Steps::ready, crate::specs::Steps::next_needle))]
    fn make_ready(&mut self)
        ensures { self.new ≡ ready self.old }
    {
        if self.gap == 0 && self.left == 0 {
            let word = self.words.next_word();
            self.gap = LEAST_GAP + word % GAP_COUNT;
            self.left = 1 + word / 256 % MOST_BURST as u32;
            self.change = (1 + (word >> 16) % CHANGE_COUNT) as u8;
        }
    }

    // Passes the symbols before the next changed one, at most `most`, and returns their number.
    #[inline]
    fn pass(&mut self, most: usize) -> usize
        ensures next { self.new ≡ record self.old { gap = self.old.gap - result } }
        ensures gap { result ≤ self.old.gap }
        ensures most { result ≤ most }
        ensures all { result < most → self.new.gap ≡ 0 }
    {
        let passed = (self.gap as usize).min(most);
        self.gap -= passed as u32;
        passed
    }

    /// Whether the next burst begins after a whole block. If it does, this block is passed.
    #[inline]
    pub(crate) fn skip_block(&mut self) -> bool
        ensures skips { result ≡ true → block_bytes ≤ self.old.gap }
        ensures next { result ≡ true → self.new ≡ record self.old { gap = self.old.gap - block_bytes } }
        ensures meets { result ≡ false → (self.old.gap < block_bytes) × (self.new ≡ self.old) }
    {
        if self.gap < BLOCK_BYTES as u32 {
            return false;
        }
        self.gap -= BLOCK_BYTES as u32;
        true
    }

    // Passes the symbols of a burst that has begun, at most `most`, and returns their number.
    #[inline]
    fn strike(&mut self, most: usize) -> usize
        ensures next { self.new ≡ record self.old { left = self.old.left - result } }
        ensures left { result ≤ self.old.left }
        ensures begun { 0 < result → self.old.gap ≡ 0 }
        ensures most { result ≤ most }
        ensures all { self.old.gap ≡ 0 → result < most → self.new.left ≡ 0 }
    {
        if self.gap > 0 {
            return 0;
        }
        let struck = (self.left as usize).min(most);
        self.left -= struck as u32;
        struck
    }

    // From a place on, passes the symbols before the next burst and changes those of the burst, as far as the
    // bytes reach. Returns the place after them. Most bursts lie well within the bytes, and take the few
    // steps of the first branch.
    #[inline]
    fn pass_burst(&mut self, bytes: &mut [u8], at: usize) -> usize
        requires place { at < length bytes.old }
        requires some { 0 < self.old.gap + self.old.left }
        ensures next { self.new ≡ run_state byte_next self.old (take (result - at) (drop at bytes.old)) }
        ensures gives { take result bytes.new ≡ take at bytes.old
            ++ run_gives byte_next byte_gives self.old (take (result - at) (drop at bytes.old)) }
        ensures rest { drop result bytes.new ≡ drop result bytes.old }
        ensures further { at < result }
        ensures within { result ≤ length bytes.new }
    {
        let gap = self.gap as usize;
        let left = self.left as usize;
        let room = bytes.len() - at;
        if left <= MOST_BURST && room >= gap + 2 * MOST_BURST {
            let from = at + gap;
            self.gap = 0;
            self.left = 0;
            combine_few(bytes, from, from + left, self.change);
            from + left
        } else {
            let from = at + self.pass(room);
            let to = from + self.strike(bytes.len() - from);
            combine(bytes, from, to, self.change);
            to
        }
    }

    /// Changes symbols, from burst to burst.
    pub(crate) fn scratch_all(&mut self, bytes: &mut [u8])
        ensures next { self.new ≡ run_state byte_next self.old bytes.old }
        ensures gives { bytes.new ≡ run_gives byte_next byte_gives self.old bytes.old }
    {
        let mut at = 0;
        while at < bytes.len() {
            self.make_ready();
            at = self.pass_burst(bytes, at);
        }
    }
}

// Combines the bytes between two places with a change.
#[inline]
fn combine(bytes: &mut [u8], from: usize, to: usize, change: u8)
    requires order { from ≤ to }
    requires within { to ≤ length bytes.old }
    ensures changed { AreCombined from to change bytes.old bytes.new }
    ensures rest { drop to bytes.new ≡ drop to bytes.old }
{
    if to - from <= MOST_BURST && bytes.len() - to >= MOST_BURST {
        combine_few(bytes, from, to, change);
    } else {
        combine_each(bytes, from, to, change);
    }
}

// Combines at most sixteen bytes with a change. It always takes the same steps: it changes sixteen bytes, and
// restores those that must not change.
#[inline]
fn combine_few(bytes: &mut [u8], from: usize, to: usize, change: u8)
    requires order { from ≤ to }
    requires few { to ≤ from + most_burst }
    requires within { to + most_burst ≤ length bytes.old }
    ensures changed { AreCombined from to change bytes.old bytes.new }
    ensures rest { drop to bytes.new ≡ drop to bytes.old }
{
    let kept = sixteen_of(&bytes[to..to + MOST_BURST]);
    combine_each(bytes, from, from + MOST_BURST, change);
    put_sixteen(&mut bytes[to..to + MOST_BURST], &kept);
}

// Sixteen bytes as an array, which is moved in one step.
#[inline]
fn sixteen_of(row: &[u8]) -> [u8; MOST_BURST]
    requires { length row.now ≡ most_burst }
    ensures { result ≡ row.now }
{
    match row.first_chunk::<MOST_BURST>() {
        Some(array) => *array,
        None => unreachable!(),
    }
}

#[inline]
fn put_sixteen(row: &mut [u8], bytes: &[u8; MOST_BURST])
    requires { length row.old ≡ most_burst }
    ensures { row.new ≡ bytes.now }
{
    if let Some(array) = row.first_chunk_mut::<MOST_BURST>() {
        *array = *bytes;
    }
}

// Combines any number of bytes with a change.
#[inline]
fn combine_each(bytes: &mut [u8], from: usize, to: usize, change: u8)
    requires order { from ≤ to }
    requires within { to ≤ length bytes.old }
    ensures changed { AreCombined from to change bytes.old bytes.new }
    ensures rest { drop to bytes.new ≡ drop to bytes.old }
{
    for i in from..to {
        bytes[i] ^= change;
    }
}
