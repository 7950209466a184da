// The symbols of mended words at their places in a stream.
ghost use Rattle.std.specs.Prelude.{◌≡◌, ◌≢◌, true, ◌<◌, ◌≤◌, ◌+◌, ◌-◌, ◌*◌, ◌/◌, ◌%◌, ◌^◌, List, None, ℕ, length, slice_index, slice_index_or};
ghost use Rattle.raw_subcode.specs.Sizes.{block_bytes, most_units, symbols_a_slot};
ghost use Rattle.rw_interleave.specs.Interleave.{swapped};
ghost use Rattle.rw_mend.specs.Tallies.{no_source};
ghost use Rattle.rw_mend.specs.Chosen.{symbol_or};
ghost use Rattle.rw_mend.specs.Symbols.{AreMendedUnder, HasWordText, HaveSources, IsBlock, held_symbol, held_symbols};

use crate::NO_READING;
use crate::parts::symbol_or;
use raw_subcode::{BLOCK_BYTES, SLOTS_A_BLOCK, SYMBOLS_A_SLOT};
use rw_interleave::{PACKS_KEPT_BACK, place};

// The number of words with a symbol in one block.
const WORDS_UNDER: usize = SLOTS_A_BLOCK + PACKS_KEPT_BACK;

// For each byte of a block, the place of its symbol in the text of those words.
static TEXT_PLACES: [usize; BLOCK_BYTES] = [
    168, 162, 125, 119, 76, 50, 30, 7, 176, 153, 130, 107, 84, 61, 38, 15, 184, 161, 121, 115, 92,
    69, 46, 3, 192, 186, 149, 143, 100, 74, 54, 31, 200, 177, 154, 131, 108, 85, 62, 39, 208, 185,
    145, 139, 116, 93, 70, 27, 216, 210, 173, 167, 124, 98, 78, 55, 224, 201, 178, 155, 132, 109,
    86, 63, 232, 209, 169, 163, 140, 117, 94, 51, 240, 234, 197, 191, 148, 122, 102, 79, 248, 225,
    202, 179, 156, 133, 110, 87, 256, 233, 193, 187, 164, 141, 118, 75,
];

// The place of the symbol of byte k of a block. The symbol at position q of a slot belongs to the word that
// begins q % 8 slots before. Seven of those words begin before the first slot of the block.
#[inline]
fn text_place(k: usize) -> usize
    requires { k < block_bytes }
    ensures value { result ≡ symbols_a_slot * (7 + k / symbols_a_slot - k % symbols_a_slot % 8)
        + swapped (k % symbols_a_slot) }
    ensures bound { result < symbols_a_slot * 11 }
{
    TEXT_PLACES[k]
}

// Whether each of these sources is that of a mended word.
fn are_found(sources: &[u8]) -> bool
    ensures { result ≡ true → (j : ℕ) → j < length sources.now → slice_index sources.now j ≢ no_source }
{
    for source in sources {
        if *source == NO_READING {
            return false;
        }
    }
    true
}

/// The words of a stream, and which of them were mended.
#[derive(Clone, Copy)]
pub(crate) struct Words<'a> {
    /// For each word, the byte that names its source.
    pub(crate) sources: &'a [u8],
    pub(crate) count: usize,
    /// The number of blocks before the first word.
    pub(crate) lead_in: usize,
}

impl<'a> Words<'a> {
    /// Block b of a stream if each word with a symbol in the block was mended: channels P and Q of `framed`,
    /// and the symbols of the text. They are copied without a test of each word.
    pub(crate) fn mended_block(&self, text: &[u8], b: usize, framed: &[u8]) -> [u8; BLOCK_BYTES]
        requires text { HasWordText self.now text.now }
        requires number { b ≤ most_units }
        requires mended { AreMendedUnder self.now b }
        requires framed { length framed.now ≡ block_bytes }
        ensures { (read : List ℕ) → IsBlock (held_symbols self.now text.now b) framed.now read result }
    {
        let first = SLOTS_A_BLOCK * (b - self.lead_in) - PACKS_KEPT_BACK;
        let row = &text[SYMBOLS_A_SLOT * first..SYMBOLS_A_SLOT * (first + WORDS_UNDER)];
        let mut block = [0; BLOCK_BYTES];
        for k in 0..BLOCK_BYTES {
            block[k] = framed[k] / 64 * 64 + row[text_place(k)] % 64;
        }
        block
    }

    /// Whether each word with a symbol in block b was mended.
    pub(crate) fn are_all_mended(&self, b: usize) -> bool
        requires sources { HaveSources self.now }
        requires lead_in { self.now.lead_in ≤ most_units }
        requires number { b ≤ most_units }
        ensures { result ≡ true → AreMendedUnder self.now b }
    {
        let slot = SLOTS_A_BLOCK * b;
        let start = SLOTS_A_BLOCK * self.lead_in + PACKS_KEPT_BACK;
        if slot < start {
            return false;
        }
        let first = slot - start;
        if self.count < first + WORDS_UNDER {
            return false;
        }
        are_found(&self.sources[first..first + WORDS_UNDER])
    }

    /// The symbols of mended words in block b.
    pub(crate) fn symbols(&self, text: &[u8], b: usize) -> [Option<u8>; BLOCK_BYTES]
        requires sources { HaveSources self.now }
        requires text { HasWordText self.now text.now }
        requires lead_in { self.now.lead_in ≤ most_units }
        requires number { b ≤ most_units }
        ensures { result ≡ held_symbols self.now text.now b }
    {
        let mut symbols = [None; BLOCK_BYTES];
        for k in 0..BLOCK_BYTES {
            symbols[k] = self.symbol(text, BLOCK_BYTES * b + k);
        }
        symbols
    }

    // The symbol of the mended word at byte p of a stream, if one is there.
    #[inline]
    fn symbol(&self, text: &[u8], p: usize) -> Option<u8>
        requires sources { HaveSources self.now }
        requires text { HasWordText self.now text.now }
        requires lead_in { self.now.lead_in ≤ most_units }
        requires number { p < 2 ^ 32 }
        ensures { result ≡ held_symbol self.now text.now p }
    {
        let position = p % SYMBOLS_A_SLOT;
        let slot = p / SYMBOLS_A_SLOT;
        let first = SLOTS_A_BLOCK * self.lead_in + position % (PACKS_KEPT_BACK + 1);
        if slot < first {
            return None;
        }
        let n = slot - first;
        if n >= self.count || self.sources[n] == NO_READING {
            return None;
        }
        Some(text[SYMBOLS_A_SLOT * n + place(position) as usize % SYMBOLS_A_SLOT] % 64)
    }
}

/// A block with channels P and Q of `framed`, the known symbols, and the other symbols of `read`.
pub(crate) fn mixed_block(
    known: &[Option<u8>; BLOCK_BYTES],
    framed: &[u8],
    read: &[u8],
) -> [u8; BLOCK_BYTES]
    requires small { (k n : ℕ) → k < block_bytes → symbol_or (slice_index_or known.now k None) n < 64 }
    requires framed { length framed.now ≡ block_bytes }
    requires read { length read.now ≡ block_bytes }
    ensures { IsBlock known.now framed.now read.now result }
{
    let mut block = [0; BLOCK_BYTES];
    for k in 0..BLOCK_BYTES {
        block[k] = framed[k] / 64 * 64 + symbol_or(known[k], read[k]);
    }
    block
}
