// From slots and blocks to words.
ghost use Rattle.std.specs.Prelude.{◌≡◌, ◌-◌, ◌≤◌, ◌<◌, ◌%◌, ◌++◌, ◌+◌, true, [], All, List, ℕ, IfOk, IsOk, length, map, replicate, slice_index};
ghost use Rattle.std.specs.List.{concat};
ghost use Rattle.cdg_io.specs.Run.{run_gives};
ghost use Rattle.bit_lists.specs.Counting.{below};
ghost use Rattle.raw_subcode.specs.Sizes.{slots_a_block, symbols_a_slot, block_bytes};
ghost use Rattle.rw_code.specs.Codeword.{IsWord};
ghost use Rattle.rw_code.specs.Packs.{idle_pack};
ghost use Rattle.rw_interleave.specs.Gathering.{gather_gives, gather_next, kept_symbols, gathered};
ghost use Rattle.rw_interleave.specs.Interleave.{packs_kept_back, word_of, whole_of_slots, span};
ghost use Rattle.rw_interleave.specs.Windows.{before_bytes, row_bytes, slot_in, slots_in, early_bytes, AreRowSymbols, slots_after_block, words_from_block};

use crate::Slot;
use crate::four_words::{turned, word};
use crate::slot::{PACKS_KEPT_BACK, SPAN};
use arrayvec::ArrayVec;
use cdg_io::Stage;
use raw_subcode::{BLOCK_BYTES, SLOTS_A_BLOCK, SYMBOLS_A_SLOT};
use rw_code::Word;
use std::alloc::{AllocError, Global};
use std::marker::Model;
use std::simd::prelude::*;

/// Gathers words from slots, one at a time, or from the four slots of a block. Its model is the list of the last slots, at
/// most seven. It allocates no memory.
#[derive(Drop)]
pub struct Gather {
    /// The symbols of the first three of the last seven slots. If fewer than seven were read, the first ones are unused.
    pub early: [u8; EARLY_BYTES],
    /// The symbols of the other four.
    pub late: [u8; BLOCK_BYTES],
    /// How many of the seven were read.
    pub count: usize,
    /// `true` only if all seven were read and each symbol is 0.
    pub quiet: bool,
}

impl Model for Gather {
    ghost use Rattle.std.specs.Prelude.{◌-◌, ◌++◌, List, ℕ};
    ghost use Rattle.rw_interleave.specs.Interleave.{packs_kept_back};
    ghost use Rattle.rw_interleave.specs.Windows.{slots_in, IsWindow};

    ghost Value = { List (List ℕ) };

    ghost view = { λ g. slots_in (g.early ++ g.late) (packs_kept_back - g.count) g.count };

    ghost invariant = { λ g. IsWindow (g.early ++ g.late) g.count g.quiet };
}

impl Gather {
    /// A gatherer that has read no slot.
    pub fn new() -> Gather
        ensures { result ≡ [] }
    {
        Gather {
            early: [0; EARLY_BYTES],
            late: [0; BLOCK_BYTES],
            count: 0,
            quiet: false,
        }
    }

    /// A gatherer that has read no slot. It always succeeds; callers rely on this signature.
    pub fn start(alloc: Global) -> Result<Gather, AllocError>
        ensures made { IsOk result }
        ensures empty { IfOk result (λ g. g ≡ []) }
    {
        // The allocator is not used: the gatherer holds the seven slots itself.
        Ok(Gather::new())
    }

    /// Forgets all slots.
    pub fn reset(&mut self)
        ensures { self.new ≡ [] }
    {
        self.count = 0;
        self.quiet = false;
    }

    /// Reads a slot, and returns the word that it completes: none for the first seven slots.
    pub fn push(&mut self, slot: &Slot) -> Option<Word>
        ensures next { self.new ≡ gather_next self.old slot.now }
        ensures gives { result ≡ gather_gives self.old slot.now }
    {
        let block = alone(slot);
        let word = last_word(&self.early, &self.late, &symbols_of(&block), self.count);
        let row = row_of(&self.early, &self.late, &block);
        self.early = three_slots(&row, SYMBOLS_A_SLOT);
        self.late = four_slots(&row, SYMBOLS_A_SLOT);
        self.count = (self.count + 1).min(PACKS_KEPT_BACK);
        self.quiet = false;
        word
    }

    /// A quick test whether a block completes four words of zeros and leaves the slots unchanged. If the
    /// result is `false`, this is unknown.
    #[inline(always)]
    pub fn stays_idle(&self, block: &[u8; BLOCK_BYTES]) -> bool
        ensures next { result ≡ true → self.now ≡ slots_after_block self.now block.now }
        ensures gives { result ≡ true
            → replicate slots_a_block idle_pack ≡ words_from_block self.now block.now }
    {
        if self.quiet && are_idle(block) {
            return true;
        }
        false
    }

    /// Reads the four slots of a block, the low six bits of its bytes, and returns the words that they complete.
    #[inline]
    pub fn push_block(&mut self, block: &[u8; BLOCK_BYTES]) -> ArrayVec<Word, SLOTS_A_BLOCK>
        ensures next { self.new ≡ slots_after_block self.old block.now }
        ensures gives { result.items ≡ words_from_block self.old block.now }
    {
        if self.stays_idle(block) {
            return idle_words();
        }
        self.gather_block(block)
    }

    /// Reads a block without the test for idle blocks, and returns the words that it completes.
    ///
    /// The symbol for position p of a word is in slot p % 8 of the eight slots of the word. So the symbols
    /// for four positions, from a multiple of four on, are in four consecutive slots, each one place after
    /// the previous one. The numbers below are the places of positions 0, 4, 16 and 20 of each word, and of
    /// positions 8 and 12 of two words.
    #[inline(never)]
    pub fn gather_block(&mut self, block: &[u8; BLOCK_BYTES]) -> ArrayVec<Word, SLOTS_A_BLOCK>
        ensures next { self.new ≡ slots_after_block self.old block.now }
        ensures gives { result.items ≡ words_from_block self.old block.now }
    {
        let even = turned(&self.early, &self.late, block, 8, 108, 56, 156);
        let odd = turned(&self.early, &self.late, block, 32, 132, 80, 180);
        let zeroth = turned(&self.early, &self.late, block, 0, 100, 16, 116);
        let first = turned(&self.early, &self.late, block, 24, 124, 40, 140);
        let second = turned(&self.early, &self.late, block, 48, 148, 64, 164);
        let third = turned(&self.early, &self.late, block, 72, 172, 88, 188);
        let mut words = ArrayVec::from([
            word(zeroth, even),
            word(first, odd),
            word(second, even.rotate_elements_left::<8>()),
            word(third, odd.rotate_elements_left::<8>()),
        ]);
        // The first words of a stream lack slots.
        let unfinished = (PACKS_KEPT_BACK - self.count).min(SLOTS_A_BLOCK);
        for _ in 0..unfinished {
            words.remove(0);
        }
        self.move_up(block);
        words
    }

    // Makes the four slots of a block the last ones of the seven.
    #[inline(always)]
    fn move_up(&mut self, block: &[u8; BLOCK_BYTES])
        ensures { self.new ≡ slots_after_block self.old block.now }
    {
        let symbols = symbols_of(block);
        self.early = last_three(&self.late);
        self.late = symbols;
        self.count = (self.count + SLOTS_A_BLOCK).min(PACKS_KEPT_BACK);
        self.quiet = are_quiet(&self.early, &self.late, self.count);
    }

    /// The symbols of the last seven slots, zeros before the first.
    pub fn symbols(&self) -> [u8; BEFORE_BYTES]
        ensures { result ≡ kept_symbols self.now }
    {
        let first = SYMBOLS_A_SLOT * (PACKS_KEPT_BACK - self.count);
        let row = row_of(&self.early, &self.late, &[0; BLOCK_BYTES]);
        slots_from(&row, first)
    }
}

impl Stage for Gather {
    type Item = Slot;

    type Out = Word;

    ghost next = { gather_next };

    ghost gives = { gather_gives };

    fn feed(&mut self, slot: &Slot) -> Option<Word> {
        self.push(slot)
    }
}

// Whether seven slots were read and all their symbols are 0.
#[inline]
fn are_quiet(early: &[u8; EARLY_BYTES], late: &[u8; BLOCK_BYTES], count: usize) -> bool
    ensures full { result ≡ true → packs_kept_back ≤ count }
    ensures zeros { result ≡ true → (n : ℕ) → n < before_bytes
        → slice_index (early.now ++ late.now) n % 64 ≡ 0 }
{
    // Most blocks that are gathered have a symbol that is not 0.
    if count < PACKS_KEPT_BACK || !are_idle(late) {
        return false;
    }
    are_idle(early)
}

// The seven slots of a row, with zeros before byte `first`.
fn slots_from(row: &[u8; ROW_BYTES], first: usize) -> [u8; BEFORE_BYTES]
    requires { first ≤ before_bytes }
    ensures zeros { (n : ℕ) → n < first → slice_index result n ≡ 0 }
    ensures rest { (n : ℕ) → first ≤ n → n < before_bytes → slice_index result n ≡ slice_index row.now n }
{
    let mut symbols = [0; BEFORE_BYTES];
    for i in first..BEFORE_BYTES {
        symbols[i] = row[i];
    }
    symbols
}

// A slot, as a block that begins with it.
fn alone(slot: &Slot) -> [u8; BLOCK_BYTES]
    ensures word { IsWord slot.now }
    ensures symbols { (n : ℕ) → n < symbols_a_slot → slice_index result n ≡ slice_index slot.now n }
{
    let mut block = [0; BLOCK_BYTES];
    block[..SYMBOLS_A_SLOT].copy_from_slice(&slot.bytes());
    block
}

// The word whose last symbol is in the first slot of the block, if all seven slots before this slot were
// read.
fn last_word(
    early: &[u8; EARLY_BYTES],
    late: &[u8; BLOCK_BYTES],
    block: &[u8; BLOCK_BYTES],
    count: usize,
) -> Option<Word>
    requires count { count ≤ packs_kept_back }
    requires symbols { AreRowSymbols early.now late.now block.now }
    ensures { result ≡ gather_gives
        (slots_in (early.now ++ (late.now ++ block.now)) (packs_kept_back - count) count)
        (slot_in (early.now ++ (late.now ++ block.now)) packs_kept_back) }
{
    if count < PACKS_KEPT_BACK {
        return None;
    }
    Some(word_at(early, late, block, 0))
}

/// A law: the words of all slots since the start are the words that `word_of` defines by their places. Each
/// word is returned as soon as its last symbol was read.
pub fn gather_gives_words()
    ensures { (slots : List (List ℕ)) → All (λ slot. length slot ≡ symbols_a_slot) slots
        → run_gives gather_next gather_gives [] slots
        ≡ map (word_of (concat slots)) (below (whole_of_slots (length slots))) }
{}

// The number of bytes in the seven slots before a block, in which the words of the block may have symbols.
pub(crate) const BEFORE_BYTES: usize = PACKS_KEPT_BACK * SYMBOLS_A_SLOT;

// The number of bytes in the first three of these slots.
pub(crate) const EARLY_BYTES: usize = BEFORE_BYTES - BLOCK_BYTES;

const ROW_BYTES: usize = BEFORE_BYTES + BLOCK_BYTES;

// Whether the low six bits of all bytes are 0.
#[inline]
fn are_idle(bytes: &[u8]) -> bool
    ensures { result ≡ true → (n : ℕ) → n < length bytes.now → slice_index bytes.now n % 64 ≡ 0 }
{
    let mut all = 0;
    for byte in bytes {
        all |= *byte;
    }
    all % 64 == 0
}

// The last seven slots, followed by the symbols of a block: the low six bits of its bytes.
#[inline(always)]
fn row_of(
    early: &[u8; EARLY_BYTES],
    late: &[u8; BLOCK_BYTES],
    block: &[u8; BLOCK_BYTES],
) -> [u8; ROW_BYTES]
    ensures before { (n : ℕ) → n < before_bytes
        → slice_index result n ≡ slice_index (early.now ++ late.now) n }
    ensures block { (n : ℕ) → n < block_bytes
        → slice_index result (before_bytes + n) ≡ slice_index block.now n % 64 }
{
    let mut row = [0; ROW_BYTES];
    put(&mut row, 0, early);
    put(&mut row, EARLY_BYTES, late);
    put_symbols(&mut row, block);
    row
}

// Writes bytes from a place on. The bytes before this place do not change.
#[inline(always)]
fn put(row: &mut [u8; ROW_BYTES], at: usize, bytes: &[u8])
    requires { at + length bytes.now ≤ row_bytes }
    ensures before { (n : ℕ) → n < at → slice_index row.new n ≡ slice_index row.old n }
    ensures put { (n : ℕ) → n < length bytes.now → slice_index row.new (at + n) ≡ slice_index bytes.now n }
{
    for i in 0..bytes.len() {
        row[at + i] = bytes[i];
    }
}

// Writes the symbols of a block after the seven slots of a row.
#[inline(always)]
fn put_symbols(row: &mut [u8; ROW_BYTES], block: &[u8; BLOCK_BYTES])
    ensures before { (n : ℕ) → n < before_bytes → slice_index row.new n ≡ slice_index row.old n }
    ensures block { (n : ℕ) → n < block_bytes
        → slice_index row.new (before_bytes + n) ≡ slice_index block.now n % 64 }
{
    for i in 0..BLOCK_BYTES {
        row[BEFORE_BYTES + i] = block[i] % 64;
    }
}

// The bytes of three slots of a row, from a byte on.
#[inline(always)]
fn three_slots(row: &[u8; ROW_BYTES], at: usize) -> [u8; EARLY_BYTES]
    requires { at ≤ block_bytes }
    ensures { (n : ℕ) → n < early_bytes → slice_index result n ≡ slice_index row.now (at + n) }
{
    let mut slots = [0; EARLY_BYTES];
    slots.copy_from_slice(&row[at..at + EARLY_BYTES]);
    slots
}

// The bytes of the four slots after these three.
#[inline(always)]
fn four_slots(row: &[u8; ROW_BYTES], at: usize) -> [u8; BLOCK_BYTES]
    requires { at ≤ block_bytes }
    ensures { (n : ℕ) → n < block_bytes → slice_index result n ≡ slice_index row.now (at + early_bytes + n) }
{
    let mut slots = [0; BLOCK_BYTES];
    slots.copy_from_slice(&row[at + EARLY_BYTES..at + BEFORE_BYTES]);
    slots
}

// The symbols of a block: the low six bits of its bytes.
#[inline(always)]
fn symbols_of(block: &[u8; BLOCK_BYTES]) -> [u8; BLOCK_BYTES]
    ensures { (n : ℕ) → n < block_bytes → slice_index result n ≡ slice_index block.now n % 64 }
{
    let mut symbols = [0; BLOCK_BYTES];
    for i in 0..BLOCK_BYTES {
        symbols[i] = block[i] % 64;
    }
    symbols
}

// The bytes of the last three of four slots.
#[inline(always)]
fn last_three(four: &[u8; BLOCK_BYTES]) -> [u8; EARLY_BYTES]
    ensures { (n : ℕ) → n < early_bytes → slice_index result n ≡ slice_index four.now (symbols_a_slot + n) }
{
    let mut slots = [0; EARLY_BYTES];
    slots.copy_from_slice(&four[SYMBOLS_A_SLOT..SYMBOLS_A_SLOT + EARLY_BYTES]);
    slots
}

// The word of eight slots, from slot `first` on. Symbol i of a pack is written at position p (`swapped`),
// p % 8 slots later. So its distance from the first slot is 24 * (p % 8) + p bytes; the code has these
// numbers. For example, symbol 1 is at position 18, and its distance is 24 * 2 + 18 = 66.
#[inline]
fn word_at(
    early: &[u8; EARLY_BYTES],
    late: &[u8; BLOCK_BYTES],
    block: &[u8; BLOCK_BYTES],
    first: usize,
) -> Word
    requires first { first < slots_a_block }
    requires symbols { AreRowSymbols early.now late.now block.now }
    ensures { result ≡ gathered (slots_in (early.now ++ (late.now ++ block.now)) first span) }
{
    let at = SYMBOLS_A_SLOT * first;
    Word::of_eights(
        [
            symbol(early, late, block, at),
            symbol(early, late, block, at + 66),
            symbol(early, late, block, at + 125),
            symbol(early, late, block, at + 191),
            symbol(early, late, block, at + 100),
            symbol(early, late, block, at + 50),
            symbol(early, late, block, at + 150),
            symbol(early, late, block, at + 175),
        ],
        [
            symbol(early, late, block, at + 8),
            symbol(early, late, block, at + 33),
            symbol(early, late, block, at + 58),
            symbol(early, late, block, at + 83),
            symbol(early, late, block, at + 108),
            symbol(early, late, block, at + 133),
            symbol(early, late, block, at + 158),
            symbol(early, late, block, at + 183),
        ],
        [
            symbol(early, late, block, at + 16),
            symbol(early, late, block, at + 41),
            symbol(early, late, block, at + 25),
            symbol(early, late, block, at + 91),
            symbol(early, late, block, at + 116),
            symbol(early, late, block, at + 141),
            symbol(early, late, block, at + 166),
            symbol(early, late, block, at + 75),
        ],
    )
}

// Symbol i of the last seven slots and the block after them. It is inlined, so that a constant place needs no
// comparison.
#[inline(always)]
fn symbol(
    early: &[u8; EARLY_BYTES],
    late: &[u8; BLOCK_BYTES],
    block: &[u8; BLOCK_BYTES],
    i: usize,
) -> u8
    requires { i < row_bytes }
    ensures { result ≡ slice_index (early.now ++ (late.now ++ block.now)) i }
{
    if i < EARLY_BYTES {
        early[i]
    } else if i < BEFORE_BYTES {
        late[i - EARLY_BYTES]
    } else {
        block[i - BEFORE_BYTES]
    }
}

#[inline]
fn idle_words() -> ArrayVec<Word, SLOTS_A_BLOCK>
    ensures { result.items ≡ replicate slots_a_block idle_pack }
{
    ArrayVec::from([Word::default(); SLOTS_A_BLOCK])
}
