// From sectors to blocks, and from blocks to words.
ghost use Rattle.std.specs.Prelude.{◌≡◌, ◌<◌, true, List, ℕ, MatchOption, Some, replicate, length, map, drop};
ghost use Rattle.arrayvec.specs.ArrayVec.{ArrayVec};
ghost use Rattle.raw_subcode.specs.Sizes.{slots_a_block, audio_bytes};
ghost use Rattle.cdg_io.specs.Run.{run_gives, run_state};
ghost use Rattle.rw_code.specs.Packs.{idle_pack};
ghost use Rattle.rw_interleave.specs.Gathering.{gather_gives, gather_next};
ghost use Rattle.rw_interleave.specs.Windows.{slots_in};
ghost use Rattle.stream_stages.specs.Steps.{IdlesOn, fresh_words, words_or_idle, slot_of, slots_of, words_or_none, words_next, words_give};
ghost use Rattle.rw_code.specs.Codeword.{IsCodeword};
ghost use Rattle.rw_code.specs.Finding.{finding};

use arrayvec::ArrayVec;
use cdg_io::Stage;
use raw_subcode::{BLOCK_BYTES, Block, Form, SECTOR_BYTES, SLOTS_A_BLOCK, SYMBOLS_A_SLOT};
use rw_code::{Pack, Word};
use rw_interleave::Gather;
use std::marker::Model;

/// The words that a block completes: at most one for each slot.
#[derive(Drop)]
pub struct BlockOfWords {
    /// None if they are four idle packs.
    words: Option<ArrayVec<Word, SLOTS_A_BLOCK>>,
}

impl Model for BlockOfWords {
    ghost Value = { ArrayVec (List ℕ) };

    ghost view = { λ b. words_or_idle b.words };
}

impl BlockOfWords {
    #[inline]
    fn idle() -> BlockOfWords
        ensures { result.items ≡ replicate slots_a_block idle_pack }
    {
        BlockOfWords { words: None }
    }

    fn new(words: ArrayVec<Word, SLOTS_A_BLOCK>) -> BlockOfWords
        ensures { result ≡ words }
    {
        BlockOfWords { words: Some(words) }
    }

    /// The words, or None if they are four idle packs.
    #[inline]
    pub fn unless_idle(&self) -> Option<&ArrayVec<Word, SLOTS_A_BLOCK>>
        ensures { MatchOption result (self.now.items ≡ replicate slots_a_block idle_pack)
            (λ words. words.now ≡ self.now) }
    {
        self.words.as_ref()
    }

    pub fn into_words(self) -> ArrayVec<Word, SLOTS_A_BLOCK>
        ensures { result ≡ self }
    {
        match self.words {
            Some(words) => words,
            None => ArrayVec::from([Word::default(); SLOTS_A_BLOCK]),
        }
    }
}

/// Skips the blocks of the lead-in, and outputs the words that each block of the program completes.
#[derive(Drop)]
pub struct BlockWords {
    /// The form of the stream.
    pub form: Form,
    /// The number of lead-in blocks that are still to come.
    pub lead_in: u32,
    /// The most recent slots, from which words are gathered.
    pub gather: Gather,
}

impl BlockWords {
    /// The state before any stream.
    pub fn new() -> BlockWords
        ensures { result ≡ fresh_words Form.Raw 0 }
    {
        BlockWords {
            form: Form::Raw,
            lead_in: 0,
            gather: Gather::new(),
        }
    }

    /// Starts a stream of this form.
    pub fn begin(&mut self, lead_in: u32, form: Form)
        ensures { self.new ≡ fresh_words form lead_in }
    {
        self.form = form;
        self.lead_in = lead_in;
        self.gather.reset();
    }

    /// Whether a quick test shows that a block changes nothing and completes four idle words. It is inlined,
    /// so that a run of blocks reads each byte only once.
    #[inline(always)]
    pub fn stays_idle(&self, block: &[u8; BLOCK_BYTES]) -> bool
        ensures { result ≡ true → IdlesOn self.now block.now }
    {
        // The gatherer's test comes first, since it rejects most busy blocks at once.
        if !self.gather.stays_idle(block) || self.lead_in > 0 {
            return false;
        }
        match self.form {
            Form::Raw | Form::Sector => true,
            Form::Cooked => false,
        }
    }

    /// The words that a block completes; none in the lead-in. It does not test whether the block is idle.
    #[inline]
    #[tactic(auto, unfolding(crate::specs::Steps::words_next, crate::specs::Steps::words_give))]
    pub(crate) fn gathered(&mut self, block: &[u8; BLOCK_BYTES]) -> ArrayVec<Word, SLOTS_A_BLOCK>
        ensures next { self.new ≡ words_next self.old block.now }
        ensures gives { result.items ≡ words_or_none (words_give self.old block.now) }
    {
        if self.lead_in > 0 {
            self.lead_in -= 1;
            return ArrayVec::new();
        }
        match self.form {
            Form::Raw | Form::Sector => self.gather.gather_block(block),
            Form::Cooked => slots(block),
        }
    }
}

impl Stage for BlockWords {
    type Item = [u8; BLOCK_BYTES];

    type Out = BlockOfWords;

    ghost next = { words_next };

    ghost gives = { words_give };

    ghost idle = { Some (record { items = replicate slots_a_block idle_pack }) };

    // The words are gathered in the output itself: `gathered` would copy them.
    #[inline]
    #[tactic(auto, unfolding(crate::specs::Steps::words_next, crate::specs::Steps::words_give))]
    fn feed(&mut self, block: &[u8; BLOCK_BYTES]) -> Option<BlockOfWords> {
        if self.stays_idle(block) {
            return Some(BlockOfWords::idle());
        }
        if self.lead_in > 0 {
            self.lead_in -= 1;
            return None;
        }
        match self.form {
            Form::Raw | Form::Sector => Some(BlockOfWords::new(self.gather.gather_block(block))),
            Form::Cooked => Some(BlockOfWords::new(slots(block))),
        }
    }

    #[inline(always)]
    #[tactic(auto, unfolding(crate::specs::Steps::words_next, crate::specs::Steps::words_give))]
    fn sees_idle(&self, block: &[u8; BLOCK_BYTES]) -> bool {
        self.stays_idle(block)
    }

    #[inline]
    fn idle_gives() -> Option<BlockOfWords> {
        Some(BlockOfWords::idle())
    }
}

// The slots of a block, as words.
fn slots(block: &[u8; BLOCK_BYTES]) -> ArrayVec<Word, SLOTS_A_BLOCK>
    ensures { result.items ≡ slots_of block.now }
{
    ArrayVec::from([
        slot(block, 0),
        slot(block, 1),
        slot(block, 2),
        slot(block, 3),
    ])
}

fn slot(block: &[u8; BLOCK_BYTES], i: usize) -> Word
    requires { i < slots_a_block }
    ensures { result ≡ slot_of block.now i }
{
    let mut bytes = [0; SYMBOLS_A_SLOT];
    bytes.copy_from_slice(&block[SYMBOLS_A_SLOT * i..SYMBOLS_A_SLOT * i + SYMBOLS_A_SLOT]);
    Word::new(&bytes)
}

#[inline]
pub(crate) fn is_idle(word: &Word) -> bool
    ensures { result ≡ true → (word.now ≡ idle_pack) × IsCodeword word.now }
{
    word.bytes() == Pack::idle().word().bytes()
}

/// A law: the idle pack is a codeword.
#[inline]
pub(crate) fn idle_is_codeword()
    ensures { IsCodeword idle_pack }
{
    Pack::idle().word();
}

/// Makes a stage for sectors from a stage for blocks, which gets the block of each sector.
#[derive(Drop)]
pub struct SectorBlocks<G> {
    /// The stage for blocks.
    pub blocks: G,
}

impl<G: Stage<Item = [u8; BLOCK_BYTES]>> Stage for SectorBlocks<G>
where
    G::Out: Drop,
{
    type Item = [u8; SECTOR_BYTES];

    type Out = G::Out;

    ghost next = { λ s sector. record { blocks = G.next s.blocks (drop audio_bytes sector) } };

    ghost gives = { λ s sector. G.gives s.blocks (drop audio_bytes sector) };

    fn feed(&mut self, sector: &[u8; SECTOR_BYTES]) -> Option<G::Out> {
        self.blocks.feed(&Block::from_sector(sector).bytes())
    }

    fn emit(&mut self, sector: &[u8; SECTOR_BYTES], out: &mut Option<G::Out>) {
        self.blocks.emit(&Block::from_sector(sector).bytes(), out);
    }
}
