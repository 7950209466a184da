// Counts of words, packs and frames.
ghost use Rattle.std.specs.Prelude.{◌≡◌, ◌<◌, ◌+◌, ◌-◌, ◌^◌, replicate, true, false, Some, None};
ghost use Rattle.raw_subcode.specs.Sizes.{slots_a_block};
ghost use Rattle.rw_code.specs.Codeword.{IsCodeword, differences};
ghost use Rattle.rw_code.specs.Packs.{idle_pack};
ghost use Rattle.stream_stages.specs.Steps.{fresh_words};
ghost use Rattle.stream_stages.specs.Stages.{counts_of, words_of};
ghost use Rattle.stream_stages.specs.Check.{is_known};
ghost use Rattle.stream_stages.specs.CheckSteps.{tick, near_counted, with_near, wrong_counted, kind_counted, count_found, count_next, count_after, counts_next, counts_give, frames_next, counting_next, counting_gives, nothing_counted};

use crate::BlockWords;
use crate::block_words::{BlockOfWords, idle_is_codeword};
use arrayvec::ArrayVec;
use cdg_io::{Piece, Stage, Then};
use q_channel::is_frame;
use raw_subcode::{BLOCK_BYTES, Block, Form, SLOTS_A_BLOCK};
use rw_code::{Fixed, Word, correct_by_sums};

// The maximum number of wrong symbols in a word that is corrected.
const MOST_WRONG: u8 = 2;

/// Counts of words. Each word counts in one of the first four fields, by its wrong symbols. Each word that is not bad
/// also counts in one of the last four fields, by the kind of its pack. The counts saturate.
#[derive(Clone, Copy, Default)]
pub struct WordCounts {
    /// Codewords.
    pub clean: u32,
    /// Words that differ from a codeword in one symbol.
    pub one: u32,
    /// Words that differ from a codeword in two symbols.
    pub two: u32,
    /// Words with no codeword within two symbols.
    pub bad: u32,
    /// Packs of mode 0.
    pub idle: u32,
    /// Packs of mode 9 with the number of an instruction.
    pub graphics: u32,
    /// Packs of mode 9 with another number.
    pub unknown: u32,
    /// Packs of any other mode.
    pub foreign: u32,
}

/// Counts of Q frames, for streams with a Q channel.
#[derive(Clone, Copy, Default)]
pub struct FrameCounts {
    /// Whether the blocks have a Q channel.
    pub read: bool,
    /// Good frames.
    pub good: u32,
    /// Bad frames.
    pub bad: u32,
}

/// Counts the frames of all blocks, and the words of the program blocks.
#[derive(Drop)]
pub struct Counting {
    pub frames: FrameCounts,
    pub words: Then<BlockWords, WordCounts>,
}

// Adds one to a count if `hit`; the count saturates. It does not branch, because hits on a scratched disc are not
// predictable.
#[inline]
#[tactic(auto, unfolding(crate::specs::CheckSteps::tick))]
fn tick(count: &mut u32, hit: bool)
    ensures { count.new ≡ tick hit count.old }
{
    *count = count.saturating_add(u32::from(hit));
}

// Clears an output. It is a separate function so that blocks do not pay for its variables.
#[inline(never)]
fn clear(out: &mut Option<Piece>)
    ensures { out.new ≡ None }
{
    *out = None;
}

// Whether this number names a graphics instruction.
fn is_known(code: u8) -> bool
    ensures { result ≡ is_known code }
{
    matches!(code, 1 | 2 | 6 | 20 | 24 | 28 | 30 | 31 | 38)
}

// A law: a count is a number of 32 bits.
#[inline]
fn counts_fit(count: u32)
    ensures { count < 2 ^ 32 }
{
    let _ = count;
}

// Counts of the words that are corrected to the idle pack, by their wrong symbols.
#[derive(Clone, Copy)]
struct NearIdle {
    clean: u32,
    one: u32,
    two: u32,
}

impl NearIdle {
    #[inline]
    fn none() -> NearIdle
        ensures { result ≡ record { clean = 0; one = 0; two = 0 } }
    {
        NearIdle {
            clean: 0,
            one: 0,
            two: 0,
        }
    }

    // Counts one more word with this number of wrong symbols.
    #[inline]
    fn count(&mut self, wrong: u8)
        requires { self.old.clean + self.old.one + self.old.two < 2 ^ 32 - 1 }
        ensures { self.new ≡ near_counted self.old wrong }
    {
        self.clean += u32::from(wrong == 0);
        self.one += u32::from(wrong == 1);
        self.two += u32::from(wrong == 2);
    }
}

impl WordCounts {
    // Counts the words of a block one by one. The many words that are corrected to the idle pack are counted
    // separately and added at the end.
    #[inline(never)]
    fn count_each(&mut self, words: &ArrayVec<Word, SLOTS_A_BLOCK>)
        requires { IsCodeword idle_pack }
        ensures { self.new ≡ counts_next self.old words.now }
    {
        // A count has 32 bits, so adding 0 to it changes nothing.
        counts_fit(self.idle);
        let mut near = NearIdle::none();
        for word in words.as_slice() {
            let wrong = word.weight();
            if wrong <= MOST_WRONG {
                near.count(wrong);
            } else {
                self.count_corrected(word);
            }
        }
        self.count_near(near);
    }

    fn count_near(&mut self, near: NearIdle)
        requires { near.clean + near.one + near.two < 2 ^ 32 }
        ensures { self.new ≡ with_near self.old near }
    {
        self.clean = self.clean.saturating_add(near.clean);
        self.one = self.one.saturating_add(near.one);
        self.two = self.two.saturating_add(near.two);
        self.idle = self.idle.saturating_add(near.clean + near.one + near.two);
    }

    #[inline]
    fn count_block(&mut self, words: &BlockOfWords)
        ensures { self.new ≡ counts_next self.old words.now }
    {
        idle_is_codeword();
        match words.unless_idle() {
            // Most blocks of a disc are idle.
            None => self.count_four_idle(),
            Some(words) => self.count_each(words),
        }
    }

    // Corrects and counts a word that is not near the idle pack.
    fn count_corrected(&mut self, word: &Word)
        ensures { self.new ≡ count_next self.old word.now }
    {
        match correct_by_sums(word) {
            Some(fixed) => self.count_fixed(&fixed, word),
            None => self.count_bad(word),
        }
    }

    fn count_idle(&mut self)
        ensures { self.new ≡ record self.old {
          clean = tick true self.old.clean;
          idle = tick true self.old.idle;
        } }
    {
        tick(&mut self.clean, true);
        tick(&mut self.idle, true);
    }

    fn count_four_idle(&mut self)
        requires { IsCodeword idle_pack }
        ensures { self.new ≡ count_after self.old (replicate slots_a_block idle_pack) }
    {
        self.count_idle();
        self.count_idle();
        self.count_idle();
        self.count_idle();
    }

    fn count_fixed(&mut self, fixed: &Fixed, word: &Word)
        requires { fixed.now.wrong ≡ differences word.now fixed.now.pack }
        ensures { self.new ≡ count_found self.old word.now (Some fixed.now.pack) }
    {
        let symbols = fixed.pack.word();
        self.count_wrong(fixed.wrong);
        self.count_kind(symbols.get(0).value(), symbols.get(1).value());
    }

    #[inline]
    fn count_wrong(&mut self, wrong: u8)
        ensures { self.new ≡ wrong_counted self.old wrong }
    {
        tick(&mut self.clean, wrong == 0);
        tick(&mut self.one, wrong == 1);
        tick(&mut self.two, wrong == 2);
    }

    // Counts a pack by its kind.
    #[inline]
    fn count_kind(&mut self, mode: u8, code: u8)
        ensures { self.new ≡ kind_counted self.old mode code }
    {
        let known = is_known(code);
        tick(&mut self.idle, mode == 0);
        tick(&mut self.graphics, mode == 9 && known);
        tick(&mut self.unknown, mode == 9 && !known);
        tick(&mut self.foreign, !(mode == 0 || mode == 9));
    }

    #[tactic(auto, unfolding(crate::specs::CheckSteps::count_found, crate::specs::CheckSteps::tick))]
    fn count_bad(&mut self, word: &Word)
        ensures { self.new ≡ count_found self.old word.now None }
    {
        self.bad = self.bad.saturating_add(1);
    }
}

impl Stage for WordCounts {
    type Item = BlockOfWords;

    type Out = Piece;

    ghost next = { counts_next };

    ghost gives = { counts_give };

    #[tactic(auto, unfolding(crate::specs::CheckSteps::counts_give))]
    fn feed(&mut self, words: &BlockOfWords) -> Option<Piece> {
        self.count_block(words);
        None
    }

    #[inline]
    #[tactic(auto, unfolding(crate::specs::CheckSteps::counts_give))]
    fn emit(&mut self, words: &BlockOfWords, out: &mut Option<Piece>) {
        self.count_block(words);
        if out.is_some() {
            clear(out);
        }
    }
}

impl FrameCounts {
    // Counts the frame of a block, if the stream has frames.
    #[tactic(auto, unfolding(crate::specs::CheckSteps::frames_next))]
    fn count(&mut self, block: &[u8; BLOCK_BYTES])
        ensures { self.new ≡ frames_next self.old block.now }
    {
        if self.read {
            let is_good = is_frame(&Block::from_bytes(block).q_frame());
            tick(&mut self.good, is_good);
            tick(&mut self.bad, !is_good);
        }
    }
}

impl Counting {
    /// The state before any stream.
    pub fn new() -> Counting
        ensures words { words_of result.words ≡ fresh_words Form.Raw 0 }
        ensures counts { counts_of result.words ≡ nothing_counted }
        ensures frames { result.frames ≡ record { read = false; good = 0; bad = 0 } }
    {
        Counting {
            frames: FrameCounts::default(),
            words: Then::new(BlockWords::new(), WordCounts::default()),
        }
    }
}

impl Stage for Counting {
    type Item = [u8; BLOCK_BYTES];

    type Out = Piece;

    ghost next = { counting_next };

    ghost gives = { counting_gives };

    #[tactic(auto, unfolding(crate::specs::CheckSteps::counting_next, crate::specs::CheckSteps::counting_gives))]
    fn feed(&mut self, block: &[u8; BLOCK_BYTES]) -> Option<Piece> {
        self.frames.count(block);
        self.words.feed(block)
    }

    #[inline]
    #[tactic(auto, unfolding(crate::specs::CheckSteps::counting_next, crate::specs::CheckSteps::counting_gives))]
    fn emit(&mut self, block: &[u8; BLOCK_BYTES], out: &mut Option<Piece>) {
        self.frames.count(block);
        self.words.emit(block, out);
    }
}
