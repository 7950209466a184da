// From words to a screen.
ghost use Rattle.std.specs.Prelude.{◌≡◌, ◌∷◌, [], replicate};
ghost use Rattle.cdg_instructions.specs.Meaning.{meaning};
ghost use Rattle.cdg_screen.specs.Memory.{seen};
ghost use Rattle.cdg_screen.specs.Standing.{standing_after};
ghost use Rattle.raw_subcode.specs.Sizes.{slots_a_block};
ghost use Rattle.rw_code.specs.Codeword.{IsCodeword};
ghost use Rattle.rw_code.specs.Finding.{finding};
ghost use Rattle.rw_code.specs.Packs.{idle_pack};
ghost use Rattle.stream_stages.specs.Steps.{bad_next};
ghost use Rattle.stream_stages.specs.Drawn.{entry_drawn, draw_next, draw_after, painting_next, painting_gives};

use crate::block_words::{BlockOfWords, idle_is_codeword, is_idle};
use arrayvec::ArrayVec;
use cdg_instructions::read;
use cdg_io::{Piece, Stage};
use cdg_screen::{PlainScreen, Screen};
use raw_subcode::SLOTS_A_BLOCK;
use rw_code::{Pack, Word, correct};

/// Corrects and draws the first words of a stream, and counts the bad ones among them.
#[derive(Drop)]
pub struct Painting {
    pub screen: Screen,
    /// The number of packs that are still to be drawn.
    pub left: u32,
    pub bad: u32,
}

impl Painting {
    #[inline]
    fn draw_block(&mut self, words: &BlockOfWords)
        ensures { self.new ≡ painting_next self.old words.now }
    {
        idle_is_codeword();
        match words.unless_idle() {
            // Most blocks of a disc are idle.
            None => self.draw_four_idle(),
            Some(words) => self.draw_each(words),
        }
    }

    #[inline(never)]
    fn draw_each(&mut self, words: &ArrayVec<Word, SLOTS_A_BLOCK>)
        ensures { self.new ≡ painting_next self.old words.now }
    {
        for word in words.as_slice() {
            self.draw(word);
        }
    }

    // Draws four idle words, which change no screen.
    fn draw_four_idle(&mut self)
        requires { IsCodeword idle_pack }
        ensures { self.new ≡ draw_after self.old (replicate slots_a_block idle_pack) }
    {
        self.left = self.left.saturating_sub(SLOTS_A_BLOCK as u32);
        // A law: these words draw nothing.
        self.screen.what_stands_is_whole();
    }

    // Corrects and draws a word, if packs are still to be drawn.
    #[tactic(auto, unfolding(crate::specs::Drawn::draw_next))]
    fn draw(&mut self, word: &Word)
        ensures { self.new ≡ draw_next self.old word.now }
    {
        if self.left > 0 {
            self.left -= 1;
            draw_word(&mut self.screen.plain, &mut self.bad, word);
        }
    }
}

/// Draws the corrected word on a screen, or counts the word as bad.
pub fn draw_word(screen: &mut PlainScreen, bad: &mut u32, word: &Word)
    ensures screen { seen screen.new ≡ entry_drawn (seen screen.old) (finding word.now) }
    ensures bad { bad.new ≡ bad_next bad.old word.now }
{
    // Most words of a disc are idle and draw nothing. Few other words begin with 0.
    if word.get(0).value() == 0 && is_idle(word) {
        idle_packs_draw_nothing(screen);
    } else {
        draw_corrected(screen, bad, word);
    }
}

// Corrects a word and draws it, or counts it as bad.
fn draw_corrected(screen: &mut PlainScreen, bad: &mut u32, word: &Word)
    ensures screen { seen screen.new ≡ entry_drawn (seen screen.old) (finding word.now) }
    ensures bad { bad.new ≡ bad_next bad.old word.now }
{
    match correct(word) {
        Some(fixed) => carry_out(&fixed.pack, screen),
        None => *bad = bad.saturating_add(1),
    }
}

fn carry_out(pack: &Pack, screen: &mut PlainScreen)
    ensures { seen screen.new ≡ standing_after (seen screen.old) (meaning pack.now ∷ []) }
{
    screen.obey(&read(pack));
}

// A law: an idle pack changes no screen.
fn idle_packs_draw_nothing(screen: &PlainScreen)
    ensures { seen screen.now ≡ standing_after (seen screen.now) (meaning idle_pack ∷ []) }
{
    screen.what_stands_is_whole();
}

impl Stage for Painting {
    type Item = BlockOfWords;

    type Out = Piece;

    ghost next = { painting_next };

    ghost gives = { painting_gives };

    #[tactic(auto, unfolding(crate::specs::Drawn::painting_gives))]
    fn feed(&mut self, words: &BlockOfWords) -> Option<Piece> {
        self.draw_block(words);
        None
    }

    #[inline]
    #[tactic(auto, unfolding(crate::specs::Drawn::painting_gives))]
    fn emit(&mut self, words: &BlockOfWords, out: &mut Option<Piece>) {
        self.draw_block(words);
        // The stage has no output. An output that is already empty is not written.
        if out.is_some() {
            *out = None;
        }
    }
}
