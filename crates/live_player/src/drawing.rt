// Drawing the words of a block on a screen.
ghost use Rattle.std.specs.Prelude.{◌≡◌, map, replicate};
ghost use Rattle.cdg_screen.specs.Memory.{seen};
ghost use Rattle.cdg_screen.specs.Standing.{standing_after};
ghost use Rattle.live_player.specs.Lives.{bad_counted, drawn_for, instructions_of};
ghost use Rattle.stream_stages.specs.Steps.{words_give, words_next};
ghost use Rattle.raw_subcode.specs.Sizes.{slots_a_block};
ghost use Rattle.rw_code.specs.Codeword.{IsCodeword};
ghost use Rattle.rw_code.specs.Finding.{finding};
ghost use Rattle.rw_code.specs.Packs.{idle_pack};
ghost use Rattle.rw_interleave.specs.Stream.{bad_count};

use arrayvec::ArrayVec;
use cdg_io::Stage;
use cdg_screen::PlainScreen;
use raw_subcode::{BLOCK_BYTES, SLOTS_A_BLOCK};
use rw_code::{Pack, Word};
use stream_stages::{BlockOfWords, BlockWords, draw_word};

/// Reads the next block of a stream: gathers the words that end with it, draws their codewords and counts the words
/// with no codeword near.
#[inline]
pub fn play(
    words: &mut BlockWords,
    screen: &mut PlainScreen,
    bad: &mut u32,
    block: &[u8; BLOCK_BYTES],
) -> Option<BlockOfWords>
    ensures gathers { words.new ≡ words_next words.old block.now }
    ensures gives { result ≡ words_give words.old block.now }
    ensures draws { seen screen.new
        ≡ standing_after (seen screen.old) (drawn_for (words_give words.old block.now)) }
    ensures bad { bad.new ≡ bad_counted bad.old (words_give words.old block.now) }
{
    let came = words.feed(block);
    // A law: the state of a screen is complete, so instructions can be carried out on it.
    screen.what_stands_is_whole();
    match &came {
        Some(came) => {
            let none_near = draw_words(screen, came);
            *bad = bad.saturating_add(none_near);
        }
        None => {}
    }
    came
}

// Draws the codewords of the words of a block, and returns the number of words with no codeword near.
#[inline]
fn draw_words(screen: &mut PlainScreen, words: &BlockOfWords) -> u32
    ensures drawn { seen screen.new ≡ standing_after (seen screen.old) (instructions_of words.now.items) }
    ensures bad { result ≡ bad_count (map finding words.now.items) }
{
    match words.unless_idle() {
        // Most blocks of a disc are idle, and draw nothing.
        None => {
            idle_words_draw_nothing(screen);
            0
        }
        Some(words) => draw_each(screen, words),
    }
}

// Draws words one by one, and counts those with no codeword near.
#[inline(never)]
fn draw_each(screen: &mut PlainScreen, words: &ArrayVec<Word, SLOTS_A_BLOCK>) -> u32
    ensures drawn { seen screen.new ≡ standing_after (seen screen.old) (instructions_of words.now.items) }
    ensures bad { result ≡ bad_count (map finding words.now.items) }
{
    // A law: the state of a screen is complete, so instructions can be carried out on it.
    screen.what_stands_is_whole();
    let mut bad = 0;
    for word in words.as_slice() {
        draw_word(screen, &mut bad, word);
    }
    bad
}

// A law: four idle words draw nothing, and none of them is bad.
#[inline]
fn idle_words_draw_nothing(screen: &PlainScreen)
    ensures drawn { seen screen.now
        ≡ standing_after (seen screen.now) (instructions_of (replicate slots_a_block idle_pack)) }
    ensures bad { 0 ≡ bad_count (map finding (replicate slots_a_block idle_pack)) }
{
    screen.what_stands_is_whole();
    idle_is_codeword();
}

// A law: the idle pack is a codeword.
#[inline]
fn idle_is_codeword()
    ensures { IsCodeword idle_pack }
{
    Pack::idle().word();
}
