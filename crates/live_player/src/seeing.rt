// Drawing the words of a block on a screen, and watching the changes.
ghost use Rattle.std.specs.Prelude.{◌≡◌, ◌≤◌, ◌<◌, ◌^◌, ◌%◌, ◌⊎◌, ◌∷◌, [], All, IsTrue, ℕ, drop, length, map, slice_index, true};
ghost use Rattle.cdg_io.specs.Run.{run_state};
ghost use Rattle.cdg_screen.specs.Memory.{seen};
ghost use Rattle.cdg_screen.specs.Standing.{offsets_from, standing_after};
ghost use Rattle.live_player.specs.Changes.{sees, IsWithinScreen};
ghost use Rattle.live_player.specs.Lives.{bad_counted, drawn_for, instruction_of, instructions_of};
ghost use Rattle.cdg_instructions.specs.Effect.{effect_of};
ghost use Rattle.cdg_instructions.specs.Instruction.{content_of, InRange};
ghost use Rattle.cdg_instructions.specs.Meaning.{meaning};
ghost use Rattle.cdg_instructions.specs.Sizes.{tile_height};
ghost use Rattle.cdg_instructions.specs.declared.effect.Effect.TheVariants.{Draw};
ghost use Rattle.cdg_screen.specs.Touched.{tile_touched, touched_by};
ghost use Rattle.rw_code.specs.Codeword.{IsCodeword, IsWord};
ghost use Rattle.rw_code.specs.Finding.{finding};
ghost use Rattle.rw_code.specs.Packs.{idle_pack};
ghost use Rattle.rw_interleave.specs.Stream.{bad_count};
ghost use Rattle.stream_stages.specs.Drawn.{entry_drawn};
ghost use Rattle.stream_stages.specs.Steps.{bad_next, words_give, words_next, IdlesOn};

use crate::watch::Watch;
use arrayvec::ArrayVec;
use cdg_instructions::{DrawnTile, Instr, TILE_HEIGHT, read, read_word};
use cdg_io::Stage;
use cdg_screen::PlainScreen;
use raw_subcode::{BLOCK_BYTES, SLOTS_A_BLOCK};
use rw_code::{Pack, SYMBOLS, Word, correct};
use stream_stages::{BlockOfWords, BlockWords};

/// The first symbol of a pack with graphics.
pub(crate) const GRAPHICS: u8 = 9;

// The second symbol of a pack that sets a tile, or combines a tile with the pixels there.

const SET_TILE: u8 = 6;

const XOR_TILE: u8 = 38;

/// Reads the next block of a stream, and adds the changes of the screen to the watch.
#[inline(always)]
pub(crate) fn play_seen(
    words: &mut BlockWords,
    screen: &mut PlainScreen,
    bad: &mut u32,
    watch: &mut Watch,
    block: &[u8; BLOCK_BYTES],
)
    requires { IsWithinScreen watch.old.change }
    ensures gathers { words.new ≡ words_next words.old block.now }
    ensures draws { seen screen.new
        ≡ standing_after (seen screen.old) (drawn_for (words_give words.old block.now)) }
    ensures bad { bad.new ≡ bad_counted bad.old (words_give words.old block.now) }
    ensures sees { watch.new ≡ run_state sees watch.old (drawn_for (words_give words.old block.now)) }
    ensures within { IsWithinScreen watch.new.change }
{
    // Most blocks of a disc are idle.
    if words.stays_idle(block) {
        idle_block_changes_nothing(words, screen, bad, watch, block);
    } else {
        play_busy(words, screen, bad, watch, block);
    }
}

/// Draws a pack of a .cdg file, and adds the changes of the screen to the watch.
#[inline(always)]
pub(crate) fn draw_seen(screen: &mut PlainScreen, watch: &mut Watch, pack: &[u8; SYMBOLS])
    ensures draws { seen screen.new ≡ standing_after (seen screen.old) (instruction_of pack.now ∷ []) }
    ensures sees { watch.new ≡ sees watch.old (instruction_of pack.now) }
{
    let symbols = Word::new(pack).bytes();
    // Most packs with graphics draw a tile.
    if is_tile(&symbols) {
        draw_tile_seen(screen, watch, &symbols);
    } else {
        draw_other_seen(screen, watch, pack);
    }
}

// Draws a pack that draws no tile, and adds the changes of the screen to the watch. It is not inlined, so
// that tiles do not pay for its variables.
#[inline(never)]
fn draw_other_seen(screen: &mut PlainScreen, watch: &mut Watch, pack: &[u8; SYMBOLS])
    ensures draws { seen screen.new ≡ standing_after (seen screen.old) (instruction_of pack.now ∷ []) }
    ensures sees { watch.new ≡ sees watch.old (instruction_of pack.now) }
{
    let instr = read_pack(pack);
    screen.obey(&instr);
    watch.see(&instr);
}

#[inline(always)]
fn is_tile(symbols: &[u8; SYMBOLS]) -> bool
    ensures { IsTrue result → (slice_index symbols.now 0 ≡ 9)
        × ((slice_index symbols.now 1 ≡ 6) ⊎ (slice_index symbols.now 1 ≡ 38)) }
{
    symbols[0] == GRAPHICS && (symbols[1] == SET_TILE || symbols[1] == XOR_TILE)
}

// Draws the tile of a pack with these symbols.
#[inline(always)]
fn draw_tile_seen(screen: &mut PlainScreen, watch: &mut Watch, symbols: &[u8; SYMBOLS])
    requires symbols { IsWord symbols.now }
    requires mode { slice_index symbols.now 0 ≡ 9 }
    requires code { (slice_index symbols.now 1 ≡ 6) ⊎ (slice_index symbols.now 1 ≡ 38) }
    ensures draws { seen screen.new ≡ standing_after (seen screen.old) (meaning symbols.now ∷ []) }
    ensures sees { watch.new ≡ sees watch.old (meaning symbols.now) }
{
    let tile = tile_of(symbols);
    screen.draw(&tile);
    watch.see_tile(tile.row, tile.column);
}

// The tile of a pack that sets or combines one.
#[inline(always)]
fn tile_of(symbols: &[u8; SYMBOLS]) -> DrawnTile
    requires symbols { IsWord symbols.now }
    requires mode { slice_index symbols.now 0 ≡ 9 }
    requires code { (slice_index symbols.now 1 ≡ 6) ⊎ (slice_index symbols.now 1 ≡ 38) }
    ensures draws { effect_of (meaning symbols.now) ≡ Draw result }
    ensures touches { touched_by (meaning symbols.now) ≡ tile_touched result.row result.column }
    ensures stays { (start : ℕ × ℕ) → offsets_from start (meaning symbols.now ∷ []) ≡ start }
    ensures range { All (λ colour. colour < 16) result.colours }
{
    DrawnTile {
        row: symbols[6] % 32,
        column: symbols[7],
        colours: [symbols[4] % 16, symbols[5] % 16],
        lines: lines_of(symbols),
        exclusive: symbols[1] == XOR_TILE,
    }
}

#[inline(always)]
fn lines_of(symbols: &[u8; SYMBOLS]) -> [u8; TILE_HEIGHT]
    requires { IsWord symbols.now }
    ensures lines { result ≡ drop 4 (content_of symbols.now) }
    ensures count { length result ≡ tile_height }
    ensures range { All (λ line. line < 64) result }
{
    let mut lines = [0; TILE_HEIGHT];
    lines.copy_from_slice(&symbols[8..20]);
    lines
}

/// The instruction of a pack. Its parity is ignored.
pub fn read_pack(pack: &[u8; SYMBOLS]) -> Instr
    ensures instruction { result ≡ instruction_of pack.now }
    ensures range { InRange result }
{
    read_word(&Word::new(pack))
}

/// A law: a block with four idle packs changes nothing.
#[inline(always)]
pub(crate) fn idle_block_changes_nothing(
    words: &BlockWords,
    screen: &PlainScreen,
    bad: &u32,
    watch: &Watch,
    block: &[u8; BLOCK_BYTES],
)
    requires idle { IdlesOn words.now block.now }
    requires within { IsWithinScreen watch.now.change }
    ensures draws { seen screen.now
        ≡ standing_after (seen screen.now) (drawn_for (words_give words.now block.now)) }
    ensures bad { bad.now ≡ bad_counted bad.now (words_give words.now block.now) }
    ensures sees { watch.now ≡ run_state sees watch.now (drawn_for (words_give words.now block.now)) }
{
    screen.what_stands_is_whole();
    idle_is_codeword();
    let _bad = *bad;
}

// A law: the idle pack is a codeword.
#[inline(always)]
fn idle_is_codeword()
    ensures { IsCodeword idle_pack }
{
    Pack::idle().word();
}

/// Reads the next block if it may not be idle. It is not inlined, so that idle blocks do not pay for its variables.
#[inline(never)]
pub(crate) fn play_busy(
    words: &mut BlockWords,
    screen: &mut PlainScreen,
    bad: &mut u32,
    watch: &mut Watch,
    block: &[u8; BLOCK_BYTES],
)
    ensures gathers { words.new ≡ words_next words.old block.now }
    ensures draws { seen screen.new
        ≡ standing_after (seen screen.old) (drawn_for (words_give words.old block.now)) }
    ensures bad { bad.new ≡ bad_counted bad.old (words_give words.old block.now) }
    ensures sees { watch.new ≡ run_state sees watch.old (drawn_for (words_give words.old block.now)) }
{
    let came = words.feed(block);
    // A law: the state of a screen is complete, so instructions can be carried out on it.
    screen.what_stands_is_whole();
    match came {
        Some(came) => {
            let words = came.into_words();
            let none_near = draw_words_seen(screen, watch, &words);
            *bad = bad.saturating_add(none_near);
        }
        None => {}
    }
}

// Draws words one by one, adds the changes to the watch, and counts the words with no codeword near.
fn draw_words_seen(
    screen: &mut PlainScreen,
    watch: &mut Watch,
    words: &ArrayVec<Word, SLOTS_A_BLOCK>,
) -> u32
    ensures drawn { seen screen.new ≡ standing_after (seen screen.old) (instructions_of words.now.items) }
    ensures bad { result ≡ bad_count (map finding words.now.items) }
    ensures sees { watch.new ≡ run_state sees watch.old (instructions_of words.now.items) }
{
    // A law: the state of a screen is complete, so instructions can be carried out on it.
    screen.what_stands_is_whole();
    let mut bad = 0;
    for word in words.as_slice() {
        draw_word_seen(screen, &mut bad, watch, word);
    }
    bad
}

// Draws the corrected word and adds the changes to the watch, or counts the word as bad.
#[inline(always)]
fn draw_word_seen(screen: &mut PlainScreen, bad: &mut u32, watch: &mut Watch, word: &Word)
    ensures screen { seen screen.new ≡ entry_drawn (seen screen.old) (finding word.now) }
    ensures bad { bad.new ≡ bad_next bad.old word.now }
    ensures sees { watch.new ≡ run_state sees watch.old (instructions_of (word.now ∷ [])) }
{
    match correct(word) {
        Some(fixed) => {
            let instr = read(&fixed.pack);
            screen.obey(&instr);
            watch.see(&instr);
        }
        None => *bad = bad.saturating_add(1),
    }
}
