// Reading the instruction of a pack.
ghost use Rattle.std.specs.Prelude.{◌≡◌, ◌<◌, ◌≤◌, ◌⊎◌, ℕ, List, drop, length, map, slice_index, All};
ghost use Rattle.rw_code.specs.Codeword.{IsWord};
ghost use Rattle.cdg_instructions.specs.Instruction.{Means, InRange, content_of, move, table_colour};
ghost use Rattle.cdg_instructions.specs.Meaning.{meaning};
ghost use Rattle.bit_lists.specs.Counting.{below};
ghost use Rattle.cdg_instructions.specs.declared.instr.Instr.{Instr};
ghost use Rattle.cdg_instructions.specs.Sizes.{colour_values, tile_height};

use crate::Instr;
use crate::instr::{
    BORDER_PRESET, COLOURS_HIGH, COLOURS_LOW, CONTENT, GRAPHICS, MEMORY_PRESET, SCROLL_COPY,
    SCROLL_PRESET, SET_TILE, TRANSPARENCY, XOR_TILE,
};
use crate::sizes::TILE_HEIGHT;
use rw_code::{Pack, SYMBOLS, Word};

/// The instruction that a pack holds.
///
/// Unused bits are ignored. A move of 3 is read as no move. An offset that is too large is read as the largest offset.
pub fn read(pack: &Pack) -> Instr
    ensures meaning { Means pack.now result }
    ensures range { InRange result }
{
    read_word(&pack.word())
}

/// The instruction of any word. The parity symbols are ignored.
pub fn read_word(word: &Word) -> Instr
    ensures meaning { Means word.now result }
    ensures range { InRange result }
{
    let symbols = word.bytes();
    match symbols[0] {
        0 => Instr::Idle,
        GRAPHICS => graphics(&symbols),
        _ => Instr::Foreign,
    }
}

// The instruction of the symbols of a graphics pack.
fn graphics(symbols: &[u8; SYMBOLS]) -> Instr
    requires symbols { IsWord symbols.now }
    requires mode { slice_index symbols.now 0 ≡ 9 }
    ensures meaning { Means symbols.now result }
    ensures range { InRange result }
{
    match symbols[1] {
        MEMORY_PRESET => Instr::MemoryPreset {
            colour: symbols[CONTENT] % 16,
            repeat: symbols[CONTENT + 1] % 16,
        },
        BORDER_PRESET => Instr::BorderPreset {
            colour: symbols[CONTENT] % 16,
        },
        SET_TILE | XOR_TILE => tile(symbols),
        SCROLL_PRESET | SCROLL_COPY => scroll(symbols),
        TRANSPARENCY => Instr::Transparency {
            levels: levels(symbols),
        },
        COLOURS_LOW => Instr::ColoursLow {
            colours: colours(symbols),
        },
        COLOURS_HIGH => Instr::ColoursHigh {
            colours: colours(symbols),
        },
        _ => Instr::Unknown,
    }
}

// The instruction of a pack that sets or combines a tile.
fn tile(symbols: &[u8; SYMBOLS]) -> Instr
    requires symbols { IsWord symbols.now }
    requires mode { slice_index symbols.now 0 ≡ 9 }
    requires code { (slice_index symbols.now 1 ≡ 6) ⊎ (slice_index symbols.now 1 ≡ 38) }
    ensures meaning { Means symbols.now result }
    ensures range { InRange result }
{
    let colour0 = symbols[CONTENT] % 16;
    let colour1 = symbols[CONTENT + 1] % 16;
    let row = symbols[CONTENT + 2] % 32;
    let column = symbols[CONTENT + 3];
    let lines = lines(symbols);
    if symbols[1] == SET_TILE {
        Instr::SetTile {
            colour0,
            colour1,
            row,
            column,
            lines,
        }
    } else {
        Instr::XorTile {
            colour0,
            colour1,
            row,
            column,
            lines,
        }
    }
}

// The instruction of a pack that scrolls.
fn scroll(symbols: &[u8; SYMBOLS]) -> Instr
    requires symbols { IsWord symbols.now }
    requires mode { slice_index symbols.now 0 ≡ 9 }
    requires code { (slice_index symbols.now 1 ≡ 20) ⊎ (slice_index symbols.now 1 ≡ 24) }
    ensures meaning { Means symbols.now result }
    ensures range { InRange result }
{
    let colour = symbols[CONTENT] % 16;
    let across = moved(symbols[CONTENT + 1]);
    let h = (symbols[CONTENT + 1] % 8).min(5);
    let down = moved(symbols[CONTENT + 2]);
    let v = (symbols[CONTENT + 2] % 16).min(11);
    if symbols[1] == SCROLL_PRESET {
        Instr::ScrollPreset {
            colour,
            across,
            h,
            down,
            v,
        }
    } else {
        Instr::ScrollCopy {
            colour,
            across,
            h,
            down,
            v,
        }
    }
}

// The move in a symbol. A move of 3 is read as no move.
fn moved(symbol: u8) -> u8
    requires { symbol < 64 }
    ensures moved { result ≡ move symbol }
    ensures most { result ≤ 2 }
{
    if symbol / 16 == 3 { 0 } else { symbol / 16 }
}

fn lines(symbols: &[u8; SYMBOLS]) -> [u8; TILE_HEIGHT]
    requires { IsWord symbols.now }
    ensures lines { result ≡ drop 4 (content_of symbols.now) }
    ensures count { length result ≡ tile_height }
    ensures range { All (λ line. line < 64) result }
{
    let mut lines = [0; TILE_HEIGHT];
    lines.copy_from_slice(&symbols[CONTENT + 4..CONTENT + 16]);
    lines
}

fn levels(symbols: &[u8; SYMBOLS]) -> [u8; 16]
    requires { IsWord symbols.now }
    ensures levels { result ≡ content_of symbols.now }
    ensures count { length result ≡ 16 }
    ensures range { All (λ level. level < 64) result }
{
    let mut levels = [0; 16];
    levels.copy_from_slice(&symbols[CONTENT..CONTENT + 16]);
    levels
}

fn colours(symbols: &[u8; SYMBOLS]) -> [u16; 8]
    requires { IsWord symbols.now }
    ensures colours { result ≡ map (table_colour symbols.now) (below 8) }
    ensures count { length result ≡ 8 }
    ensures range { All (λ colour. colour < colour_values) result }
{
    let mut colours = [0; 8];
    for k in 0..8 {
        colours[k] = colour(symbols, k);
    }
    colours
}

fn colour(symbols: &[u8; SYMBOLS], k: usize) -> u16
    requires place { k < 8 }
    requires symbols { IsWord symbols.now }
    ensures colour { result ≡ table_colour symbols.now k }
    ensures range { result < colour_values }
{
    64 * u16::from(symbols[CONTENT + 2 * k]) + u16::from(symbols[CONTENT + 2 * k + 1])
}

/// A law: a pack means at most one instruction.
pub fn only_one_meaning()
    ensures { (word : List ℕ) (one other : Instr) → Means word one → Means word other → one ≡ other }
{}

/// A law: a pack means the instruction that `meaning` returns, and no other.
pub fn each_pack_has_a_meaning()
    ensures is { (word : List ℕ) → Means word (meaning word) }
    ensures only { (word : List ℕ) (instr : Instr) → Means word instr → instr ≡ meaning word }
{}
