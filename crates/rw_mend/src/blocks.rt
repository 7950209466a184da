// The blocks of a stream, written over the text of its words.
ghost use Rattle.std.specs.Prelude.{◌≡◌, ◌<◌, ◌≤◌, ◌+◌, ◌-◌, ◌*◌, ◌/◌, ◌%◌, ◌++◌, length, take, drop};
ghost use Rattle.raw_subcode.specs.Sizes.{block_bytes, most_units, symbols_a_slot};
ghost use Rattle.rw_mend.specs.HeldReadings.{AreHeld, held_blocks, held_parts};
ghost use Rattle.rw_mend.specs.Symbols.{AreBlocks, HasWordText, HaveSources, IsStreamBlock};

use crate::held_readings::HeldReadings;
use crate::words::{Words, mixed_block};
use raw_subcode::{BLOCK_BYTES, SYMBOLS_A_SLOT};

/// Writes the blocks of a stream to the front of a buffer. Before, the end of this buffer has the text of the
/// words. The text of a word lies seven slots behind the slot in which the word begins, so no block
/// overwrites text that it or a later block needs.
pub(crate) fn write_blocks(readings: &HeldReadings, words: &Words, blocks: &mut [u8])
    requires held { AreHeld readings.now }
    requires sources { HaveSources words.now }
    requires whole { readings.now.size % block_bytes ≡ 0 }
    requires few { readings.now.size ≤ block_bytes * most_units }
    requires lead_in { words.now.lead_in ≤ most_units }
    requires room { readings.now.size ≤ length blocks.old }
    requires short { symbols_a_slot * words.now.count ≤ readings.now.size }
    requires late { 0 < words.now.count
        → symbols_a_slot * words.now.count + block_bytes * words.now.lead_in + symbols_a_slot * 7
        ≤ readings.now.size }
    ensures size { length blocks.new ≡ length blocks.old }
    ensures behind { drop readings.now.size blocks.new ≡ drop readings.now.size blocks.old }
    ensures blocks { AreBlocks words.now
        (drop (readings.now.size - symbols_a_slot * words.now.count) blocks.old) (held_parts readings.now)
        (readings.now.size / block_bytes) blocks.new }
{
    let start = readings.size - SYMBOLS_A_SLOT * words.count;
    for b in 0..readings.size / BLOCK_BYTES {
        let block = stream_block(readings, words, &blocks[start..], b);
        put(blocks, b, &block);
    }
}

// Block b of the stream.
fn stream_block(readings: &HeldReadings, words: &Words, text: &[u8], b: usize) -> [u8; BLOCK_BYTES]
    requires held { AreHeld readings.now }
    requires inside { block_bytes * b + block_bytes ≤ readings.now.size }
    requires sources { HaveSources words.now }
    requires text { HasWordText words.now text.now }
    requires lead_in { words.now.lead_in ≤ most_units }
    requires number { b ≤ most_units }
    ensures { IsStreamBlock words.now text.now (held_blocks readings.now b) b result }
{
    let framed = readings.block(readings.chosen_channels(b), b);
    if words.are_all_mended(b) {
        return words.mended_block(text, b, framed);
    }
    let known = words.symbols(text, b);
    let read = readings.block(readings.chosen_symbols(b, &known), b);
    mixed_block(&known, framed, read)
}

fn put(blocks: &mut [u8], b: usize, block: &[u8; BLOCK_BYTES])
    requires { block_bytes * b + block_bytes ≤ length blocks.old }
    ensures blocks { blocks.new ≡ take (block_bytes * b) blocks.old ++ block.now
        ++ drop (block_bytes * b + block_bytes) blocks.old }
    ensures size { length blocks.new ≡ length blocks.old }
{
    blocks[BLOCK_BYTES * b..BLOCK_BYTES * b + BLOCK_BYTES].copy_from_slice(block);
}
