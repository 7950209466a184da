// A stream of blocks from readings in memory.
ghost use Rattle.std.specs.Prelude.{◌≡◌, ◌≤◌, ◌<◌, ◌*◌, ◌/◌, ◌%◌, length};
ghost use Rattle.raw_subcode.specs.Sizes.{block_bytes, most_units};
ghost use Rattle.rw_mend.specs.Many.{words_in_each};
ghost use Rattle.rw_mend.specs.Stream.{AreMendedIntoStream, AreReportedIntoStream};

use crate::blocks::write_blocks;
use crate::held_readings::HeldReadings;
use crate::words::Words;
use crate::{MendReport, Tallies, mend_report};
use raw_subcode::{BLOCK_BYTES, SLOTS_A_BLOCK};
use rw_code::SYMBOLS;
use rw_interleave::PACKS_KEPT_BACK;

/// Mends readings of a raw stream into a stream of the same length: 1 to 254 readings of equal length that
/// lie one behind another. A mended word has the symbols of its codeword. The other symbols of a block are
/// those of one reading that was read there: the one with the most mended symbols of the block, and among
/// several the one whose symbols most readings have. Channels P and Q of a block are those that most readings
/// have whose Q channel is a frame there. If there is none, they are those of most readings that were read
/// there. If several remain, the greatest bits win. A byte for each word names its source.
pub fn mend_stream(
    readings: &[u8],
    count: usize,
    lead_in: u32,
    blocks: &mut [u8],
    sources: &mut [u8],
) -> Tallies
    requires some { 0 < count }
    requires few { count ≤ 254 }
    requires equal { length readings.now ≡ count * (length readings.now / count) }
    requires whole { (length readings.now / count) % block_bytes ≡ 0 }
    requires short { length readings.now / count ≤ block_bytes * most_units }
    requires lead_in { lead_in ≤ most_units }
    requires room { length readings.now / count ≤ length blocks.old }
    requires sources { words_in_each count lead_in readings.now ≤ length sources.old }
    ensures { AreMendedIntoStream count lead_in readings.now blocks.old blocks.new sources.old sources.new
        result }
{
    mend_stream_report(readings, count, lead_in, blocks, sources).tallies
}

/// Mends readings like `mend_stream`, and also counts the lost words of each reading.
pub fn mend_stream_report(
    readings: &[u8],
    count: usize,
    lead_in: u32,
    blocks: &mut [u8],
    sources: &mut [u8],
) -> MendReport
    requires some { 0 < count }
    requires few { count ≤ 254 }
    requires equal { length readings.now ≡ count * (length readings.now / count) }
    requires whole { (length readings.now / count) % block_bytes ≡ 0 }
    requires short { length readings.now / count ≤ block_bytes * most_units }
    requires lead_in { lead_in ≤ most_units }
    requires room { length readings.now / count ≤ length blocks.old }
    requires sources { words_in_each count lead_in readings.now ≤ length sources.old }
    ensures { AreReportedIntoStream count lead_in readings.now blocks.old blocks.new sources.old sources.new
        result.tallies result.lost }
{
    let size = readings.len() / count;
    let program = (size / BLOCK_BYTES).saturating_sub(lead_in as usize);
    let words = (SLOTS_A_BLOCK * program).saturating_sub(PACKS_KEPT_BACK);
    let text = size - SYMBOLS * words;
    let report = mend_report(readings, count, lead_in, &mut blocks[text..size], sources);
    let all = HeldReadings {
        bytes: readings,
        count,
        size,
    };
    let words = Words {
        sources,
        count: words,
        lead_in: lead_in as usize,
    };
    write_blocks(&all, &words, blocks);
    report
}
