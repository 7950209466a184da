// Any number of readings of a stream in memory.
ghost use Rattle.std.specs.Prelude.{◌≡◌, ◌≤◌, ◌<◌, ◌-◌, ◌*◌, ◌/◌, ◌%◌, ◌++◌, List, ℕ, length};
ghost use Rattle.raw_subcode.specs.Sizes.{block_bytes, most_units};
ghost use Rattle.rw_interleave.specs.Interleave.{whole_packs};
ghost use Rattle.rw_mend.specs.Drops.{AreDropCounts};
ghost use Rattle.rw_mend.specs.Many.{AreAllMendedInto, AreAllReported};
ghost use Rattle.rw_mend.specs.Readings.{AreHeldReadings, programs_in, size_in};
ghost use Rattle.rw_mend.specs.Steps.{AreReported, IsMendedTo};
ghost use Rattle.rw_mend.specs.Streams.{HasWordRoom};

use crate::choice::MOST_READINGS;
use crate::losses::count_lost;
use crate::mend;
use crate::mender::Mender;
use crate::readings::Readings;
use crate::streams::put;
use crate::tallies::{Tallies, put_source};
use raw_subcode::BLOCK_BYTES;

/// The result of mending readings, and the number of lost words of each.
#[repr(C)]
#[derive(Clone, Copy)]
pub struct MendReport {
    /// The number of words mended in each way, and of codewords that do not count.
    pub tallies: Tallies,
    /// The number of error-free words of each reading that are not in the output.
    pub lost: [u32; MOST_READINGS],
}

/// Mends readings of a raw stream, word by word: 1 to 254 readings of equal length that lie one behind
/// another. For each word of the program (the blocks after the lead-in) it writes 24 bytes to the front of
/// `packs`: the symbols of the codeword, or zeros if there is none. If `sources` has room, it also writes the
/// source of each word, one byte.
pub fn mend_readings(
    readings: &[u8],
    count: usize,
    lead_in: u32,
    packs: &mut [u8],
    sources: &mut [u8],
) -> Tallies
    requires some { 0 < count }
    requires few { count ≤ 254 }
    requires equal { length readings.now ≡ count * (length readings.now / count) }
    requires whole { (length readings.now / count) % block_bytes ≡ 0 }
    requires short { length readings.now / count ≤ block_bytes * most_units }
    requires room { HasWordRoom (length readings.now / count / block_bytes - lead_in) packs.old }
    ensures { AreAllMendedInto count lead_in readings.now packs.old packs.new sources.old sources.new result }
{
    mend_report(readings, count, lead_in, packs, sources).tallies
}

/// Mends readings like `mend_readings`, and also counts the lost words of each reading.
pub fn mend_report(
    readings: &[u8],
    count: usize,
    lead_in: u32,
    packs: &mut [u8],
    sources: &mut [u8],
) -> MendReport
    requires some { 0 < count }
    requires few { count ≤ 254 }
    requires equal { length readings.now ≡ count * (length readings.now / count) }
    requires whole { (length readings.now / count) % block_bytes ≡ 0 }
    requires short { length readings.now / count ≤ block_bytes * most_units }
    requires room { HasWordRoom (length readings.now / count / block_bytes - lead_in) packs.old }
    ensures { AreAllReported count lead_in readings.now packs.old packs.new sources.old sources.new
        result.tallies result.lost }
{
    let size = readings.len() / count;
    mend_split(
        &readings[..size],
        &readings[size..],
        count,
        lead_in,
        packs,
        sources,
    )
}

// Mends readings like `mend_report`; the first reading has a slice of its own.
fn mend_split(
    first: &[u8],
    others: &[u8],
    count: usize,
    lead_in: u32,
    packs: &mut [u8],
    sources: &mut [u8],
) -> MendReport
    requires some { 0 < count }
    requires few { count ≤ 254 }
    requires equal { length others.now ≡ length first.now * (count - 1) }
    requires whole { length first.now % block_bytes ≡ 0 }
    requires short { length first.now ≤ block_bytes * most_units }
    requires room { HasWordRoom (length first.now / block_bytes - lead_in) packs.old }
    ensures { (readings : List ℕ) → length readings / count ≡ length first.now
        → readings ≡ first.now ++ others.now
        → AreAllReported count lead_in readings packs.old packs.new sources.old sources.new
        result.tallies result.lost }
{
    let all = Readings {
        first,
        others,
        count,
        start: (BLOCK_BYTES * lead_in as usize).min(first.len()),
    };
    mend_all(&all, packs, sources)
}

// Mends readings like `mend_report`; the readings are in a struct.
fn mend_all(readings: &Readings, packs: &mut [u8], sources: &mut [u8]) -> MendReport
    requires readings { AreHeldReadings readings.now }
    requires few { size_in readings.now ≤ block_bytes * most_units }
    requires room { HasWordRoom (size_in readings.now / block_bytes) packs.old }
    ensures mended { IsMendedTo readings.now (whole_packs (size_in readings.now / block_bytes))
        (whole_packs (size_in readings.now / block_bytes)) packs.old packs.new
        (AreReported sources.old (whole_packs (size_in readings.now / block_bytes)) sources.new
        result.tallies result.lost) }
    ensures dropped { AreDropCounts (whole_packs (size_in readings.now / block_bytes))
        (programs_in readings.now) (whole_packs (size_in readings.now / block_bytes)) result.tallies.dropped }
{
    let mut mender = Mender::new(readings);
    let mut tallies = Tallies::new();
    let mut lost = [0; MOST_READINGS];
    for n in 0..mender.words() {
        mender.come_to(readings, n);
        let candidates = mender.candidates(readings.count);
        let found = mend(candidates);
        put(packs, n, &found);
        put_source(sources, n, &found);
        tallies.add(&found);
        count_lost(candidates, &found, &mut lost);
    }
    tallies.dropped = mender.dropped();
    MendReport { tallies, lost }
}
