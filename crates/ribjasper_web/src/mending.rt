// Mending the packs of several readings of one stream.
ghost use Rattle.std.specs.Prelude.{◌≡◌, IfSome, None, length, pos};
ghost use Rattle.rw_mend.specs.Many.{AreAllMendedInto};
ghost use Rattle.rw_mend.specs.Refusals.{readings_refusal};

use disc_time::MOST_LEAD_IN;
use raw_subcode::{BLOCK_BYTES, MOST_UNITS, SLOTS_A_BLOCK};
use rw_code::SYMBOLS;
use rw_interleave::PACKS_KEPT_BACK;
use rw_mend::{MOST_READINGS, Tallies, mend_readings};

/// Mends readings of a stream of raw blocks, which are stored one after another, to the front of a buffer,
/// and writes the source of each word unless `sources` is empty. Returns 0; or 2 if the lead-in is above
/// 450,000 blocks or there are no readings or more than 254, 3 if the readings are not whole blocks of equal
/// length or are longer than 1,000,000 blocks, or 6 if a buffer is too small. Unless the result is 0, nothing
/// is written.
#[unsafe(no_mangle)]
pub extern "C" fn ribjasper_web_mend(
    readings: &[u8],
    count: u32,
    lead_in: u32,
    packs: &mut [u8],
    sources: &mut [u8],
    tallies: &mut Tallies,
) -> i32
    ensures mended { readings_refusal (length readings.now) count lead_in (length packs.old)
        (length sources.old) ≡ None
        → AreAllMendedInto count lead_in readings.now packs.old packs.new sources.old sources.new tallies.new
        × (result ≡ pos 0) }
    ensures refused { IfSome (readings_refusal (length readings.now) count lead_in (length packs.old)
        (length sources.old))
        (λ number. (result ≡ pos number) × (packs.new ≡ packs.old) × (sources.new ≡ sources.old)
        × (tallies.new ≡ tallies.old)) }
{
    if lead_in > MOST_LEAD_IN || count == 0 || count > MOST_READINGS as u32 {
        return 2;
    }
    let size = readings.len() / count as usize;
    if readings.len() % count as usize != 0
        || size % BLOCK_BYTES != 0
        || size > BLOCK_BYTES * MOST_UNITS as usize
    {
        return 3;
    }
    let blocks = (size / BLOCK_BYTES).saturating_sub(lead_in as usize);
    let words = (SLOTS_A_BLOCK * blocks).saturating_sub(PACKS_KEPT_BACK);
    if packs.len() < SYMBOLS * words || 0 < sources.len() && sources.len() < words {
        return 6;
    }
    let mended = mend_readings(readings, count as usize, lead_in, packs, sources);
    *tallies = mended;
    0
}
