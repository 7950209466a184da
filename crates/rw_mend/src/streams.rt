// Two readings of a stream in memory.
ghost use Rattle.std.specs.Prelude.{◌≡◌, ◌≤◌, ◌<◌, ◌+◌, ◌-◌, ◌*◌, ◌/◌, ◌%◌, ◌++◌, [], ◌∷◌, List, length, take, drop};
ghost use Rattle.std.specs.declared.option.Option.{Option};
ghost use Rattle.raw_subcode.specs.Sizes.{block_bytes, most_units, symbols_a_slot};
ghost use Rattle.rw_interleave.specs.Interleave.{whole_packs};
ghost use Rattle.rw_mend.specs.declared.ways.Way.{Way};
ghost use Rattle.rw_mend.specs.Readings.{AreHeldReadings, size_in};
ghost use Rattle.rw_mend.specs.Steps.{AreCounted, IsMendedTo};
ghost use Rattle.rw_mend.specs.Streams.{AreCounts, HasWordRoom, IsMendedInto, mended_bytes};

use crate::mender::Mender;
use crate::readings::Readings;
use crate::ways::{Way, found_by};
use crate::{Mended, mend};
use raw_subcode::BLOCK_BYTES;
use rw_code::SYMBOLS;

/// The number of words of two readings that are mended in each way.
#[repr(C)]
#[derive(Clone, Copy, Debug, PartialEq, Eq)]
pub struct MendCounts {
    /// Words whose codeword both readings have.
    pub both: u32,
    /// Words whose codeword only the first reading has.
    pub of_first: u32,
    /// Words whose codeword only the second reading has.
    pub of_second: u32,
    /// Words on whose codeword the two readings agree.
    pub agreed: u32,
    /// Words with no codeword.
    pub none: u32,
}

/// Mends two readings of a raw stream, word by word. For each word of the program (the blocks after the
/// lead-in) it writes 24 bytes to the front of `packs`: the symbols of the codeword, or zeros if there is
/// none.
pub fn mend_streams(first: &[u8], second: &[u8], lead_in: u32, packs: &mut [u8]) -> MendCounts
    requires equal { length first.now ≡ length second.now }
    requires whole { length first.now % block_bytes ≡ 0 }
    requires few { length first.now ≤ block_bytes * most_units }
    requires room { HasWordRoom (length first.now / block_bytes - lead_in) packs.old }
    ensures { IsMendedInto lead_in first.now second.now packs.old packs.new result }
{
    let readings = Readings {
        first,
        others: second,
        count: 2,
        start: (BLOCK_BYTES * lead_in as usize).min(first.len()),
    };
    mend_two(&readings, packs)
}

// Mends two readings like `mend_streams`; the readings are in a struct.
fn mend_two(readings: &Readings, packs: &mut [u8]) -> MendCounts
    requires readings { AreHeldReadings readings.now }
    requires few { size_in readings.now ≤ block_bytes * most_units }
    requires room { HasWordRoom (size_in readings.now / block_bytes) packs.old }
    ensures { IsMendedTo readings.now (whole_packs (size_in readings.now / block_bytes))
        (whole_packs (size_in readings.now / block_bytes)) packs.old packs.new (AreCounted result) }
{
    let mut mender = Mender::new(readings);
    let mut counts = MendCounts::zero();
    for n in 0..mender.words() {
        mender.come_to(readings, n);
        let candidates = mender.candidates(readings.count);
        let found = mend(candidates);
        put(packs, n, &found);
        counts.add(&found_by(candidates, &found));
    }
    counts
}

impl MendCounts {
    // The counts before the first word.
    fn zero() -> MendCounts
        ensures { AreCounts [] result }
    {
        MendCounts {
            both: 0,
            of_first: 0,
            of_second: 0,
            agreed: 0,
            none: 0,
        }
    }

    // Counts one more word by the way in which it is mended.
    fn add(&mut self, found: &Option<Way>)
        requires both { self.old.both < 4000000 }
        requires of_first { self.old.of_first < 4000000 }
        requires of_second { self.old.of_second < 4000000 }
        requires agreed { self.old.agreed < 4000000 }
        requires none { self.old.none < 4000000 }
        ensures { (all : List (Option Way)) → AreCounts all self.old
            → AreCounts (all ++ found.now ∷ []) self.new }
    {
        match found {
            None => self.none += 1,
            Some(Way::Both) => self.both += 1,
            Some(Way::First) => self.of_first += 1,
            Some(Way::Second) => self.of_second += 1,
            Some(Way::Together) => self.agreed += 1,
        }
    }
}

/// Writes the symbols of the codeword of word `n` in their place, or zeros if there is none.
pub(crate) fn put(packs: &mut [u8], n: usize, found: &Option<Mended>)
    requires { symbols_a_slot * n + symbols_a_slot ≤ length packs.old }
    ensures packs { packs.new ≡ take (symbols_a_slot * n) packs.old ++ mended_bytes found.now
        ++ drop (symbols_a_slot * n + symbols_a_slot) packs.old }
    ensures size { length (mended_bytes found.now) ≡ symbols_a_slot }
{
    let bytes = bytes_of(found);
    packs[SYMBOLS * n..SYMBOLS * n + SYMBOLS].copy_from_slice(&bytes);
}

// The symbols of a mended codeword, or zeros.
fn bytes_of(found: &Option<Mended>) -> [u8; SYMBOLS]
    ensures { result ≡ mended_bytes found.now }
{
    match found {
        Some(mended) => mended.pack.word().bytes(),
        None => [0; SYMBOLS],
    }
}
