// The counts of mended words.
ghost use Rattle.std.specs.Prelude.{◌≡◌, ◌<◌, ◌+◌, ◌++◌, [], ◌∷◌, List, ℕ, IfSome, slice_index_or, slice_set, length, take, drop};
ghost use Rattle.std.specs.declared.option.Option.{Option};
ghost use Rattle.rw_mend.specs.declared.choice.Mended.{Mended};
ghost use Rattle.rw_mend.specs.Tallies.{AreTallies, HasSource, source_byte};

use crate::choice::MOST_READINGS;
use crate::{Mended, WordSource};

/// The number of words mended in each way, and of codewords of each reading that do not count.
#[repr(C)]
#[derive(Clone, Copy)]
pub struct Tallies {
    /// Words on whose codeword two readings agree.
    pub agreed: u32,
    /// Words with no codeword.
    pub none: u32,
    /// Reserved, always 0.
    pub reserved: u32,
    /// For each reading, the words whose codeword is from it.
    pub of_reading: [u32; MOST_READINGS],
    /// For each reading, the words at which its codeword does not count.
    pub dropped: [u32; MOST_READINGS],
}

/// The byte instead of the number of a reading if two readings agree on the codeword.
pub const AGREED: u8 = 254;

/// The byte instead of the number of a reading if there is no codeword.
pub const NO_READING: u8 = 255;

impl Tallies {
    /// The counts before the first word.
    pub(crate) fn new() -> Tallies
        ensures { AreTallies [] result }
    {
        Tallies {
            agreed: 0,
            none: 0,
            reserved: 0,
            of_reading: [0; MOST_READINGS],
            dropped: [0; MOST_READINGS],
        }
    }

    /// Counts one more word by its source.
    pub(crate) fn add(&mut self, found: &Option<Mended>)
        requires source { IfSome found.now (λ mended. HasSource mended.source) }
        requires agreed { self.old.agreed < 4000000 }
        requires none { self.old.none < 4000000 }
        requires of_reading { (r : ℕ) → r < 254 → slice_index_or self.old.of_reading r 0 < 4000000 }
        ensures { (all : List (Option Mended)) → AreTallies all self.old
            → AreTallies (all ++ found.now ∷ []) self.new }
    {
        match found {
            None => self.none += 1,
            Some(mended) => match mended.source {
                WordSource::Reading(r) => self.add_reading(r as usize),
                WordSource::Agreed => self.agreed += 1,
            },
        }
    }
}

impl Tallies {
    // Counts one more word whose codeword is from reading `r`.
    fn add_reading(&mut self, r: usize)
        requires within { r < 254 }
        requires few { slice_index_or self.old.of_reading r 0 < 4000000 }
        ensures of_reading { self.new.of_reading
            ≡ slice_set self.old.of_reading r (slice_index_or self.old.of_reading r 0 + 1) }
        ensures agreed { self.new.agreed ≡ self.old.agreed }
        ensures none { self.new.none ≡ self.old.none }
        ensures reserved { self.new.reserved ≡ self.old.reserved }
    {
        self.of_reading[r] += 1;
    }
}

/// Writes the byte that names the source of word `n`, if there is room for it.
pub(crate) fn put_source(sources: &mut [u8], n: usize, found: &Option<Mended>)
    ensures size { length sources.new ≡ length sources.old }
    ensures put { n < length sources.old
        → sources.new ≡ take n sources.old ++ source_byte found.now ∷ drop (n + 1) sources.old }
{
    if n < sources.len() {
        sources[n] = source_byte(found);
    }
}

fn source_byte(found: &Option<Mended>) -> u8
    ensures { result ≡ source_byte found.now }
{
    match found {
        None => NO_READING,
        Some(mended) => match mended.source {
            WordSource::Reading(r) => r,
            WordSource::Agreed => AGREED,
        },
    }
}
