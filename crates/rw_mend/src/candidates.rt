// The candidate of a reading at a word.
ghost use Rattle.std.specs.Prelude.{◌≡◌, ◌==◌, List, ℕ, slice_index_or};
ghost use Rattle.std.specs.List.{list_any};
ghost use Rattle.rw_code.specs.Codeword.{IsWord, differences};
ghost use Rattle.rw_code.specs.Packs.{idle_pack};
ghost use Rattle.rw_mend.specs.declared.candidates.WordReading.{WordReading};
ghost use Rattle.rw_mend.specs.Candidates.{GivesNear, distance_of, has_used_mode, instructions, is_doubtful_candidate, is_graphics_pack, is_graphics_candidate, is_idle_pack, is_idle_candidate, is_quiet_candidate, candidate_of};

use crate::choice::is_same;
use rw_code::{Fixed, Pack, Word, correct, words_have_24_symbols};
use rw_merge::differing;

/// How much of a word a drive has read.
#[derive(Clone, Copy, Debug, PartialEq, Eq)]
pub enum Coverage {
    /// Every block under the word.
    Whole,
    /// Some blocks under the word, but not all.
    Partly,
    /// No block under the word.
    Unread,
}

/// A reading of a word.
#[derive(Clone, Copy)]
pub struct WordReading {
    /// The symbols as they were read.
    pub word: Word,
    /// How much of the word was read.
    pub coverage: Coverage,
}

/// The candidate of a reading at a word: the codeword that is near the word, if there is one.
#[derive(Clone, Copy)]
pub enum Candidate {
    /// No candidate: the word was not read, or its codeword does not count.
    Silent,
    /// The word was read, and no codeword is near it.
    Lost {
        /// The symbols as they were read.
        word: Word,
    },
    /// A codeword is near the word.
    Near {
        /// The codeword.
        pack: Pack,
        /// The distance: the number of symbols in which the word differs from the codeword. The idle pack has
        /// the distance 3 if the word was read partly.
        distance: u8,
    },
}

/// The maximum number of wrong symbols in a word that is near a codeword.
pub(crate) const MOST_WRONG: u8 = 2;

// The distance of the idle pack if some block is unread. No other near codeword has so great a distance.
const IDLE_DISTANCE: u8 = 3;

/// The candidate of a reading at a word, regardless of the other readings.
pub fn decode(reading: &WordReading) -> Candidate
    ensures { result ≡ candidate_of reading.now }
{
    if reading.coverage == Coverage::Unread {
        return Candidate::Silent;
    }
    match correct(&reading.word) {
        Some(fixed) => Candidate::Near {
            pack: fixed.pack,
            distance: distance(reading.coverage, &fixed),
        },
        None => Candidate::Lost { word: reading.word },
    }
}

/// Computes `decode`, but tries the codeword of another reading first, which is usually the same.
#[inline]
pub(crate) fn decode_likely(other: &Candidate, reading: &WordReading) -> Candidate
    ensures { result ≡ candidate_of reading.now }
{
    if reading.coverage == Coverage::Unread {
        return Candidate::Silent;
    }
    match near(other, &reading.word) {
        Some(fixed) => Candidate::Near {
            pack: fixed.pack,
            distance: distance(reading.coverage, &fixed),
        },
        None => decode(reading),
    }
}

// The codeword of a candidate, if the word is near it.
#[inline]
fn near(candidate: &Candidate, word: &Word) -> Option<Fixed>
    ensures near { GivesNear word.now result }
    ensures word { IsWord word.now }
{
    // Only a word has a finding.
    words_have_24_symbols(word);
    match candidate {
        Candidate::Near { pack, .. } => near_pack(pack, word),
        _ => None,
    }
}

// This codeword, if the word is near it.
#[inline]
fn near_pack(pack: &Pack, word: &Word) -> Option<Fixed>
    ensures { GivesNear word.now result }
{
    let wrong = differing(word, &pack.word());
    if wrong > MOST_WRONG {
        return None;
    }
    Some(Fixed { pack: *pack, wrong })
}

/// The candidate of a reading at a word whose symbols are all 0.
#[inline]
pub(crate) fn decode_blank(coverage: Coverage) -> Candidate
    ensures { (reading : WordReading) → reading.coverage ≡ coverage → reading.word ≡ idle_pack
        → result ≡ candidate_of reading }
{
    match coverage {
        Coverage::Unread => Candidate::Silent,
        Coverage::Partly => Candidate::Near {
            pack: Pack::idle(),
            distance: IDLE_DISTANCE,
        },
        Coverage::Whole => Candidate::Near {
            pack: Pack::idle(),
            distance: 0,
        },
    }
}

// The distance of a codeword: the number of wrong symbols, or 3 for the idle pack if some block is unread.
fn distance(coverage: Coverage, fixed: &Fixed) -> u8
    ensures { (word : List ℕ) → fixed.now.wrong ≡ differences word fixed.now.pack
        → result ≡ distance_of coverage word fixed.now.pack }
{
    if coverage == Coverage::Partly && is_idle_pack(&fixed.pack) {
        return IDLE_DISTANCE;
    }
    fixed.wrong
}

#[inline]
fn is_idle_pack(pack: &Pack) -> bool
    ensures { result ≡ is_idle_pack pack.now }
{
    is_same(pack, &Pack::idle())
}

impl Candidate {
    /// Whether the candidate is the idle pack.
    pub(crate) fn is_idle(&self) -> bool
        ensures { result ≡ is_idle_candidate self.now }
    {
        match self {
            Candidate::Near { pack, .. } => is_idle_pack(pack),
            _ => false,
        }
    }

    /// Whether the candidate is the idle pack, or nothing was read.
    pub(crate) fn is_quiet(&self) -> bool
        ensures { result ≡ is_quiet_candidate self.now }
    {
        match self {
            Candidate::Silent => true,
            _ => self.is_idle(),
        }
    }

    /// Whether the candidate shows that the word is not idle.
    pub(crate) fn is_graphics(&self) -> bool
        ensures { result ≡ is_graphics_candidate self.now }
    {
        match self {
            Candidate::Near { pack, distance } => {
                !is_idle_pack(pack) && (*distance == 0 || is_graphics_pack(pack))
            }
            _ => false,
        }
    }

    /// Whether the candidate is a doubtful codeword: not the idle pack, of a mode and item that no disc
    /// carries, and with a wrong symbol.
    pub(crate) fn is_doubtful(&self) -> bool
        ensures { result ≡ is_doubtful_candidate self.now }
    {
        match self {
            Candidate::Near { pack, distance } => {
                !(*distance == 0) && !is_idle_pack(pack) && !has_used_mode(pack)
            }
            _ => false,
        }
    }
}

// The mode and item of graphics.
const GRAPHICS: u8 = 9;

// The instructions of graphics packs.
static INSTRUCTIONS: [u8; 9] = [1, 2, 6, 20, 24, 28, 30, 31, 38];

// The modes and items that discs carry.
static USED_MODES: [u8; 4] = [8, 9, 10, 24];

// Whether a codeword is a graphics pack.
fn is_graphics_pack(pack: &Pack) -> bool
    ensures { result ≡ is_graphics_pack pack.now }
{
    has_graphics_mode(pack) && has_known_instruction(pack)
}

fn has_graphics_mode(pack: &Pack) -> bool
    ensures { result ≡ (slice_index_or pack.now 0 0 == 9) }
{
    pack.word().bytes()[0] == GRAPHICS
}

fn has_known_instruction(pack: &Pack) -> bool
    ensures { result ≡ list_any (λ known. slice_index_or pack.now 1 0 == known) instructions }
{
    let bytes = pack.word().bytes();
    INSTRUCTIONS.iter().any(|known| bytes[1] == *known)
}

// Whether the mode and item of a codeword are among those that discs carry.
fn has_used_mode(pack: &Pack) -> bool
    ensures { result ≡ has_used_mode pack.now }
{
    let bytes = pack.word().bytes();
    USED_MODES.iter().any(|mode| bytes[0] == *mode)
}
