// The state while some readings are mended word by word.
ghost use Rattle.std.specs.Prelude.{◌≡◌, ◌<◌, ◌≤◌, ◌+◌, ◌-◌, ◌*◌, ◌/◌, if◌then◌else◌, ℕ, length, take, slice_index_or};
ghost use Rattle.std.specs.List.{list_any};
ghost use Rattle.raw_subcode.specs.Sizes.{block_bytes, most_units};
ghost use Rattle.rw_mend.specs.Choice.{candidate_of_reading};
ghost use Rattle.rw_mend.specs.Mender.{HasComeTo, IsDecoding};
ghost use Rattle.rw_mend.specs.Readings.{AreHeldReadings, programs_in, size_in};
ghost use Rattle.rw_mend.specs.Rows.{AreFollowed, AreHistories, IsRow};
ghost use Rattle.rw_mend.specs.Silences.{AreSilences, IsCalm, is_left, no_silence, said_after};
ghost use Rattle.rw_mend.specs.Candidates.{is_quiet_candidate};
ghost use Rattle.rw_mend.specs.Words.{HoldsWord};

use crate::Candidate;
use crate::choice::MOST_READINGS;
use crate::cover::BlockHistory;
use crate::readings::Readings;
use crate::rows::{GivenRow, count_left, decode_all, is_any_quiet, say_all};
use crate::silences::{Silence, advance_all};
use raw_subcode::{BLOCK_BYTES, SLOTS_A_BLOCK};
use rw_interleave::PACKS_KEPT_BACK;

// The number of blocks under the first word.
const BLOCKS_OF_FIRST: usize = 2;

/// Advances through the words of some readings, and finds the candidates at each word.
#[derive(Drop)]
pub(crate) struct Mender {
    words: usize,
    histories: [BlockHistory; MOST_READINGS],
    // For each reading, the number of a block. From it on, all blocks so far equal those of the first
    // reading.
    same_from: [usize; MOST_READINGS],
    // The candidates of the readings at the word, each regardless of the other readings.
    given: GivenRow,
    silences: [Silence; MOST_READINGS],
    // The number of a word. No reading has graphics from the next word to before this word.
    calm: usize,
    said: [Candidate; MOST_READINGS],
    // For each reading, the number of words so far at which its codeword does not count.
    dropped: [u32; MOST_READINGS],
}

impl Mender {
    /// A mender before the first word.
    pub(crate) fn new(readings: &Readings) -> Mender
        requires readings { AreHeldReadings readings.now }
        requires few { size_in readings.now ≤ block_bytes * most_units }
        ensures { IsDecoding readings.now 0 result }
    {
        let size = readings.first.len() - readings.start;
        Mender {
            words: (SLOTS_A_BLOCK * (size / BLOCK_BYTES)).saturating_sub(PACKS_KEPT_BACK),
            histories: [BlockHistory::new(); MOST_READINGS],
            same_from: [BLOCKS_OF_FIRST; MOST_READINGS],
            given: GivenRow::new(),
            silences: [Silence::new(); MOST_READINGS],
            calm: 0,
            said: [Candidate::Silent; MOST_READINGS],
            dropped: [0; MOST_READINGS],
        }
    }

    pub(crate) fn words(&self) -> usize
        ensures { result ≡ self.now.words }
    {
        self.words
    }

    /// Advances to word `n` from the word before it. It is inlined into the loops over all words, so that the
    /// compiler knows their number of readings.
    #[inline(always)]
    pub(crate) fn come_to(&mut self, readings: &Readings, n: usize)
        requires within { n < self.old.words }
        requires decoding { IsDecoding readings.now n self.old }
        ensures at { HasComeTo readings.now n self.new }
        ensures words { self.new.words ≡ self.old.words }
    {
        decode_all(
            readings,
            n,
            &mut self.histories,
            &mut self.same_from,
            &mut self.given,
        );
        say_next(
            readings,
            self.words,
            n,
            &self.given,
            &self.histories,
            &mut self.silences,
            &mut self.calm,
            &mut self.said,
            &mut self.dropped,
        );
    }

    /// The candidates of the readings at the current word.
    #[inline]
    pub(crate) fn candidates(&self, count: usize) -> &[Candidate]
        requires { count ≤ 254 }
        ensures candidates { result.now ≡ take count self.now.said }
        ensures count { length result.now ≡ count }
    {
        &self.said[..count]
    }

    /// For each reading, the number of words so far at which its codeword does not count.
    pub(crate) fn dropped(&self) -> [u32; MOST_READINGS]
        ensures { result ≡ self.now.dropped }
    {
        self.dropped
    }
}

// Finds the candidates of the readings at word n, and counts the codewords that do not count.
#[inline]
fn say_next(
    readings: &Readings,
    words: usize,
    n: usize,
    given: &GivenRow,
    histories: &[BlockHistory],
    silences: &mut [Silence],
    calm: &mut usize,
    said: &mut [Candidate],
    dropped: &mut [u32],
)
    requires readings { AreHeldReadings readings.now }
    requires held { (m : ℕ) → m < words → HoldsWord m (size_in readings.now) }
    requires within { n < words }
    requires row { IsRow (programs_in readings.now) n given.now.candidates }
    requires histories_size { readings.now.count ≤ length histories.now }
    requires histories { AreHistories (programs_in readings.now) n histories.now }
    requires silences_size { length silences.old ≡ 254 }
    requires said_size { length said.old ≡ 254 }
    requires dropped_size { length dropped.old ≡ 254 }
    requires before { AreSilences words (programs_in readings.now) n silences.old }
    requires calm { IsCalm (programs_in readings.now) n calm.old }
    requires few { (r : ℕ) → r < readings.now.count → slice_index_or dropped.old r 0 < 4000000 }
    ensures silences_size { length silences.new ≡ length silences.old }
    ensures said_size { length said.new ≡ length said.old }
    ensures dropped_size { length dropped.new ≡ length dropped.old }
    ensures silences { AreSilences words (programs_in readings.now) (n + 1) silences.new }
    ensures calm { IsCalm (programs_in readings.now) (n + 1) calm.new }
    ensures row_size { length (take readings.now.count given.now.candidates) ≡ readings.now.count }
    ensures said { (r : ℕ) → r < readings.now.count → candidate_of_reading said.new r
        ≡ said_after (list_any is_quiet_candidate (take readings.now.count given.now.candidates))
        (slice_index_or silences.new r no_silence)
        (candidate_of_reading (take readings.now.count given.now.candidates) r) }
    ensures dropped { (r : ℕ) → r < readings.now.count → slice_index_or dropped.new r 0
        ≡ slice_index_or dropped.old r 0
        + (if is_left (list_any is_quiet_candidate (take readings.now.count given.now.candidates))
        (slice_index_or silences.new r no_silence)
        (candidate_of_reading (take readings.now.count given.now.candidates) r) then 1 else 0) }
    ensures others { (r : ℕ) → readings.now.count ≤ r
        → slice_index_or dropped.new r 0 ≡ slice_index_or dropped.old r 0 }
{
    let row = given.candidates(readings.count);
    advance_all(readings, words, n, row, histories, silences, calm);
    let some_quiet = is_any_quiet(row);
    say_all(some_quiet, row, silences, said);
    count_left(some_quiet, row, silences, dropped);
}
