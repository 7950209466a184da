// The candidates of all readings at one word.
ghost use Rattle.std.specs.Prelude.{◌≡◌, ◌<◌, ◌≤◌, ◌+◌, ◌-◌, ◌*◌, ◌/◌, ℕ, length, slice_index, slice_index_or, take, if◌then◌else◌};
ghost use Rattle.raw_subcode.specs.Channels.{symbols_of};
ghost use Rattle.raw_subcode.specs.Sizes.{symbols_a_slot};
ghost use Rattle.rw_code.specs.Sizes.{word_symbols};
ghost use Rattle.rw_interleave.specs.Interleave.{place, word_of};
ghost use Rattle.std.specs.List.{list_any};
ghost use Rattle.rw_mend.specs.Choice.{candidate_of_reading};
ghost use Rattle.rw_mend.specs.Silences.{is_left, no_silence, said_after};
ghost use Rattle.rw_mend.specs.Candidates.{is_quiet_candidate, candidate_of};
ghost use Rattle.rw_mend.specs.Readings.{AreHeldReadings, program_in, programs_in, size_in};
ghost use Rattle.rw_mend.specs.Histories.{AreSameFrom, IsHistory};
ghost use Rattle.rw_mend.specs.Words.{HoldsWord, reading_at};
ghost use Rattle.rw_mend.specs.Rows.{AreFollowed, AreHistories, IsRow, no_history};

use crate::candidates::{decode_blank, decode_likely};
use crate::choice::MOST_READINGS;
use crate::cover::BlockHistory;
use crate::readings::{Readings, follow};
use crate::silences::Silence;
use crate::{Candidate, WordReading};
use raw_subcode::SLOTS_A_BLOCK;
use rw_code::{SYMBOLS, Word};
use rw_interleave::place;

/// The candidate of each reading at a word, regardless of the other readings.
#[derive(Clone, Copy)]
pub(crate) struct GivenRow {
    candidates: [Candidate; MOST_READINGS],
}

impl GivenRow {
    /// A row before the first word.
    pub(crate) fn new() -> GivenRow {
        GivenRow {
            candidates: [Candidate::Silent; MOST_READINGS],
        }
    }

    /// The candidates of the first `count` readings.
    pub(crate) fn candidates(&self, count: usize) -> &[Candidate]
        requires { count ≤ 254 }
        ensures candidates { result.now ≡ take count self.now.candidates }
        ensures count { length result.now ≡ count }
    {
        &self.candidates[..count]
    }
}

/// Decodes the candidate of each reading at word `n`, and advances the histories to this word.
pub(crate) fn decode_all(
    readings: &Readings,
    n: usize,
    histories: &mut [BlockHistory],
    same_from: &mut [usize],
    row: &mut GivenRow,
)
    requires readings { AreHeldReadings readings.now }
    requires histories_size { readings.now.count ≤ length histories.old }
    requires same_size { readings.now.count ≤ length same_from.old }
    requires within { HoldsWord n (size_in readings.now) }
    requires histories { 0 < n → AreHistories (programs_in readings.now) (n - 1) histories.old }
    requires same { AreFollowed readings.now ((n + 6) / 4 + 1) same_from.old }
    ensures histories_size { length histories.new ≡ length histories.old }
    ensures same_size { length same_from.new ≡ length same_from.old }
    ensures histories { AreHistories (programs_in readings.now) n histories.new }
    ensures same { AreFollowed readings.now ((n + 7) / 4 + 1) same_from.new }
    ensures row { IsRow (programs_in readings.now) n row.new.candidates }
{
    let program = readings.program(0);
    let mut history = histories[0];
    let mut candidate = Candidate::Silent;
    decode_one(&Candidate::Silent, program, n, &mut history, &mut candidate);
    histories[0] = history;
    row.candidates[0] = candidate;
    let first = FirstReading {
        program,
        history,
        candidate,
    };
    decode_others(readings, n, &first, histories, same_from, row);
}

// The first reading, and its candidate at a word.
#[derive(Clone, Copy)]
struct FirstReading<'a> {
    program: &'a [u8],
    history: BlockHistory,
    candidate: Candidate,
}

// Decodes the candidates of all readings except the first.
#[inline]
fn decode_others(
    readings: &Readings,
    n: usize,
    first: &FirstReading,
    histories: &mut [BlockHistory],
    same_from: &mut [usize],
    row: &mut GivenRow,
)
    requires readings { AreHeldReadings readings.now }
    requires histories_size { readings.now.count ≤ length histories.old }
    requires row_size { length row.old.candidates ≡ 254 }
    requires same_size { readings.now.count ≤ length same_from.old }
    requires within { HoldsWord n (size_in readings.now) }
    requires histories { (r : ℕ) → 0 < n → 0 < r → r < readings.now.count
        → IsHistory (program_in readings.now r) (n - 1) (slice_index_or histories.old r no_history) }
    requires same { AreFollowed readings.now ((n + 6) / 4 + 1) same_from.old }
    requires program { first.now.program.now ≡ program_in readings.now 0 }
    requires history { IsHistory first.now.program.now n first.now.history }
    requires candidate { first.now.candidate ≡ candidate_of (reading_at first.now.program.now n) }
    requires first_history { slice_index_or histories.old 0 no_history ≡ first.now.history }
    requires first_candidate { candidate_of_reading row.old.candidates 0 ≡ first.now.candidate }
    ensures histories_size { length histories.new ≡ length histories.old }
    ensures same_size { length same_from.new ≡ length same_from.old }
    ensures histories { (r : ℕ) → r < readings.now.count
        → IsHistory (program_in readings.now r) n (slice_index_or histories.new r no_history) }
    ensures same { AreFollowed readings.now ((n + 7) / 4 + 1) same_from.new }
    ensures row { (r : ℕ) → r < readings.now.count
        → candidate_of_reading row.new.candidates r
        ≡ candidate_of (reading_at (program_in readings.now r) n) }
{
    for r in 1..readings.count {
        decode_beside(
            first,
            readings.program(r),
            n,
            &mut histories[r],
            &mut same_from[r],
            &mut row.candidates[r],
        );
    }
}

// Decodes the candidate of one reading. If its blocks under the word equal those of the first reading, their
// candidates are equal.
#[inline]
#[tactic(auto, using(crate::proofs::Alike::same_candidate, crate::proofs::Alike::same_history))]
fn decode_beside(
    first: &FirstReading,
    program: &[u8],
    n: usize,
    history: &mut BlockHistory,
    same_from: &mut usize,
    candidate: &mut Candidate,
)
    requires within { HoldsWord n (length program.now) }
    requires size { length first.now.program.now ≡ length program.now }
    requires history { 0 < n → IsHistory program.now (n - 1) history.old }
    requires same { AreSameFrom first.now.program.now program.now ((n + 6) / 4 + 1) same_from.old }
    requires first_history { IsHistory first.now.program.now n first.now.history }
    requires first_candidate { first.now.candidate ≡ candidate_of (reading_at first.now.program.now n) }
    ensures history { IsHistory program.now n history.new }
    ensures same { AreSameFrom first.now.program.now program.now ((n + 7) / 4 + 1) same_from.new }
    ensures candidate { candidate.new ≡ candidate_of (reading_at program.now n) }
{
    follow(first.program, program, n, same_from);
    if *same_from <= n / SLOTS_A_BLOCK {
        *history = first.history;
        *candidate = first.candidate;
    } else {
        decode_one(&first.candidate, program, n, history, candidate);
    }
}

// Decodes the candidate of one reading, and tries the codeword of another reading first. It is inlined, so
// that its result stays in registers.
#[inline(always)]
fn decode_one(
    other: &Candidate,
    program: &[u8],
    n: usize,
    history: &mut BlockHistory,
    candidate: &mut Candidate,
)
    requires within { HoldsWord n (length program.now) }
    requires history { 0 < n → IsHistory program.now (n - 1) history.old }
    ensures history { IsHistory program.now n history.new }
    ensures candidate { candidate.new ≡ candidate_of (reading_at program.now n) }
{
    history.advance(program, n);
    *candidate = decoded(other, program, n, history);
}

/// The candidate of one reading at word `n`. Most blocks have no symbols other than 0, and need no decoding.
#[inline]
pub(crate) fn decoded(
    other: &Candidate,
    program: &[u8],
    n: usize,
    history: &BlockHistory,
) -> Candidate
    requires size { symbols_a_slot * (n + 8) ≤ length program.now }
    requires history { IsHistory program.now n history.now }
    ensures { result ≡ candidate_of (reading_at program.now n) }
{
    if history.is_blank(n) {
        return decode_blank(history.coverage(n));
    }
    decode_likely(other, &reading(program, n, history))
}

/// Finds the candidate of each reading at a word from what all readings have there.
pub(crate) fn say_all(
    some_quiet: bool,
    row: &[Candidate],
    silences: &[Silence],
    said: &mut [Candidate],
)
    requires some { some_quiet ≡ list_any is_quiet_candidate row.now }
    requires silences { length row.now ≤ length silences.now }
    requires said { length row.now ≤ length said.old }
    ensures size { length said.new ≡ length said.old }
    ensures each { (r : ℕ) → r < length row.now
        → candidate_of_reading said.new r ≡ said_after (list_any is_quiet_candidate row.now)
        (slice_index_or silences.now r no_silence) (candidate_of_reading row.now r) }
{
    for r in 0..row.len() {
        said[r] = say(some_quiet, silences[r], row[r]);
    }
}

#[inline]
fn say(some_quiet: bool, silence: Silence, given: Candidate) -> Candidate
    ensures { result ≡ said_after some_quiet silence given }
{
    if is_left(some_quiet, silence, &given) {
        Candidate::Silent
    } else {
        given
    }
}

// Whether the codeword of a reading does not count.
#[inline]
fn is_left(some_quiet: bool, silence: Silence, given: &Candidate) -> bool
    ensures { result ≡ is_left some_quiet silence given.now }
{
    silence.lacks() && given.is_idle() || some_quiet && given.is_doubtful()
}

/// Adds one to the count of each reading whose codeword does not count.
pub(crate) fn count_left(
    some_quiet: bool,
    row: &[Candidate],
    silences: &[Silence],
    counts: &mut [u32],
)
    requires some { some_quiet ≡ list_any is_quiet_candidate row.now }
    requires silences { length row.now ≤ length silences.now }
    requires counts { length row.now ≤ length counts.old }
    requires few { (r : ℕ) → r < length row.now → slice_index_or counts.old r 0 < 4000000 }
    ensures size { length counts.new ≡ length counts.old }
    ensures each { (r : ℕ) → r < length row.now → slice_index_or counts.new r 0
        ≡ slice_index_or counts.old r 0
        + (if is_left (list_any is_quiet_candidate row.now) (slice_index_or silences.now r no_silence)
        (candidate_of_reading row.now r) then 1 else 0) }
    ensures others { (r : ℕ) → length row.now ≤ r
        → slice_index_or counts.new r 0 ≡ slice_index_or counts.old r 0 }
{
    for r in 0..row.len() {
        if is_left(some_quiet, silences[r], &row[r]) {
            counts[r] += 1;
        }
    }
}

/// Whether some reading is quiet.
pub(crate) fn is_any_quiet(row: &[Candidate]) -> bool
    ensures { result ≡ list_any is_quiet_candidate row.now }
{
    row.iter().any(|candidate| candidate.is_quiet())
}

fn reading(program: &[u8], n: usize, history: &BlockHistory) -> WordReading
    requires size { symbols_a_slot * (n + 8) ≤ length program.now }
    requires history { IsHistory program.now n history.now }
    ensures { result ≡ reading_at program.now n }
{
    WordReading {
        word: word_at(program, n),
        coverage: history.coverage(n),
    }
}

/// The symbols of word n.
pub(crate) fn word_at(program: &[u8], n: usize) -> Word
    requires { symbols_a_slot * (n + 8) ≤ length program.now }
    ensures { result ≡ word_of (symbols_of program.now) n }
{
    let mut bytes = [0; SYMBOLS];
    pick(program, n, &mut bytes);
    Word::new(&bytes)
}

// Picks the bytes with the symbols of word `n`. It is a separate function, so that each byte is stored at
// once and does not wait in a register for the others.
#[inline(never)]
fn pick(program: &[u8], n: usize, bytes: &mut [u8; SYMBOLS])
    requires { symbols_a_slot * (n + 8) ≤ length program.now }
    ensures { (i : ℕ) → i < word_symbols
        → slice_index bytes.new i ≡ slice_index program.now (place n i) }
{
    for i in 0..SYMBOLS {
        bytes[i] = program[SYMBOLS * n + place(i) as usize];
    }
}
