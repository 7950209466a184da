// The words at which readings are quiet, and whether they lack graphics there.
ghost use Rattle.std.specs.Prelude.{◌≡◌, ◌<◌, ◌≤◌, ◌+◌, ◌^◌, List, ℕ, true, MatchBool, length, slice_index_or};
ghost use Rattle.std.specs.List.{list_any};
ghost use Rattle.rw_mend.specs.Drops.{HasGraphics, Misses};
ghost use Rattle.rw_mend.specs.Readings.{AreHeldReadings, program_in, programs_in, size_in};
ghost use Rattle.rw_mend.specs.Rows.{AreHistories, IsRow};
ghost use Rattle.rw_mend.specs.Silences.{AreSilences, IsCalm, IsSilence, WillMiss};
ghost use Rattle.rw_mend.specs.Histories.{IsHistory};
ghost use Rattle.rw_mend.specs.Candidates.{is_graphics_candidate, is_quiet_candidate, candidate_of};
ghost use Rattle.rw_mend.specs.Words.{HoldsWord, given_at, reading_at};

use crate::candidates::MOST_WRONG;
use crate::cover::BlockHistory;
use crate::readings::Readings;
use crate::rows::word_at;
use crate::{Candidate, Coverage, WordReading, decode};

/// Whether a reading is quiet at the current word, and whether it then lacks graphics there.
#[derive(Clone, Copy)]
pub(crate) struct Silence {
    quiet: bool,
    lacks: bool,
}

impl Silence {
    /// A silence before the first word.
    pub(crate) fn new() -> Silence
        ensures { (words r : ℕ) (programs : List (List ℕ)) → IsSilence words programs r 0 result }
    {
        Silence {
            quiet: false,
            lacks: false,
        }
    }

    /// Whether the idle pack of the reading does not count.
    #[inline]
    pub(crate) fn lacks(&self) -> bool
        ensures { result ≡ self.now.lacks }
    {
        self.lacks
    }

    /// Advances to word `n` from the word before it. While a reading stays quiet, `lacks` does not change. If
    /// a reading becomes quiet, its words are examined to the end of the quiet run.
    #[inline]
    fn advance(
        &mut self,
        readings: &Readings,
        words: usize,
        r: usize,
        n: usize,
        row: &[Candidate],
        given: &Candidate,
        history: &BlockHistory,
        calm: &mut usize,
    )
        requires readings { AreHeldReadings readings.now }
        requires reading { r < readings.now.count }
        requires held { (m : ℕ) → m < words → HoldsWord m (size_in readings.now) }
        requires within { n < words }
        requires row { IsRow (programs_in readings.now) n row.now }
        requires count { length row.now ≡ readings.now.count }
        requires given { given.now ≡ given_at (programs_in readings.now) r n }
        requires history { IsHistory (program_in readings.now r) n history.now }
        requires before { IsSilence words (programs_in readings.now) r n self.old }
        requires calm { IsCalm (programs_in readings.now) n calm.old }
        ensures silence { IsSilence words (programs_in readings.now) r (n + 1) self.new }
        ensures calm { IsCalm (programs_in readings.now) n calm.new }
    {
        if !given.is_quiet() {
            self.quiet = false;
            self.lacks = false;
        } else if !self.quiet {
            self.lacks = will_miss(readings, words, r, n, row, history, calm);
            self.quiet = true;
        }
    }
}

/// Advances the silences of all readings to word `n` from the word before it. No reading has graphics from
/// word `n` to before word `calm`.
pub(crate) fn advance_all(
    readings: &Readings,
    words: usize,
    n: usize,
    row: &[Candidate],
    histories: &[BlockHistory],
    silences: &mut [Silence],
    calm: &mut usize,
)
    requires readings { AreHeldReadings readings.now }
    requires held { (m : ℕ) → m < words → HoldsWord m (size_in readings.now) }
    requires within { n < words }
    requires row { IsRow (programs_in readings.now) n row.now }
    requires count { length row.now ≡ readings.now.count }
    requires histories_size { readings.now.count ≤ length histories.now }
    requires histories { AreHistories (programs_in readings.now) n histories.now }
    requires size { readings.now.count ≤ length silences.old }
    requires before { AreSilences words (programs_in readings.now) n silences.old }
    requires calm { IsCalm (programs_in readings.now) n calm.old }
    ensures size { length silences.new ≡ length silences.old }
    ensures silences { AreSilences words (programs_in readings.now) (n + 1) silences.new }
    ensures calm { IsCalm (programs_in readings.now) (n + 1) calm.new }
{
    for r in 0..row.len() {
        silences[r].advance(readings, words, r, n, row, &row[r], &histories[r], calm);
    }
}

// Whether reading `r` is quiet from word `n` to a word at which it misses graphics. It is a separate function
// so that words at which no silence begins do not pay for its variables.
#[inline(never)]
fn will_miss(
    readings: &Readings,
    words: usize,
    r: usize,
    n: usize,
    row: &[Candidate],
    history: &BlockHistory,
    calm: &mut usize,
) -> bool
    requires readings { AreHeldReadings readings.now }
    requires reading { r < readings.now.count }
    requires held { (m : ℕ) → m < words → HoldsWord m (size_in readings.now) }
    requires within { n < words }
    requires row { IsRow (programs_in readings.now) n row.now }
    requires count { length row.now ≡ readings.now.count }
    requires quiet { is_quiet_candidate (given_at (programs_in readings.now) r n) ≡ true }
    requires history { IsHistory (program_in readings.now r) n history.now }
    requires calm { IsCalm (programs_in readings.now) n calm.old }
    ensures will { MatchBool result (WillMiss words (programs_in readings.now) r n)
        (¬ WillMiss words (programs_in readings.now) r n) }
    ensures calm { IsCalm (programs_in readings.now) n calm.new }
{
    if misses_here(row, r, n, calm) {
        return true;
    }
    let program = readings.program(r);
    let mut history = *history;
    for m in n + 1..words {
        history.advance(program, m);
        if !is_quiet_at(program, m, &history) {
            return false;
        }
        if misses_at(readings, r, m, program, &history, calm) {
            return true;
        }
    }
    false
}

// Whether reading `r` misses graphics at the current word `n`.
fn misses_here(row: &[Candidate], r: usize, n: usize, calm: &mut usize) -> bool
    requires reading { r < length row.now }
    requires number { n < 2 ^ 63 }
    ensures reported { (programs : List (List ℕ)) → length programs ≡ length row.now
        → IsRow programs n row.now → MatchBool result (Misses programs r n) (¬ Misses programs r n) }
    ensures calm { (programs : List (List ℕ)) → length programs ≡ length row.now → IsRow programs n row.now
        → IsCalm programs n calm.old → IsCalm programs n calm.new }
{
    if !has_graphics_here(row, n, calm) {
        return false;
    }
    row[r].is_idle()
}

// Whether reading `r` misses graphics at word `m`, at which it is quiet.
#[inline]
fn misses_at(
    readings: &Readings,
    r: usize,
    m: usize,
    program: &[u8],
    history: &BlockHistory,
    calm: &mut usize,
) -> bool
    requires readings { AreHeldReadings readings.now }
    requires reading { r < readings.now.count }
    requires program { program.now ≡ program_in readings.now r }
    requires size { length program.now ≡ size_in readings.now }
    requires within { HoldsWord m (length program.now) }
    requires history { IsHistory program.now m history.now }
    requires quiet { is_quiet_candidate (given_at (programs_in readings.now) r m) ≡ true }
    requires calm { IsCalm (programs_in readings.now) m calm.old }
    ensures reported { MatchBool result (Misses (programs_in readings.now) r m)
        (¬ Misses (programs_in readings.now) r m) }
    ensures calm { (n : ℕ) → IsCalm (programs_in readings.now) n calm.old
        → IsCalm (programs_in readings.now) n calm.new }
{
    if history.coverage(m) == Coverage::Unread {
        return false;
    }
    has_graphics_at(readings, m, calm)
}

// Whether some reading has graphics at the current word `n`.
fn has_graphics_here(row: &[Candidate], n: usize, calm: &mut usize) -> bool
    requires { n < 2 ^ 63 }
    ensures reported { (programs : List (List ℕ)) → length programs ≡ length row.now
        → IsRow programs n row.now → MatchBool result (HasGraphics programs n) (¬ HasGraphics programs n) }
    ensures calm { (programs : List (List ℕ)) → length programs ≡ length row.now → IsRow programs n row.now
        → IsCalm programs n calm.old → IsCalm programs n calm.new }
{
    if is_any_graphics(row) {
        return true;
    }
    *calm = (*calm).max(n + 1);
    false
}

fn is_any_graphics(row: &[Candidate]) -> bool
    ensures { result ≡ list_any is_graphics_candidate row.now }
{
    row.iter().any(|candidate| candidate.is_graphics())
}

// Whether some reading has graphics at a later word `m`. No reading has graphics from the current word to
// before word `calm`.
fn has_graphics_at(readings: &Readings, m: usize, calm: &mut usize) -> bool
    requires readings { AreHeldReadings readings.now }
    requires within { HoldsWord m (size_in readings.now) }
    requires calm { IsCalm (programs_in readings.now) m calm.old }
    ensures reported { MatchBool result (HasGraphics (programs_in readings.now) m)
        (¬ HasGraphics (programs_in readings.now) m) }
    ensures calm { (n : ℕ) → IsCalm (programs_in readings.now) n calm.old
        → IsCalm (programs_in readings.now) n calm.new }
{
    if m < *calm {
        return false;
    }
    if is_any_graphics_at(readings, m) {
        return true;
    }
    if m == *calm {
        *calm = m + 1;
    }
    false
}

fn is_any_graphics_at(readings: &Readings, m: usize) -> bool
    requires readings { AreHeldReadings readings.now }
    requires within { HoldsWord m (size_in readings.now) }
    ensures { MatchBool result (HasGraphics (programs_in readings.now) m)
        (¬ HasGraphics (programs_in readings.now) m) }
{
    for s in 0..readings.count {
        if is_graphics_at(readings.program(s), m) {
            return true;
        }
    }
    false
}

// Whether a reading has graphics at word `m`. Few words of a silence have more than two symbols other than 0,
// and only these are decoded.
#[inline]
fn is_graphics_at(program: &[u8], m: usize) -> bool
    requires { HoldsWord m (length program.now) }
    ensures { result ≡ is_graphics_candidate (candidate_of (reading_at program.now m)) }
{
    let word = word_at(program, m);
    if word.weight() <= MOST_WRONG {
        return false;
    }
    decode(&WordReading {
        word,
        coverage: Coverage::Whole,
    })
    .is_graphics()
}

// Whether a reading is quiet at word `m`. The number of its symbols other than 0 decides, without decoding.
#[inline]
fn is_quiet_at(program: &[u8], m: usize, history: &BlockHistory) -> bool
    requires within { HoldsWord m (length program.now) }
    requires history { IsHistory program.now m history.now }
    ensures { result ≡ is_quiet_candidate (candidate_of (reading_at program.now m)) }
{
    if history.is_blank(m) {
        return true;
    }
    word_at(program, m).weight() <= MOST_WRONG
}
