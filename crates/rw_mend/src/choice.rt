// The mended codeword of a word, chosen from the candidates of its readings.
ghost use Rattle.std.specs.Prelude.{◌≡◌, ◌≢◌, ◌==◌, ◌≤◌, ◌<◌, true, false, ℕ, length, MatchOption};
ghost use Rattle.std.specs.List.{list_any};
ghost use Rattle.rw_code.specs.Codeword.{differences};
ghost use Rattle.rw_mend.specs.declared.candidates.Candidate.TheVariants;
ghost use Rattle.rw_mend.specs.Choice.{is_best, is_near, is_of, stands, votes, IsFirstBest, IsMending};

use crate::Candidate;
use crate::agreements::agreed;
use rw_code::Pack;

/// The source of a mended codeword.
#[derive(Clone, Copy)]
pub enum WordSource {
    /// The codeword is that of the reading with this number.
    Reading(u8),
    /// Two readings agree on the codeword.
    Agreed,
}

/// A mended codeword.
#[derive(Clone, Copy)]
pub struct Mended {
    /// The codeword.
    pub pack: Pack,
    /// The source of the codeword.
    pub source: WordSource,
}

/// The maximum number of readings in one call.
pub const MOST_READINGS: usize = 254;

/// The mended codeword of a word: the codeword with the smallest distance, and among several the one that
/// most readings have. If no reading has a codeword, it is the codeword on which two readings agree. `None`
/// if there is no such codeword.
#[inline(always)]
pub fn mend(candidates: &[Candidate]) -> Option<Mended>
    requires { length candidates.now ≤ 254 }
    ensures { IsMending candidates.now result }
{
    match first_best(candidates) {
        Some(r) => of_reading(candidates, r),
        None => {
            if has_codeword(candidates) {
                None
            } else {
                of_two(candidates)
            }
        }
    }
}

// The codeword of the reading whose candidate is best.
fn of_reading(candidates: &[Candidate], r: usize) -> Option<Mended>
    requires few { length candidates.now ≤ 254 }
    requires best { IsFirstBest candidates.now r }
    ensures { IsMending candidates.now result }
{
    match candidates[r] {
        Candidate::Near { pack, .. } => Some(Mended {
            pack,
            source: WordSource::Reading(r as u8),
        }),
        _ => None,
    }
}

// The mended codeword on which two readings agree. It is a separate function so that other words do not pay
// for its variables.
#[inline(never)]
fn of_two(candidates: &[Candidate]) -> Option<Mended>
    requires none { list_any is_near candidates.now ≡ false }
    requires no_best { (r : ℕ) → ¬ IsFirstBest candidates.now r }
    ensures { IsMending candidates.now result }
{
    match agreed(candidates) {
        Some(pack) => Some(Mended {
            pack,
            source: WordSource::Agreed,
        }),
        None => None,
    }
}

// The number of the first reading whose candidate is best.
fn first_best(candidates: &[Candidate]) -> Option<usize>
    ensures { MatchOption result ((r : ℕ) → ¬ IsFirstBest candidates.now r)
        (λ r. IsFirstBest candidates.now r) }
{
    for r in 0..candidates.len() {
        if is_best(candidates, &candidates[r]) {
            return Some(r);
        }
    }
    None
}

fn is_best(candidates: &[Candidate], candidate: &Candidate) -> bool
    ensures { result ≡ is_best candidates.now candidate.now }
{
    match candidate {
        Candidate::Near { pack, distance } => stands_beside_all(candidates, pack, *distance),
        _ => false,
    }
}

fn stands_beside_all(candidates: &[Candidate], pack: &Pack, distance: u8) -> bool
    ensures { result ≡ is_best candidates.now (TheVariants.Near pack.now distance) }
{
    candidates
        .iter()
        .all(|candidate| stands(candidates, pack, distance, candidate))
}

// Whether a codeword is at least as good as another candidate.
fn stands(candidates: &[Candidate], pack: &Pack, distance: u8, candidate: &Candidate) -> bool
    ensures { result ≡ stands candidates.now pack.now distance candidate.now }
{
    match candidate {
        Candidate::Near {
            pack: other,
            distance: more,
        } => {
            distance < *more
                || distance == *more
                    && (is_same(pack, other) || votes(candidates, other) < votes(candidates, pack))
        }
        _ => true,
    }
}

/// The number of candidates that are this codeword.
#[inline(always)]
pub(crate) fn votes(candidates: &[Candidate], pack: &Pack) -> usize
    ensures { result ≡ votes candidates.now pack.now }
{
    candidates
        .iter()
        .filter(|candidate| is_of(pack, candidate))
        .count()
}

// Whether a candidate is this codeword.
fn is_of(pack: &Pack, candidate: &Candidate) -> bool
    ensures { result ≡ is_of pack.now candidate.now }
{
    match candidate {
        Candidate::Near { pack: own, .. } => is_same(own, pack),
        _ => false,
    }
}

/// Whether two codewords are the same.
pub(crate) fn is_same(one: &Pack, other: &Pack) -> bool
    ensures reported { result ≡ (differences one.now other.now == 0) }
    ensures same { result ≡ true → one.now ≡ other.now }
    ensures other { result ≡ false → one.now ≢ other.now }
{
    if one.word().bytes() == other.word().bytes() {
        return true;
    }
    false
}

fn has_codeword(candidates: &[Candidate]) -> bool
    ensures { result ≡ list_any is_near candidates.now }
{
    candidates.iter().any(is_near)
}

fn is_near(candidate: &Candidate) -> bool
    ensures { result ≡ is_near candidate.now }
{
    matches!(candidate, Candidate::Near { .. })
}
