// The error-free words of readings that are not in the output.
ghost use Rattle.std.specs.Prelude.{◌≡◌, ◌≤◌, ◌<◌, ◌+◌, ℕ, if◌then◌else◌, length, slice_index_or};
ghost use Rattle.rw_mend.specs.Choice.{candidate_of_reading};
ghost use Rattle.rw_mend.specs.Losses.{is_found, is_lost};

use crate::choice::is_same;
use crate::{Candidate, Mended};
use rw_code::Pack;

/// Adds one to the count of each reading whose candidate is lost.
pub(crate) fn count_lost(candidates: &[Candidate], found: &Option<Mended>, lost: &mut [u32])
    requires room { length candidates.now ≤ length lost.old }
    requires few { (r : ℕ) → r < length candidates.now → slice_index_or lost.old r 0 < 4000000 }
    ensures size { length lost.new ≡ length lost.old }
    ensures each { (r : ℕ) → r < length candidates.now → slice_index_or lost.new r 0
        ≡ slice_index_or lost.old r 0
        + (if is_lost found.now (candidate_of_reading candidates.now r) then 1 else 0) }
    ensures others { (r : ℕ) → length candidates.now ≤ r
        → slice_index_or lost.new r 0 ≡ slice_index_or lost.old r 0 }
{
    for r in 0..candidates.len() {
        if is_lost(found, &candidates[r]) {
            lost[r] += 1;
        }
    }
}

// Whether a candidate is lost: it is a codeword with no wrong symbol, and not the mended codeword.
#[inline]
fn is_lost(found: &Option<Mended>, candidate: &Candidate) -> bool
    ensures { result ≡ is_lost found.now candidate.now }
{
    match candidate {
        Candidate::Near { pack, distance } => *distance == 0 && !is_found(found, pack),
        _ => false,
    }
}

#[inline]
fn is_found(found: &Option<Mended>, pack: &Pack) -> bool
    ensures { result ≡ is_found found.now pack.now }
{
    match found {
        Some(mended) => is_same(&mended.pack, pack),
        None => false,
    }
}
