// The codeword on which two readings of a word agree.
ghost use Rattle.std.specs.Prelude.{◌≡◌, ◌≢◌, ◌≤◌, true, List, ℕ, IfSome, MatchOption};
ghost use Rattle.rw_code.specs.Codeword.{IsWord, differences};
ghost use Rattle.rw_code.specs.Packs.{idle_pack};
ghost use Rattle.rw_merge.specs.Agreement.{GivesAgreed, IsAgreed};

use crate::counting::{differing, penalty};
use crate::elimination::{WordSums, solved};
use crate::places::wrong_places;
use rw_code::{Pack, Word, correct, correct_by_sums};

// The maximum number of doubts against an agreed codeword.
const MAX_PENALTY: u8 = 4;

/// The codeword on which two readings of a word agree: twice the number of symbols in which both are equal
/// and wrong, plus the number in which they differ, is at most four. There is at most one such codeword, and
/// `None` exactly if there is none.
pub fn agree(a: &Word, b: &Word) -> Option<Pack>
    ensures agreed { GivesAgreed a.now b.now result }
    ensures only { (one other : List ℕ) → IsAgreed a.now b.now one → IsAgreed a.now b.now other
        → one ≡ other }
    ensures words { IsWord a.now × IsWord b.now }
{
    // Most words of a disc are idle.
    if is_idle_agreed(a, b) {
        return Some(Pack::idle());
    }
    let apart = differing(a, b);
    if apart > MAX_PENALTY {
        return None;
    }
    if apart > 0 {
        return agree_apart(a, b);
    }
    // The readings are equal, and the idle pack is not near.
    let Some(fixed) = correct_by_sums(a) else {
        return None;
    };
    Some(fixed.pack)
}

#[inline]
fn is_idle_agreed(a: &Word, b: &Word) -> bool
    ensures agreed { result ≡ true → IsAgreed a.now b.now idle_pack }
    ensures words { IsWord a.now × IsWord b.now }
{
    let idle = Pack::idle().word();
    if penalty(a, b, &idle) > MAX_PENALTY {
        return false;
    }
    true
}

// The agreed codeword of two readings that differ in one to four symbols.
fn agree_apart(a: &Word, b: &Word) -> Option<Pack>
    requires differ { a.now ≢ b.now }
    requires few { differences a.now b.now ≤ 4 }
    requires word { IsWord a.now }
    ensures { GivesAgreed a.now b.now result }
{
    if let Some(pack) = likely(a, b) {
        return Some(pack);
    }
    let sums = WordSums::of(a);
    let Some(places) = wrong_places(a, b, &sums) else {
        return None;
    };
    accept(a, b, &solved(a, &sums, &places))
}

// A quick search for the agreed codeword: it is one of the readings, with doubts only where the readings differ, or
// it is near the first reading.
fn likely(a: &Word, b: &Word) -> Option<Pack>
    requires { differences a.now b.now ≤ 4 }
    ensures { IfSome result (λ pack. IsAgreed a.now b.now pack) }
{
    if let Some(pack) = Pack::check(a) {
        return Some(pack);
    }
    if let Some(pack) = Pack::check(b) {
        return Some(pack);
    }
    let Some(fixed) = correct(a) else {
        return None;
    };
    accept(a, b, &fixed.pack.word())
}

// The candidate, if it is a codeword that is agreed.
fn accept(a: &Word, b: &Word, candidate: &Word) -> Option<Pack>
    ensures { MatchOption result
        (¬ IsAgreed a.now b.now candidate.now)
        (λ pack. IsAgreed a.now b.now pack) }
{
    if penalty(a, b, candidate) > MAX_PENALTY {
        return None;
    }
    Pack::check(candidate)
}
