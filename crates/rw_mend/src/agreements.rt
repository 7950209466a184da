// The codeword on which two of several readings agree.
ghost use Rattle.std.specs.Prelude.{◌≡◌, ◌+◌, ◌<◌, List, ℕ, length, MatchOption};
ghost use Rattle.rw_mend.specs.Choice.{AreAgreed, IsAgreedAlone, IsPairAgreed};
ghost use Rattle.rw_mend.specs.Agreements.{ArePairAgreements};
ghost use Rattle.rw_mend.specs.declared.candidates.Candidate.{Candidate};
ghost use Rattle.rw_mend.specs.declared.candidates.Candidate.TheVariants;

use crate::Candidate;
use crate::choice::is_same;
use rw_code::{Pack, Word};
use rw_merge::agree;

// What is known after some pairs of readings about the codewords on which they agree.
#[derive(Clone, Copy)]
pub(crate) enum Agreements {
    // No pair agrees on a codeword.
    Nothing,
    // All pairs that agree have this codeword.
    Alone { pack: Pack },
    // Some pairs agree on different codewords.
    Several,
}

/// The codeword on which readings agree that have no near codeword. `None` if no two agree, or if pairs agree
/// on different codewords.
pub(crate) fn agreed(candidates: &[Candidate]) -> Option<Pack>
    ensures { MatchOption result
        ((codeword : List ℕ) → ¬ IsAgreedAlone candidates.now codeword)
        (λ pack. IsAgreedAlone candidates.now pack) }
{
    let mut found = Agreements::Nothing;
    for j in 0..candidates.len() {
        for i in 0..j {
            found.add(candidates, i, j);
        }
    }
    match found {
        Agreements::Alone { pack } => Some(pack),
        _ => None,
    }
}

impl Agreements {
    // Examines one more pair, readings `i` and `j`.
    fn add(&mut self, candidates: &[Candidate], i: usize, j: usize)
        requires before { i < j }
        requires within { j < length candidates.now }
        ensures { ArePairAgreements candidates.now i j self.old
            → ArePairAgreements candidates.now (i + 1) j self.new }
    {
        if let Some(pack) = of_pair(&candidates[i], &candidates[j]) {
            *self = self.and(&pack);
        }
    }

    // These agreements, with the codeword of one more pair.
    fn and(&self, pack: &Pack) -> Agreements
        ensures { (candidates : List Candidate) (i j : ℕ) → IsPairAgreed candidates i j pack.now
            → ((another : List ℕ) → IsPairAgreed candidates i j another → another ≡ pack.now)
            → ArePairAgreements candidates i j self.now → ArePairAgreements candidates (i + 1) j result }
    {
        match self {
            Agreements::Nothing => Agreements::Alone { pack: *pack },
            Agreements::Alone { pack: own } => {
                if is_same(own, pack) {
                    Agreements::Alone { pack: *own }
                } else {
                    Agreements::Several
                }
            }
            Agreements::Several => Agreements::Several,
        }
    }
}

// The codeword on which two readings agree. Both must have been read, and no codeword may be near either.
fn of_pair(one: &Candidate, other: &Candidate) -> Option<Pack>
    ensures { MatchOption result
        ((codeword : List ℕ) → ¬ AreAgreed one.now other.now codeword)
        (λ pack. AreAgreed one.now other.now pack
        × ((another : List ℕ) → AreAgreed one.now other.now another → another ≡ pack)) }
{
    match one {
        Candidate::Lost { word } => with_word(word, other),
        _ => None,
    }
}

fn with_word(word: &Word, other: &Candidate) -> Option<Pack>
    ensures { MatchOption result
        ((codeword : List ℕ) → ¬ AreAgreed (TheVariants.Lost word.now) other.now codeword)
        (λ pack. AreAgreed (TheVariants.Lost word.now) other.now pack
        × ((another : List ℕ) → AreAgreed (TheVariants.Lost word.now) other.now another → another ≡ pack)) }
{
    match other {
        Candidate::Lost { word: second } => agree(word, second),
        _ => None,
    }
}
