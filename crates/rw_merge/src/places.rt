// The positions at which the first of two readings may be wrong.
ghost use Rattle.std.specs.Prelude.{◌≡◌, ◌≢◌, ◌<◌, ◌-◌, [], ◌∷◌, List, ℕ, MatchOption};
ghost use Rattle.gf64.specs.Field.{product, alpha_power};
ghost use Rattle.rw_merge.specs.Agreement.{IsAgreed};
ghost use Rattle.rw_merge.specs.Elimination.{ArePlacedErrors, AreFirstSums};
ghost use Rattle.rw_merge.specs.Places.{AreApart, AreEqualOutside, all_of};
ghost use Rattle.raw_subcode.specs.Sizes.{symbols_a_slot};

use crate::counting::next_difference;
use crate::elimination::{WordSums, power_at};
use rw_code::{SYMBOLS, Word};

#[derive(Clone, Copy)]
pub(crate) struct WrongPlaces {
    pub(crate) first: usize,
    pub(crate) second: usize,
    pub(crate) third: usize,
    pub(crate) fourth: usize,
}

/// Four positions: outside of them, every agreed codeword equals the first of two readings that differ. `sums` are
/// those of the first reading. None only if there is no agreed codeword.
pub(crate) fn wrong_places(first: &Word, second: &Word, sums: &WordSums) -> Option<WrongPlaces>
    requires differ { first.now ≢ second.now }
    requires sums { AreFirstSums 4 first.now sums.now }
    ensures { MatchOption result
        ((w : List ℕ) → ¬ IsAgreed first.now second.now w)
        (λ p. AreApart p × ((w : List ℕ) → IsAgreed first.now second.now w
        → AreEqualOutside (all_of p) first.now w)) }
{
    let one = first.bytes();
    let other = second.bytes();
    let Some(first) = next_difference(&one, &other, 0) else {
        return None;
    };
    let Some(second) = next_difference(&one, &other, first + 1) else {
        return with_further(sums, first, unused(first, first, first));
    };
    let Some(third) = next_difference(&one, &other, second + 1) else {
        return with_further(sums, first, second);
    };
    let Some(fourth) = next_difference(&one, &other, third + 1) else {
        return Some(with_unused(first, second, third));
    };
    match next_difference(&one, &other, fourth + 1) {
        Some(_) => None,
        None => Some(WrongPlaces {
            first,
            second,
            third,
            fourth,
        }),
    }
}

// Four positions that include all errors, if the errors are at two known positions and at most one other.
fn with_further(sums: &WordSums, first: usize, second: usize) -> Option<WrongPlaces>
    requires first { first < symbols_a_slot }
    requires second { (second < symbols_a_slot) × (second ≢ first) }
    ensures { MatchOption result
        ((further : ℕ) (errors : List ℕ) → ¬ ArePlacedErrors sums.now (first ∷ second ∷ further ∷ []) errors)
        (λ p. AreApart p × ((further : ℕ) (errors : List ℕ)
        → ArePlacedErrors sums.now (first ∷ second ∷ further ∷ []) errors
        → ArePlacedErrors sums.now (all_of p) errors)) }
{
    let left = sums.without(first).without(second);
    if left.zeroth.is_zero() {
        let third = unused(first, second, second);
        return Some(with_unused(first, second, third));
    }
    let Some(third) = further_position(&left) else {
        return None;
    };
    if third == first || third == second {
        return None;
    }
    Some(with_unused(first, second, third))
}

// Three positions, and a fourth that differs from them.
fn with_unused(first: usize, second: usize, third: usize) -> WrongPlaces
    requires first { first < symbols_a_slot }
    requires second { (second < symbols_a_slot) × (second ≢ first) }
    requires third { (third < symbols_a_slot) × (third ≢ first) × (third ≢ second) }
    ensures apart { AreApart result }
    ensures first { result.first ≡ first }
    ensures second { result.second ≡ second }
    ensures third { result.third ≡ third }
{
    WrongPlaces {
        first,
        second,
        third,
        fourth: unused(first, second, third),
    }
}

// The only position whose power, multiplied by sum 0, is sum 1.
fn further_position(sums: &WordSums) -> Option<usize>
    requires { sums.now.zeroth ≢ 0 }
    ensures { MatchOption result
        ((k : ℕ) → k < symbols_a_slot → product (alpha_power (23 - k)) sums.now.zeroth ≢ sums.now.first)
        (λ j. (j < symbols_a_slot) × ((k : ℕ) → k < symbols_a_slot
        → product (alpha_power (23 - k)) sums.now.zeroth ≡ sums.now.first → k ≡ j)) }
{
    let ratio = sums.first.mul(sums.zeroth.inv());
    for j in 0..SYMBOLS {
        if power_at(j) == ratio {
            return Some(j);
        }
    }
    None
}

// A position that is none of these.
fn unused(one: usize, two: usize, three: usize) -> usize
    ensures within { result < symbols_a_slot }
    ensures one { result ≢ one }
    ensures two { result ≢ two }
    ensures three { result ≢ three }
{
    for position in 0..3 {
        if position != one && position != two && position != three {
            return position;
        }
    }
    3
}
