// Correction of a word: its wrong symbols, and the codeword near it.
ghost use Rattle.std.specs.Prelude.{◌≡◌, ◌≢◌, ◌<◌, ◌+◌, ◌-◌, ◌*◌, ◌%◌, ℕ, MatchOption, Some, IfSome};
ghost use Rattle.rw_code.specs.Codeword.{IsCodeword, IsWord, differences, Reads};
ghost use Rattle.rw_code.specs.Syndromes.{AreSyndromes, IsOneWrong, AreErrors, IsEntry, IsError, AreTwoWrong, AreTwoSums, IsLocator, IsLocatorOf, IsPair};
ghost use Rattle.gf64.specs.Field.{product, alpha_power};
ghost use Rattle.rw_code.specs.Sizes.{last_position, word_symbols};
ghost use Rattle.rw_code.specs.Finding.{GivesFixed};

use crate::syndromes::{Sums, Syndromes, entry};
use crate::word::words_have_24_symbols;
use crate::{Pack, SYMBOLS, Word};
use gf64::Sym;

/// A codeword near a word.
#[derive(Clone, Copy)]
pub struct Fixed {
    /// The codeword.
    pub pack: Pack,
    /// The number of positions at which the word differs from the codeword: at most two.
    pub wrong: u8,
}

/// The codeword that differs from a word at two positions at most, if there is one.
pub fn correct(received: &Word) -> Option<Fixed>
    ensures reads { GivesFixed received.now result }
    ensures word { IsWord received.now }
{
    // For the clause `word`.
    words_have_24_symbols(received);
    let wrong = received.weight();
    if wrong <= 2 {
        return Some(Fixed {
            pack: Pack::idle(),
            wrong,
        });
    }
    correct_by_sums(received)
}

/// The codeword near a word, computed as in `correct` but without the test whether the word is near the idle
/// pack. It suits words that are not near the idle pack.
pub fn correct_by_sums(received: &Word) -> Option<Fixed>
    ensures reads { GivesFixed received.now result }
    ensures word { IsWord received.now }
{
    // For the clause `word`.
    words_have_24_symbols(received);
    let syndromes = Syndromes::of(received);
    if let Some(pack) = Pack::check_syndromes(received, syndromes) {
        return Some(Fixed { pack, wrong: 0 });
    }
    correct_by(received, syndromes)
}

// The codeword near a word that is not a codeword, from the syndromes of the word.
fn correct_by(received: &Word, syndromes: Syndromes) -> Option<Fixed>
    requires no_codeword { ¬ IsCodeword received.now }
    requires syndromes { AreSyndromes received.now syndromes.lanes }
    ensures { GivesFixed received.now result }
{
    // The lemmas need the invariant of the word.
    words_have_24_symbols(received);
    if let Some(error) = one_error(syndromes) {
        return Some(without_one(received, syndromes, error));
    }
    if let Some(errors) = two_errors(syndromes) {
        return Some(without_two(received, syndromes, errors));
    }
    None
}

// Removes the error of a word.
#[inline]
fn without_one(received: &Word, syndromes: Syndromes, error: SymbolError) -> Fixed
    requires syndromes { AreSyndromes received.now syndromes.lanes }
    requires error { IsOneWrong syndromes.lanes error.position error.value }
    ensures reads { Reads received.now result.pack }
    ensures wrong { result.wrong ≡ differences received.now result.pack }
{
    let right = received.plus(error.position, error.value);
    // Both are words. So the sums of `right` follow from those of `received`.
    words_have_24_symbols(received);
    words_have_24_symbols(&right);
    Fixed {
        pack: Pack::of(right),
        wrong: 1,
    }
}

// Removes the two errors of a word.
#[inline]
fn without_two(received: &Word, syndromes: Syndromes, errors: TwoErrors) -> Fixed
    requires syndromes { AreSyndromes received.now syndromes.lanes }
    requires errors { AreErrors syndromes.lanes errors }
    ensures reads { Reads received.now result.pack }
    ensures wrong { result.wrong ≡ differences received.now result.pack }
{
    let TwoErrors { first, second } = errors;
    let half = received.plus(first.position, first.value);
    let right = half.plus(second.position, second.value);
    // Both are words. So the sums of `right` follow from those of `received`.
    words_have_24_symbols(received);
    words_have_24_symbols(&right);
    Fixed {
        pack: Pack::of(right),
        wrong: 2,
    }
}

#[derive(Clone, Copy)]
struct SymbolError {
    pub(crate) position: usize,
    /// The difference from the right symbol.
    pub(crate) value: Sym,
}

// Two wrong symbols.
#[derive(Clone, Copy)]
struct TwoErrors {
    pub(crate) first: SymbolError,
    pub(crate) second: SymbolError,
}

impl SymbolError {
    // What the error adds to the six sums.
    #[inline]
    fn entry(&self) -> u64
        requires { self.now.position < word_symbols }
        ensures { IsEntry self.now.position self.now.value result }
    {
        entry(self.position, self.value.value() as usize)
    }
}

// The wrong symbol of a word, if exactly one symbol is wrong.
#[inline]
fn one_error(syndromes: Syndromes) -> Option<SymbolError>
    ensures { MatchOption result
        ((i e : ℕ) → ¬ IsOneWrong syndromes.lanes i e)
        (λ error. IsOneWrong syndromes.lanes error.position error.value) }
{
    let Sums { zeroth, first, .. } = syndromes.sums();
    let Some(position) = single_position(zeroth, first) else {
        return None;
    };
    if entry(position, zeroth.value() as usize) != syndromes.lanes {
        return None;
    }
    Some(SymbolError {
        position,
        value: zeroth,
    })
}

// The position whose power of alpha is sum 1 divided by sum 0.
#[inline]
fn single_position(zeroth: Sym, first: Sym) -> Option<usize>
    ensures only { (i : ℕ) → IsError i zeroth → product (alpha_power (last_position - i)) zeroth ≡ first
        → result ≡ Some i }
    ensures error { IfSome result (λ i. (i < word_symbols) × (zeroth ≢ 0)) }
{
    if zeroth.is_zero() || first.is_zero() {
        return None;
    }
    let exponent = (first.logarithm() as usize + 63 - zeroth.logarithm() as usize) % 63;
    if exponent >= SYMBOLS {
        return None;
    }
    Some(SYMBOLS - 1 - exponent)
}

// The two wrong symbols of a word, if exactly two symbols are wrong.
fn two_errors(syndromes: Syndromes) -> Option<TwoErrors>
    ensures { MatchOption result
        ((i e j f : ℕ) → ¬ AreTwoWrong syndromes.lanes i e j f)
        (λ errors. AreErrors syndromes.lanes errors) }
{
    let sums = syndromes.sums();
    let Some(places) = Locator::of(&sums).places() else {
        return None;
    };
    let Some(errors) = errors_at(&sums, places) else {
        return None;
    };
    let part = errors.first.entry() ^ errors.second.entry();
    if part != syndromes.lanes {
        return None;
    }
    Some(errors)
}

// A quadratic polynomial. If two symbols are wrong, it is 0 at the powers of alpha of both positions.
#[derive(Clone, Copy)]
struct Locator {
    square: Sym,
    linear: Sym,
    constant: Sym,
}

// Two positions, in order.
#[derive(Clone, Copy)]
struct Places {
    first: usize,
    second: usize,
}

// The difference of the exponents of two powers of alpha, and the logarithm of their sum if the lower power
// is 1.
#[derive(Clone, Copy)]
struct Pair {
    difference: usize,
    sum: usize,
}

impl Locator {
    fn of(sums: &Sums) -> Locator
        ensures { IsLocator sums.now result }
    {
        Locator {
            square: sums.first.mul(sums.first).add(sums.zeroth.mul(sums.second)),
            linear: sums.first.mul(sums.second).add(sums.zeroth.mul(sums.third)),
            constant: sums.second.mul(sums.second).add(sums.first.mul(sums.third)),
        }
    }

    // The two positions at whose powers of alpha the polynomial is 0. The quotient
    // `square * constant / linear^2` depends only on the difference of the two exponents, so a table maps its
    // logarithm to this difference.
    #[inline]
    fn places(self) -> Option<Places>
        ensures only { (i j : ℕ) → i < j → j < word_symbols → IsLocatorOf self i j
            → result ≡ Some (record { first = i; second = j }) }
        ensures places { IfSome result
            (λ places. (places.first < places.second) × (places.second < word_symbols)) }
    {
        if self.square.is_zero() || self.linear.is_zero() || self.constant.is_zero() {
            return None;
        }
        let square = self.square.logarithm() as usize;
        let linear = self.linear.logarithm() as usize;
        let constant = self.constant.logarithm() as usize;
        let pair = pair_at((square + constant + 126 - 2 * linear) % 63);
        let low = (linear + 126 - square - pair.sum) % 63;
        let high = low + pair.difference;
        if pair.difference == 0 || high >= SYMBOLS {
            return None;
        }
        Some(Places {
            first: SYMBOLS - 1 - high,
            second: SYMBOLS - 1 - low,
        })
    }
}

// The pair of powers for which the product, divided by the square of the sum, has this logarithm.
#[inline]
fn pair_at(ratio: usize) -> Pair
    requires { ratio < 63 }
    ensures only { (d z : ℕ) → IsPair d z → ratio ≡ (d + 126 - 2 * z) % 63
        → result ≡ record { difference = d; sum = z } }
    ensures bound { (result.difference < word_symbols) × (result.sum < 63) }
{
    Pair {
        difference: DIFFERENCES[ratio] as usize,
        sum: SUMS[ratio] as usize,
    }
}

// The errors at two positions, from sums 0 and 1.
fn errors_at(sums: &Sums, places: Places) -> Option<TwoErrors>
    requires { (places.first < places.second) × (places.second < word_symbols) }
    ensures only { (e f : ℕ) → AreTwoSums sums.now places e f → result ≡ Some (record {
      first = record { position = places.first; value = e };
      second = record { position = places.second; value = f };
    }) }
    ensures some { IfSome result (λ errors. (errors.first.position ≡ places.first)
        × (errors.second.position ≡ places.second)
        × IsError places.first errors.first.value × IsError places.second errors.second.value) }
{
    let high = power_at(places.first);
    let low = power_at(places.second);
    let second = sums
        .first
        .add(high.mul(sums.zeroth))
        .mul(high.add(low).inv());
    let first = sums.zeroth.add(second);
    if first.is_zero() || second.is_zero() {
        return None;
    }
    Some(TwoErrors {
        first: SymbolError {
            position: places.first,
            value: first,
        },
        second: SymbolError {
            position: places.second,
            value: second,
        },
    })
}

// The power of alpha by which sum 1 multiplies the symbol at a position.
#[inline]
fn power_at(i: usize) -> Sym
    requires { i < word_symbols }
    ensures { result ≡ alpha_power (last_position - i) }
{
    Sym::alpha((SYMBOLS - 1 - i) as u32)
}

// The difference of the exponents for each logarithm, or 0 if no pair has this logarithm.
static DIFFERENCES: [u8; 63] = [
    21, 0, 3, 0, 6, 0, 13, 5, 12, 0, 0, 0, 0, 16, 10, 0, 0, 0, 7, 4, 0, 0, 0, 0, 11, 0, 0, 18, 20,
    0, 0, 0, 15, 19, 0, 0, 14, 0, 8, 0, 0, 2, 0, 0, 0, 9, 0, 0, 22, 17, 0, 0, 1, 0, 0, 0, 23, 0, 0,
    0, 0, 0, 0,
];

// The logarithm of the sum of the two powers if the lower exponent is 0, or 0 if there is no pair.
static SUMS: [u8; 63] = [
    42, 0, 32, 0, 1, 0, 35, 62, 2, 0, 0, 0, 0, 33, 61, 0, 0, 0, 26, 24, 0, 0, 0, 0, 25, 0, 0, 27,
    59, 0, 0, 0, 23, 56, 0, 0, 52, 0, 48, 0, 0, 12, 0, 0, 0, 45, 0, 0, 50, 47, 0, 0, 6, 0, 0, 0,
    15, 0, 0, 0, 0, 0, 0,
];
