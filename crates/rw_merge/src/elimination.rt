// Errors at known positions, from the sums of a word.
ghost use Rattle.std.specs.Prelude.{◌≡◌, ◌≢◌, ◌<◌, ◌-◌, [], ◌∷◌, List, ℕ, suc, bit_xor, slice_index, slice_set};
ghost use Rattle.gf64.specs.Field.{alpha_power};
ghost use Rattle.rw_code.specs.Codeword.{IsCodeword, IsWord, weighted_sum};
ghost use Rattle.rw_merge.specs.Elimination.{ArePlacedErrors, AreFirstSums, cleared};
ghost use Rattle.rw_merge.specs.Places.{AreApart, AreEqualOutside, all_of};
ghost use Rattle.raw_subcode.specs.Sizes.{symbols_a_slot};

use crate::places::WrongPlaces;
use gf64::Sym;
use rw_code::{SYMBOLS, Word};

/// Four sums over the symbols of a word. In sum j, each symbol is multiplied by the j-th power of its
/// position's power of alpha.
#[derive(Clone, Copy)]
pub(crate) struct WordSums {
    pub(crate) zeroth: Sym,
    pub(crate) first: Sym,
    pub(crate) second: Sym,
    pub(crate) third: Sym,
}

impl WordSums {
    pub(crate) fn of(word: &Word) -> WordSums
        requires { IsWord word.now }
        ensures { AreFirstSums 4 word.now result }
    {
        WordSums {
            zeroth: sum(word, 0),
            first: sum(word, 1),
            second: sum(word, 2),
            third: sum(word, 3),
        }
    }

    /// The sums without the symbol at a position. One sum fewer is known than before.
    pub(crate) fn without(&self, position: usize) -> WordSums
        requires { position < symbols_a_slot }
        ensures { (n : ℕ) (word : List ℕ) → n < 4 → AreFirstSums (suc n) word self.now
            → AreFirstSums n (cleared (alpha_power (23 - position)) word) result }
    {
        let power = power_at(position);
        WordSums {
            zeroth: self.first.add(power.mul(self.zeroth)),
            first: self.second.add(power.mul(self.first)),
            second: self.third.add(power.mul(self.second)),
            third: self.third,
        }
    }

    // The error at a position, if only the symbols at this and at three other positions are wrong.
    fn error_at(&self, at: usize, one: usize, two: usize, three: usize) -> Sym
        requires at { at < symbols_a_slot }
        requires one { (one < symbols_a_slot) × (one ≢ at) }
        requires two { (two < symbols_a_slot) × (two ≢ at) }
        requires three { (three < symbols_a_slot) × (three ≢ at) }
        ensures { (errors : List ℕ) → ArePlacedErrors self.now (at ∷ one ∷ two ∷ three ∷ []) errors
            → result ≡ slice_index errors at }
    {
        let power = power_at(at);
        let scale = power
            .add(power_at(one))
            .mul(power.add(power_at(two)))
            .mul(power.add(power_at(three)));
        let scaled = self.without(one).without(two).without(three).zeroth;
        scaled.mul(scale.inv())
    }
}

/// The only codeword that is equal to a word outside of four positions, if there is one.
pub(crate) fn solved(word: &Word, sums: &WordSums, places: &WrongPlaces) -> Word
    requires word { IsWord word.now }
    requires sums { AreFirstSums 4 word.now sums.now }
    requires apart { AreApart places.now }
    ensures { (codeword : List ℕ) → IsCodeword codeword
        → AreEqualOutside (all_of places.now) word.now codeword → codeword ≡ result }
{
    let WrongPlaces {
        first,
        second,
        third,
        fourth,
    } = *places;
    let one = plus(word, first, sums.error_at(first, second, third, fourth));
    let two = plus(&one, second, sums.error_at(second, first, third, fourth));
    let three = plus(&two, third, sums.error_at(third, first, second, fourth));
    plus(&three, fourth, sums.error_at(fourth, first, second, third))
}

// The word with an error added at a position.
fn plus(word: &Word, i: usize, error: Sym) -> Word
    requires { i < symbols_a_slot }
    ensures { result ≡ slice_set word.now i (bit_xor (slice_index word.now i) error) }
{
    word.with(i, word.get(i).add(error))
}

fn sum(word: &Word, j: u32) -> Sym
    requires { IsWord word.now }
    ensures { result ≡ weighted_sum j word.now }
{
    let power = Sym::alpha(j);
    let mut sum = Sym::default();
    for i in 0..SYMBOLS {
        sum = power.mul(sum).add(word.get(i));
    }
    sum
}

/// The power of alpha of a position: the factor of its symbol in sum 1.
pub(crate) fn power_at(position: usize) -> Sym
    requires { position < symbols_a_slot }
    ensures { result ≡ alpha_power (23 - position) }
{
    Sym::alpha((SYMBOLS - 1 - position) as u32)
}
