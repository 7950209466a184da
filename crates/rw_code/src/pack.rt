// Codewords: words that are checked, or sealed with their parity symbols.
ghost use Rattle.std.specs.Prelude.{◌≡◌, ◌∷◌, ◌+◌, ◌<◌, List, ℕ, MatchOption, [], take, slice_index, bit_xor};
ghost use Rattle.rw_code.specs.Codeword.{IsCodeword, HasSymbols, weighted_sum};
ghost use Rattle.rw_code.specs.Syndromes.{AreSyndromes, ContinuesTo, lane, value_at};
ghost use Rattle.rw_code.specs.Packs.{idle_pack};
ghost use Rattle.gf64.specs.Field.{product, alpha_power};

use crate::Word;
use crate::syndromes::Syndromes;
use crate::word::words_have_24_symbols;
use gf64::Sym;
use std::marker::Model;

/// A codeword: a word whose six parity sums are 0.
#[derive(Clone, Copy)]
pub struct Pack {
    word: Word,
}

impl Model for Pack {
    ghost Value = { List ℕ };

    ghost view = { λ p. p.word };

    ghost invariant = { λ p. IsCodeword p.word };

    ghost inverse = { λ symbols. record { word = symbols } };
}

impl Pack {
    /// The word as a codeword, if it is one.
    pub fn check(word: &Word) -> Option<Pack>
        ensures { MatchOption result (¬ IsCodeword word.now) (λ p. IsCodeword word.now × (p ≡ word.now)) }
    {
        Pack::check_syndromes(word, Syndromes::of(word))
    }

    /// The word as a codeword, if its syndromes are 0.
    #[inline]
    pub(crate) fn check_syndromes(word: &Word, syndromes: Syndromes) -> Option<Pack>
        requires { AreSyndromes word.now syndromes.lanes }
        ensures { MatchOption result (¬ IsCodeword word.now) (λ p. IsCodeword word.now × (p ≡ word.now)) }
    {
        // A codeword is a word.
        words_have_24_symbols(word);
        if syndromes.lanes == 0 {
            Some(Pack { word: *word })
        } else {
            None
        }
    }

    #[inline]
    pub(crate) fn of(word: Word) -> Pack
        requires { IsCodeword word }
        ensures { result ≡ word }
    {
        Pack { word }
    }

    /// The codeword with these symbols at 0 and 1 and at 4 to 19.
    pub fn seal(head: [Sym; 2], body: [Sym; 16]) -> Pack
        ensures codeword { IsCodeword result }
        ensures symbols { HasSymbols result head body }
        ensures only { (w : List ℕ) → IsCodeword w → HasSymbols w head body → w ≡ result }
    {
        let headed = with_head(head);
        let word = with_whole_parity(&with_body(headed, &body));
        // Both are words: the proof compares them position by position.
        words_have_24_symbols(&headed);
        words_have_24_symbols(&word);
        Pack { word }
    }

    /// The word of the codeword.
    pub fn word(&self) -> Word
        ensures same { result ≡ self.now }
        ensures codeword { IsCodeword result }
    {
        self.word
    }

    /// The codeword of 24 zeros.
    pub fn idle() -> Pack
        ensures { result ≡ idle_pack }
    {
        Pack {
            word: Word::default(),
        }
    }
}

// The two parity symbols that follow some symbols and make sums 0 and 1 equal to 0.
#[derive(Clone, Copy)]
struct FirstParity {
    high: Sym,
    low: Sym,
}

impl FirstParity {
    // The parity symbols after one more symbol: the remainder of the division by (x + 1)(x + α).
    fn push(self, symbol: Sym) -> FirstParity
        ensures { ContinuesTo 2 (self.high ∷ self.low ∷ []) symbol (result.high ∷ result.low ∷ []) }
    {
        let feedback = self.high.add(symbol);
        FirstParity {
            high: self.low.add(Sym::alpha(6).mul(feedback)),
            low: Sym::alpha(1).mul(feedback),
        }
    }
}

// Four numbers to add to the last four symbols of a word, as the coefficients of a polynomial.
#[derive(Clone, Copy)]
struct LastFour {
    cubic: Sym,
    square: Sym,
    linear: Sym,
    constant: Sym,
}

impl LastFour {
    // The polynomial whose coefficients are the powers of α with these exponents.
    #[inline]
    fn powers(cubic: u32, square: u32, linear: u32, constant: u32) -> LastFour
        ensures cubic { result.cubic ≡ alpha_power cubic }
        ensures square { result.square ≡ alpha_power square }
        ensures linear { result.linear ≡ alpha_power linear }
        ensures constant { result.constant ≡ alpha_power constant }
    {
        LastFour {
            cubic: Sym::alpha(cubic),
            square: Sym::alpha(square),
            linear: Sym::alpha(linear),
            constant: Sym::alpha(constant),
        }
    }

    #[inline]
    fn times(self, factor: Sym) -> LastFour
        ensures { (j : ℕ) → value_at j result ≡ product (value_at j self) factor }
    {
        LastFour {
            cubic: self.cubic.mul(factor),
            square: self.square.mul(factor),
            linear: self.linear.mul(factor),
            constant: self.constant.mul(factor),
        }
    }

    #[inline]
    fn add(self, other: LastFour) -> LastFour
        ensures { (j : ℕ) → value_at j result ≡ bit_xor (value_at j self) (value_at j other) }
    {
        LastFour {
            cubic: self.cubic.add(other.cubic),
            square: self.square.add(other.square),
            linear: self.linear.add(other.linear),
            constant: self.constant.add(other.constant),
        }
    }

    // The polynomial whose values at 1, α, α² and α³ are the four sums over all symbols: each sum times the polynomial
    // that is 1 at its own power and 0 at the other three.
    fn of(syndromes: Syndromes) -> LastFour
        ensures { (j : ℕ) → j < 4 → value_at j result ≡ lane j syndromes.lanes }
    {
        let sums = syndromes.sums();
        let zeroth = LastFour::powers(13, 40, 42, 19).times(sums.zeroth);
        let first = LastFour::powers(37, 22, 11, 42).times(sums.first);
        let second = LastFour::powers(36, 8, 22, 40).times(sums.second);
        let third = LastFour::powers(10, 36, 37, 13).times(sums.third);
        zeroth.add(first).add(second).add(third)
    }
}

// The word with these symbols at 0 and 1, parity symbols at 2 and 3, and zeros at 4 to 23.
fn with_head(head: [Sym; 2]) -> Word
    ensures head { (k : ℕ) → k < 2 → slice_index result k ≡ slice_index head k }
    ensures first_four { (j : ℕ) → j < 2 → weighted_sum j (take 4 result) ≡ 0 }
{
    let [first, second] = head;
    let zero = Sym::default();
    let none = FirstParity {
        high: zero,
        low: zero,
    };
    let parity = none.push(first).push(second);
    Word::default()
        .with(0, first)
        .with(1, second)
        .with(2, parity.high)
        .with(3, parity.low)
}

// The word with these symbols at 4 to 19.
fn with_body(word: Word, body: &[Sym; 16]) -> Word
    ensures first_four { (k : ℕ) → k < 4 → slice_index result k ≡ slice_index word k }
    ensures body { (k : ℕ) → k < 16 → slice_index result (4 + k) ≡ slice_index body.now k }
{
    let mut word = word;
    for i in 0..16 {
        word = word.with(4 + i, body[i]);
    }
    word
}

// The word with parity symbols at 20 to 23.
fn with_whole_parity(word: &Word) -> Word
    ensures kept { (k : ℕ) → k < 20 → slice_index result k ≡ slice_index word.now k }
    ensures whole { (j : ℕ) → j < 4 → weighted_sum j result ≡ 0 }
{
    // The word has 24 symbols, so the last four are at 20 to 23.
    words_have_24_symbols(word);
    let last = LastFour::of(Syndromes::of(word));
    word.plus(20, last.cubic)
        .plus(21, last.square)
        .plus(22, last.linear)
        .plus(23, last.constant)
}
