// Words: their symbols, and the number of symbols that are not 0.
ghost use Rattle.std.specs.Prelude.{◌≡◌, ◌<◌, ◌%◌, ◌++◌, ◌+◌, ◌≤◌, take, drop, ◌↔◌, IsTrue, All, List, ℕ, length, map, min, slice_index, slice_set, replicate, bit_xor};
ghost use Rattle.rw_code.specs.Sizes.{word_symbols, symbol_values};
ghost use Rattle.rw_code.specs.Codeword.{IsWord, IsNear, differences};
ghost use Rattle.rw_code.specs.Packs.{idle_pack};

use gf64::Sym;
use std::marker::Model;
use std::simd::prelude::*;

/// How many symbols a word has (IEC 60908).
pub const SYMBOLS: usize = 24;

/// How many values a symbol has: it has six bits.
pub(crate) const SYMBOL_VALUES: usize = 64;

/// A word of 24 symbols.
#[derive(Clone, Copy)]
pub struct Word {
    bytes: [u8; SYMBOLS],
}

impl Model for Word {
    ghost Value = { List ℕ };

    ghost view = { λ w. w.bytes };

    ghost invariant = { λ w. IsWord w.bytes };

    ghost inverse = { λ symbols. record { bytes = symbols } };
}

impl Default for Word {
    fn default() -> Word
        ensures { result ≡ replicate word_symbols 0 }
    {
        Word {
            bytes: [0; SYMBOLS],
        }
    }
}

impl Word {
    /// The word whose symbols are the low six bits of the bytes.
    pub fn new(bytes: &[u8; SYMBOLS]) -> Word
        ensures { result ≡ map (λ byte. byte % 64) bytes.now }
    {
        let mut low = [0; SYMBOLS];
        for i in 0..SYMBOLS {
            low[i] = bytes[i] % 64;
        }
        Word { bytes: low }
    }

    /// The word of three lists of eight symbols, each below 64.
    #[inline]
    pub fn of_eights(low: [u8; 8], middle: [u8; 8], high: [u8; 8]) -> Word
        requires { All (λ symbol. symbol < symbol_values) (low ++ middle ++ high) }
        ensures { result ≡ low ++ middle ++ high }
    {
        let mut bytes = [0; SYMBOLS];
        bytes[..8].copy_from_slice(&low);
        bytes[8..16].copy_from_slice(&middle);
        bytes[16..SYMBOLS].copy_from_slice(&high);
        Word { bytes }
    }

    /// The symbol at a position.
    #[inline]
    pub fn get(&self, i: usize) -> Sym
        requires { i < word_symbols }
        ensures { result ≡ slice_index self.now i }
    {
        Sym::new(self.bytes[i]).unwrap()
    }

    /// The symbols, a byte each.
    #[inline]
    pub fn bytes(&self) -> [u8; SYMBOLS]
        ensures same { result ≡ self.now }
        ensures word { IsWord result }
    {
        self.bytes
    }

    /// Whether the word differs from the idle pack at two positions at most.
    #[inline]
    pub fn is_near_idle(&self) -> bool
        ensures near { IsTrue result ↔ IsNear self.now idle_pack }
        ensures word { IsWord self.now }
    {
        // Reading the field gives the prover the invariant.
        let _ = &self.bytes;
        self.weight() <= 2
    }

    /// The number of symbols that are not 0. At these positions, the word differs from the idle pack.
    #[inline]
    pub fn weight(&self) -> u8
        ensures count { result ≡ differences self.now idle_pack }
        ensures word { IsWord self.now }
    {
        let low = ones(&self.bytes[..8]);
        let middle = ones(&self.bytes[8..16]);
        let high = ones(&self.bytes[16..SYMBOLS]);
        low.strict_add(middle).strict_add(high).strict_reduce_sum()
    }

    /// The word with another symbol at a position.
    pub fn with(&self, i: usize, symbol: Sym) -> Word
        requires { i < word_symbols }
        ensures { result ≡ slice_set self.now i symbol }
    {
        let mut bytes = self.bytes;
        bytes[i] = symbol.value();
        Word { bytes }
    }

    /// The word with an error added to the symbol at a position.
    pub(crate) fn plus(&self, i: usize, error: Sym) -> Word
        requires { i < word_symbols }
        ensures { result ≡ slice_set self.now i (bit_xor (slice_index self.now i) error) }
    {
        let mut bytes = self.bytes;
        bytes[i] = self.get(i).add(error).value();
        Word { bytes }
    }
}

/// A law: each word has 24 symbols below 64.
pub fn words_have_24_symbols(word: &Word)
    ensures { IsWord word.now }
{
    // Reading the field gives the prover the invariant.
    let _ = &word.bytes;
}

// For each of eight symbols: 0 if the symbol is 0, and otherwise 1.
#[inline]
fn ones(symbols: &[u8]) -> u8x8
    requires { length symbols.now ≡ 8 }
    ensures { result ≡ map (λ symbol. min symbol 1) symbols.now }
{
    u8x8::from_slice(symbols).simd_min(u8x8::splat(1))
}
