// The parity of packs of a .cdg file: 24 bytes whose low six bits are symbols.
ghost use Rattle.std.specs.Prelude.{◌≡◌, ◌↔◌, ◌≤◌, ◌+◌, ◌<◌, if◌then◌else◌, IsTrue, [], List, ℕ, count_by, length, slice_index_or};
ghost use Rattle.live_player.specs.Parity.{has_parity, has_no_symbol, is_valid_pack, low_symbols, IsSealed};
ghost use Rattle.rw_code.specs.Codeword.{IsCodeword};

use gf64::Sym;
use rw_code::{Pack, SYMBOLS, Word};

/// The counts of packs with and without valid parity.
#[repr(C)]
#[derive(Clone, Copy)]
pub struct ParityCounts {
    /// The packs whose symbols are all 0.
    pub idle: u64,
    /// The other packs with valid parity.
    pub valid: u64,
    /// The packs without valid parity.
    pub invalid: u64,
}

/// Counts packs by their parity.
pub fn count_parity(packs: &[[u8; SYMBOLS]]) -> ParityCounts
    ensures idle { result.idle ≡ count_by has_no_symbol packs.now }
    ensures valid { result.valid ≡ count_by is_valid_pack packs.now }
    ensures all { result.idle + result.valid + result.invalid ≡ length packs.now }
{
    let mut idle = 0;
    let mut valid = 0;
    for pack in packs {
        let one = parity_of(pack);
        idle += u64::from(one.is_idle);
        valid += u64::from(one.is_valid);
    }
    ParityCounts {
        idle,
        valid,
        invalid: packs.len() as u64 - idle - valid,
    }
}

/// A law: a pack has valid parity exactly if its symbols are a codeword.
pub fn valid_parity_is_that_of_a_codeword()
    ensures { (pack : List ℕ) → length pack ≡ 24
        → IsTrue (has_parity pack) ↔ IsCodeword (low_symbols pack) }
{}

/// Writes the parity of each pack. The pack becomes the codeword with its symbols at 0 and 1 and at 4 to 19.
pub fn seal_packs(packs: &mut [[u8; SYMBOLS]])
    ensures count { length packs.new ≡ length packs.old }
    ensures sealed { (n : ℕ) → n < length packs.old
        → IsSealed (slice_index_or packs.old n []) (slice_index_or packs.new n []) }
{
    for n in 0..packs.len() {
        packs[n] = sealed(&packs[n]);
    }
}

// The parity of a pack.
#[derive(Clone, Copy)]
struct PackParity {
    is_idle: bool,
    is_valid: bool,
}

fn parity_of(pack: &[u8; SYMBOLS]) -> PackParity
    ensures idle { result.is_idle ≡ has_no_symbol pack.now }
    ensures valid { result.is_valid ≡ is_valid_pack pack.now }
{
    let word = Word::new(pack);
    if word.weight() == 0 {
        return PackParity {
            is_idle: true,
            is_valid: false,
        };
    }
    PackParity {
        is_idle: false,
        is_valid: is_codeword(&word),
    }
}

fn is_codeword(word: &Word) -> bool
    ensures { IsTrue result ↔ IsCodeword word.now }
{
    Pack::check(word).is_some()
}

// The codeword of a pack: its own symbols with valid parity.
fn sealed(pack: &[u8; SYMBOLS]) -> [u8; SYMBOLS]
    ensures { IsSealed pack.now result }
{
    let word = Word::new(pack);
    let head = [word.get(0), word.get(1)];
    let mut body = [Sym::default(); 16];
    for k in 0..16 {
        body[k] = word.get(4 + k);
    }
    Pack::seal(head, body).word().bytes()
}
