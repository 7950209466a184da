// The positions where two readings differ, and the doubts against a codeword.
ghost use Rattle.std.specs.Prelude.{◌≡◌, ◌≢◌, ◌≤◌, ◌+◌, ◌*◌, MatchOption};
ghost use Rattle.rw_code.specs.Codeword.{IsWord, differences};
ghost use Rattle.rw_merge.specs.Agreement.{equally_wrong};
ghost use Rattle.rw_merge.specs.Places.{AreEqualFrom, IsNextDifference};
ghost use Rattle.raw_subcode.specs.Sizes.{symbols_a_slot};

use rw_code::{SYMBOLS, Word};

/// The first position from here on at which the readings differ.
pub(crate) fn next_difference(
    first: &[u8; SYMBOLS],
    second: &[u8; SYMBOLS],
    from: usize,
) -> Option<usize>
    requires { from ≤ symbols_a_slot }
    ensures { MatchOption result
        (AreEqualFrom from first.now second.now)
        (λ i. IsNextDifference from first.now second.now i) }
{
    for i in from..SYMBOLS {
        if first[i] != second[i] {
            return Some(i);
        }
    }
    None
}

/// The number of positions where two readings differ. It examines all positions, which is faster than a loop that
/// stops.
pub fn differing(first: &Word, second: &Word) -> u8
    ensures count { result ≡ differences first.now second.now }
    ensures first { IsWord first.now }
    ensures second { IsWord second.now }
{
    let one = first.bytes();
    let other = second.bytes();
    let mut count = 0;
    for i in 0..SYMBOLS {
        if one[i] != other[i] {
            count += 1;
        }
    }
    count
}

/// The doubts against a word: two for each symbol in which the readings are equal and differ from the word,
/// and one for each symbol in which the readings differ.
pub(crate) fn penalty(first: &Word, second: &Word, word: &Word) -> u8
    ensures count { result ≡ 2 * equally_wrong first.now second.now word.now
        + differences first.now second.now }
    ensures first { IsWord first.now }
    ensures second { IsWord second.now }
{
    let first = first.bytes();
    let second = second.bytes();
    let word = word.bytes();
    let mut penalty = 0;
    for i in 0..SYMBOLS {
        penalty += symbol_penalty(first[i], second[i], word[i]);
    }
    penalty
}

// The doubts at one symbol. It has no branch, so that one step can process several symbols.
#[inline(always)]
fn symbol_penalty(first: u8, second: u8, word: u8) -> u8
    ensures apart { first ≢ second → result ≡ 1 }
    ensures wrong { first ≡ second → first ≢ word → result ≡ 2 }
    ensures right { first ≡ second → first ≡ word → result ≡ 0 }
{
    if first != second {
        1
    } else if first != word {
        2
    } else {
        0
    }
}
