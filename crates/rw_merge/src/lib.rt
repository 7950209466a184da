//! Two readings of one disc as one stream.
#![tactic(auto)]

mod agreement;
mod blocks;
mod counting;
mod elimination;
mod merge;
mod packs;
mod pairs;
mod places;

ghost use Rattle.std.specs.Prelude.{◌≡◌, List, ℕ};
ghost use Rattle.rw_code.specs.Codeword.{IsWord};
ghost use Rattle.rw_merge.specs.Agreement.{IsAgreed};
ghost use Rattle.rw_merge.specs.Merging.{IsMergedText};

pub use agreement::agree;
pub use counting::differing;
pub use merge::{MergeStop, Merged, Merger, two_readings_give_packs};

/// A law: two readings of a word agree on at most one codeword.
pub fn only_one_codeword_is_agreed()
    ensures { (first second one other : List ℕ) → IsWord first → IsWord second
        → IsAgreed first second one → IsAgreed first second other → one ≡ other }
{}

/// A law: the bytes of two readings determine their merged text, regardless of the pieces in which the inputs
/// deliver them.
pub fn one_text_is_merged()
    ensures { (lead_in : ℕ) (first second text other : List ℕ) (bad count : ℕ)
        → IsMergedText lead_in first second text bad → IsMergedText lead_in first second other count
        → (text ≡ other) × (bad ≡ count) }
{}
