// Laws on the packs that are recovered from a stream.
ghost use Rattle.std.specs.Prelude.{◌≡◌, ◌<◌, ◌*◌, ◌/◌, All, List, Option, Some, ℕ, length, map};
ghost use Rattle.std.specs.List.{concat};
ghost use Rattle.bit_lists.specs.Counting.{below};
ghost use Rattle.raw_subcode.specs.Sizes.{block_bytes};
ghost use Rattle.rw_code.specs.Codeword.{IsCodeword};
ghost use Rattle.rw_code.specs.Sizes.{symbol_values};
ghost use Rattle.rw_interleave.specs.Interleave.{Carries};
ghost use Rattle.raw_subcode.specs.declared.form.Form.{Form};
ghost use Rattle.rw_interleave.specs.Stream.{DiffersInBursts, IsDamaged, IsRecovered, all_packs, bad_count, form_word, word_count};
ghost use Rattle.rw_interleave.specs.Texts.{cdg_bytes};

use raw_subcode::Form;
use rw_code::{Pack, each_word_has_one_finding, only_one_codeword_is_near};

/// A law: for any symbols below 64, there is exactly one result of the correction. So it depends only on the
/// form and the symbols.
pub fn one_list_is_recovered()
    ensures some { (form : Form) (symbols : List ℕ) → All (λ symbol. symbol < symbol_values) symbols
        → (found : List (Option (List ℕ))) × IsRecovered form symbols found }
    ensures one { (form : Form) (symbols : List ℕ) (found other : List (Option (List ℕ)))
        → All (λ symbol. symbol < symbol_values) symbols
        → IsRecovered form symbols found → IsRecovered form symbols other → found ≡ other }
{
    each_word_has_one_finding();
}

/// A law: if at most two symbols of each word are wrong, every pack is recovered.
pub fn packs_are_recovered()
    ensures { (form : Form) (blocks : ℕ) (symbols others : List ℕ) (packs : List (List ℕ))
        (found : List (Option (List ℕ)))
        → Carries blocks symbols packs → All (λ symbol. symbol < symbol_values) others
        → IsDamaged symbols form others → IsRecovered form others found
        → found ≡ map (λ pack. Some pack) (all_packs form blocks packs) }
{
    only_one_codeword_is_near();
    // The word of zeros is a codeword.
    Pack::idle().word();
}

/// A law: if every word is a codeword, the result of the correction is these words.
pub fn clean_words_are_found()
    ensures { (form : Form) (symbols : List ℕ) (found : List (Option (List ℕ)))
        → ((n : ℕ) → n < word_count form (length symbols / block_bytes)
        → IsCodeword (form_word form symbols n))
        → IsRecovered form symbols found
        → found ≡ map (λ n. Some (form_word form symbols n))
        (below (word_count form (length symbols / block_bytes))) }
{
    only_one_codeword_is_near();
}

/// A law: if every pack was found, the written text consists of these packs, and no word is bad.
pub fn found_packs_are_the_text()
    ensures text { (packs : List (List ℕ)) → cdg_bytes (map (λ pack. Some pack) packs) ≡ concat packs }
    ensures bad { (packs : List (List ℕ)) → bad_count (map (λ pack. Some pack) packs) ≡ 0 }
{}

/// A law: if all different symbols are in bursts of at most sixteen symbols, with at least 192 symbols
/// between two bursts, each word has at most two different symbols.
pub fn bursts_are_damage()
    ensures raw { (blocks : ℕ) (symbols others : List ℕ) → length symbols ≡ block_bytes * blocks
        → DiffersInBursts symbols others
        → IsDamaged symbols Form.Raw others }
    ensures sector { (blocks : ℕ) (symbols others : List ℕ) → length symbols ≡ block_bytes * blocks
        → DiffersInBursts symbols others
        → IsDamaged symbols Form.Sector others }
{}
