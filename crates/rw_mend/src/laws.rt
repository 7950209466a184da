// The laws of mending, which follow from the definitions. ribjasper.h (Mending) explains the terms: the distance of a
// codeword, quiet and unread words, doubtful codewords, and codewords that do not count.
ghost use Rattle.std.specs.Prelude.{◌≡◌, ◌<◌, ◌≤◌, ◌-◌, ◌/◌, ◌%◌, ◌++◌, [], ◌∷◌, IsPermutation, List, None, ℕ, drop, length, map, slice_index_or};
ghost use Rattle.bit_lists.specs.Counting.{parts};
ghost use Rattle.std.specs.List.{concat};
ghost use Rattle.std.specs.declared.option.Option.{Option};
ghost use Rattle.raw_subcode.specs.Channels.{program_symbols};
ghost use Rattle.raw_subcode.specs.Sizes.{block_bytes};
ghost use Rattle.raw_subcode.specs.declared.form.Form.TheVariants.{Raw};
ghost use Rattle.rw_interleave.specs.Interleave.{whole_packs};
ghost use Rattle.rw_interleave.specs.Stream.{IsRecovered};
ghost use Rattle.rw_interleave.specs.Texts.{cdg_bytes};
ghost use Rattle.rw_merge.specs.Readings.{IsDamagedTwice};
ghost use Rattle.rw_mend.specs.Choice.{IsMending, candidate_of_reading};
ghost use Rattle.rw_mend.specs.Drops.{IsDropCount};
ghost use Rattle.rw_mend.specs.Laws.{AllGive, AreDamagedReadings, AreEnough, AreExchanged, CountsAlone, IsAgreedWord, IsCleanBeside, IsErrorFreeBeside, IsSameFind, given_text, candidate_bytes};
ghost use Rattle.rw_mend.specs.Many.{AreAllMendedInto, programs_of, words_in_each};
ghost use Rattle.rw_mend.specs.Streams.{AreMended, IsMendedInto, mended_bytes, mended_text};
ghost use Rattle.rw_mend.specs.Words.{given_at, program_of};
ghost use Rattle.rw_mend.specs.declared.choice.Mended.{Mended};
ghost use Rattle.rw_mend.specs.declared.streams.MendCounts.{MendCounts};
ghost use Rattle.rw_mend.specs.declared.tallies.Tallies.{Tallies};
ghost use Rattle.rw_mend.specs.declared.candidates.Candidate.{Candidate};
ghost use Rattle.rw_mend.specs.declared.candidates.Candidate.TheVariants;

/// A law: if exactly one codeword at distance 0 counts at a word, this codeword is the result.
pub fn a_clean_codeword_is_mended()
    ensures { (candidates : List Candidate) (r : ℕ) (codeword : List ℕ) (found : Option Mended)
        → r < length candidates
        → candidate_of_reading candidates r ≡ TheVariants.Near codeword 0
        → ((s : ℕ) (other : List ℕ) → s < length candidates
        → candidate_of_reading candidates s ≡ TheVariants.Near other 0
        → other ≡ codeword)
        → IsMending candidates found → mended_bytes found ≡ codeword }
{}

/// A law: a reading with a codeword at distance 0 at every word is the result, under two conditions. First, every codeword
/// at distance 0 of another reading is the same codeword or the idle pack. Second, where this reading has the idle pack, no
/// other reading has a graphics pack, at any distance. Readings without channels R to W meet both; readings with noise or
/// scratches usually do. The calls then write the conversion of this reading.
pub fn a_clean_reading_comes_out()
    ensures words { (words r : ℕ) (programs : List (List ℕ)) (said : List (List Candidate))
        (found : List (Option Mended))
        → IsCleanBeside words programs r → AreMended words programs said found
        → mended_text found ≡ given_text words programs r }
    ensures two { (lead_in r : ℕ) (first second old new : List ℕ) (counts : MendCounts)
        (found : List (Option (List ℕ))) → length first % block_bytes ≡ 0 → length second ≡ length first
        → IsCleanBeside (whole_packs (length first / block_bytes - lead_in))
        (program_of lead_in first ∷ program_of lead_in second ∷ []) r
        → IsMendedInto lead_in first second old new counts
        → IsRecovered Raw (program_symbols Raw (slice_index_or (first ∷ second ∷ []) r []) lead_in) found
        → new ≡ cdg_bytes found ++ drop (length (cdg_bytes found)) old }
    ensures many { (count lead_in r : ℕ) (readings old new old_sources new_sources : List ℕ)
        (tallies : Tallies) (found : List (Option (List ℕ))) → (length readings / count) % block_bytes ≡ 0
        → IsCleanBeside (words_in_each count lead_in readings) (programs_of count lead_in readings) r
        → AreAllMendedInto count lead_in readings old new old_sources new_sources tallies
        → IsRecovered Raw (program_symbols Raw
        (slice_index_or (parts count (length readings / count) readings) r []) lead_in) found
        → new ≡ cdg_bytes found ++ drop (length (cdg_bytes found)) old }
{}

/// A law: a reading is the result even if some of its idle blocks count as unread, as in a dump without P and Q. The law
/// above has two conditions, and this law has two more. First, where this reading is quiet, every codeword of another
/// reading that counts is the idle pack. Second, where this reading is unread, no two readings agree on a codeword.
pub fn an_error_free_reading_comes_out()
    ensures { (words r : ℕ) (programs : List (List ℕ)) (said : List (List Candidate))
        (found : List (Option Mended))
        → IsErrorFreeBeside words programs r → AreMended words programs said found
        → mended_text found ≡ given_text words programs r }
{}

/// A law: the result for a word is unique. It is one codeword with one source, or there is none. The readings determine
/// the results for all words.
pub fn one_codeword_is_mended()
    ensures word { (candidates : List Candidate) (found other : Option Mended) → IsMending candidates found
        → IsMending candidates other → found ≡ other }
    ensures stream { (words : ℕ) (programs : List (List ℕ)) (said others : List (List Candidate))
        (found other : List (Option Mended)) → AreMended words programs said found
        → AreMended words programs others other → found ≡ other }
{}

/// A law: if only one codeword counts at a word, it is the result, whatever its distance.
pub fn a_codeword_that_counts_alone_is_mended()
    ensures { (candidates : List Candidate) (codeword : List ℕ) (r distance : ℕ) (found : Option Mended)
        → r < length candidates
        → candidate_of_reading candidates r ≡ TheVariants.Near codeword distance
        → ((s : ℕ) (other : List ℕ) (more : ℕ) → s < length candidates
        → candidate_of_reading candidates s ≡ TheVariants.Near other more → other ≡ codeword)
        → IsMending candidates found → mended_bytes found ≡ codeword }
{}

/// A law: packs are recovered if, at each word, a reading has the pack, it counts, and no other codeword counts. It is
/// enough that every reading has the pack at each word, at any distance.
pub fn packs_come_back()
    ensures enough { (words : ℕ) (programs packs : List (List ℕ)) (said : List (List Candidate))
        (found : List (Option Mended)) → AreEnough words programs packs → AreMended words programs said found
        → mended_text found ≡ concat packs }
    ensures damage { (words : ℕ) (programs packs : List (List ℕ)) → AllGive words programs packs
        → AreEnough words programs packs }
{}

/// A law: if each reading has at most two wrong symbols in each word, every pack of the stream is recovered. The number
/// of readings and the places of the wrong symbols do not matter. Both calls write these packs. The two readings of the
/// same law of `rw_merge` meet the condition of this one.
pub fn damaged_readings_give_back_the_packs()
    ensures words { (lead_in blocks : ℕ) (packs readings : List (List ℕ)) (said : List (List Candidate))
        (found : List (Option Mended)) → AreDamagedReadings lead_in blocks packs readings
        → AreMended (whole_packs blocks) (map (program_of lead_in) readings) said found
        → mended_text found ≡ concat packs }
    ensures two { (lead_in blocks : ℕ) (packs : List (List ℕ)) (first second old new : List ℕ)
        (counts : MendCounts) → AreDamagedReadings lead_in blocks packs (first ∷ second ∷ [])
        → IsMendedInto lead_in first second old new counts
        → new ≡ concat packs ++ drop (length (concat packs)) old }
    ensures many { (count lead_in blocks : ℕ) (packs : List (List ℕ))
        (readings old new old_sources new_sources : List ℕ) (tallies : Tallies)
        → AreDamagedReadings lead_in blocks packs (parts count (length readings / count) readings)
        → AreAllMendedInto count lead_in readings old new old_sources new_sources tallies
        → new ≡ concat packs ++ drop (length (concat packs)) old }
    ensures merged { (lead_in blocks : ℕ) (packs : List (List ℕ)) (first second : List ℕ)
        → IsDamagedTwice lead_in blocks packs first second
        → AreDamagedReadings lead_in blocks packs (first ∷ second ∷ []) }
{}

/// A law: the codewords of a reading, with zeros where it has none, are the conversion of this reading.
pub fn a_reading_gives_its_conversion()
    ensures { (lead_in r : ℕ) (programs : List (List ℕ)) (bytes : List ℕ) (found : List (Option (List ℕ)))
        → length bytes % block_bytes ≡ 0 → slice_index_or programs r [] ≡ program_of lead_in bytes
        → IsRecovered Raw (program_symbols Raw bytes lead_in) found
        → given_text (whole_packs (length bytes / block_bytes - lead_in)) programs r ≡ cdg_bytes found }
{}

/// A law: the conversion of one reading is the result, except at words on which two readings agree. There are two
/// conditions. First, every codeword of another reading that counts is what the conversion has at this word. Second, no
/// reading is quiet where this reading has a doubtful codeword. If no word is agreed, the calls write the conversion.
pub fn a_reading_that_counts_alone_is_converted()
    ensures words { (words r : ℕ) (programs : List (List ℕ)) (said : List (List Candidate))
        (found : List (Option Mended)) → CountsAlone words programs r → AreMended words programs said found
        → (n : ℕ) → n < words → ¬ IsAgreedWord (slice_index_or found n None)
        → mended_bytes (slice_index_or found n None) ≡ candidate_bytes (given_at programs r n) }
    ensures two { (lead_in r : ℕ) (first second old new : List ℕ) (counts : MendCounts)
        (found : List (Option (List ℕ))) → length first % block_bytes ≡ 0 → length second ≡ length first
        → CountsAlone (whole_packs (length first / block_bytes - lead_in))
        (program_of lead_in first ∷ program_of lead_in second ∷ []) r
        → IsMendedInto lead_in first second old new counts → counts.agreed ≡ 0
        → IsRecovered Raw (program_symbols Raw (slice_index_or (first ∷ second ∷ []) r []) lead_in) found
        → new ≡ cdg_bytes found ++ drop (length (cdg_bytes found)) old }
    ensures many { (count lead_in r : ℕ) (readings old new old_sources new_sources : List ℕ)
        (tallies : Tallies) (found : List (Option (List ℕ))) → (length readings / count) % block_bytes ≡ 0
        → CountsAlone (words_in_each count lead_in readings) (programs_of count lead_in readings) r
        → AreAllMendedInto count lead_in readings old new old_sources new_sources tallies
        → tallies.agreed ≡ 0
        → IsRecovered Raw (program_symbols Raw
        (slice_index_or (parts count (length readings / count) readings) r []) lead_in) found
        → new ≡ cdg_bytes found ++ drop (length (cdg_bytes found)) old }
{}

/// A law: the order of the readings decides only which reading is named as the source, if several have the
/// same codeword at the same distance. In any order, the calls write the same packs. The numbers of agreed
/// words and of words without a codeword are the same, and so is the number of codewords of each reading that
/// do not count. If two readings are exchanged, the numbers of words that only one of them has are exchanged.
pub fn the_order_of_readings_changes_names_alone()
    ensures words { (words : ℕ) (programs others : List (List ℕ)) (said saying : List (List Candidate))
        (found other : List (Option Mended)) → IsPermutation programs others
        → AreMended words programs said found → AreMended words others saying other
        → (n : ℕ) → n < words
        → IsSameFind programs others n (slice_index_or found n None) (slice_index_or other n None) }
    ensures text { (words : ℕ) (programs others : List (List ℕ)) (said saying : List (List Candidate))
        (found other : List (Option Mended)) → IsPermutation programs others
        → AreMended words programs said found → AreMended words others saying other
        → mended_text found ≡ mended_text other }
    ensures many { (count lead_in : ℕ) (readings others old new turned old_sources sources named : List ℕ)
        (tallies other_tallies : Tallies) → count ≤ 254 → length others ≡ length readings
        → IsPermutation (parts count (length readings / count) readings)
        (parts count (length others / count) others)
        → AreAllMendedInto count lead_in readings old new old_sources sources tallies
        → AreAllMendedInto count lead_in others old turned old_sources named other_tallies
        → (turned ≡ new) × (other_tallies.agreed ≡ tallies.agreed) × (other_tallies.none ≡ tallies.none) }
    ensures two { (lead_in : ℕ) (first second old new turned : List ℕ) (counts others : MendCounts)
        → length second ≡ length first → IsMendedInto lead_in first second old new counts
        → IsMendedInto lead_in second first old turned others
        → (turned ≡ new) × AreExchanged counts others }
    ensures dropped { (words : ℕ) (programs others : List (List ℕ)) (r k count again : ℕ)
        → IsPermutation programs others → slice_index_or programs r [] ≡ slice_index_or others k []
        → IsDropCount words programs r words count → IsDropCount words others k words again
        → count ≡ again }
{}
