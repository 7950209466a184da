// The laws of a mended stream, which follow from the definitions.
ghost use Rattle.std.specs.Prelude.{◌≡◌, ◌+◌, ◌*◌, ◌/◌, ◌%◌, ◌<◌, ◌≤◌, true, [], ◌∷◌, IsPermutation, List, ℕ, length, map, slice_index, slice_index_or};
ghost use Rattle.std.specs.declared.option.Option.{Option};
ghost use Rattle.raw_subcode.specs.Channels.{program_symbols, symbols_of};
ghost use Rattle.raw_subcode.specs.Sizes.{block_bytes};
ghost use Rattle.raw_subcode.specs.declared.form.Form.{Form};
ghost use Rattle.bit_lists.specs.Counting.{parts};
ghost use Rattle.rw_interleave.specs.Interleave.{word_of};
ghost use Rattle.rw_interleave.specs.Stream.{IsRecovered};
ghost use Rattle.rw_mend.specs.Streams.{AreMended};
ghost use Rattle.rw_mend.specs.Words.{block_at, program_of};
ghost use Rattle.rw_mend.specs.declared.choice.Mended.{Mended};
ghost use Rattle.rw_mend.specs.declared.tallies.Tallies.{Tallies};
ghost use Rattle.rw_mend.specs.declared.candidates.Candidate.{Candidate};
ghost use Rattle.rw_mend.specs.Chosen.{blocks_at, channels_of, completed, has_eligible_channels, has_eligible_symbols};
ghost use Rattle.rw_mend.specs.StreamLaws.{AreFoundAgain, HasChosenChannels, IsReadWord};
ghost use Rattle.rw_mend.specs.Stream.{AreMendedIntoStream, IsMendedPlace, IsMendedStream, mended_symbols};

/// A law: another order of the readings changes no byte of their stream.
pub fn the_order_of_readings_changes_no_byte()
    ensures streams { (words lead_in : ℕ) (readings others : List (List ℕ))
        (said saying : List (List Candidate)) (found other : List (Option Mended))
        (stream turned : List ℕ) → IsPermutation readings others
        → AreMended words (map (program_of lead_in) readings) said found
        → AreMended words (map (program_of lead_in) others) saying other
        → IsMendedStream lead_in readings found stream → IsMendedStream lead_in others other turned
        → length turned ≡ length stream → turned ≡ stream }
    ensures calls { (count lead_in : ℕ) (readings others old new turned old_sources sources named : List ℕ)
        (tallies other_tallies : Tallies) → 0 < count → length others ≡ length readings
        → length readings ≡ count * (length readings / count)
        → IsPermutation (parts count (length readings / count) readings)
        (parts count (length others / count) others)
        → AreMendedIntoStream count lead_in readings old new old_sources sources tallies
        → AreMendedIntoStream count lead_in others old turned old_sources named other_tallies → turned ≡ new }
{}

/// A law: a mended word is its codeword in the stream, without a wrong symbol. Any other word has the symbols that are
/// chosen.
pub fn each_word_stands_in_the_stream()
    ensures mended { (words lead_in n : ℕ) (readings programs : List (List ℕ)) (said : List (List Candidate))
        (found : List (Option Mended)) (stream : List ℕ) (own : Mended) → AreMended words programs said found
        → IsMendedStream lead_in readings found stream → length stream % block_bytes ≡ 0 → n < length found
        → slice_index_or found n None ≡ Some own
        → word_of (program_symbols Form.Raw stream lead_in) n ≡ own.pack }
    ensures others { (lead_in n : ℕ) (readings : List (List ℕ)) (found : List (Option Mended))
        (stream : List ℕ) → IsMendedStream lead_in readings found stream → length stream % block_bytes ≡ 0
        → n < length found → slice_index_or found n None ≡ None
        → IsReadWord lead_in readings found n (word_of (program_symbols Form.Raw stream lead_in) n) }
{}

/// A law: a conversion of the stream recovers the codeword of each mended word. For any other word it recovers what it
/// finds for the symbols that are chosen.
pub fn mended_packs_are_recovered()
    ensures { (words lead_in : ℕ) (readings programs : List (List ℕ)) (said : List (List Candidate))
        (found : List (Option Mended)) (stream : List ℕ) (recovered : List (Option (List ℕ)))
        → AreMended words programs said found → IsMendedStream lead_in readings found stream
        → length stream % block_bytes ≡ 0
        → IsRecovered Form.Raw (program_symbols Form.Raw stream lead_in) recovered
        → AreFoundAgain lead_in readings found recovered }
{}

/// A law: channels P and Q of each block of the stream are those of an eligible block of a reading, and no others have
/// more votes. So the Q channel is a frame if that of a reading is one. If all eligible blocks agree, the stream has
/// their bits; the same holds for symbols.
pub fn frames_are_those_chosen()
    ensures chosen { (lead_in b : ℕ) (readings : List (List ℕ)) (found : List (Option Mended))
        (stream : List ℕ) → IsMendedStream lead_in readings found stream
        → block_bytes * b + block_bytes ≤ length stream
        → HasChosenChannels (blocks_at readings b) (block_at stream b) }
    ensures agreed { (lead_in b : ℕ) (readings : List (List ℕ)) (found : List (Option Mended))
        (stream channels : List ℕ)
        → IsMendedStream lead_in readings found stream → block_bytes * b + block_bytes ≤ length stream
        → ((r : ℕ) → r < length readings
        → has_eligible_channels (blocks_at readings b) (slice_index_or (blocks_at readings b) r []) ≡ true
        → channels_of (slice_index_or (blocks_at readings b) r []) ≡ channels)
        → channels_of (block_at stream b) ≡ channels }
    ensures symbols { (lead_in b : ℕ) (readings : List (List ℕ)) (found : List (Option Mended))
        (stream symbols : List ℕ)
        → IsMendedStream lead_in readings found stream → block_bytes * b + block_bytes ≤ length stream
        → ((r : ℕ) → r < length readings
        → has_eligible_symbols (blocks_at readings b) (slice_index_or (blocks_at readings b) r []) ≡ true
        → completed (mended_symbols lead_in found b) (slice_index_or (blocks_at readings b) r []) ≡ symbols)
        → symbols_of (block_at stream b) ≡ symbols }
{}

/// A law: the stream of one reading is that reading with its words corrected. It has the reading's channels P and Q, its
/// bytes outside mended words, and its words that were not mended.
pub fn one_reading_is_corrected()
    ensures channels { (lead_in p : ℕ) (reading : List ℕ) (found : List (Option Mended)) (stream : List ℕ)
        → IsMendedStream lead_in (reading ∷ []) found stream → p < length stream
        → slice_index stream p / 64 ≡ slice_index reading p / 64 }
    ensures kept { (lead_in p : ℕ) (reading : List ℕ) (found : List (Option Mended)) (stream : List ℕ)
        → IsMendedStream lead_in (reading ∷ []) found stream → p < length stream
        → ((n i : ℕ) (own : Mended) → ¬ IsMendedPlace lead_in found p n i own)
        → slice_index stream p ≡ slice_index reading p }
    ensures words { (lead_in n : ℕ) (reading : List ℕ) (found : List (Option Mended)) (stream : List ℕ)
        → IsMendedStream lead_in (reading ∷ []) found stream → length stream % block_bytes ≡ 0
        → n < length found → slice_index_or found n None ≡ None
        → word_of (program_symbols Form.Raw stream lead_in) n
        ≡ word_of (program_symbols Form.Raw reading lead_in) n }
{}
