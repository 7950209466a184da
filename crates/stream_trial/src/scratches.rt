// Authored streams with scratches.
ghost use Rattle.std.specs.Prelude.{◌≡◌, ◌<◌, List, [], Option, Some, ℕ, length, map, slice_index_or};
ghost use Rattle.raw_subcode.specs.Channels.{program_symbols};
ghost use Rattle.rw_code.specs.Codeword.{Reads, differences};
ghost use Rattle.rw_interleave.specs.Interleave.{word_of, whole_packs};
ghost use Rattle.rw_interleave.specs.Stream.{IsDamaged, IsRecovered};
ghost use Rattle.cdg_workload.specs.Scratches.{scratched};
ghost use Rattle.cue_sheet.specs.CueSheet.{CueSheet};
ghost use Rattle.toc_model.specs.Places.{program_blocks};
ghost use Rattle.picture_script.specs.Script.{Drawing};
ghost use Rattle.subcode_author.specs.Authored.{IsAuthored, disc_of};

use cdg_workload::{scratches_are_bursts, scratches_are_damage};
use raw_subcode::Form;
use rw_code::only_one_codeword_is_near;
use rw_interleave::packs_are_recovered;

/// A law: every pack of an authored stream is recovered from the stream with scratches.
pub fn scratched_streams_are_recovered()
    ensures size { (lead_in seed : ℕ) (bytes : List ℕ)
        → length (scratched lead_in seed bytes) ≡ length bytes }
    ensures damaged { (sheet : CueSheet) (script : List Drawing) (lead_in audio seed : ℕ) (bytes : List ℕ)
        (packs : List (List ℕ))
        → IsAuthored (disc_of sheet script lead_in audio) bytes packs
        → IsDamaged (program_symbols Form.Raw bytes lead_in) Form.Raw
        (program_symbols Form.Raw (scratched lead_in seed bytes) lead_in) }
    ensures found { (sheet : CueSheet) (script : List Drawing) (lead_in audio seed : ℕ) (bytes : List ℕ)
        (packs : List (List ℕ))
        (found : List (Option (List ℕ))) → IsAuthored (disc_of sheet script lead_in audio) bytes packs
        → IsRecovered Form.Raw (program_symbols Form.Raw (scratched lead_in seed bytes) lead_in) found
        → found ≡ map (λ pack. Some pack) packs }
{
    scratches_are_bursts();
    scratches_are_damage();
    packs_are_recovered();
}

/// A law: each word of an authored stream with scratches is near its pack and near no other codeword. The
/// number of its wrong symbols is the number of its symbols in which the two streams differ.
pub fn scratched_words_are_near()
    ensures reads { (sheet : CueSheet) (script : List Drawing) (lead_in audio seed : ℕ) (bytes : List ℕ)
        (packs : List (List ℕ)) (n : ℕ)
        → IsAuthored (disc_of sheet script lead_in audio) bytes packs
        → n < whole_packs (program_blocks sheet audio)
        → Reads (word_of (program_symbols Form.Raw (scratched lead_in seed bytes) lead_in) n)
        (slice_index_or packs n []) }
    ensures only { (sheet : CueSheet) (script : List Drawing) (lead_in audio seed : ℕ) (bytes : List ℕ)
        (packs : List (List ℕ)) (n : ℕ)
        (word : List ℕ) → IsAuthored (disc_of sheet script lead_in audio) bytes packs
        → n < whole_packs (program_blocks sheet audio)
        → Reads (word_of (program_symbols Form.Raw (scratched lead_in seed bytes) lead_in) n) word
        → word ≡ slice_index_or packs n [] }
    ensures wrong { (sheet : CueSheet) (script : List Drawing) (lead_in audio seed : ℕ) (bytes : List ℕ)
        (packs : List (List ℕ)) (n : ℕ)
        (word : List ℕ) → IsAuthored (disc_of sheet script lead_in audio) bytes packs
        → n < whole_packs (program_blocks sheet audio)
        → Reads (word_of (program_symbols Form.Raw (scratched lead_in seed bytes) lead_in) n) word
        → differences (word_of (program_symbols Form.Raw (scratched lead_in seed bytes) lead_in) n) word
        ≡ differences (word_of (program_symbols Form.Raw bytes lead_in) n)
        (word_of (program_symbols Form.Raw (scratched lead_in seed bytes) lead_in) n) }
{
    scratched_streams_are_recovered();
    only_one_codeword_is_near();
}
