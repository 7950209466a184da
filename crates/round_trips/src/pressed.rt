// Laws of pressed streams: the packs that are recovered, and the screens that are shown.
ghost use Rattle.std.specs.Prelude.{◌≡◌, ◌≤◌, ◌+◌, ◌*◌, List, Option, Some, ℕ, map};
ghost use Rattle.disc_time.specs.Counts.{pause_blocks};
ghost use Rattle.raw_subcode.specs.Channels.{program_symbols};
ghost use Rattle.raw_subcode.specs.declared.form.Form.{Form};
ghost use Rattle.toc_model.specs.Places.{program_blocks};
ghost use Rattle.rw_interleave.specs.Stream.{IsRecovered, all_packs};
ghost use Rattle.stream_stages.specs.Convert.{IsDamagedStream};
ghost use Rattle.stream_stages.specs.Screen.{IsScreenAt, moment};
ghost use Rattle.round_trips.specs.Damaged.{DamagedPress, IsFileText};

use cdg_instructions::each_pack_has_a_meaning;
use cdg_screen::instructions_in_turn;
use rw_interleave::{found_packs_are_the_text, packs_are_recovered};

/// A law: if whole units of any form differ from a pressed stream in at most two symbols of each word, the packs of the
/// stream are recovered.
pub fn pressed_packs_come_back()
    ensures stream { (form : Form) (lead_in : ℕ) (others : List ℕ) (press : DamagedPress form lead_in others)
        → IsDamagedStream form lead_in (program_blocks press.sheet press.audio) press.packs others }
    ensures found { (form : Form) (lead_in : ℕ) (others : List ℕ) (press : DamagedPress form lead_in others)
        (found : List (Option (List ℕ)))
        → IsRecovered form (program_symbols form others lead_in) found
        → found ≡ map (λ pack. Some pack)
        (all_packs form (program_blocks press.sheet press.audio) press.packs) }
{
    packs_are_recovered();
}

/// A law: a pressed stream with at most two wrong symbols in each word shows the screens of the file. `time`
/// blocks after the start of the audio, the screen is that after 4 * `time` packs of the file, or after all
/// of them, and no word is bad.
pub fn pressed_files_are_shown()
    ensures text { (form : Form) (lead_in time : ℕ) (others : List ℕ)
        (press : DamagedPress form lead_in others)
        (text : List ℕ) (bad : ℕ) → time ≤ press.audio
        → IsScreenAt (moment form lead_in (pause_blocks + time)) others text bad
        → IsFileText press.file (4 * time) text }
    ensures bad { (form : Form) (lead_in time : ℕ) (others : List ℕ)
        (press : DamagedPress form lead_in others)
        (text : List ℕ) (bad : ℕ) → time ≤ press.audio
        → IsScreenAt (moment form lead_in (pause_blocks + time)) others text bad → bad ≡ 0 }
{
    packs_are_recovered();
    found_packs_are_the_text();
    each_pack_has_a_meaning();
    instructions_in_turn();
}
