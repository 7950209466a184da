// The results of conversions and screens: of streams, of two readings of a disc, and of saved players.
ghost use Rattle.std.specs.Prelude.{◌≡◌, ◌≤◌, ℕ, List, IfSome};
ghost use Rattle.disc_time.specs.Counts.{most_lead_in, most_program};
ghost use Rattle.std.specs.List.{concat};
ghost use Rattle.raw_subcode.specs.Channels.{program_symbols};
ghost use Rattle.raw_subcode.specs.declared.form.Form.{Form};
ghost use Rattle.raw_subcode.specs.declared.form.Form.TheVariants.{Raw};
ghost use Rattle.cue_sheet.specs.CueSheet.{CueSheet};
ghost use Rattle.picture_script.specs.Script.{Drawing};
ghost use Rattle.toc_model.specs.Places.{program_blocks};
ghost use Rattle.cdg_workload.specs.Scratches.{scratched};
ghost use Rattle.rw_interleave.specs.Stream.{all_packs};
ghost use Rattle.subcode_author.specs.Authored.{IsAuthored, disc_of};
ghost use Rattle.stream_stages.specs.Convert.{IsDamagedStream};
ghost use Rattle.round_trips.specs.Pictured.{IsHeldAt, IsScheduledStream};
ghost use Rattle.cdg_cmd.specs.Answer.{GivesBack};
ghost use Rattle.cdg_io.specs.Change.{Bytes};
ghost use Rattle.cdg_cmd.specs.Call.{Call};
ghost use Rattle.cdg_cmd.specs.Headline.{PutsPicture};
ghost use Rattle.cdg_cmd.specs.declared.command.Command.TheVariants.{Convert, Screen, Merge};
ghost use Rattle.cdg_cmd.specs.declared.status.Status.{Status};
ghost use Rattle.run_laws.specs.Ran.{IsRun};
ghost use Rattle.run_laws.specs.Undamaged.{IsCleanStream, form_words};
ghost use Rattle.pack_schedule.specs.Shown.{AreTimesInOrder};
ghost use Rattle.rw_merge.specs.Readings.{IsDamagedTwice};
ghost use Rattle.cdg_checkpoint.specs.Checkpoint.{checkpoint_in, file_of};
ghost use Rattle.cdg_checkpoint.specs.Resumed.{IsFirstPart};
ghost use Rattle.cdg_cmd.specs.Resumes.{IsSaveOf};
ghost use Rattle.live_player.specs.Lives.{Given, HasPlayed};
ghost use Rattle.live_player.specs.Saving.{IsAt, checkpoint_of};
ghost use Rattle.live_player.specs.declared.live.LivePlayer.{LivePlayer};
ghost use Rattle.run_laws.specs.Players.{AreBlocksOf};

use raw_subcode::Form;
use round_trips::shown_moments_give_pictures;
use rw_interleave::{clean_words_are_found, found_packs_are_the_text, packs_are_recovered};
use rw_merge::two_readings_give_packs;
use stream_trial::scratched_streams_are_recovered;

/// A law: if damage changed at most two symbols of each word of any stream, a conversion recovers every pack.
pub fn damaged_streams_give_their_packs()
    ensures { (lead_in : ℕ) (form : Form) (call : Call Bytes) (status : Status)
        → IsRun (Convert lead_in form) call status
        → IfSome call.first.before (λ all. (blocks : ℕ) (packs : List (List ℕ))
        → IsDamagedStream form lead_in blocks packs all
        → GivesBack (concat (all_packs form blocks packs)) call.out status) }
{
    packs_are_recovered();
    found_packs_are_the_text();
}

/// A law: a stream whose packs are a schedule of a script shows each picture from its ready time to its hold time,
/// even if damage changed at most two symbols of each word.
pub fn scheduled_streams_show_their_pictures()
    ensures { (lead_in at : ℕ) (form : Form) (call : Call Bytes) (status : Status)
        → IsRun (Screen lead_in form at) call status
        → IfSome call.first.before (λ all. (script : List Drawing) (k : ℕ)
        → IsScheduledStream form lead_in script all → IsHeldAt script k at
        → PutsPicture script k call.out status) }
{
    shown_moments_give_pictures();
}

/// A law: if all words of a stream are codewords, a conversion writes these words.
pub fn clean_streams_give_their_words()
    ensures { (lead_in : ℕ) (form : Form) (call : Call Bytes) (status : Status)
        → IsRun (Convert lead_in form) call status
        → IfSome call.first.before (λ all. IsCleanStream form lead_in all
        → GivesBack (concat (form_words form (program_symbols form all lead_in))) call.out status) }
{
    clean_words_are_found();
    found_packs_are_the_text();
}

/// A law: a conversion recovers every scheduled pack of a scratched authored stream.
pub fn scratched_streams_give_their_packs()
    ensures { (lead_in audio seed : ℕ) (sheet : CueSheet) (script : List Drawing) (bytes : List ℕ)
        (packs : List (List ℕ))
        (call : Call Bytes) (status : Status) → IsRun (Convert lead_in Raw) call status
        → lead_in ≤ most_lead_in → program_blocks sheet audio ≤ most_program
        → IsAuthored (disc_of sheet script lead_in audio) bytes packs
        → IfSome call.first.before (λ all. all ≡ scratched lead_in seed bytes
        → GivesBack (concat packs) call.out status) }
{
    packs_are_recovered();
    found_packs_are_the_text();
    scratched_streams_are_damaged();
}

/// A law: a scratched authored stream differs in at most two symbols of each word from a stream with its packs, which
/// are a schedule of the script. From such a stream `Player::convert` recovers every pack, and `Player::screen_at`
/// each picture. The output for a raw stream has only the packs of the program, with no zeros after them.
pub fn scratched_streams_are_damaged()
    ensures damaged { (sheet : CueSheet) (script : List Drawing) (lead_in audio seed : ℕ) (bytes : List ℕ)
        (packs : List (List ℕ))
        → lead_in ≤ most_lead_in → program_blocks sheet audio ≤ most_program
        → IsAuthored (disc_of sheet script lead_in audio) bytes packs
        → IsDamagedStream Form.Raw lead_in (program_blocks sheet audio) packs (scratched lead_in seed bytes) }
    ensures packs { (sheet : CueSheet) (script : List Drawing) (lead_in audio : ℕ) (bytes : List ℕ)
        (packs : List (List ℕ))
        → IsAuthored (disc_of sheet script lead_in audio) bytes packs
        → concat (all_packs Form.Raw (program_blocks sheet audio) packs) ≡ concat packs }
    ensures scheduled { (sheet : CueSheet) (script : List Drawing) (lead_in audio seed : ℕ) (bytes : List ℕ)
        (packs : List (List ℕ))
        → lead_in ≤ most_lead_in → program_blocks sheet audio ≤ most_program → AreTimesInOrder script
        → IsAuthored (disc_of sheet script lead_in audio) bytes packs
        → IsScheduledStream Form.Raw lead_in script (scratched lead_in seed bytes) }
{
    scratched_streams_are_recovered();
}

/// A law: if each of two readings is damaged in at most two symbols of each word, a merge recovers every
/// pack. The places of the damage do not matter.
pub fn damaged_readings_give_their_packs()
    ensures { (lead_in : ℕ) (call : Call Bytes) (status : Status) → IsRun (Merge lead_in) call status
        → IfSome call.first.before (λ one. IfSome call.second.before (λ other. (blocks : ℕ)
        (packs : List (List ℕ)) → IsDamagedTwice lead_in blocks packs one other
        → GivesBack (concat packs) call.out status)) }
{
    two_readings_give_packs();
}

/// A law: a player that is restored from a file that `save` wrote has the state of a player that was fed the blocks of
/// the stream: both show the same screen, and both have the same results for all later input.
pub fn players_go_on_from_saved_streams()
    ensures { (lead_in : ℕ) (given : List Given) (bytes file : List ℕ) (back : LivePlayer)
        → AreBlocksOf bytes given → IsSaveOf lead_in bytes file → IsAt (checkpoint_in file) back
        → HasPlayed Raw lead_in given back }
{}

/// A law: the file of a player that was fed the blocks of a stream is the file that `save` writes for them.
/// So `resume` of this file and the rest has the same status and output as `screen` of the whole stream.
pub fn streams_go_on_from_saved_players()
    ensures { (lead_in : ℕ) (given : List Given) (bytes : List ℕ) (saved : LivePlayer)
        → AreBlocksOf bytes given → IsFirstPart lead_in bytes → HasPlayed Raw lead_in given saved
        → IsSaveOf lead_in bytes (file_of (checkpoint_of saved)) }
{}
