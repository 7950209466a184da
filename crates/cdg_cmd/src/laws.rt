// A law on single commands, which follows from the effect of a command.
ghost use Rattle.std.specs.Prelude.{◌≡◌, ◌≢◌, ◌≤◌, ℕ, List, IfSome};
ghost use Rattle.std.specs.List.{concat};
ghost use Rattle.std.specs.Io.KnownBytes.{Appends};
ghost use Rattle.cdg_io.specs.Change.{Bytes};
ghost use Rattle.disc_time.specs.Counts.{most_lead_in, most_program};
ghost use Rattle.raw_subcode.specs.declared.form.Form.{Form};
ghost use Rattle.picture_script.specs.Script.{Drawing};
ghost use Rattle.pack_schedule.specs.Brings.{CannotBeReady};
ghost use Rattle.toc_model.specs.Places.{layout_of, program_blocks};
ghost use Rattle.subcode_author.specs.Authored.{Disc, IsAuthored};
ghost use Rattle.rw_merge.specs.Readings.{IsReadTwice};
ghost use Rattle.cdg_press.specs.Calls.{ShowsAll};
ghost use Rattle.round_trips.specs.Pictured.{IsHeldAt};
ghost use Rattle.round_trips.specs.FrameLines.{frame_lines};
ghost use Rattle.cdg_cmd.specs.Answer.{GivesBack, GivesIfFound};
ghost use Rattle.cdg_cmd.specs.Authors.{IsScriptText, IsSheetText};
ghost use Rattle.cdg_cmd.specs.Call.{Call};
ghost use Rattle.cdg_cmd.specs.Faults.{IsAnswered};
ghost use Rattle.cdg_cmd.specs.Headline.{HavePlace, IsDamagedCopy, PutsPicture, WritesOrIsLate, written_packs};
ghost use Rattle.cdg_cmd.specs.LeadInTexts.{AreLinesOf};
ghost use Rattle.cdg_cmd.specs.Performs.{Did};
ghost use Rattle.cdg_cmd.specs.Resumes.{ResumesFrom};
ghost use Rattle.cdg_cmd.specs.Unpresses.{Unpresses};

use crate::{Command, Status};
use cdg_checkpoint::a_saved_stream_goes_on_as_the_whole;
use pack_schedule::needs_are_fewest;
use raw_subcode::Form;
use round_trips::{
    copied_text_lists_are_answered, damaged_text_lists_are_answered, frame_lists_are_answered,
    pressed_files_are_shown, pressed_packs_come_back, shown_moments_give_pictures,
};
use rw_interleave::{found_packs_are_the_text, packs_are_recovered};
use rw_merge::two_readings_give_packs;
use subcode_author::accepted_scripts_are_in_order;

/// A law: the clauses of `run` on single commands follow from the effect of a command.
pub(crate) fn commands_are_answered()
    ensures authors { (disc : Disc) (call : Call Bytes) (status : Status)
        → Did (Command.Author disc.lead_in disc.audio) call status → HavePlace disc
        → IfSome call.first.before (λ cue. IfSome call.second.before (λ text. IsSheetText cue disc.sheet
        → IsScriptText text disc.script → WritesOrIsLate disc call.out status)) }
    ensures late { (lead_in audio picture need free : ℕ) (script : List Drawing) (call : Call Bytes)
        (status : Status) → Did (Command.Author lead_in audio) call status
        → status ≡ Status.Late picture need free
        → IfSome call.second.before (λ text. IsScriptText text script
        → CannotBeReady script picture need free) }
    ensures gives_back { (form : Form) (disc : Disc) (stream : List ℕ) (packs : List (List ℕ))
        (call : Call Bytes) (status : Status)
        → Did (Command.Convert disc.lead_in form) call status → IsAuthored disc stream packs
        → IfSome call.first.before (λ all. IsDamagedCopy form disc.lead_in stream all
        → GivesBack (concat (written_packs form packs)) call.out status) }
    ensures shows { (form : Form) (disc : Disc) (stream text : List ℕ) (packs : List (List ℕ)) (k at : ℕ)
        (call : Call Bytes) (status : Status)
        → Did (Command.Screen disc.lead_in form at) call status → IsScriptText text disc.script
        → IsHeldAt disc.script k at → IsAuthored disc stream packs
        → IfSome call.first.before (λ all. IsDamagedCopy form disc.lead_in stream all
        → PutsPicture disc.script k call.out status) }
    ensures frames { (disc : Disc) (packs : List (List ℕ)) (call : Call Bytes) (status : Status)
        → Did (Command.Q disc.lead_in Form.Raw) call status → disc.lead_in ≤ most_lead_in
        → program_blocks disc.sheet disc.audio ≤ most_program
        → IfSome call.first.before (λ all. IsAuthored disc all packs
        → GivesBack (frame_lines (layout_of disc.sheet disc.audio) disc.lead_in) call.out status) }
    ensures strings { (form : Form) (disc : Disc) (stream lines : List ℕ) (packs : List (List ℕ))
        (call : Call Bytes) (status : Status)
        → Did (Command.Text disc.lead_in form) call status → IsAuthored disc stream packs
        → IfSome call.first.before (λ all. AreLinesOf disc form stream all lines
        → GivesIfFound lines call.out status) }
    ensures merges { (lead_in : ℕ) (call : Call Bytes) (status : Status)
        → Did (Command.Merge lead_in) call status
        → IfSome call.first.before (λ one. IfSome call.second.before (λ other. (blocks : ℕ)
        (packs : List (List ℕ)) → IsReadTwice lead_in blocks packs one other
        → GivesBack (concat packs) call.out status)) }
    ensures unpresses { (command : Command) (call : Call Bytes) (status : Status) → Did command call status
        → IfSome call.first.before (λ all. Unpresses command all call.out status) }
    ensures resumes { (at : ℕ) (call : Call Bytes) (status : Status)
        → Did (Command.Resume at) call status → IsAnswered status → status ≢ Status.NoMemory
        → IfSome call.first.before (λ file. IfSome call.second.before (λ rest.
        ResumesFrom file at rest call.out status)) }
    ensures thins { (call : Call Bytes) (status : Status) → Did Command.Thin call status
        → status ≡ Status.Done
        → IfSome call.first.before (λ all. (text : List ℕ) × ShowsAll all text
        × Appends call.out.before call.out.after text) }
{
    packs_are_recovered();
    found_packs_are_the_text();
    shown_moments_give_pictures();
    frame_lists_are_answered();
    copied_text_lists_are_answered();
    damaged_text_lists_are_answered();
    accepted_scripts_are_in_order();
    needs_are_fewest();
    two_readings_give_packs();
    pressed_packs_come_back();
    a_saved_stream_goes_on_as_the_whole();
    pressed_files_are_shown();
}
