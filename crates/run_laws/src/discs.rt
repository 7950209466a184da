// When discs are written and refused, the lists of their contents, and when some statuses occur.
ghost use Rattle.std.specs.Prelude.{◌≢◌, ◌≡◌, ◌≤◌, ◌<◌, ◌*◌, ℕ, List, Some, Err, IfSome, true};
ghost use Rattle.cue_sheet.specs.CueSheet.{CueSheet};
ghost use Rattle.picture_script.specs.Script.{Drawing};
ghost use Rattle.subcode_author.specs.Authored.{disc_of, IsAuthored};
ghost use Rattle.subcode_author.specs.AuthorAnswer.{IsAccepted, IsAuthorStop};
ghost use Rattle.subcode_author.specs.declared.stops.AuthorStop.{AuthorStop};
ghost use Rattle.subcode_author.specs.declared.stops.AuthorStop.TheVariants as stop;
ghost use Rattle.cdg_cmd.specs.Authors.{IsScriptStop, IsScriptText, IsSheetStop, IsSheetText};
ghost use Rattle.cdg_io.specs.Change.{Bytes};
ghost use Rattle.cdg_cmd.specs.Call.{Call};
ghost use Rattle.cdg_cmd.specs.Stops.{author_status};
ghost use Rattle.cdg_cmd.specs.declared.command.Command.TheVariants.{Author, Text};
ghost use Rattle.cdg_cmd.specs.declared.status.Refusal.{Refusal};
ghost use Rattle.cdg_cmd.specs.declared.status.Status.{Status};
ghost use Rattle.cdg_cmd.specs.declared.status.Status.TheVariants.{Refused, ReadFault};
ghost use Rattle.run_laws.specs.Ran.{IsRun};
ghost use Rattle.run_laws.specs.Refused.{RefusesWith, Writes};
ghost use Rattle.disc_time.specs.Counts.{most_lead_in, most_program};
ghost use Rattle.raw_subcode.specs.declared.form.Form.{Form};
ghost use Rattle.raw_subcode.specs.declared.form.Form.TheVariants.{Raw};
ghost use Rattle.toc_model.specs.Places.{program_blocks};
ghost use Rattle.stream_writer.specs.SheetTexts.{sheet_texts};
ghost use Rattle.cdtext_packs.specs.Texts.{has_no_text};
ghost use Rattle.cdtext_packs.specs.TextLines.{offers_line};
ghost use Rattle.round_trips.specs.SheetLines.{HasText, HasTextPacks, sheet_lines};
ghost use Rattle.cdg_cmd.specs.Answer.{GivesIfFound};
ghost use Rattle.cdg_cmd.specs.LeadInTexts.{HasTextsOf};
ghost use Rattle.cdg_cmd.specs.Keeps.{ReadsSecond};
ghost use Rattle.cdg_cmd.specs.declared.command.Command.{Command};
ghost use Rattle.cdg_cmd.specs.declared.status.Which.TheVariants.{Second};

use round_trips::{copied_text_lists_are_answered, text_lists_are_answered};
use subcode_author::{accepted_scripts_are_in_order, each_disc_has_one_answer};

/// A law: if a sheet and a script are accepted, their stream is written.
pub fn accepted_discs_are_written()
    ensures { (lead_in audio : ℕ) (sheet : CueSheet) (script : List Drawing) (call : Call Bytes)
        (status : Status)
        → IsRun (Author lead_in audio) call status → IsAccepted sheet script lead_in audio
        → IfSome call.first.before (λ cue. IfSome call.second.before (λ text. IsSheetText cue sheet
        → IsScriptText text script
        → Writes (disc_of sheet script lead_in audio) call.out status)) }
{
    each_disc_has_one_answer();
    accepted_scripts_are_in_order();
}

/// A law: each refusal of `author` is the status if its reason is the first that applies.
pub fn refusals_are_reported()
    // These are the refusals of the cue sheet.
    ensures sheet { (lead_in audio : ℕ) (why : Refusal) (call : Call Bytes) (status : Status)
        → IsRun (Author lead_in audio) call status
        → IfSome call.first.before (λ cue. IsSheetStop (Some cue) (Refused why)
        → RefusesWith (Refused why) call.out status) }
    // These are the refusals of the script.
    ensures script { (lead_in audio : ℕ) (sheet : CueSheet) (why : Refusal) (call : Call Bytes)
        (status : Status)
        → IsRun (Author lead_in audio) call status
        → IfSome call.first.before (λ cue. IfSome call.second.before (λ text. IsSheetText cue sheet
        → IsScriptStop (Some text) (Refused why) → RefusesWith (Refused why) call.out status)) }
    // These are the refusals of the disc of both.
    ensures disc { (lead_in audio : ℕ) (sheet : CueSheet) (script : List Drawing) (why : AuthorStop)
        (call : Call Bytes)
        (status : Status) → IsRun (Author lead_in audio) call status → why ≢ stop.NoMemory
        → why ≢ stop.WriteFault
        → IsAuthorStop sheet script lead_in audio why
        → IfSome call.first.before (λ cue. IfSome call.second.before (λ text. IsSheetText cue sheet
        → IsScriptText text script
        → RefusesWith (author_status (Err why)) call.out status)) }
{
    each_disc_has_one_answer();
    accepted_scripts_are_in_order();
}

/// A law: for an authored stream with a lead-in, `text` writes each string of the sheet that is not empty, or
/// none if the sheet has no text.
pub fn authored_texts_are_written()
    ensures strings { (lead_in audio : ℕ) (sheet : CueSheet) (script : List Drawing) (packs : List (List ℕ))
        (call : Call Bytes) (status : Status) → IsRun (Text lead_in Raw) call status
        → lead_in ≤ most_lead_in → program_blocks sheet audio ≤ most_program → HasTextPacks sheet
        → HasText sheet → 0 < lead_in
        → IfSome call.first.before (λ all. IsAuthored (disc_of sheet script lead_in audio) all packs
        → GivesIfFound (sheet_lines sheet (4 * lead_in) 0) call.out status) }
    ensures none { (lead_in audio : ℕ) (sheet : CueSheet) (script : List Drawing) (packs : List (List ℕ))
        (call : Call Bytes) (status : Status) → IsRun (Text lead_in Raw) call status
        → lead_in ≤ most_lead_in → program_blocks sheet audio ≤ most_program
        → has_no_text (sheet_texts sheet) ≡ true
        → IfSome call.first.before (λ all. IsAuthored (disc_of sheet script lead_in audio) all packs
        → GivesIfFound (offers_line 0 (4 * lead_in) 0) call.out status) }
{
    text_lists_are_answered();
}

/// A law: `authored_texts_are_written` for blocks or sectors with the lead-in of an authored stream.
pub fn copied_texts_are_written()
    ensures strings { (lead_in audio : ℕ) (form : Form) (sheet : CueSheet) (script : List Drawing)
        (bytes : List ℕ)
        (packs : List (List ℕ)) (call : Call Bytes) (status : Status) → IsRun (Text lead_in form) call status
        → HasTextPacks sheet → HasText sheet → 0 < lead_in
        → IsAuthored (disc_of sheet script lead_in audio) bytes packs
        → IfSome call.first.before (λ all. HasTextsOf form lead_in bytes all
        → GivesIfFound (sheet_lines sheet (4 * lead_in) 0) call.out status) }
    ensures none { (lead_in audio : ℕ) (form : Form) (sheet : CueSheet) (script : List Drawing)
        (bytes : List ℕ)
        (packs : List (List ℕ)) (call : Call Bytes) (status : Status) → IsRun (Text lead_in form) call status
        → has_no_text (sheet_texts sheet) ≡ true → IsAuthored (disc_of sheet script lead_in audio) bytes packs
        → IfSome call.first.before (λ all. HasTextsOf form lead_in bytes all
        → GivesIfFound (offers_line 0 (4 * lead_in) 0) call.out status) }
{
    copied_text_lists_are_answered();
}

/// A law: only a command that reads the second input reports a fault of it; `author` and `press` do so after they
/// read the first input to its end and accepted it.
pub fn second_faults_come_after_the_first_input()
    ensures { (command : Command) (call : Call Bytes) (status : Status) → IsRun command call status
        → status ≡ ReadFault Second → ReadsSecond command call.first }
{}
