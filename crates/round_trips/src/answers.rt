// The lists of the Q channel and of the texts of an authored stream.
ghost use Rattle.std.specs.Prelude.{◌≡◌, ◌*◌, ◌<◌, ◌≤◌, ℕ, List, Bool, true, Some, Result, length};
ghost use Rattle.cdg_io.specs.Change.{Bytes, Change, from_to};
ghost use Rattle.cdg_io.specs.Streams.{Streams};
ghost use Rattle.q_channel.specs.QList.{IsQListed};
ghost use Rattle.cue_sheet.specs.CueSheet.{CueSheet};
ghost use Rattle.picture_script.specs.Script.{Drawing};
ghost use Rattle.raw_subcode.specs.declared.form.Form.{Form};
ghost use Rattle.raw_subcode.specs.declared.form.Form.TheVariants.{Raw};
ghost use Rattle.toc_model.specs.Places.{layout_of};
ghost use Rattle.stream_writer.specs.SheetTexts.{sheet_texts};
ghost use Rattle.cdtext_packs.specs.Texts.{has_no_text};
ghost use Rattle.cdtext_packs.specs.TextLines.{offers_line};
ghost use Rattle.subcode_author.specs.Authored.{IsAuthored, text_packs, disc_of};
ghost use Rattle.raw_subcode.specs.Sizes.{most_units};
ghost use Rattle.stream_stages.specs.Calls.{IsAnsweredBy, in_turn};
ghost use Rattle.stream_stages.specs.Convert.{Restores};
ghost use Rattle.stream_stages.specs.TextListing.{packs_in, ListsTexts, IsListedBy, IsWholeInput};
ghost use Rattle.stream_stages.specs.declared.played.Played.{Played};
ghost use Rattle.stream_stages.specs.declared.played.PlayStop.{PlayStop};
ghost use Rattle.round_trips.specs.Answers.{PutsTexts};
ghost use Rattle.round_trips.specs.Damage.{HasHurtSlots, count_whole, count_hurt};
ghost use Rattle.round_trips.specs.FrameLines.{frame_lines};
ghost use Rattle.round_trips.specs.SheetLines.{HasText, HasTextPacks, sheet_lines};

use crate::texts::{
    authored_texts_are_listed, damaged_lead_ins_give_the_texts, streams_without_texts_are_listed,
};
use q_channel::bits_have_one_reading;

/// A law: the list of an authored stream has the frame of each block, and no frame is bad.
pub fn authored_frames_are_listed()
    ensures { (sheet : CueSheet) (script : List Drawing) (lead_in audio : ℕ) (bytes : List ℕ)
        (packs : List (List ℕ)) (text : List ℕ) (bad : ℕ)
        → IsAuthored (disc_of sheet script lead_in audio) bytes packs → IsQListed Raw bytes text bad
        → (text ≡ frame_lines (layout_of sheet audio) lead_in) × (bad ≡ 0) }
{
    bits_have_one_reading();
}

/// A law: listing the Q channel of an authored stream writes a line for each frame, unless a read or a write fails.
pub fn frame_lists_are_answered()
    ensures { (sheet : CueSheet) (script : List Drawing) (lead_in audio : ℕ) (bytes : List ℕ)
        (packs : List (List ℕ))
        (given : ℕ) (left : Bytes) (out : Change Bytes) (result : Result Played PlayStop) (taken : List ℕ)
        → IsAuthored (disc_of sheet script lead_in audio) bytes packs → length bytes ≤ most_units * 96
        → Streams (in_turn (IsQListed Raw) Raw given)
        (record { left = from_to (Some bytes) left; held = out }) result taken
        → IsAnsweredBy result 96 (length bytes)
        → Restores result out.before out.after (frame_lines (layout_of sheet audio) lead_in) }
{
    authored_frames_are_listed();
}

/// A law: listing the texts of an authored stream writes the lines of the strings of the sheet, or none if the sheet
/// has no text, unless a read, a write or an allocation fails.
pub fn text_lists_are_answered()
    ensures texts { (sheet : CueSheet) (script : List Drawing) (lead_in audio : ℕ) (bytes : List ℕ)
        (packs : List (List ℕ))
        (left : Bytes) (out : Change Bytes) (result : Result Played PlayStop) (taken : List ℕ)
        → HasTextPacks sheet → HasText sheet → 0 < lead_in
        → IsAuthored (disc_of sheet script lead_in audio) bytes packs → length bytes ≤ most_units * 96
        → ListsTexts Raw lead_in (record { left = from_to (Some bytes) left; held = out }) result taken
        → IsListedBy result Raw lead_in bytes
        → PutsTexts result out.before out.after (sheet_lines sheet (4 * lead_in) 0) }
    ensures none { (sheet : CueSheet) (script : List Drawing) (lead_in audio : ℕ) (bytes : List ℕ)
        (packs : List (List ℕ))
        (left : Bytes) (out : Change Bytes) (result : Result Played PlayStop) (taken : List ℕ)
        → has_no_text (sheet_texts sheet) ≡ true
        → IsAuthored (disc_of sheet script lead_in audio) bytes packs → length bytes ≤ most_units * 96
        → ListsTexts Raw lead_in (record { left = from_to (Some bytes) left; held = out }) result taken
        → IsListedBy result Raw lead_in bytes
        → PutsTexts result out.before out.after (offers_line 0 (4 * lead_in) 0) }
{
    authored_texts_are_listed();
    streams_without_texts_are_listed();
}

/// A law: `text_lists_are_answered` for units of any form with the lead-in of an authored stream.
pub fn copied_text_lists_are_answered()
    ensures texts { (sheet : CueSheet) (script : List Drawing) (lead_in audio : ℕ) (bytes : List ℕ)
        (packs : List (List ℕ)) (form : Form) (copy : List ℕ)
        (left : Bytes) (out : Change Bytes) (result : Result Played PlayStop) (taken : List ℕ)
        → HasTextPacks sheet → HasText sheet → 0 < lead_in
        → IsAuthored (disc_of sheet script lead_in audio) bytes packs
        → packs_in form lead_in copy ≡ packs_in Raw lead_in bytes → IsWholeInput form copy
        → ListsTexts form lead_in (record { left = from_to (Some copy) left; held = out }) result taken
        → IsListedBy result form lead_in copy
        → PutsTexts result out.before out.after (sheet_lines sheet (4 * lead_in) 0) }
    ensures none { (sheet : CueSheet) (script : List Drawing) (lead_in audio : ℕ) (bytes : List ℕ)
        (packs : List (List ℕ)) (form : Form) (copy : List ℕ)
        (left : Bytes) (out : Change Bytes) (result : Result Played PlayStop) (taken : List ℕ)
        → has_no_text (sheet_texts sheet) ≡ true → IsAuthored (disc_of sheet script lead_in audio) bytes packs
        → packs_in form lead_in copy ≡ packs_in Raw lead_in bytes → IsWholeInput form copy
        → ListsTexts form lead_in (record { left = from_to (Some copy) left; held = out }) result taken
        → IsListedBy result form lead_in copy
        → PutsTexts result out.before out.after (offers_line 0 (4 * lead_in) 0) }
{
    authored_texts_are_listed();
    streams_without_texts_are_listed();
}

/// A law: `text_lists_are_answered` for units of any form with a damaged lead-in, if some slot has each text pack
/// undamaged.
pub fn damaged_text_lists_are_answered()
    ensures { (sheet : CueSheet) (script : List Drawing) (lead_in audio : ℕ) (bytes : List ℕ)
        (packs : List (List ℕ)) (whole : List Bool) (form : Form) (changed : List ℕ)
        (left : Bytes) (out : Change Bytes) (result : Result Played PlayStop) (taken : List ℕ)
        → HasTextPacks sheet → HasText sheet → IsAuthored (disc_of sheet script lead_in audio) bytes packs
        → HasHurtSlots (text_packs sheet) whole (packs_in Raw lead_in bytes) (packs_in form lead_in changed)
        → IsWholeInput form changed
        → ListsTexts form lead_in (record { left = from_to (Some changed) left; held = out }) result taken
        → IsListedBy result form lead_in changed
        → PutsTexts result out.before out.after (sheet_lines sheet (count_whole whole) (count_hurt whole)) }
{
    damaged_lead_ins_give_the_texts();
}
