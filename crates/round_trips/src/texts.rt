// The texts in the lead-in of an authored stream.
ghost use Rattle.std.specs.Prelude.{◌≡◌, ◌*◌, ◌<◌, ◌≤◌, ℕ, List, Bool, true, Ok, All, length};
ghost use Rattle.text_lines.specs.Text.{most_text_bytes};
ghost use Rattle.cue_sheet.specs.CueSheet.{CueSheet};
ghost use Rattle.cue_sheet.specs.Grammar.{read_cue};
ghost use Rattle.picture_script.specs.Script.{Drawing};
ghost use Rattle.raw_subcode.specs.declared.form.Form.{Form};
ghost use Rattle.raw_subcode.specs.declared.form.Form.TheVariants.{Raw};
ghost use Rattle.stream_writer.specs.SheetTexts.{sheet_texts, texts_of_sheet};
ghost use Rattle.cdtext_packs.specs.Texts.{has_no_text, no_texts};
ghost use Rattle.cdtext_packs.specs.TextLines.{offers_line};
ghost use Rattle.subcode_author.specs.Authored.{IsAuthored, text_packs, disc_of};
ghost use Rattle.stream_stages.specs.TextListing.{IsTextListed, packs_in, texts_of_lead_in};
ghost use Rattle.round_trips.specs.Damage.{HasHurtSlots, count_whole, count_hurt};
ghost use Rattle.round_trips.specs.SheetLines.{HasText, HasTextPacks, sheet_lines};
ghost use Rattle.round_trips.specs.Slots.{packs_in_slots};

use cdtext_packs::texts_come_back;
use cue_sheet::accepted_sheets_are_in_order;

/// A law: the texts of each accepted sheet can be packed, if they do not fill too many packs.
pub fn accepted_sheets_have_text_packs()
    ensures { (text : List ℕ) (sheet : CueSheet) → All (λ byte. byte < 256) text
        → length text ≤ most_text_bytes → read_cue text ≡ Ok sheet
        → length (text_packs sheet) ≤ 256 → HasTextPacks sheet }
{
    accepted_sheets_are_in_order();
}

/// A law: the slots of an authored lead-in repeat the text packs of the sheet.
pub fn authored_lead_ins_hold_the_packs()
    ensures { (sheet : CueSheet) (script : List Drawing) (lead_in audio : ℕ) (bytes : List ℕ)
        (packs : List (List ℕ))
        → HasTextPacks sheet → IsAuthored (disc_of sheet script lead_in audio) bytes packs
        → packs_in Raw lead_in bytes ≡ packs_in_slots (text_packs sheet) (4 * lead_in) }
{}

/// A law: if a sheet has text, the list of an authored stream with a lead-in has its strings, and all packs are good.
pub fn authored_texts_are_listed()
    ensures texts { (sheet : CueSheet) (script : List Drawing) (lead_in audio : ℕ) (bytes : List ℕ)
        (packs : List (List ℕ))
        → HasTextPacks sheet → HasText sheet → 0 < lead_in
        → IsAuthored (disc_of sheet script lead_in audio) bytes packs
        → texts_of_lead_in Raw lead_in bytes ≡ Ok (texts_of_sheet sheet) }
    ensures lines { (sheet : CueSheet) (script : List Drawing) (lead_in audio : ℕ) (bytes : List ℕ)
        (packs : List (List ℕ)) (text : List ℕ) (bad : ℕ)
        → HasTextPacks sheet → HasText sheet → 0 < lead_in
        → IsAuthored (disc_of sheet script lead_in audio) bytes packs
        → IsTextListed Raw lead_in bytes text bad → text ≡ sheet_lines sheet (4 * lead_in) 0 }
{
    texts_come_back();
}

/// A law: if a sheet has no text, the list has only the line with the count of packs, and all packs are bad.
pub fn streams_without_texts_are_listed()
    ensures texts { (sheet : CueSheet) (script : List Drawing) (lead_in audio : ℕ) (bytes : List ℕ)
        (packs : List (List ℕ))
        → has_no_text (sheet_texts sheet) ≡ true → IsAuthored (disc_of sheet script lead_in audio) bytes packs
        → texts_of_lead_in Raw lead_in bytes ≡ Ok no_texts }
    ensures lines { (sheet : CueSheet) (script : List Drawing) (lead_in audio : ℕ) (bytes : List ℕ)
        (packs : List (List ℕ)) (text : List ℕ) (bad : ℕ)
        → has_no_text (sheet_texts sheet) ≡ true → IsAuthored (disc_of sheet script lead_in audio) bytes packs
        → IsTextListed Raw lead_in bytes text bad → text ≡ offers_line 0 (4 * lead_in) 0 }
{}

/// A law: if slots of an authored lead-in are damaged, and some slot has each text pack undamaged, the list still has
/// the strings of the sheet, and the count of good packs is the number of undamaged slots. The units may have another
/// form.
pub fn damaged_lead_ins_give_the_texts()
    ensures texts { (sheet : CueSheet) (script : List Drawing) (lead_in audio : ℕ) (bytes : List ℕ)
        (packs : List (List ℕ)) (whole : List Bool) (form : Form) (changed : List ℕ)
        → HasTextPacks sheet → HasText sheet → IsAuthored (disc_of sheet script lead_in audio) bytes packs
        → HasHurtSlots (text_packs sheet) whole (packs_in Raw lead_in bytes) (packs_in form lead_in changed)
        → texts_of_lead_in form lead_in changed ≡ Ok (texts_of_sheet sheet) }
    ensures lines { (sheet : CueSheet) (script : List Drawing) (lead_in audio : ℕ) (bytes : List ℕ)
        (packs : List (List ℕ)) (whole : List Bool) (form : Form) (changed text : List ℕ) (bad : ℕ)
        → HasTextPacks sheet → HasText sheet → IsAuthored (disc_of sheet script lead_in audio) bytes packs
        → HasHurtSlots (text_packs sheet) whole (packs_in Raw lead_in bytes) (packs_in form lead_in changed)
        → IsTextListed form lead_in changed text bad
        → text ≡ sheet_lines sheet (count_whole whole) (count_hurt whole) }
{
    texts_come_back();
}
