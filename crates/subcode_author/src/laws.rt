// Laws on authored streams: accepted scripts are in order, an accepted disc has one stream with the planned changes,
// and a failed write leaves a prefix of it.
ghost use Rattle.std.specs.Prelude.{◌≡◌, ◌<◌, ◌≤◌, List, ℕ, Ok, length, ◌≢◌, ◌⊎◌};
ghost use Rattle.disc_time.specs.Counts.{most_lead_in};
ghost use Rattle.std.specs.declared.option.Option.{Option};
ghost use Rattle.cdg_io.specs.Moves.{AppendsPrefix};
ghost use Rattle.cue_sheet.specs.CueSheet.{CueSheet, IsSheet};
ghost use Rattle.picture_script.specs.Script.{Drawing, picture_pixel, pictures};
ghost use Rattle.picture_script.specs.ScriptGrammar.{read_script};
ghost use Rattle.pack_schedule.specs.PlannedChange.{planned_change};
ghost use Rattle.pack_schedule.specs.Schedule.{IsInTime};
ghost use Rattle.pack_schedule.specs.Shown.{AreColoursInRange, AreTimesInOrder};
ghost use Rattle.subcode_author.specs.Authored.{IsWrittenStream, disc_of};
ghost use Rattle.subcode_author.specs.AuthorAnswer.{HoldsPictures, IsAccepted, IsAuthorStop};
ghost use Rattle.subcode_author.specs.Given.{PutsScriptPart};
ghost use Rattle.subcode_author.specs.declared.stops.AuthorStop.{AuthorStop};

use crate::AuthorStop;
use pack_schedule::{
    changes_can_be_written, needs_are_fewest, packs_are_a_schedule, planned_changes_are_changes,
};
use rw_interleave::spread_carries;

/// A law: the pictures of every accepted script are in order, and all their colours are in range.
pub fn accepted_scripts_are_in_order()
    ensures times { (text : List ℕ) (script : List Drawing) → read_script text ≡ Ok script
        → AreTimesInOrder script }
    ensures colours { (text : List ℕ) (script : List Drawing) → read_script text ≡ Ok script
        → AreColoursInRange script }
    ensures pixels { (text : List ℕ) (script : List Drawing) → read_script text ≡ Ok script → (k x y : ℕ)
        → picture_pixel script k x y < 16 }
{}

/// A law: a sheet, a script, a lead-in and an audio length have at most one authored stream with the planned changes.
/// So `author_stream` is deterministic: two calls with equal arguments write equal bytes.
pub fn authored_streams_are_one()
    ensures packs { (sheet : CueSheet) (script : List Drawing) (lead_in audio : ℕ) (one other : List ℕ)
        (packs others : List (List ℕ))
        → IsWrittenStream (disc_of sheet script lead_in audio) one packs
        → IsWrittenStream (disc_of sheet script lead_in audio) other others → packs ≡ others }
    ensures bytes { (sheet : CueSheet) (script : List Drawing) (lead_in audio : ℕ) (one other : List ℕ)
        (packs others : List (List ℕ))
        → IsWrittenStream (disc_of sheet script lead_in audio) one packs
        → IsWrittenStream (disc_of sheet script lead_in audio) other others → one ≡ other }
{}

/// A law: the part of a stream that a failed write leaves is a prefix of the authored stream.
pub fn parts_are_prefixes()
    ensures { (sheet : CueSheet) (script : List Drawing) (lead_in audio n : ℕ) (bytes : List ℕ)
        (packs given : List (List ℕ)) (held after : Option (List ℕ))
        → HoldsPictures sheet script audio
        → ((k : ℕ) → k < pictures script → IsInTime script k (length (planned_change script k)))
        → AreTimesInOrder script → IsWrittenStream (disc_of sheet script lead_in audio) bytes packs
        → PutsScriptPart (disc_of sheet script lead_in audio) held after n given
        → AppendsPrefix held after bytes }
{
    spread_carries();
}

/// A law: every accepted disc has an authored stream, and each part of it is a prefix of it.
pub fn accepted_scripts_have_streams()
    ensures stream { (sheet : CueSheet) (script : List Drawing) (lead_in audio : ℕ)
        → IsSheet sheet → AreTimesInOrder script → AreColoursInRange script
        → ((k x y : ℕ) → picture_pixel script k x y < 16)
        → lead_in ≤ most_lead_in → IsAccepted sheet script lead_in audio
        → (bytes : List ℕ) × (packs : List (List ℕ))
        × IsWrittenStream (disc_of sheet script lead_in audio) bytes packs }
    ensures part { (sheet : CueSheet) (script : List Drawing) (lead_in audio n : ℕ) (given : List (List ℕ))
        (held after : Option (List ℕ))
        → IsSheet sheet → AreTimesInOrder script → AreColoursInRange script
        → ((k x y : ℕ) → picture_pixel script k x y < 16)
        → lead_in ≤ most_lead_in → IsAccepted sheet script lead_in audio
        → PutsScriptPart (disc_of sheet script lead_in audio) held after n given
        → (bytes : List ℕ) × (packs : List (List ℕ))
        × IsWrittenStream (disc_of sheet script lead_in audio) bytes packs
        × AppendsPrefix held after bytes }
{
    packs_are_a_schedule();
    needs_are_fewest();
    planned_changes_are_changes();
    changes_can_be_written();
    spread_carries();
}

/// A law: a sheet and a script, with their lead-in and audio, are either accepted or refused, for exactly one
/// reason with one set of numbers. So, unless memory runs out, `author_stream` returns a refusal if and only
/// if its reason applies.
pub fn each_disc_has_one_answer()
    ensures some { (sheet : CueSheet) (script : List Drawing) (lead_in audio : ℕ) → AreColoursInRange script
        → ((k x y : ℕ) → picture_pixel script k x y < 16)
        → IsAccepted sheet script lead_in audio
        ⊎ ((stop : AuthorStop) × (stop ≢ AuthorStop.NoMemory) × (stop ≢ AuthorStop.WriteFault)
        × IsAuthorStop sheet script lead_in audio stop) }
    ensures not_both { (sheet : CueSheet) (script : List Drawing) (lead_in audio : ℕ) (stop : AuthorStop)
        → IsAccepted sheet script lead_in audio
        → IsAuthorStop sheet script lead_in audio stop
        → (stop ≡ AuthorStop.NoMemory) ⊎ (stop ≡ AuthorStop.WriteFault) }
    ensures one { (sheet : CueSheet) (script : List Drawing) (lead_in audio : ℕ) (stop other : AuthorStop)
        → IsAuthorStop sheet script lead_in audio stop → IsAuthorStop sheet script lead_in audio other
        → stop ≢ AuthorStop.NoMemory → other ≢ AuthorStop.NoMemory → stop ≡ other }
{
    needs_are_fewest();
}
