// Laws on pressing: each call has one result and, if nothing is refused, one stream. Each part of it is a prefix.
ghost use Rattle.std.specs.Prelude.{◌≡◌, ◌≢◌, ◌≤◌, ◌⊎◌, List, ℕ};
ghost use Rattle.disc_time.specs.Counts.{most_lead_in};
ghost use Rattle.cdg_io.specs.Change.{Bytes, Change};
ghost use Rattle.cdg_io.specs.Moves.{AppendsPrefix};
ghost use Rattle.cue_sheet.specs.CueSheet.{CueSheet, IsSheet};
ghost use Rattle.toc_model.specs.Places.{layout_of};
ghost use Rattle.stream_writer.specs.Given.{PutsStreamPart, framing_of};
ghost use Rattle.stream_writer.specs.Needs.{text_packs};
ghost use Rattle.cdg_press.specs.Pressed.{file_begin, IsPackAfter, IsPressed, press_of};
ghost use Rattle.cdg_press.specs.Refusals.{IsPressable, IsPressStop};
ghost use Rattle.cdg_press.specs.declared.stops.PressStop.{PressStop};

use crate::PressStop;
use rw_interleave::spread_carries;

/// A law: each sheet and file, with their lead-in and audio file, are either pressed or refused, and there is exactly
/// one reason with its numbers. So, given memory, `press_stream` returns a refusal exactly if it is the first that
/// applies.
pub fn each_press_has_one_answer()
    ensures some { (sheet : CueSheet) (file : List ℕ) (lead_in audio : ℕ)
        → IsPressable sheet file lead_in audio
        ⊎ ((stop : PressStop) × (stop ≢ PressStop.NoMemory) × (stop ≢ PressStop.WriteFault)
        × IsPressStop sheet file lead_in audio stop) }
    ensures not_both { (sheet : CueSheet) (file : List ℕ) (lead_in audio : ℕ) (stop : PressStop)
        → IsPressable sheet file lead_in audio
        → IsPressStop sheet file lead_in audio stop
        → (stop ≡ PressStop.NoMemory) ⊎ (stop ≡ PressStop.WriteFault) }
    ensures one { (sheet : CueSheet) (file : List ℕ) (lead_in audio : ℕ) (stop other : PressStop)
        → IsPressStop sheet file lead_in audio stop → IsPressStop sheet file lead_in audio other
        → stop ≢ PressStop.NoMemory → other ≢ PressStop.NoMemory → stop ≡ other }
{}

/// A law: a sheet, a file, a lead-in and an audio length have at most one pressed stream. So `press_stream` is
/// deterministic.
pub fn pressed_streams_are_one()
    ensures packs { (sheet : CueSheet) (file : List ℕ) (lead_in audio : ℕ) (one other : List ℕ)
        (packs others : List (List ℕ))
        → IsPressed (press_of sheet file lead_in audio) one packs
        → IsPressed (press_of sheet file lead_in audio) other others
        → packs ≡ others }
    ensures bytes { (sheet : CueSheet) (file : List ℕ) (lead_in audio : ℕ) (one other : List ℕ)
        (packs others : List (List ℕ))
        → IsPressed (press_of sheet file lead_in audio) one packs
        → IsPressed (press_of sheet file lead_in audio) other others
        → one ≡ other }
{}

/// A law: a disc that is not refused has a pressed stream, and the part that a failed write of `press_stream` leaves is
/// a prefix of it.
pub fn pressable_files_have_streams()
    ensures stream { (sheet : CueSheet) (file : List ℕ) (lead_in audio : ℕ)
        → IsSheet sheet → lead_in ≤ most_lead_in → IsPressable sheet file lead_in audio
        → (bytes : List ℕ) × (packs : List (List ℕ))
        × IsPressed (press_of sheet file lead_in audio) bytes packs }
    ensures part { (sheet : CueSheet) (file : List ℕ) (lead_in audio n : ℕ) (bytes : List ℕ)
        (packs given : List (List ℕ))
        (held : Change Bytes) → IsPressed (press_of sheet file lead_in audio) bytes packs
        → PutsStreamPart (framing_of (layout_of sheet audio) (text_packs sheet) lead_in)
        (IsPackAfter file_begin file) held n given
        → AppendsPrefix held.before held.after bytes }
{
    spread_carries();
}
