// The pictures of a script in a stream.
ghost use Rattle.std.specs.Prelude.{◌≡◌, length, List, ℕ, Result, Some};
ghost use Rattle.cdg_io.specs.Change.{Bytes, Change, from_to};
ghost use Rattle.cdg_screen.specs.Texts.{pixmap};
ghost use Rattle.picture_script.specs.Script.{Drawing};
ghost use Rattle.raw_subcode.specs.Channels.{unit_size};
ghost use Rattle.raw_subcode.specs.declared.form.Form.{Form};
ghost use Rattle.stream_stages.specs.Screen.{IsScreenAt, IsShownBy, Shows, moment};
ghost use Rattle.stream_stages.specs.declared.played.Played.{Played};
ghost use Rattle.stream_stages.specs.declared.played.PlayStop.{PlayStop};
ghost use Rattle.round_trips.specs.Pictured.{GivesPicture, IsHeldAt, IsPictureText, IsScheduledStream};

use pack_schedule::scheduled_pictures_are_shown;
use rw_interleave::{found_packs_are_the_text, packs_are_recovered};

/// A law: a stream whose packs are a schedule of a script shows each picture from its ready time to its hold
/// time, even if damage changed at most two symbols of each word.
pub fn screens_show_pictures()
    ensures text { (form : Form) (lead_in time : ℕ) (script : List Drawing) (k : ℕ) (bytes text : List ℕ)
        (bad : ℕ)
        → IsScheduledStream form lead_in script bytes → IsHeldAt script k time
        → IsScreenAt (moment form lead_in time) bytes text bad
        → IsPictureText script k text }
    ensures bad { (form : Form) (lead_in time : ℕ) (script : List Drawing) (k : ℕ) (bytes text : List ℕ)
        (bad : ℕ)
        → IsScheduledStream form lead_in script bytes → IsHeldAt script k time
        → IsScreenAt (moment form lead_in time) bytes text bad
        → bad ≡ 0 }
{
    packs_are_recovered();
    found_packs_are_the_text();
    scheduled_pictures_are_shown();
}

/// A law: if a call shows a stream of `screens_show_pictures` at a moment from the ready time to the hold
/// time of a picture, it writes this picture, unless a read or a write fails.
pub fn shown_moments_give_pictures()
    ensures { (form : Form) (lead_in time : ℕ) (all : List ℕ) (left : Bytes) (out : Change Bytes)
        (answer : Result Played PlayStop) (taken : List ℕ) (script : List Drawing) (k : ℕ)
        → IsScheduledStream form lead_in script all → IsHeldAt script k time
        → Shows pixmap (moment form lead_in time)
        (record { left = from_to (Some all) left; held = out }) answer taken
        → IsShownBy answer lead_in time (unit_size form) (length all)
        → GivesPicture script k answer out.before out.after }
{
    screens_show_pictures();
}
