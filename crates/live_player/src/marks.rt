// Seeking in a stream, by marks that earlier seeks left.
ghost use Rattle.std.specs.Prelude.{◌≡◌, ◌<◌, ◌≤◌, ◌*◌, All, List, ℕ, length};
ghost use Rattle.live_player.specs.Lives.{Given, HasPlayed};
ghost use Rattle.live_player.specs.Lives.Given.{Drawn, Fed};
ghost use Rattle.live_player.specs.Marks.{given_first, IsMark};
ghost use Rattle.raw_subcode.specs.declared.form.Form.{Form};

use crate::feeding::{draw_all, feed_all};
use crate::plain::PlainPlayer;
use crate::plays::AnyPlayer;
use raw_subcode::{BLOCK_BYTES, Form};
use rw_code::SYMBOLS;

/// A player at a place of a stream. If all its bytes are 0, it is no mark.
#[repr(C)]
#[derive(Drop)]
pub struct Mark {
    /// The number of blocks or packs that the player was given.
    pub place: u64,
    pub player: PlainPlayer,
}

/// Brings a player to the state after the first `to` blocks of a stream, and leaves marks: mark k, from 0, is for
/// place (k + 1) * every.
pub fn seek_block<P: AnyPlayer>(
    player: &mut P,
    lead_in: u32,
    form: Form,
    blocks: &[[u8; BLOCK_BYTES]],
    to: usize,
    marks: &mut [Mark],
    every: usize,
)
    requires to { to ≤ length blocks.now }
    requires every { 0 < every }
    ensures there { All (IsMark Fed form lead_in blocks.now) marks.old
        → HasPlayed form lead_in (given_first Fed to blocks.now) (P.played player.new) }
    ensures marks { All (IsMark Fed form lead_in blocks.now) marks.old
        → All (IsMark Fed form lead_in blocks.now) marks.new }
{
    let start = go_back(player, lead_in, form, to, marks, every);
    for part in start..to.div_ceil(every) {
        let from = every * part;
        let until = from + every.min(to - from);
        feed_all(player, &blocks[from..until]);
        leave_mark(player, until, marks, every);
    }
}

/// Brings a player to the state after the first `to` packs of a file, and leaves marks like `seek_block`.
pub fn seek_pack<P: AnyPlayer>(
    player: &mut P,
    packs: &[[u8; SYMBOLS]],
    to: usize,
    marks: &mut [Mark],
    every: usize,
)
    requires to { to ≤ length packs.now }
    requires every { 0 < every }
    ensures there { All (IsMark Drawn Form.Raw 0 packs.now) marks.old
        → HasPlayed Form.Raw 0 (given_first Drawn to packs.now) (P.played player.new) }
    ensures marks { All (IsMark Drawn Form.Raw 0 packs.now) marks.old
        → All (IsMark Drawn Form.Raw 0 packs.now) marks.new }
{
    let start = go_back(player, 0, Form::Raw, to, marks, every);
    for part in start..to.div_ceil(every) {
        let from = every * part;
        let until = from + every.min(to - from);
        draw_all(player, &packs[from..until]);
        leave_mark(player, until, marks, every);
    }
}

// Brings a player to the last mark that is not past a place, or restarts if there is none. Returns the place divided
// by `every`.
fn go_back<P: AnyPlayer>(
    player: &mut P,
    lead_in: u32,
    form: Form,
    to: usize,
    marks: &[Mark],
    every: usize,
) -> usize
    requires { 0 < every }
    ensures within { every * result ≤ to }
    ensures there { (gives : List ℕ → Given) (units : List (List ℕ))
        → All (IsMark gives form lead_in units) marks.now
        → HasPlayed form lead_in (given_first gives (every * result) units) (P.played player.new) }
{
    let most = marks.len().min(to / every);
    for passed in 0..most {
        let part = most - passed;
        let mark = &marks[part - 1];
        if mark.place == (every * part) as u64 {
            player.go_back(&mark.player);
            return part;
        }
    }
    player.start_over(lead_in, form);
    0
}

// Leaves a mark at a place, if a mark is for this place and is not set yet.
fn leave_mark<P: AnyPlayer>(player: &P, place: usize, marks: &mut [Mark], every: usize)
    requires { 0 < every }
    ensures size { length marks.new ≡ length marks.old }
    ensures marks { (gives : List ℕ → Given) (form : Form) (lead_in : ℕ) (units : List (List ℕ))
        → All (IsMark gives form lead_in units) marks.old
        → HasPlayed form lead_in (given_first gives place units) (P.played player.now)
        → All (IsMark gives form lead_in units) marks.new }
{
    if place % every != 0 || place == 0 || place / every > marks.len() {
        return;
    }
    let mark = &mut marks[place / every - 1];
    if mark.place != place as u64 {
        player.leave(&mut mark.player);
        mark.place = place as u64;
    }
}
