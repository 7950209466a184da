// A part of a player's screen.
ghost use Rattle.std.specs.Prelude.{◌≡◌, ◌≤◌, ◌∷◌, [], ◌↔◌, ◌⊎◌, IsTrue, MatchOption, length, pos, negsuc, true};
ghost use Rattle.live_player.specs.Parts.{HasRoomFor, IsOnScreen, ShowsPart};
ghost use Rattle.ribjasper_c.specs.Handles.{PlayersShow};
ghost use Rattle.ribjasper_c.specs.Rects.{shown_rect};
ghost use Rattle.ribjasper_c.specs.Looking.{IsUnchanged};

use crate::Playing;
use crate::answers::{DONE, NOT_DONE};
use cdg_instructions::{SCREEN_HEIGHT, SCREEN_WIDTH};
use live_player::{LivePlayer, ScreenPart};

/// Writes the colour numbers of a part of the screen, row by row. Row j begins at byte `stride` times j, and
/// the bytes between the rows are unchanged. Returns 0, or -1 if the player is closed, the part is not on the
/// screen, its rows overlap or the buffer is too small.
#[unsafe(no_mangle)]
pub extern "C" fn ribjasper_player_rect(
    player: &mut Playing,
    x: u32,
    y: u32,
    width: u32,
    height: u32,
    pixels: &mut [u8],
    stride: u32,
) -> i32
    ensures shows { result ≡ pos 0 → PlayersShow player.old.handle.players
        (λ now. ShowsPart now (shown_rect x y width height) stride pixels.old pixels.new) }
    ensures done { (result ≡ pos 0) ↔ (player.old.is_open ≡ true) × IsOnScreen (shown_rect x y width height)
        × (width ≤ stride) × HasRoomFor (shown_rect x y width height) stride (length pixels.old) }
    ensures answer { (result ≡ pos 0) ⊎ (result ≡ negsuc 0) }
    ensures same { IsUnchanged player.old player.new }
    ensures refused { result ≡ negsuc 0 → pixels.new ≡ pixels.old }
{
    let Some(part) = part_of(x, y, width, height) else {
        return NOT_DONE;
    };
    if !player.is_open || !has_room(&part, stride, pixels.len()) {
        return NOT_DONE;
    }
    let live = player.handle.lend();
    shown_part(live, &part, pixels, stride as usize);
    DONE
}

/// A part, or `None` if it is not all on the screen.
pub(crate) fn part_of(x: u32, y: u32, width: u32, height: u32) -> Option<ScreenPart>
    ensures { MatchOption result (¬ IsOnScreen (shown_rect x y width height))
        (λ part. (part ≡ shown_rect x y width height) × IsOnScreen (shown_rect x y width height)) }
{
    let part = ScreenPart {
        left: x as usize,
        top: y as usize,
        width: width as usize,
        height: height as usize,
    };
    if part.left + part.width <= SCREEN_WIDTH && part.top + part.height <= SCREEN_HEIGHT {
        Some(part)
    } else {
        None
    }
}

// Whether the rows of a part do not overlap and fit into a buffer.
fn has_room(part: &ScreenPart, stride: u32, room: usize) -> bool
    requires { IsOnScreen part.now }
    ensures { IsTrue result ↔ (part.now.width ≤ stride) × HasRoomFor part.now stride room }
{
    let stride = stride as usize;
    part.width <= stride && (part.height == 0 || stride * (part.height - 1) + part.width <= room)
}

// Writes the pixels of a part of the screen. The clause says what the screen shows of the player's inputs.
fn shown_part(live: &LivePlayer, part: &ScreenPart, pixels: &mut [u8], stride: usize)
    requires part { IsOnScreen part.now }
    requires apart { part.now.width ≤ stride }
    requires room { HasRoomFor part.now stride (length pixels.old) }
    ensures { PlayersShow (live.now ∷ []) (λ now. ShowsPart now part.now stride pixels.old pixels.new) }
{
    // These two laws prove the clause.
    live.shows_its_blocks();
    live.shows_its_packs();
    live.part(part, pixels, stride);
}
