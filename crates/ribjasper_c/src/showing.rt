// The calls that read a player's screen.
ghost use Rattle.std.specs.Prelude.{◌≡◌, ◌<◌, ◌&&◌, nat_lt, slice_index, ◌∷◌, [], pos, negsuc};
ghost use Rattle.cdg_instructions.specs.Sizes.{screen_height, screen_width};
ghost use Rattle.cdg_screen.specs.Standing.{screen_pixel};
ghost use Rattle.ribjasper_c.specs.Handles.{ArePictureBytes, AreLevels, IsScreen, IsTable, IsWrittenBy, PlayersShow};
ghost use Rattle.ribjasper_c.specs.Looking.{IsUnchanged};
ghost use Rattle.ribjasper_c.specs.Answers.{done_if};

use crate::Playing;
use crate::answers::{DONE, NOT_DONE};
use cdg_instructions::{SCREEN_HEIGHT, SCREEN_PIXELS, SCREEN_WIDTH};
use live_player::{LivePlayer, PICTURE_BYTES, write_picture};

const WIDTH: u32 = SCREEN_WIDTH as u32;

const HEIGHT: u32 = SCREEN_HEIGHT as u32;

// Calls `write` with the player and a buffer. Returns 0, or -1 if the player is closed.
fn show<T, F: FnOnce(&LivePlayer, &mut T)>(player: &mut Playing, out: &mut T, write: F) -> i32
    requires { F.IsAlwaysCallable write }
    ensures shows { result ≡ pos 0 → PlayersShow player.old.handle.players
        (IsWrittenBy F.FnOnce write out.old out.new) }
    ensures answer { result ≡ done_if player.old.is_open }
    ensures same { IsUnchanged player.old player.new }
    ensures refused { result ≡ negsuc 0 → out.new ≡ out.old }
{
    if !player.is_open {
        return NOT_DONE;
    }
    write_shown(player.handle.lend(), out, write);
    DONE
}

// Calls `write` with a player and a buffer. The clause says what the screen shows of the player's inputs.
fn write_shown<T, F: FnOnce(&LivePlayer, &mut T)>(live: &LivePlayer, out: &mut T, write: F)
    requires { F.IsAlwaysCallable write }
    ensures { PlayersShow (live.now ∷ []) (IsWrittenBy F.FnOnce write out.old out.new) }
{
    // These two laws prove the clause.
    live.shows_its_blocks();
    live.shows_its_packs();
    write(live, out);
}

/// Writes the colour number of a pixel of the screen. Returns 0, or -1 if the player is closed or the place
/// is not on the screen.
#[unsafe(no_mangle)]
pub extern "C" fn ribjasper_player_pixel(
    player: &mut Playing,
    x: u32,
    y: u32,
    pixel: &mut u8,
) -> i32
    ensures shows { result ≡ pos 0
        → PlayersShow player.old.handle.players (λ now. pixel.new ≡ screen_pixel now x y) }
    ensures answer { result
        ≡ done_if (player.old.is_open && nat_lt x screen_width && nat_lt y screen_height) }
    ensures same { IsUnchanged player.old player.new }
    ensures refused { result ≡ negsuc 0 → pixel.new ≡ pixel.old }
{
    if x >= WIDTH || y >= HEIGHT {
        return NOT_DONE;
    }
    show(player, pixel, |live, pixel| *pixel = live.pixel(x, y))
}

/// Writes the colour numbers of all pixels, row by row. Returns 0, or -1 if the player is closed.
#[unsafe(no_mangle)]
pub extern "C" fn ribjasper_player_screen(
    player: &mut Playing,
    pixels: &mut [u8; SCREEN_PIXELS],
) -> i32
    ensures shows { result ≡ pos 0 → PlayersShow player.old.handle.players (λ now. IsScreen pixels.new now) }
    ensures answer { result ≡ done_if player.old.is_open }
    ensures same { IsUnchanged player.old player.new }
    ensures refused { result ≡ negsuc 0 → pixels.new ≡ pixels.old }
{
    show(player, pixels, LivePlayer::screen)
}

/// Writes colour k of the table as 0xRGB. Returns 0, or -1 if the player is closed or k is above 15.
#[unsafe(no_mangle)]
pub extern "C" fn ribjasper_player_colour(player: &mut Playing, k: u8, colour: &mut u16) -> i32
    ensures shows { result ≡ pos 0
        → PlayersShow player.old.handle.players (λ now. colour.new ≡ slice_index now.colours k) }
    ensures answer { result ≡ done_if (player.old.is_open && nat_lt k 16) }
    ensures same { IsUnchanged player.old player.new }
    ensures refused { result ≡ negsuc 0 → colour.new ≡ colour.old }
{
    if k >= 16 {
        return NOT_DONE;
    }
    show(player, colour, |live, colour| *colour = live.colour(k))
}

/// Writes the colours of the table, each as 0xRGB. Returns 0, or -1 if the player is closed.
#[unsafe(no_mangle)]
pub extern "C" fn ribjasper_player_colours(player: &mut Playing, table: &mut [u16; 16]) -> i32
    ensures shows { result ≡ pos 0 → PlayersShow player.old.handle.players (λ now. IsTable table.new now) }
    ensures answer { result ≡ done_if player.old.is_open }
    ensures same { IsUnchanged player.old player.new }
    ensures refused { result ≡ negsuc 0 → table.new ≡ table.old }
{
    show(player, table, LivePlayer::colours)
}

/// Writes the levels of the colours, 0 to 63. Returns 0, or -1 if the player is closed.
#[unsafe(no_mangle)]
pub extern "C" fn ribjasper_player_levels(player: &mut Playing, levels: &mut [u8; 16]) -> i32
    ensures shows { result ≡ pos 0 → PlayersShow player.old.handle.players (λ now. AreLevels levels.new now) }
    ensures answer { result ≡ done_if player.old.is_open }
    ensures same { IsUnchanged player.old player.new }
    ensures refused { result ≡ negsuc 0 → levels.new ≡ levels.old }
{
    show(player, levels, LivePlayer::levels)
}

/// Writes red, green and blue of all pixels, row by row. Returns 0, or -1 if the player is closed.
#[unsafe(no_mangle)]
pub extern "C" fn ribjasper_player_picture(
    player: &mut Playing,
    bytes: &mut [u8; PICTURE_BYTES],
) -> i32
    ensures shows { result ≡ pos 0
        → PlayersShow player.old.handle.players (λ now. ArePictureBytes bytes.new now) }
    ensures answer { result ≡ done_if player.old.is_open }
    ensures same { IsUnchanged player.old player.new }
    ensures refused { result ≡ negsuc 0 → bytes.new ≡ bytes.old }
{
    show(
        player,
        bytes,
        |live, bytes| write_picture(&live.screen, bytes),
    )
}

/// Writes the number of the border's colour. Returns 0, or -1 if the player is closed.
#[unsafe(no_mangle)]
pub extern "C" fn ribjasper_player_border(player: &mut Playing, border: &mut u8) -> i32
    ensures shows { result ≡ pos 0 → PlayersShow player.old.handle.players (λ now. border.new ≡ now.border) }
    ensures answer { result ≡ done_if player.old.is_open }
    ensures same { IsUnchanged player.old player.new }
    ensures refused { result ≡ negsuc 0 → border.new ≡ border.old }
{
    show(player, border, |live, border| *border = live.border())
}

/// Writes how many pixels further right and further down in the memory the screen begins. Returns 0, or -1 if
/// the player is closed.
#[unsafe(no_mangle)]
pub extern "C" fn ribjasper_player_offsets(
    player: &mut Playing,
    across: &mut u8,
    down: &mut u8,
) -> i32
    ensures shows { result ≡ pos 0
        → PlayersShow player.old.handle.players (λ now. (across.new ≡ now.h) × (down.new ≡ now.v)) }
    ensures answer { result ≡ done_if player.old.is_open }
    ensures same { IsUnchanged player.old player.new }
    ensures refused { result ≡ negsuc 0 → (across.new ≡ across.old) × (down.new ≡ down.old) }
{
    let mut offsets = (*across, *down);
    let answer = show(
        player,
        &mut offsets,
        |live, offsets| *offsets = live.offsets(),
    );
    (*across, *down) = offsets;
    answer
}
