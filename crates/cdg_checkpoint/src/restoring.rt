// Restoring a screen.
ghost use Rattle.std.specs.Prelude.{◌≡◌, ◌*◌, ◌<◌, All, length, drop, take};
ghost use Rattle.cdg_instructions.specs.Sizes.{colour_values, screen_pixels};
ghost use Rattle.cdg_screen.specs.Memory.{seen};
ghost use Rattle.cdg_screen.specs.Standing.{rows_in};
ghost use Rattle.raw_subcode.specs.Sizes.{symbols_a_slot};
ghost use Rattle.rw_interleave.specs.Interleave.{packs_kept_back};
ghost use Rattle.cdg_checkpoint.specs.Checkpoint.{checkpoint_in, standing_in};
ghost use Rattle.cdg_checkpoint.specs.Table.{IsCheckpointFile, file_size};

use crate::fields::{ACROSS, BORDER, COLOURS, DOWN, LEVELS, MEMORY, SLOTS, byte, short_number};
use cdg_screen::PlainScreen;
use raw_subcode::SYMBOLS_A_SLOT;

/// Slot k of the last seven of a checkpoint's file, the oldest first.
pub(crate) fn slot_in(bytes: &[u8], k: usize) -> [u8; SYMBOLS_A_SLOT]
    requires file { length bytes.now ≡ file_size }
    requires k { k < packs_kept_back }
    ensures { result ≡ take symbols_a_slot (drop (symbols_a_slot * k) (checkpoint_in bytes.now).slots) }
{
    let mut slot = [0; SYMBOLS_A_SLOT];
    let first = SLOTS + SYMBOLS_A_SLOT * k;
    slot.copy_from_slice(&bytes[first..first + SYMBOLS_A_SLOT]);
    slot
}

/// Restores the screen from the valid file of a checkpoint.
pub(crate) fn restore(screen: &mut PlainScreen, bytes: &[u8])
    requires { IsCheckpointFile bytes.now }
    ensures { seen screen.new ≡ standing_in bytes.now }
{
    screen.restore(
        pixels(bytes),
        byte(bytes, BORDER),
        &colours(bytes),
        &levels(bytes),
        (byte(bytes, ACROSS), byte(bytes, DOWN)),
    );
}

// The pixels of the memory, row by row.
fn pixels(bytes: &[u8]) -> &[u8]
    requires { IsCheckpointFile bytes.now }
    ensures count { length result.now ≡ screen_pixels }
    ensures range { All (λ pixel. pixel < 16) result.now }
    ensures rows { rows_in result.now ≡ (standing_in bytes.now).memory }
{
    &bytes[MEMORY..BORDER]
}

fn colours(bytes: &[u8]) -> [u16; 16]
    requires { IsCheckpointFile bytes.now }
    ensures colours { result ≡ (standing_in bytes.now).colours }
    ensures range { All (λ colour. colour < colour_values) result }
{
    let mut colours = [0; 16];
    for k in 0..16 {
        colours[k] = short_number(bytes, COLOURS + 2 * k);
    }
    colours
}

fn levels(bytes: &[u8]) -> [u8; 16]
    requires { IsCheckpointFile bytes.now }
    ensures levels { result ≡ (standing_in bytes.now).levels }
    ensures range { All (λ level. level < 64) result }
{
    let mut levels = [0; 16];
    for k in 0..16 {
        levels[k] = byte(bytes, LEVELS + k);
    }
    levels
}
