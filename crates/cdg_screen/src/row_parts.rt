// Parts of rows of pixels, which wrap around.
ghost use Rattle.std.specs.Prelude.{◌≡◌, ◌<◌, ◌≤◌, ◌+◌, ◌-◌, ◌*◌, ◌%◌, ◌&&◌, nat_le, nat_lt, if◌then◌else◌, ℕ, length, slice_index};

use cdg_instructions::TILE_WIDTH;

/// A place modulo the size, for a place below twice the size. It needs no division.
#[inline(always)]
pub(crate) fn wrapped(place: usize, size: usize) -> usize
    requires { place < 2 * size }
    ensures { result ≡ place % size }
{
    if place < size { place } else { place - size }
}

/// Fills the pixels from one place to another with a colour.
#[inline(always)]
pub(crate) fn fill(columns: &mut [u8], from: usize, to: usize, colour: u8)
    requires order { from ≤ to }
    requires room { to ≤ length columns.old }
    ensures { (i : ℕ) → slice_index columns.new i
        ≡ (if nat_le from i && nat_lt i to then colour else slice_index columns.old i) }
{
    // In a whole row, the border has this width at each side. A constant width avoids a call.
    if to - from == TILE_WIDTH {
        columns[from..from + TILE_WIDTH].fill(colour);
    } else {
        columns[from..to].fill(colour);
    }
}

/// Writes pixels from a place on.
pub(crate) fn write_at(columns: &mut [u8], place: usize, pixels: &[u8])
    requires { place + length pixels.now ≤ length columns.old }
    ensures { (i : ℕ) → slice_index columns.new i
        ≡ (if nat_le place i && nat_lt i (place + length pixels.now) then slice_index pixels.now (i - place)
        else slice_index columns.old i) }
{
    columns[place..place + pixels.len()].copy_from_slice(pixels);
}
