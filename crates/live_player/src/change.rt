// The part of the screen that may change.
ghost use Rattle.std.specs.Prelude.{◌≡◌, List};
ghost use Rattle.live_player.specs.Changes.{touched_change, join, no_change, rectangle, tile_change, changes_on, KeepsUnchanged};
ghost use Rattle.cdg_instructions.specs.declared.instr.Instr.{Instr};
ghost use Rattle.cdg_screen.specs.Standing.{IsWholeStanding, Standing, standing_after};

use cdg_screen::{Touched, untouched_stays};

/// A rectangle of the screen in which pixels may change, and whether colours of the table or levels may change. If
/// `left` is 300, the rectangle is empty.
#[repr(C)]
#[derive(Clone, Copy)]
pub struct ScreenChange {
    /// The first pixel from the left.
    pub left: u32,
    /// The first row from the top.
    pub top: u32,
    /// One more than the last pixel.
    pub right: u32,
    /// One more than the last row.
    pub bottom: u32,
    /// 1 if colours of the table may change, else 0.
    pub colours: u8,
    /// 1 if levels may change, else 0.
    pub levels: u8,
}

impl ScreenChange {
    /// Nothing changes.
    pub(crate) fn none() -> ScreenChange
        ensures { result ≡ no_change }
    {
        ScreenChange {
            left: 300,
            top: 216,
            right: 0,
            bottom: 0,
            colours: 0,
            levels: 0,
        }
    }

    /// The union of two changes: the smallest rectangle that contains both.
    pub(crate) fn join(&self, other: &ScreenChange) -> ScreenChange
        ensures { result ≡ join self.now other.now }
    {
        ScreenChange {
            left: self.left.min(other.left),
            top: self.top.min(other.top),
            right: self.right.max(other.right),
            bottom: self.bottom.max(other.bottom),
            colours: self.colours.max(other.colours),
            levels: self.levels.max(other.levels),
        }
    }
}

/// What may change on the screen if this part is touched. The screen begins `across` pixels further right and `down`
/// pixels further down in the memory.
pub fn touched_change(touched: Touched, across: u8, down: u8) -> ScreenChange
    ensures { result ≡ touched_change touched across down }
{
    match touched {
        Touched::Nothing => ScreenChange::none(),
        Touched::Tile { row, column } => tile_change(row, column, across, down),
        Touched::All => rectangle(6, 12, 294, 204),
        Touched::Border => rectangle(0, 0, 300, 216),
        Touched::Colours => ScreenChange {
            colours: 1,
            ..ScreenChange::none()
        },
        Touched::Levels => ScreenChange {
            levels: 1,
            ..ScreenChange::none()
        },
    }
}

// The part of the window that shows a tile of the memory.
fn tile_change(row: u8, column: u8, across: u8, down: u8) -> ScreenChange
    ensures { result ≡ tile_change row column across down }
{
    let x = 6 * u32::from(column);
    let y = 12 * u32::from(row);
    let across = u32::from(across);
    let down = u32::from(down);
    rectangle(
        x.saturating_sub(across).max(6),
        y.saturating_sub(down).max(12),
        (x + 6).saturating_sub(across).min(294),
        (y + 12).saturating_sub(down).min(204),
    )
}

// A rectangle, or no change if it is empty.
fn rectangle(left: u32, top: u32, right: u32, bottom: u32) -> ScreenChange
    ensures { result ≡ rectangle left top right bottom }
{
    if left < right && top < bottom {
        ScreenChange {
            left,
            top,
            right,
            bottom,
            colours: 0,
            levels: 0,
        }
    } else {
        ScreenChange::none()
    }
}

/// A law: instructions change only the part of the screen that is reported for them.
pub fn unchanged_stays()
    ensures { (now : Standing) (instrs : List Instr) → IsWholeStanding now
        → KeepsUnchanged (changes_on now instrs) now (standing_after now instrs) }
{
    untouched_stays();
}
