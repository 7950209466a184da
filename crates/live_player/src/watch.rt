// Watching what instructions change.
ghost use Rattle.std.specs.Prelude.{◌≡◌, IsTrue};
ghost use Rattle.cdg_screen.specs.Touched.{tile_touched};
ghost use Rattle.live_player.specs.Changes.{join, offsets_by, sees, touched_change, watch_from, HoldsTile};

use crate::change::{ScreenChange, touched_change};
use cdg_instructions::{Effect, Instr};
use cdg_screen::{Touched, touches};

/// The changes so far, and where in the memory the screen begins now.
#[derive(Clone, Copy)]
pub struct Watch {
    pub change: ScreenChange,
    pub across: u8,
    pub down: u8,
}

impl Watch {
    /// A watch before any change.
    pub fn from(offsets: (u8, u8)) -> Watch
        ensures { result ≡ watch_from offsets.0 offsets.1 }
    {
        Watch {
            change: ScreenChange::none(),
            across: offsets.0,
            down: offsets.1,
        }
    }

    /// Adds the changes of an instruction.
    pub fn see(&mut self, instr: &Instr)
        ensures { self.new ≡ sees self.old instr.now }
    {
        let change = touched_change(touches(instr), self.across, self.down);
        let (across, down) = offsets_by(&instr.effect(), self.across, self.down);
        *self = Watch {
            change: self.change.join(&change),
            across,
            down,
        };
    }
}

impl Watch {
    /// Adds the changes of an instruction that touches this tile. Most tiles are inside the rectangle already, and
    /// need no new one.
    #[inline(always)]
    pub fn see_tile(&mut self, row: u8, column: u8)
        ensures { self.new ≡ record {
          change = join self.old.change
              (touched_change (tile_touched row column) self.old.across self.old.down);
          across = self.old.across;
          down = self.old.down;
        } }
    {
        if !self.holds_tile(row, column) {
            self.add_tile(row, column);
        }
    }

    // Whether the rectangle of changes contains a tile of the memory.
    #[inline(always)]
    fn holds_tile(&self, row: u8, column: u8) -> bool
        ensures { IsTrue result → HoldsTile self.now row column }
    {
        let left = 6 * u64::from(column);
        let top = 12 * u64::from(row);
        let across = u64::from(self.across);
        let down = u64::from(self.down);
        column < 50
            && row < 18
            && u64::from(self.change.left) + across <= left
            && left + 6 <= u64::from(self.change.right) + across
            && u64::from(self.change.top) + down <= top
            && top + 12 <= u64::from(self.change.bottom) + down
    }

    #[inline(never)]
    fn add_tile(&mut self, row: u8, column: u8)
        ensures { self.new ≡ record {
          change = join self.old.change
              (touched_change (tile_touched row column) self.old.across self.old.down);
          across = self.old.across;
          down = self.old.down;
        } }
    {
        let touched = touched_tile(row, column);
        let change = touched_change(touched, self.across, self.down);
        self.change = self.change.join(&change);
    }
}

// A tile of the memory, or nothing if the tile is outside.
fn touched_tile(row: u8, column: u8) -> Touched
    ensures { result ≡ tile_touched row column }
{
    if row < 18 && column < 50 {
        Touched::Tile { row, column }
    } else {
        Touched::Nothing
    }
}

// The offsets of the screen after an effect.
fn offsets_by(effect: &Effect, across: u8, down: u8) -> (u8, u8)
    ensures { result ≡ offsets_by effect.now (across, down) }
{
    match effect {
        Effect::Scroll { scroll } => (scroll.h, scroll.v),
        _ => (across, down),
    }
}
