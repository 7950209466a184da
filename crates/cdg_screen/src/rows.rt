// Rows of the screen and of its memory, or some columns of them.
ghost use Rattle.std.specs.Prelude.{◌≡◌, ◌<◌, ◌≤◌, ◌+◌, ℕ, [], All, IfSome, length, slice_index, slice_index_or};
ghost use Rattle.cdg_instructions.specs.Sizes.{colour_count, screen_height, screen_width};
ghost use Rattle.cdg_screen.specs.Columns.{AreColumns};
ghost use Rattle.cdg_screen.specs.Memory.{at, seen};
ghost use Rattle.cdg_screen.specs.Standing.{screen_pixel};

use crate::PlainScreen;
use crate::memory::Memory;
use crate::row_parts::{fill, wrapped, write_at};
use cdg_instructions::{SCREEN_HEIGHT, SCREEN_WIDTH, TILE_HEIGHT, TILE_WIDTH};

impl PlainScreen {
    /// Writes the 300 colour numbers of row `y` of the screen. `y` is below 216.
    pub fn write_row(&self, y: usize, row: &mut [u8; SCREEN_WIDTH])
        requires { y < screen_height }
        ensures pixels { (x : ℕ) → x < screen_width
            → slice_index row.new x ≡ screen_pixel (seen self.now) x y }
        ensures range { (x : ℕ) → slice_index row.new x < colour_count }
    {
        self.write_columns(0, y, row);
    }

    /// Writes the colour numbers of row `y` of the screen, from column `x` on, one to each byte of `columns`. All of
    /// them must be on the screen. It is inlined, since a constant place and count simplify it.
    #[inline(always)]
    pub fn write_columns(&self, x: usize, y: usize, columns: &mut [u8])
        requires width { x + length columns.old ≤ screen_width }
        requires height { y < screen_height }
        ensures pixels { (i : ℕ) → i < length columns.old
            → slice_index columns.new i ≡ screen_pixel (seen self.now) (x + i) y }
        ensures range { (i : ℕ) → slice_index columns.new i < colour_count }
    {
        let end = columns.len();
        // The window is between these two columns, and the border outside.
        let left = TILE_WIDTH.saturating_sub(x).min(end);
        let right = (SCREEN_WIDTH - TILE_WIDTH).saturating_sub(x).min(end);
        if y < TILE_HEIGHT || y >= SCREEN_HEIGHT - TILE_HEIGHT || left == right {
            fill(columns, 0, end, self.border);
            return;
        }
        let across = x + left + usize::from(self.h);
        let down = y + usize::from(self.v);
        fill(columns, 0, left, self.border);
        self.memory
            .copy_columns(across, down, &mut columns[left..right]);
        fill(columns, right, end, self.border);
    }

    /// The colour numbers that `write_columns` writes, as a slice of the memory. `None` if they include the
    /// border or wrap around.
    pub fn columns(&self, x: usize, y: usize, count: usize) -> Option<&[u8]>
        requires width { x + count ≤ screen_width }
        requires height { y < screen_height }
        ensures { IfSome result (λ columns. AreColumns (seen self.now) x y count columns.now) }
    {
        if x < TILE_WIDTH || x + count > SCREEN_WIDTH - TILE_WIDTH {
            return None;
        }
        if y < TILE_HEIGHT || y >= SCREEN_HEIGHT - TILE_HEIGHT {
            return None;
        }
        let across = x + usize::from(self.h);
        let down = y + usize::from(self.v);
        let columns = self.memory.columns(across, down, count)?;
        Some(columns)
    }

    /// The 300 colour numbers of row `y` of the memory. `y` is below 216.
    pub fn memory_row(&self, y: usize) -> [u8; SCREEN_WIDTH]
        requires { y < screen_height }
        ensures row { result ≡ slice_index_or (seen self.now).memory y [] }
        ensures size { length result ≡ screen_width }
        ensures range { All (λ pixel. pixel < colour_count) result }
    {
        self.memory.row(y)
    }
}

impl Memory {
    fn row(&self, y: usize) -> [u8; SCREEN_WIDTH]
        requires { y < screen_height }
        ensures size { length result ≡ screen_width }
        ensures pixels { (x : ℕ) → x < screen_width → slice_index result x ≡ at self.now x y }
        ensures range { All (λ pixel. pixel < colour_count) result }
    {
        let mut row = [0; SCREEN_WIDTH];
        self.copy_columns(0, y, &mut row);
        row
    }

    // Pixels of row y, from column x on, unless they wrap around.
    fn columns(&self, x: usize, y: usize, count: usize) -> Option<&[u8]>
        requires width { x + count ≤ screen_width }
        requires height { y < screen_height }
        ensures size { IfSome result (λ columns. length columns.now ≡ count) }
        ensures pixels { IfSome result (λ columns. (i : ℕ) → i < count
            → slice_index columns.now i ≡ at self.now (x + i) y) }
        ensures range { IfSome result (λ columns. (i : ℕ) → slice_index columns.now i < colour_count) }
    {
        let row = &self.rows[wrapped(y + self.top, SCREEN_HEIGHT)];
        let first = wrapped(x + self.left, SCREEN_WIDTH);
        if count > SCREEN_WIDTH - first {
            return None;
        }
        Some(&row[first..first + count])
    }

    fn copy_columns(&self, x: usize, y: usize, columns: &mut [u8])
        requires width { x + length columns.old ≤ screen_width }
        requires height { y < screen_height }
        ensures pixels { (i : ℕ) → i < length columns.old
            → slice_index columns.new i ≡ at self.now (x + i) y }
        ensures range { (i : ℕ) → slice_index columns.new i < colour_count }
    {
        let row = &self.rows[wrapped(y + self.top, SCREEN_HEIGHT)];
        let first = wrapped(x + self.left, SCREEN_WIDTH);
        let count = columns.len().min(SCREEN_WIDTH - first);
        let rest = columns.len() - count;
        write_at(columns, 0, &row[first..first + count]);
        // Pixels past the end of the row continue at its start.
        if rest > 0 {
            write_at(columns, count, &row[..rest]);
        }
    }
}
