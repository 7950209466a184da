// A basis of the differences between pixels.
ghost use Rattle.std.specs.Prelude.{◌≡◌, ℕ, ◌+◌, ◌-◌, ◌*◌, ◌<◌, ◌≤◌, ◌++◌, map, max, [], ◌∷◌, List, length, slice_index, IsTrue, false};
ghost use Rattle.cdg_instructions.specs.Instruction.{IsTilePixels};
ghost use Rattle.bit_lists.specs.Counting.{below};
ghost use Rattle.tile_author.specs.Plan.{is_combination, basis, tile_lines, planned, weight};
ghost use Rattle.tile_author.specs.Table.{IsBasis, basis_of_lines};
ghost use Rattle.tile_author.specs.Sizes.{most_steps, number_count};
ghost use Rattle.cdg_instructions.specs.Sizes.{tile_height, tile_width};

use arrayvec::ArrayVec;
use cdg_instructions::{Instr, PIXELS, TILE_HEIGHT, TILE_WIDTH};
use std::marker::Model;

/// The maximum number of instructions for a tile: at most this many numbers of four bits are independent.
pub const MOST_STEPS: usize = 4;

/// The number of values of four bits.
pub(crate) const NUMBERS: usize = 16;

/// Independent numbers of four bits, in the order of their addition, and for each number of four bits the
/// selection of members whose combination is this number, if any.
///
/// A contract sees the list of the members.
#[derive(Drop)]
pub(crate) struct Basis {
    members: ArrayVec<u8, MOST_STEPS>,
    selections: [Option<u8>; NUMBERS],
}

impl Model for Basis {
    ghost Value = { List ℕ };

    ghost view = { λ b. b.members.items };

    ghost invariant = { λ b. IsBasis b.members.items b.selections };
}

impl Basis {
    /// The basis of the differences of the pixels from the first pixel. A tile of one colour has no members, and a line
    /// that equals the previous line adds none.
    pub(crate) fn of(pixels: &[u8; PIXELS]) -> Basis
        requires { IsTilePixels pixels.now }
        ensures { result ≡ basis pixels.now }
    {
        let mut selections = [None; NUMBERS];
        selections[0] = Some(0);
        let mut basis = Basis {
            members: ArrayVec::new(),
            selections,
        };
        // No early exit, so that the loop can be vectorized.
        let mut is_one_colour = true;
        for pixel in pixels {
            is_one_colour &= *pixel == pixels[0];
        }
        if is_one_colour {
            return basis;
        }
        basis.offer_line(pixels, 0);
        for line in 1..TILE_HEIGHT {
            if !is_line_before(pixels, line) {
                basis.offer_line(pixels, line);
            }
        }
        basis
    }

    // Adds the differences of a line's pixels that are not combinations of members.
    fn offer_line(&mut self, pixels: &[u8; PIXELS], line: usize)
        requires tile { IsTilePixels pixels.now }
        requires line { line < tile_height }
        requires before { self.old ≡ basis_of_lines line pixels.now }
        ensures { self.new ≡ basis_of_lines (line + 1) pixels.now }
    {
        for i in 0..TILE_WIDTH {
            let difference = pixels[0] ^ pixels[TILE_WIDTH * line + i];
            if self.selections[usize::from(difference)].is_some() {
                continue;
            }
            if self.members.is_empty() {
                self.selections[usize::from(difference)] = Some(1);
                self.members.push(difference);
            } else {
                self.take_further(difference);
            }
        }
    }

    /// The least number of instructions that draw pixels with this basis on a tile of one colour.
    #[inline]
    pub(crate) fn weight(&self) -> usize
        ensures value { result ≡ max 1 (length self.now) }
        ensures some { 0 < result }
        ensures most { result ≤ most_steps }
    {
        self.members.len().max(1)
    }

    // Adds a further member. It is not inlined, since few tiles have more than two colours.
    #[inline(never)]
    fn take_further(&mut self, member: u8)
        requires member { member < number_count }
        requires independent { is_combination self.old member ≡ false }
        ensures { self.new ≡ self.old ++ member ∷ [] }
    {
        let bit = 1 << self.members.len();
        let mut selections = [None; NUMBERS];
        for number in 0..NUMBERS {
            let other = self.selections[usize::from(member) ^ number];
            selections[number] = match (self.selections[number], other) {
                (Some(selection), _) => Some(selection),
                (None, Some(selection)) => Some(bit + selection),
                (None, None) => None,
            };
        }
        self.selections = selections;
        self.members.push(member);
    }

    // The six bits of a line in the instruction for member j.
    fn line(&self, pixels: &[u8; PIXELS], line: usize, j: usize) -> u8
        requires tile { IsTilePixels pixels.now }
        requires members { self.now ≡ basis pixels.now }
        requires line { line < tile_height }
        requires member { j < most_steps }
        ensures { result ≡ slice_index (tile_lines pixels.now j) line }
    {
        let mut bits = 0;
        for i in 0..TILE_WIDTH {
            let difference = pixels[0] ^ pixels[TILE_WIDTH * line + i];
            let selection = self.selections[usize::from(difference)].unwrap_or(0);
            bits = 2 * bits + (selection >> j & 1);
        }
        bits
    }

    // The twelve lines of the instruction for member j. Without members all bits are 0.
    fn lines(&self, pixels: &[u8; PIXELS], j: usize) -> [u8; TILE_HEIGHT]
        requires tile { IsTilePixels pixels.now }
        requires members { self.now ≡ basis pixels.now }
        requires member { j < most_steps }
        ensures { result ≡ tile_lines pixels.now j }
    {
        let mut lines = [0; TILE_HEIGHT];
        if self.members.is_empty() {
            return lines;
        }
        lines[0] = self.line(pixels, 0, j);
        for i in 1..TILE_HEIGHT {
            lines[i] = if is_line_before(pixels, i) {
                lines[i - 1]
            } else {
                self.line(pixels, i, j)
            };
        }
        lines
    }

    /// Instruction j of those that draw the pixels, or that combine them with the old pixels.
    pub(crate) fn instruction(
        &self,
        pixels: &[u8; PIXELS],
        draws: bool,
        row: u8,
        column: u8,
        j: usize,
    ) -> Instr
        requires tile { IsTilePixels pixels.now }
        requires members { self.now ≡ basis pixels.now }
        requires member { j < most_steps }
        ensures { result ≡ planned draws row column pixels.now j }
    {
        let colour0 = if j == 0 { pixels[0] } else { 0 };
        let colour1 = colour0 ^ self.members.get(j).copied().unwrap_or(0);
        let lines = self.lines(pixels, j);
        if draws && j == 0 {
            Instr::SetTile {
                colour0,
                colour1,
                row,
                column,
                lines,
            }
        } else {
            Instr::XorTile {
                colour0,
                colour1,
                row,
                column,
                lines,
            }
        }
    }

    /// The instructions that draw the pixels, or that combine them with the old pixels.
    pub(crate) fn instructions(
        &self,
        pixels: &[u8; PIXELS],
        draws: bool,
        row: u8,
        column: u8,
    ) -> ArrayVec<Instr, MOST_STEPS>
        requires tile { IsTilePixels pixels.now }
        requires members { self.now ≡ basis pixels.now }
        ensures { result.items ≡ map (planned draws row column pixels.now) (below (weight pixels.now)) }
    {
        let mut instrs = ArrayVec::new();
        for j in 0..self.weight() {
            instrs.push(self.instruction(pixels, draws, row, column, j));
        }
        instrs
    }
}

// Whether a line equals the previous line. The loop has no early exit, so that it can be vectorized.
#[inline]
fn is_line_before(pixels: &[u8; PIXELS], line: usize) -> bool
    requires first { 0 < line }
    requires last { line < tile_height }
    ensures { IsTrue result → (i : ℕ) → i < tile_width
        → slice_index pixels.now (tile_width * line + i)
        ≡ slice_index pixels.now (tile_width * (line - 1) + i) }
{
    let mut same = true;
    for i in 0..TILE_WIDTH {
        same &= pixels[TILE_WIDTH * line + i] == pixels[TILE_WIDTH * (line - 1) + i];
    }
    same
}
