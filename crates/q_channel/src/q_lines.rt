// The stage that writes the line of each block.
ghost use Rattle.std.specs.Prelude.{◌≡◌, ◌<◌, Some, if◌then◌else◌, is_err};
ghost use Rattle.bit_lists.specs.Bits.{bits_of_bytes};
ghost use Rattle.bit_lists.specs.Counting.{counted};
ghost use Rattle.raw_subcode.specs.Sizes.{most_units};
ghost use Rattle.q_channel.specs.QLine.{q_line};
ghost use Rattle.q_channel.specs.ReadingOf.{reading_of};
ghost use Rattle.q_channel.specs.QSteps.{q_next, q_give};

use crate::frame::FRAME_BYTES;
use crate::program::{is_program_frame, program_line};
use crate::{decode, line};
use cdg_io::{Piece, Stage};
use raw_subcode::{BLOCK_BYTES, Block, MOST_UNITS};

// The greatest block number that a line can have.
const LAST: u32 = MOST_UNITS - 1;

/// A stage that writes the line of the Q channel of each block, and counts the refused frames.
#[derive(Clone, Copy)]
pub struct QLines {
    /// The number of the next block.
    pub block: u32,
    /// How many frames were refused.
    pub bad: u32,
}

impl QLines {
    #[tactic(auto, unfolding(crate::specs::QSteps::q_next, crate::specs::QSteps::q_give))]
    fn put_line(&mut self, block: &[u8; BLOCK_BYTES], piece: &mut Piece)
        ensures next { self.new ≡ q_next self.old block.now }
        ensures gives { Some piece.new ≡ q_give self.old block.now }
    {
        let frame = Block::from_bytes(block).q_frame();
        let number = self.block.min(LAST);
        self.block = self.block.saturating_add(1);
        // Most blocks carry a frame of the program.
        if is_program_frame(&frame) {
            piece.set(&program_line(number, &frame));
        } else {
            self.put_reading(number, &frame, piece);
        }
    }

    // Writes the line of any frame, with the number of its block. It is a separate function, since frames of
    // the program do not need its variables.
    #[inline(never)]
    fn put_reading(&mut self, number: u32, frame: &[u8; FRAME_BYTES], piece: &mut Piece)
        requires { number < most_units }
        ensures block { self.new.block ≡ self.old.block }
        ensures bad { self.new.bad
            ≡ (if is_err (reading_of (bits_of_bytes frame.now)) then counted self.old.bad else self.old.bad) }
        ensures gives { piece.new ≡ q_line number (reading_of (bits_of_bytes frame.now)) }
    {
        let reading = decode(frame);
        if reading.is_err() {
            self.bad = self.bad.saturating_add(1);
        }
        *piece = line(number, &reading);
    }
}

impl Stage for QLines {
    type Item = [u8; BLOCK_BYTES];

    type Out = Piece;

    ghost next = { q_next };

    ghost gives = { q_give };

    fn feed(&mut self, block: &[u8; BLOCK_BYTES]) -> Option<Piece> {
        let mut piece = Piece::new();
        self.put_line(block, &mut piece);
        Some(piece)
    }

    fn emit(&mut self, block: &[u8; BLOCK_BYTES], out: &mut Option<Piece>) {
        match out {
            Some(piece) => self.put_line(block, piece),
            None => *out = self.feed(block),
        }
    }
}
