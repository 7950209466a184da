// From blocks to their planar forms, and back.
ghost use Rattle.std.specs.Prelude.{◌≡◌, Some};
ghost use Rattle.raw_subcode.specs.PlanarBytes.{block_from_planar, planar_form};

use cdg_io::{Piece, Stage};
use raw_subcode::{BLOCK_BYTES, Block};

/// A stage that converts each block of 96 bytes to its planar form.
#[derive(Clone, Copy)]
pub struct PlanarForms;

impl Stage for PlanarForms {
    type Item = [u8; BLOCK_BYTES];

    type Out = Piece;

    ghost next = { λ s _. s };

    ghost gives = { λ _ block. Some (planar_form block) };

    fn feed(&mut self, block: &[u8; BLOCK_BYTES]) -> Option<Piece> {
        Some(Piece::new().with(&Block::from_bytes(block).to_planar()))
    }

    fn emit(&mut self, block: &[u8; BLOCK_BYTES], out: &mut Option<Piece>) {
        leave(&Block::from_bytes(block).to_planar(), out);
    }
}

/// A stage that converts each planar form of 96 bytes to its block.
#[derive(Clone, Copy)]
pub struct BlockForms;

impl Stage for BlockForms {
    type Item = [u8; BLOCK_BYTES];

    type Out = Piece;

    ghost next = { λ s _. s };

    ghost gives = { λ _ planar. Some (block_from_planar planar) };

    fn feed(&mut self, planar: &[u8; BLOCK_BYTES]) -> Option<Piece> {
        Some(Piece::new().with(&Block::from_planar(planar).bytes()))
    }

    fn emit(&mut self, planar: &[u8; BLOCK_BYTES], out: &mut Option<Piece>) {
        leave(&Block::from_planar(planar).bytes(), out);
    }
}

// Leaves these bytes in `out`. If `out` has a piece, it is reused.
#[inline]
fn leave(bytes: &[u8; BLOCK_BYTES], out: &mut Option<Piece>)
    ensures { out.new ≡ Some bytes.now }
{
    match out {
        Some(piece) => piece.set(bytes),
        None => *out = Some(Piece::new().with(bytes)),
    }
}
