// The next block of an input.
ghost use Rattle.std.specs.Prelude.{◌≡◌, List, None, ℕ};
ghost use Rattle.std.specs.Io.KnownBytes.{Keeps};
ghost use Rattle.cdg_io.specs.Change.{change};
ghost use Rattle.raw_subcode.specs.Sizes.{block_bytes};
ghost use Rattle.rw_merge.specs.Merging.{read_input};
ghost use Rattle.rw_merge.specs.Steps.{AsksFor};

use cdg_io::{Failed, Piece, Sink, Source, Stage, fill};
use raw_subcode::BLOCK_BYTES;

// The block that was fed last.
#[derive(Drop)]
struct KeptBlock {
    bytes: [u8; BLOCK_BYTES],
}

impl Stage for KeptBlock {
    type Item = [u8; BLOCK_BYTES];

    type Out = Piece;

    ghost next = { λ _ block. record { bytes = block } };

    ghost gives = { λ _ _. None };

    #[inline]
    fn feed(&mut self, block: &[u8; BLOCK_BYTES]) -> Option<Piece> {
        self.bytes = *block;
        None
    }
}

/// Reads a block like `fill`, or takes it from the buffer of the source. Before a read, it asks the output to write its
/// waiting bytes.
///
/// # Errors
/// `Failed` if a read failed: less than a block was consumed.
#[inline]
pub(crate) fn next_block<S: Source, K: Sink>(
    source: &mut S,
    block: &mut [u8; BLOCK_BYTES],
    out: &mut K,
) -> Result<usize, Failed>
    ensures asks { AsksFor block_bytes (read_input S.Source source.old source.new)
        (change S.faults source.old source.new) result block.new }
    ensures keeps { Keeps (K.held out.old) (K.held out.new) }
    ensures no_write_fault { K.faults out.new ≡ K.faults out.old }
{
    let mut kept = KeptBlock { bytes: *block };
    let mut given = None;
    if source.feed_at_hand(&mut kept, &mut given) {
        *block = kept.bytes;
        return Ok(BLOCK_BYTES);
    }
    out.pass_waiting();
    fill(source, block)
}

/// Reads a byte like `fill`.
///
/// # Errors
/// `Failed` if a read failed.
pub(crate) fn next_byte<S: Source>(source: &mut S) -> Result<usize, Failed>
    ensures { (byte : List ℕ) × AsksFor 1 (read_input S.Source source.old source.new)
        (change S.faults source.old source.new) result byte }
{
    fill(source, &mut [0; 1])
}
