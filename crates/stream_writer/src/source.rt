// The sources of the packs of a stream.
ghost use Rattle.std.specs.Prelude.{◌≡◌, ◌↔◌, ◌<◌, ℕ, List, Option, IsNone, unwrap_or, true, false};
ghost use Rattle.raw_subcode.specs.Sizes.{slots_a_block};
ghost use Rattle.rw_code.specs.Packs.{idle_pack};
ghost use Rattle.stream_writer.specs.Given.{ComesLater};

use rw_code::{Pack, SYMBOLS};

/// An endless source of packs.
pub trait PackSource {
    /// Which packs are possible: pack n from now on, counted from 0, may be this pack.
    ghost comes: { Self → ℕ → List ℕ → Type 0 };

    /// The next pack, or `None` if it is idle.
    fn next_pack(&mut self) -> Option<Pack>
        ensures pack { comes self.old 0 (unwrap_or result idle_pack) }
        ensures later { ComesLater (comes self.old) 1 (comes self.new) };

    /// Skips the packs of a block if the source knows that all of them are idle, and returns whether it did so. The
    /// default skips nothing.
    #[inline]
    fn pass_idle(&mut self) -> bool
        ensures idle { result ≡ true → (k : ℕ) → k < slots_a_block → comes self.old k idle_pack }
        ensures later { result ≡ true → ComesLater (comes self.old) slots_a_block (comes self.new) }
        ensures stays { result ≡ false → self.new ≡ self.old }
    {
        false
    }
}

/// The pack, or `None` if it is idle.
pub fn unless_idle(pack: Pack) -> Option<Pack>
    ensures pack { unwrap_or result idle_pack ≡ pack }
    ensures none { IsNone result ↔ (pack ≡ idle_pack) }
{
    if pack.word().bytes() == [0; SYMBOLS] {
        None
    } else {
        Some(pack)
    }
}
