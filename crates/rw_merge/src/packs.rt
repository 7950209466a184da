// The packs of a pair of blocks.
ghost use Rattle.std.specs.Prelude.{◌≡◌, ◌≤◌, ◌<◌, ◌+◌, ◌++◌, length, replicate, is_none, if◌then◌else◌};
ghost use Rattle.std.specs.declared.option.Option.{Option};
ghost use Rattle.rw_interleave.specs.Texts.{entry_bytes};
ghost use Rattle.rw_merge.specs.Steps.{AreAgreedPacks};
ghost use Rattle.raw_subcode.specs.Sizes.{slots_a_block, symbols_a_slot};
ghost use Rattle.rw_code.specs.Packs.{idle_pack};

use crate::agree;
use cdg_io::Piece;
use raw_subcode::BLOCK_BYTES;
use rw_code::{Pack, SYMBOLS, Word};

/// The packs of a pair of blocks, and the number of words with no agreed codeword.
#[derive(Drop)]
pub(crate) struct Packs {
    pub(crate) bytes: Piece,
    pub(crate) bad: u32,
}

impl Packs {
    pub(crate) fn new() -> Packs {
        Packs {
            bytes: Piece::new(),
            bad: 0,
        }
    }

    /// Sets the packs to those agreed for the words that end with a pair of blocks, at most four words of
    /// each.
    pub(crate) fn set_agreed(&mut self, first: &[Word], second: &[Word])
        requires same { length first.now ≡ length second.now }
        requires few { length first.now ≤ 4 }
        ensures { AreAgreedPacks first.now second.now self.new }
    {
        self.bytes = Piece::new();
        self.bad = 0;
        for i in 0..first.len() {
            self.add(agree(&first[i], &second[i]));
        }
    }

    /// Sets the packs to those agreed for four pairs of words of zeros.
    #[inline]
    pub(crate) fn set_idle(&mut self)
        ensures { AreAgreedPacks (replicate slots_a_block idle_pack)
            (replicate slots_a_block idle_pack) self.new }
    {
        self.bytes.set_zeros(BLOCK_BYTES);
        self.bad = 0;
    }

    // Adds the agreed pack of a word, or zeros if there is none.
    fn add(&mut self, pack: Option<Pack>)
        requires bytes { length self.old.bytes ≤ 72 }
        requires bad { self.old.bad < 4 }
        ensures bytes { self.new.bytes ≡ self.old.bytes ++ entry_bytes pack }
        ensures size { length self.new.bytes ≤ length self.old.bytes + symbols_a_slot }
        ensures bad { self.new.bad ≡ self.old.bad + (if is_none pack then 1 else 0) }
    {
        match pack {
            Some(pack) => self.bytes.add(&pack.word().bytes()),
            None => {
                self.bytes.add(&[0; SYMBOLS]);
                self.bad += 1;
            }
        }
    }
}
