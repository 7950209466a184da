// The packs of a `.cdg` file: their number, and a source of them.
ghost use Rattle.std.specs.Prelude.{◌≡◌, length, unwrap_or};
ghost use Rattle.raw_subcode.specs.Channels.{symbols_of};
ghost use Rattle.cdg_instructions.specs.MadeGood.{IsMadeGood};
ghost use Rattle.rw_code.specs.Packs.{idle_pack};
ghost use Rattle.cdg_press.specs.Pressed.{pack_bytes};
ghost use Rattle.cdg_press.specs.Refusals.{IsCounted, IsShort};

use crate::stops::PressStop;
use gf64::Sym;
use rw_code::{Pack, SYMBOLS, Word, words_have_24_symbols};
use stream_writer::{PackSource, unless_idle};

/// The number of bytes of a pack in a file: one for each symbol.
pub(crate) const PACK_BYTES: usize = SYMBOLS;

pub(crate) fn whole_packs_of(cdg: &[u8]) -> Result<u32, PressStop>
    requires { IsShort cdg.now }
    ensures { IsCounted cdg.now result }
{
    let packs = (cdg.len() / PACK_BYTES) as u32;
    if cdg.len() % PACK_BYTES != 0 {
        return Err(PressStop::PackTorn { pack: packs });
    }
    Ok(packs)
}

/// A source of idle packs, then the packs of a file with correct parity, and then idle packs again.
#[derive(Drop)]
pub(crate) struct FileSource<'a> {
    /// The number of idle packs before the packs of the file.
    pub(crate) wait: u32,
    /// The packs of the file that are still to come.
    pub(crate) rest: &'a [u8],
}

impl<'a> PackSource for FileSource<'a> {
    ghost use Rattle.cdg_press.specs.Pressed.{IsPackAfter};

    ghost comes = { λ s n pack. IsPackAfter s.wait s.rest.now n pack };

    fn next_pack(&mut self) -> Option<Pack> {
        if self.wait > 0 {
            self.wait -= 1;
            return None;
        }
        if self.rest.len() < PACK_BYTES {
            return None;
        }
        let (pack, rest) = self.rest.split_at(PACK_BYTES);
        self.rest = rest;
        made_good(pack)
    }
}

// The codeword of the symbols of a pack, with correct parity, or `None` if it is idle. Most packs of a file are zeros.
// They are detected first, and idle packs are detected without computing sums.
fn made_good(pack: &[u8]) -> Option<Pack>
    requires { length pack.now ≡ pack_bytes }
    ensures { IsMadeGood (symbols_of pack.now) (unwrap_or result idle_pack) }
{
    let mut bytes = [0; PACK_BYTES];
    bytes.copy_from_slice(pack);
    let zeros = bytes == [0; PACK_BYTES];
    if zeros {
        return None;
    }
    let word = Word::new(&bytes);
    if word.bytes() == [0; PACK_BYTES] {
        return None;
    }
    match Pack::check(&word) {
        Some(good) => Some(good),
        None => unless_idle(sealed(&word)),
    }
}

// The codeword with the symbols of a word, except its parity.
fn sealed(word: &Word) -> Pack
    ensures { IsMadeGood word.now result }
{
    // A law: a word has all the symbols that are read.
    words_have_24_symbols(word);
    let head = [word.get(0), word.get(1)];
    let mut body = [Sym::default(); 16];
    for i in 0..16 {
        body[i] = word.get(4 + i);
    }
    Pack::seal(head, body)
}
