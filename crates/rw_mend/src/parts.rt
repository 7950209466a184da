// The part of a block that is chosen among readings.
ghost use Rattle.std.specs.Prelude.{◌≡◌, ◌<◌, ◌≤◌, ◌/◌, [], length, None, slice_index, slice_index_or};
ghost use Rattle.std.specs.Str.{bytes_eq};
ghost use Rattle.raw_subcode.specs.Sizes.{block_bytes};
ghost use Rattle.rw_mend.specs.Chosen.{channels_of, completed, has_symbol, matches_of, symbol_or};
ghost use Rattle.rw_mend.specs.HeldReadings.{matches_in, part_of};

use raw_subcode::BLOCK_BYTES;

/// A part of a block.
#[derive(Clone, Copy)]
pub(crate) enum BlockPart<'a> {
    /// Channels P and Q.
    Channels,
    /// The symbols, some of which are known.
    Symbols(&'a [Option<u8>; BLOCK_BYTES]),
}

impl<'a> BlockPart<'a> {
    /// The number of known symbols that a block has.
    pub(crate) fn matches(&self, block: &[u8]) -> usize
        requires { length block.now ≡ block_bytes }
        ensures value { result ≡ matches_in self.now block.now }
        ensures bound { result ≤ block_bytes }
    {
        match self {
            BlockPart::Channels => 0,
            BlockPart::Symbols(known) => matches(known, block),
        }
    }

    /// This part of a block: a number for each byte.
    pub(crate) fn of(&self, block: &[u8]) -> [u8; BLOCK_BYTES]
        requires block { length block.now ≡ block_bytes }
        ensures { result ≡ part_of self.now block.now }
    {
        match self {
            BlockPart::Channels => channels(block),
            BlockPart::Symbols(known) => symbols(known, block),
        }
    }
}

fn matches(known: &[Option<u8>; BLOCK_BYTES], block: &[u8]) -> usize
    requires { length block.now ≡ block_bytes }
    ensures value { result ≡ matches_of known.now block.now }
    ensures bound { result ≤ block_bytes }
{
    let mut matches = 0;
    for k in 0..BLOCK_BYTES {
        if has_symbol(known[k], block[k]) {
            matches += 1;
        }
    }
    matches
}

fn has_symbol(known: Option<u8>, byte: u8) -> bool
    ensures { result ≡ has_symbol known byte }
{
    match known {
        Some(symbol) => byte % 64 == symbol,
        None => false,
    }
}

fn channels(block: &[u8]) -> [u8; BLOCK_BYTES]
    requires { length block.now ≡ block_bytes }
    ensures { result ≡ channels_of block.now }
{
    let mut channels = [0; BLOCK_BYTES];
    for k in 0..BLOCK_BYTES {
        channels[k] = block[k] / 64;
    }
    channels
}

fn symbols(known: &[Option<u8>; BLOCK_BYTES], block: &[u8]) -> [u8; BLOCK_BYTES]
    requires { length block.now ≡ block_bytes }
    ensures { result ≡ completed known.now block.now }
{
    let mut symbols = [0; BLOCK_BYTES];
    for k in 0..BLOCK_BYTES {
        symbols[k] = symbol_or(known[k], block[k]);
    }
    symbols
}

/// The symbol that is known, or else that of a byte.
#[inline]
pub(crate) fn symbol_or(known: Option<u8>, byte: u8) -> u8
    ensures { result ≡ symbol_or known byte }
{
    match known {
        Some(symbol) => symbol,
        None => byte % 64,
    }
}

/// Whether two parts are the same. A loop over all numbers is faster than one that stops early.
pub(crate) fn are_same(one: &[u8; BLOCK_BYTES], other: &[u8; BLOCK_BYTES]) -> bool
    ensures { result ≡ bytes_eq one.now other.now }
{
    let mut same = true;
    for k in 0..BLOCK_BYTES {
        same &= one[k] == other[k];
    }
    same
}
