// The stage that reads the text packs of the lead-in.
ghost use Rattle.std.specs.Prelude.{◌≡◌, ◌≤◌, ◌<◌, ◌+◌, ◌-◌, ◌^◌, List, ℕ, None, min, replicate, take, true, All};
ghost use Rattle.raw_subcode.specs.Channels.{symbols_of};
ghost use Rattle.raw_subcode.specs.Sizes.{block_bytes};
ghost use Rattle.cdg_io.specs.Run.{run_state};
ghost use Rattle.disc_time.specs.Counts.{most_lead_in};
ghost use Rattle.cdtext_packs.specs.LeadIn.{lead_in_packs, lead_in_symbols};
ghost use Rattle.cdtext_packs.specs.TextSteps.{fresh_texts, offered, text_next, HasRead};

use crate::pack::TextPack;
use crate::{Offer, PACK_BYTES, TextReader, offers_keep_the_first};
use cdg_io::{Piece, Stage};
use raw_subcode::{BLOCK_BYTES, Block, SLOTS_A_BLOCK, SYMBOLS_A_SLOT, text_symbols};

/// Offers the four packs of each lead-in block to a reader, and counts the results.
#[derive(Drop)]
pub struct LeadInTexts {
    /// The number of lead-in blocks to come.
    pub left: u32,
    pub reader: TextReader,
    /// The number of good packs.
    pub good: u32,
    /// The number of packs with a wrong CRC.
    pub bad: u32,
    /// The number of packs of other text blocks than the first.
    pub other: u32,
}

impl LeadInTexts {
    /// A stage for a lead-in without blocks.
    pub fn start() -> LeadInTexts
        ensures { result ≡ fresh_texts 0 }
    {
        LeadInTexts {
            left: 0,
            reader: TextReader::new(),
            good: 0,
            bad: 0,
            other: 0,
        }
    }

    /// Starts again, with a lead-in of this many blocks.
    pub fn begin(&mut self, lead_in: u32)
        ensures { self.new ≡ fresh_texts lead_in }
    {
        self.left = lead_in;
        self.reader.reset();
        self.good = 0;
        self.bad = 0;
        self.other = 0;
    }

    // Counts the four packs of an idle block: their bytes are 0, so their CRC is wrong.
    #[inline]
    fn count_idle(&mut self)
        ensures { self.new ≡ record self.old { bad = min (self.old.bad + 4) (2 ^ 32 - 1) } }
    {
        self.bad = self.bad.saturating_add(4);
    }

    // Offers a pack to the reader, and counts the result.
    #[tactic(auto, unfolding(crate::specs::TextSteps::offered))]
    fn offer(&mut self, pack: &[u8; PACK_BYTES])
        ensures { self.new ≡ offered self.old pack.now }
    {
        match self.reader.offer(pack) {
            Offer::Kept | Offer::Again => self.good = self.good.saturating_add(1),
            Offer::BadCrc => self.bad = self.bad.saturating_add(1),
            Offer::OtherBlock => self.other = self.other.saturating_add(1),
        }
    }
}

// Whether all symbols of a block are 0. Most lead-ins carry no texts.
#[inline]
fn is_idle(block: &[u8; BLOCK_BYTES]) -> bool
    ensures { result ≡ true → symbols_of block.now ≡ replicate block_bytes 0 }
{
    let mut all = 0;
    for byte in block {
        all |= *byte;
    }
    all % 64 == 0
}

impl Stage for LeadInTexts {
    type Item = [u8; BLOCK_BYTES];

    type Out = Piece;

    ghost next = { text_next };

    ghost gives = { λ _ _. None };

    #[tactic(auto, unfolding(crate::specs::TextSteps::text_next))]
    fn feed(&mut self, block: &[u8; BLOCK_BYTES]) -> Option<Piece> {
        if self.left > 0 {
            self.left -= 1;
            if is_idle(block) {
                self.count_idle();
                return None;
            }
            let block = Block::from_bytes(block);
            self.offer(&block.text_pack(0));
            self.offer(&block.text_pack(1));
            self.offer(&block.text_pack(2));
            self.offer(&block.text_pack(3));
        }
        None
    }
}

/// A law: after a stream, the reader keeps for each number the first good pack of the lead-in with it, and the counts
/// are those of the lead-in's packs.
pub fn lead_in_packs_are_read()
    ensures { (lead_in : ℕ) (blocks : List (List ℕ)) → lead_in ≤ most_lead_in
        → HasRead (lead_in_packs (take lead_in blocks)) (run_state text_next (fresh_texts lead_in) blocks) }
{
    offers_keep_the_first();
}

/// The symbols of block `l` of the lead-in, each below 64. The packs are repeated, four in a block, without parity and
/// without spreading. Without packs the symbols are 0.
pub fn lead_in_symbols(packs: &[TextPack], l: u32) -> [u8; BLOCK_BYTES]
    requires { l < most_lead_in }
    ensures symbols { result ≡ lead_in_symbols packs.now l }
    ensures bound { All (λ s. s < 64) result }
{
    let mut symbols = [0; BLOCK_BYTES];
    if packs.is_empty() {
        return symbols;
    }
    for k in 0..SLOTS_A_BLOCK {
        let pack = &packs[(SLOTS_A_BLOCK * l as usize + k) % packs.len()];
        symbols[SYMBOLS_A_SLOT * k..SYMBOLS_A_SLOT * k + SYMBOLS_A_SLOT].copy_from_slice(
            &text_symbols(&pack.bytes()),
        );
    }
    symbols
}
