// Writes the blocks of a stream, one after another.
ghost use Rattle.std.specs.Prelude.{◌≡◌, ◌*◌, ◌<◌, ◌≤◌, ℕ, List, [], false, flat_map, OnOk, OnErr, All, Some, length, replicate};
ghost use Rattle.std.specs.Io.KnownBytes.{Appends};
ghost use Rattle.bit_lists.specs.Counting.{below};
ghost use Rattle.disc_time.specs.Counts.{most_lead_in};
ghost use Rattle.cdg_io.specs.Causes.{HasCause};
ghost use Rattle.cdg_io.specs.Change.{change, from_to};
ghost use Rattle.cdg_io.specs.Moves.{AppendsPrefix};
ghost use Rattle.raw_subcode.specs.Sizes.{slots_a_block, block_bytes, symbols_a_slot};
ghost use Rattle.rw_interleave.specs.Interleave.{whole_packs};
ghost use Rattle.toc_model.specs.Layout.{toc_frame};
ghost use Rattle.cdtext_packs.specs.LeadIn.{lead_in_symbols};
ghost use Rattle.stream_writer.specs.Blocks.{lead_in_block, IsBuilt, built_block, bits_of_frame};
ghost use Rattle.rw_code.specs.Packs.{idle_pack};
ghost use Rattle.stream_writer.specs.Given.{CarriesComing, ComesAfterBlocks, PutsPart, PutsProgram, PutsStream, PutsStreamPart, framing_of, AreQuiet, ComesLater, TakesPack, TakesPacks};
ghost use Rattle.q_channel.specs.QFrame.{IsValid};
ghost use Rattle.rw_code.specs.Sizes.{symbol_values};
ghost use Rattle.rw_code.specs.Codeword.{IsCodeword, IsWord};
ghost use Rattle.rw_interleave.specs.Spreading.{spread_gives, spread_next};

use crate::source::PackSource;
use cdg_io::{Failed, Sink, put_all};
use cdtext_packs::{TextPack, lead_in_symbols};
use q_channel::{QFrame, encode};
use raw_subcode::{BLOCK_BYTES, Block, SLOTS_A_BLOCK, SYMBOLS_A_SLOT};
use rw_code::Pack;
use rw_interleave::{PACKS_KEPT_BACK, Spread, spread_carries};
use toc_model::Layout;

// After this many idle packs, another idle pack adds only zeros and does not change the spreader.
const ALL_QUIET: u8 = PACKS_KEPT_BACK as u8;

// Writes the symbols of the next block over zeros. It reads four more packs from the source. `quiet` is the
// number of idle packs since the last other pack, at most seven. The function is inlined, since most blocks
// are idle.
#[inline(always)]
pub(crate) fn next_symbols<P: PackSource>(
    source: &mut P,
    spread: &mut Spread,
    quiet: &mut u8,
    symbols: &mut [u8; BLOCK_BYTES],
)
    requires quiet { AreQuiet spread.old quiet.old }
    requires zeros { symbols.old ≡ replicate block_bytes 0 }
    ensures symbols { (packs : List (List ℕ))
        × TakesPacks (P.comes source.old) slots_a_block (from_to spread.old spread.new) symbols.new packs }
    ensures bound { All (λ s. s < symbol_values) symbols.new }
    ensures later { ComesLater (P.comes source.old) slots_a_block (P.comes source.new) }
    ensures quiet { AreQuiet spread.new quiet.new }
{
    if *quiet == ALL_QUIET && source.pass_idle() {
        return;
    }
    put_slots(source, spread, quiet, symbols);
}

// Writes the symbols of the next block over zeros, if the source did not skip its packs.
fn put_slots<P: PackSource>(
    source: &mut P,
    spread: &mut Spread,
    quiet: &mut u8,
    symbols: &mut [u8; BLOCK_BYTES],
)
    requires quiet { AreQuiet spread.old quiet.old }
    requires zeros { symbols.old ≡ replicate block_bytes 0 }
    ensures symbols { (packs : List (List ℕ))
        × TakesPacks (P.comes source.old) slots_a_block (from_to spread.old spread.new) symbols.new packs }
    ensures bound { All (λ s. s < symbol_values) symbols.new }
    ensures later { ComesLater (P.comes source.old) slots_a_block (P.comes source.new) }
    ensures quiet { AreQuiet spread.new quiet.new }
{
    for k in 0..SLOTS_A_BLOCK {
        let start = SYMBOLS_A_SLOT * k;
        let slot = &mut symbols[start..start + SYMBOLS_A_SLOT];
        next_slot(source, spread, quiet, slot);
    }
}

// Writes the symbols of the next slot over zeros. It reads one more pack from the source.
fn next_slot<P: PackSource>(source: &mut P, spread: &mut Spread, quiet: &mut u8, slot: &mut [u8])
    requires quiet { AreQuiet spread.old quiet.old }
    requires zeros { slot.old ≡ replicate symbols_a_slot 0 }
    ensures slot { (pack : List ℕ) × TakesPack (P.comes source.old) spread.old spread.new slot.new pack }
    ensures word { IsWord slot.new }
    ensures later { ComesLater (P.comes source.old) 1 (P.comes source.new) }
    ensures quiet { AreQuiet spread.new quiet.new }
{
    let Some(pack) = source.next_pack() else {
        if *quiet < ALL_QUIET {
            *quiet += 1;
            put_slot(spread, &Pack::idle(), slot);
        }
        return;
    };
    *quiet = 0;
    put_slot(spread, &pack, slot);
}

// Writes the slot for a pack. It is not inlined, since most packs are idle.
#[inline(never)]
fn put_slot(spread: &mut Spread, pack: &Pack, slot: &mut [u8])
    requires { length slot.old ≡ symbols_a_slot }
    ensures codeword { IsCodeword pack.now }
    ensures next { spread.new ≡ spread_next spread.old pack.now }
    ensures gives { Some slot.new ≡ spread_gives spread.old pack.now }
    ensures word { IsWord slot.new }
{
    // A law: the symbols of a pack are a codeword.
    let _codeword = pack.word();
    slot.copy_from_slice(&spread.push(pack).bytes());
}

// The bytes of a block with a P bit, a frame and symbols. It is inlined, so that the block is not copied.
#[inline(always)]
fn built(p: bool, frame: &QFrame, symbols: &[u8; BLOCK_BYTES]) -> [u8; BLOCK_BYTES]
    requires frame { IsValid frame.now }
    requires symbols { All (λ s. s < symbol_values) symbols.now }
    ensures bytes { result ≡ built_block p (bits_of_frame frame.now) symbols.now }
    ensures built { IsBuilt result p frame.now symbols.now }
{
    Block::build(p, &encode(frame), symbols).bytes()
}

fn put_lead_in<K: Sink>(
    layout: &Layout,
    texts: &[TextPack],
    lead_in: u32,
    out: &mut K,
) -> Result<(), Failed>
    requires { lead_in ≤ most_lead_in }
    ensures ok { OnOk result (Appends (K.held out.old) (K.held out.new)
        (flat_map (lead_in_block layout.now texts.now lead_in) (below lead_in))) }
    ensures part { OnErr result (AppendsPrefix (K.held out.old) (K.held out.new)
        (flat_map (lead_in_block layout.now texts.now lead_in) (below lead_in))) }
    ensures built { OnOk result ((l : ℕ) → l < lead_in
        → IsBuilt (lead_in_block layout.now texts.now lead_in l) false (toc_frame layout.now lead_in l)
        (lead_in_symbols texts.now l)) }
    ensures cause { HasCause (K.faults out.old) (K.faults out.new) result }
{
    for l in 0..lead_in {
        let frame = layout.toc_frame(l, lead_in);
        let block = built(false, &frame, &lead_in_symbols(texts, l));
        put_all(out, &block)?;
    }
    Ok(())
}

// Writes the program blocks. The packs of the source are spread over them.
fn put_program<P: PackSource, K: Sink>(
    layout: &Layout,
    source: &mut P,
    spread: &mut Spread,
    out: &mut K,
) -> Result<(), Failed>
    requires { spread.old ≡ [] }
    ensures ok { OnOk result ((packs : List (List ℕ))
        × PutsProgram layout.now (P.comes source.old) layout.now.blocks (change K.held out.old out.new)
        packs) }
    ensures taken { OnOk result (ComesAfterBlocks (P.comes source.old) layout.now.blocks
        (P.comes source.new)) }
    ensures part { OnErr result ((n : ℕ) × (packs : List (List ℕ))
        × PutsPart layout.now (P.comes source.old) (change K.held out.old out.new) n packs
        × ComesAfterBlocks (P.comes source.old) n (P.comes source.new)) }
    ensures cause { HasCause (K.faults out.old) (K.faults out.new) result }
{
    let blocks = layout.blocks();
    let mut quiet = 0;
    for b in 0..blocks {
        let mut symbols = [0; BLOCK_BYTES];
        next_symbols(source, spread, &mut quiet, &mut symbols);
        let block = built(layout.p_bit(b), &layout.program_frame(b), &symbols);
        put_all(out, &block)?;
    }
    Ok(())
}

/// Writes a stream: `lead_in` blocks with the table of contents and the text packs, and then the program blocks. The
/// packs of the source are spread over the program. The last packs, which the end of the stream cuts, must be idle. It
/// allocates nothing.
///
/// # Errors
///
/// `Failed` if a write failed. Either a prefix of the lead-in was written, and no pack was read from the source. Or the
/// lead-in and some program blocks were written, the last one maybe in part, and exactly their packs were read.
pub fn write_stream<P: PackSource, K: Sink>(
    layout: &Layout,
    texts: &[TextPack],
    lead_in: u32,
    source: &mut P,
    spread: &mut Spread,
    out: &mut K,
) -> Result<(), Failed>
    requires lead_in { lead_in ≤ most_lead_in }
    requires start { spread.old ≡ [] }
    requires cut { (n : ℕ) (pack : List ℕ) → whole_packs layout.now.blocks ≤ n
        → n < slots_a_block * layout.now.blocks → P.comes source.old n pack → pack ≡ idle_pack }
    ensures ok { OnOk result ((bytes : List ℕ) × (packs : List (List ℕ))
        × CarriesComing (framing_of layout.now texts.now lead_in) (P.comes source.old) bytes packs
        × Appends (K.held out.old) (K.held out.new) bytes) }
    // Exactly four packs were read for each block.
    ensures taken { OnOk result (ComesAfterBlocks (P.comes source.old) layout.now.blocks
        (P.comes source.new)) }
    ensures part { OnErr result ((n : ℕ) × (packs : List (List ℕ))
        × PutsStreamPart (framing_of layout.now texts.now lead_in) (P.comes source.old)
        (change K.held out.old out.new) n packs
        × ComesAfterBlocks (P.comes source.old) n (P.comes source.new)) }
    ensures cause { HasCause (K.faults out.old) (K.faults out.new) result }
{
    spread_carries();
    put_lead_in(layout, texts, lead_in, out)?;
    put_program(layout, source, spread, out)
}
