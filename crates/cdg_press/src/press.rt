// Presses a file into a stream.
ghost use Rattle.std.specs.Prelude.{◌≡◌, ◌≢◌, ◌≤◌, ◌<◌, ◌*◌, ℕ, List, [], IfErr, IfOk, OnErr, OnOk, Err, MatchOption};
ghost use Rattle.std.specs.Io.KnownBytes.{Appends};
ghost use Rattle.cdg_io.specs.Causes.{HasCause};
ghost use Rattle.cdg_io.specs.Change.{change};
ghost use Rattle.disc_time.specs.Counts.{most_lead_in, most_program};
ghost use Rattle.toc_model.specs.Places.{layout_of};
ghost use Rattle.stream_writer.specs.Needs.{text_packs, HasLayout, HasRoom};
ghost use Rattle.cdg_press.specs.Pressed.{IsPackAfter, file_begin, press_of};
ghost use Rattle.raw_subcode.specs.Sizes.{slots_a_block};
ghost use Rattle.rw_code.specs.Packs.{idle_pack};
ghost use Rattle.rw_interleave.specs.Interleave.{whole_packs};
ghost use Rattle.stream_writer.specs.Given.{CarriesComing, PutsStreamPart, framing_of};
ghost use Rattle.cdg_press.specs.Refusals.{HasNoGap, IsFirstGap, IsPressable, IsPressStop, IsShort};
ghost use Rattle.cdg_press.specs.Written.{WritesPressed};

use crate::file::{FileSource, whole_packs_of};
use crate::laws::pressable_files_have_streams;
use crate::stops::PressStop;
use cdg_io::{Failed, Sink};
use cdtext_packs::TextPack;
use cue_sheet::Sheet;
use disc_time::PAUSE_BLOCKS;
use raw_subcode::SLOTS_A_BLOCK;
use rw_interleave::{PACKS_KEPT_BACK, Spread};
use std::alloc::{AllocError, Global};
use stream_writer::{judge_lead_in, pack_texts, write_stream};
use toc_model::{Layout, count_blocks};

// The number of the stream's pack that is the file's first: its last symbol is in the first slot of file time 00:00:00.
const FILE_BEGIN: u32 = SLOTS_A_BLOCK as u32 * PAUSE_BLOCKS - PACKS_KEPT_BACK as u32;

/// Writes the subcode of a disc with a lead-in of `lead_in` blocks and an audio file of `length` blocks. The lead-in
/// has the table of contents and the texts. The program has the frames of the sheet and the packs of a `.cdg` file, 24
/// bytes each, in time with the audio. Only symbols 0, 1 and 4 to 19 of a pack are used: the low six bits of these
/// bytes. The parity is computed.
///
/// # Errors
///
/// In this order:
///
/// - `PackTorn` if the file does not end after a whole pack
/// - `LengthShort` or `DiscTooLong` if the sheet has no layout for this audio file
/// - `Gap` if a track has a gap
/// - `CdgTooLong` if the file has more than four packs for each block of audio
/// - `TextTooLong` if there is a lead-in and its texts need more than 256 packs
/// - `LeadInShort` if the lead-in has no room for them or for the table of contents
///
/// All of them are detected before anything is allocated, so `NoMemory` is returned only if nothing is refused. Nothing
/// is written before all memory is allocated. After `WriteFault` a prefix of the stream was written.
pub fn press_stream<K: Sink>(
    alloc: Global,
    sheet: &Sheet,
    cdg: &[u8],
    lead_in: u32,
    length: u32,
    out: &mut K,
) -> Result<(), PressStop>
    requires lead_in { lead_in ≤ most_lead_in }
    requires audio { length ≤ most_program }
    requires file { IsShort cdg.now }
    ensures accepted { OnOk result (IsPressable sheet.now cdg.now lead_in length) }
    // The reason why no stream was written.
    ensures stop { IfErr result (IsPressStop sheet.now cdg.now lead_in length) }
    ensures written { WritesPressed K.held K.faults (press_of sheet.now cdg.now lead_in length)
        out.old out.new result }
{
    // Laws: a disc that is not refused has a stream, since the tracks of every sheet are in order.
    pressable_files_have_streams();
    sheet.tracks_are_in_order();
    judge(sheet, cdg, lead_in, length)?;
    let ready = Ready::of(alloc, sheet, lead_in, length)?;
    ready.write(cdg, lead_in, out)?;
    Ok(())
}

// Checks for refusals. It allocates nothing, so `NoMemory` is returned only if nothing is refused.
fn judge(sheet: &Sheet, cdg: &[u8], lead_in: u32, length: u32) -> Result<(), PressStop>
    requires audio { length ≤ most_program }
    requires file { IsShort cdg.now }
    ensures accepted { OnOk result (IsPressable sheet.now cdg.now lead_in length) }
    ensures stop { IfErr result (IsPressStop sheet.now cdg.now lead_in length) }
    ensures no_write { result ≢ Err PressStop.WriteFault }
{
    let packs = whole_packs_of(cdg)?;
    count_blocks(sheet, length)?;
    if let Some(track) = first_gap(sheet) {
        return Err(PressStop::Gap { track });
    }
    let room = SLOTS_A_BLOCK as u32 * length;
    if packs > room {
        return Err(PressStop::CdgTooLong { packs, room });
    }
    judge_lead_in(sheet, lead_in)?;
    Ok(())
}

// The inputs of a stream, allocated.
#[derive(Drop)]
struct Ready {
    layout: Layout,
    texts: Vec<TextPack>,
    spread: Spread,
}

impl Ready {
    // Allocates the inputs of a stream that is not refused.
    fn of(alloc: Global, sheet: &Sheet, lead_in: u32, length: u32) -> Result<Ready, AllocError>
        requires layout { HasLayout sheet.now length }
        requires room { HasRoom sheet.now lead_in }
        ensures layout { IfOk result (λ ready. ready.layout ≡ layout_of sheet.now length) }
        ensures texts { IfOk result (λ ready. 0 < lead_in → ready.texts.items ≡ text_packs sheet.now) }
        ensures spread { IfOk result (λ ready. ready.spread ≡ []) }
    {
        Ok(Ready {
            layout: Layout::of_sheet(alloc, sheet, length)?,
            texts: pack_texts(alloc, sheet, lead_in)?,
            spread: Spread::start(alloc)?,
        })
    }

    // Writes the stream of a file. The caller knows that the last packs, which the end of the stream cuts, are idle.
    fn write<K: Sink>(mut self, cdg: &[u8], lead_in: u32, out: &mut K) -> Result<(), Failed>
        requires lead_in { lead_in ≤ most_lead_in }
        requires empty { self.spread ≡ [] }
        requires cut { (n : ℕ) (pack : List ℕ) → whole_packs self.layout.blocks ≤ n
            → n < slots_a_block * self.layout.blocks → IsPackAfter file_begin cdg.now n pack
            → pack ≡ idle_pack }
        ensures ok { OnOk result ((bytes : List ℕ) × (packs : List (List ℕ))
            × CarriesComing (framing_of self.layout self.texts.items lead_in)
            (IsPackAfter file_begin cdg.now) bytes packs × Appends (K.held out.old) (K.held out.new) bytes) }
        ensures part { OnErr result ((n : ℕ) × (packs : List (List ℕ))
            × PutsStreamPart (framing_of self.layout self.texts.items lead_in)
            (IsPackAfter file_begin cdg.now) (change K.held out.old out.new) n packs) }
        ensures cause { HasCause (K.faults out.old) (K.faults out.new) result }
    {
        let mut source = FileSource {
            wait: FILE_BEGIN,
            rest: cdg,
        };
        write_stream(
            &self.layout,
            &self.texts,
            lead_in,
            &mut source,
            &mut self.spread,
            out,
        )
    }
}

// The number of the first track with a gap.
fn first_gap(sheet: &Sheet) -> Option<u8>
    ensures { MatchOption result (HasNoGap sheet.now) (IsFirstGap sheet.now) }
{
    let tracks = sheet.tracks();
    for k in 0..tracks {
        if sheet.pregap(k) > 0 || sheet.postgap(k) > 0 {
            return Some(sheet.first() + k as u8);
        }
    }
    None
}
