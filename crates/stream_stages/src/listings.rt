// The lines of the Q channel of a stream, and the lines of the texts of its lead-in.
ghost use Rattle.std.specs.Prelude.{◌≡◌, ◌≢◌, ◌≤◌, IfOk, IsOk, Ok, Err};
ghost use Rattle.disc_time.specs.Counts.{most_lead_in};
ghost use Rattle.raw_subcode.specs.declared.form.Form.{Form};
ghost use Rattle.stream_stages.specs.Plays.{LeavesUnwritten, Plays, PlaysThenWrites, frame_listing, text_listing};
ghost use Rattle.cdg_io.specs.Causes.{ReportsFault};
ghost use Rattle.cdtext_packs.specs.Reading.{read_texts};
ghost use Rattle.cdtext_packs.specs.TextSteps.{fresh_texts};
ghost use Rattle.stream_stages.specs.Watch.{WritesTexts};

use crate::{PlayStop, Played, SectorBlocks, play_stop, pump_blocks, watch};
use cdg_io::{Failed, Sink, Source};
use cdtext_packs::{LeadInTexts, TextMap, lead_in_packs_are_read, write_lines};
use q_channel::QLines;
use raw_subcode::Form;
use std::alloc::{AllocError, Global};

/// Writes a line for the Q frame of each block, also in the lead-in, while it reads the blocks. It allocates nothing.
///
/// `lead_in` is at most 450,000 blocks. The form is raw or sector: a cooked stream has no Q channel. `Played::bad` is
/// the number of bad frames.
///
/// # Errors
///
/// `Torn` and `TooLong` come after the lines of all whole blocks were written, and `ReadFault` after those of the
/// blocks that were read. After `WriteFault` the sink has a prefix of the lines, and no later block was read.
pub fn list_frames<S: Source, K: Sink>(
    lead_in: u32,
    form: Form,
    source: &mut S,
    out: &mut K,
) -> Result<Played, PlayStop>
    requires lead_in { lead_in ≤ most_lead_in }
    requires form { form ≢ Form.Cooked }
    ensures plays { Plays (frame_listing form lead_in) S.Source K.Sink
        (source.old, out.old) (source.new, out.new) result }
{
    let mut lines = SectorBlocks {
        blocks: QLines { block: 0, bad: 0 },
    };
    match pump_blocks(form, source, &mut lines, out) {
        Ok(pumped) => Ok(Played {
            blocks: pumped.units.saturating_sub(lead_in),
            bad: lines.blocks.bad,
        }),
        Err(stop) => Err(play_stop(stop)),
    }
}

/// Lists the texts of lead-ins, one stream in each call. A call never depends on an earlier call. The lister contains a
/// table of text packs.
#[derive(Drop)]
pub struct TextLister {
    /// The text packs of a lead-in.
    pub texts: SectorBlocks<LeadInTexts>,
}

impl TextLister {
    /// A lister with an empty table. The lister contains the table, so nothing is allocated and no allocation can fail.
    pub fn start(alloc: Global) -> Result<TextLister, AllocError>
        ensures fresh { IfOk result (λ lister. lister.texts.blocks ≡ fresh_texts 0) }
        ensures memory { IsOk result }
    {
        Ok(TextLister {
            texts: SectorBlocks {
                blocks: LeadInTexts::start(),
            },
        })
    }

    /// Reads a whole stream, and then writes the texts of its lead-in: a line for each string that is not empty, and
    /// a line for the packs. It allocates only the texts, after it read everything.
    ///
    /// `lead_in` is at most 450,000 blocks. The form is raw or sector: a cooked stream has no lead-in. `Played::bad`
    /// is 0.
    ///
    /// # Errors
    ///
    /// `Text` if the packs hold no texts, or if no memory is available for the texts. After `Text`, `Torn`,
    /// `TooLong` or `ReadFault` nothing is written. After `WriteFault` the sink has a prefix of the lines.
    pub fn text_list<S: Source, K: Sink>(
        &mut self,
        alloc: Global,
        lead_in: u32,
        form: Form,
        source: &mut S,
        out: &mut K,
    ) -> Result<Played, PlayStop>
        requires lead_in { lead_in ≤ most_lead_in }
        requires form { form ≢ Form.Cooked }
        ensures plays { PlaysThenWrites (text_listing form lead_in) S.Source K.Sink
            (source.old, out.old) (source.new, out.new) result }
    {
        lead_in_packs_are_read();
        self.texts.blocks.begin(lead_in);
        match watch(form, source, &mut self.texts) {
            Ok(pumped) => self.write_texts(alloc, pumped.units.saturating_sub(lead_in), out),
            Err(stop) => Err(play_stop(stop)),
        }
    }

    fn write_texts<K: Sink>(
        &self,
        alloc: Global,
        blocks: u32,
        out: &mut K,
    ) -> Result<Played, PlayStop>
        ensures writes { WritesTexts self.now.texts.blocks blocks (K.held out.old) (K.held out.new) result }
        ensures untouched { LeavesUnwritten out.old out.new result }
        ensures write_fault { ReportsFault PlayStop.WriteFault
            (K.faults out.old) (K.faults out.new) result }
    {
        let map = match self.texts.blocks.reader.finish(alloc) {
            Ok(map) => map,
            Err(fault) => return Err(PlayStop::Text(fault)),
        };
        let written = self.write_map(&map, blocks, out);
        drop(map);
        written
    }

    // Writes the lines of these texts, which are the texts of the packs that were read.
    fn write_map<K: Sink>(
        &self,
        map: &TextMap,
        blocks: u32,
        out: &mut K,
    ) -> Result<Played, PlayStop>
        requires { read_texts self.now.texts.blocks.reader ≡ Ok map.now }
        ensures writes { WritesTexts self.now.texts.blocks blocks (K.held out.old) (K.held out.new) result }
        ensures untouched { LeavesUnwritten out.old out.new result }
        ensures write_fault { ReportsFault PlayStop.WriteFault
            (K.faults out.old) (K.faults out.new) result }
    {
        let texts = &self.texts.blocks;
        match write_lines(map, texts.good, texts.bad, texts.other, out) {
            Ok(()) => Ok(Played { blocks, bad: 0 }),
            Err(Failed) => Err(PlayStop::WriteFault),
        }
    }
}
