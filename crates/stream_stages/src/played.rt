// A whole input through a stage, and the result of the call that plays it.
ghost use Rattle.std.specs.Prelude.{◌≡◌, List, ℕ};
ghost use Rattle.stream_stages.specs.Watch.{play_stop, Watches, on_units};
ghost use Rattle.cdg_io.specs.Causes.{ReportsFault};
ghost use Rattle.cdg_io.specs.Change.{fed, moved};
ghost use Rattle.cdg_io.specs.Pump.{Pumps};
ghost use Rattle.cdg_io.specs.Reads.{ReadsUnits};
ghost use Rattle.raw_subcode.specs.Channels.{unit_size};
ghost use Rattle.raw_subcode.specs.Sizes.{most_units};
ghost use Rattle.q_channel.specs.QList.{IsQListed};
ghost use Rattle.raw_subcode.specs.declared.form.Form.{Form};
ghost use Rattle.stream_stages.specs.Convert.{IsConverted};
ghost use Rattle.stream_stages.specs.Check.{IsCheckListed};
ghost use Rattle.stream_stages.specs.Screen.{IsScreenAt, IsStateAt, moment};
ghost use Rattle.stream_stages.specs.TextListing.{IsTextListed};

use crate::SectorBlocks;
use cdg_instructions::only_one_meaning;
use cdg_io::{Piece, PumpStop, Pumped, Sink, Source, Stage, SteadySink, pump};
use cdtext_packs::TextFault;
use q_channel::readings_are_functions;
use raw_subcode::{BLOCK_BYTES, Form, MOST_UNITS};
use rw_code::each_word_has_one_finding;

/// The result for a whole input.
#[derive(Clone, Copy, Debug, PartialEq, Eq)]
pub struct Played {
    /// The number of program blocks: all blocks after the lead-in.
    pub blocks: u32,
    /// The number of words with no codeword within two symbols. Some calls count something else, as their
    /// comments say.
    pub bad: u32,
}

/// Why a call ended before it had done its work.
#[derive(Clone, Copy, Debug, PartialEq, Eq)]
pub enum PlayStop {
    /// A read failed.
    ReadFault,
    /// A write failed; the sink has a prefix of the text.
    WriteFault,
    /// The input ended within the block of this number, counted from 0.
    Torn { block: u32 },
    /// The input has more than 1,000,000 blocks or sectors.
    TooLong,
    /// The moment is after the end of the program, which has this number of blocks.
    PastEnd { blocks: u32 },
    /// The text packs of the lead-in hold no texts, or no memory is available for the texts.
    Text(TextFault),
}

/// The stop of a player for the stop of a pump.
pub fn play_stop(stop: PumpStop) -> PlayStop
    ensures { result ≡ play_stop stop }
{
    match stop {
        PumpStop::ReadFault => PlayStop::ReadFault,
        PumpStop::WriteFault => PlayStop::WriteFault,
        PumpStop::Torn { unit } => PlayStop::Torn { block: unit },
        PumpStop::TooLong => PlayStop::TooLong,
    }
}

/// Feeds the blocks of an input to a stage, and writes the output of the stage for each block.
pub fn pump_blocks<S: Source, G: Stage<Item = [u8; BLOCK_BYTES], Out = Piece>, K: Sink>(
    form: Form,
    source: &mut S,
    stages: &mut SectorBlocks<G>,
    out: &mut K,
) -> Result<Pumped, PumpStop>
    ensures pumps { (taken : List ℕ) × Pumps (record { size = unit_size form; limit = most_units })
        (record { next = on_units form G.next; gives = on_units form G.gives })
        (moved S.left K.held (source.old, stages.old.blocks, out.old)
        (source.new, stages.new.blocks, out.new)) result taken }
    ensures reads { ReadsUnits S.Source (unit_size form) most_units source.old
        source.new result }
    ensures write_fault { ReportsFault PumpStop.WriteFault (K.faults out.old) (K.faults out.new) result }
{
    match form {
        Form::Sector => pump(source, MOST_UNITS, stages, out),
        Form::Raw | Form::Cooked => pump(source, MOST_UNITS, &mut stages.blocks, out),
    }
}

/// Feeds the blocks of an input to a stage that writes nothing.
pub fn watch<S: Source, G: Stage<Item = [u8; BLOCK_BYTES], Out = Piece>>(
    form: Form,
    source: &mut S,
    stages: &mut SectorBlocks<G>,
) -> Result<Pumped, PumpStop>
    ensures watches { (taken : List ℕ) × Watches form G.next
        (fed S.left (source.old, stages.old.blocks) (source.new, stages.new.blocks)) result taken }
    ensures reads { ReadsUnits S.Source (unit_size form) most_units source.old
        source.new result }
{
    pump_blocks(form, source, stages, &mut SteadySink::new())
}

/// A law: the bytes of a stream determine the text of each call and the number of bad entries, regardless of the
/// pieces in which a source delivers the bytes.
pub fn one_text_is_written()
    ensures converted { (form : Form) (lead_in : ℕ) (bytes one other : List ℕ) (bad another : ℕ)
        → IsConverted form lead_in bytes one bad → IsConverted form lead_in bytes other another
        → (one ≡ other) × (bad ≡ another) }
    ensures screen { (form : Form) (lead_in at : ℕ) (bytes one other : List ℕ) (bad another : ℕ)
        → IsScreenAt (moment form lead_in at) bytes one bad
        → IsScreenAt (moment form lead_in at) bytes other another
        → (one ≡ other) × (bad ≡ another) }
    ensures state { (form : Form) (lead_in at : ℕ) (bytes one other : List ℕ) (bad another : ℕ)
        → IsStateAt (moment form lead_in at) bytes one bad
        → IsStateAt (moment form lead_in at) bytes other another
        → (one ≡ other) × (bad ≡ another) }
    ensures checked { (form : Form) (lead_in : ℕ) (bytes one other : List ℕ) (bad another : ℕ)
        → IsCheckListed form lead_in bytes one bad → IsCheckListed form lead_in bytes other another
        → (one ≡ other) × (bad ≡ another) }
    ensures frames { (form : Form) (bytes one other : List ℕ) (bad another : ℕ)
        → IsQListed form bytes one bad → IsQListed form bytes other another
        → (one ≡ other) × (bad ≡ another) }
    ensures texts { (form : Form) (lead_in : ℕ) (bytes one other : List ℕ) (bad another : ℕ)
        → IsTextListed form lead_in bytes one bad → IsTextListed form lead_in bytes other another
        → (one ≡ other) × (bad ≡ another) }
{
    each_word_has_one_finding();
    only_one_meaning();
    readings_are_functions();
}
