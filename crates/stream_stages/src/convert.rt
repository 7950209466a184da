// The conversion of a stream to packs.
ghost use Rattle.std.specs.Prelude.{◌≡◌, ◌≤◌, List, ℕ, IfSome};
ghost use Rattle.std.specs.List.{concat};
ghost use Rattle.disc_time.specs.Counts.{most_lead_in};
ghost use Rattle.raw_subcode.specs.declared.form.Form.{Form};
ghost use Rattle.stream_stages.specs.Plays.{Plays, conversion};
ghost use Rattle.stream_stages.specs.Steps.{fresh_words};
ghost use Rattle.stream_stages.specs.Watch.{played_of};
ghost use Rattle.rw_interleave.specs.Stream.{all_packs};
ghost use Rattle.stream_stages.specs.Convert.{IsConverted, IsDamagedStream, Restores};

use crate::{BlockPacks, BlockWords, PlayStop, Played, SectorBlocks, play_stop};
use cdg_io::{PumpStop, Pumped, Sink, Source, pump_units};
use raw_subcode::{Form, MOST_UNITS};
use rw_interleave::{found_packs_are_the_text, packs_are_recovered};

/// A law: if damage changed at most two symbols of each word of a stream, its conversion has the original packs.
pub fn damaged_streams_give_packs()
    ensures text { (form : Form) (lead_in blocks : ℕ) (packs : List (List ℕ)) (bytes text : List ℕ) (bad : ℕ)
        → IsDamagedStream form lead_in blocks packs bytes → IsConverted form lead_in bytes text bad
        → text ≡ concat (all_packs form blocks packs) }
    ensures bad { (form : Form) (lead_in blocks : ℕ) (packs : List (List ℕ)) (bytes text : List ℕ) (bad : ℕ)
        → IsDamagedStream form lead_in blocks packs bytes → IsConverted form lead_in bytes text bad
        → bad ≡ 0 }
{
    packs_are_recovered();
    found_packs_are_the_text();
}

/// Converts streams, one stream in each call. A call never depends on an earlier call. It allocates nothing.
#[derive(Drop)]
pub struct Converter {
    /// The stage that makes packs from blocks.
    pub stages: SectorBlocks<BlockPacks>,
}

impl Converter {
    /// A converter before its first stream.
    pub fn new() -> Converter
        ensures words { result.stages.blocks.words ≡ fresh_words Form.Raw 0 }
        ensures bad { result.stages.blocks.bad ≡ 0 }
    {
        Converter {
            stages: SectorBlocks {
                blocks: BlockPacks {
                    words: BlockWords::new(),
                    bad: 0,
                },
            },
        }
    }

    /// Writes the packs of a stream while it reads the blocks: 24 bytes for each pack, every byte below 64.
    ///
    /// `lead_in` is at most 450,000 blocks, which are skipped. A word with no codeword within two symbols is written
    /// as 24 zeros, and counted in `Played::bad`. For B program blocks, 4B - 7 packs are written, or 4B packs if the
    /// form is cooked.
    ///
    /// # Errors
    ///
    /// `Torn` and `TooLong` come after the packs of all whole blocks were written, and `ReadFault` after those of the
    /// blocks that were read. After `WriteFault` the sink has a prefix of the packs, and no later block was read.
    pub fn convert<S: Source, K: Sink>(
        &mut self,
        lead_in: u32,
        form: Form,
        source: &mut S,
        out: &mut K,
    ) -> Result<Played, PlayStop>
        requires { lead_in ≤ most_lead_in }
        ensures plays { Plays (conversion form lead_in) S.Source K.Sink
            (source.old, out.old) (source.new, out.new) result }
        // Damage of at most two symbols in each word changes no pack.
        ensures restores { IfSome (S.left source.old) (λ all. (blocks : ℕ) (packs : List (List ℕ))
            → IsDamagedStream form lead_in blocks packs all
            → Restores result (K.held out.old) (K.held out.new) (concat (all_packs form blocks packs))) }
    {
        damaged_streams_give_packs();
        self.begin(lead_in, form);
        match form {
            Form::Sector => {
                let pumped = pump_units(source, MOST_UNITS, &mut self.stages, out);
                played(lead_in, self.stages.blocks.bad, pumped)
            }
            Form::Raw | Form::Cooked => {
                let pumped = pump_units(source, MOST_UNITS, &mut self.stages.blocks, out);
                played(lead_in, self.stages.blocks.bad, pumped)
            }
        }
    }

    // Sets the state before the first block of a stream of this form.
    fn begin(&mut self, lead_in: u32, form: Form)
        ensures words { self.new.stages.blocks.words ≡ fresh_words form lead_in }
        ensures bad { self.new.stages.blocks.bad ≡ 0 }
    {
        self.stages.blocks.words.begin(lead_in, form);
        self.stages.blocks.bad = 0;
    }
}

// The result of a player for the result of the pump.
fn played(lead_in: u32, bad: u32, answer: Result<Pumped, PumpStop>) -> Result<Played, PlayStop>
    ensures { result ≡ played_of lead_in bad answer }
{
    match answer {
        Ok(pumped) => Ok(Played {
            blocks: pumped.units.saturating_sub(lead_in),
            bad,
        }),
        Err(stop) => Err(play_stop(stop)),
    }
}
