// The counts of a stream.
ghost use Rattle.std.specs.Prelude.{◌≡◌, ◌≤◌, ◌-◌, ◌+◌, ◌++◌, min, false, length, IfOk, IfErr};
ghost use Rattle.std.specs.Io.KnownBytes.{Appends};
ghost use Rattle.raw_subcode.specs.Sizes.{most_units};
ghost use Rattle.disc_time.specs.Counts.{most_lead_in};
ghost use Rattle.cdg_io.specs.Causes.{HasCause};
ghost use Rattle.cdg_io.specs.Moves.{AppendsPrefix};
ghost use Rattle.rw_interleave.specs.Stream.{word_count};
ghost use Rattle.stream_stages.specs.Plays.{LeavesUnwritten, PlaysThenWrites, checking};
ghost use Rattle.stream_stages.specs.Check.{count_line, stream_lines, wrong_lines};
ghost use Rattle.stream_stages.specs.Check.{frame_count_lines, pack_count_lines};
ghost use Rattle.stream_stages.specs.CheckSteps.{IsFresh, lines_of_counts, nothing_counted};
ghost use Rattle.stream_stages.specs.Stages.{counts_of, words_of};
ghost use Rattle.stream_stages.specs.Steps.{fresh_words};

use crate::{Counting, FrameCounts, PlayStop, Played, SectorBlocks, WordCounts, play_stop, watch};
use arrayvec::ArrayString;
use cdg_io::{Failed, Sink, Source, put_all};
use itoa::Buffer;
use raw_subcode::Form;

type Lines = ArrayString<320>;

/// Counts the contents of streams, one stream in each call. A call never depends on an earlier call. It allocates
/// nothing.
#[derive(Drop)]
pub struct Checker {
    /// The counts of a stream.
    pub checks: SectorBlocks<Counting>,
}

impl Checker {
    /// A checker before its first stream.
    pub fn new() -> Checker
        ensures words { words_of result.checks.blocks.words ≡ fresh_words Form.Raw 0 }
        ensures counts { counts_of result.checks.blocks.words ≡ nothing_counted }
        ensures frames { result.checks.blocks.frames ≡ record { read = false; good = 0; bad = 0 } }
    {
        Checker {
            checks: SectorBlocks {
                blocks: Counting::new(),
            },
        }
    }

    /// Reads a whole stream, and then writes its counts: of its blocks, of its words by their wrong symbols and by
    /// their kind, and of the frames of its Q channel. A cooked stream has no frames.
    ///
    /// `lead_in` is at most 450,000 blocks. `Played::bad` is the number of words with no codeword within two symbols;
    /// a bad frame counts only in the text.
    ///
    /// # Errors
    ///
    /// After `Torn`, `TooLong` or `ReadFault` nothing is written. After `WriteFault` the sink has a prefix of
    /// the text.
    pub fn check<S: Source, K: Sink>(
        &mut self,
        lead_in: u32,
        form: Form,
        source: &mut S,
        out: &mut K,
    ) -> Result<Played, PlayStop>
        requires { lead_in ≤ most_lead_in }
        ensures plays { PlaysThenWrites (checking form lead_in) S.Source K.Sink
            (source.old, out.old) (source.new, out.new) result }
    {
        self.begin_check(lead_in, form);
        match watch(form, source, &mut self.checks) {
            Ok(pumped) => self.write_counts(lead_in, form, pumped.units, out),
            Err(stop) => Err(play_stop(stop)),
        }
    }

    fn write_counts<K: Sink>(
        &self,
        lead_in: u32,
        form: Form,
        blocks: u32,
        out: &mut K,
    ) -> Result<Played, PlayStop>
        requires { blocks ≤ most_units }
        ensures ok { IfOk result (λ played. (played.blocks ≡ blocks - lead_in)
            × (played.bad ≡ (counts_of self.now.checks.blocks.words).bad)
            × Appends (K.held out.old) (K.held out.new)
            (lines_of_counts form lead_in blocks self.now.checks.blocks)) }
        ensures part { IfErr result (λ stop. (stop ≡ PlayStop.WriteFault)
            × AppendsPrefix (K.held out.old) (K.held out.new)
            (lines_of_counts form lead_in blocks self.now.checks.blocks)) }
        ensures untouched { LeavesUnwritten out.old out.new result }
        ensures cause { HasCause (K.faults out.old) (K.faults out.new) result }
    {
        let text = lines(lead_in, form, blocks, &self.checks.blocks);
        let counts = &self.checks.blocks.words.second;
        match put_all(out, text.as_str().as_bytes()) {
            Ok(()) => Ok(Played {
                blocks: blocks.saturating_sub(lead_in),
                bad: counts.bad,
            }),
            Err(Failed) => Err(PlayStop::WriteFault),
        }
    }

    // Sets the state before the first block of a stream of this form.
    fn begin_check(&mut self, lead_in: u32, form: Form)
        ensures { IsFresh form lead_in self.new.checks.blocks }
    {
        self.checks.blocks.words.first.begin(lead_in, form);
        self.checks.blocks.words.second = WordCounts::default();
        self.checks.blocks.frames = FrameCounts {
            read: form != Form::Cooked,
            good: 0,
            bad: 0,
        };
    }
}

#[tactic(auto, unfolding(crate::specs::CheckSteps::lines_of_counts))]
fn lines(lead_in: u32, form: Form, blocks: u32, counting: &Counting) -> Lines
    requires { blocks ≤ most_units }
    ensures { result.bytes ≡ lines_of_counts form lead_in blocks counting.now }
{
    let mut text = Lines::new();
    let program = blocks.saturating_sub(lead_in);
    push_stream(
        &mut text,
        lead_in.min(blocks),
        program,
        words_or_none(form, program),
    );
    let counts = &counting.words.second;
    push_wrong(&mut text, counts);
    push_kinds(&mut text, counts);
    push_frames(&mut text, &counting.frames);
    text
}

fn words_or_none(form: Form, blocks: u32) -> u32
    requires { blocks ≤ most_units }
    ensures { result ≡ word_count form blocks }
{
    match form {
        Form::Raw | Form::Sector => (4 * blocks).saturating_sub(7),
        Form::Cooked => 4 * blocks,
    }
}

#[tactic(auto, unfolding(crate::specs::Check::count_line))]
fn push_count(text: &mut Lines, name: &str, count: u32)
    requires name { length name.now ≤ 8 }
    requires room { length text.old.bytes ≤ 300 }
    ensures text { text.new.bytes ≡ text.old.bytes ++ count_line name.now count }
    ensures short { length text.new.bytes ≤ length text.old.bytes + length name.now + 12 }
{
    let mut digits = Buffer::new();
    text.push_str(name);
    text.push_str(" ");
    text.push_str(digits.format(count));
    text.push_str("\n");
}

// The lines for blocks and packs.
fn push_stream(text: &mut Lines, lead_in: u32, program: u32, packs: u32)
    requires { length text.old.bytes ≤ 0 }
    ensures text { text.new.bytes ≡ text.old.bytes ++ stream_lines lead_in program packs }
    ensures short { length text.new.bytes ≤ length text.old.bytes + 60 }
{
    push_count(text, "lead-in", lead_in);
    push_count(text, "program", program);
    push_count(text, "packs", packs);
}

fn push_wrong(text: &mut Lines, counts: &WordCounts)
    requires { length text.old.bytes ≤ 60 }
    ensures text { text.new.bytes ≡ text.old.bytes
        ++ wrong_lines counts.now.clean counts.now.one counts.now.two counts.now.bad }
    ensures short { length text.new.bytes ≤ length text.old.bytes + 80 }
{
    push_count(text, "clean", counts.clean);
    push_count(text, "one", counts.one);
    push_count(text, "two", counts.two);
    push_count(text, "bad", counts.bad);
}

// The lines for the kinds of packs.
fn push_kinds(text: &mut Lines, counts: &WordCounts)
    requires { length text.old.bytes ≤ 140 }
    ensures text { text.new.bytes ≡ text.old.bytes
        ++ pack_count_lines counts.now.idle counts.now.graphics counts.now.unknown counts.now.foreign }
    ensures short { length text.new.bytes ≤ length text.old.bytes + 80 }
{
    push_count(text, "idle", counts.idle);
    push_count(text, "graphics", counts.graphics);
    push_count(text, "unknown", counts.unknown);
    push_count(text, "foreign", counts.foreign);
}

fn push_frames(text: &mut Lines, frames: &FrameCounts)
    requires { length text.old.bytes ≤ 220 }
    ensures text { text.new.bytes ≡ text.old.bytes ++ frame_count_lines frames.now.good frames.now.bad }
{
    push_count(text, "q-good", frames.good);
    push_count(text, "q-bad", frames.bad);
}
