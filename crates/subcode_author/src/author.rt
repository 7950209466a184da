// Writing the stream of a sheet and a script.
ghost use Rattle.std.specs.Prelude.{◌≡◌, ◌≤◌, ◌⊎◌, IfErr, ◌<◌, List, ℕ, IfOk, OnOk, false, slice_index_or};
ghost use Rattle.disc_time.specs.Counts.{most_lead_in, most_program, time_count};
ghost use Rattle.cdg_io.specs.Causes.{ReportsFault, HasCause};
ghost use Rattle.pack_schedule.specs.Survey.{IsSurvey, IsWithin, IsRoomFor, IsPastEnd};
ghost use Rattle.toc_model.specs.Places.{program_blocks, audio_need};
ghost use Rattle.subcode_author.specs.Authored.{disc_of};
ghost use Rattle.subcode_author.specs.Inputs.{AreStreamInputs};
ghost use Rattle.subcode_author.specs.Calls.{AnswersDisc, WritesDisc};
ghost use Rattle.subcode_author.specs.AuthorAnswer.{HasRoom, HoldsPictures, IsAccepted, IsAuthorStop, IsDiscRefusal, IsDiscStop, IsPictureStop};
ghost use Rattle.cue_sheet.specs.CueSheet.{CueSheet};
ghost use Rattle.picture_script.specs.Script.{Drawing, pictures};
ghost use Rattle.pack_schedule.specs.Plans.{ArePlanRows, IsFirstLate, no_row};
ghost use Rattle.pack_schedule.specs.declared.planner.PlanRow.{PlanRow};

use crate::heap::Heap;
use crate::stops::AuthorStop;
use cdg_io::{Failed, Sink};
use cdtext_packs::TextPack;
use cue_sheet::Sheet;
use pack_schedule::{
    Survey, SurveyRoom, Weaver, is_past_end, needs_are_fewest, packs_are_a_schedule,
    plans_report_what_a_survey_reports, survey_in,
};
use picture_script::Script;
use raw_subcode::SLOTS_A_BLOCK;
use rw_code::Pack;
use rw_interleave::Spread;
use std::alloc::{AllocError, Global};
use stream_writer::{PackSource, judge_lead_in, pack_texts, write_stream};
use toc_model::{Layout, count_blocks};

// Plans the changes of a script, or reports its first late picture.
pub(crate) fn plan_script(
    heap: &mut Heap,
    script: &Script,
    blocks: u32,
) -> Result<Survey, AuthorStop>
    requires blocks { blocks < time_count }
    requires end { ¬ IsPastEnd script.now blocks }
    ensures within { OnOk result (IsWithin script.now blocks) }
    ensures planned { IfOk result (IsSurvey script.now) }
    ensures err { IfErr result (IsPictureStop script.now) }
    // The error is `NoMemory` exactly if a request for memory failed, so never for a late picture.
    ensures allocations { ReportsFault AuthorStop.NoMemory heap.old heap.new result }
{
    let pictures = script.pictures();
    let room = heap.asked(|alloc| SurveyRoom::start(alloc, pictures))?;
    let planned = survey_in(room, script, blocks)?;
    Ok(planned)
}

/// The inputs of `write_stream`, which need allocated memory.
#[derive(Drop)]
struct StreamInputs<'a> {
    layout: Layout,
    texts: Vec<TextPack>,
    spread: Spread,
    source: Scheduled<'a>,
}

impl<'a> StreamInputs<'a> {
    ghost use Rattle.std.specs.Prelude.{◌≡◌, ◌*◌, ◌<◌, ◌≤◌, ℕ, List, [], IfOk, OnErr, OnOk};
    ghost use Rattle.std.specs.Io.KnownBytes.{Appends};
    ghost use Rattle.disc_time.specs.Counts.{most_lead_in, most_program};
    ghost use Rattle.cdg_io.specs.Causes.{HasCause};
    ghost use Rattle.cdg_io.specs.Change.{change};
    ghost use Rattle.raw_subcode.specs.Sizes.{slots_a_block};
    ghost use Rattle.rw_code.specs.Packs.{idle_pack};
    ghost use Rattle.rw_interleave.specs.Interleave.{whole_packs};
    ghost use Rattle.toc_model.specs.Places.{audio_need, program_blocks};
    ghost use Rattle.pack_schedule.specs.Survey.{IsSurvey};
    ghost use Rattle.stream_writer.specs.Needs.{HasRoom};
    ghost use Rattle.stream_writer.specs.Given.{CarriesComing, PutsStreamPart, framing_of};
    ghost use Rattle.subcode_author.specs.Authored.{disc_of};
    ghost use Rattle.subcode_author.specs.Inputs.{AreStreamInputs, PackOf};

    // Allocates the inputs for a disc with a layout, room in its lead-in and planned changes.
    fn new(
        alloc: Global,
        sheet: &Sheet,
        script: &'a Script,
        planned: Survey,
        lead_in: u32,
        length: u32,
    ) -> Result<StreamInputs<'a>, AllocError>
        requires need { audio_need sheet.now ≤ length }
        requires fits { program_blocks sheet.now length ≤ most_program }
        requires room { HasRoom sheet.now lead_in }
        requires planned { IsSurvey script.now planned }
        ensures inputs { IfOk result (AreStreamInputs (disc_of sheet.now script.now lead_in length)) }
    {
        let layout = Layout::of_sheet(alloc, sheet, length)?;
        let texts = pack_texts(alloc, sheet, lead_in)?;
        let spread = Spread::start(alloc)?;
        let weaver = Weaver::start(alloc, script, planned)?;
        Ok(StreamInputs {
            layout,
            texts,
            spread,
            source: Scheduled { weaver },
        })
    }

    // Writes the stream. The caller knows that the last packs, which the end of the stream cuts, are idle.
    fn write<K: Sink>(mut self, lead_in: u32, out: &mut K) -> Result<(), Failed>
        requires lead_in { lead_in ≤ most_lead_in }
        requires empty { self.spread ≡ [] }
        requires cut { (n : ℕ) (pack : List ℕ) → whole_packs self.layout.blocks ≤ n
            → n < slots_a_block * self.layout.blocks → PackOf self.source.weaver n pack
            → pack ≡ idle_pack }
        ensures ok { OnOk result ((bytes : List ℕ) × (packs : List (List ℕ))
            × CarriesComing (framing_of self.entry.layout self.entry.texts.items lead_in)
            (PackOf self.entry.source.weaver) bytes packs × Appends (K.held out.old) (K.held out.new) bytes) }
        ensures part { OnErr result ((n : ℕ) × (packs : List (List ℕ))
            × PutsStreamPart (framing_of self.entry.layout self.entry.texts.items lead_in)
            (PackOf self.entry.source.weaver) (change K.held out.old out.new) n packs) }
        ensures cause { HasCause (K.faults out.old) (K.faults out.new) result }
    {
        let inputs = &mut self;
        write_stream(
            &inputs.layout,
            &inputs.texts,
            lead_in,
            &mut inputs.source,
            &mut inputs.spread,
            out,
        )
    }
}

fn allocate_inputs<'a>(
    heap: &mut Heap,
    sheet: &Sheet,
    script: &'a Script,
    planned: Survey,
    lead_in: u32,
    length: u32,
) -> Result<StreamInputs<'a>, AllocError>
    requires need { audio_need sheet.now ≤ length }
    requires fits { program_blocks sheet.now length ≤ most_program }
    requires room { HasRoom sheet.now lead_in }
    requires planned { IsSurvey script.now planned }
    ensures inputs { IfOk result (AreStreamInputs (disc_of sheet.now script.now lead_in length)) }
    ensures counted { HasCause heap.old heap.new result }
{
    heap.asked(|alloc| StreamInputs::new(alloc, sheet, script, planned, lead_in, length))
}

/// The number of program blocks of a disc, if `author_stream` refuses nothing before it plans the pictures.
///
/// # Errors
///
/// The errors of `author_stream` except `Late`, `WriteFault` and `NoMemory`, in the same order. It allocates
/// nothing.
pub fn accept_disc(
    sheet: &Sheet,
    script: &Script,
    lead_in: u32,
    length: u32,
) -> Result<u32, AuthorStop>
    requires { length ≤ most_program }
    ensures blocks { IfOk result (λ blocks. blocks ≡ program_blocks sheet.now length) }
    ensures disc { OnOk result (HoldsPictures sheet.now script.now length) }
    ensures room { OnOk result (HasRoom sheet.now lead_in) }
    ensures stop { IfErr result (IsDiscRefusal sheet.now script.now lead_in length) }
{
    let blocks = count_blocks(sheet, length)?;
    if is_past_end(script, blocks) {
        return Err(AuthorStop::PastEnd { blocks });
    }
    judge_lead_in(sheet, lead_in)?;
    Ok(blocks)
}

/// A law: if nothing is refused before planning, the rows of a plan determine the result of `author_stream`: it refuses
/// the disc at the first late row, and accepts it if no row is late.
pub fn plans_report_what_an_author_reports()
    ensures late { (sheet : CueSheet) (script : List Drawing) (lead_in audio k : ℕ) (rows : List PlanRow)
        → HoldsPictures sheet script audio → HasRoom sheet lead_in → ArePlanRows script rows
        → k < pictures script → IsFirstLate rows k
        → IsAuthorStop sheet script lead_in audio
        (AuthorStop.Late k (slice_index_or rows k no_row).need (slice_index_or rows k no_row).free) }
    ensures accepted { (sheet : CueSheet) (script : List Drawing) (lead_in audio : ℕ) (rows : List PlanRow)
        → HoldsPictures sheet script audio → HasRoom sheet lead_in → ArePlanRows script rows
        → ((k : ℕ) → k < pictures script → (slice_index_or rows k no_row).late ≡ false)
        → IsAccepted sheet script lead_in audio }
{
    plans_report_what_a_survey_reports();
}

/// The packs of a script as the source of a stream.
#[derive(Drop)]
pub(crate) struct Scheduled<'a> {
    pub(crate) weaver: Weaver<'a>,
}

impl<'a> PackSource for Scheduled<'a> {
    ghost use Rattle.std.specs.Prelude.{◌≡◌, ◌↔◌, ◌+◌, ◌<◌, ℕ, true, false};
    ghost use Rattle.raw_subcode.specs.Sizes.{slots_a_block};
    ghost use Rattle.rw_code.specs.Packs.{idle_pack};
    ghost use Rattle.stream_writer.specs.Given.{ComesLater};
    ghost use Rattle.pack_schedule.specs.Woven.{ArePassedBy, IsPackAt, most_counted};

    // The weaver's pack count saturates.
    ghost comes = { λ s n pack. s.weaver.given + n < most_counted
        → IsPackAt s.weaver.script (s.weaver.given + n) pack };

    fn next_pack(&mut self) -> Option<Pack> {
        self.weaver.next_unless_idle()
    }

    // Skips the packs of a block exactly if no change has one of them.
    #[inline]
    fn pass_idle(&mut self) -> bool
        ensures passes { result ≡ true ↔ ArePassedBy self.old.weaver slots_a_block }
        ensures idle { result ≡ true → (k : ℕ) → k < slots_a_block
            → self.old.weaver.given + k < most_counted
            → IsPackAt self.old.weaver.script (self.old.weaver.given + k) idle_pack }
        ensures later { result ≡ true → ComesLater
            (λ n pack. self.old.weaver.given + n < most_counted
            → IsPackAt self.old.weaver.script (self.old.weaver.given + n) pack)
            slots_a_block
            (λ n pack. self.new.weaver.given + n < most_counted
            → IsPackAt self.new.weaver.script (self.new.weaver.given + n) pack) }
        ensures stays { result ≡ false → self.new ≡ self.old }
    {
        self.weaver.pass_idle(SLOTS_A_BLOCK as u32)
    }
}

/// Writes the subcode of a disc with a lead-in of `lead_in` blocks and an audio file of `length` blocks. The lead-in
/// has the table of contents and the texts. The program has the frames of the sheet and the pictures of the script.
///
/// # Errors
///
/// In this order:
///
/// - `LengthShort` or `DiscTooLong` if the sheet has no layout for this audio file
/// - `PastEnd` if the last picture is held past the end
/// - `TextTooLong` if there is a lead-in and its texts need more than 256 packs
/// - `LeadInShort` if the lead-in has no room for them or for the table of contents
/// - `Late` for the first picture that cannot be ready
///
/// All errors but `Late` are detected before anything is allocated, so `NoMemory` is returned only if none of them
/// occurs. Pictures are planned in allocated memory. Nothing is written before all checks and all allocations
/// succeeded. After `WriteFault` a prefix of the stream was written; the law `accepted_scripts_have_streams` says which
/// stream.
pub fn author_stream<K: Sink>(
    alloc: Global,
    sheet: &Sheet,
    script: &Script,
    lead_in: u32,
    length: u32,
    out: &mut K,
) -> Result<(), AuthorStop>
    requires lead_in { lead_in ≤ most_lead_in }
    requires length { length ≤ most_program }
    ensures answer { AnswersDisc (disc_of sheet.now script.now lead_in length) result }
    ensures written { WritesDisc K.held K.faults (disc_of sheet.now script.now lead_in length) out.old out.new
        result }
{
    author_in(&mut Heap::new(alloc), sheet, script, lead_in, length, out)
}

/// Writes the subcode of a disc like `author_stream`, with a heap that counts failed requests.
pub fn author_in<K: Sink>(
    heap: &mut Heap,
    sheet: &Sheet,
    script: &Script,
    lead_in: u32,
    length: u32,
    out: &mut K,
) -> Result<(), AuthorStop>
    requires lead_in { lead_in ≤ most_lead_in }
    requires length { length ≤ most_program }
    ensures answer { AnswersDisc (disc_of sheet.now script.now lead_in length) result }
    ensures written { WritesDisc K.held K.faults (disc_of sheet.now script.now lead_in length) out.old out.new
        result }
    // The error is `NoMemory` exactly if a request for memory failed.
    ensures allocations { ReportsFault AuthorStop.NoMemory heap.old heap.new result }
{
    // A law: a late picture cannot be ready.
    needs_are_fewest();
    script.times_rise_and_colours_are_in_range();
    let blocks = accept_disc(sheet, script, lead_in, length)?;
    let planned = plan_script(heap, script, blocks)?;
    author_planned(heap, sheet, script, planned, lead_in, length, out)
}

/// Writes the subcode of a disc like `author_stream`. The caller has accepted the disc and planned its changes.
///
/// # Errors
///
/// `NoMemory` before anything is written, or `WriteFault` after a prefix of the stream.
pub fn author_planned<K: Sink>(
    heap: &mut Heap,
    sheet: &Sheet,
    script: &Script,
    planned: Survey,
    lead_in: u32,
    length: u32,
    out: &mut K,
) -> Result<(), AuthorStop>
    requires lead_in { lead_in ≤ most_lead_in }
    requires disc { HoldsPictures sheet.now script.now length }
    requires room { HasRoom sheet.now lead_in }
    requires within { IsWithin script.now (program_blocks sheet.now length) }
    requires planned { IsSurvey script.now planned }
    // The only errors: memory ran out, or a write failed.
    ensures stop { IfErr result (λ stop. (stop ≡ AuthorStop.NoMemory) ⊎ (stop ≡ AuthorStop.WriteFault)) }
    ensures written { WritesDisc K.held K.faults (disc_of sheet.now script.now lead_in length) out.old out.new
        result }
    // The error is `NoMemory` exactly if a request for memory failed.
    ensures allocations { ReportsFault AuthorStop.NoMemory heap.old heap.new result }
{
    packs_are_a_schedule();
    // Laws: planned packs are a schedule, and the pictures of a script are in order and have sixteen colours.
    script.times_rise_and_colours_are_in_range();
    let inputs = allocate_inputs(heap, sheet, script, planned, lead_in, length)?;
    inputs.write(lead_in, out)?;
    Ok(())
}
