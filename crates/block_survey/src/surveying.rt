// The rows of a stream.
ghost use Rattle.std.specs.Prelude.{◌≡◌, ◌<◌, ◌≤◌, ◌+◌, ◌-◌, ◌/◌, ◌++◌, [], ℕ, List, length, take, drop, slice_index_or, ◌==◌};
ghost use Rattle.std.specs.List.{list_all};
ghost use Rattle.raw_subcode.specs.Channels.{blocks_of, unit_size};
ghost use Rattle.raw_subcode.specs.Sizes.{block_bytes};
ghost use Rattle.raw_subcode.specs.declared.form.Form.{Form};
ghost use Rattle.stream_stages.specs.Check.{IsCheckListed};
ghost use Rattle.stream_stages.specs.Steps.{words_give, words_next};
ghost use Rattle.block_survey.specs.Rows.{row_with, survey_rows, marks_of, words_with_block, AddUpTo};

use crate::counting::WordMarks;
use crate::reading::FrameMark;
use cdg_io::Stage;
use raw_subcode::{BLOCK_BYTES, Form, SECTOR_BYTES};
use stream_stages::BlockWords;

/// The value of `BlockRow::absolute` if there is no absolute time.
pub const NO_TIME: u32 = u32::MAX;

/// The survey of one block of a stream.
#[repr(C)]
#[derive(Clone, Copy)]
pub struct BlockRow {
    /// The absolute time of a frame of the program area, in blocks, or `NO_TIME`.
    pub absolute: u32,
    /// The number of words that end with the block and are codewords.
    pub clean: u8,
    /// The number of words with one wrong symbol.
    pub one: u8,
    /// The number of words with two wrong symbols.
    pub two: u8,
    /// The number of words with no codeword within two symbols.
    pub bad: u8,
    /// The kind of the Q frame, 0 to 7, as in `PlainFrame`; 253 for a stream of packs, 254 if a field is out of range,
    /// 255 if the check is wrong.
    pub q: u8,
    /// The track of the frame (kinds 0 to 3), or 0.
    pub track: u8,
    /// The index of the frame (kind 0), or 0.
    pub index: u8,
    /// 1 if all 96 bytes are zero, else 0.
    pub empty: u8,
}

/// Writes a row for each whole block of a stream to the front of `rows`. The first `lead_in` blocks are the lead-in.
/// Bytes after the last whole block are ignored. It allocates nothing.
pub fn survey(form: Form, lead_in: u32, stream: &[u8], rows: &mut [BlockRow])
    requires { length stream.now / unit_size form ≤ length rows.old }
    ensures { rows.new ≡ survey_rows form lead_in stream.now
        ++ drop (length stream.now / unit_size form) rows.old }
{
    let mut words = BlockWords::new();
    words.begin(lead_in, form);
    for b in 0..stream.len() / unit_bytes(form) {
        let block = block_at(form, stream, b);
        rows[b] = next_row(form, &mut words, &block);
    }
}

fn next_row(form: Form, words: &mut BlockWords, block: &[u8; BLOCK_BYTES]) -> BlockRow
    ensures next { words.new ≡ words_next words.old block.now }
    ensures row { result ≡ row_with form (words_with_block (words_give words.old block.now)) block.now }
{
    let marks = marks_with(words, block);
    let frame = FrameMark::of_block(form, block);
    BlockRow {
        absolute: frame.absolute,
        clean: marks.clean,
        one: marks.one,
        two: marks.two,
        bad: marks.bad,
        q: frame.kind,
        track: frame.track,
        index: frame.index,
        empty: u8::from(is_empty(block)),
    }
}

#[inline]
fn marks_with(words: &mut BlockWords, block: &[u8; BLOCK_BYTES]) -> WordMarks
    ensures next { words.new ≡ words_next words.old block.now }
    ensures marks { result ≡ marks_of (words_with_block (words_give words.old block.now)) }
{
    match words.feed(block) {
        Some(ended) => WordMarks::of_block(&ended),
        None => WordMarks::none(),
    }
}

#[inline]
fn is_empty(block: &[u8; BLOCK_BYTES]) -> bool
    ensures { result ≡ list_all (λ byte. byte == 0) block.now }
{
    *block == [0; BLOCK_BYTES]
}

/// The size of a block in a stream of this form, in bytes.
#[inline]
pub fn unit_bytes(form: Form) -> usize
    ensures { result ≡ unit_size form }
{
    match form {
        Form::Sector => SECTOR_BYTES,
        Form::Raw | Form::Cooked => BLOCK_BYTES,
    }
}

/// Block b of a stream, which must be a whole block.
#[inline]
pub fn block_at(form: Form, stream: &[u8], b: usize) -> [u8; BLOCK_BYTES]
    requires { b < length stream.now / unit_size form }
    ensures { result ≡ slice_index_or (blocks_of form stream.now) b [] }
{
    let size = unit_bytes(form);
    bytes_at(stream, size * b + size - BLOCK_BYTES)
}

#[inline]
fn bytes_at(stream: &[u8], at: usize) -> [u8; BLOCK_BYTES]
    requires { at + block_bytes ≤ length stream.now }
    ensures { result ≡ take block_bytes (drop at stream.now) }
{
    let mut block = [0; BLOCK_BYTES];
    block.copy_from_slice(&stream[at..at + BLOCK_BYTES]);
    block
}

/// A law: for any stream, the sums of its rows are the numbers of words and Q frames that `check` reports.
pub fn rows_add_up_to_check()
    ensures { (form : Form) (lead_in : ℕ) (bytes text : List ℕ) (bad : ℕ)
        → IsCheckListed form lead_in bytes text bad → AddUpTo (survey_rows form lead_in bytes) text bad }
{}
