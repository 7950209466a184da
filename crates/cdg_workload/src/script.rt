// The script of a seed.
ghost use Rattle.std.specs.Prelude.{◌≡◌, ◌<◌, ◌≤◌, ◌+◌, ◌/◌, ◌%◌, ◌++◌, length, OnOk, OnErr, ◌*◌, ℕ, Ok};
ghost use Rattle.std.specs.Io.KnownBytes.{Appends};
ghost use Rattle.cdg_io.specs.Causes.{HasCause};
ghost use Rattle.cdg_io.specs.Moves.{AppendsPrefix};
ghost use Rattle.cdg_workload.specs.Script.{generated_show_line, generated_script, most_generated, ready_block, hold_block};
ghost use Rattle.cdg_workload.specs.Pictures.{after_two, rect_from, picture_from};
ghost use Rattle.picture_script.specs.Script.{pictures, ready_time, hold_time};
ghost use Rattle.picture_script.specs.ScriptGrammar.{read_script};
ghost use Rattle.cdg_workload.specs.Generated.{generated_drawings};
ghost use Rattle.cdg_workload.specs.Generator.{generator};

use cdg_io::{Failed, Piece, Sink, put_all};
use disc_time::Msf;
use itoa::{Buffer, Integer};
use rand_core::utils::NextWord;
use rand_pcg::Pcg32;

/// The number of blocks from the ready time of a picture to that of the next, and from the beginning to the
/// first.
pub const BLOCKS_A_PICTURE: u32 = 800;

/// The number of blocks for which a picture is held.
pub const BLOCKS_HELD: u32 = 20;

/// The maximum number of pictures in a script. With them and a pause the longest trial has 400,170 program
/// blocks, and a disc has room for 449,999.
pub const MOST_GENERATED: u32 = 500;

// Sixteen greys, a line for each colour.
static GREYS: [u8; 230] = *b"\
    colour 0 0000\n\
    colour 1 0111\n\
    colour 2 0222\n\
    colour 3 0333\n\
    colour 4 0444\n\
    colour 5 0555\n\
    colour 6 0666\n\
    colour 7 0777\n\
    colour 8 0888\n\
    colour 9 0999\n\
    colour 10 0aaa\n\
    colour 11 0bbb\n\
    colour 12 0ccc\n\
    colour 13 0ddd\n\
    colour 14 0eee\n\
    colour 15 0fff\n";

/// Writes a script of 1 to 500 pictures that a seed determines: a line for each of sixteen greys, and for each
/// picture those of three more rectangles and of its times. Picture k, from 0, is ready at block 800 (k + 1) and held
/// for twenty blocks.
///
/// # Errors
///
/// After `Failed` a prefix of the script was written.
pub fn write_script<K: Sink>(seed: u64, pictures: u32, out: &mut K) -> Result<(), Failed>
    requires { (1 ≤ pictures) × (pictures ≤ most_generated) }
    ensures ok { OnOk result (Appends (K.held out.old) (K.held out.new) (generated_script seed pictures)) }
    ensures part { OnErr result
        (AppendsPrefix (K.held out.old) (K.held out.new) (generated_script seed pictures)) }
    ensures cause { HasCause (K.faults out.old) (K.faults out.new) result }
{
    put_all(out, &GREYS)?;
    let mut words = generator(seed);
    for k in 0..pictures {
        put_all(out, picture(&mut words, k).bytes())?;
    }
    Ok(())
}

// The lines of a picture, made from the next six words.
#[tactic(auto, unfolding(crate::specs::Pictures::picture_from))]
fn picture(words: &mut Pcg32, k: u32) -> Piece
    requires { k < most_generated }
    ensures words { words.new ≡ after_two (after_two (after_two words.old)) }
    ensures lines { result ≡ picture_from words.old k }
{
    let mut lines = Piece::new();
    add_rect(&mut lines, words);
    add_rect(&mut lines, words);
    add_rect(&mut lines, words);
    add_show(&mut lines, k);
    lines
}

// Appends the line of a rectangle, made from the next two words.
#[tactic(auto, unfolding(crate::specs::Pictures::after_two, crate::specs::Pictures::rect_from, crate::specs::Script::generated_rect_line))]
fn add_rect(lines: &mut Piece, words: &mut Pcg32)
    requires { length lines.old ≤ 95 }
    ensures words { words.new ≡ after_two words.old }
    ensures line { lines.new ≡ lines.old ++ rect_from words.old }
    ensures size { length lines.new ≤ length lines.old + 33 }
{
    let place = words.next_word();
    let size = words.next_word();
    let x = low_half(place) % 288;
    let y = high_half(place) % 192;
    lines.add(b"rect ");
    add_number(lines, x);
    lines.add(b" ");
    add_number(lines, y);
    lines.add(b" ");
    add_number(lines, 1 + low_half(size) % (288 - x));
    lines.add(b" ");
    add_number(lines, 1 + high_half(size) % (192 - y));
    lines.add(b" ");
    add_number(lines, (size / 256 % 16) as u8);
    lines.add(b"\n");
}

fn low_half(word: u32) -> u16
    ensures { result ≡ word % 65536 }
{
    (word % 65536) as u16
}

fn high_half(word: u32) -> u16
    ensures { result ≡ word / 65536 }
{
    (word >> 16) as u16
}

// Appends a number in decimal.
fn add_number<I: Integer>(lines: &mut Piece, n: I)
    requires { length lines.old + I.MAX_STR_LEN ≤ 128 }
    ensures text { lines.new ≡ lines.old ++ I.text n }
    ensures size { length lines.new ≤ length lines.old + I.MAX_STR_LEN }
{
    let mut buffer = Buffer::new();
    lines.add(buffer.format(n).as_bytes());
}

// Appends the line of the times of picture k.
#[tactic(auto, unfolding(crate::specs::Script::generated_show_line))]
fn add_show(lines: &mut Piece, k: u32)
    requires number { k < most_generated }
    requires room { length lines.old ≤ 105 }
    ensures { lines.new ≡ lines.old ++ generated_show_line k }
{
    let ready = BLOCKS_A_PICTURE * (k + 1);
    lines.add(b"show ");
    lines.add(&Msf::of_block(ready).text());
    lines.add(b" ");
    lines.add(&Msf::of_block(ready + BLOCKS_HELD).text());
    lines.add(b"\n");
}

/// A law: every generated script is accepted, and read as these drawings.
pub fn generated_scripts_are_read()
    ensures { (seed count : ℕ) → count ≤ most_generated
        → read_script (generated_script seed count) ≡ Ok (generated_drawings seed count) }
{}

/// A law: a generated script has at most 230 bytes of colours, and 95 of each picture.
pub fn generated_scripts_are_short()
    ensures { (seed count : ℕ) → length (generated_script seed count) ≤ 230 + 95 * count }
{}

/// A law: picture k of a generated script is ready at block 800 (k + 1) and held for twenty blocks, so 780 blocks
/// come between two pictures.
pub fn generated_scripts_have_times()
    ensures pictures { (seed count : ℕ) → pictures (generated_drawings seed count) ≡ count }
    ensures ready { (seed count k : ℕ) → k < count
        → ready_time (generated_drawings seed count) k ≡ ready_block k }
    ensures hold { (seed count k : ℕ) → k < count
        → hold_time (generated_drawings seed count) k ≡ hold_block k }
{}

// The number of the generator's stream for scripts and scratches.
const STREAM: u64 = 54;

#[tactic(auto, unfolding(crate::specs::Generator::generator))]
pub(crate) fn generator(seed: u64) -> Pcg32
    ensures { result ≡ generator seed }
{
    Pcg32::new(seed, STREAM)
}
