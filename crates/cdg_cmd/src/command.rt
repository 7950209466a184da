// Each command with its numbers, and the words and options that spell it.
ghost use Rattle.std.specs.Prelude.{◌≡◌, ◌≢◌, ◌≤◌, ◌<◌, ◌^◌, ◌↔◌, IfSome, Some, ℕ, codes, decimal, IsTrue};
ghost use Rattle.cdg_cmd.specs.Words.{texts, IsLeadInOption, IsLengths, IsMoment, IsScratchOptions, IsSeedOptions, IsStreamOptions, IsTimedOptions, form_name, IsFormOption};
ghost use Rattle.cdg_cmd.specs.Spelling.{ReadsCommand, Spells};
ghost use Rattle.cdg_workload.specs.Script.{most_generated};
ghost use Rattle.disc_time.specs.Counts.{most_lead_in, time_count};
ghost use Rattle.raw_subcode.specs.declared.form.Form.{Form};
ghost use Rattle.disc_time.specs.Time.{time_text};

use cdg_workload::MOST_GENERATED;
use disc_time::{MOST_LEAD_IN, parse_time};
use itoa::Buffer;
use raw_subcode::Form;

/// A command with its numbers. A time is the number of its block.
#[derive(Clone, Copy, Debug, PartialEq, Eq)]
pub enum Command {
    /// Writes the packs of a stream.
    Convert { lead_in: u32, form: Form },
    /// Writes the picture at a moment of a stream.
    Screen { lead_in: u32, form: Form, at: u32 },
    /// Writes the state of the screen at a moment of a stream.
    State { lead_in: u32, form: Form, at: u32 },
    /// Writes the counts of a stream.
    Check { lead_in: u32, form: Form },
    /// Writes the lines of the Q channel of a stream.
    Q { lead_in: u32, form: Form },
    /// Writes the texts of the lead-in of a stream.
    Text { lead_in: u32, form: Form },
    /// Writes the stream of a cue sheet and a picture script. The length is that of the audio, in blocks.
    Author { lead_in: u32, length: u32 },
    /// Writes the planar form of each block.
    Planar,
    /// Writes the block of each planar form.
    Raw,
    /// Writes a stream with the scratches of a seed.
    Scratch { lead_in: u32, seed: u64 },
    /// Writes the script of a seed.
    Gen { seed: u64, pictures: u32 },
    /// Writes the results of a trial with a seed.
    Trial { seed: u64, pictures: u32 },
    /// Writes the packs on which two readings of a stream agree.
    Merge { lead_in: u32 },
    /// Writes the thin form of a file of packs.
    Thin,
    /// Writes the stream of a cue sheet and a file of packs. The length is that of the audio, in blocks.
    Press { lead_in: u32, length: u32 },
    /// Writes a checkpoint after a stream.
    Save { lead_in: u32 },
    /// Writes the picture at a moment of a stream. The inputs are a checkpoint and the rest of the stream.
    Resume { at: u32 },
}

/// The command that the words spell, or `None` if they spell none.
pub fn read_words(words: &[String]) -> Option<Command>
    ensures spelled { IfSome result (λ command. Spells command (texts words.now)) }
    ensures all { (command : Command) → Spells command (texts words.now) → result ≡ Some command }
{
    let (name, options) = words.split_first()?;
    read_command(name, options)
}

fn read_command(name: &str, options: &[String]) -> Option<Command>
    ensures { ReadsCommand name.now (texts options.now) result }
{
    match name {
        "convert" => read_convert(options),
        "screen" => read_screen(options),
        "state" => read_state(options),
        "check" => read_check(options),
        "q" => read_q(options),
        "text" => read_text(options),
        "author" => read_author(options),
        "planar" if options.is_empty() => Some(Command::Planar),
        "raw" if options.is_empty() => Some(Command::Raw),
        "scratch" => read_scratch(options),
        "gen" => read_gen(options),
        "trial" => read_trial(options),
        "merge" => read_merge(options),
        "thin" if options.is_empty() => Some(Command::Thin),
        "press" => read_press(options),
        "save" => read_save(options),
        "resume" => read_resume(options),
        _ => None,
    }
}

fn read_convert(options: &[String]) -> Option<Command>
    ensures { ReadsCommand (codes "convert") (texts options.now) result }
{
    let StreamOptions { lead_in, form } = read_stream(options)?;
    Some(Command::Convert { lead_in, form })
}

fn read_screen(options: &[String]) -> Option<Command>
    ensures { ReadsCommand (codes "screen") (texts options.now) result }
{
    let TimedOptions { lead_in, form, at } = read_timed(options)?;
    Some(Command::Screen { lead_in, form, at })
}

fn read_state(options: &[String]) -> Option<Command>
    ensures { ReadsCommand (codes "state") (texts options.now) result }
{
    let TimedOptions { lead_in, form, at } = read_timed(options)?;
    Some(Command::State { lead_in, form, at })
}

fn read_check(options: &[String]) -> Option<Command>
    ensures { ReadsCommand (codes "check") (texts options.now) result }
{
    let StreamOptions { lead_in, form } = read_stream(options)?;
    Some(Command::Check { lead_in, form })
}

fn read_q(options: &[String]) -> Option<Command>
    ensures { ReadsCommand (codes "q") (texts options.now) result }
{
    let StreamOptions { lead_in, form } = read_blocks(options)?;
    Some(Command::Q { lead_in, form })
}

fn read_text(options: &[String]) -> Option<Command>
    ensures { ReadsCommand (codes "text") (texts options.now) result }
{
    let StreamOptions { lead_in, form } = read_blocks(options)?;
    Some(Command::Text { lead_in, form })
}

fn read_author(options: &[String]) -> Option<Command>
    ensures { ReadsCommand (codes "author") (texts options.now) result }
{
    let Lengths { lead_in, length } = read_lengths(options)?;
    Some(Command::Author { lead_in, length })
}

fn read_scratch(options: &[String]) -> Option<Command>
    ensures { ReadsCommand (codes "scratch") (texts options.now) result }
{
    let ScratchOptions { lead_in, seed } = read_scratches(options)?;
    Some(Command::Scratch { lead_in, seed })
}

fn read_gen(options: &[String]) -> Option<Command>
    ensures { ReadsCommand (codes "gen") (texts options.now) result }
{
    let SeedOptions { seed, pictures } = read_seeded(options)?;
    Some(Command::Gen { seed, pictures })
}

fn read_trial(options: &[String]) -> Option<Command>
    ensures { ReadsCommand (codes "trial") (texts options.now) result }
{
    let SeedOptions { seed, pictures } = read_seeded(options)?;
    Some(Command::Trial { seed, pictures })
}

fn read_merge(options: &[String]) -> Option<Command>
    ensures { ReadsCommand (codes "merge") (texts options.now) result }
{
    let lead_in = only_lead_in(options)?;
    Some(Command::Merge { lead_in })
}

fn read_press(options: &[String]) -> Option<Command>
    ensures { ReadsCommand (codes "press") (texts options.now) result }
{
    let Lengths { lead_in, length } = read_lengths(options)?;
    Some(Command::Press { lead_in, length })
}

fn read_save(options: &[String]) -> Option<Command>
    ensures { ReadsCommand (codes "save") (texts options.now) result }
{
    let lead_in = only_lead_in(options)?;
    Some(Command::Save { lead_in })
}

fn read_resume(options: &[String]) -> Option<Command>
    ensures { ReadsCommand (codes "resume") (texts options.now) result }
{
    let at = only_moment(options)?;
    Some(Command::Resume { at })
}

// The number of lead-in blocks of a stream, and its form.
#[derive(Clone, Copy)]
struct StreamOptions {
    pub lead_in: u32,
    pub form: Form,
}

// The options of a stream: its lead-in, and its form if one is named.
fn read_stream(words: &[String]) -> Option<StreamOptions>
    ensures spelled { IfSome result (λ o. (o.lead_in ≤ most_lead_in)
        × IsStreamOptions o.lead_in o.form (texts words.now)) }
    ensures all { (lead_in : ℕ) (form : Form) → lead_in ≤ most_lead_in
        → IsStreamOptions lead_in form (texts words.now)
        → result ≡ Some (record { lead_in = lead_in; form = form }) }
{
    match words {
        [option, number, rest @ ..] => Some(StreamOptions {
            lead_in: read_lead_in(option, number)?,
            form: read_form(rest)?,
        }),
        _ => None,
    }
}

// The options of a stream whose blocks have a Q channel.
fn read_blocks(words: &[String]) -> Option<StreamOptions>
    ensures spelled { IfSome result (λ o. (o.lead_in ≤ most_lead_in) × (o.form ≢ Form.Cooked)
        × IsStreamOptions o.lead_in o.form (texts words.now)) }
    ensures all { (lead_in : ℕ) (form : Form) → lead_in ≤ most_lead_in → form ≢ Form.Cooked
        → IsStreamOptions lead_in form (texts words.now)
        → result ≡ Some (record { lead_in = lead_in; form = form }) }
{
    let stream = read_stream(words)?;
    if stream.form == Form::Cooked {
        return None;
    }
    Some(stream)
}

#[derive(Clone, Copy)]
struct TimedOptions {
    pub lead_in: u32,
    pub form: Form,
    pub at: u32,
}

fn read_timed(words: &[String]) -> Option<TimedOptions>
    ensures spelled { IfSome result (λ o. (o.lead_in ≤ most_lead_in) × (o.at < time_count)
        × IsTimedOptions o.lead_in o.form o.at (texts words.now)) }
    ensures all { (lead_in : ℕ) (form : Form) (at : ℕ) → lead_in ≤ most_lead_in → at < time_count
        → IsTimedOptions lead_in form at (texts words.now)
        → result ≡ Some (record { lead_in = lead_in; form = form; at = at }) }
{
    match words {
        [options @ .., option, time] => {
            let StreamOptions { lead_in, form } = read_stream(options)?;
            let at = read_time("--at", option, time)?;
            Some(TimedOptions { lead_in, form, at })
        }
        _ => None,
    }
}

// The lengths of a lead-in and of an audio, in blocks.
#[derive(Clone, Copy)]
struct Lengths {
    pub lead_in: u32,
    pub length: u32,
}

fn read_lengths(words: &[String]) -> Option<Lengths>
    ensures spelled { IfSome result (λ o. (o.lead_in ≤ most_lead_in) × (o.length < time_count)
        × IsLengths o.lead_in o.length (texts words.now)) }
    ensures all { (lead_in length : ℕ) → lead_in ≤ most_lead_in → length < time_count
        → IsLengths lead_in length (texts words.now)
        → result ≡ Some (record { lead_in = lead_in; length = length }) }
{
    match words {
        [option, number, second, time] => Some(Lengths {
            lead_in: read_lead_in(option, number)?,
            length: read_time("--length", second, time)?,
        }),
        _ => None,
    }
}

#[derive(Clone, Copy)]
struct SeedOptions {
    pub seed: u64,
    pub pictures: u32,
}

// A seed and a number of pictures, which is 1 to 500.
fn read_seeded(words: &[String]) -> Option<SeedOptions>
    ensures spelled { IfSome result (λ o. (o.seed < 2 ^ 64) × (1 ≤ o.pictures) × (o.pictures ≤ most_generated)
        × IsSeedOptions o.seed o.pictures (texts words.now)) }
    ensures all { (seed pictures : ℕ) → seed < 2 ^ 64 → 1 ≤ pictures → pictures ≤ most_generated
        → IsSeedOptions seed pictures (texts words.now)
        → result ≡ Some (record { seed = seed; pictures = pictures }) }
{
    match words {
        [option, number, second, count] => Some(SeedOptions {
            seed: read_seed(option, number)?,
            pictures: read_pictures(second, count)?,
        }),
        _ => None,
    }
}

#[derive(Clone, Copy)]
struct ScratchOptions {
    pub lead_in: u32,
    pub seed: u64,
}

fn read_scratches(words: &[String]) -> Option<ScratchOptions>
    ensures spelled { IfSome result (λ o. (o.lead_in ≤ most_lead_in) × (o.seed < 2 ^ 64)
        × IsScratchOptions o.lead_in o.seed (texts words.now)) }
    ensures all { (lead_in seed : ℕ) → lead_in ≤ most_lead_in → seed < 2 ^ 64
        → IsScratchOptions lead_in seed (texts words.now)
        → result ≡ Some (record { lead_in = lead_in; seed = seed }) }
{
    match words {
        [option, number, second, count] => Some(ScratchOptions {
            lead_in: read_lead_in(option, number)?,
            seed: read_seed(second, count)?,
        }),
        _ => None,
    }
}

fn only_lead_in(words: &[String]) -> Option<u32>
    ensures spelled { IfSome result (λ n. (n ≤ most_lead_in) × IsLeadInOption n (texts words.now)) }
    ensures all { (n : ℕ) → n ≤ most_lead_in → IsLeadInOption n (texts words.now) → result ≡ Some n }
{
    match words {
        [option, number] => read_lead_in(option, number),
        _ => None,
    }
}

fn only_moment(words: &[String]) -> Option<u32>
    ensures spelled { IfSome result (λ n. (n < time_count) × IsMoment n (texts words.now)) }
    ensures all { (n : ℕ) → n < time_count → IsMoment n (texts words.now) → result ≡ Some n }
{
    match words {
        [option, time] => read_time("--at", option, time),
        _ => None,
    }
}

// Whether a word is this number in decimal, with no leading zero.
fn is_decimal(word: &str, number: u64) -> bool
    ensures { IsTrue result ↔ (word.now ≡ decimal number) }
{
    Buffer::new().format(number) == word
}

// The number that a word writes in decimal, with no leading zero, if it is at most `most`.
#[tactic(auto, using(crate::proofs::Decimals::parsed_back))]
fn read_number(word: &str, most: u64) -> Option<u64>
    ensures written { IfSome result (λ n. (n ≤ most) × (word.now ≡ decimal n)) }
    ensures all { (n : ℕ) → n ≤ most → word.now ≡ decimal n → result ≡ Some n }
{
    let Ok(number) = word.parse::<u64>() else {
        return None;
    };
    if number > most {
        return None;
    }
    if !is_decimal(word, number) {
        return None;
    }
    Some(number)
}

fn read_lead_in(option: &str, number: &str) -> Option<u32>
    ensures spelled { IfSome result (λ n. (n ≤ most_lead_in) × (option.now ≡ codes "--lead-in")
        × (number.now ≡ decimal n)) }
    ensures all { (n : ℕ) → n ≤ most_lead_in → option.now ≡ codes "--lead-in" → number.now ≡ decimal n
        → result ≡ Some n }
{
    if option != "--lead-in" {
        return None;
    }
    let lead_in = read_number(number, u64::from(MOST_LEAD_IN))?;
    Some(lead_in as u32)
}

fn read_seed(option: &str, number: &str) -> Option<u64>
    ensures spelled { IfSome result (λ n. (option.now ≡ codes "--seed") × (number.now ≡ decimal n)) }
    ensures all { (n : ℕ) → n < 2 ^ 64 → option.now ≡ codes "--seed" → number.now ≡ decimal n
        → result ≡ Some n }
{
    if option != "--seed" {
        return None;
    }
    read_number(number, u64::MAX)
}

// The number of pictures, 1 to 500.
fn read_pictures(option: &str, number: &str) -> Option<u32>
    ensures spelled { IfSome result (λ n. (1 ≤ n) × (n ≤ most_generated) × (option.now ≡ codes "--pictures")
        × (number.now ≡ decimal n)) }
    ensures all { (n : ℕ) → 1 ≤ n → n ≤ most_generated → option.now ≡ codes "--pictures"
        → number.now ≡ decimal n
        → result ≡ Some n }
{
    if option != "--pictures" {
        return None;
    }
    let pictures = read_number(number, u64::from(MOST_GENERATED))?;
    if pictures == 0 {
        return None;
    }
    Some(pictures as u32)
}

// The block of the time of the option with this name.
fn read_time(name: &str, option: &str, time: &str) -> Option<u32>
    ensures spelled { IfSome result (λ n. (n < time_count) × (option.now ≡ name.now)
        × (time.now ≡ time_text n)) }
    ensures all { (n : ℕ) → n < time_count → option.now ≡ name.now → time.now ≡ time_text n
        → result ≡ Some n }
{
    if option != name {
        return None;
    }
    parse_time(time.as_bytes())
}

// The form that words name, or raw if there are no words.
fn read_form(words: &[String]) -> Option<Form>
    ensures spelled { IfSome result (λ form. IsFormOption form (texts words.now)) }
    ensures all { (form : Form) → IsFormOption form (texts words.now) → result ≡ Some form }
{
    match words {
        [] => Some(Form::Raw),
        [option, name] => named_form(option, name),
        _ => None,
    }
}

fn named_form(option: &str, name: &str) -> Option<Form>
    ensures spelled { IfSome result (λ form. (option.now ≡ codes "--form") × (name.now ≡ form_name form)) }
    ensures all { (form : Form) → option.now ≡ codes "--form" → name.now ≡ form_name form
        → result ≡ Some form }
{
    if option != "--form" {
        return None;
    }
    match name {
        "raw" => Some(Form::Raw),
        "sector" => Some(Form::Sector),
        "cooked" => Some(Form::Cooked),
        _ => None,
    }
}

/// The number of words that belong to the command of a line, and the number of names that follow them.
#[derive(Clone, Copy, Debug, PartialEq, Eq)]
pub struct Split {
    pub words: usize,
    pub names: usize,
}
