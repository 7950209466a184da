// Reads a script line by line, up to the first refused line. Its lines are kept as long as there is memory for them.
ghost use Rattle.std.specs.Prelude.{◌≡◌, ◌≤◌, ◌<◌, ◌+◌, ◌++◌, ◌∷◌, [], ℕ, List, map, true, length, IfOk, IfErr, OnOk};
ghost use Rattle.std.specs.List.{list_all};
ghost use Rattle.std.specs.Char.{is_ascii_hexdigit, digit_value};
ghost use Rattle.disc_time.specs.Counts.{time_count};
ghost use Rattle.cdg_instructions.specs.Sizes.{window_height, window_width};
ghost use Rattle.picture_script.specs.Script.{Drawing, Row, Show, pictures};
ghost use Rattle.picture_script.specs.ScriptGrammar.{is_after_hold, is_passed_over};
ghost use Rattle.picture_script.specs.Sizes.{most_pictures};
ghost use Rattle.picture_script.specs.declared.reasons.ScriptStop.{ScriptStop};
ghost use Rattle.text_lines.specs.Text.{without_blanks};
ghost use Rattle.picture_script.specs.Reader.{Followed, Follows};
ghost use Rattle.picture_script.specs.Stops.{StopsAt};

use crate::grammar::hex_digit;
use crate::reasons::{ScriptStop, ScriptWhy};
use crate::script::{Script, ScriptLine, Shown};
use std::alloc::{AllocError, Global};
use text_lines::{next_line, trim_start, without_mark};

/// The lines of a script that were read so far.
#[derive(Drop)]
pub(crate) struct ScriptDraft {
    pub(crate) lines: Vec<ScriptLine>,
    pub(crate) pixels: Vec<u8>,
    pub(crate) shown: Vec<Shown>,
}

impl ScriptDraft {
    ghost use Rattle.std.specs.Prelude.{◌<◌, ◌≤◌, ◌+◌, [], length};
    ghost use Rattle.disc_time.specs.Counts.{time_count};
    ghost use Rattle.picture_script.specs.Script.{pictures, Row, Show};
    ghost use Rattle.picture_script.specs.ScriptGrammar.{is_after_hold};
    ghost use Rattle.picture_script.specs.Sizes.{most_pictures};
    ghost use Rattle.cdg_instructions.specs.Sizes.{window_height, window_width};
    ghost use Rattle.picture_script.specs.Lines.{said, said_in, IsSound, Adds, is_kept, is_drawing};

    /// Adds a line that draws.
    pub(crate) fn push_line(&mut self, line: ScriptLine) -> Result<(), AllocError>
        requires sound { IsSound self.old }
        requires kept { is_kept (length self.old.pixels.items) line ≡ true }
        requires draws { is_drawing line ≡ true }
        ensures ok { OnOk result (Adds self.old self.new (said self.old.pixels.items line)) }
    {
        self.lines.push(line)?;
        Ok(())
    }

    /// Adds a row of pixels.
    pub(crate) fn push_row(&mut self, x: u16, y: u8, digits: &[u8]) -> Result<(), AllocError>
        requires sound { IsSound self.old }
        requires width { x + length digits.now ≤ window_width }
        requires height { y < window_height }
        requires digits { list_all is_ascii_hexdigit digits.now ≡ true }
        ensures ok { OnOk result (Adds self.old self.new (Row x y (map digit_value digits.now))) }
    {
        // A text of at most 64 MiB has fewer pixels than 2 ^ 32.
        let Ok(first) = u32::try_from(self.pixels.len()) else {
            return Err(AllocError);
        };
        push_pixels(&mut self.pixels, digits)?;
        self.push_line(ScriptLine::PixelRow {
            y,
            x,
            first,
            count: digits.len() as u16,
        })?;
        Ok(())
    }

    /// Adds a picture with its times.
    pub(crate) fn push_show(&mut self, ready: u32, hold: u32) -> Result<(), AllocError>
        requires sound { IsSound self.old }
        requires order { ready ≤ hold }
        requires ending { hold < time_count }
        requires after { is_after_hold (said_in self.old) ready ≡ true }
        requires room { pictures (said_in self.old) < most_pictures }
        ensures ok { OnOk result (Adds self.old self.new (Show ready hold)) }
    {
        let place = self.lines.len();
        self.lines.push(ScriptLine::ShowLine { ready, hold })?;
        self.shown.push(Shown { place, ready, hold })?;
        Ok(())
    }
}

// Appends the colours of a row.
fn push_pixels(pixels: &mut Vec<u8>, digits: &[u8]) -> Result<(), AllocError>
    requires digits { list_all is_ascii_hexdigit digits.now ≡ true }
    ensures ok { OnOk result (pixels.new.items ≡ pixels.old.items ++ map digit_value digits.now) }
{
    for digit in digits {
        let Some(colour) = hex_digit(*digit) else {
            unreachable!();
        };
        pixels.push(colour)?;
    }
    Ok(())
}

/// The state after some lines of a script: the number of pictures, the hold time of the last one, and the lines. If
/// memory runs out, the lines are dropped, and the later lines are still checked.
#[derive(Drop)]
pub(crate) struct ScriptReader {
    pub(crate) pictures: usize,
    held: u32,
    draft: Option<ScriptDraft>,
}

impl ScriptReader {
    ghost use Rattle.picture_script.specs.Lines.{said, is_kept, is_drawing};
    ghost use Rattle.picture_script.specs.Reader.{HasCounted, Followed, IsKeptBy};

    /// A reader before the first line.
    pub(crate) fn new(alloc: Global) -> ScriptReader
        ensures { Followed [] result }
    {
        ScriptReader {
            pictures: 0,
            held: 0,
            draft: Some(ScriptDraft {
                lines: Vec::new(alloc),
                pixels: Vec::new(alloc),
                shown: Vec::new(alloc),
            }),
        }
    }

    /// Whether a ready time is after the hold time of the previous picture.
    pub(crate) fn is_after_hold(&self, ready: u32) -> bool
        ensures { (before : List Drawing) → Followed before self.now → result ≡ is_after_hold before ready }
    {
        self.pictures == 0 || self.held < ready
    }

    /// Adds a line that draws. It is inlined, so that the line is not copied.
    #[inline(always)]
    pub(crate) fn take_drawing(&mut self, line: ScriptLine)
        requires read { (before : List Drawing) × Followed before self.old }
        requires kept { (size : ℕ) → is_kept size line ≡ true }
        requires draws { is_drawing line ≡ true }
        requires alone { (pixels : List ℕ) → said pixels line ≡ said [] line }
        ensures { (before : List Drawing) → Followed before self.old
            → Followed (before ++ said [] line ∷ []) self.new }
    {
        let kept = match &mut self.draft {
            Some(draft) => draft.push_line(line),
            None => return,
        };
        self.let_go(kept);
    }

    /// Adds a row of pixels.
    pub(crate) fn take_pixels(&mut self, x: u16, y: u8, digits: &[u8])
        requires read { (before : List Drawing) × Followed before self.old }
        requires width { x + length digits.now ≤ window_width }
        requires height { y < window_height }
        requires digits { list_all is_ascii_hexdigit digits.now ≡ true }
        ensures { (before : List Drawing) → Followed before self.old
            → Followed (before ++ Row x y (map digit_value digits.now) ∷ []) self.new }
    {
        let kept = match &mut self.draft {
            Some(draft) => draft.push_row(x, y, digits),
            None => return,
        };
        self.let_go(kept);
    }

    /// Adds a picture with its times.
    pub(crate) fn take_picture(&mut self, ready: u32, hold: u32)
        requires read { (before : List Drawing) × Followed before self.old
            × (is_after_hold before ready ≡ true) × (pictures before < most_pictures) }
        requires order { ready ≤ hold }
        requires ending { hold < time_count }
        ensures { (before : List Drawing) → Followed before self.old
            → Followed (before ++ Show ready hold ∷ []) self.new }
    {
        self.pictures += 1;
        self.held = hold;
        let kept = match &mut self.draft {
            Some(draft) => draft.push_show(ready, hold),
            None => return,
        };
        self.let_go(kept);
    }

    // Drops all lines if there was no memory for the last one.
    fn let_go(&mut self, kept: Result<(), AllocError>)
        ensures { (script : List Drawing) → HasCounted script self.old → OnOk kept (IsKeptBy script self.old)
            → Followed script self.new }
    {
        if kept.is_err() {
            self.draft = None;
        }
    }

    /// The script of all lines, if there was memory for them.
    pub(crate) fn finish(self) -> Result<Script, ScriptStop>
        requires { (script : List Drawing) × Followed script self }
        ensures ok { (script : List Drawing) → Followed script self → IfOk result (λ made. made ≡ script) }
        ensures err { IfErr result (λ stop. stop ≡ ScriptStop.NoMemory) }
    {
        match self.draft {
            Some(draft) => {
                let ScriptDraft {
                    lines,
                    pixels,
                    shown,
                } = draft;
                Ok(Script {
                    lines,
                    pixels,
                    shown,
                })
            }
            None => Err(ScriptStop::NoMemory),
        }
    }
}

impl ScriptReader {
    fn read_line(&mut self, line: &[u8]) -> Result<(), ScriptWhy>
        requires { (before : List Drawing) × Followed before self.old }
        ensures { (before : List Drawing) → Followed before self.old
            → Follows before line.now self.new result }
    {
        let rest = trim_start(line);
        if is_nothing(rest) {
            return Ok(());
        }
        self.take_line(rest)
    }
}

impl Script {
    ghost use Rattle.std.specs.Prelude.{◌≤◌, length, Ok, IfOk, IfErr};
    ghost use Rattle.text_lines.specs.Text.{most_text_bytes};
    ghost use Rattle.picture_script.specs.ScriptGrammar.{read_script};

    /// Reads a script of at most 67,108,864 bytes.
    ///
    /// A line ends with a line feed; a carriage return before it is ignored. The text may begin with the bytes EF BB
    /// BF. Empty lines and lines that begin with `#` are ignored. The commands are `colour K 0RGB`, `border K`, `fill
    /// K`, `rect X Y W H K`, `row X Y DIGITS` and `show READY HOLD`. Numbers have one to three decimal digits: K is 0
    /// to 15, W and H are at least 1, and drawings are within the window of 288 by 192 pixels, whose first pixel is (0,
    /// 0). The digits of a colour and of pixels are hexadecimal, in upper or lower case. The times are `MM:SS:FF` below
    /// 100 minutes, and each picture is ready after the hold time of the previous one. There are at most 20,000
    /// pictures.
    ///
    /// # Errors
    ///
    /// `Fault` for the first refused line with its first reason, whether or not memory runs out. `NoMemory` if no line
    /// is refused and memory runs out.
    #[inline(never)]
    pub fn parse(alloc: Global, text: &[u8]) -> Result<Script, ScriptStop>
        requires { length text.now ≤ most_text_bytes }
        ensures ok { IfOk result (λ script. read_script text.now ≡ Ok script) }
        ensures err { IfErr result (StopsAt (read_script text.now)) }
    {
        let mut reader = ScriptReader::new(alloc);
        let mut rest = without_mark(text);
        let mut number = 1u32;
        while let Some((line, after)) = next_line(rest) {
            if let Err(why) = reader.read_line(line) {
                drop(reader);
                return Err(ScriptStop::Fault { line: number, why });
            }
            number += 1;
            rest = after;
        }
        reader.finish()
    }
}

/// Whether a line is ignored: it is empty, or a remark.
pub(crate) fn is_passed_over(line: &[u8]) -> bool
    ensures { result ≡ is_passed_over line.now }
{
    is_nothing(trim_start(line))
}

// Whether a line without leading blanks is ignored.
fn is_nothing(rest: &[u8]) -> bool
    ensures { (line : List ℕ) → rest.now ≡ without_blanks line → result ≡ is_passed_over line }
{
    rest.is_empty() || rest[0] == b'#'
}
