// The numbers of the show lines in the text of a script.
ghost use Rattle.std.specs.Prelude.{◌≡◌, ◌≤◌, ◌+◌, ◌∷◌, [], List, ℕ, Ok, length, MatchOption};
ghost use Rattle.text_lines.specs.Text.{lines_in, most_text_bytes};
ghost use Rattle.picture_script.specs.Script.{Drawing, pictures};
ghost use Rattle.picture_script.specs.ScriptGrammar.{read_script};
ghost use Rattle.picture_script.specs.ShowLines.{is_show_line, show_lines, show_lines_from};

use crate::reader::is_passed_over;
use std::marker::Model;
use text_lines::{next_line, next_word, without_mark};

/// The numbers of the show lines in the text of a script, one after another. All lines are counted, from 1.
///
/// A contract sees the numbers that are still to come.
#[derive(Drop)]
pub struct ShowLines<'a> {
    rest: &'a [u8],
    number: u32,
}

impl<'a> Model for ShowLines<'a> {
    ghost Value = { List ℕ };

    ghost view = { λ s. show_lines_from s.number (lines_in s.rest.now) };

    ghost invariant = { λ s. s.number + length s.rest.now ≤ most_text_bytes + 1 };
}

impl<'a> ShowLines<'a> {
    /// The show lines of a text.
    pub fn of(text: &'a [u8]) -> ShowLines<'a>
        requires { length text.now ≤ most_text_bytes }
        ensures { result ≡ show_lines text.now }
    {
        ShowLines {
            rest: without_mark(text),
            number: 1,
        }
    }

    /// The number of the next show line, or `None` after the last one.
    pub fn next_number(&mut self) -> Option<u32>
        ensures { MatchOption result ((self.old ≡ []) × (self.new ≡ []))
            (λ number. self.old ≡ number ∷ self.new) }
    {
        match next_show_line(self.rest, self.number) {
            Some((number, rest)) => {
                self.rest = rest;
                self.number = number + 1;
                Some(number)
            }
            None => None,
        }
    }
}

// The number of the first show line in a text whose lines are counted from `number` on, and the text after that line.
fn next_show_line(text: &[u8], number: u32) -> Option<(u32, &[u8])>
    requires { number + length text.now ≤ most_text_bytes + 1 }
    ensures found { MatchOption result (show_lines_from number (lines_in text.now) ≡ [])
        (λ found. show_lines_from number (lines_in text.now)
        ≡ found.0 ∷ show_lines_from (found.0 + 1) (lines_in found.1.now)) }
    ensures few { MatchOption result (number + length text.now ≤ most_text_bytes + 1)
        (λ found. found.0 + 1 + length found.1.now ≤ most_text_bytes + 1) }
{
    let mut rest = text;
    let mut number = number;
    while let Some((line, after)) = next_line(rest) {
        if is_show_line(line) {
            return Some((number, after));
        }
        number += 1;
        rest = after;
    }
    None
}

fn is_show_line(line: &[u8]) -> bool
    ensures { result ≡ is_show_line line.now }
{
    if is_passed_over(line) {
        return false;
    }
    match next_word(line) {
        Some((command, _)) => command == b"show".as_slice(),
        None => false,
    }
}

/// A law: a script has as many show lines as pictures. So show line `k` belongs to picture `k`.
pub fn each_picture_has_a_line()
    ensures { (text : List ℕ) (script : List Drawing) → read_script text ≡ Ok script
        → length (show_lines text) ≡ pictures script }
{}
