// Counts of words by the number of their wrong symbols.
ghost use Rattle.std.specs.Prelude.{◌≡◌, ◌<◌, ◌≤◌, [], Some, length, replicate};
ghost use Rattle.rw_code.specs.Codeword.{IsNear, differences};
ghost use Rattle.rw_code.specs.Finding.{finding};
ghost use Rattle.rw_code.specs.Packs.{idle_pack};
ghost use Rattle.block_survey.specs.Rows.{marked_found, marks_of};

use rw_code::{Fixed, Pack, Word, correct};
use stream_stages::BlockOfWords;

/// The numbers of words with no, one and two wrong symbols, and of words with no codeword near.
#[derive(Clone, Copy)]
pub struct WordMarks {
    pub clean: u8,
    pub one: u8,
    pub two: u8,
    pub bad: u8,
}

impl WordMarks {
    pub(crate) fn none() -> WordMarks
        ensures { result ≡ marks_of [] }
    {
        WordMarks {
            clean: 0,
            one: 0,
            two: 0,
            bad: 0,
        }
    }

    fn four_idle() -> WordMarks
        ensures { result ≡ marks_of (replicate 4 idle_pack) }
    {
        Pack::idle().word();
        WordMarks {
            clean: 4,
            ..WordMarks::none()
        }
    }

    /// The marks of the words that end with a block.
    #[inline]
    pub(crate) fn of_block(words: &BlockOfWords) -> WordMarks
        ensures { result ≡ marks_of words.now.items }
    {
        match words.unless_idle() {
            // Most blocks of a disc are idle.
            None => WordMarks::four_idle(),
            Some(words) => WordMarks::of(words.as_slice()),
        }
    }

    /// The marks of at most four words.
    pub fn of(words: &[Word]) -> WordMarks
        requires { length words.now ≤ 4 }
        ensures { result ≡ marks_of words.now }
    {
        let mut marks = WordMarks::none();
        for word in words {
            marks.add(word);
        }
        marks
    }

    fn add(&mut self, word: &Word)
        requires clean { self.old.clean < 255 }
        requires one { self.old.one < 255 }
        requires two { self.old.two < 255 }
        requires bad { self.old.bad < 255 }
        ensures { self.new ≡ marked_found self.old word.now (finding word.now) }
    {
        match correct(word) {
            Some(fixed) => self.add_fixed(&fixed, word),
            None => self.bad += 1,
        }
    }

    #[inline]
    fn add_fixed(&mut self, fixed: &Fixed, word: &Word)
        requires clean { self.old.clean < 255 }
        requires one { self.old.one < 255 }
        requires two { self.old.two < 255 }
        requires wrong { fixed.now.wrong ≡ differences word.now fixed.now.pack }
        requires near { IsNear word.now fixed.now.pack }
        ensures { self.new ≡ marked_found self.old word.now (Some fixed.now.pack) }
    {
        match fixed.wrong {
            0 => self.clean += 1,
            1 => self.one += 1,
            _ => self.two += 1,
        }
    }
}
