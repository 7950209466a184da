// Plays a stream again, word by word.
ghost use Rattle.std.specs.Prelude.{◌≡◌, ◌≤◌, ◌+◌, ◌*◌, ℕ, List, IfOk, length};
ghost use Rattle.cdg_io.specs.Causes.{HasCause};
ghost use Rattle.rw_code.specs.Codeword.{Reads};
ghost use Rattle.raw_subcode.specs.Sizes.{block_bytes};
ghost use Rattle.rw_interleave.specs.Interleave.{whole_packs};
ghost use Rattle.cdg_screen.specs.Standing.{blank};
ghost use Rattle.picture_script.specs.Script.{Drawing};
ghost use Rattle.stream_trial.specs.Course.{HasTaken, words_with_stream_block};
ghost use Rattle.stream_trial.specs.Replay.{IsBelow, TakesWord, TakesBad, one_where};

use arrayvec::ArrayVec;
use cdg_instructions::read;
use cdg_screen::{Screen, instructions_in_turn};
use rw_code::{Word, correct, only_one_codeword_is_near};
use rw_interleave::gather_gives_words;
use std::alloc::AllocError;
use subcode_author::Heap;

/// Corrects words and executes the instructions of their packs.
#[derive(Drop)]
pub(crate) struct Replay {
    pub(crate) screen: Screen,
    /// The number of words that were corrected in one symbol.
    pub(crate) one: u32,
    /// The number of words that were corrected in two symbols.
    pub(crate) two: u32,
    /// The number of words without a codeword nearby.
    pub(crate) bad: u32,
}

impl Replay {
    /// A player before the first word.
    pub(crate) fn start(heap: &mut Heap) -> Result<Replay, AllocError>
        ensures screen { IfOk result (λ replay. replay.screen ≡ blank) }
        ensures counts { IfOk result (λ replay. (replay.one ≡ 0) × (replay.two ≡ 0) × (replay.bad ≡ 0)) }
        ensures counted { HasCause heap.old heap.new result }
    {
        Ok(Replay {
            screen: heap.asked(Screen::start)?,
            one: 0,
            two: 0,
            bad: 0,
        })
    }

    /// Plays the words that a block completes, at most four.
    pub(crate) fn take_words(&mut self, words: &ArrayVec<Word, 4>)
        requires { IsBelow 3999999996 self.old }
        ensures more { (most : ℕ) → IsBelow most self.old → IsBelow (most + length words.now.items) self.new }
        ensures taken { (script : List Drawing) (bytes : List ℕ) (b : ℕ)
            → block_bytes * b + block_bytes ≤ length bytes → words.now.items ≡ words_with_stream_block bytes b
            → HasTaken script bytes (whole_packs b) self.old
            → HasTaken script bytes (whole_packs (b + 1)) self.new }
    {
        // Laws on the places of the words in the stream, and on the screen after each word.
        gather_gives_words();
        instructions_in_turn();
        for j in 0..words.len() {
            self.take_word(&words[j]);
        }
    }

    // Corrects a word, and executes the instruction of its pack.
    fn take_word(&mut self, word: &Word)
        requires { IsBelow 4000000000 self.old }
        ensures near { (codeword : List ℕ) → Reads word.now codeword
            → TakesWord word.now codeword self.old self.new }
        ensures far { ((codeword : List ℕ) → ¬ Reads word.now codeword) → TakesBad self.old self.new }
        ensures more { (most : ℕ) → IsBelow most self.old → IsBelow (most + 1) self.new }
    {
        // A law: at most one codeword is near a word.
        only_one_codeword_is_near();
        match correct(word) {
            Some(fixed) => {
                self.count(fixed.wrong);
                self.screen.obey(&read(&fixed.pack));
            }
            None => self.bad += 1,
        }
    }

    fn count(&mut self, wrong: u8)
        requires { IsBelow 4000000000 self.old }
        ensures one { self.new.one ≡ self.old.one + one_where wrong 1 }
        ensures two { self.new.two ≡ self.old.two + one_where wrong 2 }
        ensures same { (self.new.bad ≡ self.old.bad) × (self.new.screen ≡ self.old.screen) }
        ensures more { (most : ℕ) → IsBelow most self.old → IsBelow (most + 1) self.new }
    {
        match wrong {
            1 => self.one += 1,
            2 => self.two += 1,
            _ => {}
        }
    }
}
