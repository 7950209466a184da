// The nine lines of a trial.
ghost use Rattle.std.specs.Prelude.{◌≡◌, ◌≤◌, ◌+◌, ◌++◌, length};
ghost use Rattle.stream_trial.specs.TrialLines.{trial_count_line, input_lines, output_lines};
ghost use Rattle.stream_trial.specs.ReportLines.{report_lines};

use arrayvec::ArrayString;
use itoa::Buffer;

pub(crate) type Lines = ArrayString<384>;

/// The numbers in the lines of a trial.
#[derive(Clone, Copy)]
pub(crate) struct Report {
    pub(crate) seed: u64,
    pub(crate) pictures: u64,
    pub(crate) blocks: u64,
    pub(crate) packs: u64,
    /// The number of instructions of all changes.
    pub(crate) changes: u64,
    /// The number of words that were corrected in one symbol, and in two.
    pub(crate) one: u64,
    pub(crate) two: u64,
    /// The number of words without a codeword nearby.
    pub(crate) bad: u64,
    /// The number of pictures that were shown in time.
    pub(crate) equal: u64,
}

impl Report {
    /// The nine lines.
    pub(crate) fn lines(&self) -> Lines
        ensures { result.bytes ≡ report_lines self.now }
    {
        let mut text = Lines::new();
        self.push_input(&mut text);
        self.push_output(&mut text);
        text
    }

    // The lines on the script and the stream.
    #[tactic(auto, unfolding(crate::specs::TrialLines::input_lines))]
    fn push_input(&self, text: &mut Lines)
        requires { length text.old.bytes ≤ 0 }
        ensures text { text.new.bytes ≡ text.old.bytes ++ input_lines self.now.seed self.now.pictures
            self.now.blocks self.now.packs self.now.changes }
        ensures short { length text.new.bytes ≤ length text.old.bytes + 150 }
    {
        push_number(text, "seed", self.seed);
        push_number(text, "pictures", self.pictures);
        push_number(text, "blocks", self.blocks);
        push_number(text, "packs", self.packs);
        push_number(text, "changes", self.changes);
    }

    // The lines on the results.
    #[tactic(auto, unfolding(crate::specs::TrialLines::output_lines))]
    fn push_output(&self, text: &mut Lines)
        requires { length text.old.bytes ≤ 150 }
        ensures text { text.new.bytes
            ≡ text.old.bytes ++ output_lines self.now.one self.now.two self.now.bad self.now.equal }
    {
        push_number(text, "one", self.one);
        push_number(text, "two", self.two);
        push_number(text, "bad", self.bad);
        push_number(text, "equal", self.equal);
    }
}

#[tactic(auto, unfolding(crate::specs::TrialLines::trial_count_line))]
fn push_number(text: &mut Lines, name: &str, count: u64)
    requires name { length name.now ≤ 8 }
    requires room { length text.old.bytes ≤ 300 }
    ensures text { text.new.bytes ≡ text.old.bytes ++ trial_count_line name.now count }
    ensures short { length text.new.bytes ≤ length text.old.bytes + length name.now + 22 }
{
    let mut digits = Buffer::new();
    text.push_str(name);
    text.push_str(" ");
    text.push_str(digits.format(count));
    text.push_str("\n");
}
