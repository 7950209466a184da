// The coverage of words: which blocks under a word were not read.
ghost use Rattle.std.specs.Prelude.{true, ◌≡◌, ◌≢◌, ◌==◌, ◌≤◌, ◌<◌, ◌+◌, ◌-◌, ◌*◌, ◌/◌, ◌%◌, ◌^◌, List, ℕ, length, if◌then◌else◌};
ghost use Rattle.std.specs.List.{list_all};
ghost use Rattle.rw_mend.specs.Words.{HoldsWord, block_at, blocks_under, coverage_of, is_blank_block, is_unread_block};
ghost use Rattle.rw_mend.specs.Histories.{IsHistory};
ghost use Rattle.raw_subcode.specs.Sizes.{block_bytes};

use crate::Coverage;
use raw_subcode::BLOCK_BYTES;

/// Whether each block under a word is unread, and whether all its symbols are 0. A word has two blocks under
/// it, or three if it does not begin with its block.
#[derive(Clone, Copy)]
pub(crate) struct BlockHistory {
    first: bool,
    second: bool,
    third: bool,
    first_blank: bool,
    second_blank: bool,
    third_blank: bool,
}

impl BlockHistory {
    /// A history before the first word.
    pub(crate) fn new() -> BlockHistory {
        BlockHistory {
            first: false,
            second: false,
            third: false,
            first_blank: false,
            second_blank: false,
            third_blank: false,
        }
    }

    /// The history at word `n` of a program.
    pub(crate) fn at(program: &[u8], n: usize) -> BlockHistory
        requires { HoldsWord n (length program.now) }
        ensures { IsHistory program.now n result }
    {
        let b = n / 4;
        let mut history = BlockHistory {
            first: is_unread_at(program, b),
            second: is_unread_at(program, b + 1),
            third: false,
            first_blank: is_blank_at(program, b),
            second_blank: is_blank_at(program, b + 1),
            third_blank: false,
        };
        if n % 4 != 0 {
            history.third = is_unread_at(program, b + 2);
            history.third_blank = is_blank_at(program, b + 2);
        }
        history
    }

    /// Advances to word `n` of a program from the word before it.
    pub(crate) fn advance(&mut self, program: &[u8], n: usize)
        requires before { 0 < n → IsHistory program.now (n - 1) self.old }
        requires within { HoldsWord n (length program.now) }
        ensures { IsHistory program.now n self.new }
    {
        if n == 0 {
            self.first_blank = is_blank_at(program, 0);
            self.first = is_unread_at(program, 0);
            self.second_blank = is_blank_at(program, 1);
            self.second = is_unread_at(program, 1);
        } else if n % 4 == 0 {
            self.first = self.second;
            self.second = self.third;
            self.first_blank = self.second_blank;
            self.second_blank = self.third_blank;
        } else if n % 4 == 1 {
            self.third_blank = is_blank_at(program, n / 4 + 2);
            self.third = is_unread_at(program, n / 4 + 2);
        }
    }

    /// Whether all symbols in the blocks under word `n` are 0.
    #[inline]
    pub(crate) fn is_blank(&self, n: usize) -> bool
        ensures { result ≡ true → (self.now.first_blank ≡ true) × (self.now.second_blank ≡ true)
            × (n % 4 ≢ 0 → self.now.third_blank ≡ true) }
    {
        if n % 4 == 0 {
            return self.first_blank && self.second_blank;
        }
        self.first_blank && self.second_blank && self.third_blank
    }

    /// How much of word n was read.
    pub(crate) fn coverage(&self, n: usize) -> Coverage
        requires { n < 2 ^ 63 }
        ensures { (program : List ℕ) → IsHistory program n self.now
            → result ≡ coverage_of (blocks_under program n) }
    {
        let all = self.first && self.second;
        let any = self.first || self.second;
        if n % 4 == 0 {
            covered(all, any)
        } else {
            covered(all && self.third, any || self.third)
        }
    }
}

// The coverage of a word. `all` and `any` say whether all its blocks are unread, and whether any is.
fn covered(all: bool, any: bool) -> Coverage
    ensures { result ≡ (if all then Coverage.Unread else (if any then Coverage.Partly else Coverage.Whole)) }
{
    if all {
        Coverage::Unread
    } else if any {
        Coverage::Partly
    } else {
        Coverage::Whole
    }
}

// Whether all symbols of block `b` of a program are 0.
#[inline]
fn is_blank_at(program: &[u8], b: usize) -> bool
    requires { block_bytes * b + block_bytes ≤ length program.now }
    ensures { result ≡ is_blank_block (block_at program.now b) }
{
    let at = BLOCK_BYTES * b;
    is_blank(&program[at..at + BLOCK_BYTES])
}

// Whether all symbols of a block are 0.
#[inline]
fn is_blank(block: &[u8]) -> bool
    ensures { result ≡ is_blank_block block.now }
{
    has_no_symbol(block)
}

// Whether a block of a program was not read.
#[inline]
fn is_unread_at(program: &[u8], b: usize) -> bool
    requires { block_bytes * b + block_bytes ≤ length program.now }
    ensures { result ≡ is_unread_block (block_at program.now b) }
{
    let at = BLOCK_BYTES * b;
    is_unread(&program[at..at + BLOCK_BYTES])
}

/// Whether a block of a stream was not read: all its bytes are 0.
pub fn is_unread_block(block: &[u8]) -> bool
    ensures { result ≡ is_unread_block block.now }
{
    is_unread(block)
}

#[inline]
fn is_unread(block: &[u8]) -> bool
    ensures { result ≡ is_unread_block block.now }
{
    let mut most = 0;
    for i in 0..block.len() {
        most = most.max(block[i]);
    }
    most == 0
}

// Whether all symbols of a block are 0. A loop over all symbols is faster than one that stops early.
fn has_no_symbol(block: &[u8]) -> bool
    ensures { result ≡ list_all (λ byte. byte % 64 == 0) block.now }
{
    let mut most = 0;
    for i in 0..block.len() {
        most = most.max(block[i] % 64);
    }
    most == 0
}
