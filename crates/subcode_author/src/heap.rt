// The heap: the allocator and the number of failed requests. Only `asked` and `asked_with` request memory and count.
ghost use Rattle.std.specs.Prelude.{◌≡◌, ◌≢◌, ◌≤◌, ◌↔◌, ℕ, [], length, IsTrue, IfErr, IfOk, Ok};
ghost use Rattle.cdg_io.specs.Causes.{Rose, ReportsFault};
ghost use Rattle.cue_sheet.specs.Answers.{IsCueAnswer};
ghost use Rattle.cue_sheet.specs.Grammar.{read_cue};
ghost use Rattle.picture_script.specs.ScriptGrammar.{read_script};
ghost use Rattle.picture_script.specs.Stops.{StopsAt};
ghost use Rattle.text_lines.specs.Text.{most_text_bytes};
ghost use Rattle.cdtext_packs.specs.declared.kinds.TextFault.TheVariants as fault;
ghost use Rattle.cue_sheet.specs.declared.fault.CueStop.TheVariants as sheet;
ghost use Rattle.subcode_author.specs.Requests.{ReturnsWith};
ghost use Rattle.picture_script.specs.declared.reasons.ScriptStop.TheVariants as script;

use cdtext_packs::TextFault;
use cue_sheet::{CueStop, Sheet};
use picture_script::{Script, ScriptStop};
use std::alloc::{AllocError, Global};
use std::marker::Model;
use std::mem;

/// The error of a call that requests memory.
pub trait MemoryStop {
    // The error after a request failed.
    ghost no_memory: { Self };

    fn is_no_memory(&self) -> bool
        ensures { IsTrue result ↔ (self.now ≡ no_memory) };
}

impl MemoryStop for AllocError {
    ghost no_memory = { record {} };

    fn is_no_memory(&self) -> bool {
        true
    }
}

impl MemoryStop for TextFault {
    ghost no_memory = { fault.NoMemory };

    fn is_no_memory(&self) -> bool {
        matches!(self, TextFault::NoMemory)
    }
}

impl MemoryStop for CueStop {
    ghost no_memory = { sheet.NoMemory };

    fn is_no_memory(&self) -> bool {
        matches!(self, CueStop::NoMemory)
    }
}

impl MemoryStop for ScriptStop {
    ghost no_memory = { script.NoMemory };

    fn is_no_memory(&self) -> bool {
        matches!(self, ScriptStop::NoMemory)
    }
}

/// The allocator and the number of failed requests. A contract sees this number. A function that allocates nothing gets
/// no heap.
#[derive(Drop)]
pub struct Heap {
    alloc: Global,
    failures: u64,
}

impl Model for Heap {
    ghost Value = { ℕ };

    ghost view = { λ h. h.failures };
}

impl Heap {
    /// A heap before the first request.
    pub fn new(alloc: Global) -> Heap
        ensures { result ≡ 0 }
    {
        Heap { alloc, failures: 0 }
    }

    /// Moves the heap into a value that requests memory later, and leaves a heap with count 0.
    pub fn take(&mut self) -> Heap
        ensures { result ≡ self.old }
    {
        mem::replace(self, Heap::new(self.alloc))
    }

    /// An empty vector. It allocates nothing.
    pub fn empty_vec<T>(&self) -> Vec<T>
        ensures { result.items ≡ [] }
    {
        Vec::new(self.alloc)
    }

    /// Makes a call that requests memory, and counts a failed request.
    pub fn asked<T, E: MemoryStop, F: FnOnce(Global) -> Result<T, E>>(
        &mut self,
        call: F,
    ) -> Result<T, E>
        requires { F.IsAlwaysCallable call }
        ensures answer { (alloc : _) × F.post call alloc result }
        ensures counted { ReportsFault E.no_memory self.old self.new result }
    {
        let answer = call(self.alloc);
        if let Err(stop) = &answer {
            self.note(stop);
        }
        answer
    }

    /// Makes a call that requests memory and changes two values, for example an input and an output. Counts a
    /// failed request.
    pub fn asked_with<X, Y, T, E: MemoryStop, F: FnOnce(Global, &mut X, &mut Y) -> Result<T, E>>(
        &mut self,
        first: &mut X,
        second: &mut Y,
        call: F,
    ) -> Result<T, E>
        requires { F.IsAlwaysCallable call }
        ensures answer { ReturnsWith F.FnOnce call first.old second.old result first.new second.new }
        ensures counted { ReportsFault E.no_memory self.old self.new result }
    {
        let answer = call(self.alloc, first, second);
        if let Err(stop) = &answer {
            self.note(stop);
        }
        answer
    }

    /// Parses a cue sheet.
    pub fn sheet(&mut self, text: &[u8]) -> Result<Sheet, CueStop>
        requires { length text.now ≤ most_text_bytes }
        ensures read { IsCueAnswer (read_cue text.now) result }
        ensures allocations { ReportsFault sheet.NoMemory self.old self.new result }
    {
        self.asked(|alloc| Sheet::parse(alloc, text))
    }

    /// Parses a picture script.
    pub fn script(&mut self, text: &[u8]) -> Result<Script, ScriptStop>
        requires { length text.now ≤ most_text_bytes }
        ensures ok { IfOk result (λ script. read_script text.now ≡ Ok script) }
        ensures err { IfErr result (StopsAt (read_script text.now)) }
        ensures allocations { ReportsFault script.NoMemory self.old self.new result }
    {
        self.asked(|alloc| Script::parse(alloc, text))
    }

    // Counts a failed request.
    fn note<E: MemoryStop>(&mut self, stop: &E)
        ensures later { self.old ≤ self.new }
        ensures rose { stop.now ≡ E.no_memory → Rose self.old self.new }
        ensures same { stop.now ≢ E.no_memory → self.new ≡ self.old }
    {
        if stop.is_no_memory() {
            self.failures = self.failures.saturating_add(1);
        }
    }
}
