// Writes the thin form of packs.
ghost use Rattle.std.specs.Prelude.{◌≡◌, ◌*◌, List, ℕ, [], ◌∷◌, length, IfOk, IfSome, Some, ◌/◌, IsTrue};
ghost use Rattle.std.specs.List.{concat};
ghost use Rattle.cdg_instructions.specs.Instruction.{InRange};
ghost use Rattle.cdg_io.specs.Causes.{ReportsFault};
ghost use Rattle.cdg_io.specs.Change.{change, passed};
ghost use Rattle.cdg_io.specs.Pump.{units_of};
ghost use Rattle.cdg_io.specs.Reads.{ReadsUnits};
ghost use Rattle.cdg_io.specs.Run.{run_state, run_gives};
ghost use Rattle.cdg_screen.specs.Standing.{blank, standing_after};
ghost use Rattle.raw_subcode.specs.Sizes.{symbols_a_slot};
ghost use Rattle.cdg_press.specs.Calls.{Thins, ThinsAll, most_file_packs};
ghost use Rattle.cdg_press.specs.Steps.{pack_instruction, is_needless, thin_next, thin_gives};
ghost use Rattle.bit_lists.specs.Counting.{whole_parts};
ghost use Rattle.cdg_press.specs.Thin.{AreInstructionsOf, IsInstructionOf, IsThinText, StandAlike, is_graphic};
ghost use Rattle.cdg_instructions.specs.declared.instr.Instr.{Instr};
ghost use Rattle.cdg_instructions.specs.declared.instr.Instr.TheVariants.{Idle};

use cdg_instructions::{Instr, read_word};
use cdg_io::{
    InPlace, PassedUnits, Piece, PumpStop, Pumped, Sink, Source, UnitStage, pump_units,
    take_in_place, take_row_in_place,
};
use cdg_screen::Screen;
use raw_subcode::{MOST_UNITS, SLOTS_A_BLOCK, SYMBOLS_A_SLOT};
use rw_code::Word;
use std::alloc::{AllocError, Global};
use std::marker::Model;

// The maximum number of packs: those of the maximum number of blocks.
const MOST_PACKS: u32 = SLOTS_A_BLOCK as u32 * MOST_UNITS;

/// Makes packs that change nothing idle. All its memory is allocated at the start.
#[derive(Drop)]
pub struct Thinner {
    screen: Screen,
}

impl Model for Thinner {
    ghost use Rattle.cdg_screen.specs.Standing.{Standing};

    ghost Value = { Standing };

    ghost view = { λ t. t.screen };
}

impl Thinner {
    /// Allocates the memory of a screen.
    pub fn start(alloc: Global) -> Result<Thinner, AllocError>
        ensures { IfOk result (λ t. t ≡ blank) }
    {
        Ok(Thinner {
            screen: Screen::start(alloc)?,
        })
    }

    /// Writes the thin form of a file of packs while reading it: 24 zeros for each graphics instruction that changes
    /// nothing, and every other pack unchanged. `Ok` contains the number of packs.
    ///
    /// A pack has 24 bytes, and at most 4,000,000 packs are read. Their parity is ignored. Each call starts with an
    /// empty screen.
    ///
    /// # Errors
    ///
    /// `Torn` if the file ends inside a pack, `TooLong` if a byte follows the last pack that is read, `ReadFault` if a
    /// read failed. Before these errors, the output for all whole packs was written. After `WriteFault` a prefix was
    /// written, and no later pack was read.
    pub fn run<S: Source, K: Sink>(
        &mut self,
        source: &mut S,
        out: &mut K,
    ) -> Result<Pumped, PumpStop>
        ensures thins { (taken : List ℕ)
            × Thins (passed S.left K.held (source.old, out.old) (source.new, out.new)) result taken }
        // For a whole input: the output has the same screen after each number of packs, and it is its own thin form.
        ensures whole { IfSome (S.left source.old)
            (λ all. ThinsAll all (change K.held out.old out.new) result) }
        ensures reads { ReadsUnits S.Source symbols_a_slot most_file_packs
            source.old source.new result }
        ensures write_fault { ReportsFault PumpStop.WriteFault
            (K.faults out.old) (K.faults out.new) result }
    {
        thin_forms_stand_alike();
        self.reset();
        pump_units(source, MOST_PACKS, self, out)
    }

    // Sets the screen to zero again.
    fn reset(&mut self)
        ensures { self.new ≡ blank }
    {
        self.screen.reset();
    }

    // Executes an instruction, and returns whether it changed nothing.
    #[inline]
    fn passes_over(&mut self, instr: &Instr) -> bool
        requires { InRange instr.now }
        ensures next { self.new ≡ standing_after self.old (instr.now ∷ []) }
        ensures needless { result ≡ is_needless self.old instr.now }
    {
        if self.screen.changes(instr) {
            self.screen.obey(instr);
            return false;
        }
        is_graphic(instr)
    }

    // Draws a pack, and returns whether it changed nothing. Most packs are idle.
    #[inline]
    fn is_needless(&mut self, pack: &[u8; SYMBOLS_A_SLOT]) -> bool
        ensures next { self.new ≡ thin_next self.old pack.now }
        ensures needless { result ≡ is_needless self.old (pack_instruction pack.now) }
    {
        if is_idle(pack) {
            // A law: an idle pack changes nothing.
            self.screen.what_stands_is_whole();
            return false;
        }
        self.is_needless_drawing(pack)
    }

    // Does the work of `is_needless` for a pack that may have an instruction. It is separate, so that idle
    // packs stay fast.
    #[inline(never)]
    fn is_needless_drawing(&mut self, pack: &[u8; SYMBOLS_A_SLOT]) -> bool
        ensures next { self.new ≡ thin_next self.old pack.now }
        ensures needless { result ≡ is_needless self.old (pack_instruction pack.now) }
    {
        self.passes_over(&instruction(pack))
    }

    // Makes a pack idle if it changes nothing.
    #[inline]
    #[tactic(auto, unfolding(crate::specs::Steps::thin_gives))]
    fn thin(&mut self, pack: &mut [u8; SYMBOLS_A_SLOT])
        ensures next { self.new ≡ thin_next self.old pack.old }
        ensures gives { Some pack.new ≡ thin_gives self.old pack.old }
    {
        if self.is_needless(pack) {
            *pack = [0; SYMBOLS_A_SLOT];
        }
    }
}

impl InPlace for Thinner {
    ghost SIZE = { symbols_a_slot };

    ghost next = { thin_next };

    ghost gives = { thin_gives };

    const SIZE: usize = SYMBOLS_A_SLOT;

    #[inline]
    fn change(&mut self, bytes: &mut [u8]) {
        match bytes.first_chunk_mut::<SYMBOLS_A_SLOT>() {
            Some(pack) => self.thin(pack),
            None => unreachable!(),
        }
    }

    // Two packs at a time: most packs are idle, which one byte shows.
    #[inline]
    fn change_row(&mut self, packs: &mut [u8], count: usize) {
        let mut at = 0;
        'pairs: while packs.len() - at >= 2 * SYMBOLS_A_SLOT {
            self.change(&mut packs[at..at + SYMBOLS_A_SLOT]);
            self.change(&mut packs[at + SYMBOLS_A_SLOT..at + 2 * SYMBOLS_A_SLOT]);
            at += 2 * SYMBOLS_A_SLOT;
        }
        'rest: while at < packs.len() {
            self.change(&mut packs[at..at + SYMBOLS_A_SLOT]);
            at += SYMBOLS_A_SLOT;
        }
    }
}

impl UnitStage for Thinner {
    ghost SIZE = { symbols_a_slot };

    ghost next = { thin_next };

    ghost gives = { thin_gives };

    const SIZE: usize = SYMBOLS_A_SLOT;

    fn take_unit(&mut self, pack: &[u8], given: &mut Option<Piece>) {
        take_in_place(self, pack, given);
    }

    #[inline]
    fn take_row(
        &mut self,
        row: &mut &[u8],
        _given: &mut Option<Piece>,
        buffer: &mut [u8],
        start: usize,
        most: u32,
    ) -> PassedUnits {
        take_row_in_place(self, row, buffer, start, most)
    }
}

/// Laws: a file and its thin form have the same screen after each number of packs. A thin form is its own thin form.
/// Each file has exactly one thin form, with the same number of packs.
pub fn thin_forms_stand_alike()
    ensures alike { (bytes text : List ℕ) (m : ℕ) → IsThinText bytes text
        → StandAlike m (whole_parts symbols_a_slot bytes) (whole_parts symbols_a_slot text) }
    ensures again { (bytes text : List ℕ) → IsThinText bytes text → IsThinText text text }
    ensures some { (bytes : List ℕ) → (text : List ℕ) × IsThinText bytes text }
    ensures only { (bytes one other : List ℕ) → IsThinText bytes one → IsThinText bytes other → one ≡ other }
    ensures size { (bytes text : List ℕ) → IsThinText bytes text
        → length text ≡ symbols_a_slot * (length bytes / symbols_a_slot) }
    // Each 24 bytes have an instruction, and packs have at most one list of instructions.
    ensures reading { (pack : List ℕ) → length pack ≡ symbols_a_slot
        → (instr : Instr) × IsInstructionOf pack instr }
    ensures one_reading { (packs : List (List ℕ)) (one other : List Instr)
        → AreInstructionsOf packs one → AreInstructionsOf packs other → one ≡ other }
{}

// The instruction of 24 bytes with any parity. It equals the instruction of the codeword with correct parity.
fn instruction(bytes: &[u8; SYMBOLS_A_SLOT]) -> Instr
    ensures meaning { result ≡ pack_instruction bytes.now }
    ensures range { InRange result }
{
    read_word(&Word::new(bytes))
}

// Whether the first of 24 bytes shows that they have no instruction.
#[inline]
fn is_idle(bytes: &[u8; SYMBOLS_A_SLOT]) -> bool
    ensures { IsTrue result → pack_instruction bytes.now ≡ Idle }
{
    bytes[0] % 64 == 0
}

// Whether an instruction is one of the nine graphics instructions.
fn is_graphic(instr: &Instr) -> bool
    ensures { result ≡ is_graphic instr.now }
{
    !matches!(instr, Instr::Idle | Instr::Foreign | Instr::Unknown)
}
