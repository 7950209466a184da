// The effect of an instruction, for callers that carry out instructions.
ghost use Rattle.std.specs.Prelude.{◌≡◌};
ghost use Rattle.cdg_instructions.specs.Effect.{IsEffectInRange, effect_of};
ghost use Rattle.cdg_instructions.specs.Instruction.{InRange};

use crate::Instr;

/// The effect of an instruction, as one of a few kinds.
#[derive(Clone, Copy)]
pub enum Effect {
    /// Nothing changes.
    Nothing,
    /// The whole memory becomes one colour.
    Clear { colour: u8 },
    /// The border becomes one colour.
    Border { colour: u8 },
    /// A tile is drawn if it is in the memory.
    Draw { tile: DrawnTile },
    /// The memory moves, and the offsets are set.
    Scroll { scroll: Scrolling },
    /// The levels of all sixteen colours are set.
    Levels { levels: [u8; 16] },
    /// Eight colours of the table are set, from entry 0 or 8 on.
    Colours { first: u8, colours: [u16; 8] },
}

/// A tile as it is drawn.
#[derive(Clone, Copy)]
pub struct DrawnTile {
    /// 0 to 31. Rows 0 to 17 are in the memory.
    pub row: u8,
    /// 0 to 63. Columns 0 to 49 are in the memory.
    pub column: u8,
    /// The colour numbers of a bit 0 and of a bit 1 of `lines`.
    pub colours: [u8; 2],
    /// Twelve lines from the top, six bits each, the leftmost pixel at bit 5.
    pub lines: [u8; 12],
    /// Whether the colours are combined with the pixels there by exclusive or.
    pub exclusive: bool,
}

/// A move of the memory.
#[derive(Clone, Copy)]
pub struct Scrolling {
    /// 0: no move across, 1: right by 6 pixels, 2: left by 6 pixels.
    pub across: u8,
    /// 0: no move down, 1: down by 12 pixels, 2: up by 12 pixels.
    pub down: u8,
    /// The number of the colour that fills the free pixels. With `None` the pixels that leave at one end enter at the
    /// other.
    pub incoming: Option<u8>,
    /// 0 to 5: by how many pixels the screen begins further right in the memory.
    pub h: u8,
    /// 0 to 11: by how many pixels the screen begins further down in the memory.
    pub v: u8,
}

impl Instr {
    /// The effect of the instruction.
    #[inline]
    pub fn effect(&self) -> Effect
        ensures effect { result ≡ effect_of self.now }
        ensures range { InRange self.now → IsEffectInRange result }
    {
        match *self {
            Instr::Idle | Instr::Foreign | Instr::Unknown => Effect::Nothing,
            Instr::MemoryPreset { colour, .. } => Effect::Clear { colour },
            Instr::BorderPreset { colour } => Effect::Border { colour },
            Instr::SetTile {
                colour0,
                colour1,
                row,
                column,
                lines,
            } => Effect::Draw {
                tile: DrawnTile {
                    row,
                    column,
                    colours: [colour0, colour1],
                    lines,
                    exclusive: false,
                },
            },
            Instr::XorTile {
                colour0,
                colour1,
                row,
                column,
                lines,
            } => Effect::Draw {
                tile: DrawnTile {
                    row,
                    column,
                    colours: [colour0, colour1],
                    lines,
                    exclusive: true,
                },
            },
            Instr::ScrollPreset {
                colour,
                across,
                h,
                down,
                v,
            } => Effect::Scroll {
                scroll: Scrolling {
                    across,
                    down,
                    incoming: Some(colour),
                    h,
                    v,
                },
            },
            Instr::ScrollCopy {
                across,
                h,
                down,
                v,
                ..
            } => Effect::Scroll {
                scroll: Scrolling {
                    across,
                    down,
                    incoming: None,
                    h,
                    v,
                },
            },
            Instr::Transparency { levels } => Effect::Levels { levels },
            Instr::ColoursLow { colours } => Effect::Colours { first: 0, colours },
            Instr::ColoursHigh { colours } => Effect::Colours { first: 8, colours },
        }
    }
}
