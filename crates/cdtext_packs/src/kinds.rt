// The kinds of texts, the results of offers, and the reasons for missing texts.
ghost use Rattle.std.specs.Prelude.{◌≡◌};
ghost use Rattle.cdtext_packs.specs.Writing.{type_of};

use std::alloc::AllocError;

/// The kinds of strings, in the order of their packs' types: 80 to 85 and 8E in hexadecimal. A code is the album's
/// catalogue number, or a track's ISRC.
#[derive(Clone, Copy, PartialEq, Eq, Debug)]
pub enum TextKind {
    Title,
    Performer,
    Songwriter,
    Composer,
    Arranger,
    Message,
    Code,
}

/// All kinds, in the order of their packs' types and of their lines.
pub const KINDS: [TextKind; 7] = [
    TextKind::Title,
    TextKind::Performer,
    TextKind::Songwriter,
    TextKind::Composer,
    TextKind::Arranger,
    TextKind::Message,
    TextKind::Code,
];

/// The type of the three size packs.
pub(crate) const SIZE_TYPE: u8 = 0x8f;

/// The index of the first track among the 36 size bytes.
pub(crate) const FIRST_TRACK: usize = 1;

/// The index of the last track among the 36 size bytes.
pub(crate) const LAST_TRACK: usize = 2;

pub(crate) const SIZE_PACKS: u8 = 3;

/// The number of text bytes in all three size packs.
pub(crate) const SIZE_BYTES: usize = 36;

/// The index of the number of code packs among the 36 size bytes.
pub(crate) const CODE_COUNT: usize = 18;

/// The index of the number of size packs among the 36 size bytes.
pub(crate) const SIZE_COUNT: usize = 19;

/// The index of the last pack's number among the 36 size bytes.
pub(crate) const LAST_NUMBER: usize = 20;

/// The index of the language among the 36 size bytes.
pub(crate) const LANGUAGE: usize = 28;

/// The code of the language English.
pub(crate) const ENGLISH: u8 = 9;

impl TextKind {
    pub(crate) fn pack_type(self) -> u8
        ensures { result ≡ type_of self }
    {
        match self {
            TextKind::Title => 0x80,
            TextKind::Performer => 0x81,
            TextKind::Songwriter => 0x82,
            TextKind::Composer => 0x83,
            TextKind::Arranger => 0x84,
            TextKind::Message => 0x85,
            TextKind::Code => 0x8e,
        }
    }
}

/// The result of offering a pack to a reader.
#[derive(Clone, Copy, PartialEq, Eq, Debug)]
pub enum Offer {
    /// The pack was kept.
    Kept,
    /// A pack with this number was kept before.
    Again,
    /// The CRC of the pack is wrong.
    BadCrc,
    /// The CRC is right, but the pack has double-byte text or belongs to another block than the first.
    OtherBlock,
}

/// The reason why the kept packs have no texts.
#[derive(Clone, Copy, PartialEq, Eq, Debug)]
pub enum TextFault {
    /// A pack is missing. `seq` is the least missing number.
    Missing { seq: u8 },
    /// One of the three size packs is missing.
    NoSize,
    /// A number or a text is invalid. Byte 5 of size pack 0: the first track is not 1 to 99. Byte 6: the last track is
    /// below the first one or above 99. Byte 15: a kind has too few strings for the album and the tracks; `seq` is its
    /// last pack.
    Malformed { seq: u8, byte: u8 },
    NoMemory,
}

/// The reason why texts have no packs.
#[derive(Clone, Copy, PartialEq, Eq, Debug)]
pub enum PackStop {
    /// They need more than 256 packs.
    TooMany { packs: u32 },
    NoMemory,
}

impl From<AllocError> for PackStop {
    ghost use Rattle.std.specs.Prelude.{◌≡◌};
    ghost use Rattle.cdtext_packs.specs.declared.kinds.PackStop.TheVariants.{NoMemory};

    ghost from_gives = { λ _ stop. stop ≡ NoMemory };

    fn from(_: AllocError) -> PackStop {
        PackStop::NoMemory
    }
}

impl From<AllocError> for TextFault {
    ghost use Rattle.std.specs.Prelude.{◌≡◌};
    ghost use Rattle.cdtext_packs.specs.declared.kinds.TextFault.TheVariants.{NoMemory};

    ghost from_gives = { λ _ fault. fault ≡ NoMemory };

    fn from(_: AllocError) -> TextFault {
        TextFault::NoMemory
    }
}
