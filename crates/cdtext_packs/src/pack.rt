// Packs of eighteen bytes, and the packs of texts. specs/Packs.antt has the same sizes for clauses.
ghost use Rattle.std.specs.Prelude.{◌≡◌, ◌∷◌, List, ℕ, length, true, ◌<◌, ◌≤◌, ◌+◌, ◌-◌, ◌*◌, ◌++◌, flat_map, MatchResult, IfOk};
ghost use Rattle.cdtext_packs.specs.Packs.{pack_type, pack_track, pack_number, pack_text, check_matches, is_first_block, sealed, text_bytes, most_text_packs, size_packs};
ghost use Rattle.disc_time.specs.Counts.{most_tracks};
ghost use Rattle.cdtext_packs.specs.Texts.{kinds};
ghost use Rattle.cdtext_packs.specs.Writing.{joined, most_kind_packs, twelve, text_content, kind_contents, contents, content_bytes, numbered, packs_of, type_of, size_bytes, size_contents, IsPackStop};

use crate::kinds::{
    CODE_COUNT, ENGLISH, FIRST_TRACK, KINDS, LANGUAGE, LAST_NUMBER, LAST_TRACK, PackStop,
    SIZE_BYTES, SIZE_COUNT, SIZE_PACKS, SIZE_TYPE, TextKind,
};
use crate::map::{Strings, TextMap};
use bit_lists::crc16;
use std::alloc::{AllocError, Global};
use std::marker::Model;

/// The maximum number of packs: the number of a pack is a byte.
pub const MOST_PACKS: u32 = 256;

/// The number of bytes in a pack: head, text and CRC.
pub const PACK_BYTES: usize = 18;

/// The number of bytes in a pack's head: type, track, number, position.
pub(crate) const HEAD_BYTES: usize = 4;

/// The number of bytes in a pack's text.
pub const TEXT_BYTES: usize = 12;

/// The number of bytes that the CRC covers: head and text.
pub(crate) const CHECKED_BYTES: usize = HEAD_BYTES + TEXT_BYTES;

/// The greatest position in a pack's head, which has four bits for it.
pub(crate) const MOST_POSITION: usize = 15;

/// A pack: type, track, number, position, twelve bytes of text, and the CRC of these sixteen bytes.
#[derive(Clone, Copy, PartialEq, Eq)]
pub struct TextPack {
    bytes: [u8; PACK_BYTES],
}

impl Model for TextPack {
    ghost Value = { List ℕ };

    ghost view = { λ p. p.bytes };

    ghost inverse = { λ xs. record { bytes = xs } };
}

impl TextPack {
    /// The eighteen bytes.
    pub fn bytes(&self) -> [u8; PACK_BYTES]
        ensures { result ≡ self.now }
    {
        self.bytes
    }

    pub(crate) fn from_bytes(bytes: &[u8; PACK_BYTES]) -> TextPack
        ensures { result ≡ bytes.now }
    {
        TextPack { bytes: *bytes }
    }

    /// Whether the pack has the same bytes as another pack.
    #[inline]
    pub(crate) fn has_bytes_of(&self, other: &TextPack) -> bool
        ensures { result ≡ true → self.now ≡ other.now }
    {
        self.bytes == other.bytes
    }

    /// The type, which is the first byte.
    pub(crate) fn kind(&self) -> u8
        ensures { result ≡ pack_type self.now }
    {
        self.bytes[0]
    }

    /// The second byte: the track of the first string in the pack, or the index of a size pack.
    pub(crate) fn track(&self) -> u8
        ensures { result ≡ pack_track self.now }
    {
        self.bytes[1]
    }

    /// The third byte: the number of the pack.
    pub(crate) fn number(&self) -> u8
        ensures { result ≡ pack_number self.now }
    {
        self.bytes[2]
    }

    /// The twelve bytes of text.
    pub(crate) fn text(&self) -> &[u8]
        ensures text { result.now ≡ pack_text self.now }
        ensures size { length result.now ≡ text_bytes }
    {
        &self.bytes[HEAD_BYTES..CHECKED_BYTES]
    }

    /// Whether the CRC is right.
    pub(crate) fn check_matches(&self) -> bool
        ensures { result ≡ check_matches self.now }
    {
        let high = u16::from(self.bytes[CHECKED_BYTES]);
        let low = u16::from(self.bytes[CHECKED_BYTES + 1]);
        crc16(&self.bytes[..CHECKED_BYTES]) == 256 * high + low
    }

    /// Whether the pack belongs to the first text block and has single-byte characters.
    pub(crate) fn is_first_block(&self) -> bool
        ensures { result ≡ is_first_block self.now }
    {
        self.bytes[3] < 16
    }

    /// The pack with this head and text. Zeros follow a text of fewer than twelve bytes.
    pub(crate) fn new(kind: u8, track: u8, number: u8, position: u8, text: &[u8]) -> TextPack
        requires { length text.now ≤ text_bytes }
        ensures { result ≡ sealed (kind ∷ track ∷ number ∷ position ∷ twelve text.now 0) }
    {
        let mut bytes = [0; PACK_BYTES];
        bytes[..HEAD_BYTES].copy_from_slice(&[kind, track, number, position]);
        bytes[HEAD_BYTES..HEAD_BYTES + text.len()].copy_from_slice(text);
        let check = crc16(&bytes[..CHECKED_BYTES]);
        bytes[CHECKED_BYTES..].copy_from_slice(&check.to_be_bytes());
        TextPack { bytes }
    }
}

/// The packs of the texts, in the order of their numbers. There are none if all strings are empty.
pub fn pack_all(alloc: Global, map: &TextMap) -> Result<Vec<TextPack>, PackStop>
    ensures { MatchResult result (λ packs. (packs.items ≡ packs_of map.now)
        × (length packs.items ≤ most_text_packs)) (IsPackStop map.now) }
{
    let mut packs = 0;
    for kind in KINDS {
        packs += map.kind_packs(kind);
    }
    if packs == 0 {
        return Ok(Vec::new(alloc));
    }
    packs += u32::from(SIZE_PACKS);
    if packs > MOST_PACKS {
        return Err(PackStop::TooMany { packs });
    }
    let mut all = Vec::with_capacity(alloc, packs as usize)?;
    for kind in KINDS {
        push_kind(alloc, &mut all, map, kind)?;
    }
    push_sizes(&mut all, map)?;
    Ok(all)
}

// Appends the packs of a kind.
fn push_kind(
    alloc: Global,
    packs: &mut Vec<TextPack>,
    map: &TextMap,
    kind: TextKind,
) -> Result<(), AllocError>
    requires { length packs.old.items + length (kind_contents map.now kind) ≤ most_text_packs }
    ensures { IfOk result (λ _. packs.new.items ≡ packs.old.items
        ++ numbered (length packs.old.items) (kind_contents map.now kind)) }
{
    let strings = map.strings(kind);
    let bytes = strings.joined(alloc)?;
    for k in 0..map.kind_packs(kind) as usize {
        let start = TEXT_BYTES * k;
        let (place, offset) = strings.holder(start);
        let track = if place == 0 {
            0
        } else {
            map.first() + (place - 1) as u8
        };
        let position = offset.min(MOST_POSITION) as u8;
        let text = &bytes[start..bytes.len().min(start + TEXT_BYTES)];
        let number = packs.len() as u8;
        packs.push(TextPack::new(kind.pack_type(), track, number, position, text))?;
    }
    Ok(())
}

// Appends the three size packs.
fn push_sizes(packs: &mut Vec<TextPack>, map: &TextMap) -> Result<(), AllocError>
    requires before { length packs.old.items ≡ length (flat_map (kind_contents map.now) kinds) }
    requires few { length packs.old.items ≤ most_text_packs - size_packs }
    ensures { IfOk result (λ _. packs.new.items ≡ packs.old.items
        ++ numbered (length packs.old.items) (size_contents map.now)) }
{
    let count = packs.len() as u8;
    let bytes = size_bytes(map, count + (SIZE_PACKS - 1));
    for d in 0..SIZE_PACKS {
        let start = TEXT_BYTES * usize::from(d);
        let text = &bytes[start..start + TEXT_BYTES];
        packs.push(TextPack::new(SIZE_TYPE, d, count + d, 0, text))?;
    }
    Ok(())
}

// The text bytes of the size packs.
fn size_bytes(map: &TextMap, last: u8) -> [u8; SIZE_BYTES]
    requires last { last ≡ length (flat_map (kind_contents map.now) kinds) + (size_packs - 1) }
    ensures { result ≡ size_bytes map.now }
{
    let mut bytes = [0; SIZE_BYTES];
    bytes[FIRST_TRACK] = map.first();
    bytes[LAST_TRACK] = map.last();
    // From byte 4 on: the number of packs of each type from 80 to 8F.
    bytes[4] = map.kind_packs(TextKind::Title) as u8;
    bytes[5] = map.kind_packs(TextKind::Performer) as u8;
    bytes[6] = map.kind_packs(TextKind::Songwriter) as u8;
    bytes[7] = map.kind_packs(TextKind::Composer) as u8;
    bytes[8] = map.kind_packs(TextKind::Arranger) as u8;
    bytes[9] = map.kind_packs(TextKind::Message) as u8;
    bytes[CODE_COUNT] = map.kind_packs(TextKind::Code) as u8;
    bytes[SIZE_COUNT] = SIZE_PACKS;
    bytes[LAST_NUMBER] = last;
    bytes[LANGUAGE] = ENGLISH;
    bytes
}
