// The texts of a cue sheet, their packs, and whether a lead-in has room for them.
ghost use Rattle.std.specs.Prelude.{◌≡◌, ◌+◌, ◌≤◌, ◌++◌, ◌∷◌, length, IfOk, ◌<◌, [], IsOkAnd, ◌-◌, ◌/◌, ◌==◌, IfErr, OnOk, if◌then◌else◌};
ghost use Rattle.cue_sheet.specs.CueSheet.{IsSheet};
ghost use Rattle.stream_writer.specs.SheetTexts.{AreStringsOf, code_at, for_each, string_at, texts_of_sheet};
ghost use Rattle.stream_writer.specs.Needs.{text_packs, HasRoom};
ghost use Rattle.cdtext_packs.specs.Packs.{text_bytes};
ghost use Rattle.cdtext_packs.specs.Writing.{pack_count, packs_of};
ghost use Rattle.stream_writer.specs.Stops.{IsLeadInRefusal};

use cdtext_packs::{MOST_PACKS, Strings, TEXT_BYTES, TextKind, TextMap, TextPack, pack_all};
use cue_sheet::{CueText, Sheet};
use std::alloc::{AllocError, Global};
use toc_model::toc_need;

/// The texts of a sheet: titles, performers and songwriters. The codes are the catalogue number and the tracks' ISRCs.
/// If all texts are empty, the result is the empty map.
pub fn texts_of_sheet(alloc: Global, sheet: &Sheet) -> Result<TextMap, AllocError>
    ensures { IfOk result (λ map. map ≡ texts_of_sheet sheet.now) }
{
    let (titles, performers) = strings_of_two(alloc, sheet, TextKind::Title, TextKind::Performer)?;
    let (songwriters, codes) = strings_of_two(alloc, sheet, TextKind::Songwriter, TextKind::Code)?;
    TextMap::of_strings(alloc, sheet.first(), titles, performers, songwriters, codes)
}

// The strings of two kinds for the album and each track.
fn strings_of_two(
    alloc: Global,
    sheet: &Sheet,
    one: TextKind,
    other: TextKind,
) -> Result<(Strings, Strings), AllocError>
    ensures strings { IfOk result
        (λ two. AreStringsOf sheet.now one two.0 × AreStringsOf sheet.now other two.1) }
    ensures sheet { IsSheet sheet.now }
{
    let first = sheet_strings(alloc, sheet, one)?;
    let second = sheet_strings(alloc, sheet, other)?;
    Ok((first, second))
}

// The strings of a kind for the album and each track.
fn sheet_strings(alloc: Global, sheet: &Sheet, kind: TextKind) -> Result<Strings, AllocError>
    ensures strings { IfOk result (AreStringsOf sheet.now kind) }
    ensures sheet { IsSheet sheet.now }
{
    let mut strings = Strings::new(alloc);
    for place in 0..sheet.tracks() + 1 {
        push_copy(alloc, &mut strings, string_at(sheet, kind, place))?;
    }
    Ok(strings)
}

// Appends a copy of a string.
fn push_copy(alloc: Global, strings: &mut Strings, string: &[u8]) -> Result<(), AllocError>
    ensures { OnOk result (strings.new ≡ strings.old ++ string.now ∷ []) }
{
    strings.push(string.to_vec(alloc)?)
}

// The string of a kind for the album or a track, empty if there is none.
fn string_at(sheet: &Sheet, kind: TextKind, place: usize) -> &[u8]
    requires { place ≤ length sheet.now.tracks }
    ensures { result.now ≡ string_at kind sheet.now place }
{
    match kind {
        TextKind::Title => sheet.text(CueText::Title, place),
        TextKind::Performer => sheet.text(CueText::Performer, place),
        TextKind::Songwriter => sheet.text(CueText::Songwriter, place),
        TextKind::Composer | TextKind::Arranger | TextKind::Message => &[],
        TextKind::Code => code_at(sheet, place),
    }
}

// The catalogue number for the album, or the ISRC of a track, empty if there is none.
fn code_at(sheet: &Sheet, place: usize) -> &[u8]
    requires { place ≤ length sheet.now.tracks }
    ensures { result.now ≡ code_at sheet.now place }
{
    let code = if place == 0 {
        sheet.catalogue()
    } else {
        sheet.isrc(place - 1)
    };
    match code {
        Some(code) => code,
        None => &[],
    }
}

/// The text packs of a sheet, for which the lead-in has room. Without a lead-in there are none.
pub fn pack_texts(alloc: Global, sheet: &Sheet, lead_in: u32) -> Result<Vec<TextPack>, AllocError>
    requires { HasRoom sheet.now lead_in }
    ensures texts { IfOk result (λ packs. 0 < lead_in → packs.items ≡ text_packs sheet.now) }
    ensures none { lead_in ≡ 0 → IsOkAnd result (λ packs. packs.items ≡ []) }
{
    if lead_in == 0 {
        return Ok(Vec::new(alloc));
    }
    packs_of_sheet(alloc, sheet)
}

// The packs of the texts of a sheet.
fn packs_of_sheet(alloc: Global, sheet: &Sheet) -> Result<Vec<TextPack>, AllocError>
    ensures { IfOk result (λ packs. packs.items ≡ text_packs sheet.now) }
{
    let map = texts_of_sheet(alloc, sheet)?;
    pack_few(alloc, &map)
}

// The packs of texts. There are at most 256 packs, so the only error is a failed allocation.
fn pack_few(alloc: Global, map: &TextMap) -> Result<Vec<TextPack>, AllocError>
    ensures { IfOk result (λ packs. packs.items ≡ packs_of map.now) }
{
    match pack_all(alloc, map) {
        Ok(packs) => Ok(packs),
        Err(_) => Err(AllocError),
    }
}

/// The reason why a lead-in is too short for the texts of a sheet or for its table of contents.
#[derive(Clone, Copy)]
pub enum LeadInStop {
    /// The texts need this many packs, and the maximum is 256.
    TextTooLong { packs: u32 },
    /// The lead-in needs this many blocks.
    LeadInShort { need: u32 },
}

const SIZE_PACKS: u32 = 3;

/// Checks that a lead-in, if there is one, has room for the texts of a sheet and for its table of contents. It
/// allocates nothing.
///
/// # Errors
///
/// `TextTooLong` if the texts need more than 256 packs, then `LeadInShort` if the lead-in has too few blocks.
pub fn judge_lead_in(sheet: &Sheet, lead_in: u32) -> Result<(), LeadInStop>
    ensures room { OnOk result (HasRoom sheet.now lead_in) }
    ensures err { IfErr result (IsLeadInRefusal sheet.now lead_in) }
{
    if lead_in == 0 {
        return Ok(());
    }
    let packs = count_text_packs(sheet);
    if packs > MOST_PACKS {
        return Err(LeadInStop::TextTooLong { packs });
    }
    let need = toc_need(sheet).max((packs + 3) / 4);
    if lead_in < need {
        return Err(LeadInStop::LeadInShort { need });
    }
    Ok(())
}

fn count_text_packs(sheet: &Sheet) -> u32
    ensures { result ≡ length (text_packs sheet.now) }
{
    let filled = kind_packs(sheet, TextKind::Title)
        + kind_packs(sheet, TextKind::Performer)
        + kind_packs(sheet, TextKind::Songwriter)
        + kind_packs(sheet, TextKind::Code);
    if filled == 0 {
        return 0;
    }
    filled + SIZE_PACKS
}

// The number of packs of a kind. There are none if all its strings are empty.
fn kind_packs(sheet: &Sheet, kind: TextKind) -> u32
    ensures packs { result ≡ pack_count (for_each sheet.now (string_at kind sheet.now)) }
    ensures bound { result ≤ 560000000 }
{
    let strings = sheet.tracks() + 1;
    let mut bytes = 0;
    for place in 0..strings {
        bytes += string_at(sheet, kind, place).len() + 1;
    }
    if bytes == strings {
        return 0;
    }
    ((bytes + (TEXT_BYTES - 1)) / TEXT_BYTES) as u32
}
