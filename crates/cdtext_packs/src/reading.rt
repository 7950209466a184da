// The texts of kept packs. Pack n, if it is kept, is at index n.
ghost use Rattle.std.specs.Prelude.{◌≡◌, ◌≤◌, ◌*◌, false, [], length, Some, None, IfOk, All, if◌then◌else◌};
ghost use Rattle.std.specs.List.{position_or_len};
ghost use Rattle.std.specs.Option.{option_map};
ghost use Rattle.disc_time.specs.Counts.{most_text_bytes};
ghost use Rattle.cdtext_packs.specs.Packs.{most_text_packs, text_bytes};
ghost use Rattle.cdtext_packs.specs.Texts.{IsString};
ghost use Rattle.cdtext_packs.specs.Reading.{keeps_nothing, is_size_pack, size_pack, first_missing, first_short, kind_packs, last_number, is_short, is_zero, ends_in, kind_texts, kind_bytes, strings_in, resolved};

use crate::kinds::{KINDS, SIZE_TYPE, TextKind};
use crate::map::{Strings, empty_strings};
use crate::pack::TextPack;
use std::alloc::{AllocError, Global};

pub(crate) fn keeps_nothing(kept: &[Option<TextPack>]) -> bool
    ensures { result ≡ keeps_nothing kept.now }
{
    kept.iter().all(|slot| slot.is_none())
}

/// Size pack `d`: of several, the one with the least number.
pub(crate) fn size_pack(kept: &[Option<TextPack>], d: u8) -> Option<TextPack>
    ensures { result ≡ size_pack kept.now d }
{
    for slot in kept {
        if let Some(pack) = slot {
            if is_size_pack(pack, d) {
                return Some(*pack);
            }
        }
    }
    None
}

// Whether it is size pack `d`, of 0 to 2.
fn is_size_pack(pack: &TextPack, d: u8) -> bool
    ensures { result ≡ is_size_pack d pack.now }
{
    pack.kind() == SIZE_TYPE && pack.track() == d
}

/// The least number below `count` that is not kept.
pub(crate) fn first_missing(kept: &[Option<TextPack>], count: usize) -> Option<u8>
    requires kept { count ≤ length kept.now }
    requires count { count ≤ most_text_packs }
    ensures { result ≡ first_missing kept.now count }
{
    for number in 0..count {
        if kept[number].is_none() {
            return Some(number as u8);
        }
    }
    None
}

/// The number of the last pack of the first kind that has too few strings.
pub(crate) fn first_short(kept: &[Option<TextPack>], count: usize) -> Option<u8>
    requires { length kept.now ≤ most_text_packs }
    ensures { result ≡ option_map (λ kind. last_number (kind_packs kept.now kind))
        (first_short kept.now count) }
{
    for kind in KINDS {
        let short = short_at(kept, count, kind);
        if short.is_some() {
            return short;
        }
    }
    None
}

// The number of the last pack of a kind, if the kind has too few strings.
fn short_at(kept: &[Option<TextPack>], count: usize, kind: TextKind) -> Option<u8>
    requires { length kept.now ≤ most_text_packs }
    ensures { result ≡ (if is_short kept.now count kind then Some (last_number (kind_packs kept.now kind))
        else None) }
{
    let mut ends = 0;
    let mut last = None;
    for slot in kept {
        if let Some(pack) = slot {
            if pack.kind() == kind.pack_type() {
                ends += zeros_in(pack.text());
                last = Some(pack.number());
            }
        }
    }
    if ends < count { last } else { None }
}

fn zeros_in(bytes: &[u8]) -> usize
    ensures count { result ≡ ends_in bytes.now }
    ensures bound { result ≤ length bytes.now }
{
    bytes.iter().filter(|b| **b == 0).count()
}

/// The strings of a kind, one for the album and each track.
pub(crate) fn kind_texts(
    alloc: Global,
    kept: &[Option<TextPack>],
    count: usize,
    kind: TextKind,
) -> Result<Strings, AllocError>
    requires few { length kept.now ≤ most_text_packs }
    requires enough { is_short kept.now count kind ≡ false }
    ensures texts { IfOk result (λ strings. strings ≡ kind_texts kept.now count kind) }
    ensures count { IfOk result (λ strings. length strings ≡ count) }
    ensures each { IfOk result (All IsString) }
{
    let bytes = kind_bytes(alloc, kept, kind)?;
    if bytes.is_empty() {
        empty_strings(alloc, count)
    } else {
        strings_in(alloc, &bytes, count)
    }
}

fn kind_bytes(
    alloc: Global,
    kept: &[Option<TextPack>],
    kind: TextKind,
) -> Result<Vec<u8>, AllocError>
    ensures bytes { IfOk result (λ bytes. bytes.items ≡ kind_bytes kept.now kind) }
    ensures size { IfOk result (λ bytes. length bytes.items ≤ text_bytes * length kept.now) }
{
    let mut bytes = Vec::new(alloc);
    for slot in kept {
        if let Some(pack) = slot {
            if pack.kind() == kind.pack_type() {
                bytes.extend_from_slice(pack.text())?;
            }
        }
    }
    Ok(bytes)
}

// The first strings in these bytes. A single tab repeats the previous string.
fn strings_in(alloc: Global, bytes: &[u8], count: usize) -> Result<Strings, AllocError>
    requires size { length bytes.now ≤ most_text_bytes }
    requires count { count ≤ ends_in bytes.now }
    ensures strings { IfOk result (λ strings. strings ≡ resolved (strings_in count bytes.now)) }
    ensures count { IfOk result (λ strings. length strings ≡ count) }
    ensures each { IfOk result (All IsString) }
{
    let mut strings = Strings::new(alloc);
    let mut start = 0;
    for _place in 0..count {
        let rest = &bytes[start..];
        let end = string_end(rest);
        let string = strings.meant(&rest[..end]).to_vec(alloc)?;
        strings.push(string)?;
        start += end + 1;
    }
    Ok(strings)
}

// The place of the first zero byte, or the end.
fn string_end(bytes: &[u8]) -> usize
    ensures end { result ≡ position_or_len is_zero bytes.now }
    ensures bound { result ≤ length bytes.now }
{
    bytes
        .iter()
        .position(|byte| *byte == 0)
        .unwrap_or(bytes.len())
}
