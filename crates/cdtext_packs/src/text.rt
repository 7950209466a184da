// The texts of a disc as lines.
ghost use Rattle.std.specs.Prelude.{◌≡◌, ◌+◌, ◌++◌, ◌<◌, ◌≤◌, OnOk, OnErr, flat_map, length, decimal};
ghost use Rattle.disc_time.specs.Counts.{most_tracks};
ghost use Rattle.bit_lists.specs.Digits.{hex_digits};
ghost use Rattle.std.specs.Io.KnownBytes.{Appends};
ghost use Rattle.cdg_io.specs.Causes.{HasCause};
ghost use Rattle.cdg_io.specs.Moves.{AppendsPrefix};
ghost use Rattle.cdtext_packs.specs.TextLines.{kind_name, printed, line_head, text_line, kind_lines, offers_line, counted_lines};

use crate::{KINDS, TextKind, TextMap};
use cdg_io::{Failed, Piece, Sink, put_all};
use disc_time::two_digits;
use itoa::Buffer;

/// Writes a line for each string that is not empty, and a line with the numbers of good packs, of packs with a wrong
/// CRC, and of packs of other blocks. After `Failed` a prefix was written.
pub fn write_lines<K: Sink>(
    map: &TextMap,
    good: u32,
    bad: u32,
    other: u32,
    out: &mut K,
) -> Result<(), Failed>
    ensures ok { OnOk result
        (Appends (K.held out.old) (K.held out.new) (counted_lines map.now good bad other)) }
    ensures part { OnErr result
        (AppendsPrefix (K.held out.old) (K.held out.new) (counted_lines map.now good bad other)) }
    ensures cause { HasCause (K.faults out.old) (K.faults out.new) result }
{
    for kind in KINDS {
        write_kind(map, kind, out)?;
    }
    let counts = count_line(good, bad, other);
    put_all(out, counts.bytes())
}

// Writes the lines of a kind: the album's, then the tracks'.
fn write_kind<K: Sink>(map: &TextMap, kind: TextKind, out: &mut K) -> Result<(), Failed>
    ensures ok { OnOk result (Appends (K.held out.old) (K.held out.new) (kind_lines map.now kind)) }
    ensures part { OnErr result (AppendsPrefix (K.held out.old) (K.held out.new) (kind_lines map.now kind)) }
    ensures cause { HasCause (K.faults out.old) (K.faults out.new) result }
{
    write_line(map, kind, 0, out)?;
    for track in map.first()..=map.last() {
        write_line(map, kind, track, out)?;
    }
    Ok(())
}

// Writes the line of a track, or of the album as track 0.
fn write_line<K: Sink>(map: &TextMap, kind: TextKind, track: u8, out: &mut K) -> Result<(), Failed>
    requires { track ≤ most_tracks }
    ensures ok { OnOk result (Appends (K.held out.old) (K.held out.new) (text_line map.now kind track)) }
    ensures part { OnErr result
        (AppendsPrefix (K.held out.old) (K.held out.new) (text_line map.now kind track)) }
    ensures cause { HasCause (K.faults out.old) (K.faults out.new) result }
{
    let string = map.text(kind, track);
    if string.is_empty() {
        return Ok(());
    }
    put_all(out, line_head(kind, track).bytes())?;
    write_bytes(string, out)?;
    put_all(out, b"\n")
}

// Writes bytes as they are printed.
fn write_bytes<K: Sink>(bytes: &[u8], out: &mut K) -> Result<(), Failed>
    ensures ok { OnOk result (Appends (K.held out.old) (K.held out.new) (flat_map printed bytes.now)) }
    ensures part { OnErr result
        (AppendsPrefix (K.held out.old) (K.held out.new) (flat_map printed bytes.now)) }
    ensures cause { HasCause (K.faults out.old) (K.faults out.new) result }
{
    for byte in bytes {
        put_all(out, printed(*byte).bytes())?;
    }
    Ok(())
}

fn printed(byte: u8) -> Piece
    ensures { result ≡ printed byte }
{
    let mut piece = Piece::new();
    if byte >= 0x20 && byte <= 0x7e && byte != b'\\' {
        piece.add(&[byte]);
    } else {
        piece.add(b"\\");
        piece.add(&hex_byte(byte));
    }
    piece
}

// The two hexadecimal digits of a byte.
fn hex_byte(byte: u8) -> [u8; 2]
    ensures { result ≡ hex_digits 2 byte }
{
    let mut digits = [0; 2];
    // Two digits are enough for a byte.
    let _ = hex::encode_to_slice([byte], &mut digits);
    digits
}

// The beginning of a line, before its string.
fn line_head(kind: TextKind, track: u8) -> Piece
    requires { track ≤ most_tracks }
    ensures { result ≡ line_head kind track }
{
    let mut piece = Piece::new();
    piece.add(kind_name(kind));
    piece.add(b" ");
    piece.add(&two_digits(track));
    piece.add(b" ");
    piece
}

// The word with which the lines of a kind begin.
fn kind_name(kind: TextKind) -> &'static [u8]
    ensures name { result.now ≡ kind_name kind }
    ensures bound { length result.now ≤ 10 }
{
    match kind {
        TextKind::Title => b"title",
        TextKind::Performer => b"performer",
        TextKind::Songwriter => b"songwriter",
        TextKind::Composer => b"composer",
        TextKind::Arranger => b"arranger",
        TextKind::Message => b"message",
        TextKind::Code => b"code",
    }
}

// The line with the numbers of packs.
fn count_line(good: u32, bad: u32, other: u32) -> Piece
    ensures { result ≡ offers_line good bad other }
{
    let mut piece = Piece::new();
    add_count(&mut piece, b"packs good ", good);
    add_count(&mut piece, b" bad ", bad);
    add_count(&mut piece, b" other ", other);
    piece.add(b"\n");
    piece
}

fn add_count(piece: &mut Piece, name: &[u8], count: u32)
    requires { length piece.old + length name.now ≤ 100 }
    ensures text { piece.new ≡ (piece.old ++ name.now) ++ decimal count }
    ensures size { length piece.new ≤ length piece.old + length name.now + 10 }
{
    piece.add(name);
    piece.add(Buffer::new().format(count).as_bytes());
}
