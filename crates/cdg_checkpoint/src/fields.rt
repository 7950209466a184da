// The numbers in the fields of a file.
ghost use Rattle.std.specs.Prelude.{◌≡◌, ◌≤◌, ◌+◌, ◌<◌, length, slice_index};
ghost use Rattle.cdg_checkpoint.specs.Table.{Bad, LeadIn, Program, ToCome, file_size, number, number_at};

/// The counts of a stream up to a checkpoint.
#[derive(Clone, Copy)]
pub struct StreamCounts {
    /// The number of lead-in blocks that are not read yet, at most 450,000.
    pub to_come: u32,
    /// The number of lead-in blocks that were read. The lead-in has at most 450,000 blocks.
    pub lead_in: u32,
    /// The number of program blocks that were read: 0 before the end of the lead-in. With the lead-in, at
    /// most 1,000,000 blocks.
    pub program: u32,
    /// The number of words read so far with no codeword within two symbols.
    pub bad: u32,
}

// The byte at which each part of the file begins.

pub(crate) const TO_COME: usize = 8;

pub(crate) const LEAD_IN: usize = 12;

pub(crate) const PROGRAM: usize = 16;

pub(crate) const BAD: usize = 20;

pub(crate) const SLOTS: usize = 24;

pub(crate) const MEMORY: usize = 192;

pub(crate) const BORDER: usize = 64_992;

pub(crate) const ACROSS: usize = 64_993;

pub(crate) const DOWN: usize = 64_994;

pub(crate) const COLOURS: usize = 64_995;

pub(crate) const LEVELS: usize = 65_027;

pub(crate) const CHECK: usize = 65_043;

pub(crate) fn counts_in(bytes: &[u8]) -> StreamCounts
    requires { length bytes.now ≡ file_size }
    ensures to_come { result.to_come ≡ number bytes.now ToCome 0 }
    ensures lead_in { result.lead_in ≡ number bytes.now LeadIn 0 }
    ensures program { result.program ≡ number bytes.now Program 0 }
    ensures bad { result.bad ≡ number bytes.now Bad 0 }
{
    StreamCounts {
        to_come: number(bytes, TO_COME),
        lead_in: number(bytes, LEAD_IN),
        program: number(bytes, PROGRAM),
        bad: number(bytes, BAD),
    }
}

// The number in the four bytes from this byte on.
fn number(bytes: &[u8], at: usize) -> u32
    requires { at + 4 ≤ length bytes.now }
    ensures { result ≡ number_at bytes.now 4 at }
{
    u32::from_be_bytes([bytes[at], bytes[at + 1], bytes[at + 2], bytes[at + 3]])
}

/// The number in the two bytes from this byte on.
pub(crate) fn short_number(bytes: &[u8], at: usize) -> u16
    requires { at + 2 ≤ length bytes.now }
    ensures { result ≡ number_at bytes.now 2 at }
{
    u16::from_be_bytes([bytes[at], bytes[at + 1]])
}

/// The number in the eight bytes at the front.
pub(crate) fn front(bytes: &[u8]) -> u64
    requires { 8 ≤ length bytes.now }
    ensures { result ≡ number_at bytes.now 8 0 }
{
    u64::from_be_bytes([
        bytes[0], bytes[1], bytes[2], bytes[3], bytes[4], bytes[5], bytes[6], bytes[7],
    ])
}

pub(crate) fn byte(bytes: &[u8], at: usize) -> u8
    requires { at < length bytes.now }
    ensures byte { result ≡ slice_index bytes.now at }
    ensures number { result ≡ number_at bytes.now 1 at }
{
    bytes[at]
}
