// Reading and writing the twelve bytes of frames of the Q channel.
ghost use Rattle.std.specs.Prelude.{◌≡◌, ◌≢◌, ◌↔◌, ◌⊎◌, IfSome, Some, Err, pos, negsuc, take, drop};
ghost use Rattle.bit_lists.specs.Bits.{bits_of_bytes};
ghost use Rattle.bit_lists.specs.Check.{check_bits};
ghost use Rattle.block_survey.specs.Plain.{frame_of_plain, plain_of};
ghost use Rattle.q_channel.specs.QReading.{IsReading};
ghost use Rattle.q_channel.specs.QFrame.{IsFrame, IsValid};
ghost use Rattle.q_channel.specs.declared.frame.QFault.TheVariants.{BadField};
ghost use Rattle.q_channel.specs.declared.frame.QFrame.{QFrame};

use block_survey::{PlainFrame, frame_of, plain_of};
use q_channel::{QFault, decode, encode};

/// Reads the twelve bytes of a frame. Returns 0, or 1 if the check is wrong, or 2 if a field is out of its
/// range: then the number of the first bit of the first such field is written.
#[unsafe(no_mangle)]
pub extern "C" fn ribjasper_q_decode(bytes: &[u8; 12], frame: &mut PlainFrame, bit: &mut u8) -> i32
    ensures frame { result ≡ pos 0 → (found : QFrame) × IsFrame found (bits_of_bytes bytes.now)
        × (frame.new ≡ plain_of found) }
    ensures only { (found : QFrame) → IsFrame found (bits_of_bytes bytes.now) → result ≡ pos 0 }
    ensures bad_check { (result ≡ pos 1)
        ↔ (drop 80 (bits_of_bytes bytes.now) ≢ check_bits (take 80 (bits_of_bytes bytes.now))) }
    ensures bad_field { result ≡ pos 2 → IsReading (bits_of_bytes bytes.now) (Err (BadField bit.new)) }
    ensures answer { (result ≡ pos 0) ⊎ (result ≡ pos 1) ⊎ (result ≡ pos 2) }
    ensures untouched { result ≢ pos 0 → frame.new ≡ frame.old }
    ensures same { result ≢ pos 2 → bit.new ≡ bit.old }
{
    match decode(bytes) {
        Ok(found) => {
            *frame = plain_of(&found);
            0
        }
        Err(QFault::BadCrc) => 1,
        Err(QFault::BadField { bit: first }) => {
            *bit = first;
            2
        }
    }
}

/// Writes the twelve bytes of a frame. Returns 0, or -1 if its kind is unknown or a field has an invalid
/// value.
#[unsafe(no_mangle)]
pub extern "C" fn ribjasper_q_encode(frame: &PlainFrame, bytes: &mut [u8; 12]) -> i32
    ensures bytes { result ≡ pos 0 → (found : QFrame) × (frame_of_plain frame.now ≡ Some found)
        × IsFrame found (bits_of_bytes bytes.new) }
    ensures refused { result ≡ negsuc 0 → IfSome (frame_of_plain frame.now) (λ found. ¬ IsValid found) }
    ensures answer { (result ≡ pos 0) ⊎ (result ≡ negsuc 0) }
    ensures untouched { result ≡ negsuc 0 → bytes.new ≡ bytes.old }
{
    match frame_of(frame) {
        Some(found) => {
            *bytes = encode(&found);
            0
        }
        None => -1,
    }
}
