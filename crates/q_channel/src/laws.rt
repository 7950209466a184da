// Laws on the reading of frames.
ghost use Rattle.std.specs.Prelude.{◌≡◌, ◌≢◌, ◌≤◌, ◌↔◌, ◌++◌, List, Bool, length, Result, Ok, Err};
ghost use Rattle.q_channel.specs.QFrame.{IsFrame};
ghost use Rattle.q_channel.specs.declared.frame.QFrame.{QFrame};
ghost use Rattle.q_channel.specs.declared.frame.QFault.{QFault};
ghost use Rattle.q_channel.specs.declared.frame.QFault.TheVariants.{BadCrc};
ghost use Rattle.q_channel.specs.QReading.{IsReading};
ghost use Rattle.q_channel.specs.ReadingOf.{reading_of};
ghost use Rattle.q_channel.specs.Sizes.{frame_bits};

/// A law: the bits of a frame, for example of a written one, are read as this frame and as nothing else.
pub fn bits_have_one_reading()
    ensures { (frame : QFrame) (message : List Bool) (what : Result QFrame QFault)
        → IsFrame frame message → IsReading message what → what ≡ Ok frame }
{}

/// A law: 96 bits have exactly one reading, the result of the function `reading_of`.
pub fn readings_are_functions()
    ensures { (message : List Bool) (what : Result QFrame QFault) → length message ≡ frame_bits
        → IsReading message what ↔ (what ≡ reading_of message) }
{}

/// A law: if bits of a frame change, all within sixteen neighbouring bits, the check no longer matches.
pub fn burst_is_noticed()
    ensures { (frame : QFrame) (before one other after : List Bool) (what : Result QFrame QFault)
        → length one ≤ 16 → length other ≡ length one → one ≢ other
        → IsFrame frame (before ++ one ++ after) → IsReading (before ++ other ++ after) what
        → what ≡ Err BadCrc }
{}
