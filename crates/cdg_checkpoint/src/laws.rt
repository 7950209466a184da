// Laws: files are read back, and a resumed stream shows the same as the whole stream.
ghost use Rattle.std.specs.Prelude.{◌≡◌, ◌≢◌, ◌≤◌, ◌-◌, ◌/◌, ◌%◌, ◌++◌, List, ℕ, length, Some, Result, Err, ◌<◌, ◌^◌};
ghost use Rattle.cdg_io.specs.Change.{Bytes, Change, from_to};
ghost use Rattle.cdg_screen.specs.Standing.{Standing};
ghost use Rattle.cdg_screen.specs.Texts.{pixmap};
ghost use Rattle.cdg_checkpoint.specs.Checkpoint.{Checkpoint, checkpoint_in, file_of, written_value, IsSoundCheckpoint};
ghost use Rattle.cdg_checkpoint.specs.Table.{IsCheckpointFile, Bad, LeadIn, Memory, Program, Slots, ToCome, file_size, number, slots_bytes};
ghost use Rattle.cdg_io.specs.declared.pumping.Pumped.{Pumped};
ghost use Rattle.cdg_checkpoint.specs.Resumed.{IsFirstPart, as_played, IsGoneOn, IsResumed, IsResumedBy, Resumes};
ghost use Rattle.cdg_checkpoint.specs.declared.stops.Resumed.{Resumed};
ghost use Rattle.cdg_checkpoint.specs.declared.stops.ResumeStop.{ResumeStop};
ghost use Rattle.raw_subcode.specs.Sizes.{block_bytes};
ghost use Rattle.raw_subcode.specs.declared.form.Form.{Form};
ghost use Rattle.stream_stages.specs.Watch.{IsViewed};
ghost use Rattle.stream_stages.specs.Screen.{IsScreenAt, IsShownBy, Shows, moment};
ghost use Rattle.cdg_checkpoint.specs.Saved.{IsCheckpointOf, IsSaved};
ghost use Rattle.cdg_instructions.specs.Sizes.{screen_pixels};

/// A law: what is written is read back. The file of each checkpoint has 65,045 bytes and contains its counts, slots
/// and memory.
pub fn files_are_read_back()
    ensures size { (c : Checkpoint) → length (file_of c) ≡ file_size }
    ensures to_come { (c : Checkpoint) → c.to_come < 2 ^ 32 → number (file_of c) ToCome 0 ≡ c.to_come }
    ensures lead_in { (c : Checkpoint) → c.lead_in < 2 ^ 32 → number (file_of c) LeadIn 0 ≡ c.lead_in }
    ensures program { (c : Checkpoint) → c.program < 2 ^ 32 → number (file_of c) Program 0 ≡ c.program }
    ensures bad { (c : Checkpoint) → c.bad < 2 ^ 32 → number (file_of c) Bad 0 ≡ c.bad }
    ensures slots { (c : Checkpoint) (k : ℕ) → k < slots_bytes
        → number (file_of c) Slots k ≡ written_value c Slots k % 256 }
    ensures memory { (c : Checkpoint) (k : ℕ) → k < screen_pixels
        → number (file_of c) Memory k ≡ written_value c Memory k % 256 }
{}

/// A law: the file of a checkpoint whose numbers are in their ranges is valid, and reading it gives this checkpoint.
pub fn sound_checkpoints_are_accepted()
    ensures accepted { (c : Checkpoint) → IsSoundCheckpoint c → IsCheckpointFile (file_of c) }
    ensures same { (c : Checkpoint) → IsSoundCheckpoint c → checkpoint_in (file_of c) ≡ c }
{}

/// A law: a checkpoint after whole blocks, resumed with the rest of the stream, has at each time the screen and the
/// count of bad words of the whole stream.
pub fn a_resumed_stream_is_the_whole()
    ensures { (bytes rest : List ℕ) (lead_in time bad : ℕ) (c : Checkpoint) (now : Standing)
        → length bytes % block_bytes ≡ 0 → length rest % block_bytes ≡ 0 → IsCheckpointOf bytes lead_in c
        → c.program ≤ time → IsGoneOn c time rest now bad
        → IsViewed (moment Form.Raw lead_in time) (bytes ++ rest) now bad }
{}

/// A law: cut a stream after whole blocks. The file that `save` writes for the first part is valid. `resume` of this
/// file and the rest returns what the length of the whole stream determines. If the rest is whole blocks too, `resume`
/// writes the screen of the whole stream at this time, and only this screen.
pub fn a_saved_stream_goes_on_as_the_whole()
    ensures accepted { (lead_in : ℕ) (bytes file : List ℕ) (pumped : Pumped) → IsFirstPart lead_in bytes
        → IsSaved lead_in bytes pumped file
        → IsCheckpointFile file × ((checkpoint_in file).program ≡ length bytes / block_bytes - lead_in) }
    ensures answer { (lead_in time : ℕ) (bytes rest file : List ℕ) (pumped : Pumped)
        (result : Result Resumed ResumeStop) → IsFirstPart lead_in bytes → IsSaved lead_in bytes pumped file
        → IsResumedBy result (checkpoint_in file) time (length rest)
        → IsShownBy (as_played result) lead_in time block_bytes (length (bytes ++ rest)) }
    ensures shown { (lead_in time : ℕ) (bytes rest file text : List ℕ) (pumped : Pumped) (resumed : Resumed)
        → IsFirstPart lead_in bytes → length rest % block_bytes ≡ 0 → IsSaved lead_in bytes pumped file
        → length bytes / block_bytes - lead_in ≤ time → IsResumed file time rest resumed text
        → IsScreenAt (moment Form.Raw lead_in time) (bytes ++ rest) text resumed.bad
        × (resumed.blocks ≡ length (bytes ++ rest) / block_bytes - lead_in) }
    // A call of `resume` with this file and this rest shows the time of the whole stream.
    ensures whole { (lead_in time : ℕ) (bytes rest file taken : List ℕ) (pumped : Pumped)
        (result : Result Resumed ResumeStop) (left : Bytes) (out : Change Bytes)
        → IsFirstPart lead_in bytes → IsSaved lead_in bytes pumped file
        → length bytes / block_bytes - lead_in ≤ time → result ≢ Err ResumeStop.WriteFault
        → IsResumedBy result (checkpoint_in file) time (length rest)
        → Resumes file time (record { left = from_to (Some rest) left; held = out }) result taken
        → Shows pixmap (moment Form.Raw lead_in time)
        (record { left = from_to (Some (bytes ++ rest)) left; held = out })
        (as_played result) (bytes ++ taken) }
    // A stream has one screen at each time.
    ensures only { (lead_in time bad other_bad : ℕ) (bytes text other : List ℕ)
        → IsScreenAt (moment Form.Raw lead_in time) bytes text bad
        → IsScreenAt (moment Form.Raw lead_in time) bytes other other_bad
        → (text ≡ other) × (bad ≡ other_bad) }
{}
