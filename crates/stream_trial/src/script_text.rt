// Room for the text of a script.
ghost use Rattle.std.specs.Prelude.{◌≡◌, ◌<◌, ◌∷◌, [], Some, length, IfOk};
ghost use Rattle.cdg_io.specs.Causes.{HasCause};

use cdg_io::{Failed, MemSink, Sink};
use std::alloc::AllocError;
use subcode_author::Heap;

/// The text of a script, in memory that is allocated at the start. A write fails only if this memory is full.
#[derive(Drop)]
pub(crate) struct ScriptText {
    sink: MemSink,
    ghost steady: { sink.fails ≡ [] },
    ghost full: { 0 < sink.faults → length sink.held ≡ sink.room },
}

impl ScriptText {
    /// An empty text with room for `room` bytes.
    pub(crate) fn start(heap: &mut Heap, room: usize) -> Result<ScriptText, AllocError>
        ensures empty { IfOk result (λ text. text.sink.held ≡ []) }
        ensures room { IfOk result (λ text. text.sink.room ≡ room) }
        ensures counted { HasCause heap.old heap.new result }
    {
        let sink = heap.asked(|alloc| MemSink::new(alloc, room, Vec::new(alloc), Vec::new(alloc)))?;
        Ok(ScriptText { sink })
    }

    pub(crate) fn bytes(&self) -> &[u8]
        ensures { result.now ≡ self.now.sink.held }
    {
        self.sink.bytes()
    }
}

impl Sink for ScriptText {
    // The size of the room, which never changes, and then the text.
    ghost held = { λ s. Some (s.sink.room ∷ s.sink.held) };

    ghost faults = { λ s. s.sink.faults };

    fn put(&mut self, piece: &[u8]) -> Result<usize, Failed> {
        self.sink.put(piece)
    }
}
