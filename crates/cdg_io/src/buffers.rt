// A buffered reader as a source, and a buffered writer as a sink.
ghost use Rattle.std.specs.Prelude.{◌⊎◌, ◌++◌, ◌-◌, ◌^◌, Ok, min, ◌≡◌, ◌<◌, ◌≤◌, List, ℕ, Some, drop, length, take, true, false, ◌≢◌, ◌+◌, [], IfOk, IsOk, OnErr, OnOk, vec_len};
ghost use Rattle.std.specs.Io.{ReadsAtMost};
ghost use Rattle.std.specs.Io.Buffered.{reader_inner, reader_remaining};
ghost use Rattle.std.specs.Io.KnownBytes.{Consumes, ReadConsumes, WriteAppends, Appends, Keeps};
ghost use Rattle.std.specs.declared.alloc.Global.{Global};
ghost use Rattle.std.specs.declared.io.buffered.BufReader.{BufReader};
ghost use Rattle.cdg_io.specs.Causes.{Counted, CountedReader, HasCause, counted_after, nothing_reported};
ghost use Rattle.cdg_io.specs.Change.{from_to};
ghost use Rattle.cdg_io.specs.Counts.{GivesFull, ReportsRead, kept_counts};
ghost use Rattle.cdg_io.specs.Moves.{TakesSome};
ghost use Rattle.cdg_io.specs.Pump.{Works};
ghost use Rattle.cdg_io.specs.Waiting.{Buffered, bytes_with_waiting};

use crate::ends::{CountedWriter, Outcome, Tally, read_counted};
use crate::piece::copy_front;
use crate::{Failed, PassedUnits, Piece, Sink, Source, UnitStage};
use std::alloc::{AllocError, Global};
use std::io::{BufRead, BufReader, Read, Write};
use std::marker::Model;

/// A buffered reader as a source. It works like `ReadSource`, but feeds units directly from its buffer.
#[derive(Drop)]
pub struct BufferedSource<R: Read> {
    reader: BufReader<R>,
    faults: u64,
    tally: Tally,
}

impl<R: Read> Model for BufferedSource<R> {
    ghost Value = { CountedReader (BufReader R Global) };

    ghost view = { λ s. record { inner = s.reader; faults = s.faults; tally = s.tally } };
}

impl<R: Read> BufferedSource<R> {
    pub fn new(reader: BufReader<R>) -> Self
        ensures { result ≡ record { inner = reader; faults = 0; tally = nothing_reported } }
    {
        BufferedSource {
            reader,
            faults: 0,
            tally: Tally::new(),
        }
    }
}

impl<R: Read> Source for BufferedSource<R> {
    ghost left = { λ s. reader_remaining R.remaining s.inner };

    ghost faults = { λ s. s.faults };

    ghost ends = { λ s. Some s.tally.ends };

    ghost fills = { λ s. Some s.tally.fills };

    fn take(&mut self, buf: &mut [u8]) -> Result<usize, Failed>
        requires { 0 < length buf.old }
        ensures bound { ReadsAtMost result buf.new }
        ensures bytes { ReadConsumes (reader_remaining R.remaining self.old.inner)
            (reader_remaining R.remaining self.new.inner) result buf.new }
        ensures cause { HasCause self.old.faults self.new.faults result }
        ensures counts { ReportsRead 1 (length buf.old) (kept_counts self.old.tally self.new.tally) result }
        ensures counted { self.new.faults ≡ counted_after result self.old.faults }
    {
        read_counted(&mut self.reader, &mut self.faults, &mut self.tally, buf)
    }

    /// Feeds a unit from the buffer, without a read.
    #[inline]
    fn feed_at_hand<G: UnitStage>(&mut self, stage: &mut G, given: &mut Option<Piece>) -> bool
        requires { 0 < G.SIZE }
        ensures fed { result ≡ true → (unit : List ℕ) × (length unit ≡ G.SIZE)
            × Consumes (reader_remaining R.remaining self.old.inner)
            (reader_remaining R.remaining self.new.inner) unit
            × (stage.new ≡ G.next stage.old unit) × (given.new ≡ G.gives stage.old unit) }
        ensures counts { result ≡ true → GivesFull 1 (kept_counts self.old.tally self.new.tally) }
        ensures faults { self.new.faults ≡ self.old.faults }
        ensures none { result ≡ false
            → (self.new ≡ self.old) × (stage.new ≡ stage.old) × (given.new ≡ given.old) }
        ensures unread { reader_inner self.new.inner ≡ reader_inner self.old.inner }
    {
        let row = self.reader.buffer();
        if row.len() < G::SIZE {
            return false;
        }
        stage.take_unit(&row[..G::SIZE], given);
        self.reader.consume(G::SIZE);
        self.tally.add_full(1);
        true
    }

    /// Feeds units from the buffer, without a read.
    #[inline]
    fn feed_all_at_hand<G: UnitStage>(
        &mut self,
        stage: &mut G,
        given: &mut Option<Piece>,
        buffer: &mut [u8],
        start: usize,
        most: u32,
    ) -> PassedUnits
        requires size { 0 < G.SIZE }
        requires start { start ≤ length buffer.old }
        ensures works { (taken : List ℕ) × Works G.SIZE (record { next = G.next; gives = G.gives }) (record {
          left = from_to (reader_remaining R.remaining self.old.inner)
              (reader_remaining R.remaining self.new.inner);
          state = from_to stage.old stage.new;
          held = from_to (Some (take start buffer.old)) (Some (take result.end buffer.new));
        }) result.units taken }
        ensures most { result.units ≤ most }
        ensures within { (start ≤ result.end) × (result.end ≤ length buffer.new) }
        ensures behind { drop result.end buffer.new ≡ drop result.end buffer.old }
        ensures counts { GivesFull result.units (kept_counts self.old.tally self.new.tally) }
        ensures faults { self.new.faults ≡ self.old.faults }
        ensures unread { reader_inner self.new.inner ≡ reader_inner self.old.inner }
    {
        let mut row = self.reader.buffer();
        let held = row.len();
        let passed = stage.take_row(&mut row, given, buffer, start, most);
        let taken = held - row.len();
        self.reader.consume(taken);
        self.tally.add_full(passed.units);
        passed
    }
}

/// A buffered writer as a sink. `put` writes the waiting bytes only if otherwise more than `turn` bytes would
/// wait. `flush` and `pass_waiting` write them at once. The content of the sink is the content of the writer,
/// followed by the waiting bytes. A write that fails or writes no byte is a failure; bytes that were not
/// written still wait. An interrupted write is repeated.
#[derive(Drop)]
pub struct BufferedSink<W: Write> {
    writer: CountedWriter<W>,
    buffer: Vec<u8>,
    /// The number of waiting bytes. They are at the front of the buffer.
    end: usize,
    /// The maximum number of bytes that wait after `put`. The output of units from a buffer may fill the whole buffer.
    turn: usize,
    faults: u64,
}

impl<W: Write> Model for BufferedSink<W> {
    ghost Value = { Buffered W };

    ghost view = { λ s. record {
      inner = s.writer.inner;
      waiting = take s.end s.buffer.items;
      faults = s.faults;
      failed = s.writer.faults;
      turn = s.turn;
      room = vec_len s.buffer;
    } };

    ghost invariant = { λ s. (0 < s.turn) × (s.turn ≤ vec_len s.buffer) × (s.end ≤ vec_len s.buffer) };
}

impl<W: Write + Drop> BufferedSink<W> {
    /// A sink with memory for `room` waiting bytes; after `put`, at most `turn` bytes wait.
    pub fn new(
        alloc: Global,
        room: usize,
        turn: usize,
        writer: W,
    ) -> Result<BufferedSink<W>, AllocError>
        requires { (0 < turn) × (turn ≤ room) }
        ensures { IfOk result (λ s. s ≡ record {
          inner = writer;
          waiting = [];
          faults = 0;
          failed = 0;
          turn = turn;
          room = room;
        }) }
    {
        let buffer = vec![in alloc; 0; room]?;
        Ok(BufferedSink {
            writer: CountedWriter::new(writer),
            buffer,
            end: 0,
            turn,
            faults: 0,
        })
    }
}

impl<W: Write> BufferedSink<W> {
    /// Writes the waiting bytes.
    ///
    /// # Errors
    /// `Failed` if a write failed; the write is not repeated. The count of faults does not change: the next `put`
    /// without enough room reports the failure.
    pub fn flush(&mut self) -> Result<(), Failed>
        ensures empty { OnOk result (self.new.waiting ≡ []) }
        // If no byte waits, it succeeds. If it fails, some bytes still wait.
        ensures nothing { self.old.waiting ≡ [] → IsOk result }
        ensures left { OnErr result (self.new.waiting ≢ []) }
        ensures bytes { Keeps (bytes_with_waiting W.contents self.old)
            (bytes_with_waiting W.contents self.new) }
        ensures faults { self.new.faults ≡ self.old.faults }
        // It failed if and only if one write of the writer failed.
        ensures failed { self.new.failed ≡ counted_after result self.old.failed }
        ensures same { (self.new.turn ≡ self.old.turn) × (self.new.room ≡ self.old.room) }
    {
        let written = write_front(&mut self.writer, &self.buffer[..self.end]);
        move_to_front(&mut self.buffer, written, self.end);
        self.end -= written;
        if self.end > 0 {
            return Err(Failed);
        }
        Ok(())
    }

    // Writes the waiting bytes, and then appends at most `turn` bytes of the piece. It is not inlined, since
    // it runs for few pieces.
    #[cold]
    #[inline(never)]
    fn put_full(&mut self, piece: &[u8]) -> Result<usize, Failed>
        requires { 0 < length piece.now }
        ensures bound { TakesSome result piece.now }
        ensures bytes { WriteAppends (bytes_with_waiting W.contents self.old)
            (bytes_with_waiting W.contents self.new) result piece.now }
        ensures counted { self.new.faults ≡ counted_after result self.old.faults }
        ensures failed { self.new.failed ≡ counted_after result self.old.failed }
        ensures nothing { self.old.waiting ≡ [] → IsOk result }
        ensures written { IfOk result
            (λ n. (n ≡ min (length piece.now) self.old.turn) × (self.new.waiting ≡ take n piece.now)) }
        ensures same { (self.new.turn ≡ self.old.turn) × (self.new.room ≡ self.old.room) }
    {
        match self.flush() {
            Ok(()) => {
                let count = piece.len().min(self.turn);
                copy_front(&mut self.buffer, &piece[..count]);
                self.end = count;
                Ok(count)
            }
            Err(Failed) => {
                self.faults = self.faults.saturating_add(1);
                Err(Failed)
            }
        }
    }
}

impl<W: Write> Sink for BufferedSink<W> {
    ghost held = { bytes_with_waiting W.contents };

    ghost faults = { λ s. s.faults };

    #[inline]
    fn put(&mut self, piece: &[u8]) -> Result<usize, Failed>
        requires { 0 < length piece.now }
        ensures bound { TakesSome result piece.now }
        ensures bytes { WriteAppends (bytes_with_waiting W.contents self.old)
            (bytes_with_waiting W.contents self.new) result piece.now }
        ensures cause { HasCause self.old.faults self.new.faults result }
        ensures counted { self.new.faults ≡ counted_after result self.old.faults }
        // It failed if and only if one write of the writer failed.
        ensures failed { self.new.failed ≡ counted_after result self.old.failed }
        // If no byte waits, it succeeds.
        ensures nothing { self.old.waiting ≡ [] → IsOk result }
        // If there is room for the piece, nothing is written. Otherwise all waiting bytes are written first.
        ensures kept { length self.old.waiting + length piece.now ≤ self.old.turn
            → (result ≡ Ok (length piece.now)) × (self.new.inner ≡ self.old.inner)
            × (self.new.waiting ≡ self.old.waiting ++ piece.now) }
        ensures written { self.old.turn < length self.old.waiting + length piece.now
            → IfOk result (λ n. (n ≡ min (length piece.now) self.old.turn)
            × (self.new.waiting ≡ take n piece.now)) }
        ensures same { (self.new.turn ≡ self.old.turn) × (self.new.room ≡ self.old.room) }
    {
        if piece.len() > self.turn.saturating_sub(self.end) {
            return self.put_full(piece);
        }
        copy_front(&mut self.buffer[self.end..], piece);
        self.end += piece.len();
        Ok(piece.len())
    }

    /// Writes the waiting bytes. Bytes that cannot be written still wait, and a later call reports the failure.
    fn pass_waiting(&mut self)
        ensures bytes { Keeps (bytes_with_waiting W.contents self.old)
            (bytes_with_waiting W.contents self.new) }
        ensures no_fault { self.new.faults ≡ self.old.faults }
        // Nothing waits any more, or one write of the writer failed.
        ensures passed { (self.new.waiting ≡ []) × (self.new.failed ≡ self.old.failed)
            ⊎ (self.new.waiting ≢ []) × (self.new.failed ≡ min (self.old.failed + 1) (2 ^ 64 - 1)) }
        ensures same { (self.new.turn ≡ self.old.turn) × (self.new.room ≡ self.old.room) }
    {
        let _later = self.flush();
    }

    /// The output of the stage is appended to the waiting bytes.
    #[inline]
    fn pass_at_hand<S: Source, G: UnitStage>(
        &mut self,
        source: &mut S,
        stage: &mut G,
        given: &mut Option<Piece>,
        most: u32,
    ) -> u32 {
        let passed = source.feed_all_at_hand(stage, given, &mut self.buffer, self.end, most);
        self.end = passed.end;
        passed.units
    }
}

// Writes bytes until all are written or a write fails. Returns the number of written bytes.
fn write_front<W: Write>(writer: &mut CountedWriter<W>, bytes: &[u8]) -> usize
    ensures within { result ≤ length bytes.now }
    ensures bytes { Appends (W.contents writer.old.inner) (W.contents writer.new.inner)
        (take result bytes.now) }
    ensures all { result ≡ length bytes.now → writer.new.faults ≡ writer.old.faults }
    ensures part { result < length bytes.now
        → writer.new.faults ≡ min (writer.old.faults + 1) (2 ^ 64 - 1) }
{
    let mut written = 0;
    while written < bytes.len() {
        match writer.write(&bytes[written..]) {
            Outcome::Wrote(count) => written += count,
            Outcome::Interrupted => {}
            Outcome::Fault => return written,
        }
    }
    written
}

fn move_to_front(bytes: &mut [u8], from: usize, end: usize)
    requires { (from ≤ end) × (end ≤ length bytes.old) }
    ensures { take (end - from) bytes.new ≡ drop from (take end bytes.old) }
{
    bytes.copy_within(from..end, 0);
}
