// Sources and sinks of bytes, which count their faults.
ghost use Rattle.std.specs.Prelude.{◌≡◌, ◌≢◌, ◌<◌, ◌≤◌, ◌+◌, ◌-◌, ◌^◌, ◌⊎◌, ◌↔◌, min, Ok, Err, List, ℕ, None, Some, drop, length, take, true, false};
ghost use Rattle.std.specs.Io.{ReadsAtMost};
ghost use Rattle.std.specs.Io.KnownBytes.{Appends, Keeps, Consumes, ReadConsumes, WriteAppends};
ghost use Rattle.std.specs.declared.option.Option.{Option};
ghost use Rattle.cdg_io.specs.Causes.{CountedWrites, HasCause, Counted, CountedReader, counted_after, nothing_reported};
ghost use Rattle.cdg_io.specs.declared.ends.Outcome.TheVariants.{Fault, Interrupted, Wrote};
ghost use Rattle.std.specs.IoError.{error_kind};
ghost use Rattle.std.specs.declared.io.Error.{Error};
ghost use Rattle.cdg_io.specs.Change.{from_to, moved};
ghost use Rattle.cdg_io.specs.Counts.{GivesFull, ReportsRead, counts, kept_counts};
ghost use Rattle.cdg_io.specs.Moves.{TakesSome};
ghost use Rattle.cdg_io.specs.Pump.{Works};

use crate::{PassedUnits, Piece, UnitStage};
use std::io;
use std::io::{ErrorKind, Read, Write};
use std::marker::Model;

/// A read or a write failed.
#[derive(Clone, Copy, Debug, PartialEq, Eq)]
pub struct Failed;

/// An input of bytes, which calls read in order. A failed call may be repeated, since it consumed no byte.
///
/// A source must implement only `take`. A source may also count the reads that reported the end, and the full
/// reads; then the clauses of each reading call state both counts. A source with a buffer may feed a stage
/// directly from the buffer.
pub trait Source {
    /// The bytes that are still to be read, if the source reveals them.
    ghost left: { Self → Option (List ℕ) };

    /// The number of reads that failed.
    ghost faults: { Self → ℕ };

    /// The number of reads that reported the end, if the source counts them.
    ghost ends: { Self → Option ℕ } = { λ _. None };

    /// The number of full reads, which read as many bytes as they had room for, if the source counts them.
    ghost fills: { Self → Option ℕ } = { λ _. None };

    /// Reads bytes into the front of `buf`, which is not empty, and returns their number. It is 0 only at the end.
    ///
    /// # Errors
    /// `Failed` if the read failed: no byte is consumed, and the count of faults rises.
    fn take(&mut self, buf: &mut [u8]) -> Result<usize, Failed>
        requires { 0 < length buf.old }
        ensures bound { ReadsAtMost result buf.new }
        ensures bytes { ReadConsumes (left self.old) (left self.new) result buf.new }
        ensures cause { HasCause (faults self.old) (faults self.new) result }
        ensures counts { ReportsRead 1 (length buf.old) (counts ends fills self.old self.new) result };

    /// Feeds a whole unit from the buffer of the source to a stage, and leaves the output of the stage in
    /// `given`. This counts as one full read. If the buffer has no whole unit, it does nothing and returns
    /// false; the input may still have further bytes.
    fn feed_at_hand<G: UnitStage>(&mut self, stage: &mut G, given: &mut Option<Piece>) -> bool
        requires { 0 < G.SIZE }
        ensures fed { result ≡ true → (unit : List ℕ) × (length unit ≡ G.SIZE)
            × Consumes (left self.old) (left self.new) unit
            × (stage.new ≡ G.next stage.old unit) × (given.new ≡ G.gives stage.old unit) }
        ensures counts { result ≡ true → GivesFull 1 (counts ends fills self.old self.new) }
        ensures faults { faults self.new ≡ faults self.old }
        ensures none { result ≡ false
            → (self.new ≡ self.old) × (stage.new ≡ stage.old) × (given.new ≡ given.old) }
    {
        false
    }

    /// Feeds at most `most` units from the buffer of the source to a stage, and writes the output of the stage into
    /// `buffer`, from `start` on. It stops if the buffer has no further whole unit or `buffer` has no room for a
    /// whole piece. Each unit counts as one full read.
    #[inline]
    fn feed_all_at_hand<G: UnitStage>(
        &mut self,
        stage: &mut G,
        given: &mut Option<Piece>,
        buffer: &mut [u8],
        start: usize,
        most: u32,
    ) -> PassedUnits
        requires size { 0 < G.SIZE }
        requires start { start ≤ length buffer.old }
        ensures works { (taken : List ℕ) × Works G.SIZE (record { next = G.next; gives = G.gives }) (record {
          left = from_to (left self.old) (left self.new);
          state = from_to stage.old stage.new;
          held = from_to (Some (take start buffer.old)) (Some (take result.end buffer.new));
        }) result.units taken }
        ensures most { result.units ≤ most }
        ensures within { (start ≤ result.end) × (result.end ≤ length buffer.new) }
        ensures behind { drop result.end buffer.new ≡ drop result.end buffer.old }
        ensures counts { GivesFull result.units (counts ends fills self.old self.new) }
        ensures faults { faults self.new ≡ faults self.old }
    {
        PassedUnits {
            units: 0,
            end: start,
        }
    }
}

/// An output of bytes, to which calls append in order. After a failed call, further calls are allowed.
pub trait Sink {
    /// The bytes that were appended, if the sink reveals them.
    ghost held: { Self → Option (List ℕ) };

    /// The number of writes that failed.
    ghost faults: { Self → ℕ };

    /// Appends bytes from the front of `piece`, which is not empty, and returns their number, at least 1.
    ///
    /// # Errors
    /// `Failed` if the write failed: no byte is appended, and the count of faults rises.
    fn put(&mut self, piece: &[u8]) -> Result<usize, Failed>
        requires { 0 < length piece.now }
        ensures bound { TakesSome result piece.now }
        ensures bytes { WriteAppends (held self.old) (held self.new) result piece.now }
        ensures cause { HasCause (faults self.old) (faults self.new) result };

    /// Writes the bytes that wait in the sink, if any. `pump` calls it before it reads, so that a live stream is not
    /// delayed. If this write fails, a later call reports it. A sink without a buffer keeps this default.
    fn pass_waiting(&mut self)
        ensures bytes { Keeps (held self.old) (held self.new) }
        ensures no_fault { faults self.new ≡ faults self.old }
    {}

    /// Feeds at most `most` units from the buffer of a source to a stage, and appends the output of the stage as long
    /// as there is room for it, so no write can fail. Returns the number of units. A sink without a buffer keeps this
    /// default.
    #[inline]
    fn pass_at_hand<S: Source, G: UnitStage>(
        &mut self,
        source: &mut S,
        stage: &mut G,
        given: &mut Option<Piece>,
        most: u32,
    ) -> u32
        requires { 0 < G.SIZE }
        ensures works { (taken : List ℕ) × Works G.SIZE (record { next = G.next; gives = G.gives })
            (moved S.left held (source.old, stage.old, self.old) (source.new, stage.new, self.new)) result
            taken }
        ensures most { result ≤ most }
        ensures counts { GivesFull result (counts S.ends S.fills source.old source.new) }
        ensures no_read_fault { S.faults source.new ≡ S.faults source.old }
        ensures no_write_fault { faults self.new ≡ faults self.old }
    {
        0
    }
}

/// The number of reads of a source that reported the end, and the number of its full reads.
#[derive(Clone, Copy)]
pub struct Tally {
    pub ends: u64,
    pub fills: u64,
}

impl Tally {
    pub fn new() -> Tally
        ensures { result ≡ nothing_reported }
    {
        Tally { ends: 0, fills: 0 }
    }

    /// Counts a read of `count` bytes with room for `room` bytes.
    pub fn add(&mut self, count: usize, room: usize)
        requires { 0 < room }
        ensures { ReportsRead {E = Failed} 1 room (kept_counts self.old self.new) (Ok count) }
    {
        if count == 0 {
            self.ends = self.ends.saturating_add(1);
        } else if count >= room {
            self.fills = self.fills.saturating_add(1);
        }
    }

    /// Counts full reads.
    #[inline]
    pub fn add_full(&mut self, answers: u32)
        ensures { GivesFull answers (kept_counts self.old self.new) }
    {
        self.fills = self.fills.saturating_add(u64::from(answers));
    }
}

/// Reads once, and counts the result. An error of the reader is a failure.
#[tactic(auto, using(crate::proofs::Stops::rose_by_one))]
pub(crate) fn read_counted<R: Read>(
    reader: &mut R,
    faults: &mut u64,
    tally: &mut Tally,
    buf: &mut [u8],
) -> Result<usize, Failed>
    requires { 0 < length buf.old }
    ensures bound { ReadsAtMost result buf.new }
    ensures bytes { ReadConsumes (R.remaining reader.old) (R.remaining reader.new) result buf.new }
    ensures cause { HasCause faults.old faults.new result }
    ensures counted { faults.new ≡ counted_after result faults.old }
    ensures counts { ReportsRead 1 (length buf.old) (kept_counts tally.old tally.new) result }
{
    match reader.read(buf) {
        Ok(count) => {
            tally.add(count, buf.len());
            Ok(count)
        }
        Err(_) => {
            *faults = faults.saturating_add(1);
            Err(Failed)
        }
    }
}

/// A reader as a source. It reveals the bytes that the reader reveals. An error of the reader is a failure.
#[derive(Drop)]
pub struct ReadSource<R: Read> {
    reader: R,
    faults: u64,
    tally: Tally,
}

impl<R: Read> Model for ReadSource<R> {
    ghost Value = { CountedReader R };

    ghost view = { λ s. record { inner = s.reader; faults = s.faults; tally = s.tally } };
}

impl<R: Read> ReadSource<R> {
    pub fn new(reader: R) -> Self
        ensures { result ≡ record { inner = reader; faults = 0; tally = nothing_reported } }
    {
        ReadSource {
            reader,
            faults: 0,
            tally: Tally::new(),
        }
    }
}

impl<R: Read> Source for ReadSource<R> {
    ghost left = { λ s. R.remaining s.inner };

    ghost faults = { λ s. s.faults };

    ghost ends = { λ s. Some s.tally.ends };

    ghost fills = { λ s. Some s.tally.fills };

    fn take(&mut self, buf: &mut [u8]) -> Result<usize, Failed>
        requires { 0 < length buf.old }
        ensures bound { ReadsAtMost result buf.new }
        ensures bytes { ReadConsumes (R.remaining self.old.inner) (R.remaining self.new.inner) result
            buf.new }
        ensures cause { HasCause self.old.faults self.new.faults result }
        ensures counts { ReportsRead 1 (length buf.old) (kept_counts self.old.tally self.new.tally) result }
        ensures counted { self.new.faults ≡ counted_after result self.old.faults }
    {
        read_counted(&mut self.reader, &mut self.faults, &mut self.tally, buf)
    }
}

/// A writer as a sink. It reveals the bytes that the writer reveals. An error of the writer is a failure, and so is a
/// write of no bytes.
#[derive(Drop)]
pub struct WriteSink<W: Write> {
    writer: W,
    faults: u64,
}

impl<W: Write> Model for WriteSink<W> {
    ghost Value = { Counted W };

    ghost view = { λ s. record { inner = s.writer; faults = s.faults } };
}

impl<W: Write> WriteSink<W> {
    pub fn new(writer: W) -> Self
        ensures { result ≡ record { inner = writer; faults = 0 } }
    {
        WriteSink { writer, faults: 0 }
    }
}

impl<W: Write> Sink for WriteSink<W> {
    ghost held = { λ s. W.contents s.inner };

    ghost faults = { λ s. s.faults };

    #[tactic(auto, using(crate::proofs::Stops::rose_by_one))]
    fn put(&mut self, piece: &[u8]) -> Result<usize, Failed>
        requires { 0 < length piece.now }
        ensures bound { TakesSome result piece.now }
        ensures bytes { WriteAppends (W.contents self.old.inner) (W.contents self.new.inner) result
            piece.now }
        ensures cause { HasCause self.old.faults self.new.faults result }
        ensures counted { self.new.faults ≡ counted_after result self.old.faults }
    {
        match self.writer.write(piece) {
            Ok(count) if count > 0 => Ok(count),
            _ => {
                self.faults = self.faults.saturating_add(1);
                Err(Failed)
            }
        }
    }
}

/// The outcome of a write.
#[derive(Clone, Copy, Debug, PartialEq, Eq)]
pub(crate) enum Outcome {
    /// This number of bytes was written, at least one.
    Wrote(usize),
    /// The write was interrupted, and can be repeated.
    Interrupted,
    /// The write failed, or wrote nothing.
    Fault,
}

impl Outcome {
    // The outcome for the result of a call of the writer.
    fn of(answer: io::Result<usize>) -> Outcome
        ensures wrote { (n : ℕ) → (result ≡ Wrote n ↔ (answer ≡ Ok n) × (0 < n)) }
        ensures interrupted { result ≡ Interrupted
            ↔ (error : Error) × (answer ≡ Err error) × (error_kind error ≡ ErrorKind.Interrupted) }
    {
        match answer {
            Ok(count) if count > 0 => Outcome::Wrote(count),
            Err(error) if error.kind() == ErrorKind::Interrupted => Outcome::Interrupted,
            _ => Outcome::Fault,
        }
    }
}

/// A writer that counts its failed and its interrupted writes. It counts at most 2^64 - 1 interruptions; a
/// further interruption is a failure.
#[derive(Drop)]
pub(crate) struct CountedWriter<W: Write> {
    writer: W,
    faults: u64,
    interrupts: u64,
}

impl<W: Write> Model for CountedWriter<W> {
    ghost Value = { CountedWrites W };

    ghost view = { λ s. record { inner = s.writer; faults = s.faults; interrupts = s.interrupts } };
}

impl<W: Write> CountedWriter<W> {
    pub fn new(writer: W) -> CountedWriter<W>
        ensures { result ≡ record { inner = writer; faults = 0; interrupts = 0 } }
    {
        CountedWriter {
            writer,
            faults: 0,
            interrupts: 0,
        }
    }

    /// Writes some bytes from the front of `bytes`, with one call of the writer.
    pub fn write(&mut self, bytes: &[u8]) -> Outcome
        ensures wrote { (n : ℕ) → result ≡ Wrote n → (0 < n) × (n ≤ length bytes.now)
            × Appends (W.contents self.old.inner) (W.contents self.new.inner) (take n bytes.now) }
        ensures keeps { ((n : ℕ) → result ≢ Wrote n)
            → Keeps (W.contents self.old.inner) (W.contents self.new.inner) }
        ensures faults { result ≢ Fault → self.new.faults ≡ self.old.faults }
        ensures fault { result ≡ Fault → self.new.faults ≡ min (self.old.faults + 1) (2 ^ 64 - 1) }
        ensures interrupts { result ≢ Interrupted → self.new.interrupts ≡ self.old.interrupts }
        ensures interrupted { result ≡ Interrupted
            → (self.new.interrupts ≡ self.old.interrupts + 1) × (self.new.interrupts < 2 ^ 64) }
    {
        let answer = self.writer.write(bytes);
        self.count(Outcome::of(answer))
    }

    // Counts the outcome of a write. An interruption that the counter cannot count is a failure.
    fn count(&mut self, outcome: Outcome) -> Outcome
        ensures inner { self.new.inner ≡ self.old.inner }
        ensures wrote { (n : ℕ) → (result ≡ Wrote n ↔ outcome ≡ Wrote n) }
        ensures again { result ≡ Interrupted ↔ (outcome ≡ Interrupted) × (self.old.interrupts < 2 ^ 64 - 1) }
        ensures faults { result ≢ Fault → self.new.faults ≡ self.old.faults }
        ensures fault { result ≡ Fault → self.new.faults ≡ min (self.old.faults + 1) (2 ^ 64 - 1) }
        ensures interrupts { result ≢ Interrupted → self.new.interrupts ≡ self.old.interrupts }
        ensures interrupted { result ≡ Interrupted
            → (self.new.interrupts ≡ self.old.interrupts + 1) × (self.new.interrupts < 2 ^ 64) }
    {
        match outcome {
            Outcome::Wrote(count) => Outcome::Wrote(count),
            Outcome::Interrupted if self.interrupts < u64::MAX => {
                self.interrupts += 1;
                Outcome::Interrupted
            }
            Outcome::Interrupted | Outcome::Fault => {
                self.faults = self.faults.saturating_add(1);
                Outcome::Fault
            }
        }
    }
}
