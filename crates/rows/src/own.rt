// A source with only `take` and a sink with only `put`. They count nothing but their faults.
ghost use Rattle.std.specs.Prelude.{None, Some};

use cdg_io::{Failed, Sink, Source};

/// A source of borrowed bytes.
#[derive(Drop)]
pub(crate) struct Lent<'a> {
    pub(crate) rest: &'a [u8],
}

impl Source for Lent<'_> {
    ghost left = { λ s. Some s.rest.now };

    ghost faults = { λ _. 0 };

    fn take(&mut self, buf: &mut [u8]) -> Result<usize, Failed> {
        let count = self.rest.len().min(buf.len());
        buf[..count].copy_from_slice(&self.rest[..count]);
        self.rest = &self.rest[count..];
        Ok(count)
    }
}

/// A source whose reads all fail. Each is tried twice, and both tries are counted.
#[derive(Drop)]
pub(crate) struct Broken {
    pub(crate) tries: u64,
}

impl Source for Broken {
    ghost left = { λ _. None };

    ghost faults = { λ s. s.tries };

    fn take(&mut self, _: &mut [u8]) -> Result<usize, Failed> {
        self.tries = self.tries.saturating_add(2);
        Err(Failed)
    }
}

/// A sink that keeps its bytes in a vector. A write fails if the vector is out of memory.
#[derive(Drop)]
pub(crate) struct KeptBytes {
    pub(crate) bytes: Vec<u8>,
    pub(crate) faults: u64,
}

impl Sink for KeptBytes {
    ghost held = { λ s. Some s.bytes.items };

    ghost faults = { λ s. s.faults };

    fn put(&mut self, piece: &[u8]) -> Result<usize, Failed> {
        match self.bytes.extend_from_slice(piece) {
            Ok(()) => Ok(piece.len()),
            Err(_) => {
                self.faults = self.faults.saturating_add(1);
                Err(Failed)
            }
        }
    }
}
