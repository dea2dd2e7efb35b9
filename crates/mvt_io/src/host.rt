//! The readers and writers of std.
ghost use Rattle.std.specs.Prelude.{◌≡◌, false, None};

use super::failures::Failures;
use super::source::count_empty;
use super::{Sink, Source};
use std::io::{ErrorKind, Read, Write};
use std::marker::Model;

/// A reader or a writer of std, with the counts that a `Source` or a `Sink` keeps. Its bytes are
/// those of the inner one.
///
/// ```
/// let mut reader = Host::new(rt.stdin());
/// let input = read_up_to(rt.alloc(), &mut reader, 1000);
/// ```
#[derive(Drop)]
pub struct Host<T> {
    inner: T,
    reads: u64,
    empty: u64,
    given: usize,
    asked: usize,
    failures: Failures,
    writes: u64,
    flushes: u64,
    flushed: bool,
}

impl<T> Model for Host<T> {
    ghost use Rattle.mvt_io.specs.Hosts.{HostState};

    ghost Value = { HostState T };

    ghost view = { λ h. record {
      inner = h.inner;
      reads = h.reads;
      empty = h.empty;
      given = h.given;
      asked = h.asked;
      faults = h.failures;
      writes = h.writes;
      flushes = h.flushes;
      flushed = h.flushed;
    } };
}

impl<T> Host<T> {
    /// A stream of the system's that is read or written so.
    pub fn new(inner: T) -> Self
        ensures { result ≡ record {
          inner = inner;
          reads = 0;
          empty = 0;
          given = 0;
          asked = 0;
          faults = record { count = 0; last = None; ended = false };
          writes = 0;
          flushes = 0;
          flushed = false;
        } }
    {
        Host {
            inner,
            reads: 0,
            empty: 0,
            given: 0,
            asked: 0,
            failures: Failures::none(),
            writes: 0,
            flushes: 0,
            flushed: false,
        }
    }
}

impl<T: Read> Source for Host<T> {
    ghost state = { λ h. record {
      left = T.remaining h.inner;
      reads = h.reads;
      empty = h.empty;
      given = h.given;
      asked = h.asked;
      faults = h.faults;
    } };

    fn read(&mut self, buffer: &mut [u8]) -> Result<usize, ErrorKind> {
        self.reads = self.reads.saturating_add(1);
        self.asked = self.asked.max(buffer.len());
        match self.inner.read(buffer) {
            Ok(count) => {
                self.empty = count_empty(self.empty, count);
                self.given = count;
                self.failures.pass();
                Ok(count)
            }
            Err(error) => {
                let kind = error.kind();
                self.given = 0;
                self.failures.add(kind);
                Err(kind)
            }
        }
    }
}

impl<T: Write> Sink for Host<T> {
    ghost state = { λ h. record {
      taken = T.contents h.inner;
      writes = h.writes;
      flushes = h.flushes;
      flushed = h.flushed;
      faults = h.faults;
    } };

    fn write(&mut self, piece: &[u8]) -> Result<usize, ErrorKind> {
        self.writes = self.writes.saturating_add(1);
        self.flushed = false;
        match self.inner.write(piece) {
            Ok(count) => {
                if count == 0 && !piece.is_empty() {
                    self.failures.add(ErrorKind::WriteZero);
                } else {
                    self.failures.pass();
                }
                Ok(count)
            }
            Err(error) => {
                let kind = error.kind();
                self.failures.add(kind);
                Err(kind)
            }
        }
    }

    fn flush(&mut self) -> Result<(), ErrorKind> {
        self.flushes = self.flushes.saturating_add(1);
        self.flushed = false;
        match self.inner.flush() {
            Ok(()) => {
                self.flushed = true;
                self.failures.pass();
                Ok(())
            }
            Err(error) => {
                let kind = error.kind();
                self.failures.add(kind);
                Err(kind)
            }
        }
    }
}
