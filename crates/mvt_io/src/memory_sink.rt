//! A writer into memory, for tests.
ghost use Rattle.std.specs.Prelude.{◌≡◌, ◌≤◌, [], false, length, None, Some, IfOk};
ghost use Rattle.std.specs.Result.{is_ok};
ghost use Rattle.std.specs.Io.KnownBytes.{Keeps, WriteAppends};
ghost use Rattle.mvt_io.specs.Counts.{counted};
ghost use Rattle.mvt_io.specs.Devices.{outflow_of, write_answer, after_write, flush_answer, after_flush};
ghost use Rattle.mvt_io.specs.States.{after_call, after_writing};

use super::Sink;
use super::failures::Failures;
use std::alloc::{AllocError, Global};
use std::io::ErrorKind;
use std::marker::Model;

/// A writer into memory that can take bytes in small steps, have little room, and fail from a given
/// write on.
///
/// ```
/// // Two bytes a write, five in all.
/// let mut writer = MemorySink::new(alloc, 5, 2, u64::MAX, false)?;
/// ```
#[derive(Drop)]
pub struct MemorySink {
    bytes: Vec<u8>,
    room: usize,
    step: usize,
    fails_from: u64,
    flush_fails: bool,
    calls: u64,
    flushes: u64,
    flushed: bool,
    failures: Failures,
}

impl Model for MemorySink {
    ghost use Rattle.std.specs.Prelude.{◌≤◌, vec_len, vec_capacity};
    ghost use Rattle.mvt_io.specs.Devices.{SinkState};

    ghost Value = { SinkState };

    ghost view = { λ s. record {
      taken = s.bytes.items;
      room = s.room;
      step = s.step;
      fails_from = s.fails_from;
      flush_fails = s.flush_fails;
      calls = s.calls;
      flushes = s.flushes;
      flushed = s.flushed;
      faults = s.failures;
    } };

    ghost invariant = { λ s. (vec_len s.bytes ≤ s.room) × (s.room ≤ vec_capacity s.bytes) };
}

impl MemorySink {
    /// At most `step` bytes pass in a write, and `room` in all; the room is reserved here, and no
    /// other call takes memory. The writes numbered `fails_from` or later, from 0, fail with kind
    /// `Other`, as do writes that aren't empty once the room is used up, and each flush if
    /// `flush_fails`.
    ///
    /// # Errors
    ///
    /// When memory runs out for the room.
    pub fn new(
        alloc: Global,
        room: usize,
        step: usize,
        fails_from: u64,
        flush_fails: bool,
    ) -> Result<Self, AllocError>
        ensures { IfOk result (λ sink. sink ≡ record {
          taken = [];
          room = room;
          step = step;
          fails_from = fails_from;
          flush_fails = flush_fails;
          calls = 0;
          flushes = 0;
          flushed = false;
          faults = record { count = 0; last = None; ended = false };
        }) }
    {
        Ok(MemorySink {
            bytes: Vec::with_capacity(alloc, room)?,
            room,
            step,
            fails_from,
            flush_fails,
            calls: 0,
            flushes: 0,
            flushed: false,
            failures: Failures::none(),
        })
    }

    /// How many writes there were, failed ones too, up to 2^64 - 1.
    pub fn calls(&self) -> u64
        ensures { result ≡ self.now.calls }
    {
        self.calls
    }

    /// How many flushes there were, failed ones too, up to 2^64 - 1.
    pub fn flushes(&self) -> u64
        ensures { result ≡ self.now.flushes }
    {
        self.flushes
    }

    /// The bytes of all writes so far.
    pub fn taken(&self) -> &[u8]
        ensures { result.now ≡ self.now.taken }
    {
        self.bytes.as_slice()
    }
}

impl Sink for MemorySink {
    ghost state = { outflow_of };

    fn write(&mut self, piece: &[u8]) -> Result<usize, ErrorKind>
        ensures answer { result ≡ write_answer self.old piece.now }
        ensures after { self.new ≡ after_write self.old piece.now }

        // What every writer promises.
        ensures within { IfOk result (λ n. n ≤ length piece.now) }
        ensures bytes { WriteAppends (Some self.old.taken) (Some self.new.taken) result piece.now }
        ensures writes { self.new.calls ≡ counted self.old.calls }
        ensures flushes { self.new.flushes ≡ self.old.flushes }
        ensures flushed { self.new.flushed ≡ false }
        ensures faults { self.new.faults ≡ after_writing result piece.now self.old.faults }
    {
        let number = self.calls;
        let left = self.room - self.bytes.len();
        self.calls = number.saturating_add(1);
        self.flushed = false;
        if number >= self.fails_from || (left == 0 && !piece.is_empty()) {
            self.failures.add(ErrorKind::Other);
            return Err(ErrorKind::Other);
        }
        let count = self.step.min(piece.len()).min(left);
        self.bytes.extend_from_slice(&piece[..count]).unwrap();
        if count == 0 && !piece.is_empty() {
            self.failures.add(ErrorKind::WriteZero);
        } else {
            self.failures.pass();
        }
        Ok(count)
    }

    fn flush(&mut self) -> Result<(), ErrorKind>
        ensures answer { result ≡ flush_answer self.old }
        ensures after { self.new ≡ after_flush self.old }

        // What every writer promises.
        ensures bytes { Keeps (Some self.old.taken) (Some self.new.taken) }
        ensures writes { self.new.calls ≡ self.old.calls }
        ensures flushes { self.new.flushes ≡ counted self.old.flushes }
        ensures flushed { self.new.flushed ≡ is_ok result }
        ensures faults { self.new.faults ≡ after_call result self.old.faults }
    {
        self.flushes = self.flushes.saturating_add(1);
        self.flushed = !self.flush_fails;
        if self.flush_fails {
            self.failures.add(ErrorKind::Other);
            return Err(ErrorKind::Other);
        }
        self.failures.pass();
        Ok(())
    }
}
