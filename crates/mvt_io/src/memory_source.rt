//! A reader over memory, for tests.
ghost use Rattle.std.specs.Prelude.{◌≡◌, ◌≤◌, max, length, false, None, Some, IfOk};
ghost use Rattle.std.specs.Io.KnownBytes.{ReadConsumes};
ghost use Rattle.mvt_io.specs.Counts.{counted, given_by};
ghost use Rattle.mvt_io.specs.Devices.{inflow_of, read_answer, after_read};
ghost use Rattle.mvt_io.specs.States.{after_call, after_reading};

use super::Source;
use super::failures::Failures;
use super::source::count_empty;
use std::io::ErrorKind;
use std::marker::Model;

/// A reader over bytes that can give them in small steps, and fail from a given read on.
///
/// ```
/// let mut reader = MemorySource::new(bytes, 1, 5); // one byte a read; the sixth read fails
/// ```
#[derive(Drop)]
pub struct MemorySource {
    bytes: Vec<u8>,
    at: usize,
    step: usize,
    fails_from: u64,
    calls: u64,
    empty: u64,
    given: usize,
    asked: usize,
    failures: Failures,
}

impl Model for MemorySource {
    ghost use Rattle.std.specs.Prelude.{◌≤◌, drop, vec_len};
    ghost use Rattle.mvt_io.specs.Devices.{SourceState};

    ghost Value = { SourceState };

    ghost view = { λ s. record {
      left = drop s.at s.bytes.items;
      step = s.step;
      fails_from = s.fails_from;
      calls = s.calls;
      empty = s.empty;
      given = s.given;
      asked = s.asked;
      faults = s.failures;
    } };

    ghost invariant = { λ s. (s.at ≤ vec_len s.bytes) × (1 ≤ s.step) };
}

impl MemorySource {
    /// At most `step` bytes pass in a read, and the reads numbered `fails_from` or later, from 0,
    /// fail with kind `Other`.
    pub fn new(bytes: Vec<u8>, step: usize, fails_from: u64) -> Self
        requires { 1 ≤ step }
        ensures { result ≡ record {
          left = bytes.items;
          step = step;
          fails_from = fails_from;
          calls = 0;
          empty = 0;
          given = 0;
          asked = 0;
          faults = record { count = 0; last = None; ended = false };
        } }
    {
        MemorySource {
            bytes,
            at: 0,
            step,
            fails_from,
            calls: 0,
            empty: 0,
            given: 0,
            asked: 0,
            failures: Failures::none(),
        }
    }

    /// How many reads there were, failed ones too, up to 2^64 - 1.
    pub fn calls(&self) -> u64
        ensures { result ≡ self.now.calls }
    {
        self.calls
    }

    /// How many reads failed, up to 2^64 - 1.
    pub fn failed(&self) -> u64
        ensures { result ≡ self.now.faults.count }
    {
        self.failures.count()
    }
}

impl Source for MemorySource {
    ghost state = { inflow_of };

    fn read(&mut self, buffer: &mut [u8]) -> Result<usize, ErrorKind>
        ensures answer { result ≡ read_answer self.old (length buffer.old) }
        ensures after { self.new ≡ after_read self.old (length buffer.old) }

        // What every reader promises.
        ensures within { IfOk result (λ n. n ≤ length buffer.new) }
        ensures bytes { ReadConsumes (Some self.old.left) (Some self.new.left) result buffer.new }
        ensures reads { self.new.calls ≡ counted self.old.calls }
        ensures empty { self.new.empty ≡ after_reading result self.old.empty }
        ensures given { self.new.given ≡ given_by result }
        ensures asked { self.new.asked ≡ max self.old.asked (length buffer.old) }
        ensures faults { self.new.faults ≡ after_call result self.old.faults }
    {
        let number = self.calls;
        self.calls = number.saturating_add(1);
        self.asked = self.asked.max(buffer.len());
        if number >= self.fails_from {
            self.given = 0;
            self.failures.add(ErrorKind::Other);
            return Err(ErrorKind::Other);
        }
        let left = &self.bytes[self.at..];
        let count = self.step.min(buffer.len()).min(left.len());
        buffer[..count].copy_from_slice(&left[..count]);
        self.at += count;
        self.empty = count_empty(self.empty, count);
        self.given = count;
        self.failures.pass();
        Ok(count)
    }
}
