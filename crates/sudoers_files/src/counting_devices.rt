//! Readers and writers that count what they do.
ghost use Rattle.std.specs.Prelude.{◌≡◌, ℕ, ◌<◌, ◌≤◌, length, IfOk, refl};
ghost use Rattle.std.specs.Io.{WritesAtMost, ReadsAtMost};
ghost use Rattle.std.specs.Io.KnownBytes.{Keeps, WriteAppends, ReadConsumes};
ghost use Rattle.sudoers_files.specs.Device.{CountsFailures, ReaderMeter, IsPullEffect};

use std::io;
use std::io::{ErrorKind, Read, Write};

/// The result of one read: how many bytes it gave, or an interruption.
#[derive(Clone, Copy, Debug, PartialEq, Eq)]
pub enum PulledBytesOrInterrupted {
    Bytes(usize),
    Interrupted,
}

/// The device failed.
#[derive(Clone, Copy, Debug, PartialEq, Eq)]
pub struct DeviceFailed;

/// A reader that counts its calls, its calls with room for a byte, the bytes that it gave, its failures, and how often it reported its
/// end.
pub trait Source: Read {
    /// Its counts, and what it has left to give.
    ghost meter: { Self → ReaderMeter };

    /// Reads once into `buf`. If `buf` has room, a read of no byte means the end of the input.
    ///
    /// # Errors
    ///
    /// The device failed. What it has left to give is as before.
    fn pull(&mut self, buf: &mut [u8]) -> Result<PulledBytesOrInterrupted, DeviceFailed>
        ensures { IsPullEffect result buf.new (meter self.old) (meter self.new) };

    /// Returns how often it has failed. The count stops at the greatest number.
    fn failures(&self) -> u64
        ensures { result ≡ (meter self.now).failures };

    /// What it has left to give is what it has as a reader.
    ghost same_remaining: { (reader : Self) → (meter reader).remaining ≡ Self.remaining reader };
}

/// A writer that counts its failures.
pub trait Sink: Write {
    /// How often it has failed, up to the greatest number.
    ghost failures: { Self → ℕ };

    /// Writes a beginning of `piece` once, and returns how many bytes it took. A write that is interrupted, or that takes no byte of a
    /// piece, has failed.
    ///
    /// # Errors
    ///
    /// The device failed. What it holds is as before.
    fn push(&mut self, piece: &[u8]) -> Result<usize, DeviceFailed>
        ensures within { IfOk result (λ n. n ≤ length piece.now) }
        ensures some { 0 < length piece.now → IfOk result (λ n. 0 < n) }
        ensures bytes { WriteAppends (Self.contents self.old) (Self.contents self.new) result piece.now }
        ensures failed { CountsFailures (failures self.old) (failures self.new) result };

    /// Returns how often it has failed. The count stops at the greatest number.
    fn failures(&self) -> u64
        ensures { result ≡ failures self.now };
}

/// Any reader or writer, with counts of what `pull` and `push` did. It passes the bytes on.
#[derive(Drop)]
pub struct Counted<T> {
    device: T,
    failures: u64,
    pulls: u64,
    offers: u64,
    given: u64,
    ends: u64,
}

impl<T> Counted<T> {
    /// Returns the device `device` with all counts at 0.
    pub fn new(device: T) -> Counted<T>
        ensures { result ≡ record { device = device; failures = 0; pulls = 0; offers = 0; given = 0; ends = 0 } }
    {
        Counted {
            device,
            failures: 0,
            pulls: 0,
            offers: 0,
            given: 0,
            ends: 0,
        }
    }
}

impl<R: Read> Read for Counted<R> {
    ghost remaining = { λ c. R.remaining c.device };

    fn read(&mut self, buf: &mut [u8]) -> io::Result<usize> {
        self.device.read(buf)
    }
}

impl<W: Write> Write for Counted<W> {
    ghost contents = { λ c. W.contents c.device };

    fn write(&mut self, buf: &[u8]) -> io::Result<usize> {
        self.device.write(buf)
    }

    fn flush(&mut self) -> io::Result<()> {
        self.device.flush()
    }
}

impl<R: Read> Source for Counted<R> {
    ghost meter = { λ c. record {
      failures = c.failures;
      pulls = c.pulls;
      offers = c.offers;
      given = c.given;
      ends = c.ends;
      remaining = R.remaining c.device;
    } };

    ghost same_remaining = { λ c. refl };

    fn pull(&mut self, buf: &mut [u8]) -> Result<PulledBytesOrInterrupted, DeviceFailed> {
        self.pulls = self.pulls.saturating_add(1);
        if !buf.is_empty() {
            self.offers = self.offers.saturating_add(1);
        }
        match self.device.read(buf) {
            Ok(n) => {
                self.given = self.given.saturating_add(n as u64);
                if n == 0 && !buf.is_empty() {
                    self.ends = self.ends.saturating_add(1);
                }
                Ok(PulledBytesOrInterrupted::Bytes(n))
            }
            Err(e) if e.kind() == ErrorKind::Interrupted => Ok(
                PulledBytesOrInterrupted::Interrupted,
            ),
            Err(_) => {
                self.failures = self.failures.saturating_add(1);
                Err(DeviceFailed)
            }
        }
    }

    fn failures(&self) -> u64 {
        self.failures
    }
}

impl<W: Write> Sink for Counted<W> {
    ghost failures = { λ c. c.failures };

    fn push(&mut self, piece: &[u8]) -> Result<usize, DeviceFailed> {
        match self.device.write(piece) {
            Ok(n) if n > 0 || piece.is_empty() => Ok(n),
            _ => {
                self.failures = self.failures.saturating_add(1);
                Err(DeviceFailed)
            }
        }
    }

    fn failures(&self) -> u64 {
        self.failures
    }
}
