//! Sources of bytes.
//!
//! A source counts its failures, so that a device fault is reported exactly if a read failed. A failed read isn't retried.

ghost use Rattle.std.specs.Prelude.{IfOk, IsTrue, List, MatchResult, Option, Some, if◌then◌else◌, is_ok, length, min, ℕ, ◌+◌, ◌<◌, ◌↔◌, ◌≡◌, ◌≤◌};
ghost use Rattle.std.specs.Io.KnownBytes.{ReadConsumes};
ghost use Rattle.std.specs.Result.{IsErr};
ghost use Rattle.tl_load.specs.Sources.{RoseBy, counted_down};

use std::io::Read;
use std::marker::Model;
use tl_layout::DeviceFault;

/// A device that bytes are read from. Reading can fail.
pub trait Source {
    /// How many reads failed.
    ghost failed: { Self → ℕ };

    /// How many reads were made, modulo 2^64.
    ghost reads: { Self → ℕ };

    /// How many bytes they returned, modulo 2^64.
    ghost given: { Self → ℕ };

    /// The bytes that reads will return from here on, if they are known.
    ghost remaining: { Self → Option (List ℕ) };

    /// Returns how many reads failed.
    fn failures(&self) -> u64
        ensures { result ≡ failed self.now };

    /// Reads into the start of the buffer and returns the number of bytes, which is 0 only at the end or if the buffer is
    /// empty.
    ///
    /// # Errors
    ///
    /// `DeviceFault` if the read failed. It counts as one failure and returned no bytes.
    fn read(&mut self, buf: &mut [u8]) -> Result<usize, DeviceFault>
        requires { failed self.old < u64.MAX }
        ensures failures { failed self.new ≡ (if is_ok result then failed self.old else failed self.old + 1) }
        ensures reads { RoseBy 1 (reads self.old) (reads self.new) }
        ensures given { MatchResult result (λ n. RoseBy n (given self.old) (given self.new)) (λ _. RoseBy 0 (given self.old) (given self.new)) }
        ensures bound { IfOk result (λ n. n ≤ length buf.new) }
        ensures bytes { ReadConsumes (remaining self.old) (remaining self.new) result buf.new };
}

/// A source over a reader. Every error of the reader counts as a failure, and no read is retried.
#[derive(Drop)]
pub struct Counted<T> {
    inner: T,
    reads: u64,
    given: u64,
    failures: u64,
}

impl<T: Read> Counted<T> {
    /// Makes a source without failures.
    pub fn new(inner: T) -> Self
        ensures failures { ⟦<Counted<T> as Source>⟧.failed result ≡ 0 }
        ensures bytes { ⟦<Counted<T> as Source>⟧.remaining result ≡ T.remaining inner }
        ensures inner { result.inner ≡ inner }
    {
        Counted {
            inner,
            reads: 0,
            given: 0,
            failures: 0,
        }
    }
}

impl<T> Counted<T> {
    /// Returns the reader.
    pub fn get_ref(&self) -> &T
        ensures { result.now ≡ self.now.inner }
    {
        &self.inner
    }
}

impl<T: Read> Source for Counted<T> {
    ghost failed = { λ s. s.failures };

    ghost reads = { λ s. s.reads };

    ghost given = { λ s. s.given };

    ghost remaining = { λ s. T.remaining s.inner };

    fn failures(&self) -> u64 {
        self.failures
    }

    fn read(&mut self, buf: &mut [u8]) -> Result<usize, DeviceFault> {
        self.reads = self.reads.wrapping_add(1);
        match self.inner.read(buf) {
            Ok(count) => {
                self.given = self.given.wrapping_add(count as u64);
                Ok(count)
            }
            Err(_) => {
                self.failures += 1;
                Err(DeviceFault)
            }
        }
    }
}

/// A source over borrowed bytes, for testing code that reads a source: it returns few bytes per read, and can fail.
#[derive(Drop)]
pub struct SlowSource<'a> {
    bytes: &'a [u8],
    most: usize,
    reads_to_failure: Option<u64>,
    reads: u64,
    given: u64,
    failures: u64,
}

impl<'a> Model for SlowSource<'a> {
    ghost use Rattle.std.specs.Prelude.{◌<◌};
    ghost use Rattle.tl_load.specs.Sources.{LentBytes};

    ghost Value = { LentBytes };

    ghost view = { λ s. record { left = s.bytes.now; most = s.most; failing = s.reads_to_failure; reads = s.reads; given = s.given; failures = s.failures } };

    ghost invariant = { λ s. 0 < s.most };
}

impl<'a> SlowSource<'a> {
    /// Makes a source that returns at most `most` bytes per read; `most` must not be 0. If `failing` is `Some(k)`, exactly its
    /// k-th read fails, counted from 1. If it is `None`, no read fails.
    pub fn new(bytes: &'a [u8], most: usize, failing: Option<u64>) -> Self
        requires { 0 < most }
        ensures { result ≡ record { left = bytes.now; most = most; failing = failing; reads = 0; given = 0; failures = 0 } }
    {
        SlowSource {
            bytes,
            most,
            reads_to_failure: failing,
            reads: 0,
            given: 0,
            failures: 0,
        }
    }
}

/// Counts down by one read, and returns whether this read fails.
fn is_failing_read(reads_to_failure: &mut Option<u64>) -> bool
    ensures fails { IsTrue result ↔ (reads_to_failure.old ≡ Some 1) }
    ensures counted { reads_to_failure.new ≡ counted_down reads_to_failure.old }
{
    match *reads_to_failure {
        Some(reads) if reads > 1 => {
            *reads_to_failure = Some(reads - 1);
            false
        }
        Some(reads) => {
            *reads_to_failure = None;
            reads == 1
        }
        None => false,
    }
}

impl Source for SlowSource<'_> {
    ghost failed = { λ s. s.failures };

    ghost reads = { λ s. s.reads };

    ghost given = { λ s. s.given };

    ghost remaining = { λ s. Some s.left };

    fn failures(&self) -> u64 {
        self.failures
    }

    fn read(&mut self, buf: &mut [u8]) -> Result<usize, DeviceFault>
        requires { self.old.failures < u64.MAX }
        ensures failures { self.new.failures ≡ (if is_ok result then self.old.failures else self.old.failures + 1) }
        ensures reads { RoseBy 1 self.old.reads self.new.reads }
        ensures given { MatchResult result (λ n. RoseBy n self.old.given self.new.given) (λ _. RoseBy 0 self.old.given self.new.given) }
        ensures bound { IfOk result (λ n. n ≤ length buf.new) }
        ensures bytes { ReadConsumes (Some self.old.left) (Some self.new.left) result buf.new }
        // The minimum of the most that one read returns, the length of the buffer, and the number of bytes left.
        ensures count { IfOk result (λ n. n ≡ min self.old.most (min (length buf.old) (length self.old.left))) }
        // Exactly the chosen read fails.
        ensures fails { IsErr result ↔ (self.old.failing ≡ Some 1) }
        ensures counted { self.new.failing ≡ counted_down self.old.failing }
        ensures most { self.new.most ≡ self.old.most }
    {
        self.reads = self.reads.wrapping_add(1);
        if is_failing_read(&mut self.reads_to_failure) {
            self.failures += 1;
            return Err(DeviceFault);
        }
        let count = self.most.min(buf.len().min(self.bytes.len()));
        let (front, rest) = self.bytes.split_at(count);
        let taken = &mut buf[..count];
        taken.copy_from_slice(front);
        self.bytes = rest;
        self.given = self.given.wrapping_add(count as u64);
        Ok(count)
    }
}
