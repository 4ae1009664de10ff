//! A sink for testing code that writes to a sink.

ghost use Rattle.std.specs.Prelude.{IfOk, List, MatchResult, [], if◌then◌else◌, is_ok, length, min, take, ℕ, ◌++◌, ◌+◌, ◌-◌, ◌<◌, ◌↔◌, ◌≡◌, ◌≤◌};
ghost use Rattle.std.specs.Result.{IsErr};

use crate::sink::Sink;
use std::marker::Model;
use tl_layout::DeviceFault;

/// A sink into a borrowed buffer. It takes few bytes per write, and fails once the buffer is full.
#[derive(Drop)]
pub struct SlowSink<'a> {
    buffer: &'a mut [u8],
    held: usize,
    most: usize,
    failures: u64,
}

impl<'a> Model for SlowSink<'a> {
    ghost use Rattle.std.specs.Prelude.{length, take, ◌<◌, ◌≤◌};
    ghost use Rattle.tl_write.specs.LentBuffer.{LentBuffer};

    ghost Value = { LentBuffer };

    ghost view = { λ s. record { held = take s.held s.buffer.now; capacity = length s.buffer.now; most = s.most; failures = s.failures } };

    ghost invariant = { λ s. (0 < s.most) × (s.held ≤ length s.buffer.now) };
}

impl<'a> SlowSink<'a> {
    /// Makes a sink that takes at most `most` bytes per write and as many bytes in all as the buffer has; `most` must not be 0.
    pub fn new(buffer: &'a mut [u8], most: usize) -> Self
        requires { 0 < most }
        ensures { result ≡ record { held = []; capacity = length buffer.old; most = most; failures = 0 } }
    {
        SlowSink {
            buffer,
            held: 0,
            most,
            failures: 0,
        }
    }

    /// Returns the bytes that it took.
    pub fn held(&self) -> &[u8]
        ensures { result.now ≡ self.now.held }
    {
        &self.buffer[..self.held]
    }
}

impl Sink for SlowSink<'_> {
    ghost failed = { λ s. s.failures };

    ghost holds = { λ s held. s.held ≡ held };

    fn failures(&self) -> u64 {
        self.failures
    }

    fn write(&mut self, buf: &[u8]) -> Result<usize, DeviceFault>
        requires { self.old.failures < u64.MAX }
        ensures failures { self.new.failures ≡ (if is_ok result then self.old.failures else self.old.failures + 1) }
        ensures bound { IfOk result (λ n. n ≤ length buf.now) }
        ensures some { 0 < length buf.now → IfOk result (λ n. 1 ≤ n) }
        ensures bytes { (held : List ℕ) → self.old.held ≡ held
            → MatchResult result (λ n. self.new.held ≡ held ++ take n buf.now) (λ _. self.new.held ≡ held) }
        // The minimum of the most that one write takes, the number of bytes given, and the free space.
        ensures count { IfOk result (λ n. n ≡ min self.old.most (min (length buf.now) (self.old.capacity - length self.old.held))) }
        // It fails exactly if bytes are given and there is no free space.
        ensures fails { IsErr result ↔ ((0 < length buf.now) × (length self.old.held ≡ self.old.capacity)) }
        ensures capacity { self.new.capacity ≡ self.old.capacity }
        ensures most { self.new.most ≡ self.old.most }
    {
        let count = self.most.min(buf.len().min(self.buffer.len() - self.held));
        if count == 0 && !buf.is_empty() {
            self.failures += 1;
            return Err(DeviceFault);
        }
        let place = &mut self.buffer[self.held..self.held + count];
        place.copy_from_slice(&buf[..count]);
        self.held += count;
        Ok(count)
    }
}
