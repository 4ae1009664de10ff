//! Sinks for bytes.

ghost use Rattle.std.specs.Prelude.{IfOk, List, MatchResult, Some, if◌then◌else◌, is_ok, length, take, ℕ, ◌++◌, ◌+◌, ◌<◌, ◌≡◌, ◌≤◌};

use std::io::Write;
use tl_layout::DeviceFault;

/// A device that bytes are written to. Writing can fail.
pub trait Sink {
    /// How many writes failed.
    ghost failed: { Self → ℕ };

    /// The bytes that the sink took. A sink that doesn't know them holds none.
    ghost holds: { Self → List ℕ → Type 0 };

    /// Returns how many writes failed.
    fn failures(&self) -> u64
        ensures { result ≡ failed self.now };

    /// Takes bytes from the start of the buffer and returns their number, which is at least 1 unless the buffer is empty.
    ///
    /// # Errors
    ///
    /// `DeviceFault` if the write failed. The sink then took nothing, and counts one failure more.
    fn write(&mut self, buf: &[u8]) -> Result<usize, DeviceFault>
        requires { failed self.old < u64.MAX }
        ensures failures { failed self.new ≡ (if is_ok result then failed self.old else failed self.old + 1) }
        ensures bound { IfOk result (λ n. n ≤ length buf.now) }
        ensures some { 0 < length buf.now → IfOk result (λ n. 1 ≤ n) }
        ensures bytes { (held : List ℕ) → holds self.old held
            → MatchResult result (λ n. holds self.new (held ++ take n buf.now)) (λ _. holds self.new held) };
}

/// A sink over a writer. Every error of the writer counts as a failure, and so does a write that takes none of some bytes. No
/// write is retried.
#[derive(Drop)]
pub struct CountedOut<T> {
    inner: T,
    failures: u64,
}

impl<T: Write> CountedOut<T> {
    /// Makes a sink without failures.
    pub fn new(inner: T) -> Self
        ensures failures { ⟦<CountedOut<T> as Sink>⟧.failed result ≡ 0 }
        ensures bytes { (held : List ℕ) → T.contents inner ≡ Some held → ⟦<CountedOut<T> as Sink>⟧.holds result held }
    {
        CountedOut { inner, failures: 0 }
    }

    /// Returns the writer.
    pub fn into_inner(self) -> T
        ensures { (held : List ℕ) → ⟦<CountedOut<T> as Sink>⟧.holds self held → T.contents result ≡ Some held }
    {
        self.inner
    }
}

impl<T: Write> Sink for CountedOut<T> {
    ghost failed = { λ s. s.failures };

    ghost holds = { λ s held. T.contents s.inner ≡ Some held };

    fn failures(&self) -> u64 {
        self.failures
    }

    fn write(&mut self, buf: &[u8]) -> Result<usize, DeviceFault> {
        match self.inner.write(buf) {
            Ok(count) if count > 0 || buf.is_empty() => Ok(count),
            _ => {
                self.failures += 1;
                Err(DeviceFault)
            }
        }
    }
}
