//! Writing a finished text.

ghost use Rattle.std.specs.Prelude.{IfErr, IfOk, List, MatchResult, if◌then◌else◌, is_ok, length, take, ℕ, ◌++◌, ◌+◌, ◌<◌, ◌≡◌};

use crate::fault::WriteFault;
use crate::sink::Sink;

/// Writes the bytes, in as many writes as the sink needs, and returns their number. No write is retried. Takes no memory.
///
/// # Errors
///
/// The first failure of the sink: exactly the first `written` bytes were written before it.
pub fn write_bytes<W: Sink>(bytes: &[u8], w: &mut W) -> Result<u64, WriteFault>
    requires { W.failed w.old < u64.MAX }
    ensures length { IfOk result (λ n. n ≡ length bytes.now) }
    ensures short { IfErr result (λ f. f.written < length bytes.now) }
    ensures failures { W.failed w.new ≡ (if is_ok result then W.failed w.old else W.failed w.old + 1) }
    ensures bytes { (held : List ℕ) → W.holds w.old held
        → MatchResult result (λ _. W.holds w.new (held ++ bytes.now)) (λ f. W.holds w.new (held ++ take f.written bytes.now)) }
{
    let mut written = 0;
    while written < bytes.len() {
        match w.write(&bytes[written..]) {
            Ok(count) => written += count,
            Err(_) => {
                return Err(WriteFault {
                    written: written as u64,
                });
            }
        }
    }
    Ok(bytes.len() as u64)
}
