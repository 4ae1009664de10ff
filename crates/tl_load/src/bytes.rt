//! The bytes that are allowed in a line.

ghost use Rattle.std.specs.Prelude.{IsTrue, length, not, position, slice_index, true, ℕ, ◌+◌, ◌<◌, ◌≡◌, ◌≤◌};
ghost use Rattle.std.specs.Simd.Lanes.{Each1};
ghost use Rattle.tl_layout.specs.Bytes.{AreAllowed, is_allowed};

use std::simd::prelude::*;

/// How many bytes `first_bad` tests at a time.
const LANES: usize = 32;

/// How many bytes `is_ascii` tests at a time.
const ASCII_LANES: usize = 16;

/// Returns the position, counted from 0, of the first byte that isn't allowed in a line: one outside printable ASCII and the
/// upper half of Latin-1 from 0xA0 on. It takes no memory.
pub fn first_bad(bytes: &[u8]) -> Option<usize>
    ensures { result ≡ position (λ b. not (is_allowed b)) bytes.now }
{
    if is_clean(bytes) {
        return None;
    }
    bytes.iter().position(|byte| !is_allowed_byte(*byte))
}

/// Returns true only if there are at least 32 bytes and all of them are allowed in a line. It may return false for clean bytes if one of
/// them is 0xFF. It reads 32 bytes at a time, the last of them together with the bytes before them. It keeps the minimum of each lane and
/// tests only that.
fn is_clean(bytes: &[u8]) -> bool
    ensures { IsTrue result → AreAllowed bytes.now }
{
    let len = bytes.len();
    if len < LANES {
        return false;
    }
    let last = len - LANES;
    let mut least = past_controls(bytes, last);
    let mut at = 0;
    while at < last {
        least = least.simd_min(past_controls(bytes, at));
        at += LANES;
    }
    least.simd_lt(u8x32::splat(0x42)).to_bitmask() == 0
}

/// Returns twice the successor of each of the 32 bytes from `at` on, modulo 256. It is at least 0x42 if the byte is allowed in a line and
/// isn't 0xFF, and less otherwise. Doubling drops the top bit, which maps the control characters of both halves of Latin-1 below the blank.
#[inline(always)]
fn past_controls(bytes: &[u8], at: usize) -> u8x32
    requires { at + 32 ≤ length bytes.now }
    ensures long { length result ≡ 32 }
    ensures clean { Each1 (λ x. 66 ≤ x) result → (k : ℕ) → at ≤ k → k < at + 32 → is_allowed (slice_index bytes.now k) ≡ true }
{
    let next = u8x32::from_slice(&bytes[at..]) + u8x32::splat(1);
    next + next
}

/// Returns true only if there are at least 16 bytes and all of them are printable ASCII. It reads 16 bytes at a time, the last of them
/// together with the bytes before them. It keeps the minimum of each lane and tests only that.
#[inline(always)]
pub(crate) fn is_ascii(bytes: &[u8]) -> bool
    ensures { IsTrue result → AreAllowed bytes.now }
{
    let len = bytes.len();
    if len < ASCII_LANES {
        return false;
    }
    let last = len - ASCII_LANES;
    let mut least = from_delete(bytes, last);
    let mut at = 0;
    while at < last {
        least = least.simd_min(from_delete(bytes, at));
        at += ASCII_LANES;
    }
    least.simd_lt(u8x16::splat(0xa1)).to_bitmask() == 0
}

/// Returns each of the 16 bytes from `at` on, minus 0x7F, modulo 256: at least 0xA1 if the byte is printable ASCII, and less otherwise.
#[inline(always)]
fn from_delete(bytes: &[u8], at: usize) -> u8x16
    requires { at + 16 ≤ length bytes.now }
    ensures long { length result ≡ 16 }
    ensures clean { Each1 (λ x. 161 ≤ x) result → (k : ℕ) → at ≤ k → k < at + 16 → is_allowed (slice_index bytes.now k) ≡ true }
{
    u8x16::from_slice(&bytes[at..]) - u8x16::splat(0x7f)
}

#[inline(always)]
pub(crate) fn is_allowed_byte(byte: u8) -> bool
    ensures { result ≡ is_allowed byte }
{
    (32 <= byte && byte < 127) || 160 <= byte
}
