//! Finding the end of a line, and removing its line ending.

ghost use Rattle.std.specs.Prelude.{IfSome, MatchOption, true, ◌≡◌};
ghost use Rattle.tl_load.specs.Lines.{IsFeedAfter, IsLineEnd, IsWithoutLineFeed, without_return};

use crate::bytes::is_ascii;
use memchr::memchr;
use tl_layout::{Layout, Rec1, Rec2, Rec4, Rec5, Rec6, Rec7, Rec8, RecI, RecP};

/// The end of the first line of some bytes.
#[derive(Clone, Copy)]
pub(crate) struct LineEnd {
    /// The position of its LF, counted from 0.
    pub(crate) place: usize,
    /// If true, each byte before the LF is allowed in a line, except for one CR right before it. If false, they weren't tested.
    pub(crate) is_clean: bool,
}

/// Finds the end of the first line. A full line of printable ASCII, as nearly all are, has its LF, or its CR and LF, at the
/// length of its type, so that no search is needed.
#[inline(always)]
pub(crate) fn line_end(bytes: &[u8]) -> Option<LineEnd>
    ensures { MatchOption result (IsWithoutLineFeed bytes.now) (λ end. IsLineEnd bytes.now end.place end.is_clean) }
{
    match full_line_end(bytes) {
        Some(place) => Some(LineEnd {
            place,
            is_clean: true,
        }),
        None => searched_line_end(bytes),
    }
}

/// Searches for the LF of the first line. Doesn't test the bytes before it.
///
/// Trick: not inlined, so that a full line costs no call. Nearly all lines are full.
#[inline(never)]
fn searched_line_end(bytes: &[u8]) -> Option<LineEnd>
    ensures { MatchOption result (IsWithoutLineFeed bytes.now) (λ end. IsLineEnd bytes.now end.place end.is_clean) }
{
    match memchr(b'\n', bytes) {
        Some(place) => Some(LineEnd {
            place,
            is_clean: false,
        }),
        None => None,
    }
}

/// Finds the end of the first line if it is a full line of its type and printable ASCII.
#[inline(always)]
fn full_line_end(bytes: &[u8]) -> Option<usize>
    ensures { IfSome result (λ place. IsLineEnd bytes.now place true) }
{
    match bytes {
        [b'1', ..] => end_at_length::<Rec1>(bytes),
        [b'2', ..] => end_at_length::<Rec2>(bytes),
        [b'4', ..] => end_at_length::<Rec4>(bytes),
        [b'5', ..] => end_at_length::<Rec5>(bytes),
        [b'6', ..] => end_at_length::<Rec6>(bytes),
        [b'7', ..] => end_at_length::<Rec7>(bytes),
        [b'8', ..] => end_at_length::<Rec8>(bytes),
        [b'I', ..] => end_at_length::<RecI>(bytes),
        [b'P', ..] => end_at_length::<RecP>(bytes),
        _ => None,
    }
}

/// Returns the position of the LF if an LF, or a CR and an LF, come after as many bytes as this record type has, and these bytes
/// are printable ASCII.
#[inline(always)]
fn end_at_length<L: Layout>(bytes: &[u8]) -> Option<usize>
    ensures { IfSome result (λ place. IsLineEnd bytes.now place true) }
{
    let len = L::LEN;
    let place = feed_after(bytes, len)?;
    if is_ascii(&bytes[..len]) {
        Some(place)
    } else {
        None
    }
}

/// Returns the position of the LF if an LF, or a CR and an LF, come after the first `len` bytes.
#[inline(always)]
fn feed_after(bytes: &[u8], len: usize) -> Option<usize>
    ensures { IfSome result (λ place. IsFeedAfter bytes.now len place) }
{
    if bytes.len() <= len {
        return None;
    }
    let byte = bytes[len];
    if byte == b'\n' {
        return Some(len);
    }
    if byte == b'\r' && len + 1 < bytes.len() && bytes[len + 1] == b'\n' {
        return Some(len + 1);
    }
    None
}

/// Returns the line without one CR at its end, if there is one.
#[tactic(auto, unfolding(crate::specs::Lines::without_return))]
#[inline(always)]
pub(crate) fn without_carriage_return(line: &[u8]) -> &[u8]
    ensures { result.now ≡ without_return line.now }
{
    let len = line.len();
    if len > 0 && line[len - 1] == b'\r' {
        &line[..len - 1]
    } else {
        line
    }
}
