//! Judging a line: its record, or its fault.

ghost use Rattle.std.specs.Prelude.{IsTrue, [], length, not, position, replicate, take, ◌<◌, ◌∷◌, ◌≡◌, ◌≤◌};
ghost use Rattle.tl_layout.specs.Bytes.{AreAllowed, IsLine, is_allowed, longest_line};
ghost use Rattle.tl_load.specs.LineOf.{filled, judged_as, judged_full};

use crate::{LineFault, first_bad};
use tl_layout::{LONGEST_LINE, Layout};

/// Judges a line that begins with the layout's type: returns its record or its fault. The line has neither its LF nor the CR
/// before it. If `is_clean`, its bytes are known to be allowed in a line and aren't tested.
#[tactic(auto, unfolding(crate::specs::LineOf::judged_as))]
pub(crate) fn judge_line<L: Layout>(line: &[u8], is_clean: bool) -> Result<L, LineFault>
    requires begins { take 1 line.now ≡ L.RTYPE ∷ [] }
    requires clean { IsTrue is_clean → AreAllowed line.now }
    ensures { result ≡ judged_as L.LEN L.reading line.now }
{
    let len = line.len();
    if len > L::LEN {
        return Err(LineFault::LineTooLong);
    }
    if len == L::LEN {
        return judge_full::<L>(line, is_clean);
    }
    judge_short::<L>(line)
}

/// Judges a line that begins with the layout's type and is shorter than the layout, after padding it with blanks.
///
/// Trick: not inlined. A function clears the memory for the padded line on entry, and most lines are full.
#[inline(never)]
#[tactic(auto, unfolding(crate::specs::LineOf::judged_as))]
fn judge_short<L: Layout>(line: &[u8]) -> Result<L, LineFault>
    requires begins { take 1 line.now ≡ L.RTYPE ∷ [] }
    requires short { length line.now < L.LEN }
    ensures { result ≡ judged_as L.LEN L.reading line.now }
{
    let filled = fill(line);
    judge_full::<L>(&filled[..L::LEN], false)
}

/// Checks whether the line, which begins with the layout's type, is known to be a full line of allowed bytes.
#[inline(always)]
pub(crate) fn is_full_line<L: Layout>(line: &[u8], is_clean: bool) -> bool
    requires begins { take 1 line.now ≡ L.RTYPE ∷ [] }
    requires clean { IsTrue is_clean → AreAllowed line.now }
    ensures { IsTrue result → IsLine L.RTYPE L.LEN line.now }
{
    is_clean && line.len() == L::LEN
}

fn blanks() -> [u8; LONGEST_LINE]
    ensures { result ≡ replicate longest_line 32 }
{
    [b' '; LONGEST_LINE]
}

/// Returns the line, padded with blanks to the length of the longest line.
fn fill(line: &[u8]) -> [u8; LONGEST_LINE]
    requires { length line.now ≤ longest_line }
    ensures { result ≡ filled longest_line line.now }
{
    let mut filled = blanks();
    let front = &mut filled[..line.len()];
    front.copy_from_slice(line);
    filled
}

/// Returns the position of the leftmost byte that isn't allowed in a line. If `is_clean`, the bytes aren't tested.
fn bad_place(line: &[u8], is_clean: bool) -> Option<usize>
    requires { IsTrue is_clean → AreAllowed line.now }
    ensures { result ≡ position (λ b. not (is_allowed b)) line.now }
{
    if is_clean { None } else { first_bad(line) }
}

/// Judges a full line that begins with the layout's type. If `is_clean`, its bytes are known to be allowed and aren't tested.
#[tactic(auto, unfolding(crate::specs::LineOf::judged_full))]
fn judge_full<L: Layout>(line: &[u8], is_clean: bool) -> Result<L, LineFault>
    requires begins { take 1 line.now ≡ L.RTYPE ∷ [] }
    requires full { length line.now ≡ L.LEN }
    requires clean { IsTrue is_clean → AreAllowed line.now }
    ensures { result ≡ judged_full L.reading line.now }
{
    if let Some(place) = bad_place(line, is_clean) {
        return Err(LineFault::BadByte((place + 1) as u16));
    }
    match L::take(line) {
        Ok(found) => Ok(found),
        Err(fault) => Err(LineFault::Field(fault)),
    }
}
