//! A field that a record has twice: for the left and for the right side of a chain.

ghost use Rattle.std.specs.Prelude.{length, take, ◌*◌, ◌+◌, ◌-◌, ◌≡◌, ◌≤◌};
ghost use Rattle.tl_layout.specs.Bytes.{AreAllowed, longest_line};
ghost use Rattle.tl_layout.specs.Columns.{joined};
ghost use Rattle.tl_layout.specs.Pairs.{FitsPair, pair_at, pair_texts};

use crate::field::text_at;
use crate::text::Text;
use crate::writing::write_text;

/// The left and the right field of one name. Left and right are as you walk the chain from its start.
#[derive(Clone, Copy, Debug, PartialEq, Eq)]
pub struct LeftRight<const N: usize> {
    /// The left field.
    pub left: Text<N>,
    /// The right field.
    pub right: Text<N>,
}

impl<const N: usize> LeftRight<N> {
    /// Makes a pair from these fields. Each of their bytes must be allowed in a line.
    pub(crate) fn new(left: [u8; N], right: [u8; N]) -> LeftRight<N>
        requires left { AreAllowed left }
        requires right { AreAllowed right }
        ensures { result ≡ record { left = left.entry; right = right.entry } }
    {
        LeftRight {
            left: Text::new(left),
            right: Text::new(right),
        }
    }

    /// Returns the pair that begins at this column of a line.
    pub(crate) fn at(line: &[u8], first: usize) -> LeftRight<N>
        requires allowed { AreAllowed line.now }
        requires from_one { 1 ≤ first }
        requires within { (first + 2 * N ≤ length line.now + 1) × (first + 2 * N ≤ longest_line + 1) }
        ensures { result ≡ pair_at N first line.now }
    {
        LeftRight {
            left: text_at(line, first, first + N - 1),
            right: text_at(line, first + N, first + 2 * N - 1),
        }
    }

    /// Writes the pair from this column on.
    pub(crate) fn put(&self, out: &mut [u8], first: usize)
        requires from_one { 1 ≤ first }
        requires within { (first + 2 * N ≤ length out.old + 1) × (first + 2 * N ≤ longest_line + 1) }
        ensures { take (first + 2 * N - 1) out.new ≡ joined (take (first - 1) out.old) (pair_texts N self.now) }
    {
        write_text(out, first, first + N - 1, &self.left);
        write_text(out, first + N, first + 2 * N - 1, &self.right);
    }

    pub(crate) fn show_fit(&self)
        ensures { FitsPair N self.now }
    {
        self.left.show_fit();
        self.right.show_fit();
    }
}
