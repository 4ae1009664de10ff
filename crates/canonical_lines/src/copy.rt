//! Appending a line in canonical spelling, with the version 2006.

ghost use Rattle.canonical_lines.specs.SpeltLine.{with_version};
ghost use Rattle.std.specs.Prelude.{OnErr, OnOk, [], length, ◌++◌, ◌∷◌, ◌≡◌, ◌≤◌, ◌⊎◌};
ghost use Rattle.tl_layout.specs.Bytes.{longest_line};

use std::alloc::AllocError;
use tl_layout::reserve_ahead;

/// Writes the version 2006 into columns 2 to 5 of a line.
#[inline(always)]
fn put_version(line: &mut [u8])
    requires { 5 ≤ length line.old }
    ensures { line.new ≡ with_version line.old }
{
    line[1..5].copy_from_slice(b"2006");
}

/// Appends the line with the version 2006, and LF.
///
/// # Errors
///
/// `AllocError` if an allocation failed. The line may then have been appended without its LF.
#[inline(always)]
pub fn copy_line(text: &mut Vec<u8>, line: &[u8]) -> Result<(), AllocError>
    requires some { 5 ≤ length line.now }
    requires most { length line.now ≤ longest_line }
    ensures ok { OnOk result (text.new.items ≡ text.old.items ++ (with_version line.now ++ 10 ∷ [])) }
    // The text is as before, or lacks only the LF.
    ensures err { OnErr result ((text.new.items ≡ text.old.items) ⊎ (text.new.items ≡ text.old.items ++ with_version line.now)) }
{
    reserve_ahead(text, line.len() + 1);
    let start = text.len();
    text.extend_from_slice(line)?;
    put_version(&mut text[start..]);
    Ok(text.push(b'\n')?)
}
