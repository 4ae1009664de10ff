//! What every record type provides.

ghost use Rattle.std.specs.Prelude.{Err, IfOk, List, Ok, Result, length, ℕ, ◌↔◌, ◌≡◌, ◌≤◌};
ghost use Rattle.tl_layout.specs.Bytes.{IsLine, longest_line};
ghost use Rattle.tl_layout.specs.declared.fault.FieldFault.{FieldFault};

use crate::fault::FieldFault;

/// The length of the longest full line, in bytes: record type 1 has it.
pub const LONGEST_LINE: usize = 228;

/// A record type: which lines spell a record, and its one canonical spelling.
pub trait Layout: Sized {
    /// The length of a full line, in bytes.
    const LEN: usize;

    ghost LEN: { ℕ };

    /// The record type: the byte in column 1.
    const RTYPE: u8;

    ghost RTYPE: { ℕ };

    /// The values that a record of this type can hold.
    ghost Fits: { Self → Type 0 };

    /// The full line spells the record. This is a relation because a record has many spellings.
    ghost Spells: { List ℕ → Self → Type 0 };

    /// The fault of a full line: its leftmost field that spells no value, and how that field breaks its rule.
    ghost IsFault: { List ℕ → FieldFault → Type 0 };

    /// How a full line is read: as a record, or as a fault.
    ghost reading: { List ℕ → Result Self FieldFault };

    /// The canonical spelling of the record.
    ghost spelling: { Self → List ℕ };

    /// Reads a full line by the column table of its type. The contract of [`Layout::take`] explains what that means.
    ///
    /// # Errors
    ///
    /// The fault of the line's leftmost field that spells no value, with its column.
    fn read(line: &[u8]) -> Result<Self, FieldFault>
        requires { IsLine RTYPE LEN line.now }
        ensures exact { result ≡ reading line.now };

    /// Reads a full line: `LEN` allowed bytes, the first of them `RTYPE`.
    ///
    /// # Errors
    ///
    /// The leftmost fault of the line.
    fn take(line: &[u8]) -> Result<Self, FieldFault>
        requires { IsLine RTYPE LEN line.now }
        ensures found { IfOk result (λ r. Fits r × Spells line.now r) }
        ensures only { (r : Self) → Spells line.now r → result ≡ Ok r }
        ensures leftmost { (fault : FieldFault) → (result ≡ Err fault ↔ IsFault line.now fault) }
        ensures exact { result ≡ reading line.now }
    {
        Self::read(line)
    }

    /// Writes the canonical spelling. `out` must be `LEN` bytes long.
    fn put(&self, out: &mut [u8])
        requires { length out.old ≡ LEN }
        ensures spelling { out.new ≡ spelling self.now }
        ensures fits { Fits self.now };

    /// No line is empty or longer than the longest one.
    ghost bounded: { (1 ≤ LEN) × (LEN ≤ longest_line) };

    /// The canonical spelling is a full line.
    ghost spelling_is_line: { (r : Self) → Fits r → IsLine RTYPE LEN (spelling r) };

    /// Reading the canonical spelling yields the record.
    ghost reads_spelling: { (r : Self) → Fits r → reading (spelling r) ≡ Ok r };

    /// If a line is read as a record, the line spells it, and the record fits.
    ghost reads_spelled: { (line : List ℕ) (r : Self) → IsLine RTYPE LEN line → reading line ≡ Ok r → Fits r × Spells line r };

    /// If a line spells a record, it is read as that record.
    ghost spelled_is_read: { (line : List ℕ) (r : Self) → IsLine RTYPE LEN line → Spells line r → reading line ≡ Ok r };

    /// Reading a full line fails exactly with its leftmost fault.
    ghost shows_leftmost: { (line : List ℕ) (fault : FieldFault) → IsLine RTYPE LEN line → (reading line ≡ Err fault ↔ IsFault line fault) };
}
