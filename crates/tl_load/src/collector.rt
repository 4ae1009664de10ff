//! What a loader does with the records that it reads.

ghost use Rattle.std.specs.Prelude.{IfOk, IsTrue, List, OnOk, [], false, ◌++◌, ◌∷◌, ◌≡◌};
ghost use Rattle.tl_layout.specs.Bytes.{IsLine};
ghost use Rattle.tl_layout.specs.RecordText.{text_of};
ghost use Rattle.tl_layout.specs.Tables.{HoldsByType};
ghost use Rattle.tl_layout.specs.declared.record_type.Record.{Record};
ghost use Rattle.tl_load.specs.Keeping.{KeepsLine};

use canonical_lines::{CanonicalLine, copy_line};
use std::alloc::{AllocError, Global};
use tl_layout::{LONGEST_LINE, Layout, Record, Tabled, Tables, put_line, reserve_ahead};

/// The collection that a loader puts its records into.
pub trait Collector: Drop + Sized {
    /// The collector holds these records, in this order. It may lose part of the order: tables don't keep how types follow one
    /// another.
    ghost holds: { Self → List Record → Type 0 };

    /// Makes a collector without records. Takes no memory.
    fn empty(alloc: Global) -> Self
        ensures { holds result [] };

    /// Appends one more record.
    ///
    /// # Errors
    ///
    /// `AllocError` if an allocation failed; the contract then says nothing about what is kept.
    fn push_record<L: Tabled>(&mut self, found: L) -> Result<(), AllocError>
        ensures { (records : List Record) → holds self.old records → OnOk result (holds self.new (records ++ L.as_record found ∷ [])) };

    /// Appends the record of a full line without reading the line, if the collector can. Returns whether it did.
    ///
    /// # Errors
    ///
    /// `AllocError` if an allocation failed; the contract then says nothing about what is kept.
    #[inline(always)]
    fn push_line<L: CanonicalLine>(&mut self, line: &[u8]) -> Result<bool, AllocError>
        requires { IsLine L.RTYPE L.LEN line.now }
        ensures kept { IfOk result (λ was_kept. IsTrue was_kept → KeepsLine holds L.reading L.as_record line.now self.old self.new) }
        ensures unchanged { IfOk result (λ was_kept. was_kept ≡ false → self.new ≡ self.old) }
    {
        Ok(false)
    }
}

/// The records in the order of their lines.
impl Collector for Vec<Record> {
    ghost holds = { λ kept records. kept.items ≡ records };

    fn empty(alloc: Global) -> Vec<Record> {
        Vec::new(alloc)
    }

    fn push_record<L: Tabled>(&mut self, found: L) -> Result<(), AllocError> {
        Ok(self.push(found.into_record())?)
    }
}

/// The records of each type in the order of their lines.
impl Collector for Tables {
    ghost holds = { HoldsByType };

    fn empty(alloc: Global) -> Tables {
        Tables::new(alloc)
    }

    fn push_record<L: Tabled>(&mut self, found: L) -> Result<(), AllocError> {
        found.push_into(self)
    }
}

/// The canonical text of records: their canonical spellings in the order of their lines, each followed by LF.
#[derive(Drop)]
pub struct CanonicalText {
    /// The bytes of the text.
    pub bytes: Vec<u8>,
}

/// Appends the line of one record: its canonical spelling and LF.
fn append_line<L: Layout>(text: &mut Vec<u8>, found: &L) -> Result<(), AllocError>
    ensures { OnOk result (text.new.items ≡ text.old.items ++ (L.spelling found.now ++ 10 ∷ [])) }
{
    let mut buffer = [0; LONGEST_LINE + 1];
    let line = &mut buffer[..L::LEN + 1];
    put_line(found, line);
    reserve_ahead(text, L::LEN + 1);
    Ok(text.extend_from_slice(line)?)
}

impl Collector for CanonicalText {
    ghost holds = { λ text records. text.bytes.items ≡ text_of records };

    fn empty(alloc: Global) -> CanonicalText {
        CanonicalText {
            bytes: Vec::new(alloc),
        }
    }

    fn push_record<L: Tabled>(&mut self, found: L) -> Result<(), AllocError> {
        append_line(&mut self.bytes, &found)
    }

    #[inline(always)]
    fn push_line<L: CanonicalLine>(&mut self, line: &[u8]) -> Result<bool, AllocError> {
        if !L::is_canonical(line) {
            return Ok(false);
        }
        match copy_line(&mut self.bytes, line) {
            Ok(()) => Ok(true),
            Err(fault) => Err(fault),
        }
    }
}
