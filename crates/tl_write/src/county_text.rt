//! The records of a canonical county, as a list and as a text.

ghost use Rattle.std.specs.Prelude.{IfErr, IfOk, List, MatchResult, if◌then◌else◌, is_ok, length, take, ℕ, ◌++◌, ◌+◌, ◌<◌, ◌≡◌};
ghost use Rattle.county_chart.specs.Packing.{packed};
ghost use Rattle.tl_layout.specs.RecordText.{text_of};
ghost use Rattle.canonical_form.specs.Canonical.{IsCanonical};
ghost use Rattle.arranged_county.specs.Views.{arranged_county};

use crate::fault::WriteFault;
use crate::sink::Sink;
use crate::text_buffer::TextBuffer;
use crate::visitor::NoDevice;
use arranged_county::CanonCounty;
use canonical_records::visit_records;
use county_chart::Chart;
use std::alloc::{AllocError, Global};
use tl_layout::Record;

/// Returns the records of a canonical county: a canonical list, and the packing of the county.
///
/// # Errors
///
/// `AllocError` if an allocation failed.
pub fn records_of<C: Chart>(
    alloc: Global,
    county: &CanonCounty<C>,
) -> Result<Vec<Record>, AllocError>
    ensures packed { IfOk result (λ records. records.items ≡ packed (arranged_county county.now)) }
    ensures canonical { IfOk result (λ records. IsCanonical records.items) }
{
    let mut records = Vec::new(alloc);
    visit_records(county, &mut records, &mut NoDevice)?;
    Ok(records)
}

/// Writes the text of a canonical county, which is its records in canonical spelling, each with a line ending, and returns the
/// number of bytes. No write is retried, and no memory is taken.
///
/// # Errors
///
/// The first failure of the sink: exactly the first `written` bytes of the text were written before it.
pub fn write_to<C: Chart, W: Sink>(county: &CanonCounty<C>, w: &mut W) -> Result<u64, WriteFault>
    requires { W.failed w.old < u64.MAX }
    ensures length { IfOk result (λ n. n ≡ length (text_of (packed (arranged_county county.now)))) }
    ensures short { IfErr result (λ f. f.written < length (text_of (packed (arranged_county county.now)))) }
    ensures failures { W.failed w.new ≡ (if is_ok result then W.failed w.old else W.failed w.old + 1) }
    ensures bytes { (held : List ℕ) → W.holds w.old held
        → MatchResult result (λ _. W.holds w.new (held ++ text_of (packed (arranged_county county.now))))
        (λ f. W.holds w.new (held ++ take f.written (text_of (packed (arranged_county county.now))))) }
{
    let mut buffer = TextBuffer::new();
    visit_records(county, &mut buffer, w)?;
    buffer.finish(w)
}

/// Returns the records of a canonical county, as [`records_of`] does. The county may be in an arena, or seen through a mask.
///
/// # Errors
///
/// `AllocError` if an allocation failed.
pub fn records_of_in<C: Chart>(
    alloc: Global,
    county: &CanonCounty<C>,
) -> Result<Vec<Record>, AllocError>
    ensures packed { IfOk result (λ records. records.items ≡ packed (arranged_county county.now)) }
    ensures canonical { IfOk result (λ records. IsCanonical records.items) }
{
    records_of(alloc, county)
}

/// Writes the text of a canonical county, as [`write_to`] does. The county may be in an arena, or seen through a mask.
///
/// # Errors
///
/// The first failure of the sink: exactly the first `written` bytes of the text were written before it.
pub fn write_in<C: Chart, W: Sink>(county: &CanonCounty<C>, w: &mut W) -> Result<u64, WriteFault>
    requires { W.failed w.old < u64.MAX }
    ensures length { IfOk result (λ n. n ≡ length (text_of (packed (arranged_county county.now)))) }
    ensures short { IfErr result (λ f. f.written < length (text_of (packed (arranged_county county.now)))) }
    ensures failures { W.failed w.new ≡ (if is_ok result then W.failed w.old else W.failed w.old + 1) }
    ensures bytes { (held : List ℕ) → W.holds w.old held
        → MatchResult result (λ _. W.holds w.new (held ++ text_of (packed (arranged_county county.now))))
        (λ f. W.holds w.new (held ++ take f.written (text_of (packed (arranged_county county.now))))) }
{
    write_to(county, w)
}
