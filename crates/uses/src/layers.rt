//! A canonical text made by calling the layers directly, one call each, for a program that wants the results in between.

ghost use Rattle.std.specs.Prelude.{IfOk, [], ◌∷◌, ◌≡◌};
ghost use Rattle.tigercanon.specs.Sets.{IsCanonicalText};
ghost use Rattle.tl_layout.specs.Limits.{IsWithinLimit, most_records};
ghost use Rattle.county_chart.specs.Packing.{packed};
ghost use Rattle.tl_layout.specs.RecordText.{text_of};
ghost use Rattle.canonical_form.specs.Accepted.{IsCanonicalOf};

use crate::pieces::load_pieces;
use canonical_form::each_accepted_list_has_one_canonical_text;
use std::alloc::Global;
use tigercanon::Fault;
use tl_county::{Chart, link};
use tl_layout::Record;
use tl_number::{CanonCounty, canonise};
use tl_profile::admit;
use tl_write::{CountedOut, write_to};

/// Returns the canonical county of records: they are linked, their county is admitted, and it is renumbered.
fn canonical_county(alloc: Global, records: Vec<Record>) -> Result<CanonCounty, Fault>
    requires { IsWithinLimit most_records records.items }
    ensures { IfOk result (λ canon. IsCanonicalOf records.items (packed (⟦<CanonCounty as Chart>⟧.county canon))) }
{
    each_accepted_list_has_one_canonical_text();
    let county = link(alloc, records)?;
    let admitted = admit(alloc, county)?;
    let (canon, _) = canonise(alloc, admitted)?;
    Ok(canon)
}

/// Returns the text of a canonical county, in memory.
fn text_in_memory(alloc: Global, canon: &CanonCounty) -> Result<Vec<u8>, Fault>
    ensures { IfOk result (λ text. text.items ≡ text_of (packed (⟦<CanonCounty as Chart>⟧.county canon.now))) }
{
    let mut sink = CountedOut::new(Vec::new(alloc));
    match write_to(canon, &mut sink) {
        Ok(_) => Ok(sink.into_inner()),
        Err(fault) => Err(Fault::Write(fault)),
    }
}

/// Returns the canonical text of a file's records: they are loaded, linked, admitted, renumbered and written.
///
/// # Errors
///
/// The refusal of the file, or out of memory.
pub fn canonical_text(alloc: Global, file: &[u8]) -> Result<Vec<u8>, Fault>
    ensures { IfOk result (λ text. IsCanonicalText (file.now ∷ []) text.items) }
{
    let records = load_pieces(alloc, &[file])?;
    let canon = canonical_county(alloc, records)?;
    let text = text_in_memory(alloc, &canon);
    // Trick: one call for the prover, which otherwise reads the drop of each table.
    drop(canon);
    text
}
