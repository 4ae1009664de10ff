//! A chain that one archive cites, found in another archive of the same map.

ghost use Rattle.std.specs.Prelude.{IfOk, IfSome, Some, [], ◌∷◌, ◌≡◌};
ghost use Rattle.std.specs.Bool.{Decides};
ghost use Rattle.std.specs.Ordering.{nat_cmp};
ghost use Rattle.tigercanon.specs.Sets.{CarriesSet};
ghost use Rattle.county_chart.specs.County.{County};
ghost use Rattle.county_chart.specs.CountyRules.{IsCounty};
ghost use Rattle.county_chart.specs.Renumbering.{Carries, Renumbering};
ghost use Rattle.ordered_lists.specs.Entries.{value_under};

use std::alloc::{AllocError, Global};
use tigercanon::{Fault, normalise_with_renaming};
use tl_cert::Renaming;
use tl_county::linked_records_have_a_well_formed_county;
use tl_load::spelled_or_one_fault;

/// Returns the new number of an old one, if a pair names it. If several pairs do, the first counts.
fn new_number(pairs: &[(u64, u64)], old: u64) -> Option<u64>
    ensures { result ≡ value_under nat_cmp old pairs.now }
{
    for pair in pairs {
        if pair.0 == old {
            return Some(pair.1);
        }
    }
    None
}

/// Returns the renaming of one county onto another, made from the renamings of both onto a third.
fn through(there: &Renaming, back: &Renaming) -> Result<Renaming, AllocError>
    ensures { IfOk result (λ r. (a b c : County) → IsCounty a → IsCounty b → IsCounty c
        → Carries there.now a b → Carries back.now c b → Carries r a c) }
{
    there.then(&back.inverse()?)
}

/// Checks whether two texts are the same.
fn is_same_text(text: &[u8], other: &[u8]) -> bool
    ensures { Decides result (text.now ≡ other.now) }
{
    text == other
}

/// Returns the TLID in another file of the chain with this TLID in a file, if both files have the same canonical text and the chain exists.
/// Each file is given as its text and the renaming onto it.
fn tlid_through(
    there: &(Vec<u8>, Renaming),
    back: &(Vec<u8>, Renaming),
    tlid: u64,
) -> Result<Option<u64>, Fault>
    ensures same { IfOk result (λ found. IfSome found (λ new. there.now.0.items ≡ back.now.0.items)) }
    ensures renaming { IfOk result (λ found. IfSome found (λ new. (r : Renumbering)
        × ((a b c : County) → IsCounty a → IsCounty b → IsCounty c → Carries there.now.1 a b → Carries back.now.1 c b → Carries r a c)
        × (value_under nat_cmp tlid r.chains ≡ Some new))) }
{
    if !is_same_text(&there.0, &back.0) {
        return Ok(None);
    }
    let onto = through(&there.1, &back.1)?;
    Ok(new_number(onto.chains(), tlid))
}

/// Returns the TLID in `other` of the chain with TLID `tlid` in `file`, or none. It is found only if both files are the same map and the
/// chain exists.
///
/// # Errors
///
/// The refusal of one of the files, or out of memory.
pub fn cited_tlid(alloc: Global, file: &[u8], other: &[u8], tlid: u64) -> Result<Option<u64>, Fault>
    ensures { IfOk result (λ found. IfSome found (λ new.
        (r : Renumbering) × CarriesSet r (file.now ∷ []) (other.now ∷ []) × (value_under nat_cmp tlid r.chains ≡ Some new))) }
{
    spelled_or_one_fault();
    linked_records_have_a_well_formed_county();
    let cited = normalise_with_renaming(alloc, &[file])?;
    let kept = normalise_with_renaming(alloc, &[other])?;
    tlid_through(&cited, &kept, tlid)
}
