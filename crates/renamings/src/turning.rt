//! Which chains two renamings turn, one after the other.

ghost use Rattle.std.specs.Ordering.{nat_cmp};
ghost use Rattle.std.specs.Prelude.{IfOk, filter, map, ◌≡◌};
ghost use Rattle.renamings.specs.Images.{is_turned_once};
ghost use Rattle.ordered_lists.specs.Pairs.{image, is_named};

use crate::images::Images;
use crate::pairs::named_images_of;
use crate::sorted_numbers::SortedNumbers;
use std::alloc::{AllocError, Global};

/// Checks whether exactly one of two renamings turns the chain of an old TLID. The first one turns the chains of `firsts`. The next one
/// turns the chains of `nexts`, under the TLIDs that the first one gives.
fn turns_once(
    images: &Images<u64>,
    firsts: &SortedNumbers,
    nexts: &SortedNumbers,
    tlid: u64,
) -> bool
    ensures { result ≡ is_turned_once images.now firsts.now nexts.now tlid }
{
    let by_first = firsts.contains(tlid);
    let by_next = nexts.contains(images.image(tlid));
    by_first != by_next
}

/// Returns the old TLIDs of the pairs whose chains exactly one of two renamings turns.
fn turned_by_one(
    alloc: Global,
    pairs: &[(u64, u64)],
    images: &Images<u64>,
    firsts: &SortedNumbers,
    nexts: &SortedNumbers,
) -> Result<Vec<u64>, AllocError>
    ensures { IfOk result (λ turned.
        turned.items ≡ filter (is_turned_once images.now firsts.now nexts.now) (map (λ pair. pair.0) pairs.now)) }
{
    pairs
        .iter()
        .map(|pair| pair.0)
        .filter(|tlid| turns_once(images, firsts, nexts, *tlid))
        .collect(alloc)
}

/// Returns the old TLIDs of the pairs whose chains exactly one of two renamings turns. The first one has the pairs `chains` and turns the
/// chains of `firsts`; the next one turns the chains of `nexts`.
pub(crate) fn turned_once(
    alloc: Global,
    pairs: &[(u64, u64)],
    chains: &[(u64, u64)],
    firsts: &[u64],
    nexts: &[u64],
) -> Result<Vec<u64>, AllocError>
    ensures { IfOk result (λ turned.
        turned.items ≡ filter (is_turned_once chains.now firsts.now nexts.now) (map (λ pair. pair.0) pairs.now)) }
{
    let images = Images::new(alloc, chains)?;
    let firsts = SortedNumbers::new(alloc, firsts)?;
    let nexts = SortedNumbers::new(alloc, nexts)?;
    // Trick: `?` lets the prover look at each outcome by itself.
    let turned = turned_by_one(alloc, pairs, &images, &firsts, &nexts)?;
    Ok(turned)
}

/// Returns the new TLIDs of the turned chains. A TLID that no pair names is left out.
pub(crate) fn turned_back(
    alloc: Global,
    chains: &[(u64, u64)],
    turned: &[u64],
) -> Result<Vec<u64>, AllocError>
    ensures { IfOk result (λ back. back.items ≡ map (image nat_cmp chains.now) (filter (is_named nat_cmp chains.now) turned.now)) }
{
    let images = Images::new(alloc, chains)?;
    // Trick: `?` lets the prover look at each outcome by itself.
    let back = named_images_of(alloc, &images, turned)?;
    Ok(back)
}
