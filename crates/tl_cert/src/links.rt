//! Whether a county has the links of another's landmarks under their new numbers.

ghost use Rattle.std.specs.Bool.{Decides};
ghost use Rattle.std.specs.Prelude.{IfOk, IsPermutation, map, ◌≡◌};
ghost use Rattle.tl_cert.specs.PartsThere.{tabled};
ghost use Rattle.county_chart.specs.Renumbering.{carried_link};
ghost use Rattle.county_chart.specs.SequenceKeys.{link_sequence};

use crate::pairing::are_reordered;
use crate::renaming_tables::RenamingTables;
use county_chart::{Chart, Keyed, LinkKey, Listed, push_all};
use std::alloc::{AllocError, Global};
use tl_layout::Rec8;

/// The links of the landmark at a place, as a list that is read by place.
#[derive(Drop)]
struct LandmarkLinks<'a, C> {
    chart: &'a C,
    place: usize,
}

impl<'a, C: Chart> Listed for LandmarkLinks<'a, C> {
    ghost use Rattle.county_chart.specs.ChartWords.{links_at};

    type Item = Rec8;

    ghost items = { λ l. links_at (C.county l.chart.now) l.place };

    fn count(&self) -> usize {
        self.chart.link_count_at(self.place)
    }

    fn item(&self, place: usize) -> Rec8 {
        self.chart.landmark_link_there(self.place, place)
    }
}

/// Returns the links of a county, landmark by landmark.
fn links_of<C: Chart>(alloc: Global, chart: &C) -> Result<Vec<Rec8>, AllocError>
    ensures { IfOk result (λ links. IsPermutation links.items (C.county chart.now).links) }
{
    let count = chart.landmark_count();
    let mut links = Vec::new(alloc);
    for place in 0..count {
        push_all(&mut links, &LandmarkLinks { chart, place })?;
    }
    Ok(links)
}

/// Returns the key of a link under its new numbers.
fn new_key_of(tables: &RenamingTables, link: &Rec8) -> LinkKey
    ensures { result ≡ link_sequence (carried_link (tabled tables.now) link.now) }
{
    let (cenid, polyid) = tables.polygons.image((link.cenid(), link.polyid()));
    let land = tables.lands.image(link.land());
    (land, (polyid, (cenid, link.file())))
}

/// Returns the keys of links under their new numbers.
fn new_keys(
    alloc: Global,
    tables: &RenamingTables,
    links: &[Rec8],
) -> Result<Vec<LinkKey>, AllocError>
    ensures { IfOk result (λ keys. keys.items ≡ map (λ link. link_sequence (carried_link (tabled tables.now) link)) links.now) }
{
    links
        .iter()
        .map(|link| new_key_of(tables, link))
        .collect(alloc)
}

fn keys_of(alloc: Global, links: &[Rec8]) -> Result<Vec<LinkKey>, AllocError>
    ensures { IfOk result (λ keys. keys.items ≡ map link_sequence links.now) }
{
    links.iter().map(|link| link.key()).collect(alloc)
}

/// Checks whether `b` has the links of `a` under their new numbers, each the same number of times.
pub(crate) fn are_links_there<A: Chart, B: Chart>(
    alloc: Global,
    a: &A,
    b: &B,
    tables: &RenamingTables,
) -> Result<bool, AllocError>
    ensures { IfOk result (λ yes. Decides yes
        (IsPermutation (map (carried_link (tabled tables.now)) (A.county a.now).links) (B.county b.now).links)) }
{
    let links = links_of(alloc, a)?;
    let keys = new_keys(alloc, tables, &links)?;
    let others = links_of(alloc, b)?;
    let known = keys_of(alloc, &others)?;
    // Trick: `?` lets the prover look at each outcome by itself.
    let there = are_reordered(keys, known)?;
    Ok(there)
}
