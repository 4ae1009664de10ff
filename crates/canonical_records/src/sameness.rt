//! Whether two canonical counties have the same records.

ghost use Rattle.std.specs.Bool.{Decides};
ghost use Rattle.std.specs.Prelude.{◌≡◌};
ghost use Rattle.county_chart.specs.Packing.{packed};
ghost use Rattle.record_groups.specs.SharedGroups.{HaveSameChains, HaveSameCounts, HaveSameEntries};
ghost use Rattle.arranged_county.specs.Views.{arranged_county};

use crate::landmark_link_records::LandmarkLinkRecords;
use crate::polygon_records::PolygonRecords;
use arranged_county::CanonCounty;
use county_chart::Chart;
use record_groups::{HeadBuffers, LandmarkRecords, NameRecords, are_same_groups, have_same_chains};

/// Checks whether two counties have the same records for each name, each landmark and each polygon. The heads are read into the caller's
/// buffers.
fn have_same_entries<A: Chart, B: Chart>(
    a: &CanonCounty<A>,
    b: &CanonCounty<B>,
    buffer: &mut HeadBuffers,
    other: &mut HeadBuffers,
) -> bool
    ensures { Decides result (HaveSameEntries (arranged_county a.now) (arranged_county b.now)) }
{
    are_same_groups(
        &NameRecords { chart: a },
        &NameRecords { chart: b },
        &mut buffer.counts,
        &mut other.counts,
    ) && are_same_groups(
        &LandmarkRecords { chart: a },
        &LandmarkRecords { chart: b },
        &mut buffer.counts,
        &mut other.counts,
    ) && are_same_groups(
        &LandmarkLinkRecords { county: a },
        &LandmarkLinkRecords { county: b },
        &mut buffer.counts,
        &mut other.counts,
    ) && are_same_groups(
        &PolygonRecords { county: a },
        &PolygonRecords { county: b },
        &mut buffer.polygons,
        &mut other.polygons,
    )
}

/// Checks whether two canonical counties have the same records for each chain, each name, each landmark and each polygon.
fn have_same_groups<A: Chart, B: Chart>(a: &CanonCounty<A>, b: &CanonCounty<B>) -> bool
    ensures { Decides result ((HaveSameCounts (arranged_county a.now) (arranged_county b.now) × HaveSameChains (arranged_county a.now) (arranged_county b.now)) × HaveSameEntries (arranged_county a.now) (arranged_county b.now)) }
{
    let mut buffer = HeadBuffers::new();
    let mut other = HeadBuffers::new();
    have_same_chains(a, b, &mut buffer, &mut other)
        && have_same_entries(a, b, &mut buffer, &mut other)
}

/// Checks whether two canonical counties have the same records and are therefore the same map. It stops at the first record that differs,
/// makes no text and takes no memory.
pub fn same_records<A: Chart, B: Chart>(a: &CanonCounty<A>, b: &CanonCounty<B>) -> bool
    ensures { Decides result (packed (arranged_county a.now) ≡ packed (arranged_county b.now)) }
{
    have_same_groups(a, b)
}
