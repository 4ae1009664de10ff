//! Comparing two arranged counties by their texts.
//!
//! A record's spelling begins with its type and is as long as the type requires, and counties that are the same map have equally many
//! records of each type. So the first type whose records differ decides between their texts.

ghost use Rattle.std.specs.Prelude.{take, ◌≡◌};
ghost use Rattle.std.specs.Cmp.Lexicographic.{slice_cmp};
ghost use Rattle.std.specs.Ordering.{nat_cmp, ordering_then};
ghost use Rattle.std.specs.declared.cmp.Ordering.TheVariants.{Equal};
ghost use Rattle.county_chart.specs.Packing.{packed};
ghost use Rattle.county_chart.specs.Renumbering.{AreSame};
ghost use Rattle.tl_layout.specs.declared.record_type.Record.TheVariants.{Four, I, One, P, Six};
ghost use Rattle.tl_layout.specs.RecordText.{text_of};
ghost use Rattle.record_groups.specs.CountyGroups.{type_1_by_chain, type_2_by_chain, type_4_by_chain, type_5_by_name, type_6_by_chain, type_7_by_landmark, type_i_by_chain, type_p_by_number};
ghost use Rattle.record_groups.specs.RecordOrder.{groups_cmp, types_8_to_p_cmp};
ghost use Rattle.arranged_county.specs.Views.{arranged_county};

use arranged_county::{Arranged, Evidence};
use canonical_records::{LandmarkLinkRecords, PolygonRecords};
use county_chart::Chart;
use record_groups::{
    CountedGroups, SequencedRecord, SequencedRecords, TopologyRecords, compare_groups,
};
use std::cmp::Ordering;
use std::marker::PhantomData;
use tl_layout::{Rec4, Rec6};

/// The records of type 6 of the chains from a place on.
#[derive(Drop)]
struct RangesFrom<'a, C: Chart> {
    chart: &'a C,
    first: usize,
}

impl<C: Chart> CountedGroups for RangesFrom<'_, C> {
    ghost use Rattle.std.specs.Prelude.{drop};
    ghost use Rattle.record_groups.specs.CountyGroups.{type_6_by_chain};

    type Record = Rec6;

    ghost counted = { λ g. drop g.first (type_6_by_chain (C.county g.chart.now)) };

    fn group_count(&self) -> usize {
        self.chart.chain_count().saturating_sub(self.first)
    }

    fn record_count(&self, group: usize) -> usize {
        Rec6::count_at(self.chart, self.first + group)
    }

    fn record_at(&self, group: usize, place: usize) -> Rec6 {
        Rec6::make(self.chart, self.first + group, place)
    }
}

/// Compares two counties by their records of type 4.
fn compare_further_names<A: Chart, B: Chart>(a: &A, b: &B) -> Ordering
    ensures { result ≡ groups_cmp Four (type_4_by_chain (A.county a.now)) (type_4_by_chain (B.county b.now)) }
{
    let names = SequencedRecords::<_, Rec4> {
        chart: a,
        records: PhantomData,
    };
    let others = SequencedRecords::<_, Rec4> {
        chart: b,
        records: PhantomData,
    };
    compare_groups(&names, &others)
}

/// Compares two counties by their records of type 6. Their first `alike` chains have the same ones.
fn compare_ranges<A: Chart, B: Chart>(a: &A, b: &B, alike: usize) -> Ordering
    requires { take alike (type_6_by_chain (A.county a.now)) ≡ take alike (type_6_by_chain (B.county b.now)) }
    ensures { result ≡ groups_cmp Six (type_6_by_chain (A.county a.now)) (type_6_by_chain (B.county b.now)) }
{
    let ranges = RangesFrom {
        chart: a,
        first: alike,
    };
    let others = RangesFrom {
        chart: b,
        first: alike,
    };
    compare_groups(&ranges, &others)
}

/// Compares two arranged counties by their records of types I and P.
fn compare_topologies_and_polygons<A: Chart, R: Evidence, B: Chart, S: Evidence>(
    a: &Arranged<A, R>,
    b: &Arranged<B, S>,
) -> Ordering
    ensures { result ≡ ordering_then (groups_cmp I (type_i_by_chain (arranged_county a.now)) (type_i_by_chain (arranged_county b.now)))
        (groups_cmp P (type_p_by_number (arranged_county a.now)) (type_p_by_number (arranged_county b.now))) }
{
    match compare_groups(&TopologyRecords { chart: a }, &TopologyRecords { chart: b }) {
        Ordering::Equal => compare_groups(
            &PolygonRecords { county: a },
            &PolygonRecords { county: b },
        ),
        unequal => unequal,
    }
}

/// Compares two arranged counties by their records of types 8, I and P.
fn compare_types_8_to_p<A: Chart, R: Evidence, B: Chart, S: Evidence>(
    a: &Arranged<A, R>,
    b: &Arranged<B, S>,
) -> Ordering
    ensures { result ≡ types_8_to_p_cmp (arranged_county a.now) (arranged_county b.now) }
{
    let links = LandmarkLinkRecords { county: a };
    let others = LandmarkLinkRecords { county: b };
    match compare_groups(&links, &others) {
        Ordering::Equal => compare_topologies_and_polygons(a, b),
        unequal => unequal,
    }
}

/// Compares two arranged counties by their records of types 6, 8, I and P. Their first `alike` chains have the same ones of type 6.
fn compare_types_6_to_p<A: Chart, R: Evidence, B: Chart, S: Evidence>(
    a: &Arranged<A, R>,
    b: &Arranged<B, S>,
    alike: usize,
) -> Ordering
    requires { take alike (type_6_by_chain (arranged_county a.now)) ≡ take alike (type_6_by_chain (arranged_county b.now)) }
    ensures { result ≡ ordering_then (groups_cmp Six (type_6_by_chain (arranged_county a.now)) (type_6_by_chain (arranged_county b.now)))
        (types_8_to_p_cmp (arranged_county a.now) (arranged_county b.now)) }
{
    match compare_ranges(a, b, alike) {
        Ordering::Equal => compare_types_8_to_p(a, b),
        unequal => unequal,
    }
}

/// Compares the texts of two arranged counties that are the same map, if their records of type 1 have the same spelling, their records
/// of types 2, 5 and 7 are the same, and their first `alike` chains have the same records of type 6. Makes no text and takes no memory.
pub(crate) fn compare_arranged<A: Chart, R: Evidence, B: Chart, S: Evidence>(
    a: &Arranged<A, R>,
    b: &Arranged<B, S>,
    alike: usize,
) -> Ordering
    requires same { AreSame (arranged_county a.now) (arranged_county b.now) }
    requires ones { groups_cmp One (type_1_by_chain (arranged_county a.now)) (type_1_by_chain (arranged_county b.now)) ≡ Equal }
    requires twos { type_2_by_chain (arranged_county a.now) ≡ type_2_by_chain (arranged_county b.now) }
    requires fives { type_5_by_name (arranged_county a.now) ≡ type_5_by_name (arranged_county b.now) }
    requires sevens { type_7_by_landmark (arranged_county a.now) ≡ type_7_by_landmark (arranged_county b.now) }
    requires sixes { take alike (type_6_by_chain (arranged_county a.now)) ≡ take alike (type_6_by_chain (arranged_county b.now)) }
    ensures { result ≡ slice_cmp nat_cmp (text_of (packed (arranged_county a.now))) (text_of (packed (arranged_county b.now))) }
{
    match compare_further_names(a, b) {
        Ordering::Equal => compare_types_6_to_p(a, b, alike),
        unequal => unequal,
    }
}
