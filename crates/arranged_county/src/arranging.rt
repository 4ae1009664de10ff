//! Making the county of an arrangement.

ghost use Rattle.std.specs.Prelude.{IfOk, length, ◌<◌, ◌^◌, ◌≡◌};
ghost use Rattle.county_chart.specs.CountyRules.{AllKeysContained, polygon_keys, polygons_along};
ghost use Rattle.canonical_form.specs.Arrangement.{arranged, polygons_in_order};
ghost use Rattle.canonical_form.specs.DirectedChains.{HasChainsOf, arrangement_of};
ghost use Rattle.canonical_form.specs.WholeArrangements.{AreWhole, NamesEachOnce};
ghost use Rattle.arranged_county.specs.ViewFacts.{MatchTables, MatchesLandmarks, MatchesNames};
ghost use Rattle.arranged_county.specs.Views.{arranged_county, classed_county, directed_chains_of, source_of};

use crate::arranged::{Arranged, Evidence};
use crate::arranged_tables::{LandmarkTables, NameTables, NodeTables, PolygonTables};
use crate::content_classes::Classes;
use crate::landmark_order::arrange_landmarks;
use crate::name_order::arrange_names;
use crate::numbers::Interner;
use crate::pairing::both;
use crate::polygon_order::arrange_nodes_and_polygons;
use county_chart::{Chart, DirectedChain, PolygonKey};
use std::alloc::{AllocError, Global};
use std::marker::PhantomData;

/// The tables of a county in an arrangement, for its nodes, polygons, names and landmarks.
type AllTables = (NodeTables, PolygonTables, NameTables, LandmarkTables);

/// Returns the names and the landmarks of a county in this arrangement, with its polygons by first appearance.
fn arrange_names_and_landmarks<C: Chart>(
    alloc: Global,
    classes: &Classes<'_, C>,
    arrangement: &[DirectedChain],
    polygons: &Interner<PolygonKey>,
) -> Result<(NameTables, LandmarkTables), AllocError>
    requires whole { AreWhole (classed_county classes.now) arrangement.now }
    requires polygons { polygons.now ≡ polygons_in_order (classed_county classes.now) (arrangement_of (classed_county classes.now) arrangement.now) }
    requires few_polygons { length polygons.now < 10 ^ 10 }
    requires few_names { length (classed_county classes.now).names < 2 ^ 32 }
    requires few_landmarks { length (classed_county classes.now).landmarks < 2 ^ 32 }
    ensures names { IfOk result (λ tables. MatchesNames (classed_county classes.now) arrangement.now tables.0) }
    ensures landmarks { IfOk result (λ tables. MatchesLandmarks (classed_county classes.now) arrangement.now tables.1) }
{
    let names = arrange_names(alloc, classes, arrangement)?;
    let landmarks = arrange_landmarks(alloc, classes, arrangement, polygons)?;
    Ok((names, landmarks))
}

/// Returns all tables of a county in this arrangement.
fn arrange_tables<C: Chart>(
    alloc: Global,
    classes: &Classes<'_, C>,
    arrangement: &[DirectedChain],
) -> Result<AllTables, AllocError>
    requires there { HasChainsOf (classed_county classes.now) arrangement.now }
    requires once { NamesEachOnce (classed_county classes.now) (arrangement_of (classed_county classes.now) arrangement.now) }
    requires sides { AllKeysContained (polygons_along (classed_county classes.now).chains) (polygon_keys (classed_county classes.now)) }
    ensures { IfOk result (MatchTables (classed_county classes.now) arrangement.now) }
{
    let (nodes, polygons) = arrange_nodes_and_polygons(
        alloc,
        classes.chart,
        arrangement,
        classes.slots,
    )?;
    let others = arrange_names_and_landmarks(alloc, classes, arrangement, &polygons.numbers);
    let ((nodes, polygons), (names, landmarks)) = both((nodes, polygons), others)?;
    Ok((nodes, polygons, names, landmarks))
}

/// Returns a county in this arrangement, with all tables.
fn with_tables<C: Chart + Drop>(
    chart: C,
    arrangement: Vec<DirectedChain>,
    tables: AllTables,
) -> Arranged<C>
    requires there { HasChainsOf (C.county chart) arrangement.items }
    requires once { NamesEachOnce (C.county chart) (arrangement_of (C.county chart) arrangement.items) }
    requires sides { AllKeysContained (polygons_along (C.county chart).chains) (polygon_keys (C.county chart)) }
    requires tables { MatchTables (C.county chart) arrangement.items tables }
    ensures source { source_of result ≡ chart }
    ensures order { directed_chains_of result ≡ arrangement }
    ensures county { arranged_county result ≡ arranged (C.county chart) (arrangement_of (C.county chart) arrangement.items) }
{
    let (nodes, polygons, names, landmarks) = tables;
    Arranged {
        chart,
        arrangement,
        nodes,
        polygons,
        names,
        landmarks,
        evidence: PhantomData,
    }
}

/// Returns a county in this arrangement, given its names and landmarks in classes. Its polygons on sides must be in the county, and the
/// arrangement must name each of its chains once.
///
/// # Errors
///
/// `AllocError` if an allocation failed.
pub fn arrange_in_classes<C: Chart, D: Chart + Drop>(
    alloc: Global,
    chart: D,
    classes: &Classes<'_, C>,
    arrangement: Vec<DirectedChain>,
) -> Result<Arranged<D>, AllocError>
    requires classes { classed_county classes.now ≡ D.county chart }
    requires there { HasChainsOf (D.county chart) arrangement.items }
    requires once { NamesEachOnce (D.county chart) (arrangement_of (D.county chart) arrangement.items) }
    requires sides { AllKeysContained (polygons_along (D.county chart).chains) (polygon_keys (D.county chart)) }
    ensures source { IfOk result (λ view. source_of view ≡ chart) }
    ensures order { IfOk result (λ view. directed_chains_of view ≡ arrangement) }
    ensures county { IfOk result
        (λ view. arranged_county view ≡ arranged (D.county chart) (arrangement_of (D.county chart) arrangement.items)) }
{
    let tables = arrange_tables(alloc, classes, &arrangement)?;
    Ok(with_tables(chart, arrangement, tables))
}

/// Returns all tables of a county in this arrangement. Its names and landmarks are put into classes for this only.
fn tables_of<C: Chart>(
    alloc: Global,
    chart: &C,
    arrangement: &[DirectedChain],
) -> Result<AllTables, AllocError>
    requires there { HasChainsOf (C.county chart.now) arrangement.now }
    requires once { NamesEachOnce (C.county chart.now) (arrangement_of (C.county chart.now) arrangement.now) }
    requires sides { AllKeysContained (polygons_along (C.county chart.now).chains) (polygon_keys (C.county chart.now)) }
    ensures { IfOk result (MatchTables (C.county chart.now) arrangement.now) }
{
    let classes = Classes::of(alloc, chart)?;
    arrange_tables(alloc, &classes, arrangement)
}

/// Returns a county in this arrangement. Its polygons on sides must be in the county, and the arrangement must name each of its chains
/// once.
///
/// # Errors
///
/// `AllocError` if an allocation failed.
pub fn arrange<C: Chart + Drop>(
    alloc: Global,
    chart: C,
    arrangement: Vec<DirectedChain>,
) -> Result<Arranged<C>, AllocError>
    requires there { HasChainsOf (C.county chart) arrangement.items }
    requires once { NamesEachOnce (C.county chart) (arrangement_of (C.county chart) arrangement.items) }
    requires sides { AllKeysContained (polygons_along (C.county chart).chains) (polygon_keys (C.county chart)) }
    ensures source { IfOk result (λ view. source_of view ≡ chart) }
    ensures order { IfOk result (λ view. directed_chains_of view ≡ arrangement) }
    ensures county { IfOk result
        (λ view. arranged_county view ≡ arranged (C.county chart) (arrangement_of (C.county chart) arrangement.items)) }
{
    let tables = tables_of(alloc, &chart, &arrangement)?;
    Ok(with_tables(chart, arrangement, tables))
}

/// Returns the same arranged county with a further fact about it, which must hold for its source county and for itself.
pub fn with_evidence<C: Chart + Drop, S: Evidence>(view: Arranged<C>) -> Arranged<C, S>
    requires { S.holds (C.county (source_of view)) (arranged_county view) }
    ensures source { source_of result ≡ source_of view }
    ensures order { directed_chains_of result ≡ directed_chains_of view }
{
    Arranged {
        chart: view.chart,
        arrangement: view.arrangement,
        nodes: view.nodes,
        polygons: view.polygons,
        names: view.names,
        landmarks: view.landmarks,
        evidence: PhantomData,
    }
}
