//! The parts of a county in an arena: each list is a slice of it that doesn't change again. Lists that still grow are in ordinary
//! memory.

ghost use Rattle.std.specs.List.{AllByRecursion};
ghost use Rattle.std.specs.Prelude.{IfOk, [], flat_map, map, ◌++◌, ◌∷◌, ◌≡◌};
ghost use Rattle.tl_layout.specs.Fields.{Fields2, Fields4, Fields5, Fields6};
ghost use Rattle.tl_layout.specs.Numbers.{IsNumber};

use crate::linking::building::{
    ChainBuilder, LandmarkBuilder, OneChain, join_bodies, join_feats, join_points, join_ranges,
    name_bodies, surroundings_of,
};
use crate::linking::chain_over::ChainOver;
use crate::linking::chain_records::ChainBasics;
use bumpalo::Bump;
use county_chart::{LandmarkIn, NameIn};
use std::alloc::{AllocError, Global};
use tl_layout::{Body5, Body7, Point, Ranges, Rec2, Rec4, Rec5, Rec6, Rec7, Rec8};
use tl_shape::ChainIn;

/// Copies a list into the arena. An empty list takes no space there.
fn keep<'a, T: Copy>(arena: &'a Bump, items: &[T]) -> Result<&'a [T], AllocError>
    ensures { IfOk result (λ kept. kept.now ≡ items.now) }
{
    if items.is_empty() {
        return Ok(&[]);
    }
    let kept = arena.try_alloc_slice_copy(items)?;
    Ok(kept)
}

/// The points, the FEATs and the further address ranges of a chain, in the arena.
#[derive(Drop)]
struct ChainLists<'a> {
    points: &'a [Point],
    feats: &'a [u32],
    ranges: &'a [Ranges],
}

/// Builds chains and landmarks whose lists are in an arena. A list is gathered in a vector that is used over and over, and copied
/// when it is complete.
#[derive(Drop)]
pub(crate) struct InArena<'a> {
    arena: &'a Bump,
    points: Vec<Point>,
    feats: Vec<u32>,
    ranges: Vec<Ranges>,
    bodies: Vec<Body7>,
}

impl<'a> InArena<'a> {
    /// Makes a builder for this arena. It allocates no memory.
    pub(crate) fn new(alloc: Global, arena: &'a Bump) -> InArena<'a> {
        InArena {
            arena,
            points: Vec::new(alloc),
            feats: Vec::new(alloc),
            ranges: Vec::new(alloc),
            bodies: Vec::new(alloc),
        }
    }

    /// Returns the points of a chain, from its records of types 1 and 2.
    fn keep_points(
        &mut self,
        basics: &ChainBasics<'_>,
        shape: &[Rec2],
    ) -> Result<&'a [Point], AllocError>
        ensures { IfOk result (λ points. points.now ≡ basics.now.start ∷ (flat_map (λ (r : Fields2). r.points) shape.now ++ (basics.now.end ∷ []))) }
    {
        if shape.is_empty() {
            return keep(self.arena, &[basics.start(), basics.end()]);
        }
        self.points.clear();
        self.points.push(basics.start())?;
        join_points(&mut self.points, shape)?;
        self.points.push(basics.end())?;
        keep(self.arena, &self.points)
    }

    /// Returns the FEATs of a chain, from its records of type 4.
    fn keep_feats(&mut self, names: &[Rec4]) -> Result<&'a [u32], AllocError>
        ensures value { IfOk result (λ feats. feats.now ≡ flat_map (λ (r : Fields4). r.feats) names.now) }
        ensures in_range { IfOk result (λ feats. AllByRecursion (IsNumber 8) feats.now) }
    {
        if names.is_empty() {
            return Ok(&[]);
        }
        self.feats.clear();
        join_feats(&mut self.feats, names)?;
        keep(self.arena, &self.feats)
    }

    /// Returns the further address ranges of a chain, from its records of type 6.
    fn keep_ranges(&mut self, ranges: &[Rec6]) -> Result<&'a [Ranges], AllocError>
        ensures { IfOk result (λ kept. kept.now ≡ map (λ (r : Fields6). r.ranges) ranges.now) }
    {
        if ranges.is_empty() {
            return Ok(&[]);
        }
        self.ranges.clear();
        join_ranges(&mut self.ranges, ranges)?;
        keep(self.arena, &self.ranges)
    }

    /// Returns the lists of a chain, from its records of types 1, 2, 4 and 6.
    fn join_lists<'t, 'h, 'r>(
        &mut self,
        records: &OneChain<'t, 'h, 'r>,
    ) -> Result<ChainLists<'a>, AllocError>
        ensures points { IfOk result (λ lists. lists.points.now ≡ records.now.basics.now.start ∷
            (flat_map (λ (r : Fields2). r.points) records.now.shape.now ++ (records.now.basics.now.end ∷ []))) }
        ensures feats { IfOk result (λ lists. lists.feats.now ≡ flat_map (λ (r : Fields4). r.feats) records.now.names.now) }
        ensures numbers { IfOk result (λ lists. AllByRecursion (IsNumber 8) lists.feats.now) }
        ensures ranges { IfOk result (λ lists. lists.ranges.now ≡ map (λ (r : Fields6). r.ranges) records.now.ranges.now) }
    {
        let points = self.keep_points(records.basics, records.shape)?;
        let feats = self.keep_feats(records.names)?;
        let ranges = self.keep_ranges(records.ranges)?;
        Ok(ChainLists {
            points,
            feats,
            ranges,
        })
    }
}

impl<'t, 'a> ChainBuilder<'t, ChainIn<'a>> for InArena<'a> {
    fn build_chain<'h, 'r>(
        &mut self,
        records: &OneChain<'t, 'h, 'r>,
    ) -> Result<ChainIn<'a>, AllocError> {
        let lists = self.join_lists(records)?;
        let around = surroundings_of(records.topology);
        Ok(ChainIn::new(
            *records.basics.record().body(),
            lists.points,
            lists.feats,
            lists.ranges,
            *records.topology.body(),
            around,
        ))
    }
}

impl<'a> ChainBuilder<'a, ChainOver<'a>> for InArena<'a> {
    fn build_chain<'h, 'r>(
        &mut self,
        records: &OneChain<'a, 'h, 'r>,
    ) -> Result<ChainOver<'a>, AllocError> {
        let lists = self.join_lists(records)?;
        Ok(ChainOver::new(
            records.basics.record(),
            records.topology,
            lists.points,
            lists.feats,
            lists.ranges,
        ))
    }
}

impl<'a> LandmarkBuilder<LandmarkIn<'a>> for InArena<'a> {
    fn build_landmark(
        &mut self,
        records: &[Rec7],
        links: &[Rec8],
    ) -> Result<LandmarkIn<'a>, AllocError> {
        self.bodies.clear();
        join_bodies(&mut self.bodies, records)?;
        let bodies = keep(self.arena, &self.bodies)?;
        let links = keep(self.arena, links)?;
        Ok(LandmarkIn::new(bodies, links))
    }
}

/// Returns the names of records of type 5, with their contents in the arena.
pub(crate) fn names_in<'a>(
    alloc: Global,
    arena: &'a Bump,
    records: &[Rec5],
) -> Result<Vec<NameIn<'a>>, AllocError>
    ensures { IfOk result (λ names. names.items ≡ map (λ (r : Fields5). r.body) records.now) }
{
    let bodies: &'a [Body5] = keep(arena, &name_bodies(alloc, records)?)?;
    bodies.iter().map(|body| NameIn::new(body)).collect(alloc)
}

/// Returns the names of records of type 5, with their contents left in the records.
pub(crate) fn names_over<'a>(
    alloc: Global,
    records: &'a [Rec5],
) -> Result<Vec<NameIn<'a>>, AllocError>
    ensures { IfOk result (λ names. names.items ≡ map (λ (r : Fields5). r.body) records.now) }
{
    records
        .iter()
        .map(|name| NameIn::new(name.body()))
        .collect(alloc)
}
