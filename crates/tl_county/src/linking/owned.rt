//! The parts of an owned county: each list is a separate vector.

ghost use Rattle.std.specs.Prelude.{IfOk, [], flat_map, ◌++◌, ◌∷◌, ◌≡◌};
ghost use Rattle.tl_layout.specs.Fields.{Fields2};

use crate::linking::building::{
    ChainBuilder, LandmarkBuilder, OneChain, join_bodies, join_feats, join_points, join_ranges,
    surroundings_of,
};
use crate::linking::chain_records::ChainBasics;
use county_chart::Landmark;
use std::alloc::{AllocError, Global};
use tl_layout::{Rec2, Rec7, Rec8};
use tl_shape::{Chain, Shape};

/// Builds chains and landmarks that own their lists.
#[derive(Drop)]
pub(crate) struct Owned {
    pub(crate) alloc: Global,
}

/// Returns the points of a chain, from its records of types 1 and 2.
fn shape_of(alloc: Global, basics: &ChainBasics<'_>, shape: &[Rec2]) -> Result<Shape, AllocError>
    ensures { IfOk result (λ points. points ≡ basics.now.start ∷ (flat_map (λ (r : Fields2). r.points) shape.now ++ (basics.now.end ∷ []))) }
{
    let mut inner = Vec::new(alloc);
    join_points(&mut inner, shape)?;
    Ok(Shape::new(alloc, basics.start(), &inner, basics.end())?)
}

impl<'t> ChainBuilder<'t, Chain> for Owned {
    fn build_chain<'h, 'r>(&mut self, records: &OneChain<'t, 'h, 'r>) -> Result<Chain, AllocError> {
        let basics = records.basics;
        let topology = records.topology;
        let points = shape_of(self.alloc, basics, records.shape)?;
        let mut feats = Vec::new(self.alloc);
        join_feats(&mut feats, records.names)?;
        let mut entries = Vec::with_capacity(self.alloc, records.ranges.len())?;
        join_ranges(&mut entries, records.ranges)?;
        let around = surroundings_of(topology);
        Ok(Chain::new(
            *basics.record().body(),
            points,
            feats,
            entries,
            *topology.body(),
            around,
        ))
    }
}

impl LandmarkBuilder<Landmark> for Owned {
    fn build_landmark(&mut self, records: &[Rec7], links: &[Rec8]) -> Result<Landmark, AllocError> {
        let mut bodies = Vec::with_capacity(self.alloc, records.len())?;
        join_bodies(&mut bodies, records)?;
        Ok(Landmark::new(bodies, Vec::from_slice(self.alloc, links)?))
    }
}
