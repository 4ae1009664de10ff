//! Chains: a record of type 1 together with all other records of its TLID.

ghost use Rattle.std.specs.List.{AllByRecursion};
ghost use Rattle.std.specs.Prelude.{map, ◌≡◌};
ghost use Rattle.tl_layout.specs.Numbers.{IsNumber, IsNumberOrNone};
ghost use Rattle.tl_layout.specs.Turned.{turned_ranges};
ghost use Rattle.tl_shape.specs.Turned.{IsTurned};

use crate::shape::Shape;
use std::marker::Model;
use std::mem::swap;
use tl_layout::{Body1, BodyI, Ranges, Side, Turn};

/// The nodes and polygons around a chain, from its record of type I.
#[derive(Clone, Copy, Debug, PartialEq, Eq)]
pub struct Surroundings {
    /// Number of the node at the chain's start (TZIDS), from 1 to 9,999,999,999, or none.
    pub start_node: Option<u64>,
    /// Number of the node at the chain's end (TZIDE), from 1 to 9,999,999,999, or none.
    pub end_node: Option<u64>,
    /// The polygon on the left side (CENIDL, POLYIDL).
    pub left: Side,
    /// The polygon on the right side (CENIDR, POLYIDR).
    pub right: Side,
}

/// A chain without its TLID: the content of its type 1 record, its points, the FEATs of its further names, its further address
/// ranges, and all that its type I record holds besides the TLID.
#[derive(Debug, Drop)]
pub struct Chain {
    body: Body1,
    shape: Shape,
    feats: Vec<u32>,
    ranges: Vec<Ranges>,
    topology: BodyI,
    surroundings: Surroundings,
}

impl Model for Chain {
    ghost use Rattle.tl_shape.specs.Chain as spec;

    ghost Value = { spec.Chain };

    ghost use Rattle.std.specs.List.{AllByRecursion};
    ghost use Rattle.tl_layout.specs.Numbers.{IsNumber, IsNumberOrNone};

    ghost view = { λ c. record {
      body = c.body;
      points = c.shape;
      feats = c.feats.items;
      ranges = c.ranges.items;
      topology = c.topology;
      start_node = c.surroundings.start_node;
      end_node = c.surroundings.end_node;
      left = c.surroundings.left;
      right = c.surroundings.right;
    } };

    ghost invariant = { λ c. AllByRecursion (IsNumber 8) c.feats.items × IsNumberOrNone 10 c.surroundings.start_node × IsNumberOrNone 10 c.surroundings.end_node };
}

impl Chain {
    /// Makes a chain from its members. FEATs must be from 1 to 99,999,999, and node numbers from 1 to 9,999,999,999.
    ///
    /// Nothing else is required, so every chain that records can describe can be made. What the records must agree on is a rule
    /// of the county.
    pub fn new(
        body: Body1,
        shape: Shape,
        feats: Vec<u32>,
        ranges: Vec<Ranges>,
        topology: BodyI,
        surroundings: Surroundings,
    ) -> Chain
        requires feats { AllByRecursion (IsNumber 8) feats.items }
        requires nodes { IsNumberOrNone 10 surroundings.start_node × IsNumberOrNone 10 surroundings.end_node }
        ensures body { result.body ≡ body }
        ensures points { result.points ≡ shape }
        ensures feats { result.feats ≡ feats.items }
        ensures ranges { result.ranges ≡ ranges.items }
        ensures topology { result.topology ≡ topology }
        ensures nodes { (result.start_node ≡ surroundings.start_node) × (result.end_node ≡ surroundings.end_node) }
        ensures sides { (result.left ≡ surroundings.left) × (result.right ≡ surroundings.right) }
    {
        Chain {
            body,
            shape,
            feats,
            ranges,
            topology,
            surroundings,
        }
    }

    /// Returns the content of the chain's record of type 1.
    pub fn body(&self) -> &Body1
        ensures { result.now ≡ self.now.body }
    {
        &self.body
    }

    /// Returns the chain's points (record types 1 and 2), from its start to its end.
    pub fn shape(&self) -> &Shape
        ensures { result.now ≡ self.now.points }
    {
        &self.shape
    }

    /// Returns the FEATs of the chain's further names (record type 4), in order, each from 1 to 99,999,999.
    pub fn feats(&self) -> &[u32]
        ensures value { result.now ≡ self.now.feats }
        ensures in_range { AllByRecursion (IsNumber 8) result.now }
    {
        self.feats.as_slice()
    }

    /// Returns the chain's further address ranges (record type 6), in order.
    pub fn ranges(&self) -> &[Ranges]
        ensures { result.now ≡ self.now.ranges }
    {
        self.ranges.as_slice()
    }

    /// Returns the content of the chain's record of type I.
    pub fn topology(&self) -> &BodyI
        ensures { result.now ≡ self.now.topology }
    {
        &self.topology
    }

    /// Returns the number of the node at the chain's start (TZIDS), from 1 to 9,999,999,999, or none.
    pub fn start_node(&self) -> Option<u64>
        ensures value { result ≡ self.now.start_node }
        ensures in_range { IsNumberOrNone 10 result }
    {
        self.surroundings.start_node
    }

    /// Returns the number of the node at the chain's end (TZIDE), from 1 to 9,999,999,999, or none.
    pub fn end_node(&self) -> Option<u64>
        ensures value { result ≡ self.now.end_node }
        ensures in_range { IsNumberOrNone 10 result }
    {
        self.surroundings.end_node
    }

    /// Returns the polygon on the chain's left side (CENIDL, POLYIDL).
    pub fn left(&self) -> &Side
        ensures { result.now ≡ self.now.left }
    {
        &self.surroundings.left
    }

    /// Returns the polygon on the chain's right side (CENIDR, POLYIDR).
    pub fn right(&self) -> &Side
        ensures { result.now ≡ self.now.right }
    {
        &self.surroundings.right
    }
}

/// Turns each of the address ranges.
fn turn_all(ranges: &mut [Ranges])
    ensures { ranges.new ≡ map turned_ranges ranges.old }
{
    for entry in ranges.iter_mut() {
        entry.turn();
    }
}

/// Reverses the points, exchanges the nodes and the sides, and turns the content and each of the address ranges. The names, the
/// order of the ranges and the content of the record of type I stay.
impl Turn for Chain {
    ghost use Rattle.tl_shape.specs.TurnLaws.{turned-turned};
    ghost use Rattle.tl_shape.specs.Turned.{turned};

    ghost turned = { turned };

    fn turn(&mut self)
        ensures turned { self.new ≡ turned self.old }
        ensures relation { IsTurned self.old self.new }
    {
        self.body.turn();
        self.shape.reverse();
        turn_all(&mut self.ranges);
        let around = &mut self.surroundings;
        swap(&mut around.start_node, &mut around.end_node);
        swap(&mut around.left, &mut around.right);
    }

    ghost turns_back = { turned-turned };
}
