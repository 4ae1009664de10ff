//! What a county in an arrangement stores about its nodes, polygons, names and landmarks.

use crate::numbers::Interner;
use county_chart::PolygonKey;
use tl_layout::{NumberOrNone, Rec8, Side};

/// The start node and the end node of a chain.
pub type Ends = (NumberOrNone, NumberOrNone);

/// The left and the right side of a chain.
pub type Sides = (Side, Side);

/// The nodes of a county in an arrangement.
#[derive(Drop)]
pub struct NodeTables {
    /// The old nodes in the order of the new numbers.
    pub numbers: Interner<u64>,
    /// The ends of each chain with the new numbers, in the order of the chains.
    pub ends: Vec<Ends>,
}

/// The polygons of a county in an arrangement.
#[derive(Drop)]
pub struct PolygonTables {
    /// The old keys in the order of the new numbers.
    pub numbers: Interner<PolygonKey>,
    /// The sides of each chain with the new keys, in the order of the chains.
    pub sides: Vec<Sides>,
    /// The new keys, ascending.
    pub keys: Vec<PolygonKey>,
    /// The old place of each new key.
    pub places: Vec<u32>,
}

/// The names of a county in an arrangement.
#[derive(Drop)]
pub struct NameTables {
    /// The old FEATs in their new order.
    pub feats: Interner<u32>,
    /// The old place of each name in the new order.
    pub places: Vec<u32>,
}

/// The landmarks of a county in an arrangement.
#[derive(Drop)]
pub struct LandmarkTables {
    /// The old place of each landmark in the new order.
    pub places: Vec<u32>,
    /// The links with their new numbers, in order.
    pub links: Vec<Rec8>,
    /// How many links have a LAND up to 0, 1, 2, ..; the links of a landmark are between two consecutive
    /// bounds.
    pub bounds: Vec<usize>,
}
