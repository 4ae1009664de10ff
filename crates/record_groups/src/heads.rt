//! Buffers for the heads of groups.

use county_chart::PolygonKey;
use tl_layout::{BodyP, Point};

/// How many heads are read together.
///
/// Trick: the data of groups may be anywhere in memory, and this way no head waits for the one before it.
const HEADS_TOGETHER: usize = 64;

/// Buffers for the heads of each kind of group.
#[derive(Drop)]
pub struct HeadBuffers {
    /// The numbers of records of groups.
    pub counts: [usize; HEADS_TOGETHER],
    /// The ends of chains in millionths of a degree, each with a byte of the content of its type 1 record. The byte has no meaning.
    pub ends: [((Point, Point), u8); HEADS_TOGETHER],
    /// For each chain, a byte made of two bytes of the content of its type I record. It has no meaning.
    pub topology_bytes: [u8; HEADS_TOGETHER],
    /// The keys of polygons, and the contents of their type P records.
    pub polygons: [(PolygonKey, Option<BodyP>); HEADS_TOGETHER],
}

impl HeadBuffers {
    /// Makes the buffers. Their contents have no meaning yet.
    pub fn new() -> HeadBuffers {
        HeadBuffers {
            counts: [0; HEADS_TOGETHER],
            ends: [Default::default(); HEADS_TOGETHER],
            topology_bytes: [0; HEADS_TOGETHER],
            polygons: [Default::default(); HEADS_TOGETHER],
        }
    }
}
