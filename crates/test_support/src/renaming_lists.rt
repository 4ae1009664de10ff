//! Renamings by their lists.

use tl_cert::{PolygonKey, Renaming};

/// The lists of a renaming.
#[derive(Clone, Copy, Debug, PartialEq)]
pub struct Lists<'a> {
    pub chains: &'a [(u64, u64)],
    pub names: &'a [(u32, u32)],
    pub polygons: &'a [(PolygonKey, PolygonKey)],
    pub lands: &'a [(u64, u64)],
    pub nodes: &'a [(u64, u64)],
    pub turned: &'a [u64],
}

impl<'a> Lists<'a> {
    /// Returns the lists of this renaming.
    pub fn of(renaming: &'a Renaming) -> Lists<'a> {
        Lists {
            chains: renaming.chains(),
            names: renaming.names(),
            polygons: renaming.polygons(),
            lands: renaming.lands(),
            nodes: renaming.nodes(),
            turned: renaming.turned(),
        }
    }
}

/// The renaming of no numbers.
pub const NOTHING: Lists<'static> = Lists {
    chains: &[],
    names: &[],
    polygons: &[],
    lands: &[],
    nodes: &[],
    turned: &[],
};

/// From Main St to Main St from its other end.
pub const TURN: Lists<'static> = Lists {
    chains: &[(500, 77)],
    nodes: &[(11, 5), (12, 6)],
    turned: &[500],
    ..NOTHING
};
