//! A renaming with tables, so that no number is searched along its lists.

ghost use Rattle.std.specs.Prelude.{IfOk, ◌≡◌};
ghost use Rattle.tl_cert.specs.PartsThere.{tabled};

use county_chart::PolygonKey;
use renamings::{Images, Renaming, SortedNumbers};
use std::alloc::{AllocError, Global};

/// A renaming with the tables of its lists.
#[derive(Drop)]
pub(crate) struct RenamingTables<'a> {
    pub(crate) chains: Images<'a, u64>,
    pub(crate) names: Images<'a, u32>,
    pub(crate) polygons: Images<'a, PolygonKey>,
    pub(crate) lands: Images<'a, u64>,
    pub(crate) nodes: Images<'a, u64>,
    pub(crate) turned: SortedNumbers<'a>,
}

impl<'a> RenamingTables<'a> {
    pub(crate) fn new(
        alloc: Global,
        renaming: &'a Renaming,
    ) -> Result<RenamingTables<'a>, AllocError>
        ensures { IfOk result (λ tables. tabled tables ≡ renaming.now) }
    {
        Ok(RenamingTables {
            chains: Images::new(alloc, renaming.chains())?,
            names: Images::new(alloc, renaming.names())?,
            polygons: Images::new(alloc, renaming.polygons())?,
            lands: Images::new(alloc, renaming.lands())?,
            nodes: Images::new(alloc, renaming.nodes())?,
            turned: SortedNumbers::new(alloc, renaming.turned())?,
        })
    }
}
