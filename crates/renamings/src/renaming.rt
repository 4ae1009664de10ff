//! Renamings of a county's numbers.

ghost use Rattle.std.specs.Prelude.{◌≡◌};

use county_chart::PolygonKey;
use std::alloc::Global;
use std::marker::Model;

/// The named parts of a renaming: pairs of an old and a new number for each kind of number, and the old TLIDs of the chains
/// that are turned.
#[derive(Debug, Drop)]
pub struct RenamingParts {
    /// TLIDs.
    pub chains: Vec<(u64, u64)>,
    /// FEATs.
    pub names: Vec<(u32, u32)>,
    /// Polygons. A renaming that carries one county onto another keeps their CENIDs.
    pub polygons: Vec<(PolygonKey, PolygonKey)>,
    /// LANDs.
    pub lands: Vec<(u64, u64)>,
    /// Nodes.
    pub nodes: Vec<(u64, u64)>,
    /// The old TLIDs of the chains that are turned.
    pub turned: Vec<u64>,
}

/// Which old number became which new one, for each kind of number, and the old TLIDs of the chains that were turned. The
/// pairs are in any order.
#[derive(Debug, Drop)]
pub struct Renaming {
    parts: RenamingParts,
}

impl Model for Renaming {
    ghost use Rattle.county_chart.specs.Renumbering.{Renumbering};

    ghost Value = { Renumbering };

    ghost view = { λ r. record {
      chains = r.parts.chains.items;
      names = r.parts.names.items;
      polygons = r.parts.polygons.items;
      lands = r.parts.lands.items;
      nodes = r.parts.nodes.items;
      turned = r.parts.turned.items;
    } };
}

impl Renaming {
    /// Makes the renaming of these pairs of an old and a new number, which turns the chains of these old TLIDs.
    pub fn new(
        chains: Vec<(u64, u64)>,
        names: Vec<(u32, u32)>,
        polygons: Vec<(PolygonKey, PolygonKey)>,
        lands: Vec<(u64, u64)>,
        nodes: Vec<(u64, u64)>,
        turned: Vec<u64>,
    ) -> Renaming
        ensures { result ≡ record {
          chains = chains.items;
          names = names.items;
          polygons = polygons.items;
          lands = lands.items;
          nodes = nodes.items;
          turned = turned.items;
        } }
    {
        Renaming::of_parts(RenamingParts {
            chains,
            names,
            polygons,
            lands,
            nodes,
            turned,
        })
    }

    /// Makes the renaming of these parts.
    pub fn of_parts(parts: RenamingParts) -> Renaming
        ensures { result ≡ record {
          chains = parts.chains.items;
          names = parts.names.items;
          polygons = parts.polygons.items;
          lands = parts.lands.items;
          nodes = parts.nodes.items;
          turned = parts.turned.items;
        } }
    {
        Renaming { parts }
    }

    /// Returns each old TLID with its new one.
    pub fn chains(&self) -> &[(u64, u64)]
        ensures { result.now ≡ self.now.chains }
    {
        &self.parts.chains
    }

    /// Returns each old FEAT with its new one.
    pub fn names(&self) -> &[(u32, u32)]
        ensures { result.now ≡ self.now.names }
    {
        &self.parts.names
    }

    /// Returns each old polygon with its new one. If the renaming carries a county, the two have the same CENID.
    pub fn polygons(&self) -> &[(PolygonKey, PolygonKey)]
        ensures { result.now ≡ self.now.polygons }
    {
        &self.parts.polygons
    }

    /// Returns each old LAND with its new one.
    pub fn lands(&self) -> &[(u64, u64)]
        ensures { result.now ≡ self.now.lands }
    {
        &self.parts.lands
    }

    /// Returns each old node with its new one.
    pub fn nodes(&self) -> &[(u64, u64)]
        ensures { result.now ≡ self.now.nodes }
    {
        &self.parts.nodes
    }

    /// Returns the old TLIDs of the chains that are turned.
    pub fn turned(&self) -> &[u64]
        ensures { result.now ≡ self.now.turned }
    {
        &self.parts.turned
    }

    /// Returns the allocator that its lists use.
    pub(crate) fn allocator(&self) -> Global {
        *self.parts.chains.allocator()
    }
}
