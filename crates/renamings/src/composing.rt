//! The renaming back, and one renaming after another.

ghost use Rattle.std.specs.Prelude.{IfOk, ◌≡◌};
ghost use Rattle.county_chart.specs.County.{County};
ghost use Rattle.county_chart.specs.CountyRules.{IsCounty};
ghost use Rattle.county_chart.specs.Renumbering.{Carries, inverse, then};

use crate::pairs::{join_pairs, swap_pairs};
use crate::renaming::Renaming;
use crate::turning::{turned_back, turned_once};
use std::alloc::AllocError;

impl Renaming {
    /// Returns the renaming back. It turns the new chain of each chain that this one turns. A turned TLID that `chains` doesn't name is
    /// left out.
    ///
    /// # Errors
    ///
    /// `AllocError` if an allocation failed.
    pub fn inverse(&self) -> Result<Renaming, AllocError>
        ensures value { IfOk result (λ back. back ≡ inverse self.now) }
        ensures carries_back { IfOk result (λ back. (a b : County) →
            IsCounty a → IsCounty b → Carries self.now a b → Carries back b a) }
    {
        let alloc = self.allocator();
        let chains = swap_pairs(alloc, self.chains())?;
        let names = swap_pairs(alloc, self.names())?;
        let polygons = swap_pairs(alloc, self.polygons())?;
        let lands = swap_pairs(alloc, self.lands())?;
        let nodes = swap_pairs(alloc, self.nodes())?;
        let turned = turned_back(alloc, self.chains(), self.turned())?;
        Ok(Renaming::new(chains, names, polygons, lands, nodes, turned))
    }

    /// Returns the renaming that is this one and then the next one. A number whose new number `next` doesn't name is left out. A chain is
    /// turned if exactly one of the two renamings turns it.
    ///
    /// # Errors
    ///
    /// `AllocError` if an allocation failed.
    pub fn then(&self, next: &Renaming) -> Result<Renaming, AllocError>
        ensures value { IfOk result (λ both. both ≡ then self.now next.now) }
        ensures carries_on { IfOk result (λ both. (a b c : County) →
            IsCounty a → IsCounty b → Carries self.now a b → Carries next.now b c → Carries both a c) }
    {
        let alloc = self.allocator();
        let chains = join_pairs(alloc, self.chains(), next.chains())?;
        let names = join_pairs(alloc, self.names(), next.names())?;
        let polygons = join_pairs(alloc, self.polygons(), next.polygons())?;
        let lands = join_pairs(alloc, self.lands(), next.lands())?;
        let nodes = join_pairs(alloc, self.nodes(), next.nodes())?;
        let turned = turned_once(alloc, &chains, self.chains(), self.turned(), next.turned())?;
        Ok(Renaming::new(chains, names, polygons, lands, nodes, turned))
    }
}
