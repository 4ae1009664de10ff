//! Whether a county has the chains of another under their new numbers, turned where the renaming turns them.

ghost use Rattle.std.specs.Prelude.{length, map, option_map, ◌<◌, ◌≡◌};
ghost use Rattle.std.specs.Bool.{Decides};
ghost use Rattle.std.specs.Ordering.{nat_cmp};
ghost use Rattle.tl_cert.specs.PartsThere.{chain_carried, tabled};
ghost use Rattle.county_chart.specs.SameParts.{HaveSameContent, HaveSameEnds, HaveSameLists};
ghost use Rattle.county_chart.specs.ChartWords.{chain_at, feats_of};
ghost use Rattle.county_chart.specs.DirectedChains.{directed_chain};
ghost use Rattle.county_chart.specs.Renumbering.{renumbered_side};
ghost use Rattle.county_chart.specs.PolygonKeys.{key_cmp};
ghost use Rattle.ordered_lists.specs.Pairs.{image};

use crate::renaming_tables::RenamingTables;
use county_chart::{
    ChainFeats, ChainPoints, ChainRanges, Chart, DirectedChain, Listed, PolygonKey, Same, Tested,
    are_same,
};
use tl_layout::Side;

/// Returns the new number of a node, if there is one.
fn new_node(tables: &RenamingTables, node: Option<u64>) -> Option<u64>
    ensures { result ≡ option_map (image nat_cmp tables.now.nodes) node }
{
    match node {
        Some(node) => Some(tables.nodes.image(node)),
        None => None,
    }
}

/// Checks whether the node of a chain, if there is such a chain, is the other under its new number.
fn is_node_there(
    tables: &RenamingTables,
    old: Option<Option<u64>>,
    new: Option<Option<u64>>,
) -> bool
    ensures { Decides result (new ≡ option_map (option_map (image nat_cmp tables.now.nodes)) old) }
{
    match old {
        Some(old) => new == Some(new_node(tables, old)),
        None => new.is_none(),
    }
}

fn new_key(tables: &RenamingTables, key: PolygonKey) -> PolygonKey
    ensures { result ≡ image key_cmp tables.now.polygons key }
{
    tables.polygons.image(key)
}

/// Checks whether a side is another with its polygon under its new key.
fn is_side_renumbered(tables: &RenamingTables, old: Side, new: Side) -> bool
    ensures { Decides result (new ≡ renumbered_side (tabled tables.now) old) }
{
    match old.polyid() {
        Some(polyid) => match new.polyid() {
            Some(other) => (new.cenid(), other) == new_key(tables, (old.cenid(), polyid)),
            None => false,
        },
        None => new.polyid().is_none() && new.cenid() == old.cenid(),
    }
}

/// Checks whether the side of a chain, if there is such a chain, is the other with its polygon under its new key.
fn is_side_there(tables: &RenamingTables, old: Option<Side>, new: Option<Side>) -> bool
    ensures { Decides result (new ≡ option_map (renumbered_side (tabled tables.now)) old) }
{
    match old {
        Some(old) => match new {
            Some(new) => is_side_renumbered(tables, old, new),
            None => false,
        },
        None => new.is_none(),
    }
}

/// The new FEATs of the further names of a chain.
#[derive(Drop)]
struct NewFeats<'a, C> {
    feats: ChainFeats<'a, C>,
    tables: &'a RenamingTables<'a>,
}

impl<'a, C: Chart> Listed for NewFeats<'a, C> {
    ghost use Rattle.std.specs.Ordering.{nat_cmp};
    ghost use Rattle.std.specs.Prelude.{map};
    ghost use Rattle.county_chart.specs.ChartWords.{chain_at, feats_of};
    ghost use Rattle.ordered_lists.specs.Pairs.{image};

    type Item = u32;

    ghost items = { λ l. map (image nat_cmp l.tables.now.names) (feats_of (chain_at (C.county l.feats.chart.now) l.feats.place)) };

    fn count(&self) -> usize {
        self.feats.count()
    }

    fn item(&self, place: usize) -> u32 {
        self.tables.names.image(self.feats.item(place))
    }
}

/// The chains of `a`, each looked for in `b` under its new TLID, turned if the renaming turns it.
#[derive(Drop)]
pub(crate) struct Chains<'a, A, B> {
    pub(crate) a: &'a A,
    pub(crate) b: &'a B,
    pub(crate) tables: &'a RenamingTables<'a>,
}

/// Whether the chain at a place of `b` is a directed chain of `a` under its new numbers, by the parts that are compared.
impl<'a, A: Chart, B: Chart> Chains<'a, A, B> {
    /// Checks whether it has the content of the chain's records of types 1 and I.
    fn has_same_content(&self, directed: DirectedChain, other: usize) -> bool
        requires { directed.place < length (A.county self.now.a.now).chains }
        ensures { Decides result (HaveSameContent (chain_at (B.county self.now.b.now) other)
            (chain_carried (tabled self.now.tables.now) (A.county self.now.a.now) directed)) }
    {
        let body = Some(directed.body(self.a));
        let topology = Some(directed.topology(self.a));
        self.b.chain_body_at(other).is_same(&body) && self.b.topology_at(other).is_same(&topology)
    }

    /// Checks whether it has the chain's nodes and sides under their new numbers.
    fn has_same_ends(&self, directed: DirectedChain, other: usize) -> bool
        ensures { Decides result (HaveSameEnds (chain_at (B.county self.now.b.now) other)
            (chain_carried (tabled self.now.tables.now) (A.county self.now.a.now) directed)) }
    {
        let start = directed.start_node(self.a);
        let end = directed.end_node(self.a);
        is_node_there(self.tables, start, self.b.start_node_at(other))
            && is_node_there(self.tables, end, self.b.end_node_at(other))
            && is_side_there(self.tables, directed.left(self.a), self.b.left_at(other))
            && is_side_there(self.tables, directed.right(self.a), self.b.right_at(other))
    }

    /// Checks whether it has the chain's further names under their new FEATs.
    fn has_same_feats(&self, directed: DirectedChain, other: usize) -> bool
        ensures { Decides result (feats_of (chain_at (B.county self.now.b.now) other) ≡
            map (image nat_cmp self.now.tables.now.names) (feats_of (directed_chain (A.county self.now.a.now) directed))) }
    {
        let feats = NewFeats {
            feats: directed.feats(self.a),
            tables: self.tables,
        };
        let others = ChainFeats {
            chart: self.b,
            place: other,
        };
        are_same(&feats, &others)
    }

    /// Checks whether it has the chain's points, further names and further address ranges under their new numbers.
    fn has_same_lists(&self, directed: DirectedChain, other: usize) -> bool
        ensures { Decides result (HaveSameLists (chain_at (B.county self.now.b.now) other)
            (chain_carried (tabled self.now.tables.now) (A.county self.now.a.now) directed)) }
    {
        let points = ChainPoints {
            chart: self.b,
            place: other,
            turned: false,
        };
        let ranges = ChainRanges {
            chart: self.b,
            place: other,
            turned: false,
        };
        are_same(&directed.points(self.a), &points)
            && self.has_same_feats(directed, other)
            && are_same(&directed.ranges(self.a), &ranges)
    }

    /// Checks whether it is the chain under its new numbers.
    fn is_same_chain(&self, directed: DirectedChain, other: usize) -> bool
        requires { directed.place < length (A.county self.now.a.now).chains }
        ensures { Decides result (chain_at (B.county self.now.b.now) other ≡ chain_carried (tabled self.now.tables.now) (A.county self.now.a.now) directed) }
    {
        self.has_same_content(directed, other)
            && self.has_same_ends(directed, other)
            && self.has_same_lists(directed, other)
    }
}

impl<'a, A: Chart, B: Chart> Tested for Chains<'a, A, B> {
    ghost use Rattle.std.specs.Prelude.{ℕ};
    ghost use Rattle.tl_cert.specs.PartsThere.{IsChainThere, tabled};
    ghost use Rattle.tl_shape.specs.Chain.{Chain};

    ghost Entry = { ℕ × Chain };

    ghost entries = { λ t. (A.county t.a.now).chains };

    ghost Holds = { λ t. IsChainThere (tabled t.tables.now) (B.county t.b.now) };

    fn count(&self) -> usize {
        self.a.chain_count()
    }

    fn holds(&self, place: usize) -> bool {
        let tlid = self.a.tlid_there(place);
        let other = self.b.chain_place_or_end(self.tables.chains.image(tlid));
        let directed = DirectedChain {
            place: place as u32,
            turned: self.tables.turned.contains(tlid),
        };
        self.is_same_chain(directed, other)
    }
}
