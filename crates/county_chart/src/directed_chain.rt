//! Chains read from either end.

ghost use Rattle.std.specs.Prelude.{Some, length, option_map, take, ◌<◌, ◌≡◌, ◌≤◌};
ghost use Rattle.county_chart.specs.ChartWords.{feats_of, points_of, ranges_of};
ghost use Rattle.county_chart.specs.DirectedChains.{directed_chain};
ghost use Rattle.tl_layout.specs.Columns.{joined};
ghost use Rattle.tl_layout.specs.Turned.{body_towards};
ghost use Rattle.tl_layout.specs.Type1Groups.{body_1_texts};

use crate::chart::Chart;
use crate::listed::Listed;
use crate::same::Same;
use tl_layout::{Body1, BodyI, Point, Ranges, Side, Turn};

/// A chain of a county in a direction: from its start node to its end node, or turned, from its end node to its start node.
#[derive(Clone, Copy, Debug, PartialEq, Eq)]
pub struct DirectedChain {
    /// The chain's place in the ascending list of TLIDs, counted from 0.
    pub place: u32,
    /// Whether it begins at the chain's end node.
    pub turned: bool,
}

impl Same for DirectedChain {
    fn is_same(&self, other: &DirectedChain) -> bool {
        self == other
    }
}

/// What a county has of the chain, as read in its direction. There is nothing past the county's last chain.
impl DirectedChain {
    /// Returns the content of its type 1 record.
    pub fn body<C: Chart>(self, chart: &C) -> Body1
        requires { self.place < length (C.county chart.now).chains }
        ensures { Some result ≡ option_map (λ c. c.body) (directed_chain (C.county chart.now) self) }
    {
        let mut body = chart.chain_body_there(self.place as usize);
        if self.turned {
            body.turn();
        }
        body
    }

    /// Writes the content of its type 1 record into columns 16 to 190 of a line, as read in its direction, or against it if
    /// `turned`.
    pub fn put_body<C: Chart>(self, chart: &C, turned: bool, out: &mut [u8])
        requires place { self.place < length (C.county chart.now).chains }
        requires columns { 190 ≤ length out.old }
        ensures { Some (take 190 out.new)
            ≡ option_map (λ c. joined (take 15 out.old) (body_1_texts (body_towards turned c.body))) (directed_chain (C.county chart.now) self) }
    {
        let seen_from_end = if self.turned { !turned } else { turned };
        chart.put_chain_body(self.place as usize, seen_from_end, out);
    }

    /// Returns the content of its type I record.
    pub fn topology<C: Chart>(self, chart: &C) -> BodyI
        requires { self.place < length (C.county chart.now).chains }
        ensures { Some result ≡ option_map (λ c. c.topology) (directed_chain (C.county chart.now) self) }
    {
        chart.topology_there(self.place as usize)
    }

    /// Returns the node where it starts (record type I, TZIDS, or TZIDE if it's turned).
    pub fn start_node<C: Chart>(self, chart: &C) -> Option<Option<u64>>
        ensures { result ≡ option_map (λ c. c.start_node) (directed_chain (C.county chart.now) self) }
    {
        let place = self.place as usize;
        if self.turned {
            chart.end_node_at(place)
        } else {
            chart.start_node_at(place)
        }
    }

    /// Returns the node where it ends (record type I, TZIDE, or TZIDS if it's turned).
    pub fn end_node<C: Chart>(self, chart: &C) -> Option<Option<u64>>
        ensures { result ≡ option_map (λ c. c.end_node) (directed_chain (C.county chart.now) self) }
    {
        let place = self.place as usize;
        if self.turned {
            chart.start_node_at(place)
        } else {
            chart.end_node_at(place)
        }
    }

    /// Returns its left side (record type I, CENIDL and POLYIDL, or the right ones if it's turned).
    pub fn left<C: Chart>(self, chart: &C) -> Option<Side>
        ensures { result ≡ option_map (λ c. c.left) (directed_chain (C.county chart.now) self) }
    {
        let place = self.place as usize;
        if self.turned {
            chart.right_at(place)
        } else {
            chart.left_at(place)
        }
    }

    /// Returns its right side (record type I, CENIDR and POLYIDR, or the left ones if it's turned).
    pub fn right<C: Chart>(self, chart: &C) -> Option<Side>
        ensures { result ≡ option_map (λ c. c.right) (directed_chain (C.county chart.now) self) }
    {
        let place = self.place as usize;
        if self.turned {
            chart.left_at(place)
        } else {
            chart.right_at(place)
        }
    }

    /// Returns its points (record types 1 and 2).
    pub fn points<'a, C: Chart>(self, chart: &'a C) -> ChainPoints<'a, C>
        ensures { ⟦<ChainPoints<'a, C> as Listed>⟧.items result ≡ points_of (directed_chain (C.county chart.now) self) }
    {
        ChainPoints {
            chart,
            place: self.place as usize,
            turned: self.turned,
        }
    }

    /// Returns its further address ranges (record type 6).
    pub fn ranges<'a, C: Chart>(self, chart: &'a C) -> ChainRanges<'a, C>
        ensures { ⟦<ChainRanges<'a, C> as Listed>⟧.items result ≡ ranges_of (directed_chain (C.county chart.now) self) }
    {
        ChainRanges {
            chart,
            place: self.place as usize,
            turned: self.turned,
        }
    }

    /// Returns the FEATs of its further names (record type 4), which are the same in both directions.
    pub fn feats<'a, C: Chart>(self, chart: &'a C) -> ChainFeats<'a, C>
        ensures { ⟦<ChainFeats<'a, C> as Listed>⟧.items result ≡ feats_of (directed_chain (C.county chart.now) self) }
    {
        ChainFeats {
            chart,
            place: self.place as usize,
        }
    }
}

/// The points of the chain at a place, from its start node, or turned, from its end node.
#[derive(Drop)]
pub struct ChainPoints<'a, C> {
    /// The county.
    pub chart: &'a C,
    /// The chain's place in the ascending list of TLIDs, counted from 0.
    pub place: usize,
    /// Whether the chain is turned.
    pub turned: bool,
}

impl<'a, C: Chart> Listed for ChainPoints<'a, C> {
    ghost use Rattle.county_chart.specs.ChartWords.{points_of};
    ghost use Rattle.county_chart.specs.DirectedChains.{chain_towards};

    type Item = Point;

    ghost items = { λ l. points_of (chain_towards (C.county l.chart.now) l.place l.turned) };

    fn count(&self) -> usize {
        self.chart.point_count_at(self.place)
    }

    fn item(&self, place: usize) -> Point {
        if !self.turned {
            return self.chart.point_there(self.place, place);
        }
        let count = self.chart.point_count_at(self.place);
        self.chart.point_there(self.place, count - 1 - place)
    }
}

/// The further address ranges of the chain at a place, each turned if the chain is.
#[derive(Drop)]
pub struct ChainRanges<'a, C> {
    /// The county.
    pub chart: &'a C,
    /// The chain's place in the ascending list of TLIDs, counted from 0.
    pub place: usize,
    /// Whether the chain is turned.
    pub turned: bool,
}

impl<'a, C: Chart> Listed for ChainRanges<'a, C> {
    ghost use Rattle.county_chart.specs.ChartWords.{ranges_of};
    ghost use Rattle.county_chart.specs.DirectedChains.{chain_towards};

    type Item = Ranges;

    ghost items = { λ l. ranges_of (chain_towards (C.county l.chart.now) l.place l.turned) };

    fn count(&self) -> usize {
        self.chart.range_count_at(self.place)
    }

    fn item(&self, place: usize) -> Ranges {
        let mut ranges = self.chart.range_there(self.place, place);
        if self.turned {
            ranges.turn();
        }
        ranges
    }
}

/// The FEATs of the further names of the chain at a place.
#[derive(Drop)]
pub struct ChainFeats<'a, C> {
    /// The county.
    pub chart: &'a C,
    /// The chain's place in the ascending list of TLIDs, counted from 0.
    pub place: usize,
}

impl<'a, C: Chart> Listed for ChainFeats<'a, C> {
    ghost use Rattle.county_chart.specs.ChartWords.{chain_at, feats_of};

    type Item = u32;

    ghost items = { λ l. feats_of (chain_at (C.county l.chart.now) l.place) };

    fn count(&self) -> usize {
        self.chart.feat_count_at(self.place)
    }

    fn item(&self, place: usize) -> u32 {
        self.chart.chain_feat_there(self.place, place)
    }
}
