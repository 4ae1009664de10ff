//! A county under a mask as a chart.
//!
//! The fields that a mask leaves out are blanked as they are read, and the county itself isn't changed. Only the contents of landmarks
//! are copied, and only if SOURCE is left out, because SOURCE is one of the fields that they are sorted by.

ghost use Rattle.std.specs.Prelude.{IfErr, IfOk, true, ◌≡◌};
ghost use Rattle.county_chart.specs.Laws.MaskedCounties.{masked_is_county};
ghost use Rattle.county_chart.specs.Laws.MaskedLimits.{masked_within_limits};
ghost use Rattle.tl_layout.specs.Limits.{most_records};
ghost use Rattle.county_chart.specs.MaskedCounty.{masked};
ghost use Rattle.county_chart.specs.MaskedProps.{MatchesBodies-prop};
ghost use Rattle.county_chart.specs.MaskedTables.{MatchesBodies};

use crate::chart::Chart;
use crate::joined_lists::JoinedLists;
use crate::keys::record_keys::PolygonKey;
use crate::masked_bodies::masked_lists;
use std::alloc::{AllocError, Global};
use tl_layout::{Blank, Body1, Body5, Body7, BodyI, BodyP, Mask, Point, Ranges, Rec8, Side};

/// A county under a mask: a chart where the fields that the mask leaves out are blank, and each landmark's contents are in the order that
/// they have then. Everything else is as in the chart that it was made from.
#[derive(Drop)]
pub struct Masked<C: Chart> {
    chart: C,
    mask: Mask,
    bodies: JoinedLists<Body7>,
    ghost stated: { MatchesBodies mask (C.county chart) bodies } by { MatchesBodies-prop mask (C.county chart) bodies },
}

/// Returns a content under a mask.
fn content_masked<B: Blank + Copy>(content: B, mask: Mask) -> B
    ensures { result ≡ B.masked mask content }
{
    let mut content = content;
    content.blank(mask);
    content
}

impl<C: Chart + Drop> Masked<C> {
    /// Makes the county of a chart under a mask. If the mask leaves out SOURCE, the contents of landmarks are copied, blanked and sorted.
    /// Otherwise the call allocates nothing and doesn't fail.
    ///
    /// # Errors
    ///
    /// `AllocError` if an allocation failed.
    pub fn new(alloc: Global, chart: C, mask: Mask) -> Result<Masked<C>, AllocError>
        ensures county { IfOk result (λ m. ⟦<Masked<C> as Chart>⟧.county m ≡ masked mask (C.county chart)) }
        ensures memory { IfErr result (λ error. mask.sources ≡ true) }
    {
        let bodies = if mask.sources {
            masked_lists(alloc, &chart, mask)?
        } else {
            JoinedLists::new(alloc)
        };
        Ok(Masked {
            chart,
            mask,
            bodies,
        })
    }
}

/// The county of the chart that it was made from, under the mask.
#[tactic(auto, using(crate::proofs::Masks::MaskedReads::masked_reads))]
impl<C: Chart> Chart for Masked<C> {
    ghost county = { λ m. masked m.mask (C.county m.chart) };

    fn chain_count(&self) -> usize {
        self.chart.chain_count()
    }

    fn tlid_there(&self, place: usize) -> u64 {
        self.chart.tlid_there(place)
    }

    fn chain_place(&self, tlid: u64) -> Option<usize> {
        self.chart.chain_place(tlid)
    }

    fn name_count(&self) -> usize {
        self.chart.name_count()
    }

    fn feat_there(&self, place: usize) -> u32 {
        self.chart.feat_there(place)
    }

    fn name_place(&self, feat: u32) -> Option<usize> {
        self.chart.name_place(feat)
    }

    fn polygon_count(&self) -> usize {
        self.chart.polygon_count()
    }

    fn polygon_key_there(&self, place: usize) -> PolygonKey {
        self.chart.polygon_key_there(place)
    }

    fn polygon_place(&self, key: PolygonKey) -> Option<usize> {
        self.chart.polygon_place(key)
    }

    fn landmark_count(&self) -> usize {
        self.chart.landmark_count()
    }

    fn land_there(&self, place: usize) -> u64 {
        self.chart.land_there(place)
    }

    fn landmark_place(&self, land: u64) -> Option<usize> {
        self.chart.landmark_place(land)
    }

    fn node_count(&self) -> usize {
        self.chart.node_count()
    }

    fn node_there(&self, place: usize) -> u64 {
        self.chart.node_there(place)
    }

    fn node_place(&self, node: u64) -> Option<usize> {
        self.chart.node_place(node)
    }

    fn chain_body_there(&self, place: usize) -> Body1 {
        content_masked(self.chart.chain_body_there(place), self.mask)
    }

    fn chain_byte(&self, place: usize) -> u8 {
        self.chart.chain_byte(place)
    }

    fn point_count_there(&self, place: usize) -> usize {
        self.chart.point_count_there(place)
    }

    fn point_there(&self, place: usize, point: usize) -> Point {
        self.chart.point_there(place, point)
    }

    fn feat_count_there(&self, place: usize) -> usize {
        self.chart.feat_count_there(place)
    }

    fn chain_feat_there(&self, place: usize, name: usize) -> u32 {
        self.chart.chain_feat_there(place, name)
    }

    fn range_count_there(&self, place: usize) -> usize {
        self.chart.range_count_there(place)
    }

    fn range_there(&self, place: usize, range: usize) -> Ranges {
        self.chart.range_there(place, range)
    }

    fn topology_there(&self, place: usize) -> BodyI {
        content_masked(self.chart.topology_there(place), self.mask)
    }

    fn ends_there(&self, place: usize) -> (Option<u64>, Option<u64>) {
        self.chart.ends_there(place)
    }

    fn sides_there(&self, place: usize) -> (Side, Side) {
        self.chart.sides_there(place)
    }

    fn name_body_there(&self, place: usize) -> Body5 {
        self.chart.name_body_there(place)
    }

    fn polygon_body_there(&self, place: usize) -> Option<BodyP> {
        self.chart.polygon_body_there(place)
    }

    fn body_count_there(&self, place: usize) -> usize {
        self.chart.body_count_there(place)
    }

    fn landmark_body_there(&self, place: usize, body: usize) -> Body7 {
        if self.mask.sources {
            self.bodies.at(place)[body]
        } else {
            self.chart.landmark_body_there(place, body)
        }
    }

    fn link_count_there(&self, place: usize) -> usize {
        self.chart.link_count_there(place)
    }

    fn landmark_link_there(&self, place: usize, link: usize) -> Rec8 {
        self.chart.landmark_link_there(place, link)
    }

    ghost is_county = { λ m. masked_is_county m.mask (C.county m.chart) (C.is_county m.chart) };

    ghost within_limits = { λ m. masked_within_limits m.mask most_records (C.county m.chart) (C.within_limits m.chart) };
}
