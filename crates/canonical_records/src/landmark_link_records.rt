//! The records of the polygons of landmarks.

use arranged_county::{Arranged, Evidence};
use county_chart::Chart;
use record_groups::CountedGroups;
use tl_layout::Rec8;

/// The records of type 8 of all landmarks: the polygons that belong to them.
#[derive(Drop)]
pub struct LandmarkLinkRecords<'a, C: Chart, S: Evidence> {
    /// The county.
    pub county: &'a Arranged<C, S>,
}

impl<C: Chart, S: Evidence> CountedGroups for LandmarkLinkRecords<'_, C, S> {
    ghost use Rattle.record_groups.specs.CountyGroups.{type_8_together};
    ghost use Rattle.arranged_county.specs.Views.{arranged_county};

    type Record = Rec8;

    ghost counted = { λ g. type_8_together (arranged_county g.county.now) };

    fn group_count(&self) -> usize {
        1
    }

    fn record_count(&self, _group: usize) -> usize {
        self.county.links().len()
    }

    fn record_at(&self, _group: usize, place: usize) -> Rec8 {
        self.county.links()[place]
    }
}
