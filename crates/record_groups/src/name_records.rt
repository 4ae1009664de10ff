//! The records of a county's names and landmarks.

use crate::groups::CountedGroups;
use county_chart::Chart;
use tl_layout::{Rec5, Rec7};

/// The type 5 record of each name.
#[derive(Drop)]
pub struct NameRecords<'a, C: Chart> {
    /// The county.
    pub chart: &'a C,
}

impl<C: Chart> CountedGroups for NameRecords<'_, C> {
    ghost use Rattle.record_groups.specs.CountyGroups.{type_5_by_name};

    type Record = Rec5;

    ghost counted = { λ g. type_5_by_name (C.county g.chart.now) };

    fn group_count(&self) -> usize {
        self.chart.name_count()
    }

    fn record_count(&self, _group: usize) -> usize {
        1
    }

    fn record_at(&self, group: usize, _place: usize) -> Rec5 {
        Rec5::new(
            self.chart.feat_there(group),
            self.chart.name_body_there(group),
        )
    }
}

/// The type 7 records of each landmark.
#[derive(Drop)]
pub struct LandmarkRecords<'a, C: Chart> {
    /// The county.
    pub chart: &'a C,
}

impl<C: Chart> CountedGroups for LandmarkRecords<'_, C> {
    ghost use Rattle.record_groups.specs.CountyGroups.{type_7_by_landmark};

    type Record = Rec7;

    ghost counted = { λ g. type_7_by_landmark (C.county g.chart.now) };

    fn group_count(&self) -> usize {
        self.chart.landmark_count()
    }

    fn record_count(&self, group: usize) -> usize {
        self.chart.body_count_at(group)
    }

    fn record_at(&self, group: usize, place: usize) -> Rec7 {
        Rec7::new(
            self.chart.land_there(group),
            self.chart.landmark_body_there(group, place),
        )
    }
}
