//! Passing the records of an arranged county to a visitor, in the order of its packing.

ghost use Rattle.std.specs.Prelude.{OnOk};
ghost use Rattle.county_chart.specs.Packing.{packed};
ghost use Rattle.arranged_county.specs.Views.{arranged_county};

use crate::landmark_link_records::LandmarkLinkRecords;
use crate::polygon_records::PolygonRecords;
use arranged_county::{Arranged, Evidence};
use county_chart::Chart;
use record_groups::{
    ChainRecords, HeadBuffers, LandmarkRecords, NameRecords, RecordVisitor, SequencedRecords,
    TopologyRecords, visit_three,
};
use std::marker::PhantomData;
use tl_layout::{Rec2, Rec4, Rec6};

/// Passes all records of an arranged county to the visitor, type after type.
///
/// # Errors
///
/// The visitor's fault. No record after it is passed.
pub fn visit_records<D, C: Chart, S: Evidence, T: RecordVisitor<D>>(
    county: &Arranged<C, S>,
    visitor: &mut T,
    device: &mut D,
) -> Result<(), T::Fault>
    requires { T.IsReady visitor.old device.old }
    ensures given { T.Takes (packed (arranged_county county.now)) visitor.old device.old result visitor.new device.new }
    ensures ready { OnOk result (T.IsReady visitor.new device.new) }
{
    let mut buffers = HeadBuffers::new();
    let chains = ChainRecords { chart: county };
    let shapes = SequencedRecords::<_, Rec2> {
        chart: county,
        records: PhantomData,
    };
    let feats = SequencedRecords::<_, Rec4> {
        chart: county,
        records: PhantomData,
    };
    visit_three(&chains, &shapes, &feats, &mut buffers, visitor, device)?;
    let names = NameRecords { chart: county };
    let ranges = SequencedRecords::<_, Rec6> {
        chart: county,
        records: PhantomData,
    };
    let landmarks = LandmarkRecords { chart: county };
    visit_three(&names, &ranges, &landmarks, &mut buffers, visitor, device)?;
    let links = LandmarkLinkRecords { county };
    let topology = TopologyRecords { chart: county };
    let polygons = PolygonRecords { county };
    visit_three(&links, &topology, &polygons, &mut buffers, visitor, device)
}
