//! The records of a county's polygons.

use arranged_county::{Arranged, Evidence};
use county_chart::{Chart, PolygonKey};
use record_groups::{HeadBuffers, RecordGroups};
use tl_layout::{BodyP, RecP};

/// The type P record of each polygon that has one, in the order of the polygons' numbers.
#[derive(Drop)]
pub struct PolygonRecords<'a, C: Chart, S: Evidence> {
    /// The county.
    pub county: &'a Arranged<C, S>,
}

impl<C: Chart, S: Evidence> RecordGroups for PolygonRecords<'_, C, S> {
    ghost use Rattle.record_groups.specs.CountyGroups.{IsPolygonAt, type_p_by_number};
    ghost use Rattle.arranged_county.specs.Views.{arranged_county};

    type Item = RecP;

    type Head = (PolygonKey, Option<BodyP>);

    ghost groups = { λ g. type_p_by_number (arranged_county g.county.now) };

    ghost IsHead = { λ g. IsPolygonAt (arranged_county g.county.now) };

    fn count(&self) -> usize {
        self.county.polygon_count()
    }

    fn buffer(buffers: &mut HeadBuffers) -> &mut [(PolygonKey, Option<BodyP>)] {
        let polygons = &mut buffers.polygons;
        &mut polygons[..]
    }

    fn head(&self, group: usize) -> (PolygonKey, Option<BodyP>) {
        self.county.polygon_by_number(group)
    }

    fn count_in(&self, _group: usize, head: (PolygonKey, Option<BodyP>)) -> usize {
        match head.1 {
            Some(_) => 1,
            None => 0,
        }
    }

    fn record(&self, _group: usize, head: (PolygonKey, Option<BodyP>), _place: usize) -> RecP {
        let (key, body) = head;
        RecP::new(key.0, key.1, body.unwrap())
    }
}
