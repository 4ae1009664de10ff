//! The keys that order records, and each record's key.

use crate::keys::keyed::Keyed;
use ordered_lists::Key;
use tl_layout::{Point, Rec1, Rec2, Rec4, Rec5, Rec6, Rec7, Rec8, RecI, RecP};

/// The key of a polygon: its CENID, of 5 bytes, and its POLYID under that CENID.
pub type PolygonKey = ([u8; 5], u64);

/// Returns a number that mostly orders polygons as their keys do: CENID, and in the 24 bits below it POLYID, or the greatest number that
/// fits.
pub fn polygon_number(key: PolygonKey) -> u64 {
    let [first, second, third, fourth, fifth] = key.0;
    let cenid = u64::from_be_bytes([first, second, third, fourth, fifth, 0, 0, 0]);
    cenid | key.1.min(0xff_ffff)
}

/// By TLID.
impl Keyed<u64> for Rec1 {
    ghost use Rattle.county_chart.specs.County.{one_tlid};

    ghost key_of = { one_tlid };

    fn key(&self) -> u64 {
        self.tlid()
    }
}

/// By TLID.
impl Keyed<u64> for Rec2 {
    ghost use Rattle.county_chart.specs.County.{two_tlid};

    ghost key_of = { two_tlid };

    fn key(&self) -> u64 {
        self.tlid()
    }
}

/// By TLID, then RTSQ.
impl Keyed<(u64, u16)> for Rec2 {
    ghost use Rattle.county_chart.specs.SequenceKeys.{two_sequence};

    ghost key_of = { two_sequence };

    fn key(&self) -> (u64, u16) {
        (self.tlid(), self.rtsq())
    }
}

/// By TLID.
impl Keyed<u64> for Rec4 {
    ghost use Rattle.county_chart.specs.County.{four_tlid};

    ghost key_of = { four_tlid };

    fn key(&self) -> u64 {
        self.tlid()
    }
}

/// By TLID, then RTSQ.
impl Keyed<(u64, u16)> for Rec4 {
    ghost use Rattle.county_chart.specs.SequenceKeys.{four_sequence};

    ghost key_of = { four_sequence };

    fn key(&self) -> (u64, u16) {
        (self.tlid(), self.rtsq())
    }
}

/// By FEAT.
impl Keyed<u32> for Rec5 {
    ghost use Rattle.county_chart.specs.County.{five_feat};

    ghost key_of = { five_feat };

    fn key(&self) -> u32 {
        self.feat()
    }
}

/// By TLID.
impl Keyed<u64> for Rec6 {
    ghost use Rattle.county_chart.specs.County.{six_tlid};

    ghost key_of = { six_tlid };

    fn key(&self) -> u64 {
        self.tlid()
    }
}

/// By TLID, then RTSQ.
impl Keyed<(u64, u16)> for Rec6 {
    ghost use Rattle.county_chart.specs.SequenceKeys.{six_sequence};

    ghost key_of = { six_sequence };

    fn key(&self) -> (u64, u16) {
        (self.tlid(), self.rtsq())
    }
}

/// By LAND.
impl Keyed<u64> for Rec7 {
    ghost use Rattle.county_chart.specs.County.{seven_land};

    ghost key_of = { seven_land };

    fn key(&self) -> u64 {
        self.land()
    }
}

/// By LAND.
impl Keyed<u64> for Rec8 {
    ghost use Rattle.county_chart.specs.County.{eight_land};

    ghost key_of = { eight_land };

    fn key(&self) -> u64 {
        self.land()
    }
}

/// By TLID.
impl Keyed<u64> for RecI {
    ghost use Rattle.county_chart.specs.County.{i_tlid};

    ghost key_of = { i_tlid };

    fn key(&self) -> u64 {
        self.tlid()
    }
}

/// By the polygon's key.
impl Keyed<PolygonKey> for Rec8 {
    ghost use Rattle.county_chart.specs.County.{link_key};

    ghost key_of = { link_key };

    fn key(&self) -> PolygonKey {
        (self.cenid(), self.polyid())
    }
}

/// By the polygon's key.
impl Keyed<PolygonKey> for RecP {
    ghost use Rattle.county_chart.specs.County.{p_key};

    ghost key_of = { p_key };

    fn key(&self) -> PolygonKey {
        (self.cenid(), self.polyid())
    }
}

/// A key is its own key.
impl<K: Key> Keyed<K> for K {
    ghost key_of = { λ key. key };

    fn key(&self) -> K {
        *self
    }
}

/// The fields of a landmark's link in the order of comparison: LAND, POLYID, CENID, FILE.
pub type LinkKey = (u64, (u64, ([u8; 5], [u8; 5])));

/// By LAND, POLYID, CENID, FILE.
impl Keyed<LinkKey> for Rec8 {
    ghost use Rattle.county_chart.specs.SequenceKeys.{link_sequence};

    ghost key_of = { link_sequence };

    fn key(&self) -> LinkKey {
        let ids = (self.cenid(), self.file());
        (self.land(), (self.polyid(), ids))
    }
}

/// The fields of a landmark in the order of comparison: LAND, FILE, SOURCE, CFCC, LANAME, the point.
pub type LandmarkKey = (
    u64,
    ([u8; 5], ([u8; 1], ([u8; 3], ([u8; 30], Option<Point>)))),
);

/// By LAND, FILE, SOURCE, CFCC, LANAME, the point; no point comes before any point.
impl Keyed<LandmarkKey> for Rec7 {
    ghost use Rattle.county_chart.specs.SequenceKeys.{landmark_sequence};

    ghost key_of = { landmark_sequence };

    fn key(&self) -> LandmarkKey {
        let body = self.body();
        let name = (*body.laname.as_bytes(), body.point);
        let codes = (*body.source.as_bytes(), (*body.cfcc.as_bytes(), name));
        (self.land(), (*body.file.as_bytes(), codes))
    }
}
