//! The order of landmark contents.

ghost use Rattle.std.specs.Prelude.{◌≡◌};
ghost use Rattle.county_chart.specs.BodyOrder.{landmark_body_cmp};

use std::cmp::Ordering;
use tl_layout::{Body7, Point};

/// The fields of a landmark's content in the order of comparison: FILE, SOURCE, CFCC, LANAME, the point.
type LandmarkFields = ([u8; 5], ([u8; 1], ([u8; 3], ([u8; 30], Option<Point>))));

/// Returns the fields of a landmark's content, in the order of comparison.
fn landmark_fields(body: &Body7) -> LandmarkFields
    ensures { result ≡ (body.now.file, (body.now.source, (body.now.cfcc, (body.now.laname, body.now.point)))) }
{
    let file = body.file();
    let source = body.source();
    let cfcc = body.cfcc();
    let laname = body.laname();
    (file, (source, (cfcc, (laname, body.point()))))
}

/// Compares the contents of two landmarks (record type 7): by FILE, SOURCE, CFCC and LANAME as bytes, then by the point. No point
/// comes before any point.
pub fn cmp_landmark_bodies(a: &Body7, b: &Body7) -> Ordering
    ensures { result ≡ landmark_body_cmp a.now b.now }
{
    landmark_fields(a).cmp(&landmark_fields(b))
}
