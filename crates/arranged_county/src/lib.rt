//! A county in a chosen order and chosen directions of its chains, with all numbers that follow.
//!
//! Start with `arrange`, which makes an `Arranged`, a `Chart` that is read through its source county. `Arranged::renaming` returns the
//! renaming that leads to an arranged county, and a `CanonCounty` is one that is known to be canonical. An `Interner` numbers keys by
//! first appearance. To arrange a county in many ways, make its `Classes` once, and call `arrange_in_classes`.
#![tactic(auto)]

mod arranged;
mod arranged_chart;
mod arranged_tables;
mod arranging;
mod canon_county;
mod content_classes;
mod directed_readers;
mod first_appearance;
mod landmark_contents;
mod landmark_links;
mod landmark_order;
mod name_contents;
mod name_order;
mod number_pairs;
mod numbers;
mod other_places;
mod pairing;
mod polygon_order;
mod renumbering;
mod slots;

pub use arranged::{Arranged, Evidence, Unknown};
pub use arranged_tables::{Ends, LandmarkTables, NameTables, NodeTables, PolygonTables, Sides};
pub use arranging::{arrange, arrange_in_classes, with_evidence};
pub use canon_county::{CanonCounty, CanonCountyIn, Canonical};
pub use content_classes::Classes;
pub use first_appearance::{Half, topologies_along};
pub use numbers::{Interner, NumericKey, marks_for};
pub use pairing::{both, if_done};
