//! One county: what the map is that a list of records describes, and how a county is read, however it is stored.
//!
//! The definitions of counties, of the rules for records that fit together, of renamings and of the profile are in `specs/`;
//! `tl_county` links records to a county, and `tl_profile` checks the profile. A county is read by the calls of `Chart`: by place
//! (`tlid_at`), by number (`chain_body_of`), and at a place that is known to exist (`tlid_there`). To store a county another way, implement `Chart`, or a `StoredChain` for a county in
//! tables. `County` and `CountyIn` are such counties, `Masked` is a county under a mask, and a
//! `DirectedChain` reads a chain from either end.
#![tactic(auto)]

mod body_order;
mod chart;
mod chart_lists;
mod directed_chain;
mod fault;
mod joined_lists;
mod keys;
mod lent_chart;
mod listed;
mod masked;
mod masked_bodies;
mod open_place;
mod profile_fault;
mod same;
mod stored;

pub use body_order::cmp_landmark_bodies;
pub use chart::Chart;
pub use chart_lists::{Feats, LandmarkBodies, Lands, Nodes, Polygons, Tlids};
pub use directed_chain::{ChainFeats, ChainPoints, ChainRanges, DirectedChain};
pub use fault::{LinkFault, LinkedType, SequencedType};
pub use keys::keyed::{Keyed, are_in_order, least_unknown, sort_by_keys, split_group};
pub use keys::record_keys::{LandmarkKey, LinkKey, PolygonKey, polygon_number};
pub use lent_chart::Lent;
pub use listed::{Listed, Tested, all_hold, are_same, compare, push_all};
pub use masked::Masked;
pub use open_place::OpenPlace;
pub use profile_fault::ProfileFault;
pub use same::Same;
pub use stored::landmark::Landmark;
pub use stored::lent::{LandmarkIn, NameIn};
pub use stored::storage::{StoredChain, StoredLandmark, StoredName};
pub use stored::table::Table;
pub use stored::{County, CountyIn, StoredCounty};
