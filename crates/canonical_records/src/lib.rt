//! The records of an arranged county, in the order of its packing.
//!
//! To get them, implement `RecordVisitor`, to which `visit_records` passes them one after another; or read the records of one type
//! from a `RecordGroups`, group by group. `same_records` compares the records of two canonical counties. Nothing here takes memory.
#![tactic(auto)]

mod landmark_link_records;
mod polygon_records;
mod sameness;
mod visiting;

pub use landmark_link_records::LandmarkLinkRecords;
pub use polygon_records::PolygonRecords;
pub use record_groups::{
    ChainRecords, CountedGroups, HeadBuffers, LandmarkRecords, NameRecords, RecordGroups,
    RecordVisitor, SequencedRecord, SequencedRecords, TopologyRecords, read_heads,
};
pub use sameness::same_records;
pub use visiting::visit_records;
