//! The records of a county in groups, one for each chain, name or landmark.
//!
//! A `RecordGroups` makes a record on request, from whatever chart the county is in. `visit_three` passes the records of three types to a
//! `RecordVisitor`. `compare_groups` compares records in groups by their text, without making it, and `are_same_groups` returns whether
//! they are the same. Nothing here takes memory.
#![tactic(auto)]

mod chain_records;
mod cursor;
mod group_order;
mod groups;
mod heads;
mod name_records;
mod same_groups;
mod type_1_order;
mod visitor;

pub use chain_records::{
    ChainRecords, NAMES_A_RECORD, SequencedRecord, SequencedRecords, TopologyRecords, items_from,
    sequence_number,
};
pub use group_order::{compare_groups, compare_records};
pub use groups::{CountedGroups, RecordGroups, read_heads, visit_three};
pub use heads::HeadBuffers;
pub use name_records::{LandmarkRecords, NameRecords};
pub use same_groups::{are_same_groups, have_same_chains};
pub use type_1_order::compare_ones;
pub use visitor::RecordVisitor;
