//! Masks, records with fields that masks leave out, and sets in which such a field decides an order.

use crate::sets::{Row, SetLines, sets_of};
use crate::twin_sets::{OF_TWO_SOURCES, OF_TWO_SOURCES_TEXT, twins};
use crate::worked_sets::{CHAIN, CHAIN_1, LINK, LINK_1, types};
use std::alloc::{AllocError, Global};
use tl_layout::{Blank, Mask, Record};

/// The mask that leaves out the sources.
pub const SOURCES: Mask = Mask {
    sources: true,
    reserved: false,
};

/// The mask that leaves out the reserved fields.
pub const RESERVED: Mask = Mask {
    sources: false,
    reserved: true,
};

/// The mask that leaves out everything that masks can leave out.
pub const BOTH: Mask = Mask {
    sources: true,
    reserved: true,
};

/// Returns records of the types with fields that masks leave out.
pub fn plain() -> &'static [&'static str] {
    &[
        "12006{7}5001AN Main{26}St{2}SWA41{8}101{8}199{8}100{8}198678936003360067000170002LR45012800105190001900028000180002600016000202020002030010012002-086468669+32424914-086468545+32424948",
        "7200601001{8}40AD43Barn{26}-086468669+32424914",
        "I200601001{7}500{8}11{8}1200001{8}1300002{8}14Bureau{20}9{9}6{9}7{9}8",
    ]
}

/// Returns the same records without these fields.
pub fn without_either() -> &'static [&'static str] {
    &[
        "12006{7}5001{1}N Main{26}St{2}SWA41{8}101{8}199{8}100{8}198678936003360067000170002LR{2}012800105190001900028000180002600016000202020002030010012002-086468669+32424914-086468545+32424948",
        "7200601001{8}40{1}D43Barn{26}-086468669+32424914",
        "I200601001{7}500{8}11{8}1200001{8}1300002{8}14{26}9",
    ]
}

/// Whether the first content under the mask is the second one.
fn is_blanked<B: Blank + PartialEq + Copy>(body: &B, mask: Mask, other: &B) -> bool {
    let mut body = *body;
    body.blank(mask);
    body == *other
}

/// Whether the first record's content under the mask is the second record's content.
fn is_masked(record: &Record, mask: Mask, other: &Record) -> bool {
    match (record, other) {
        (Record::One(record), Record::One(other)) => is_blanked(record.body(), mask, other.body()),
        (Record::Seven(record), Record::Seven(other)) => {
            is_blanked(record.body(), mask, other.body())
        }
        (Record::I(record), Record::I(other)) => is_blanked(record.body(), mask, other.body()),
        _ => false,
    }
}

/// Checks whether the first records have, under the mask, the contents of the others.
pub fn are_masked(records: &[Record], others: &[Record], mask: Mask) -> bool {
    records
        .iter()
        .zip(others.iter())
        .all(|(record, other)| is_masked(record, mask, other))
}

/// Two contents of one landmark, which change places if their SOURCE is left out.
pub const ANNEX_AND_BARN: &[&str] = &[
    CHAIN,
    LINK,
    "7200601001{8}40BD43Annex{45}",
    "7200601001{8}40AD43Barn{46}",
];

/// The canonical text of that set.
pub const BARN_FIRST: &[&str] = &[
    CHAIN_1,
    "7200601001{9}1AD43Barn{46}",
    "7200601001{9}1BD43Annex{45}",
    LINK_1,
];

/// Sets in which the fields that a mask leaves out decide the order of a landmark's contents and of two chains.
fn decided() -> [Row; 2] {
    [
        ("contents of two sources", ANNEX_AND_BARN, BARN_FIRST),
        ("chains of two sources", OF_TWO_SOURCES, OF_TWO_SOURCES_TEXT),
    ]
}

/// Returns each mask, with its name in the printed lines.
pub fn masks() -> [(&'static str, Mask); 3] {
    [
        (" without sources", SOURCES),
        (" without reserved fields", RESERVED),
        (" without either", BOTH),
    ]
}

/// Returns sets with records of each type and with all fields that masks leave out, twins, and sets in which such a field decides an order.
///
/// # Errors
///
/// `AllocError` if an allocation failed.
pub fn sets_for_masks(alloc: Global) -> Result<Vec<SetLines>, AllocError> {
    sets_of(alloc, &[&types(), &twins(), &decided()])
}
