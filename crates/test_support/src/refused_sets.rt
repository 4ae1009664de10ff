//! Sets that are rejected, one for each of the refusals 1 to 6, 11 to 20, 23 and 24. Refusal 7 needs 20,000,001 records.

use crate::sets::SetLines;
use crate::worked_sets::{CHAIN, LINK, SIDES};
use std::alloc::{AllocError, Global};

/// Main St without a start.
const STARTLESS: &str =
    "1{11}500{1}A{2}Main{26}St{4}A41{132}+000000000+00000000{1}-86468545+32424948";

/// A polygon, and one of a landmark.
const POINT: &str = "P{4}0100100001{8}12";

const POLYGON: &str = "8{4}0100100001{8}12{8}30";

/// Six chains from a point to the same point, which leave more choices than are tried.
const TOO_SYMMETRIC: &[&str] = &[
    "1{13}1{183}+2{7}+1{8}+2{7}+1",
    "I{18}1",
    "1{13}2{183}+2{7}+1{8}+2{7}+1",
    "I{18}2",
    "1{13}3{183}+2{7}+1{8}+2{7}+1",
    "I{18}3",
    "1{13}4{183}+2{7}+1{8}+2{7}+1",
    "I{18}4",
    "1{13}5{183}+2{7}+1{8}+2{7}+1",
    "I{18}5",
    "1{13}6{183}+2{7}+1{8}+2{7}+1",
    "I{18}6",
];

/// The line of the refusal, without its first word, and a set that is rejected for it.
pub type Refused = (&'static str, &'static [&'static str]);

/// Returns sets with a faulty line.
pub fn of_lines() -> [Refused; 7] {
    [
        ("1 UnknownType 1 3", &[CHAIN, LINK, "A"]),
        (
            "2 LineTooLong 1 2",
            &[CHAIN, "I{4}01001{7}500{8}11{8}1200001{8}1200002{8}12{58}"],
        ),
        ("3 BadByte 1 1 3", &["1{1}\u{1a}{8}12 4", LINK]),
        ("4 BadNumber 1 1 6", &["1{10}12 4", LINK]),
        ("4 BadNumber 1 3 16", &[CHAIN, LINK, "4{11}500000{15}8"]),
        ("5 BadPoint 1 1 191", &[STARTLESS, LINK]),
        ("6 GapInRecord 1 3 27", &[CHAIN, LINK, "4{11}500{2}1{15}8"]),
    ]
}

/// Returns sets whose records don't fit together.
pub fn of_rules() -> [Refused; 10] {
    [
        ("11 ChainTwice 500", &[CHAIN, CHAIN]),
        (
            "12 NoChain 2 600",
            &[CHAIN, LINK, "6{11}501{2}1", "2{11}600{2}1"],
        ),
        (
            "13 SequenceBroken 2 500",
            &[
                CHAIN,
                LINK,
                "4{11}500{2}1{7}8",
                "2{11}500{2}1{1}-86468659+32424915",
                "2{11}500{2}1{1}-86468649+32424916",
            ],
        ),
        ("14 LinkMissing 500", &[CHAIN]),
        ("15 LinkTwice 500", &[CHAIN, LINK, LINK]),
        ("16 NameTwice 8", &[CHAIN, LINK, "5{16}8", "5{16}8"]),
        ("17 NameUnknown 500 8", &[CHAIN, LINK, "4{11}500{2}1{7}8"]),
        (
            "18 PolygonTwice 3030303031 12",
            &[CHAIN, SIDES, POINT, POINT],
        ),
        ("19 LandUnknown 30", &[CHAIN, LINK, POLYGON]),
        (
            "20 PolygonUnknown 3030303031 12",
            &[CHAIN, LINK, "7{4}01001{8}30", POLYGON],
        ),
    ]
}

/// Returns sets whose county is outside the profile.
pub fn of_clauses() -> [Refused; 2] {
    [
        (
            "23 PolygonWithoutChain 3030303031 12",
            &[CHAIN, LINK, POINT, "7{4}01001{8}30", POLYGON],
        ),
        ("24 TooSymmetric", TOO_SYMMETRIC),
    ]
}

/// Returns the sets of this table.
///
/// # Errors
///
/// `AllocError` if an allocation failed.
pub fn refused_sets(alloc: Global, rows: &[Refused]) -> Result<Vec<SetLines>, AllocError> {
    let mut sets = Vec::new(alloc);
    for (row, lines) in rows {
        sets.push(SetLines::of(alloc, &(*row, *lines, &[]))?)?;
    }
    Ok(sets)
}
