//! Worked sets, each a list of patterns of lines. The texts were worked out manually from the rules of the canonical form.
//!
//! Trick: functions return the tables of tests. The prover knows the content of a constant wherever it is named, which makes the proof
//! there long. The proof of a table grows as the square of its length, so several short tables are faster than one long one.

use crate::masks::plain;
use crate::sets::{Row, SetLines, sets_of};
use crate::twin_sets::{groups, twins};
use std::alloc::{AllocError, Global};

/// The chain of Main St: its line of record type 1.
pub const CHAIN: &str =
    "1{11}500{1}A{2}Main{26}St{4}A41{8}101{8}199{8}100{8}19801{2}3600336006{14}0101001001{30}02020002030010012002{1}-86468669+32424914{1}-86468545+32424948";

/// The line of record type I of that chain.
pub const LINK: &str = "I{4}01001{7}500{8}11{8}12{87}";

/// Both lines in canonical spelling.
const CHAIN_RESPELT: &str =
    "12006{7}500{1}A{2}Main{26}St{4}A41{8}101{8}199{8}100{8}19801{2}3600336006{14}0101001001{30}02020002030010012002-086468669+32424914-086468545+32424948";

const LINK_RESPELT: &str = "I200601001{7}500{8}11{8}12{87}";

/// Main St in canonical spelling, with its numbers.
pub const RESPELT: &[&str] = &[CHAIN_RESPELT, LINK_RESPELT];

/// The line of record type I of Main St between two polygons 12.
pub const SIDES: &str = "I{4}01001{7}500{8}11{8}1200001{8}1200002{8}12";

/// The chain of Main St seen from its other end, with the TLID 77.
const TURNED: &str =
    "10306{8}77{1}A{2}Main{26}St{4}A41{8}198{8}100{8}199{8}101{2}103600636003{14}0101001001{30}02030002020020021001{1}-86468545+32424948{1}-86468669+32424914";

/// The line of record type I of that chain.
const TURNED_LINK: &str = "I{4}01001{8}77{9}6{9}5";

/// Two names with the same content.
const OLD_MILL_8: &str = "5{4}01001{7}8{2}Old{1}Mill{22}Rd";

const OLD_MILL_9: &str = "5{4}01001{7}9{2}Old{1}Mill{22}Rd";

/// Main St.
pub const MAIN: &[&str] = &[CHAIN, LINK];

/// Main St from its other end.
pub const MAIN_TURNED: &[&str] = &[TURNED, TURNED_LINK];

/// The chain of Main St from its other end with two of its addresses exchanged, so that the numbers on its right are exchanged.
const OTHER_CHAIN: &str =
    "10306{8}77{1}A{2}Main{26}St{4}A41{8}100{8}198{8}199{8}101{2}103600636003{14}0101001001{30}02030002020020021001{1}-86468545+32424948{1}-86468669+32424914";

/// Main St from its other end with these addresses.
pub const OTHER_ADDRESSES: &[&str] = &[OTHER_CHAIN, TURNED_LINK];

/// Eleven shape points in two records, the later one first.
const SHAPED: &[&str] = &[
    "2{12}77{2}2{1}-86468659+32424915",
    TURNED,
    TURNED_LINK,
    "2{12}77{2}1{1}-86468559+32424925{1}-86468569+32424924{1}-86468579+32424923{1}-86468589+32424922{1}-86468599+32424921{1}-86468609+32424920{1}-86468619+32424919{1}-86468629+32424918{1}-86468639+32424917{1}-86468649+32424916",
];

/// The same points from the chain's start on, in other records, under sequence numbers with gaps.
const SHAPED_OTHERWISE: &[&str] = &[
    CHAIN,
    LINK,
    "2{11}500{2}2{1}-86468659+32424915{1}-86468649+32424916{1}-86468639+32424917{1}-86468629+32424918{1}-86468619+32424919{1}-86468609+32424920",
    "2{11}500{2}5{1}-86468599+32424921{1}-86468589+32424922{1}-86468579+32424923{1}-86468569+32424924{1}-86468559+32424925",
];

/// A chain that ends where it starts, and comes back another way.
const LOOP: &[&str] = &[
    "1{11}500{1}A{2}Main{26}St{4}A41{8}101{8}199{8}100{8}19801{2}3600336006{14}0101001001{30}02020002030010012002{1}-86468669+32424914{1}-86468669+32424914",
    "I{4}01001{7}500{8}11{8}11{87}",
    "2{11}500{2}1{1}-86468600+32424990{1}-86468600+32424900",
];

/// A chain between two polygons with the same number.
pub const SIDED: &[&str] = &[CHAIN, SIDES];

/// Two names with one content, both used.
pub const NAMED: &[&str] = &[CHAIN, LINK, OLD_MILL_8, OLD_MILL_9, "4{11}500{2}1{7}8{7}9"];

/// The same names in the other order.
pub const NAMED_BACKWARDS: &[&str] = &[CHAIN, LINK, OLD_MILL_8, OLD_MILL_9, "4{11}500{2}1{7}9{7}8"];

/// One of the names twice, and the other one unused.
const NAMED_TWICE: &[&str] = &[CHAIN, LINK, OLD_MILL_8, OLD_MILL_9, "4{11}500{2}1{7}8{7}8"];

/// Two landmarks with the same content and a link each, and one with two contents and no link.
const LANDMARKS: &[&str] = &[
    CHAIN,
    SIDES,
    "7{4}01001{8}30AD43Lee School",
    "7{4}01001{8}31AD43Lee School",
    "7{4}01001{8}40AD43Barn",
    "7{4}01001{8}40AD43Annex",
    "8{4}0100100001{8}12{8}30",
    "8{4}0100100001{8}12{8}31",
];

/// A landmark with zeros as its point, which means no point.
const WITHOUT_A_POINT: &[&str] = &[CHAIN, LINK, "7{4}01001{8}30AD43Barn{26}+000000000+00000000"];

/// Returns two chains that share a node and a polygon.
pub fn two_chains() -> &'static [&'static str] {
    &[
        "1{13}5{183}+2{7}+1{8}+3{7}+1",
        "1{13}3{183}+1{7}+1{8}+2{7}+1",
        "I{4}01001{9}5{8}71{8}72{15}00001{9}9",
        "I{4}01001{9}3{8}70{8}7100001{9}9",
    ]
}

/// Returns one chain, and a record of each other type that adds to it.
pub fn record_of_each_type() -> &'static [&'static str] {
    &[
        "8{4}0100100001{8}12{8}30{1}",
        "2{11}500{2}5{1}-86468600+32424930",
        "7{4}01001{8}40AD43Barn{46}",
        "P{4}0100100002{8}12{1}-86468600+324249001",
        "I{4}01001{7}500{8}11{8}1200001{8}1200002{8}12{57}",
        "5{4}01001{7}9{2}Old Mill{22}Rd{4}",
        "4{11}500{2}1{7}9{7}8{24}",
        CHAIN,
        "7{4}01001{8}40AD43Annex{45}",
        "2{11}500{2}2{1}-86468650+32424920",
        "6{11}500{2}1{9}30{9}40{9}31{9}41{4}3600336006",
        "7{4}01001{8}30AD43Barn{46}",
        "5{4}01001{7}8{2}Elm{27}St{4}",
    ]
}

/// Returns the chain of that county as seen from its other end, and the names that it uses.
pub fn chain_of_each_type_turned() -> &'static [&'static str] {
    &[
        TURNED,
        "I{4}01001{8}77{8}12{8}1100002{8}1200001{8}12",
        "2{12}77{2}1{1}-86468600+32424930{1}-86468650+32424920",
        "4{12}77{2}1{7}9{7}8",
        "6{12}77{2}1{9}41{9}31{9}40{9}30{4}3600636003",
        "5{4}01001{7}8{2}Elm{27}St",
        "5{4}01001{7}9{2}Old Mill{22}Rd",
    ]
}

/// The chain of Main St in canonical numbers.
pub const CHAIN_1: &str =
    "12006{9}1{1}A{2}Main{26}St{4}A41{8}101{8}199{8}100{8}19801{2}3600336006{14}0101001001{30}02020002030010012002-086468669+32424914-086468545+32424948";

/// The line of record type I of that chain.
pub const LINK_1: &str = "I200601001{9}1{9}1{9}2{87}";

/// That line between two polygons.
const SIDES_1: &str = "I200601001{9}1{9}1{9}200001{9}100002{9}2{57}";

/// The canonical text of Main St.
pub const MAIN_TEXT: &[&str] = &[CHAIN_1, LINK_1];

const SHAPED_TEXT: &[&str] = &[
    CHAIN_1,
    "22006{9}1{2}1-086468659+32424915-086468649+32424916-086468639+32424917-086468629+32424918-086468619+32424919-086468609+32424920-086468599+32424921-086468589+32424922-086468579+32424923-086468569+32424924",
    "22006{9}1{2}2-086468559+32424925+000000000+00000000+000000000+00000000+000000000+00000000+000000000+00000000+000000000+00000000+000000000+00000000+000000000+00000000+000000000+00000000+000000000+00000000",
    LINK_1,
];

const LOOP_TEXT: &[&str] = &[
    "12006{9}1{1}A{2}Main{26}St{4}A41{8}198{8}100{8}199{8}101{2}103600636003{14}0101001001{30}02030002020020021001-086468669+32424914-086468669+32424914",
    "22006{9}1{2}1-086468600+32424900-086468600+32424990+000000000+00000000+000000000+00000000+000000000+00000000+000000000+00000000+000000000+00000000+000000000+00000000+000000000+00000000+000000000+00000000",
    "I200601001{9}1{9}1{9}1{87}",
];

const SIDED_TEXT: &[&str] = &[CHAIN_1, SIDES_1];

const OTHER_ADDRESSES_TEXT: &[&str] = &[
    "12006{9}1{1}A{2}Main{26}St{4}A41{8}101{8}199{8}198{8}10001{2}3600336006{14}0101001001{30}02020002030010012002-086468669+32424914-086468545+32424948",
    LINK_1,
];

const OLD_MILL_1: &str = "5200601001{7}1{2}Old Mill{22}Rd{4}";

const OLD_MILL_2: &str = "5200601001{7}2{2}Old Mill{22}Rd{4}";

const NAMED_TEXT: &[&str] = &[
    CHAIN_1,
    "42006{9}1{2}1{7}1{7}2{24}",
    OLD_MILL_1,
    OLD_MILL_2,
    LINK_1,
];

const NAMED_TWICE_TEXT: &[&str] = &[
    CHAIN_1,
    "42006{9}1{2}1{7}2{7}2{24}",
    OLD_MILL_1,
    OLD_MILL_2,
    LINK_1,
];

const LANDMARKS_TEXT: &[&str] = &[
    CHAIN_1,
    "7200601001{9}1AD43Annex{45}",
    "7200601001{9}1AD43Barn{46}",
    "7200601001{9}2AD43Lee School{40}",
    "7200601001{9}3AD43Lee School{40}",
    "820060100100001{9}1{9}2{1}",
    "820060100100001{9}1{9}3{1}",
    SIDES_1,
];

const WITHOUT_A_POINT_TEXT: &[&str] = &[CHAIN_1, "7200601001{9}1AD43Barn{46}", LINK_1];

const TWO_CHAINS_TEXT: &[&str] = &[
    "12006{9}1{175}+000000001+00000001+000000002+00000001",
    "12006{9}2{175}+000000002+00000001+000000003+00000001",
    "I200601001{9}1{9}1{9}200001{9}1{72}",
    "I200601001{9}2{9}2{9}3{15}00001{9}1{57}",
];

const RICH_TEXT: &[&str] = &[
    CHAIN_1,
    "22006{9}1{2}1-086468650+32424920-086468600+32424930+000000000+00000000+000000000+00000000+000000000+00000000+000000000+00000000+000000000+00000000+000000000+00000000+000000000+00000000+000000000+00000000",
    "42006{9}1{2}1{7}2{7}1{24}",
    "5200601001{7}1{2}Elm{27}St{4}",
    OLD_MILL_2,
    "62006{9}1{2}1{9}30{9}40{9}31{9}41{4}3600336006",
    "7200601001{9}1AD43Annex{45}",
    "7200601001{9}1AD43Barn{46}",
    "7200601001{9}2AD43Barn{46}",
    "820060100100001{9}1{9}2{1}",
    SIDES_1,
    "P20060100100002{9}2-086468600+324249001",
];

/// The text of a chain, a landmark and a record of type I in which all fields are filled that masks leave out.
const FILLED_TEXT: &[&str] = &[
    "12006{9}11AN Main{26}St{2}SWA41{8}101{8}199{8}100{8}198678936003360067000170002LR45012800105190001900028000180002600016000202020002030010012002-086468669+32424914-086468545+32424948",
    "7200601001{9}1AD43Barn{26}-086468669+32424914{1}",
    "I200601001{9}1{9}1{9}200001{9}100002{9}2Bureau{20}9{9}6{9}7{9}8",
];

fn streets() -> [Row; 6] {
    [
        ("no records", &[], &[]),
        ("a street", MAIN, MAIN_TEXT),
        ("a street from its other end", MAIN_TURNED, MAIN_TEXT),
        ("other addresses", OTHER_ADDRESSES, OTHER_ADDRESSES_TEXT),
        ("two sides", SIDED, SIDED_TEXT),
        ("two chains", two_chains(), TWO_CHAINS_TEXT),
    ]
}

fn points() -> [Row; 4] {
    [
        ("shape points", SHAPED, SHAPED_TEXT),
        (
            "shape points in other records",
            SHAPED_OTHERWISE,
            SHAPED_TEXT,
        ),
        ("a loop", LOOP, LOOP_TEXT),
        (
            "a landmark without a point",
            WITHOUT_A_POINT,
            WITHOUT_A_POINT_TEXT,
        ),
    ]
}

fn names() -> [Row; 3] {
    [
        ("names", NAMED, NAMED_TEXT),
        ("names in the other order", NAMED_BACKWARDS, NAMED_TEXT),
        ("a name twice", NAMED_TWICE, NAMED_TWICE_TEXT),
    ]
}

/// Returns landmarks, and records of each type.
pub fn types() -> [Row; 3] {
    [
        ("landmarks", LANDMARKS, LANDMARKS_TEXT),
        ("a record of each type", record_of_each_type(), RICH_TEXT),
        ("all that masks leave out", plain(), FILLED_TEXT),
    ]
}

/// Returns the sets that are accepted.
pub fn worked(alloc: Global) -> Result<Vec<SetLines>, AllocError> {
    sets_of(
        alloc,
        &[
            &streets(),
            &points(),
            &names(),
            &types(),
            &twins(),
            &groups(),
        ],
    )
}

/// Returns Main St.
pub fn street() -> &'static [&'static str] {
    MAIN
}

/// Returns Main St from its other end.
pub fn street_turned() -> &'static [&'static str] {
    MAIN_TURNED
}

/// Returns the canonical text of both.
pub fn street_text() -> &'static [&'static str] {
    MAIN_TEXT
}

/// Returns Main St in canonical spelling, with its numbers.
pub fn street_respelt() -> &'static [&'static str] {
    RESPELT
}
