//! Worked sets whose points don't decide which of two chains comes first, or in which direction a chain runs. The texts were worked
//! out manually: of all texts that the points leave open, the least.

use crate::sets::Row;
use crate::worked_sets::{CHAIN_1, LINK_1};

/// Main St from its other end, as a loop that comes back through no other point.
const CLOSED: &[&str] = &[
    "10306{8}77{1}A{2}Main{26}St{4}A41{8}198{8}100{8}199{8}101{2}103600636003{14}0101001001{30}02030002020020021001{1}-86468669+32424914{1}-86468669+32424914",
    "I{4}01001{8}77{9}6{9}6",
];

/// It is turned, as 101 comes before 198.
const CLOSED_TEXT: &[&str] = &[
    "12006{9}1{1}A{2}Main{26}St{4}A41{8}101{8}199{8}100{8}19801{2}3600336006{14}0101001001{30}02020002030010012002-086468669+32424914-086468669+32424914",
    "I200601001{9}1{9}1{9}1{87}",
];

/// Main St with other TLIDs, from either end.
const STREET_9: &str =
    "1{13}9{1}A{2}Main{26}St{4}A41{8}101{8}199{8}100{8}19801{2}3600336006{14}0101001001{30}02020002030010012002{1}-86468669+32424914{1}-86468545+32424948";

const STREET_4: &str =
    "1{13}4{1}A{2}Main{26}St{4}A41{8}101{8}199{8}100{8}19801{2}3600336006{14}0101001001{30}02020002030010012002{1}-86468669+32424914{1}-86468545+32424948";

const TURNED_4: &str =
    "10306{9}4{1}A{2}Main{26}St{4}A41{8}198{8}100{8}199{8}101{2}103600636003{14}0101001001{30}02030002020020021001{1}-86468545+32424948{1}-86468669+32424914";

/// Its canonical line as the second chain.
const STREET_2: &str =
    "12006{9}2{1}A{2}Main{26}St{4}A41{8}101{8}199{8}100{8}19801{2}3600336006{14}0101001001{30}02020002030010012002-086468669+32424914-086468545+32424948";

/// Main St twice, without a common node.
const STREET_TWICE: &[&str] = &[
    STREET_9,
    "I{4}01001{9}9{8}11{8}12",
    TURNED_4,
    "I{4}01001{9}4{9}6{9}5",
];

/// Either may come first.
const STREET_TWICE_TEXT: &[&str] = &[CHAIN_1, STREET_2, LINK_1, "I200601001{9}2{9}3{9}4{87}"];

/// Main St twice, the first one ending where the second begins.
const ON_END: &[&str] = &[
    STREET_9,
    "I{4}01001{9}9{8}11{8}12",
    STREET_4,
    "I{4}01001{9}4{8}12{8}13",
];

/// The same with the TLIDs exchanged, and the chain that begins there given from its other end.
const ON_END_EXCHANGED: &[&str] = &[
    STREET_9,
    "I{4}01001{9}9{8}11{8}12",
    TURNED_4,
    "I{4}01001{9}4{8}11{8}13",
];

/// The one that begins there comes first; otherwise the second line of type I would have 3 and 1.
const ON_END_TEXT: &[&str] = &[CHAIN_1, STREET_2, LINK_1, "I200601001{9}2{9}2{9}3{87}"];

/// Two chains from a point to the same point: two orders, with four directions each.
const CLOSED_TWICE: &[&str] = &[
    "1{13}1{51}300{30}200{89}-86468669+32424914{1}-86468669+32424914",
    "1{13}2{51}100{30}400{89}-86468669+32424914{1}-86468669+32424914",
    "I{4}01001{9}1{8}11{8}12",
    "I{4}01001{9}2{8}13{8}11",
];

/// The second comes first and stays, for its 100; the first is turned, for its 200.
const CLOSED_TWICE_TEXT: &[&str] = &[
    "12006{9}1{51}100{30}400{88}-086468669+32424914-086468669+32424914",
    "12006{9}2{51}200{30}300{88}-086468669+32424914-086468669+32424914",
    LINK_1,
    "I200601001{9}2{9}3{9}2{87}",
];

/// Chains with nothing except their points.
const BARE_4: &str = "1{13}4{176}-86468669+32424914{1}-86468545+32424948";

const BARE_9: &str = "1{13}9{176}-86468669+32424914{1}-86468545+32424948";

const BARE_1: &str = "12006{9}1{175}-086468669+32424914-086468545+32424948";

const BARE_2: &str = "12006{9}2{175}-086468669+32424914-086468545+32424948";

/// Two chains with five and with seven names, the first five of them the same.
const NAMES_5_AND_7: &[&str] = &[
    BARE_4,
    BARE_9,
    "4{13}4{2}1{7}1{7}2{7}3{7}4{7}5",
    "4{13}9{2}1{7}1{7}2{7}3{7}4{7}5",
    "4{13}9{2}2{7}6{7}7",
    "5{4}01001{7}1{2}A",
    "5{4}01001{7}2{2}B",
    "5{4}01001{7}3{2}C",
    "5{4}01001{7}4{2}D",
    "5{4}01001{7}5{2}E",
    "5{4}01001{7}6{2}F",
    "5{4}01001{7}7{2}G",
    "I{4}01001{9}4{8}11{8}12",
    "I{4}01001{9}9{8}12{8}13",
];

/// The one with seven comes first: its second record of type 4, with TLID 1, comes before one with TLID 2.
const NAMES_5_AND_7_TEXT: &[&str] = &[
    BARE_1,
    BARE_2,
    "42006{9}1{2}1{7}1{7}2{7}3{7}4{7}5",
    "42006{9}1{2}2{7}6{7}7{24}",
    "42006{9}2{2}1{7}1{7}2{7}3{7}4{7}5",
    "5200601001{7}1{2}A{35}",
    "5200601001{7}2{2}B{35}",
    "5200601001{7}3{2}C{35}",
    "5200601001{7}4{2}D{35}",
    "5200601001{7}5{2}E{35}",
    "5200601001{7}6{2}F{35}",
    "5200601001{7}7{2}G{35}",
    LINK_1,
    "I200601001{9}2{9}3{9}1{87}",
];

/// Two chains with a record of each type, which differ only in the polygons on their left.
const ALIKE: &[&str] = &[
    BARE_4,
    BARE_9,
    "2{13}4{2}1{1}-86468600+32424930",
    "2{13}9{2}1{1}-86468600+32424930",
    "4{13}4{2}1{7}1",
    "4{13}9{2}1{7}1",
    "5{4}01001{7}1{2}Oak",
    "6{13}4{2}1{8}101",
    "6{13}9{2}1{8}101",
    "7{4}01001{8}30{1}D43Barn",
    "8{4}0100100001{9}5{8}30",
    "8{4}0100100001{9}6{8}30",
    "I{4}01001{9}4{8}11{8}1200001{9}5",
    "I{4}01001{9}9{8}13{8}1400001{9}6",
    "P{4}0100100001{9}5{19}1",
    "P{4}0100100001{9}6{19}0",
];

/// The one beside the polygon whose record ends with 0 comes first.
const ALIKE_TEXT: &[&str] = &[
    BARE_1,
    BARE_2,
    "22006{9}1{2}1-086468600+32424930+000000000+00000000+000000000+00000000+000000000+00000000+000000000+00000000+000000000+00000000+000000000+00000000+000000000+00000000+000000000+00000000+000000000+00000000",
    "22006{9}2{2}1-086468600+32424930+000000000+00000000+000000000+00000000+000000000+00000000+000000000+00000000+000000000+00000000+000000000+00000000+000000000+00000000+000000000+00000000+000000000+00000000",
    "42006{9}1{2}1{7}1{32}",
    "42006{9}2{2}1{7}1{32}",
    "5200601001{7}1{2}Oak{33}",
    "62006{9}1{2}1{8}101{47}",
    "62006{9}2{2}1{8}101{47}",
    "7200601001{9}1{1}D43Barn{46}",
    "820060100100001{9}1{9}1{1}",
    "820060100100001{9}2{9}1{1}",
    "I200601001{9}1{9}1{9}200001{9}1{72}",
    "I200601001{9}2{9}3{9}400001{9}2{72}",
    "P20060100100001{9}1{19}0",
    "P20060100100001{9}2{19}1",
];

/// Main St twice, under two sources, the first one ending where the second begins.
pub const OF_TWO_SOURCES: &[&str] = &[
    "1{13}9{1}B{2}Main{26}St{4}A41{8}101{8}199{8}100{8}19801{2}3600336006{14}0101001001{30}02020002030010012002{1}-86468669+32424914{1}-86468545+32424948",
    "I{4}01001{9}9{8}11{8}12",
    STREET_4,
    "I{4}01001{9}4{8}12{8}1300001",
];

/// The source A comes before B.
pub const OF_TWO_SOURCES_TEXT: &[&str] = &[
    CHAIN_1,
    "12006{9}2{1}B{2}Main{26}St{4}A41{8}101{8}199{8}100{8}19801{2}3600336006{14}0101001001{30}02020002030010012002-086468669+32424914-086468545+32424948",
    "I200601001{9}1{9}1{9}200001{82}",
    "I200601001{9}2{9}3{9}1{87}",
];

/// Two pairs of chains between the same points, which leave two orders each.
const TWO_PAIRS: &[&str] = &[
    "1{13}1{176}-86468669+32424914{1}-86468545+32424948",
    "1{13}2{176}-86468669+32424914{1}-86468545+32424948",
    "1{13}3{183}+1{7}+1{8}+2{7}+1",
    "1{13}4{183}+1{7}+1{8}+2{7}+1",
    "I{4}01001{9}1{8}13{8}14",
    "I{4}01001{9}2{8}11{8}12",
    "I{4}01001{9}3{8}12{8}13",
    "I{4}01001{9}4{8}11{8}11",
];

/// The order of the first pair is decided by the second: after 1 to 2 and 3 to 4 it can have 1 to 1, otherwise at best 3 to 3.
const TWO_PAIRS_TEXT: &[&str] = &[
    BARE_1,
    BARE_2,
    "12006{9}3{175}+000000001+00000001+000000002+00000001",
    "12006{9}4{175}+000000001+00000001+000000002+00000001",
    LINK_1,
    "I200601001{9}2{9}3{9}4{87}",
    "I200601001{9}3{9}1{9}1{87}",
    "I200601001{9}4{9}2{9}3{87}",
];

/// Two streets with the same shape, one of them given from its other end, and a chain that is its own reverse.
const PAIR_AND_LOOP: &[&str] = &[
    "1{13}1{4}Oak{176}+1{7}+1{8}+2{7}+1",
    "1{13}2{4}Elm{176}+2{7}+1{8}+1{7}+1",
    "1{13}9{91}2{4}1{79}-86468669+32424914{1}-86468669+32424914",
    "I{4}01001{9}1",
    "I{4}01001{9}2",
    "I{4}01001{9}9",
];

/// The loop's point comes first, and it is turned for its 1; Elm comes before Oak.
const PAIR_AND_LOOP_TEXT: &[&str] = &[
    "12006{9}1{91}1{4}2{78}-086468669+32424914-086468669+32424914",
    "12006{9}2{4}Elm{168}+000000001+00000001+000000002+00000001",
    "12006{9}3{4}Oak{168}+000000001+00000001+000000002+00000001",
    "I200601001{9}1{107}",
    "I200601001{9}2{107}",
    "I200601001{9}3{107}",
];

/// A ring of seven chains. The first three have the same points, which leaves six orders, and each is beside a polygon of the barn.
const RING: &[&str] = &[
    BARE_9,
    BARE_4,
    "1{13}6{176}-86468669+32424914{1}-86468545+32424948",
    "1{13}1{183}+1{7}+1{8}+2{7}+1",
    "1{13}2{183}+2{7}+1{8}+3{7}+1",
    "1{13}3{183}+3{7}+1{8}+4{7}+1",
    "1{13}5{183}+4{7}+1{8}+5{7}+1",
    "7{4}01001{8}30{1}D43Barn",
    "8{4}0100100001{9}5{8}30",
    "8{4}0100100001{9}6{8}30",
    "8{4}0100100001{9}7{8}30",
    "I{4}01001{9}9{8}11{8}1200001{9}5",
    "I{4}01001{9}4{8}12{8}1300001{9}6",
    "I{4}01001{9}6{8}13{8}1400001{9}7",
    "I{4}01001{9}1{8}14{8}15",
    "I{4}01001{9}2{8}15{8}16",
    "I{4}01001{9}3{8}16{8}17",
    "I{4}01001{9}5{8}17{8}11",
];

/// Two orders have 2 to 3 in the second line of type I. The ring's own has 3 to 4 in the third line, and the other one 4 to 1.
const RING_TEXT: &[&str] = &[
    BARE_1,
    BARE_2,
    "12006{9}3{175}-086468669+32424914-086468545+32424948",
    "12006{9}4{175}+000000001+00000001+000000002+00000001",
    "12006{9}5{175}+000000002+00000001+000000003+00000001",
    "12006{9}6{175}+000000003+00000001+000000004+00000001",
    "12006{9}7{175}+000000004+00000001+000000005+00000001",
    "7200601001{9}1{1}D43Barn{46}",
    "820060100100001{9}1{9}1{1}",
    "820060100100001{9}2{9}1{1}",
    "820060100100001{9}3{9}1{1}",
    "I200601001{9}1{9}1{9}200001{9}1{72}",
    "I200601001{9}2{9}2{9}300001{9}2{72}",
    "I200601001{9}3{9}3{9}400001{9}3{72}",
    "I200601001{9}4{9}4{9}5{87}",
    "I200601001{9}5{9}5{9}6{87}",
    "I200601001{9}6{9}6{9}7{87}",
    "I200601001{9}7{9}7{9}1{87}",
];

/// Returns chains that are their own reverse, and streets twice.
pub fn twins() -> [Row; 5] {
    [
        ("a chain that is its own reverse", CLOSED, CLOSED_TEXT),
        ("a street twice", STREET_TWICE, STREET_TWICE_TEXT),
        ("a street twice, on end", ON_END, ON_END_TEXT),
        (
            "a street twice, on end, with TLIDs exchanged",
            ON_END_EXCHANGED,
            ON_END_TEXT,
        ),
        (
            "a chain that is its own reverse, twice",
            CLOSED_TWICE,
            CLOSED_TWICE_TEXT,
        ),
    ]
}

/// Returns chains that are nearly alike, and groups of chains of one shape.
pub fn groups() -> [Row; 5] {
    [
        ("five and seven names", NAMES_5_AND_7, NAMES_5_AND_7_TEXT),
        ("two chains that are nearly alike", ALIKE, ALIKE_TEXT),
        ("two pairs of one shape each", TWO_PAIRS, TWO_PAIRS_TEXT),
        (
            "a pair of one shape, and a loop",
            PAIR_AND_LOOP,
            PAIR_AND_LOOP_TEXT,
        ),
        ("three chains of one shape in a ring", RING, RING_TEXT),
    ]
}
