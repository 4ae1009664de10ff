//! Renamings as values: inverses, compositions, and whether one carries a county onto another.

use super::comparing::same;
use super::{Host, lines_of};
use test_support::renaming_lists::{Lists, NOTHING, TURN};
use test_support::sets::carries;
use test_support::worked_sets::{MAIN, MAIN_TURNED, NAMED, NAMED_BACKWARDS, SIDED};
use tl_cert::{PolygonKey, Renaming};

fn has_lists(rt: &impl Host, row: &str, renaming: &Renaming, lists: &Lists<'_>) {
    same(rt, row, &Lists::of(renaming), lists);
}

fn renaming(rt: &impl Host, lists: &Lists<'_>) -> Renaming {
    Renaming::new(
        Vec::from_slice(rt.alloc(), lists.chains).expect(rt, "there is memory"),
        Vec::from_slice(rt.alloc(), lists.names).expect(rt, "there is memory"),
        Vec::from_slice(rt.alloc(), lists.polygons).expect(rt, "there is memory"),
        Vec::from_slice(rt.alloc(), lists.lands).expect(rt, "there is memory"),
        Vec::from_slice(rt.alloc(), lists.nodes).expect(rt, "there is memory"),
        Vec::from_slice(rt.alloc(), lists.turned).expect(rt, "there is memory"),
    )
}

/// The renaming of a county with one chain onto the same county seen from its other end, with other numbers.
const THERE: Lists<'static> = Lists {
    chains: &[(500, 77)],
    names: &[(8, 9), (9, 8)],
    polygons: &[((*b"00001", 12), (*b"00001", 3))],
    lands: &[(30, 31), (31, 30)],
    nodes: &[(11, 5), (12, 6)],
    turned: &[500],
};

const BACK: Lists<'static> = Lists {
    chains: &[(77, 500)],
    names: &[(9, 8), (8, 9)],
    polygons: &[((*b"00001", 3), (*b"00001", 12))],
    lands: &[(31, 30), (30, 31)],
    nodes: &[(5, 11), (6, 12)],
    turned: &[77],
};

const THERE_AND_BACK: Lists<'static> = Lists {
    chains: &[(500, 500)],
    names: &[(8, 8), (9, 9)],
    polygons: &[((*b"00001", 12), (*b"00001", 12))],
    lands: &[(30, 30), (31, 31)],
    nodes: &[(11, 11), (12, 12)],
    turned: &[],
};

/// Two pairs and two turned chains with the same TLID, and a turned chain that no pair names.
const ODD: Lists<'static> = Lists {
    chains: &[(1, 2), (1, 3), (4, 2)],
    names: &[(5, 6), (5, 6)],
    polygons: &[],
    lands: &[(1, 2), (1, 3), (4, 2)],
    nodes: &[(7, 7)],
    turned: &[1, 9, 1, 4],
};

/// The inverse of `ODD`, by the first pair of each TLID.
const ODD_BACK: Lists<'static> = Lists {
    chains: &[(2, 1), (3, 1), (2, 4)],
    names: &[(6, 5), (6, 5)],
    polygons: &[],
    lands: &[(2, 1), (3, 1), (2, 4)],
    nodes: &[(7, 7)],
    turned: &[2, 2, 2],
};

const NEXT: Lists<'static> = Lists {
    chains: &[(3, 8), (2, 7), (2, 6)],
    names: &[],
    polygons: &[((*b"00001", 1), (*b"00001", 2))],
    lands: &[(3, 8)],
    nodes: &[(7, 1), (8, 2)],
    turned: &[2, 3],
};

/// `ODD` followed by `NEXT`. Numbers that `NEXT` doesn't name are left out.
const ODD_AND_NEXT: Lists<'static> = Lists {
    chains: &[(1, 7), (1, 8), (4, 7)],
    lands: &[(1, 8)],
    nodes: &[(7, 1)],
    ..NOTHING
};

const STAY: Lists<'static> = Lists {
    chains: &[(8, 8), (7, 7)],
    names: &[],
    polygons: &[((*b"00001", 2), (*b"00001", 2))],
    lands: &[(8, 8)],
    nodes: &[(1, 7), (2, 8)],
    turned: &[8],
};

const NEXT_AND_STAY: Lists<'static> = Lists {
    chains: &[(3, 8), (2, 7)],
    names: &[],
    polygons: &[((*b"00001", 1), (*b"00001", 2))],
    lands: &[(3, 8)],
    nodes: &[(7, 7), (8, 8)],
    turned: &[2],
};

/// The purpose of a row, a renaming, and its inverse.
fn ways_back() -> [(&'static str, Lists<'static>, Lists<'static>); 3] {
    [
        ("all kinds of numbers", THERE, BACK),
        ("pairs of one number", ODD, ODD_BACK),
        ("no numbers", NOTHING, NOTHING),
    ]
}

#[test]
fn renamings_go_back(rt: HostRuntime) {
    for (row, there, wanted) in ways_back() {
        let back = renaming(&rt, &there).inverse().expect(&rt, row);
        has_lists(&rt, row, &back, &wanted);
    }
}

/// The purpose of a row, two renamings, and both one after the other.
fn ways_on() -> [(&'static str, [Lists<'static>; 2], Lists<'static>); 3] {
    [
        ("there and back", [THERE, BACK], THERE_AND_BACK),
        ("the first pair counts", [ODD, NEXT], ODD_AND_NEXT),
        ("turned and turned back", [NEXT, STAY], NEXT_AND_STAY),
    ]
}

#[test]
fn renamings_go_on(rt: HostRuntime) {
    for (row, [first, second], wanted) in ways_on() {
        let second = renaming(&rt, &second);
        let both = renaming(&rt, &first).then(&second).expect(&rt, row);
        has_lists(&rt, row, &both, &wanted);
    }
}

/// From Main St to Main St.
const SAME: Lists<'static> = Lists {
    chains: &[(500, 500)],
    nodes: &[(11, 11), (12, 12)],
    ..NOTHING
};

const LEFT: PolygonKey = (*b"00001", 12);

const RIGHT: PolygonKey = (*b"00002", 12);

/// Main St onto Main St from its other end, with these nodes, and with these chains turned.
fn with_nodes(nodes: &'static [(u64, u64)]) -> Lists<'static> {
    Lists { nodes, ..TURN }
}

fn with_turned(turned: &'static [u64]) -> Lists<'static> {
    Lists { turned, ..TURN }
}

/// Main St onto itself, with these names, and with these polygons.
fn with_names(names: &'static [(u32, u32)]) -> Lists<'static> {
    Lists { names, ..SAME }
}

fn with_polygons(polygons: &'static [(PolygonKey, PolygonKey)]) -> Lists<'static> {
    Lists { polygons, ..SAME }
}

/// A renaming of the numbers of a set, and whether it carries the set onto another one.
type Carried = (&'static str, Lists<'static>, bool);

/// From Main St to Main St from its other end.
fn of_the_street() -> [Carried; 8] {
    let names = &[(1, 1)];
    [
        ("the street", TURN, true),
        ("another order", with_nodes(&[(12, 6), (11, 5)]), true),
        ("not turned", with_turned(&[]), false),
        ("turned twice", with_turned(&[500, 500]), false),
        ("no node 11", with_nodes(&[(12, 6)]), false),
        (
            "node 11 twice",
            with_nodes(&[(11, 5), (11, 5), (12, 6)]),
            false,
        ),
        ("nodes exchanged", with_nodes(&[(11, 6), (12, 5)]), false),
        ("one name more", Lists { names, ..TURN }, false),
    ]
}

/// From one order of two names to the other.
fn of_names() -> [Carried; 2] {
    [
        ("names exchanged", with_names(&[(8, 9), (9, 8)]), true),
        ("names kept", with_names(&[(8, 8), (9, 9)]), false),
    ]
}

/// From a chain between two polygons to itself.
fn of_polygons() -> [Carried; 3] {
    [
        ("kept", with_polygons(&[(LEFT, LEFT), (RIGHT, RIGHT)]), true),
        (
            "exchanged",
            with_polygons(&[(LEFT, RIGHT), (RIGHT, LEFT)]),
            false,
        ),
        (
            "joined",
            with_polygons(&[(LEFT, RIGHT), (RIGHT, RIGHT)]),
            false,
        ),
    ]
}

/// Each renaming carries the first set onto the second, or doesn't, as in its row.
fn are_carried(rt: &impl Host, here: &[&str], there: &[&str], rows: &[Carried]) {
    let here = lines_of(rt, here);
    let there = lines_of(rt, there);
    for (row, lists, wanted) in rows {
        let found = carries(rt.alloc(), &here, &there, &renaming(rt, lists));
        same(rt, row, &found, &Some(*wanted));
    }
}

#[test]
fn a_renaming_carries_or_not(rt: HostRuntime) {
    are_carried(&rt, MAIN, MAIN_TURNED, &of_the_street());
    are_carried(&rt, &[], &[], &[("nothing", NOTHING, true)]);
    are_carried(&rt, NAMED, NAMED_BACKWARDS, &of_names());
    are_carried(&rt, SIDED, SIDED, &of_polygons());
}
