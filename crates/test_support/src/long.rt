//! A street of more chains than 16 bits can count, and its canonical text.

ghost use Rattle.std.specs.Prelude.{◌<◌};

use crate::made::Spelling;
use std::alloc::{AllocError, Global};

/// How many chains there are.
pub const CHAINS: u64 = 70_000;

/// A chain with nothing except its ends.
const CHAIN: &str = "12006{185}+000000000+00000000+000000000+00000000";

/// Appends the line of record type 1 of a chain, which runs from its left end or, if turned, from its right one.
fn add_chain(lines: &mut Spelling, tlid: u64, chain: u64, turned: bool)
    requires { chain < 100_000 }
{
    let left = 10 * chain + 1;
    let right = 10 * chain + 5;
    let (start, end) = if turned { (right, left) } else { (left, right) };
    let fields = [
        (15, tlid),
        (200, start),
        (209, chain),
        (219, end),
        (228, chain),
    ];
    lines.add(CHAIN, &fields);
}

/// Appends the line of record type I of a chain.
fn add_link(lines: &mut Spelling, tlid: u64, chain: u64, turned: bool)
    requires { chain < 100_000 }
{
    let (left, right) = (chain, chain + 1);
    let (start, end) = if turned { (right, left) } else { (left, right) };
    let fields = [(20, tlid), (30, start), (40, end)];
    lines.add("I200601001{117}", &fields);
}

/// Returns the street, its last chain first, with other TLIDs, and every third chain turned.
///
/// # Errors
///
/// `AllocError` if an allocation failed.
pub fn long_street(alloc: Global) -> Result<Vec<u8>, AllocError> {
    let mut lines = Spelling::new(alloc, true);
    for n in 0..CHAINS {
        let chain = CHAINS - n;
        let tlid = 9_000_000_000 + chain % 7 * 100_000 + chain;
        add_link(&mut lines, tlid, chain, chain % 3 == 0);
        add_chain(&mut lines, tlid, chain, chain % 3 == 0);
    }
    lines.into_text()
}

/// Returns its canonical text: the chains from left to right, each running to the right.
///
/// # Errors
///
/// `AllocError` if an allocation failed.
pub fn long_street_text(alloc: Global) -> Result<Vec<u8>, AllocError> {
    let mut lines = Spelling::new(alloc, false);
    for n in 0..CHAINS {
        add_chain(&mut lines, n + 1, n + 1, false);
    }
    for n in 0..CHAINS {
        add_link(&mut lines, n + 1, n + 1, false);
    }
    lines.into_text()
}
