//! A made map of 2,000 chains in two spellings. Each numbers it, orders its records and turns its chains in its own way. The map
//! has chains with many points and with many names, names that no chain uses, landmarks with several contents and links, hundreds
//! of CENIDs, and numbers of ten digits.

ghost use Rattle.std.specs.Prelude.{◌<◌};

use crate::sets::lines_of;
use std::alloc::{AllocError, Global};

/// How many chains there are.
const CHAINS: u64 = 2000;

/// How many names there are. Chains use the first 450.
const NAMES: u64 = 500;

/// How many landmarks there are.
const LANDMARKS: u64 = 60;

/// A number below the bound that looks random, and is the same each time.
fn chance(of: u64, bound: u64) -> u64
    requires { 0 < bound }
    ensures { result < bound }
{
    let mixed = of
        .wrapping_mul(6_364_136_223_846_793_005)
        .wrapping_add(1_442_695_040_888_963_407);
    (mixed >> 33) % bound
}

/// The number that a spelling uses for the n-th object of a kind.
fn number(other: bool, n: u64, most: u64) -> u64 {
    if other { most.saturating_sub(n) } else { n }
}

fn tlid(other: bool, chain: u64) -> u64
    requires { chain < 5000 }
{
    number(other, 9_000_000_000 + chain, 18_999_999_998)
}

/// Whether the chain is turned in this spelling.
fn is_turned(other: bool, chain: u64) -> bool {
    (chance(chain, 3) == 0) != other
}

/// How many points a chain has between its ends.
fn inner(chain: u64) -> u64
    requires { chain < 5000 }
    ensures { result < 25 }
{
    chance(7 * chain + 1, if chain % 8 == 0 { 25 } else { 3 })
}

/// How many names a chain has besides its own.
fn names(chain: u64) -> u64
    requires { chain < 5000 }
{
    chance(11 * chain + 3, if chain % 8 == 1 { 13 } else { 2 })
}

/// A point of a chain, from 0 for its start, as longitude and latitude.
fn point(chain: u64, place: u64) -> (u64, u64)
    requires chain { chain < 5000 }
    requires place { place < 100 }
{
    (
        1000 * chain + 10 * place + 1,
        1 + chance(100 * chain + place, 1000),
    )
}

/// The n-th polygon as CENID and POLYID.
fn polygon(other: bool, n: u64) -> (u64, u64)
    requires { n < 10_000 }
{
    (n % 400, number(other, n + 1, 5_000_000_000))
}

/// The polygon on the left of a chain. Each fourth chain has a separate one there.
fn left(chain: u64) -> u64
    requires { chain < 5000 }
    ensures { result < 10_000 }
{
    if chain % 4 == 0 {
        3000 + chain
    } else {
        chance(5 * chain + 2, 3000)
    }
}

/// The polygon on the right of a chain.
fn right(chain: u64) -> u64
    requires { chain < 5000 }
    ensures { result < 10_000 }
{
    chance(5 * chain + 4, 3000)
}

/// Puts a number into the columns of a line that end with this one.
fn put(line: &mut [u8], last: usize, number: u64) {
    let mut rest = number;
    for place in (0..last).rev() {
        if rest == 0 {
            return;
        }
        if let Some(byte) = line.get_mut(place) {
            *byte = b'0' + (rest % 10) as u8;
        }
        rest /= 10;
    }
}

/// The lines of a map that is being made, in one spelling or the other.
#[derive(Drop)]
pub struct Spelling {
    alloc: Global,
    other: bool,
    text: Vec<u8>,
    /// Whether no allocation has failed so far.
    is_whole: bool,
}

/// A line, terminated by LF, into which numbers are put.
fn line_of(alloc: Global, pattern: &str, fields: &[(usize, u64)]) -> Result<Vec<u8>, AllocError> {
    let mut line = lines_of(alloc, &[pattern])?;
    for (last, number) in fields {
        put(&mut line, *last, *number);
    }
    Ok(line)
}

impl Spelling {
    /// Starts without lines.
    pub fn new(alloc: Global, other: bool) -> Spelling {
        Spelling {
            alloc,
            other,
            text: Vec::new(alloc),
            is_whole: true,
        }
    }

    /// Returns the lines as they are.
    ///
    /// # Errors
    ///
    /// `AllocError` if an allocation has failed.
    pub fn into_text(self) -> Result<Vec<u8>, AllocError> {
        if self.is_whole {
            Ok(self.text)
        } else {
            Err(AllocError)
        }
    }

    /// Appends the line of this pattern, with numbers in the columns that end with these.
    pub fn add(&mut self, pattern: &str, fields: &[(usize, u64)]) {
        let line = line_of(self.alloc, pattern, fields);
        self.put_line(line);
    }

    fn put_line(&mut self, line: Result<Vec<u8>, AllocError>) {
        let is_put = match line {
            Ok(line) => self.text.extend_from_slice(&line).is_ok(),
            Err(_) => false,
        };
        self.is_whole = self.is_whole && is_put;
    }
}

/// A chain between two states, and the same from its other end.
const CHAIN: &str = "12006{125}0102{56}+000000000+00000000+000000000+00000000";

const TURNED: &str = "12006{125}0201{56}+000000000+00000000+000000000+00000000";

/// Ten places for points, all unused.
const SHAPE: &str =
    "22006{13}+000000000+00000000+000000000+00000000+000000000+00000000+000000000+00000000+000000000+00000000+000000000+00000000+000000000+00000000+000000000+00000000+000000000+00000000+000000000+00000000";

/// Puts points of a chain after the first `first`, at most ten, into a line, in the direction of this spelling.
fn put_points(line: &mut [u8], other: bool, chain: u64, first: u64)
    requires { (chain < 5000) × (first < 30) }
{
    let inner = inner(chain);
    for place in 0..10u64 {
        let seen = first + place + 1;
        if seen <= inner {
            let point = if is_turned(other, chain) {
                point(chain, inner + 1 - seen)
            } else {
                point(chain, seen)
            };
            put(line, 28 + 19 * place as usize, point.0);
            put(line, 37 + 19 * place as usize, point.1);
        }
    }
}

/// Puts names of a chain after the first `first`, at most five, into a line.
fn put_names(line: &mut [u8], other: bool, chain: u64, first: u64)
    requires { (chain < 5000) × (first < 30) }
{
    for place in 0..5u64 {
        if first + place < names(chain) {
            let name = 1 + chance(13 * chain + first + place, 450);
            let feat = number(other, name, 99_999_999);
            put(line, 26 + 8 * place as usize, feat);
        }
    }
}

/// A line of record type I.
const LINK: &str = "I200601001{30}00000{10}00000{67}";

impl Spelling {
    /// Appends the ends of a chain.
    fn add_ends(&mut self, chain: u64)
        requires { chain < 5000 }
    {
        let start = point(chain, 0);
        let end = point(chain, inner(chain) + 1);
        let (start, end, line) = if is_turned(self.other, chain) {
            (end, start, TURNED)
        } else {
            (start, end, CHAIN)
        };
        let fields = [
            (15, tlid(self.other, chain)),
            (49, chain),
            (200, start.0),
            (209, start.1),
            (219, end.0),
            (228, end.1),
        ];
        self.add(line, &fields);
    }

    /// Appends points of a chain after the first `first`, at most ten, in the direction of this spelling.
    fn add_points(&mut self, chain: u64, first: u64)
        requires { (chain < 5000) × (first < 30) }
    {
        let fields = [(15, tlid(self.other, chain)), (18, first + 3)];
        let mut line = line_of(self.alloc, SHAPE, &fields);
        if let Ok(line) = &mut line {
            put_points(line, self.other, chain, first);
        }
        self.put_line(line);
    }

    /// Appends names of a chain after the first `first`, at most five.
    fn add_names(&mut self, chain: u64, first: u64)
        requires { (chain < 5000) × (first < 30) }
    {
        let fields = [(15, tlid(self.other, chain)), (18, first + 1)];
        let mut line = line_of(self.alloc, "42006{53}", &fields);
        if let Ok(line) = &mut line {
            put_names(line, self.other, chain, first);
        }
        self.put_line(line);
    }

    /// Appends the nodes and the polygons of a chain.
    fn add_link(&mut self, chain: u64)
        requires { chain < 5000 }
    {
        let other = self.other;
        let mut nodes = [
            number(other, chain, 1_000_000),
            number(other, chain + 1, 1_000_000),
        ];
        let mut sides = [polygon(other, left(chain)), polygon(other, right(chain))];
        if is_turned(other, chain) {
            nodes.swap(0, 1);
            sides.swap(0, 1);
        }
        let fields = [
            (20, tlid(other, chain)),
            (30, nodes[0]),
            (40, nodes[1]),
            (45, sides[0].0),
            (55, sides[0].1),
            (60, sides[1].0),
            (70, sides[1].1),
        ];
        self.add(LINK, &fields);
    }

    /// Appends further addresses of a chain.
    fn add_addresses(&mut self, chain: u64)
        requires { chain < 5000 }
    {
        let is_turned = is_turned(self.other, chain);
        let (from, to) = if is_turned { (62, 29) } else { (29, 62) };
        let fields = [
            (15, tlid(self.other, chain)),
            (18, 7),
            (from, 10 * chain),
            (to, 10 * chain + 9),
        ];
        self.add("62006{71}", &fields);
    }

    /// Appends the inner point of the polygon on the left of a chain.
    fn add_polygon(&mut self, chain: u64)
        requires { chain < 5000 }
    {
        let (cenid, polyid) = polygon(self.other, left(chain));
        self.add("P20060100100000{29}1", &[(15, cenid), (25, polyid)]);
    }

    /// Appends all records of a chain.
    fn add_chain(&mut self, chain: u64)
        requires { chain < 5000 }
    {
        self.add_link(chain);
        for first in [10, 0, 20] {
            if first <= inner(chain) {
                self.add_points(chain, first);
            }
            if first / 2 <= names(chain) {
                self.add_names(chain, first / 2);
            }
        }
        self.add_ends(chain);
        if chain % 5 == 0 {
            self.add_addresses(chain);
        }
        if chain % 4 == 0 {
            self.add_polygon(chain);
        }
    }

    /// Appends a landmark: up to three contents, and up to six polygons that are beside chains.
    fn add_landmark(&mut self, landmark: u64)
        requires { landmark < 100 }
    {
        let land = number(self.other, landmark, 3_000_000_000);
        for content in 0..1 + landmark % 3 {
            let fields = [(20, land), (54, 10 * landmark + content)];
            self.add("7200601001{64}", &fields);
        }
        for link in 0..landmark % 7 {
            let (cenid, polyid) = polygon(self.other, left(17 * landmark + link));
            let fields = [(15, cenid), (25, polyid), (35, land)];
            self.add("820060100100000{21}", &fields);
        }
    }
}

/// Returns the map in one spelling or the other.
///
/// # Errors
///
/// `AllocError` if an allocation failed.
pub fn made(alloc: Global, other: bool) -> Result<Vec<u8>, AllocError> {
    let mut map = Spelling::new(alloc, other);
    for n in 0..CHAINS {
        map.add_chain(if other { CHAINS - n } else { n + 1 });
    }
    for name in 1..NAMES + 1 {
        let feat = number(other, name, 99_999_999);
        map.add("5200601001{46}", &[(18, feat), (50, name)]);
    }
    for landmark in 1..LANDMARKS + 1 {
        map.add_landmark(landmark);
    }
    map.into_text()
}
