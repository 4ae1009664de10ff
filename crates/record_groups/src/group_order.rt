//! Comparing records in groups, one after another.
//!
//! No text is made: lines are made for two records at a time, and the first records that differ decide. The groups of two
//! arrangements needn't line up, because a chain can have more records of a type than the chain at its place in the other
//! arrangement. So from the first group that differs on, each side is read with its own cursor.

ghost use Rattle.std.specs.Prelude.{MatchOption, map, ◌≡◌};
ghost use Rattle.std.specs.Cmp.Lexicographic.{slice_cmp};
ghost use Rattle.std.specs.Ordering.{nat_cmp};
ghost use Rattle.std.specs.declared.cmp.Ordering.TheVariants.{Greater};
ghost use Rattle.record_groups.specs.Groups.{rest_of};
ghost use Rattle.record_groups.specs.RecordOrder.{groups_cmp, records_cmp, spelling_cmp};

use crate::cursor::{Cursor, next};
use crate::groups::RecordGroups;
use crate::same_groups::is_same_group;
use county_chart::Same;
use std::cmp::Ordering;
use tl_layout::{LONGEST_LINE, Layout, Tabled};

/// Compares two records of one type by their lines.
fn compare_lines<L: Layout>(a: &L, b: &L) -> Ordering
    ensures { result ≡ slice_cmp nat_cmp (L.spelling a.now) (L.spelling b.now) }
{
    let mut line = [0; LONGEST_LINE];
    let mut other = [0; LONGEST_LINE];
    let len = L::LEN;
    a.put(&mut line[..len]);
    b.put(&mut other[..len]);
    line[..len].cmp(&other[..len])
}

/// Compares two records of one type by their canonical spellings, byte by byte. Their lines are only made if the records differ.
pub fn compare_records<L: Tabled + Same>(a: &L, b: &L) -> Ordering
    ensures { result ≡ spelling_cmp (L.as_record a.now) (L.as_record b.now) }
{
    if a.is_same(b) {
        return Ordering::Equal;
    }
    compare_lines(a, b)
}

/// Compares a record with the other one at its place, if there is one.
fn compare_with<L: Tabled + Same>(a: &L, b: &Option<L>) -> Ordering
    ensures { MatchOption b.now (result ≡ Greater) (λ found. result ≡ spelling_cmp (L.as_record a.now) (L.as_record found)) }
{
    match b {
        Some(found) => compare_records(a, found),
        None => Ordering::Greater,
    }
}

/// Compares records in groups from a group on, record by record. If there are no more on one side, that side is less.
fn compare_from<L: Tabled + Same, G: RecordGroups<Item = L>, H: RecordGroups<Item = L>>(
    a: &G,
    b: &H,
    group: usize,
) -> Ordering
    ensures { result ≡ records_cmp (map L.as_record (rest_of (G.groups a.now) group 0)) (map L.as_record (rest_of (H.groups b.now) group 0)) }
{
    let mut at = Cursor::at_group(group);
    let mut other_at = Cursor::at_group(group);
    while let Some(record) = next(a, &mut at) {
        match compare_with(&record, &next(b, &mut other_at)) {
            Ordering::Equal => {}
            unequal => return unequal,
        }
    }
    match next(b, &mut other_at) {
        Some(_) => Ordering::Less,
        None => Ordering::Equal,
    }
}

/// Compares records in groups, record by record, by their canonical spellings. If there are no more on one side, that side is less.
pub fn compare_groups<L: Tabled + Same, G: RecordGroups<Item = L>, H: RecordGroups<Item = L>>(
    a: &G,
    b: &H,
) -> Ordering
    ensures { result ≡ groups_cmp L.as_record (G.groups a.now) (H.groups b.now) }
{
    let count = a.count().min(b.count());
    for group in 0..count {
        let same = is_same_group(a, b, group, a.head(group), b.head(group));
        if !same {
            return compare_from(a, b, group);
        }
    }
    compare_from(a, b, count)
}
