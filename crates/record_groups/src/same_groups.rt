//! Whether two counties have the same records in groups.

ghost use Rattle.std.specs.Bool.{Decides};
ghost use Rattle.std.specs.Prelude.{drop, length, slice_get, take, ◌+◌, ◌<◌, ◌≡◌, ◌≤◌};
ghost use Rattle.record_groups.specs.Groups.{AreHeads, group_at};
ghost use Rattle.record_groups.specs.SharedGroups.{HaveSameChains, HaveSameCounts, HaveSameLists, HaveSameSingleRecords};

use crate::chain_records::{ChainRecords, SequencedRecord, SequencedRecords, TopologyRecords};
use crate::groups::{RecordGroups, read_heads};
use crate::heads::HeadBuffers;
use county_chart::{Chart, Same};
use std::marker::PhantomData;
use tl_layout::{Rec2, Rec4, Rec6, Tabled};

/// Checks whether a record of a group is the same in both counties.
fn is_same_record<L: Tabled + Same, G: RecordGroups<Item = L>, H: RecordGroups<Item = L>>(
    a: &G,
    b: &H,
    group: usize,
    head: G::Head,
    other: H::Head,
    place: usize,
) -> bool
    requires a { group < length (G.groups a.now) }
    requires b { group < length (H.groups b.now) }
    requires head { G.IsHead a.now group head }
    requires other { H.IsHead b.now group other }
    requires place { place < length (group_at (G.groups a.now) group) }
    requires other_place { place < length (group_at (H.groups b.now) group) }
    ensures { Decides result (slice_get (group_at (G.groups a.now) group) place ≡ slice_get (group_at (H.groups b.now) group) place) }
{
    a.record(group, head, place)
        .is_same(&b.record(group, other, place))
}

/// Checks whether a group that both counties have is the same in both, record by record.
pub(crate) fn is_same_group<L: Tabled + Same, G: RecordGroups<Item = L>, H: RecordGroups<Item = L>>(
    a: &G,
    b: &H,
    group: usize,
    head: G::Head,
    other: H::Head,
) -> bool
    requires a { group < length (G.groups a.now) }
    requires b { group < length (H.groups b.now) }
    requires head { G.IsHead a.now group head }
    requires other { H.IsHead b.now group other }
    ensures { Decides result (group_at (G.groups a.now) group ≡ group_at (H.groups b.now) group) }
{
    let count = a.count_in(group, head);
    b.count_in(group, other) == count
        && (0..count).all(|place| is_same_record(a, b, group, head, other, place))
}

/// Checks whether the groups with these heads, from one group on, are the same in both counties.
fn are_same_headed<L: Tabled + Same, G: RecordGroups<Item = L>, H: RecordGroups<Item = L>>(
    a: &G,
    b: &H,
    first: usize,
    heads: &[G::Head],
    others: &[H::Head],
) -> bool
    requires fits { first + length heads.now ≤ usize.MAX }
    requires a { first + length heads.now ≤ length (G.groups a.now) }
    requires b { first + length heads.now ≤ length (H.groups b.now) }
    requires count { length others.now ≡ length heads.now }
    requires heads { AreHeads (G.IsHead a.now) first heads.now }
    requires others { AreHeads (H.IsHead b.now) first others.now }
    ensures { Decides result
        (take (length heads.now) (drop first (G.groups a.now)) ≡ take (length heads.now) (drop first (H.groups b.now))) }
{
    for ahead in 0..heads.len() {
        let same = is_same_group(a, b, first + ahead, heads[ahead], others[ahead]);
        if !same {
            return false;
        }
    }
    true
}

/// Checks whether records are in the same groups, group by group. The heads are read into buffers of the same size, which is above 0.
pub fn are_same_groups<L: Tabled + Same, G: RecordGroups<Item = L>, H: RecordGroups<Item = L>>(
    a: &G,
    b: &H,
    buffer: &mut [G::Head],
    other: &mut [H::Head],
) -> bool
    requires buffer { 0 < length buffer.old }
    requires other { length other.old ≡ length buffer.old }
    ensures { Decides result (G.groups a.now ≡ H.groups b.now) }
{
    let count = a.count();
    if b.count() != count {
        return false;
    }
    let mut first = 0;
    while first < count {
        let heads = read_heads(a, first, buffer);
        let others = read_heads(b, first, other);
        let same = are_same_headed(a, b, first, &buffer[..heads], &other[..others]);
        if !same {
            return false;
        }
        first += heads;
    }
    true
}

/// Checks whether two counties have equally many chains, names, polygons and landmarks. This is the quickest test.
fn have_same_counts<A: Chart, B: Chart>(a: &A, b: &B) -> bool
    ensures { Decides result (HaveSameCounts (A.county a.now) (B.county b.now)) }
{
    a.chain_count() == b.chain_count()
        && a.name_count() == b.name_count()
        && a.polygon_count() == b.polygon_count()
        && a.landmark_count() == b.landmark_count()
}

/// Checks whether two counties have the same records of types 1 and I.
fn have_same_single_records<A: Chart, B: Chart>(
    a: &A,
    b: &B,
    buffer: &mut HeadBuffers,
    other: &mut HeadBuffers,
) -> bool
    ensures { Decides result (HaveSameSingleRecords (A.county a.now) (B.county b.now)) }
{
    are_same_groups(
        &ChainRecords { chart: a },
        &ChainRecords { chart: b },
        &mut buffer.ends,
        &mut other.ends,
    ) && are_same_groups(
        &TopologyRecords { chart: a },
        &TopologyRecords { chart: b },
        &mut buffer.topology_bytes,
        &mut other.topology_bytes,
    )
}

/// Checks whether two counties have the same records of a type with a sequence number.
fn have_same_sequenced<R: SequencedRecord + Same, A: Chart, B: Chart>(
    a: &A,
    b: &B,
    buffer: &mut HeadBuffers,
    other: &mut HeadBuffers,
) -> bool
    ensures { Decides result (R.by_chain (A.county a.now) ≡ R.by_chain (B.county b.now)) }
{
    are_same_groups(
        &SequencedRecords::<_, R> {
            chart: a,
            records: PhantomData,
        },
        &SequencedRecords::<_, R> {
            chart: b,
            records: PhantomData,
        },
        &mut buffer.counts,
        &mut other.counts,
    )
}

/// Checks whether two counties have the same records of types 2, 4 and 6.
fn have_same_lists<A: Chart, B: Chart>(
    a: &A,
    b: &B,
    buffer: &mut HeadBuffers,
    other: &mut HeadBuffers,
) -> bool
    ensures { Decides result (HaveSameLists (A.county a.now) (B.county b.now)) }
{
    have_same_sequenced::<Rec2, A, B>(a, b, buffer, other)
        && have_same_sequenced::<Rec4, A, B>(a, b, buffer, other)
        && have_same_sequenced::<Rec6, A, B>(a, b, buffer, other)
}

/// Checks whether two counties have equally many chains, names, polygons and landmarks, and the same records for each chain. The heads are
/// read into the caller's buffers.
pub fn have_same_chains<A: Chart, B: Chart>(
    a: &A,
    b: &B,
    buffer: &mut HeadBuffers,
    other: &mut HeadBuffers,
) -> bool
    ensures { Decides result (HaveSameCounts (A.county a.now) (B.county b.now) × HaveSameChains (A.county a.now) (B.county b.now)) }
{
    have_same_counts(a, b)
        && have_same_single_records(a, b, buffer, other)
        && have_same_lists(a, b, buffer, other)
}
