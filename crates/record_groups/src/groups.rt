//! Records in groups, and passing them to a visitor.
//!
//! The records of a type are in groups, one for each chain, landmark or polygon. A group is read by place, and only the current record is
//! made, so one loop serves all nine types. The head of a group is read before the group's records.
//!
//! Trick: heads are read one after another before any of their records, because each may have to wait for memory.

ghost use Rattle.std.specs.Prelude.{List, OnOk, Some, drop, length, map, min, option_map, slice_get, take, ℕ, ◌++◌, ◌+◌, ◌-◌, ◌<◌, ◌≡◌, ◌≤◌};
ghost use Rattle.record_groups.specs.Groups.{AreHeads, group_at, grouped};

use crate::heads::HeadBuffers;
use crate::visitor::RecordVisitor;
use tl_layout::{Layout, Tabled};

/// Records of one type in groups, such as one group for each chain. Groups are counted from 0, and so are the records of a group.
pub trait RecordGroups {
    /// The type of the records.
    type Item: Tabled;

    /// The data that is read before the records of a group, such as their number.
    type Head: Copy;

    /// The groups.
    ghost groups: { Self → List (List Self.Item) };

    /// The head of the group at a place.
    ghost IsHead: { Self → ℕ → Self.Head → Type 0 };

    /// Returns the number of groups.
    fn count(&self) -> usize
        ensures { result ≡ length (groups self.now) };

    /// Returns the buffer for heads of such groups.
    fn buffer(buffers: &mut HeadBuffers) -> &mut [Self::Head]
        ensures { 0 < length result.now };

    /// Reads the head of a group.
    fn head(&self, group: usize) -> Self::Head
        requires { group < length (groups self.now) }
        ensures { IsHead self.now group result };

    /// Returns the number of records in a group.
    fn count_in(&self, group: usize, head: Self::Head) -> usize
        requires group { group < length (groups self.now) }
        requires head { IsHead self.now group head }
        ensures { result ≡ length (group_at (groups self.now) group) };

    /// Makes a record of a group.
    fn record(&self, group: usize, head: Self::Head, place: usize) -> Self::Item
        requires group { group < length (groups self.now) }
        requires head { IsHead self.now group head }
        requires place { place < length (group_at (groups self.now) group) }
        ensures { Some result ≡ slice_get (group_at (groups self.now) group) place };

    /// Writes the canonical spelling of a record of a group into a buffer of that length.
    fn put(&self, group: usize, head: Self::Head, place: usize, out: &mut [u8])
        requires group { group < length (groups self.now) }
        requires head { IsHead self.now group head }
        requires place { place < length (group_at (groups self.now) group) }
        requires buffer { length out.old ≡ Self.Item.LEN }
        ensures { Some out.new ≡ option_map Self.Item.spelling (slice_get (group_at (groups self.now) group) place) }
    {
        self.record(group, head, place).put(out);
    }
}

/// Records in groups whose heads are their numbers of records.
pub trait CountedGroups {
    ghost use Rattle.std.specs.Prelude.{List, Some, length, slice_get, ◌<◌, ◌≡◌};
    ghost use Rattle.record_groups.specs.Groups.{group_at};

    /// The type of the records.
    type Record: Tabled;

    /// The groups.
    ghost counted: { Self → List (List Self.Record) };

    /// Returns the number of groups.
    fn group_count(&self) -> usize
        ensures { result ≡ length (counted self.now) };

    /// Returns the number of records in a group.
    fn record_count(&self, group: usize) -> usize
        requires { group < length (counted self.now) }
        ensures { result ≡ length (group_at (counted self.now) group) };

    /// Makes a record of a group.
    fn record_at(&self, group: usize, place: usize) -> Self::Record
        requires group { group < length (counted self.now) }
        requires place { place < length (group_at (counted self.now) group) }
        ensures { Some result ≡ slice_get (group_at (counted self.now) group) place };
}

impl<G: CountedGroups> RecordGroups for G {
    ghost use Rattle.record_groups.specs.Groups.{HasRecords};

    type Item = G::Record;

    type Head = usize;

    ghost groups = { G.counted };

    ghost IsHead = { λ g. HasRecords (G.counted g) };

    fn count(&self) -> usize {
        self.group_count()
    }

    fn buffer(buffers: &mut HeadBuffers) -> &mut [usize] {
        &mut buffers.counts
    }

    fn head(&self, group: usize) -> usize {
        self.record_count(group)
    }

    fn count_in(&self, _group: usize, head: usize) -> usize {
        head
    }

    fn record(&self, group: usize, _head: usize, place: usize) -> G::Record {
        self.record_at(group, place)
    }
}

/// Reads the heads of groups from one of them on, until the buffer is full or there are no more groups, and returns their
/// number.
pub fn read_heads<G: RecordGroups>(groups: &G, first: usize, buffer: &mut [G::Head]) -> usize
    requires { first < length (G.groups groups.now) }
    ensures count { result ≡ min (length (G.groups groups.now) - first) (length buffer.old) }
    ensures heads { AreHeads (G.IsHead groups.now) first (take result buffer.new) }
    ensures buffer { length buffer.new ≡ length buffer.old }
{
    let count = (groups.count() - first).min(buffer.len());
    for ahead in 0..count {
        buffer[ahead] = groups.head(first + ahead);
    }
    count
}

/// Passes on the records of one group, in their order.
fn visit_whole_group<D, G: RecordGroups, T: RecordVisitor<D>>(
    groups: &G,
    group: usize,
    head: G::Head,
    visitor: &mut T,
    device: &mut D,
) -> Result<(), T::Fault>
    requires group { group < length (G.groups groups.now) }
    requires head { G.IsHead groups.now group head }
    requires ready { T.IsReady visitor.old device.old }
    ensures given { T.Takes (map G.Item.as_record (group_at (G.groups groups.now) group)) visitor.old device.old result visitor.new device.new }
    ensures ready { OnOk result (T.IsReady visitor.new device.new) }
{
    for place in 0..groups.count_in(group, head) {
        visitor.visit_group(groups, group, head, place, device)?;
    }
    Ok(())
}

/// Passes on the records of the groups with these heads, from one group on, group after group.
fn visit_headed<D, G: RecordGroups, T: RecordVisitor<D>>(
    groups: &G,
    first: usize,
    heads: &[G::Head],
    visitor: &mut T,
    device: &mut D,
) -> Result<(), T::Fault>
    requires fits { first + length heads.now ≤ usize.MAX }
    requires within { first + length heads.now ≤ length (G.groups groups.now) }
    requires heads { AreHeads (G.IsHead groups.now) first heads.now }
    requires ready { T.IsReady visitor.old device.old }
    ensures given { T.Takes (map G.Item.as_record (grouped (take (length heads.now) (drop first (G.groups groups.now)))))
        visitor.old device.old result visitor.new device.new }
    ensures ready { OnOk result (T.IsReady visitor.new device.new) }
{
    for ahead in 0..heads.len() {
        visit_whole_group(groups, first + ahead, heads[ahead], visitor, device)?;
    }
    Ok(())
}

/// Passes on the records of all groups, group after group. Heads are read into `buffer`.
fn visit_groups<D, G: RecordGroups, T: RecordVisitor<D>>(
    groups: &G,
    buffer: &mut [G::Head],
    visitor: &mut T,
    device: &mut D,
) -> Result<(), T::Fault>
    requires buffer { 0 < length buffer.old }
    requires ready { T.IsReady visitor.old device.old }
    ensures given { T.Takes (map G.Item.as_record (grouped (G.groups groups.now))) visitor.old device.old result visitor.new device.new }
    ensures ready { OnOk result (T.IsReady visitor.new device.new) }
{
    let count = groups.count();
    let mut first = 0;
    while first < count {
        let heads = read_heads(groups, first, buffer);
        visit_headed(groups, first, &buffer[..heads], visitor, device)?;
        first += heads;
    }
    Ok(())
}

/// Passes on the records of three types, one type after another. Heads are read into the caller's buffers.
///
/// # Errors
///
/// The visitor's fault. No record after it is passed.
pub fn visit_three<D, A: RecordGroups, B: RecordGroups, C: RecordGroups, T: RecordVisitor<D>>(
    first: &A,
    second: &B,
    third: &C,
    buffers: &mut HeadBuffers,
    visitor: &mut T,
    device: &mut D,
) -> Result<(), T::Fault>
    requires { T.IsReady visitor.old device.old }
    ensures given { T.Takes (map A.Item.as_record (grouped (A.groups first.now))
        ++ (map B.Item.as_record (grouped (B.groups second.now)) ++ map C.Item.as_record (grouped (C.groups third.now))))
        visitor.old device.old result visitor.new device.new }
    ensures ready { OnOk result (T.IsReady visitor.new device.new) }
{
    visit_groups(first, A::buffer(buffers), visitor, device)?;
    visit_groups(second, B::buffer(buffers), visitor, device)?;
    visit_groups(third, C::buffer(buffers), visitor, device)
}
