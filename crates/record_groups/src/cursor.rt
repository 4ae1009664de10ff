//! Records in groups, read one after another.

ghost use Rattle.std.specs.Prelude.{MatchOption, [], if◌then◌else◌, nat_lt, ◌+◌, ◌<◌, ◌∷◌, ◌≡◌};
ghost use Rattle.record_groups.specs.Groups.{rest_of};

use crate::groups::RecordGroups;

/// A position among records in groups: before a record, or after the last one.
#[derive(Drop)]
pub(crate) struct Cursor {
    group: usize,
    place: usize,
}

impl Cursor {
    /// Returns the position before the first record of a group.
    pub(crate) fn at_group(group: usize) -> Cursor
        ensures group { result.group ≡ group }
        ensures place { result.place ≡ 0 }
    {
        Cursor { group, place: 0 }
    }

    /// Moves past the record at this place of a group with this many records, and after the last one to the next group. This
    /// way no head is read a second time only to find that no record is left.
    fn pass(&mut self, records: usize)
        requires group { self.old.group < usize.MAX }
        requires place { self.old.place < records }
        ensures group { self.new.group ≡ (if nat_lt (self.old.place + 1) records then self.old.group else self.old.group + 1) }
        ensures place { self.new.place ≡ (if nat_lt (self.old.place + 1) records then self.old.place + 1 else 0) }
    {
        if self.place + 1 < records {
            self.place += 1;
        } else {
            self.group += 1;
            self.place = 0;
        }
    }
}

/// Returns the record after the cursor and moves past it, or returns `None` after the last record.
pub(crate) fn next<G: RecordGroups>(groups: &G, cursor: &mut Cursor) -> Option<G::Item>
    ensures { MatchOption result (rest_of (G.groups groups.now) cursor.old.group cursor.old.place ≡ [])
        (λ found. rest_of (G.groups groups.now) cursor.old.group cursor.old.place
        ≡ found ∷ rest_of (G.groups groups.now) cursor.new.group cursor.new.place) }
{
    let count = groups.count();
    while cursor.group < count {
        let head = groups.head(cursor.group);
        let records = groups.count_in(cursor.group, head);
        if cursor.place < records {
            let found = groups.record(cursor.group, head, cursor.place);
            cursor.pass(records);
            return Some(found);
        }
        cursor.group += 1;
        cursor.place = 0;
    }
    None
}
