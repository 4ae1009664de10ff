//! Visitors of a county's records, one after another.

ghost use Rattle.std.specs.Prelude.{Err, List, Ok, OnOk, Result, Some, [], length, slice_get, ◌++◌, ◌<◌, ◌∷◌, ◌≡◌};
ghost use Rattle.tl_layout.specs.declared.record_type.Record.{Record};
ghost use Rattle.record_groups.specs.Groups.{group_at};

use crate::groups::RecordGroups;
use tl_layout::Tabled;

/// Takes records one after another, using a device that each call borrows.
pub trait RecordVisitor<D> {
    /// The error of a visitor.
    type Fault;

    /// The visitor can take one more record.
    ghost IsReady: { Self → D → Type 0 };

    /// The visitor took these records, from one state to the other. Or it failed at one of them, and takes none after
    /// it.
    ghost Takes: { List Record → Self → D → Result (Unit {0}) Self.Fault → Self → D → Type 0 };

    /// Takes one more record.
    ///
    /// # Errors
    ///
    /// The visitor's fault, if it failed at this record.
    fn take<L: Tabled>(&mut self, found: L, device: &mut D) -> Result<(), Self::Fault>
        requires { IsReady self.old device.old }
        ensures takes { Takes (L.as_record found ∷ []) self.old device.old result self.new device.new }
        ensures ready { OnOk result (IsReady self.new device.new) };

    /// Takes one more record, the one at a place of a group. A visitor that needs only its text can avoid making the
    /// record.
    ///
    /// # Errors
    ///
    /// As for `take`.
    fn visit_group<G: RecordGroups>(
        &mut self,
        groups: &G,
        group: usize,
        head: G::Head,
        place: usize,
        device: &mut D,
    ) -> Result<(), Self::Fault>
        requires group { group < length (G.groups groups.now) }
        requires head { G.IsHead groups.now group head }
        requires place { place < length (group_at (G.groups groups.now) group) }
        requires ready { IsReady self.old device.old }
        ensures takes { (found : G.Item) → slice_get (group_at (G.groups groups.now) group) place ≡ Some found
            → Takes (G.Item.as_record found ∷ []) self.old device.old result self.new device.new }
        ensures ready { OnOk result (IsReady self.new device.new) }
    {
        self.take(groups.record(group, head, place), device)
    }

    /// Taking no records changes nothing.
    ghost none: { (t : Self) (d : D) → Takes [] t d (Ok tt) t d };

    /// Taking records and then others is taking both.
    ghost then: { (xs ys : List Record) (a b c : Self) (d e f : D) (result : Result (Unit {0}) Self.Fault) →
        Takes xs a d (Ok tt) b e → Takes ys b e result c f → Takes (xs ++ ys) a d result c f };

    /// After a failure, further records make no difference.
    ghost stops: { (xs ys : List Record) (a b : Self) (d e : D) (fault : Self.Fault) →
        Takes xs a d (Err fault) b e → Takes (xs ++ ys) a d (Err fault) b e };
}
