//! Visitors of a county's records: a text that is written to a sink, and a list.

ghost use Rattle.std.specs.Prelude.{◌<◌};
ghost use Rattle.tl_layout.specs.RecordText.{text_of};

use crate::fault::WriteFault;
use crate::sink::Sink;
use crate::text_buffer::TextBuffer;
use record_groups::{RecordGroups, RecordVisitor};
use std::alloc::AllocError;
use tl_layout::{Layout, Record, Tabled};

/// Writes the text of the records to a sink, after the text before. If a line doesn't fit into the buffer, the waiting bytes are sent
/// first.
impl<W: Sink> RecordVisitor<W> for TextBuffer {
    ghost use Rattle.std.below.core.specs.declared.int.u64.TheConstants.{MAX};
    ghost use Rattle.tl_write.specs.Taking.{PutsText};
    ghost use Rattle.tl_write.specs.TakingLaws.{puts_none, puts_stops, puts_then};

    type Fault = WriteFault;

    ghost IsReady = { λ _ sink. W.failed sink < MAX };

    ghost Takes = { λ records. PutsText W.failed W.holds (text_of records) };

    fn take<L: Tabled>(&mut self, found: L, device: &mut W) -> Result<(), WriteFault> {
        self.make_space(L::LEN + 1, device)?;
        self.append(&found);
        Ok(())
    }

    fn visit_group<G: RecordGroups>(
        &mut self,
        groups: &G,
        group: usize,
        head: G::Head,
        place: usize,
        device: &mut W,
    ) -> Result<(), WriteFault> {
        self.make_space(<G::Item as Layout>::LEN + 1, device)?;
        self.append_from(groups, group, head, place);
        Ok(())
    }

    ghost none = { puts_none W.failed W.holds };

    ghost then = { λ xs ys a b c. puts_then W.failed W.holds xs ys a b c };

    ghost stops = { λ xs ys. puts_stops W.failed W.holds xs ys };
}

/// The device of a list, which needs none.
#[derive(Drop)]
pub(crate) struct NoDevice;

/// Appends the records to the list.
impl RecordVisitor<NoDevice> for Vec<Record> {
    ghost use Rattle.std.proofs.Common.{append-nil, sym};
    ghost use Rattle.tl_write.specs.Taking.{ListsRecords};
    ghost use Rattle.tl_write.specs.TakingLaws.{lists_then};

    type Fault = AllocError;

    ghost IsReady = { λ _ _. Unit {0} };

    ghost Takes = { λ records before _ result after _. ListsRecords records before.items result after.items };

    fn take<L: Tabled>(&mut self, found: L, _device: &mut NoDevice) -> Result<(), AllocError> {
        Ok(self.push(found.into_record())?)
    }

    ghost none = { λ before _. sym (append-nil before.items) };

    ghost then = { λ xs ys a b c _ _ _. lists_then _ xs ys a.items b.items c.items };

    ghost stops = { λ _ _ _ _ _ _ _ _. tt };
}
