//! A buffer between the lines of a text and the sink that it is written to.

ghost use Rattle.std.specs.Prelude.{List, MatchResult, OnOk, Some, [], if◌then◌else◌, is_ok, length, slice_get, ℕ, ◌++◌, ◌+◌, ◌<◌, ◌∷◌, ◌≡◌, ◌≤◌};
ghost use Rattle.record_groups.specs.Groups.{group_at};
ghost use Rattle.tl_write.specs.GoingOut.{HasCounted, HoldsBeginning, IsGoingOut, up_to_most};

use crate::bytes_out::write_bytes;
use crate::fault::WriteFault;
use crate::sink::Sink;
use record_groups::RecordGroups;
use std::marker::Model;
use tl_layout::{Layout, put_line};

/// The size of the buffer in bytes: some hundred lines.
const BUFFER_BYTES: usize = 65_536;

/// The lines that are waiting to be sent, and how many bytes were sent before them.
#[derive(Drop)]
pub(crate) struct TextBuffer {
    bytes: [u8; BUFFER_BYTES],
    filled: usize,
    sent: u64,
}

impl Model for TextBuffer {
    ghost use Rattle.std.specs.Prelude.{length, take, ◌≤◌};
    ghost use Rattle.tl_write.specs.GoingOut.{Waiting};

    ghost Value = { Waiting };

    ghost view = { λ b. record { waiting = take b.filled b.bytes; sent = b.sent } };

    ghost invariant = { λ b. b.filled ≤ length b.bytes };
}

/// Writes the line of a record of a group, which is its canonical spelling and LF, into a buffer of its length.
fn put_line_of<G: RecordGroups>(
    groups: &G,
    group: usize,
    head: G::Head,
    place: usize,
    buffer: &mut [u8],
)
    requires group { group < length (G.groups groups.now) }
    requires head { G.IsHead groups.now group head }
    requires place { place < length (group_at (G.groups groups.now) group) }
    requires buffer { length buffer.old ≡ G.Item.LEN + 1 }
    ensures { (found : G.Item) → slice_get (group_at (G.groups groups.now) group) place ≡ Some found
        → buffer.new ≡ G.Item.spelling found ++ 10 ∷ [] }
{
    let len = <G::Item as Layout>::LEN;
    groups.put(group, head, place, &mut buffer[..len]);
    buffer[len] = b'\n';
}

impl TextBuffer {
    /// Makes an empty buffer.
    pub(crate) fn new() -> TextBuffer
        ensures { result ≡ record { waiting = []; sent = 0 } }
    {
        TextBuffer {
            bytes: [0; BUFFER_BYTES],
            filled: 0,
            sent: 0,
        }
    }

    /// Sends the waiting bytes.
    pub(crate) fn send<W: Sink>(&mut self, w: &mut W) -> Result<(), WriteFault>
        requires { W.failed w.old < u64.MAX }
        ensures failures { W.failed w.new ≡ (if is_ok result then W.failed w.old else W.failed w.old + 1) }
        ensures empty { OnOk result (self.new.waiting ≡ []) }
        ensures counted { (total : ℕ) → HasCounted total self.old → MatchResult result (λ _. HasCounted total self.new) (λ f. f.written < total) }
        ensures sent { (held text : List ℕ) → IsGoingOut W.holds held text self.old w.old
            → MatchResult result (λ _. IsGoingOut W.holds held text self.new w.new)
            (λ f. HoldsBeginning W.holds held text f.written w.new) }
    {
        match write_bytes(&self.bytes[..self.filled], w) {
            Ok(count) => {
                self.sent = self.sent.saturating_add(count);
                self.filled = 0;
                Ok(())
            }
            Err(fault) => Err(WriteFault {
                written: self.sent.saturating_add(fault.written),
            }),
        }
    }

    /// Sends the waiting bytes if there isn't enough space for `count` more.
    pub(crate) fn make_space<W: Sink>(&mut self, count: usize, w: &mut W) -> Result<(), WriteFault>
        requires failures { W.failed w.old < u64.MAX }
        requires count { count ≤ BUFFER_BYTES }
        ensures failures { W.failed w.new ≡ (if is_ok result then W.failed w.old else W.failed w.old + 1) }
        ensures space { OnOk result (length self.new.waiting + count ≤ BUFFER_BYTES) }
        ensures counted { (total : ℕ) → HasCounted total self.old → MatchResult result (λ _. HasCounted total self.new) (λ f. f.written < total) }
        ensures sent { (held text : List ℕ) → IsGoingOut W.holds held text self.old w.old
            → MatchResult result (λ _. IsGoingOut W.holds held text self.new w.new)
            (λ f. HoldsBeginning W.holds held text f.written w.new) }
    {
        if count <= BUFFER_BYTES - self.filled {
            return Ok(());
        }
        self.send(w)
    }

    /// Appends the line of a record: its canonical spelling and LF. There must be enough space for it.
    pub(crate) fn append<L: Layout>(&mut self, found: &L)
        requires { length self.old.waiting + L.LEN < BUFFER_BYTES }
        ensures { self.new ≡ record { waiting = self.old.waiting ++ (L.spelling found.now ++ 10 ∷ []); sent = self.old.sent } }
    {
        let end = self.filled + L::LEN + 1;
        put_line(found, &mut self.bytes[self.filled..end]);
        self.filled = end;
    }

    /// Appends the line of a record of a group. There must be enough space for it.
    pub(crate) fn append_from<G: RecordGroups>(
        &mut self,
        groups: &G,
        group: usize,
        head: G::Head,
        place: usize,
    )
        requires group { group < length (G.groups groups.now) }
        requires head { G.IsHead groups.now group head }
        requires place { place < length (group_at (G.groups groups.now) group) }
        requires space { length self.old.waiting + G.Item.LEN < BUFFER_BYTES }
        ensures { (found : G.Item) → slice_get (group_at (G.groups groups.now) group) place ≡ Some found
            → self.new ≡ record { waiting = self.old.waiting ++ (G.Item.spelling found ++ 10 ∷ []); sent = self.old.sent } }
    {
        let end = self.filled + <G::Item as Layout>::LEN + 1;
        let buffer = &mut self.bytes[self.filled..end];
        put_line_of(groups, group, head, place, buffer);
        self.filled = end;
    }

    /// Sends the waiting bytes, and returns the number of bytes of the whole text.
    pub(crate) fn finish<W: Sink>(mut self, w: &mut W) -> Result<u64, WriteFault>
        requires { W.failed w.old < u64.MAX }
        ensures failures { W.failed w.new ≡ (if is_ok result then W.failed w.old else W.failed w.old + 1) }
        ensures counted { (total : ℕ) → HasCounted total self → MatchResult result (λ n. n ≡ up_to_most total) (λ f. f.written < total) }
        ensures whole { (held text : List ℕ) → IsGoingOut W.holds held text self w.old
            → MatchResult result (λ n. W.holds w.new (held ++ text) × (n ≡ up_to_most (length text)))
            (λ f. HoldsBeginning W.holds held text f.written w.new) }
    {
        self.send(w)?;
        Ok(self.sent)
    }
}
