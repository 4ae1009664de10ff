//! The loader over any collector: splits pieces of bytes into lines, judges each line when it ends, and keeps its record.

ghost use Rattle.std.specs.Prelude.{Err, IfErr, IfOk, IfSome, IsTrue, List, MatchResult, None, OnOk, Some, [], false, if◌then◌else◌, is_ok, length, replicate, ℕ, ◌++◌, ◌+◌, ◌<◌, ◌∷◌, ◌≡◌, ◌≤◌};
ghost use Rattle.std.specs.Io.KnownBytes.{IsAtEnd};
ghost use Rattle.std.specs.Result.{IsErr};
ghost use Rattle.tl_layout.specs.Bytes.{AreAllowed};
ghost use Rattle.tl_layout.specs.Limits.{most_records};
ghost use Rattle.tl_layout.specs.declared.record_type.Record.{Record};
ghost use Rattle.tl_load.specs.Keeping.{HasSome, IsSamePart, Lifts, WasFedInto, bytes_used};
ghost use Rattle.tl_load.specs.Loaded.{FedPart, IsFaultHowever, IsNotDevice, IsOfLines, IsWellAfter, all_parts, is_device};
ghost use Rattle.tl_load.specs.Steps.{Closes, Ends, ReadsPart, Takes, TakesWell, with_fault};
ghost use Rattle.tl_load.specs.Choice.{judged, tiger};
ghost use Rattle.tl_load.specs.Lines.{IsWithoutLineFeed, most_unfinished, without_return};
ghost use Rattle.tl_load.specs.Outcome.{FaultAt, SpellsWithin};
ghost use Rattle.tl_load.specs.Sources.{Gave, StopsThere, most_taken};

mod judging;

use crate::line::{line_end, without_carriage_return};
use crate::{Collector, LoadFault, Source};
use arrayvec::ArrayVec;
use std::alloc::Global;
use std::marker::Model;
use tl_layout::MOST_RECORDS;

/// The most bytes of an unfinished line that are kept: the longest line and a CR.
const LINE_BYTES: usize = 229;

/// Takes the bytes of a set of parts, one part after another and each in any pieces, and judges each line when it ends. It
/// passes the record to a [`Collector`] and itself stores only the unfinished line. After a fault every call returns that fault.
#[derive(Drop)]
pub struct LoaderFor<K> {
    kept: K,
    counts: [u64; 128],
    line: ArrayVec<u8, LINE_BYTES>,
    parts: u64,
    judged: u64,
    limit: u64,
    fault: Option<LoadFault>,
}

impl<K> Model for LoaderFor<K> {
    ghost use Rattle.tl_load.specs.Keeping.{IsLoader, LoadedInto};

    ghost Value = { LoadedInto K };

    ghost view = { λ l. record { kept = l.kept; counts = l.counts; parts = l.parts; judged = l.judged; unfinished = l.line.items; limit = l.limit; fault = l.fault } };

    ghost invariant = { λ l. IsLoader l.counts l.line.items l.parts l.judged l.limit };
}

fn no_counts() -> [u64; 128]
    ensures { result ≡ replicate 128 0 }
{
    [0; 128]
}

impl<K: Collector> LoaderFor<K> {
    /// Makes a loader without input. It accepts at most 10,000,000 records of each type. This takes no memory.
    pub fn new(alloc: Global) -> LoaderFor<K>
        ensures fed { WasFedInto K.holds most_records result [] [] }
        ensures parts { result.parts ≡ 0 }
        ensures fault { result.fault ≡ None }
    {
        LoaderFor::with_limit(alloc, MOST_RECORDS)
    }

    /// Makes a loader without input that accepts at most `limit` records of each type, from 1 to 10,000,000. This takes no
    /// memory.
    pub fn with_limit(alloc: Global, limit: u64) -> LoaderFor<K>
        requires some { 1 ≤ limit }
        requires most { limit ≤ most_records }
        ensures fed { WasFedInto K.holds limit result [] [] }
        ensures parts { result.parts ≡ 0 }
        ensures fault { result.fault ≡ None }
    {
        LoaderFor {
            kept: K::empty(alloc),
            counts: no_counts(),
            line: ArrayVec::new(),
            parts: 0,
            judged: 0,
            limit,
            fault: None,
        }
    }

    /// Returns the number of closed parts.
    pub fn parts(&self) -> u64
        ensures { result ≡ self.now.parts }
    {
        self.parts
    }

    /// Judges a line at its 230th byte, by its first 229 bytes: it is too long or has no known type.
    fn refuse_long(&mut self, bytes: &[u8]) -> Result<(), LoadFault>
        requires parts { self.old.parts < u64.MAX }
        requires too_long { most_unfinished < length self.old.unfinished + length bytes.now }
        requires no_feed { IsWithoutLineFeed bytes.now }
        ensures takes { Lifts K.holds (Takes bytes.now) self.old result self.new }
        ensures same_part { IsSamePart self.old self.new }
        ensures refused { IsErr result }
        ensures no_device { IfErr result IsNotDevice }
    {
        let mut line = self.line.take();
        let rest = LINE_BYTES - line.len();
        let _ = line.try_extend_from_slice(&bytes[..rest]);
        self.judge_next(line.as_slice(), false)
    }

    /// Stores bytes of a line that hasn't ended yet.
    fn buffer_bytes(&mut self, bytes: &[u8]) -> Result<(), LoadFault>
        requires parts { self.old.parts < u64.MAX }
        requires no_feed { IsWithoutLineFeed bytes.now }
        ensures takes { Lifts K.holds (Takes bytes.now) self.old result self.new }
        ensures same_part { IsSamePart self.old self.new }
        ensures used { OnOk result (bytes_used self.new ≡ bytes_used self.old + length bytes.now) }
        ensures most { OnOk result (bytes_used self.new ≤ most_taken) }
        ensures short { OnOk result (length self.new.unfinished ≤ most_unfinished) }
        ensures no_device { IfErr result IsNotDevice }
    {
        match self.line.try_extend_from_slice(bytes) {
            Ok(()) => Ok(()),
            Err(_) => self.refuse_long(bytes),
        }
    }

    /// Ends the stored line with an LF, and judges it.
    fn end_held_line(&mut self) -> Result<(), LoadFault>
        requires { self.old.parts < u64.MAX }
        ensures takes { Lifts K.holds (Takes (10 ∷ [])) self.old result self.new }
        ensures same_part { IsSamePart self.old self.new }
        ensures used { OnOk result (bytes_used self.old + 1 ≤ bytes_used self.new) }
        ensures no_device { IfErr result IsNotDevice }
    {
        let line = self.line.take();
        self.judge_next(without_carriage_return(line.as_slice()), false)
    }

    /// Takes the bytes before an LF, and the LF. If no line was begun, it judges the bytes in place, without copying them. If
    /// `is_clean`, they are known to be allowed in a line, except for one CR at their end.
    fn end_line(&mut self, bytes: &[u8], is_clean: bool) -> Result<(), LoadFault>
        requires parts { self.old.parts < u64.MAX }
        requires no_feed { IsWithoutLineFeed bytes.now }
        requires clean { IsTrue is_clean → AreAllowed (without_return bytes.now) }
        ensures takes { Lifts K.holds (Takes (bytes.now ++ 10 ∷ [])) self.old result self.new }
        ensures same_part { IsSamePart self.old self.new }
        ensures used { OnOk result (bytes_used self.old + length bytes.now + 1 ≤ bytes_used self.new) }
        ensures no_device { IfErr result IsNotDevice }
    {
        if self.line.is_empty() {
            // Trick: only a fault is copied. If every result were, each line would wait until the bytes of the previous line are in memory.
            return match self.judge_next(without_carriage_return(bytes), is_clean) {
                Ok(()) => Ok(()),
                Err(fault) => Err(fault),
            };
        }
        self.buffer_bytes(bytes)?;
        self.end_held_line()
    }

    /// Takes a piece of the open part.
    fn take_piece(&mut self, piece: &[u8]) -> Result<(), LoadFault>
        requires { self.old.parts < u64.MAX }
        ensures takes { Lifts K.holds (Takes piece.now) self.old result self.new }
        ensures same_part { IsSamePart self.old self.new }
        ensures used { OnOk result (bytes_used self.old + length piece.now ≤ bytes_used self.new) }
        ensures most { OnOk result (bytes_used self.new ≤ most_taken) }
        ensures short { OnOk result (length self.new.unfinished ≤ most_unfinished) }
        ensures no_device { IfErr result IsNotDevice }
    {
        // This makes the loader's invariant known from here on: the unfinished line has no LF.
        let _ = &self.line;
        let mut rest = piece;
        while let Some(end) = line_end(rest) {
            let (line, more) = rest.split_at(end.place);
            self.end_line(line, end.is_clean)?;
            rest = &more[1..];
        }
        self.buffer_bytes(rest)
    }

    /// Judges the remaining bytes of the open part.
    fn end_last_line(&mut self) -> Result<(), LoadFault>
        ensures ends { Lifts K.holds Ends self.old result self.new }
        ensures same_part { IsSamePart self.old self.new }
        ensures none_left { OnOk result (self.new.unfinished ≡ []) }
        ensures no_device { IfErr result IsNotDevice }
    {
        if self.line.is_empty() {
            return Ok(());
        }
        let tail = self.line.take();
        self.judge_next(without_carriage_return(tail.as_slice()), false)
    }

    /// Ends the open part, and opens the next one.
    fn close_part(&mut self) -> Result<(), LoadFault>
        requires { self.old.parts < u64.MAX }
        ensures closes { Lifts K.holds Closes self.old result self.new }
        ensures limit { self.new.limit ≡ self.old.limit }
        ensures fault { self.new.fault ≡ self.old.fault }
        ensures parts { self.new.parts ≡ (if is_ok result then self.old.parts + 1 else self.old.parts) }
        ensures no_device { IfErr result IsNotDevice }
    {
        self.end_last_line()?;
        self.parts += 1;
        self.judged = 0;
        Ok(())
    }

    /// Feeds the bytes that the source returns until it returns none, and closes the part.
    fn read_to_end<R: Source>(&mut self, source: &mut R, buffer: &mut [u8]) -> Result<(), LoadFault>
        requires parts { self.old.parts < u64.MAX }
        requires buffer { 0 < length buffer.old }
        requires failures { R.failed source.old < u64.MAX }
        ensures reads { (taken : List ℕ) × Gave R.remaining R.given source.old source.new taken × (length taken ≤ most_taken + length buffer.old)
            × Lifts K.holds (ReadsPart taken (IsAtEnd (R.remaining source.new))) self.old result self.new }
        ensures stops { StopsThere R.remaining R.given R.reads source.old source.new (TakesWell K.holds self.old) }
        ensures limit { self.new.limit ≡ self.old.limit }
        ensures fault { self.new.fault ≡ self.old.fault }
        ensures parts { self.new.parts ≡ (if is_ok result then self.old.parts + 1 else self.old.parts) }
        ensures failures { R.failed source.new ≡ (if is_device result then R.failed source.old + 1 else R.failed source.old) }
    {
        // This makes the loader's invariant known from here on.
        let _ = &self.line;
        loop {
            let count = match source.read(buffer) {
                Ok(count) => count,
                Err(_) => return Err(LoadFault::Device),
            };
            if count == 0 {
                return self.close_part();
            }
            self.take_piece(&buffer[..count])?;
        }
    }

    /// Records the fault of a step, if it has one. From now on every call returns it.
    fn latch(&mut self, outcome: Result<(), LoadFault>) -> Result<(), LoadFault>
        ensures same { result ≡ outcome }
        ensures stands { self.new ≡ with_fault outcome self.old }
    {
        match outcome {
            Ok(()) => Ok(()),
            Err(fault) => {
                self.fault = Some(fault);
                Err(fault)
            }
        }
    }

    /// Takes a piece of the open part.
    ///
    /// # Errors
    ///
    /// `Memory`, or a fault of the lines, which then holds for every continuation of the input.
    pub fn feed(&mut self, piece: &[u8]) -> Result<(), LoadFault>
        requires { self.old.parts < u64.MAX }
        // The piece follows the bytes fed before.
        ensures fed { (limit : ℕ) (closed : List (List ℕ)) (open_part : List ℕ) → WasFedInto K.holds limit self.old closed open_part → WasFedInto K.holds limit self.new closed (open_part ++ piece.now) }
        // A fault of the lines is the fault of the parts, however they continue.
        ensures fault { (limit : ℕ) (closed : List (List ℕ)) (open_part : List ℕ) → WasFedInto K.holds limit self.old closed open_part
            → IfErr result (λ f. IsOfLines f → IsFaultHowever limit closed (open_part ++ piece.now) f) }
        // Each line is judged when it ends, or at its 230th byte.
        ensures well { OnOk result (IsWellAfter (WasFedInto K.holds) self.old piece.now) }
        ensures ok { OnOk result (self.new.fault ≡ None) }
        ensures reported { IfErr result (λ f. self.new.fault ≡ Some f) }
        // After a fault nothing changes.
        ensures stood { IfSome self.old.fault (λ f. (result ≡ Err f) × (self.new ≡ self.old)) }
        ensures parts { self.new.parts ≡ self.old.parts }
        ensures device { self.old.fault ≡ None → IfErr result IsNotDevice }
        // What is kept stays a list of records.
        ensures kept { HasSome K.holds self.old → OnOk result (HasSome K.holds self.new) }
    {
        if let Some(fault) = self.fault {
            return Err(fault);
        }
        let outcome = self.take_piece(piece);
        self.latch(outcome)
    }

    /// Ends the open part.
    ///
    /// # Errors
    ///
    /// As for [`LoaderFor::feed`].
    pub fn end_part(&mut self) -> Result<(), LoadFault>
        requires { self.old.parts < u64.MAX }
        // The open part is closed, and nothing was fed since.
        ensures fed { (limit : ℕ) (closed : List (List ℕ)) (open_part : List ℕ) → WasFedInto K.holds limit self.old closed open_part → WasFedInto K.holds limit self.new (closed ++ open_part ∷ []) [] }
        // A fault of the lines is the fault of the closed parts, whatever follows.
        ensures fault { (limit : ℕ) (closed : List (List ℕ)) (open_part : List ℕ) → WasFedInto K.holds limit self.old closed open_part
            → IfErr result (λ f. IsOfLines f → IsFaultHowever limit (closed ++ open_part ∷ []) [] f) }
        ensures ok { OnOk result (self.new.fault ≡ None) }
        ensures reported { IfErr result (λ f. self.new.fault ≡ Some f) }
        // After a fault nothing changes.
        ensures stood { IfSome self.old.fault (λ f. (result ≡ Err f) × (self.new ≡ self.old)) }
        ensures kept { HasSome K.holds self.old → OnOk result (HasSome K.holds self.new) }
        ensures parts { self.new.parts ≡ (if is_ok result then self.old.parts + 1 else self.old.parts) }
        ensures device { self.old.fault ≡ None → IfErr result IsNotDevice }
    {
        if let Some(fault) = self.fault {
            return Err(fault);
        }
        let outcome = self.close_part();
        self.latch(outcome)
    }

    /// Reads a source to its end into the open part, and ends the part. Each read is through the caller's buffer, at most its
    /// length at a time, and a read that causes a fault is the last. The buffer must not be empty.
    ///
    /// # Errors
    ///
    /// `Device`, or as for [`LoaderFor::feed`].
    pub fn read_part_by<R: Source>(
        &mut self,
        source: &mut R,
        buffer: &mut [u8],
    ) -> Result<(), LoadFault>
        requires parts { self.old.parts < u64.MAX }
        requires buffer { 0 < length buffer.old }
        requires failures { R.failed source.old < u64.MAX }
        // The source's bytes were fed into the open part. There is a bound on them, so even an endless source can't keep the
        // call from returning.
        ensures fed { (taken : List ℕ) × Gave R.remaining R.given source.old source.new taken × (length taken ≤ most_taken + length buffer.old)
            × FedPart (WasFedInto K.holds) self.old taken (IsAtEnd (R.remaining source.new)) result self.new }
        // Nothing is read after the read that causes a fault.
        ensures stops { self.old.fault ≡ None
            → StopsThere R.remaining R.given R.reads source.old source.new (IsWellAfter (WasFedInto K.holds) self.old) }
        ensures ok { OnOk result (self.new.fault ≡ None) }
        ensures reported { IfErr result (λ f. self.new.fault ≡ Some f) }
        // After a fault nothing changes, and nothing is read.
        ensures stood { IfSome self.old.fault (λ f. (result ≡ Err f) × (self.new ≡ self.old) × (source.new ≡ source.old)) }
        ensures parts { self.new.parts ≡ (if is_ok result then self.old.parts + 1 else self.old.parts) }
        // The fault is `Device` exactly if the source failed in this call.
        ensures device { self.old.fault ≡ None → R.failed source.new ≡ (if is_device result then R.failed source.old + 1 else R.failed source.old) }
        ensures kept { HasSome K.holds self.old → OnOk result (HasSome K.holds self.new) }
    {
        match self.fault {
            Some(fault) => Err(fault),
            None => {
                let outcome = self.read_to_end(source, buffer);
                self.latch(outcome)
            }
        }
    }

    /// Ends the open part, if bytes were fed into it, and returns the collector with the records of all parts.
    ///
    /// # Errors
    ///
    /// The recorded fault, or the fault of the parts, or `Memory`.
    pub fn finish(mut self) -> Result<K, LoadFault>
        // The collector holds the records that the parts spell, with at most limit of each type.
        ensures loaded { (limit : ℕ) (closed : List (List ℕ)) (open_part : List ℕ) → WasFedInto K.holds limit self closed open_part
            → IfOk result (λ kept. (records : List Record) × K.holds kept records × SpellsWithin tiger limit (all_parts closed open_part) records) }
        // If they spell records, these are the ones, and there is no fault of the lines.
        ensures only { (limit : ℕ) (closed : List (List ℕ)) (open_part : List ℕ) (records : List Record) → WasFedInto K.holds limit self closed open_part
            → SpellsWithin tiger limit (all_parts closed open_part) records → MatchResult result (λ kept. K.holds kept records) (λ f. IsOfLines f → ⊥) }
        // Otherwise this is their fault.
        ensures fault { (limit : ℕ) (closed : List (List ℕ)) (open_part : List ℕ) → WasFedInto K.holds limit self closed open_part
            → IfErr result (λ f. IsOfLines f → FaultAt tiger limit (all_parts closed open_part) f) }
        ensures stood { IfSome self.fault (λ f. result ≡ Err f) }
        ensures device { self.fault ≡ None → IfErr result IsNotDevice }
    {
        if let Some(fault) = self.fault {
            return Err(fault);
        }
        self.end_last_line()?;
        Ok(self.kept)
    }
}
