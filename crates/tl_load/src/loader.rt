//! The loader of a list of records.

ghost use Rattle.std.specs.Io.KnownBytes.{IsAtEnd};
ghost use Rattle.std.specs.Prelude.{All, Err, IfErr, IfOk, IfSome, List, MatchResult, None, OnOk, Some, [], if◌then◌else◌, is_ok, length, ℕ, ◌++◌, ◌+◌, ◌<◌, ◌∷◌, ◌≡◌, ◌≤◌};
ghost use Rattle.tl_layout.specs.Limits.{most_records};
ghost use Rattle.tl_layout.specs.RecordText.{FitsRecord};
ghost use Rattle.tl_layout.specs.declared.record_type.Record.{Record};
ghost use Rattle.tl_load.specs.Loaded.{FedPart, IsFaultHowever, IsNotDevice, IsOfLines, IsWellAfter, WasFed, all_parts, is_device};
ghost use Rattle.tl_load.specs.Sources.{Gave, StopsThere, most_read, most_taken};
ghost use Rattle.tl_load.specs.Choice.{tiger};
ghost use Rattle.tl_load.specs.Outcome.{FaultAt, SpellsWithin};

use crate::{LoadFault, LoaderFor, Source};
use std::alloc::Global;
use std::marker::Model;
use tl_layout::{MOST_RECORDS, Record};

/// The most bytes of one read.
const READ_BYTES: usize = 4096;

/// Takes the bytes of a set of parts, one part after another and each in any pieces, and judges each line when it ends. It
/// stores the records and the unfinished line. After a fault every call returns that fault.
#[derive(Drop)]
pub struct Loader {
    inner: LoaderFor<Vec<Record>>,
}

impl Model for Loader {
    ghost use Rattle.std.specs.Prelude.{None, ◌≡◌};
    ghost use Rattle.tl_load.specs.Keeping.{AreCounted, seen};
    ghost use Rattle.tl_load.specs.Loaded.{Loaded};

    ghost Value = { Loaded };

    ghost view = { λ l. seen l.inner l.inner.kept.items };

    ghost invariant = { λ l. l.inner.fault ≡ None → AreCounted l.inner.counts l.inner.kept.items };
}

impl Loader {
    /// Makes a loader without input. It accepts at most 10,000,000 records of each type. This takes no memory.
    pub fn new(alloc: Global) -> Loader
        ensures fed { WasFed most_records result [] [] }
        ensures parts { result.parts ≡ 0 }
        ensures fault { result.fault ≡ None }
    {
        Loader::with_limit(alloc, MOST_RECORDS)
    }

    /// Makes a loader without input that accepts at most `limit` records of each type, from 1 to 10,000,000. This takes no
    /// memory.
    pub fn with_limit(alloc: Global, limit: u64) -> Loader
        requires some { 1 ≤ limit }
        requires most { limit ≤ most_records }
        ensures fed { WasFed limit result [] [] }
        ensures parts { result.parts ≡ 0 }
        ensures fault { result.fault ≡ None }
    {
        Loader {
            inner: LoaderFor::with_limit(alloc, limit),
        }
    }

    /// Returns the number of closed parts.
    pub fn parts(&self) -> u64
        ensures { result ≡ self.now.parts }
    {
        self.inner.parts()
    }

    /// Takes a piece of the open part.
    ///
    /// # Errors
    ///
    /// `Memory`, or a fault of the lines, which then holds for every continuation of the input.
    pub fn feed(&mut self, piece: &[u8]) -> Result<(), LoadFault>
        requires { self.old.parts < u64.MAX }
        // The piece follows the bytes fed before.
        ensures fed { (limit : ℕ) (closed : List (List ℕ)) (open_part : List ℕ) → WasFed limit self.old closed open_part → WasFed limit self.new closed (open_part ++ piece.now) }
        // A fault of the lines is the fault of the parts, however they continue.
        ensures fault { (limit : ℕ) (closed : List (List ℕ)) (open_part : List ℕ) → WasFed limit self.old closed open_part
            → IfErr result (λ f. IsOfLines f → IsFaultHowever limit closed (open_part ++ piece.now) f) }
        // Each line is judged when it ends, or at its 230th byte.
        ensures well { OnOk result (IsWellAfter WasFed self.old piece.now) }
        ensures ok { OnOk result (self.new.fault ≡ None) }
        ensures reported { IfErr result (λ f. self.new.fault ≡ Some f) }
        // After a fault nothing changes.
        ensures stood { IfSome self.old.fault (λ f. (result ≡ Err f) × (self.new ≡ self.old)) }
        ensures parts { self.new.parts ≡ self.old.parts }
        ensures device { self.old.fault ≡ None → IfErr result IsNotDevice }
    {
        self.inner.feed(piece)
    }

    /// Ends the open part.
    ///
    /// # Errors
    ///
    /// As for [`Loader::feed`].
    pub fn end_part(&mut self) -> Result<(), LoadFault>
        requires { self.old.parts < u64.MAX }
        // The open part is closed, and nothing was fed since.
        ensures fed { (limit : ℕ) (closed : List (List ℕ)) (open_part : List ℕ) → WasFed limit self.old closed open_part → WasFed limit self.new (closed ++ open_part ∷ []) [] }
        // A fault of the lines is the fault of the closed parts, whatever follows.
        ensures fault { (limit : ℕ) (closed : List (List ℕ)) (open_part : List ℕ) → WasFed limit self.old closed open_part
            → IfErr result (λ f. IsOfLines f → IsFaultHowever limit (closed ++ open_part ∷ []) [] f) }
        ensures ok { OnOk result (self.new.fault ≡ None) }
        ensures reported { IfErr result (λ f. self.new.fault ≡ Some f) }
        // After a fault nothing changes.
        ensures stood { IfSome self.old.fault (λ f. (result ≡ Err f) × (self.new ≡ self.old)) }
        ensures parts { self.new.parts ≡ (if is_ok result then self.old.parts + 1 else self.old.parts) }
        ensures device { self.old.fault ≡ None → IfErr result IsNotDevice }
    {
        self.inner.end_part()
    }

    /// Reads a source to its end into the open part, and ends the part. Each read is of at most 4,096 bytes, and a read that
    /// causes a fault is the last.
    ///
    /// # Errors
    ///
    /// `Device`, or as for [`Loader::feed`].
    pub fn read_part<R: Source>(&mut self, source: &mut R) -> Result<(), LoadFault>
        requires parts { self.old.parts < u64.MAX }
        requires failures { R.failed source.old < u64.MAX }
        // The source's bytes were fed into the open part. There is a bound on them, so even an endless source can't keep the
        // call from returning.
        ensures fed { (taken : List ℕ) × Gave R.remaining R.given source.old source.new taken × (length taken ≤ most_taken + most_read)
            × FedPart WasFed self.old taken (IsAtEnd (R.remaining source.new)) result self.new }
        // Nothing is read after the read that causes a fault.
        ensures stops { self.old.fault ≡ None
            → StopsThere R.remaining R.given R.reads source.old source.new (IsWellAfter WasFed self.old) }
        ensures ok { OnOk result (self.new.fault ≡ None) }
        ensures reported { IfErr result (λ f. self.new.fault ≡ Some f) }
        // After a fault nothing changes, and nothing is read.
        ensures stood { IfSome self.old.fault (λ f. (result ≡ Err f) × (self.new ≡ self.old) × (source.new ≡ source.old)) }
        ensures parts { self.new.parts ≡ (if is_ok result then self.old.parts + 1 else self.old.parts) }
        // The fault is `Device` exactly if the source failed in this call.
        ensures device { self.old.fault ≡ None → R.failed source.new ≡ (if is_device result then R.failed source.old + 1 else R.failed source.old) }
    {
        let mut buffer = [0; READ_BYTES];
        self.inner.read_part_by(source, &mut buffer)
    }

    /// Ends the open part, if bytes were fed into it, and returns the records of all parts in the order of their lines.
    ///
    /// # Errors
    ///
    /// The recorded fault, or the fault of the parts, or `Memory`.
    pub fn finish(self) -> Result<Vec<Record>, LoadFault>
        // The parts spell these records, with at most limit of each type.
        ensures loaded { (limit : ℕ) (closed : List (List ℕ)) (open_part : List ℕ) → WasFed limit self closed open_part
            → IfOk result (λ records. SpellsWithin tiger limit (all_parts closed open_part) records.items) }
        // Each of them is in range.
        ensures fits { (limit : ℕ) (closed : List (List ℕ)) (open_part : List ℕ) → WasFed limit self closed open_part
            → IfOk result (λ records. All FitsRecord records.items) }
        // If they spell records, these are the ones, and there is no fault of the lines.
        ensures only { (limit : ℕ) (closed : List (List ℕ)) (open_part : List ℕ) (records : List Record) → WasFed limit self closed open_part
            → SpellsWithin tiger limit (all_parts closed open_part) records → MatchResult result (λ found. found.items ≡ records) (λ f. IsOfLines f → ⊥) }
        // Otherwise this is their fault.
        ensures fault { (limit : ℕ) (closed : List (List ℕ)) (open_part : List ℕ) → WasFed limit self closed open_part
            → IfErr result (λ f. IsOfLines f → FaultAt tiger limit (all_parts closed open_part) f) }
        ensures stood { IfSome self.fault (λ f. result ≡ Err f) }
        ensures device { self.fault ≡ None → IfErr result IsNotDevice }
    {
        self.inner.finish()
    }
}
