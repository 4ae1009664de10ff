//! How a loader judges the next line: it keeps and counts the line's record, or reports the line's fault.

ghost use Rattle.std.specs.Prelude.{Err, IfErr, IfOk, IsTrue, Ok, OnOk, [], false, take, ◌+◌, ◌<◌, ◌∷◌, ◌≡◌};
ghost use Rattle.tl_layout.specs.Bytes.{AreAllowed};
ghost use Rattle.tl_load.specs.Choice.{as_record, judged};
ghost use Rattle.tl_load.specs.Keeping.{IsSamePart, Lifts, total};
ghost use Rattle.tl_load.specs.LineOf.{judged_as};
ghost use Rattle.tl_load.specs.Loaded.{IsNotDevice};
ghost use Rattle.tl_load.specs.Steps.{Adds, JudgesLine};
ghost use Rattle.tl_load.specs.declared.fault.LineFault.TheVariants.{UnknownType};
ghost use Rattle.tl_load.specs.declared.fault.LoadFault.TheVariants.{Memory};

use crate::judge::{is_full_line, judge_line};
use crate::{Collector, LineFault, LoadFault, LoaderFor};
use canonical_lines::CanonicalLine;
use tl_layout::{Rec1, Rec2, Rec4, Rec5, Rec6, Rec7, Rec8, RecI, RecP, Tabled};

impl<K: Collector> LoaderFor<K> {
    /// Keeps and counts the record of a line, unless there already are `limit` of its type.
    #[inline(always)]
    fn add<L: Tabled>(&mut self, found: L) -> Result<(), LoadFault>
        ensures adds { Lifts K.holds (Adds (L.as_record found)) self.old result self.new }
        ensures same_part { IsSamePart self.old self.new }
        ensures unfinished { self.new.unfinished ≡ self.old.unfinished }
        ensures judged { OnOk result (self.new.judged ≡ self.old.judged + 1) }
        ensures one_more { OnOk result (total self.new.counts ≡ total self.old.counts + 1) }
        ensures no_device { IfErr result IsNotDevice }
    {
        let rtype = L::RTYPE;
        let count = self.counts[rtype as usize];
        if self.limit <= count {
            return Err(LoadFault::TooManyRecords { rtype });
        }
        match self.kept.push_record(found) {
            Ok(()) => {
                self.counts[rtype as usize] = count + 1;
                self.judged += 1;
                Ok(())
            }
            Err(_) => Err(LoadFault::Memory),
        }
    }

    /// Keeps and counts the record of a full line without reading the line, if the collector can and there are fewer than
    /// `limit` of its type. Returns whether it did.
    #[inline(always)]
    fn push_unread<L: CanonicalLine>(
        &mut self,
        line: &[u8],
        is_clean: bool,
    ) -> Result<bool, LoadFault>
        requires begins { take 1 line.now ≡ L.RTYPE ∷ [] }
        requires clean { IsTrue is_clean → AreAllowed line.now }
        ensures kept { IfOk result (λ was_kept. IsTrue was_kept → JudgesLine {T = Unit {0}} K.holds line.now (as_record L.as_record (judged_as L.LEN L.reading line.now)) self.old (Ok tt) self.new) }
        ensures unchanged { IfOk result (λ was_kept. was_kept ≡ false → self.new ≡ self.old) }
        ensures memory { IfErr result (λ f. f ≡ Memory) }
        ensures same_part { IsSamePart self.old self.new }
        ensures unfinished { self.new.unfinished ≡ self.old.unfinished }
    {
        if !is_full_line::<L>(line, is_clean) {
            return Ok(false);
        }
        let rtype = L::RTYPE;
        let count = self.counts[rtype as usize];
        if count >= self.limit {
            return Ok(false);
        }
        match self.kept.push_line::<L>(line) {
            Ok(true) => {
                self.counts[rtype as usize] = count + 1;
                self.judged += 1;
                Ok(true)
            }
            Ok(false) => Ok(false),
            Err(_error) => Err(LoadFault::Memory),
        }
    }

    /// Reads the next line, which may be shorter or longer than the layout of its type or have other bytes than printable ASCII, and
    /// keeps its record.
    ///
    /// Trick: not inlined, because such lines are rare.
    #[inline(never)]
    fn read_unusual<L: Tabled>(&mut self, line: &[u8], is_clean: bool) -> Result<(), LoadFault>
        requires parts { self.old.parts < u64.MAX }
        requires begins { take 1 line.now ≡ L.RTYPE ∷ [] }
        requires clean { IsTrue is_clean → AreAllowed line.now }
        ensures { JudgesLine K.holds line.now (as_record L.as_record (judged_as L.LEN L.reading line.now)) self.old result self.new }
    {
        match judge_line::<L>(line, is_clean) {
            Ok(found) => self.add(found),
            Err(fault) => Err(fault.at(self.parts + 1, self.judged + 1)),
        }
    }

    /// Reads the next line by the layout of its type, and keeps its record. The record of a full line of printable ASCII is moved once.
    #[inline(never)]
    fn read_as<L: Tabled>(&mut self, line: &[u8], is_clean: bool) -> Result<(), LoadFault>
        requires parts { self.old.parts < u64.MAX }
        requires begins { take 1 line.now ≡ L.RTYPE ∷ [] }
        requires clean { IsTrue is_clean → AreAllowed line.now }
        ensures { JudgesLine K.holds line.now (as_record L.as_record (judged_as L.LEN L.reading line.now)) self.old result self.new }
    {
        if !is_full_line::<L>(line, is_clean) {
            return self.read_unusual::<L>(line, is_clean);
        }
        match L::take(line) {
            Ok(found) => self.add(found),
            Err(fault) => Err(LineFault::Field(fault).at(self.parts + 1, self.judged + 1)),
        }
    }

    /// Judges the next line by the layout of its type.
    fn judge_as<L: CanonicalLine>(&mut self, line: &[u8], is_clean: bool) -> Result<(), LoadFault>
        requires parts { self.old.parts < u64.MAX }
        requires begins { take 1 line.now ≡ L.RTYPE ∷ [] }
        requires clean { IsTrue is_clean → AreAllowed line.now }
        ensures { JudgesLine K.holds line.now (as_record L.as_record (judged_as L.LEN L.reading line.now)) self.old result self.new }
    {
        match self.push_unread::<L>(line, is_clean) {
            Ok(true) => Ok(()),
            Ok(false) => self.read_as::<L>(line, is_clean),
            Err(fault) => Err(fault),
        }
    }

    /// Rejects a line whose first byte isn't a record type.
    fn refuse_unknown(&mut self, line: &[u8]) -> Result<(), LoadFault>
        requires parts { self.old.parts < u64.MAX }
        requires unknown { judged line.now ≡ Err UnknownType }
        ensures { JudgesLine K.holds line.now (judged line.now) self.old result self.new }
    {
        Err(LineFault::UnknownType.at(self.parts + 1, self.judged + 1))
    }

    /// Judges the next line by its first byte. The line has neither its LF nor the CR before it. If `is_clean`, each of its
    /// bytes is known to be allowed in a line.
    #[tactic(auto, unfolding(crate::specs::Choice::judged, crate::specs::Choice::judged_by))]
    pub(super) fn judge_next(&mut self, line: &[u8], is_clean: bool) -> Result<(), LoadFault>
        requires parts { self.old.parts < u64.MAX }
        requires clean { IsTrue is_clean → AreAllowed line.now }
        ensures { JudgesLine K.holds line.now (judged line.now) self.old result self.new }
    {
        match line {
            [b'1', ..] => self.judge_as::<Rec1>(line, is_clean),
            [b'2', ..] => self.judge_as::<Rec2>(line, is_clean),
            [b'4', ..] => self.judge_as::<Rec4>(line, is_clean),
            [b'5', ..] => self.judge_as::<Rec5>(line, is_clean),
            [b'6', ..] => self.judge_as::<Rec6>(line, is_clean),
            [b'7', ..] => self.judge_as::<Rec7>(line, is_clean),
            [b'8', ..] => self.judge_as::<Rec8>(line, is_clean),
            [b'I', ..] => self.judge_as::<RecI>(line, is_clean),
            [b'P', ..] => self.judge_as::<RecP>(line, is_clean),
            _ => self.refuse_unknown(line),
        }
    }
}
