//! Address ranges and ZIP codes, as in record types 1 and 6.

ghost use Rattle.std.specs.Prelude.{length, take, ◌+◌, ◌-◌, ◌≡◌, ◌≤◌};
ghost use Rattle.tl_layout.specs.AddressRanges.{FitsRanges, ranges_at, ranges_texts};
ghost use Rattle.tl_layout.specs.Bytes.{AreAllowed, IsText, longest_line};
ghost use Rattle.tl_layout.specs.Columns.{joined};

use crate::field::text_at;
use crate::writing::write_text;
use crate::{LeftRight, Text};

/// Address ranges and ZIP codes: 58 bytes (record type 1, columns 59-116; record type 6, columns 19-76).
#[derive(Clone, Copy, Debug, PartialEq, Eq)]
pub struct Ranges {
    /// Start address, left (FRADDL).
    pub fraddl: Text<11>,
    /// End address, left (TOADDL).
    pub toaddl: Text<11>,
    /// Start address, right (FRADDR).
    pub fraddr: Text<11>,
    /// End address, right (TOADDR).
    pub toaddr: Text<11>,
    /// Start imputed address flag, left (FRIADDL).
    pub friaddl: Text<1>,
    /// End imputed address flag, left (TOIADDL).
    pub toiaddl: Text<1>,
    /// Start imputed address flag, right (FRIADDR).
    pub friaddr: Text<1>,
    /// End imputed address flag, right (TOIADDR).
    pub toiaddr: Text<1>,
    /// ZIP codes (ZIPL, ZIPR).
    pub zip: LeftRight<5>,
}

impl Ranges {
    /// Makes ranges from these fields. Each of their bytes must be allowed in a line.
    pub fn new(
        fraddl: [u8; 11],
        toaddl: [u8; 11],
        fraddr: [u8; 11],
        toaddr: [u8; 11],
        friaddl: [u8; 1],
        toiaddl: [u8; 1],
        friaddr: [u8; 1],
        toiaddr: [u8; 1],
        zipl: [u8; 5],
        zipr: [u8; 5],
    ) -> Ranges
        requires fraddl { AreAllowed fraddl }
        requires toaddl { AreAllowed toaddl }
        requires fraddr { AreAllowed fraddr }
        requires toaddr { AreAllowed toaddr }
        requires friaddl { AreAllowed friaddl }
        requires toiaddl { AreAllowed toiaddl }
        requires friaddr { AreAllowed friaddr }
        requires toiaddr { AreAllowed toiaddr }
        requires zipl { AreAllowed zipl }
        requires zipr { AreAllowed zipr }
        ensures { result
            ≡ record {
              fraddl = fraddl;
              toaddl = toaddl;
              fraddr = fraddr;
              toaddr = toaddr;
              friaddl = friaddl;
              toiaddl = toiaddl;
              friaddr = friaddr;
              toiaddr = toiaddr;
              zip = record { left = zipl; right = zipr };
            } }
    {
        Ranges {
            fraddl: Text::new(fraddl),
            toaddl: Text::new(toaddl),
            fraddr: Text::new(fraddr),
            toaddr: Text::new(toaddr),
            friaddl: Text::new(friaddl),
            toiaddl: Text::new(toiaddl),
            friaddr: Text::new(friaddr),
            toiaddr: Text::new(toiaddr),
            zip: LeftRight::new(zipl, zipr),
        }
    }

    /// Returns the start address, left (FRADDL).
    pub fn fraddl(&self) -> [u8; 11]
        ensures value { result ≡ self.now.fraddl }
        ensures text { IsText 11 result }
    {
        self.fraddl.bytes()
    }

    /// Returns the end address, left (TOADDL).
    pub fn toaddl(&self) -> [u8; 11]
        ensures value { result ≡ self.now.toaddl }
        ensures text { IsText 11 result }
    {
        self.toaddl.bytes()
    }

    /// Returns the start address, right (FRADDR).
    pub fn fraddr(&self) -> [u8; 11]
        ensures value { result ≡ self.now.fraddr }
        ensures text { IsText 11 result }
    {
        self.fraddr.bytes()
    }

    /// Returns the end address, right (TOADDR).
    pub fn toaddr(&self) -> [u8; 11]
        ensures value { result ≡ self.now.toaddr }
        ensures text { IsText 11 result }
    {
        self.toaddr.bytes()
    }

    /// Returns the start imputed address flag, left (FRIADDL).
    pub fn friaddl(&self) -> [u8; 1]
        ensures value { result ≡ self.now.friaddl }
        ensures text { IsText 1 result }
    {
        self.friaddl.bytes()
    }

    /// Returns the end imputed address flag, left (TOIADDL).
    pub fn toiaddl(&self) -> [u8; 1]
        ensures value { result ≡ self.now.toiaddl }
        ensures text { IsText 1 result }
    {
        self.toiaddl.bytes()
    }

    /// Returns the start imputed address flag, right (FRIADDR).
    pub fn friaddr(&self) -> [u8; 1]
        ensures value { result ≡ self.now.friaddr }
        ensures text { IsText 1 result }
    {
        self.friaddr.bytes()
    }

    /// Returns the end imputed address flag, right (TOIADDR).
    pub fn toiaddr(&self) -> [u8; 1]
        ensures value { result ≡ self.now.toiaddr }
        ensures text { IsText 1 result }
    {
        self.toiaddr.bytes()
    }

    /// Returns the ZIP code, left (ZIPL).
    pub fn zipl(&self) -> [u8; 5]
        ensures value { result ≡ self.now.zip.left }
        ensures text { IsText 5 result }
    {
        self.zip.left.bytes()
    }

    /// Returns the ZIP code, right (ZIPR).
    pub fn zipr(&self) -> [u8; 5]
        ensures value { result ≡ self.now.zip.right }
        ensures text { IsText 5 result }
    {
        self.zip.right.bytes()
    }

    /// Returns the ranges that begin at this column of a line.
    pub(crate) fn at(line: &[u8], first: usize) -> Ranges
        requires allowed { AreAllowed line.now }
        requires from_one { 1 ≤ first }
        requires within { (first + 57 ≤ length line.now) × (first + 57 ≤ longest_line) }
        ensures { result ≡ ranges_at first line.now }
    {
        Ranges {
            fraddl: text_at(line, first, first + 10),
            toaddl: text_at(line, first + 11, first + 21),
            fraddr: text_at(line, first + 22, first + 32),
            toaddr: text_at(line, first + 33, first + 43),
            friaddl: text_at(line, first + 44, first + 44),
            toiaddl: text_at(line, first + 45, first + 45),
            friaddr: text_at(line, first + 46, first + 46),
            toiaddr: text_at(line, first + 47, first + 47),
            zip: LeftRight::at(line, first + 48),
        }
    }

    /// Writes the ranges from this column on.
    pub(crate) fn put(&self, out: &mut [u8], first: usize)
        requires from_one { 1 ≤ first }
        requires within { (first + 57 ≤ length out.old) × (first + 57 ≤ longest_line) }
        ensures { take (first + 57) out.new ≡ joined (take (first - 1) out.old) (ranges_texts self.now) }
    {
        write_text(out, first, first + 10, &self.fraddl);
        write_text(out, first + 11, first + 21, &self.toaddl);
        write_text(out, first + 22, first + 32, &self.fraddr);
        write_text(out, first + 33, first + 43, &self.toaddr);
        write_text(out, first + 44, first + 44, &self.friaddl);
        write_text(out, first + 45, first + 45, &self.toiaddl);
        write_text(out, first + 46, first + 46, &self.friaddr);
        write_text(out, first + 47, first + 47, &self.toiaddr);
        self.zip.put(out, first + 48);
    }

    pub(crate) fn show_fit(&self)
        ensures { FitsRanges self.now }
    {
        self.fraddl.show_fit();
        self.toaddl.show_fit();
        self.fraddr.show_fit();
        self.toaddr.show_fit();
        self.friaddl.show_fit();
        self.toiaddl.show_fit();
        self.friaddr.show_fit();
        self.toiaddr.show_fit();
        self.zip.show_fit();
    }
}
