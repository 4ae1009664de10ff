//! Turning: what the fields of a chain are when it is seen from its other end.

ghost use Rattle.std.specs.Prelude.{length, refl, take, ◌*◌, ◌+◌, ◌-◌, ◌≡◌, ◌≤◌};
ghost use Rattle.tl_layout.specs.Turned.{body_towards, exchanged, turned_body, turned_entities, turned_ranges};
ghost use Rattle.tl_layout.specs.Type1Groups.{body_1_texts, entities_texts};
ghost use Rattle.tl_layout.specs.AddressRanges.{ranges_texts};
ghost use Rattle.tl_layout.specs.Bytes.{longest_line};
ghost use Rattle.tl_layout.specs.Columns.{joined};
ghost use Rattle.tl_layout.specs.Pairs.{pair_texts};

use crate::writing::write_text;
use crate::{Body1, GeographicEntities, LeftRight, Ranges};
use std::mem::swap;

/// A value that can be seen from the other end of its chain.
pub trait Turn {
    /// The value seen from the other end.
    ghost turned: { Self → Self };

    /// Turns the value: each field with a partner takes its partner's value, and every other field keeps its own.
    fn turn(&mut self)
        ensures { self.new ≡ turned self.old };

    /// Turning twice restores the value.
    ghost turns_back: { (x : Self) → turned (turned x) ≡ x };
}

impl<const N: usize> LeftRight<N> {
    /// Exchanges left and right.
    fn exchange(&mut self)
        ensures { self.new ≡ exchanged self.old }
    {
        swap(&mut self.left, &mut self.right);
    }
}

// Trick: turning isn't inlined. A function clears the memory for it on entry, and most values aren't turned.

/// Exchanges the address at the left start with the one at the right end, and the address at the left end with the one at
/// the right start; likewise their flags. Exchanges the two ZIP codes.
impl Turn for Ranges {
    ghost turned = { turned_ranges };

    #[inline(never)]
    fn turn(&mut self) {
        swap(&mut self.fraddl, &mut self.toaddr);
        swap(&mut self.toaddl, &mut self.fraddr);
        swap(&mut self.friaddl, &mut self.toiaddr);
        swap(&mut self.toiaddl, &mut self.friaddr);
        self.zip.exchange();
    }

    ghost turns_back = { λ _. refl };
}

impl<const N: usize> LeftRight<N> {
    /// Writes the pair from this column on, with left and right exchanged.
    fn put_exchanged(&self, out: &mut [u8], first: usize)
        requires from_one { 1 ≤ first }
        requires within { (first + 2 * N ≤ length out.old + 1) × (first + 2 * N ≤ longest_line + 1) }
        ensures { take (first + 2 * N - 1) out.new ≡ joined (take (first - 1) out.old) (pair_texts N (exchanged self.now)) }
    {
        write_text(out, first, first + N - 1, &self.right);
        write_text(out, first + N, first + 2 * N - 1, &self.left);
    }
}

impl Ranges {
    /// Writes the ranges, seen from the other end, into columns 59 to 116.
    fn put_turned(&self, out: &mut [u8])
        requires { 116 ≤ length out.old }
        ensures { take 116 out.new ≡ joined (take 58 out.old) (ranges_texts (turned_ranges self.now)) }
    {
        write_text(out, 59, 69, &self.toaddr);
        write_text(out, 70, 80, &self.fraddr);
        write_text(out, 81, 91, &self.toaddl);
        write_text(out, 92, 102, &self.fraddl);
        write_text(out, 103, 103, &self.toiaddr);
        write_text(out, 104, 104, &self.friaddr);
        write_text(out, 105, 105, &self.toiaddl);
        write_text(out, 106, 106, &self.friaddl);
        self.zip.put_exchanged(out, 107);
    }
}

impl GeographicEntities {
    /// Writes the geographic entities into columns 131 to 190, with left and right exchanged.
    fn put_exchanged(&self, out: &mut [u8])
        requires { 190 ≤ length out.old }
        ensures { take 190 out.new ≡ joined (take 130 out.old) (entities_texts (turned_entities self.now)) }
    {
        self.state.put_exchanged(out, 131);
        self.county.put_exchanged(out, 135);
        self.cousub.put_exchanged(out, 141);
        self.submcd.put_exchanged(out, 151);
        self.place.put_exchanged(out, 161);
        self.tract.put_exchanged(out, 171);
        self.block.put_exchanged(out, 183);
    }
}

impl Body1 {
    /// Writes the content, seen from the chain's other end, into columns 16 to 190 of a line.
    #[inline(never)]
    fn put_turned(&self, out: &mut [u8])
        requires { 190 ≤ length out.old }
        ensures { take 190 out.new ≡ joined (take 15 out.old) (body_1_texts (turned_body self.now)) }
    {
        let fields = self.fields();
        write_text(out, 16, 16, &fields.side1);
        write_text(out, 17, 17, &fields.source);
        fields.name.put(out, 18);
        write_text(out, 56, 58, &fields.cfcc);
        fields.ranges.put_turned(out);
        fields.native_areas.aianhhfp.put_exchanged(out, 117);
        fields.native_areas.aihhtli.put_exchanged(out, 127);
        write_text(out, 129, 129, &fields.census1);
        write_text(out, 130, 130, &fields.census2);
        fields.entities.put_exchanged(out);
    }

    /// Writes the content into columns 16 to 190 of a line. If `turned`, it is written as seen from the chain's other end.
    pub fn put_towards(&self, turned: bool, out: &mut [u8])
        requires { 190 ≤ length out.old }
        ensures { take 190 out.new ≡ joined (take 15 out.old) (body_1_texts (body_towards turned self.now)) }
    {
        if turned {
            self.put_turned(out);
        } else {
            self.put(out);
        }
    }
}

/// Turns the address ranges and exchanges each left field with its right one. SIDE1, SOURCE, the name, CFCC, CENSUS1 and
/// CENSUS2 stay.
impl Turn for Body1 {
    ghost turned = { turned_body };

    #[inline(never)]
    fn turn(&mut self) {
        let mut line = [b' '; 190];
        self.show_fit();
        self.put_turned(&mut line);
        *self = Body1::at(&line);
    }

    ghost turns_back = { λ _. refl };
}
