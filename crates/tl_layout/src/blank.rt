//! Blanking: what a mask makes of the contents of records.

ghost use Rattle.std.specs.Prelude.{refl, ◌≡◌};
ghost use Rattle.tl_layout.specs.Laws.MaskLaws.{masked_twice_1, masked_twice_7, masked_twice_i};
ghost use Rattle.tl_layout.specs.Masked.{masked_body_1, masked_body_7, masked_body_i, no_mask};
ghost use Rattle.tl_layout.specs.declared.mask.Mask.{Mask};

use crate::{Body1, Body7, BodyI, Mask};

/// A content with fields that a mask can leave out.
pub trait Blank {
    /// The value under the mask.
    ghost masked: { Mask → Self → Self };

    /// Replaces each field that the mask leaves out with blanks. Every other field keeps its
    /// value.
    fn blank(&mut self, mask: Mask)
        ensures { self.new ≡ masked mask self.old };

    /// Blanking twice under the same mask is the same as blanking once.
    ghost blanks_once: { (mask : Mask) (x : Self) → masked mask (masked mask x) ≡ masked mask x };

    /// A mask that leaves nothing out changes nothing.
    ghost keeps_all: { (x : Self) → masked no_mask x ≡ x };
}

/// The mask can blank SOURCE and the reserved CENSUS1 and CENSUS2.
impl Blank for Body1 {
    ghost masked = { masked_body_1 };

    fn blank(&mut self, mask: Mask) {
        let mut fields = self.fields();
        fields.source.blank_if(mask.sources);
        fields.census1.blank_if(mask.reserved);
        fields.census2.blank_if(mask.reserved);
        *self = Body1::of(&fields);
    }

    ghost blanks_once = { masked_twice_1 };

    ghost keeps_all = { λ _. refl };
}

/// The mask can blank SOURCE. No field of a landmark is reserved.
impl Blank for Body7 {
    ghost masked = { masked_body_7 };

    fn blank(&mut self, mask: Mask) {
        self.source.blank_if(mask.sources);
    }

    ghost blanks_once = { masked_twice_7 };

    ghost keeps_all = { λ _. refl };
}

/// The mask can blank SOURCE and the reserved RS_I1, RS_I2 and RS_I3.
impl Blank for BodyI {
    ghost masked = { masked_body_i };

    fn blank(&mut self, mask: Mask) {
        self.source.blank_if(mask.sources);
        self.rs_i1.blank_if(mask.reserved);
        self.rs_i2.blank_if(mask.reserved);
        self.rs_i3.blank_if(mask.reserved);
    }

    ghost blanks_once = { masked_twice_i };

    ghost keeps_all = { λ _. refl };
}
