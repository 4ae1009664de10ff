//! Masks: which fields are left out when maps are compared.

ghost use Rattle.std.specs.Prelude.{true, ◌≡◌};
ghost use Rattle.tl_layout.specs.Masked.{no_mask};

/// The fields that are left out when a map is viewed under a mask.
#[derive(Clone, Copy, Debug, PartialEq, Eq)]
pub struct Mask {
    /// Leaves out the fields that name the source of data: SOURCE of types 1, 7 and I.
    pub sources: bool,
    /// Leaves out the reserved fields: CENSUS1 and CENSUS2 of type 1; RS_I1, RS_I2 and RS_I3 of type I.
    pub reserved: bool,
}

impl Mask {
    /// The mask that leaves nothing out.
    pub const NONE: Mask = Mask {
        sources: false,
        reserved: false,
    };

    /// Checks whether the mask leaves nothing out.
    pub fn is_none(self) -> bool
        ensures none { result ≡ true → self ≡ no_mask }
        ensures is { self ≡ no_mask → result ≡ true }
    {
        !self.sources && !self.reserved
    }
}
