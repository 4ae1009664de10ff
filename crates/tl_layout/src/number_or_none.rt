//! Numbers that can be none, in eight bytes each.

ghost use Rattle.std.proofs.Common.{rules};
ghost use Rattle.std.specs.Cmp.Rules.{comparing};
ghost use Rattle.std.specs.Prelude.{IfSome, ◌<◌, ◌≡◌};

use std::fmt;
use std::marker::Model;

/// A number from 1 on, or none. None is stored as 0, as in a line (record type I: TZIDS, TZIDE, POLYIDL and POLYIDR). It takes
/// half as much memory as an `Option`.
#[derive(Clone, Copy)]
pub struct NumberOrNone {
    kept: u64,
}

impl Model for NumberOrNone {
    ghost use Rattle.std.proofs.Common.{ap};
    ghost use Rattle.std.specs.Prelude.{Option, unwrap_or, ℕ};
    ghost use Rattle.tl_layout.specs.Laws.NumberLaws.{none_if_zero_again};
    ghost use Rattle.tl_layout.specs.Numbers.{none_if_zero};

    ghost Value = { Option ℕ };

    ghost view = { λ number. none_if_zero number.kept };

    ghost inverse = { λ number. record { kept = unwrap_or number 0 } };

    ghost inverse_ok = { λ number _. ap (λ kept. record { kept = kept }) (none_if_zero_again number.kept) };
}

/// Two values are equal if their `Option`s are.
impl PartialEq for NumberOrNone {
    ghost eq = { ⟦<Option<u64> as PartialEq>⟧.eq };

    ghost laws = { Prim.search (comparing, rules) };

    fn eq(&self, other: &NumberOrNone) -> bool {
        self.get() == other.get()
    }
}

impl Eq for NumberOrNone {
    ghost laws = { Prim.search rules };
}

/// Printed like the `Option` it represents.
impl fmt::Debug for NumberOrNone {
    fn fmt<W: fmt::Write>(&self, f: &mut fmt::Formatter<W>) -> fmt::Result {
        fmt::Debug::fmt(&self.get(), f)
    }
}

impl NumberOrNone {
    /// Stores this number, which must be at least 1, or none.
    #[inline(always)]
    pub fn new(number: Option<u64>) -> NumberOrNone
        requires { IfSome number (λ n. 0 < n) }
        ensures { result ≡ number }
    {
        NumberOrNone {
            kept: number.unwrap_or(0),
        }
    }

    /// Returns the number, which is at least 1, or none.
    #[inline(always)]
    pub fn get(&self) -> Option<u64>
        ensures value { result ≡ self.now }
        ensures from_one { IfSome result (λ n. 0 < n) }
    {
        match self.kept {
            0 => None,
            number => Some(number),
        }
    }
}
