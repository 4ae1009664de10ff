//! Whether a renaming carries one county onto another.
//!
//! The numbers are checked first: each side of each list of pairs, sorted, must be the county's ascending list of that kind. Then each
//! part is looked up under its new number and compared with the part found there, a chain in the direction that the renaming gives it.
//! Links have no number, so their fields under new numbers are sorted and compared as lists.

ghost use Rattle.std.specs.Bool.{Decides};
ghost use Rattle.std.specs.Prelude.{IfOk};
ghost use Rattle.county_chart.specs.MaskedCounty.{masked};
ghost use Rattle.county_chart.specs.Renumbering.{Carries, NumbersArePaired};
ghost use Rattle.tl_cert.specs.PartsThere.{ArePartsThere, tabled};

use crate::chains::Chains;
use crate::links::are_links_there;
use crate::numbers_paired::numbers_are_paired;
use crate::parts::{Landmarks, Names, PolygonParts};
use crate::renaming_tables::RenamingTables;
use county_chart::{Chart, Lent, Masked, all_hold};
use renamings::Renaming;
use std::alloc::{AllocError, Global};
use tl_layout::Mask;

/// Checks whether `b` has each chain, name, polygon and landmark of `a` under its new number, with the chains turned that the renaming
/// turns.
fn are_parts_there<A: Chart, B: Chart>(a: &A, b: &B, tables: &RenamingTables) -> bool
    ensures { Decides result (ArePartsThere (tabled tables.now) (A.county a.now) (B.county b.now)) }
{
    all_hold(&Chains { a, b, tables })
        && all_hold(&Names { a, b, tables })
        && all_hold(&PolygonParts { a, b, tables })
        && all_hold(&Landmarks { a, b, tables })
}

/// Checks whether a renaming that pairs the numbers of the two counties carries the parts of `a` onto the parts of `b`.
fn carries_parts<A: Chart, B: Chart>(
    alloc: Global,
    a: &A,
    b: &B,
    tables: &RenamingTables,
) -> Result<bool, AllocError>
    requires { NumbersArePaired (tabled tables.now) (A.county a.now) (B.county b.now) }
    ensures { IfOk result (λ yes. Decides yes (Carries (tabled tables.now) (A.county a.now) (B.county b.now))) }
{
    let there = are_parts_there(a, b, tables);
    if !there {
        return Ok(false);
    }
    // Trick: `?` lets the prover look at each outcome by itself.
    let links = are_links_there(alloc, a, b, tables)?;
    Ok(links)
}

/// Checks whether the renaming carries `a` onto `b`: its lists name each number of `a` once on the left and each of `b` once on the right,
/// and under their new numbers, with the listed chains turned, the parts of `a` are the parts of `b`. It copies the lists and the links a
/// few times, and looks numbers up in tables.
///
/// # Errors
///
/// `AllocError` if an allocation failed.
pub fn check<A: Chart, B: Chart>(
    alloc: Global,
    a: &A,
    b: &B,
    renaming: &Renaming,
) -> Result<bool, AllocError>
    ensures { IfOk result (λ yes. Decides yes (Carries renaming.now (A.county a.now) (B.county b.now))) }
{
    let paired = numbers_are_paired(alloc, a, b, renaming)?;
    if !paired {
        return Ok(false);
    }
    let tables = RenamingTables::new(alloc, renaming)?;
    carries_parts(alloc, a, b, &tables)
}

/// Checks whether the renaming carries `a` onto `b`, both under a mask. It allocates what [`check`] does, and if the mask leaves out SOURCE
/// also a copy of the contents of each county's landmarks.
///
/// # Errors
///
/// `AllocError` if an allocation failed.
pub fn check_masked<A: Chart, B: Chart>(
    alloc: Global,
    a: &A,
    b: &B,
    renaming: &Renaming,
    mask: Mask,
) -> Result<bool, AllocError>
    ensures { IfOk result (λ yes. Decides yes (Carries renaming.now (masked mask (A.county a.now)) (masked mask (B.county b.now)))) }
{
    let a = Masked::new(alloc, Lent::new(a), mask)?;
    let b = Masked::new(alloc, Lent::new(b), mask)?;
    check(alloc, &a, &b, renaming)
}
