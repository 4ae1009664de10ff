//! The contents of landmarks under a mask, in order again.

ghost use Rattle.std.specs.Prelude.{IfOk, OnOk, map, true, ◌≡◌};
ghost use Rattle.county_chart.specs.BodyOrder.{landmark_body_cmp};
ghost use Rattle.county_chart.specs.ChartWords.{bodies_at};
ghost use Rattle.county_chart.specs.MaskedCounty.{masked, masked_bodies};
ghost use Rattle.ordered_lists.specs.Entries.{entry_values};
ghost use Rattle.ordered_lists.specs.Orders.{in_order};
ghost use Rattle.tl_layout.specs.Masked.{masked_body_7};

use crate::body_order::cmp_landmark_bodies;
use crate::chart::Chart;
use crate::chart_lists::LandmarkBodies;
use crate::joined_lists::JoinedLists;
use crate::listed::push_all;
use std::alloc::{AllocError, Global};
use tl_layout::{Blank, Body7, Mask};

/// Sorts contents. It allocates nothing.
fn sort_bodies(bodies: &mut [Body7])
    ensures { bodies.new ≡ in_order landmark_body_cmp bodies.old }
{
    bodies.sort_unstable_by(|a, b| cmp_landmark_bodies(a, b));
}

/// Blanks the fields of each content that a mask leaves out.
fn blank_bodies(bodies: &mut [Body7], mask: Mask)
    ensures { bodies.new ≡ map (masked_body_7 mask) bodies.old }
{
    for body in bodies.iter_mut() {
        body.blank(mask);
    }
}

/// Replaces the list by the contents of the landmark at a place under a mask that leaves out SOURCE. They are sorted after they are
/// blanked, since SOURCE is one of the fields that they are sorted by.
fn fill_masked<C: Chart>(
    list: &mut Vec<Body7>,
    chart: &C,
    place: usize,
    mask: Mask,
) -> Result<(), AllocError>
    requires { mask.sources ≡ true }
    ensures { OnOk result (list.new.items ≡ masked_bodies mask (bodies_at (C.county chart.now) place)) }
{
    list.clear();
    push_all(list, &LandmarkBodies { chart, place })?;
    blank_bodies(list, mask);
    sort_bodies(list);
    Ok(())
}

/// Returns the contents of each landmark of a county under a mask that leaves out SOURCE.
pub(crate) fn masked_lists<C: Chart>(
    alloc: Global,
    chart: &C,
    mask: Mask,
) -> Result<JoinedLists<Body7>, AllocError>
    requires { mask.sources ≡ true }
    ensures { IfOk result (λ lists. lists ≡ entry_values (masked mask (C.county chart.now)).landmarks) }
{
    let mut lists = JoinedLists::new(alloc);
    let mut list = Vec::new(alloc);
    let count = chart.landmark_count();
    for place in 0..count {
        fill_masked(&mut list, chart, place, mask)?;
        lists.push(&list)?;
    }
    Ok(lists)
}
