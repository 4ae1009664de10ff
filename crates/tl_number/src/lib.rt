//! The canonical form of a county: one numbering, one order and one packing for all counties that are the same map.
//!
//! Start with `canonise`, which returns the canonical county of an admitted county and the renaming onto it; `canonise_alone` makes no
//! renaming. `admitted_masked` puts an admitted county under a mask, and `canonise_masked` canonises it there. A `CanonCounty` is a
//! `Chart` and also has `polygon_by_number`, `links` and `renaming`. `arrange` makes a county in an arrangement of your choice,
//! `ascending_arrangement` the arrangement by the shapes of the chains, and an `Interner` numbers keys by first appearance. The crate
//! `uses` has a proved caller, in `layers.rt`. The records of a canonical county are made in `canonical_records`.
#![tactic(auto)]

mod alike_ranges;
mod arranged_order;
mod ascending_order;
mod canonising;
mod choice_search;
mod county_part;
mod kept_landmarks;
mod kept_places;
mod key_groups;
mod key_search;
mod least_choice;
mod masking;
mod moved_keys;
mod numbered_arrangement;
mod open_keys;
mod part_tables;
mod still_open;
mod type_1_choices;

pub use arranged_county::{
    Arranged, CanonCounty, CanonCountyIn, Canonical, Evidence, Interner, NumericKey, Unknown,
    arrange,
};
pub use ascending_order::ascending_arrangement;
pub use canonising::{canonise, canonise_alone, canonise_in};
pub use masking::{admitted_masked, canonise_in_masked, canonise_masked};
