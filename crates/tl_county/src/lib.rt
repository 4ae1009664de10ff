//! Linking: the county that a list of records describes, or the first rule that they break.
//!
//! Start with `link`, or with `link_in` for a county in an arena. The program itself calls `link_in_order` and then
//! `LinkedRecords::county`, which leaves the records in place. What a county is, and how it is read, is in `county_chart`; its
//! public items are public here too. There is a proved caller in `layers.rt` of the crate `uses`.
#![tactic(auto)]

mod keys;
mod laws;
mod linking;

pub use county_chart::{
    ChainFeats, ChainPoints, ChainRanges, Chart, County, CountyIn, DirectedChain, Keyed,
    LandmarkBodies, LinkFault, LinkedType, Listed, Masked, PolygonKey, Same, SequencedType, Tested,
    all_hold, are_same, cmp_landmark_bodies, compare, least_unknown, polygon_number, push_all,
    sort_by_keys, split_group,
};
pub use laws::{
    counties_within_limits_are_packed_into_records_that_fit, linked_or_one_first_broken_rule,
    linked_records_have_a_county_within_limits, linked_records_have_a_well_formed_county,
    renamings_compose, sameness_is_an_equivalence, the_county_is_what_the_records_say,
};
pub use linking::chain_over::CountyOver;
pub use linking::linked_records::{LinkedRecords, link_in_order};
pub use linking::{link, link_in};
