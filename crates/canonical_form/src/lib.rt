//! The canonical form of a map: which lists of records are canonical, and the laws about them.
//!
//! Nothing here runs. The definitions are in `specs/`, and the functions are laws: they do nothing, and their contracts state what holds
//! for the definitions. `tl_number` puts a county into this form.
#![tactic(auto)]

mod laws;

pub use laws::{
    a_packed_county_is_read_back, accepted_or_one_refusal, an_arrangement_gives_an_arranged_list,
    arranged_lists_are_the_packing_of_their_county, arranged_lists_with_one_choice_are_equal,
    canonical_lists_are_those_of_least_choices, canonical_lists_keep_the_limits,
    canonical_lists_keep_the_limits_in_each_view, canonical_lists_keep_the_limits_under_each_mask,
    canonical_lists_of_one_county_have_one_text, choices_are_numbered,
    each_accepted_list_has_one_canonical_text, one_canonical_text_for_one_map,
    one_canonical_text_in_each_view, one_canonical_text_under_each_mask,
    one_choice_where_shapes_are_apart, strict_lists_are_canonical, tidy_lists_are_those_of_choices,
};
