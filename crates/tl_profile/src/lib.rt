//! The profile: the counties whose polygons are all on sides of chains, and whose chains leave at most 5,040 choices open.
//!
//! Most chains share their points with no other chain, and their points differ when read from the other end. Such chains have
//! only one order, and each has only one direction. Chains with the same points can be in any order among themselves, and a
//! chain whose points are the same from both ends can have either direction: these are the choices.
//!
//! Start with `admit`, or with `admit_in` for a county in an arena. The whole calls use `admit_linked`, which takes what
//! linking found: the least polygon that is on no side. An `Admitted` county is in the profile and keeps the order of its
//! chains by their shapes, a `ShapeOrder`, so neither is computed again. The
//! crate `uses` has a proved caller, in `layers.rt`.
#![tactic(auto)]

mod admission;
mod laws;
mod open_places;
mod point_rank;
mod shape_order;
mod shapes;
mod sides;

pub use admission::{Admitted, AdmittedIn, admit, admit_in, admit_linked};
pub use county_chart::{OpenPlace, ProfileFault};
pub use laws::{
    in_profile_or_one_first_broken_clause, same_counties_agree_on_the_profile,
    same_counties_have_equal_choices,
};
pub use shape_order::{ShapeOrder, order_by_shape};
