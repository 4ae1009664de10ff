//! The libraries at work: small callers, proved against the contracts of the calls that they make. Copy the parts you need.
#![tactic(auto)]

mod alike;
mod citing;
mod layers;
mod pieces;

pub use alike::spell_alike;
pub use citing::cited_tlid;
pub use layers::canonical_text;
pub use pieces::load_pieces;
