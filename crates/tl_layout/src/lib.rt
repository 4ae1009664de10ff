//! The record layouts of TIGER/Line 2006: each record type as a value, read from a line and written canonically.
//!
//! Start with [`Layout::take`] of a record's type, such as `Rec1::take(line)`: it reads a full line, and [`Layout::put`] writes
//! one. A [`Record`] is of any type, and [`Tables`] hold records by type. A record consists of its numbers and its content, as
//! in `Rec5::new(feat, body)`. A content such as [`Body7`] is a literal with named fields of type [`Text`], and its `new` takes
//! the same fields as arrays in that order. [`Body1`] is made from such a literal, a [`Body1Fields`]. The crate `tl_load` reads
//! files.
#![tactic(auto)]

mod blank;
mod coordinate;
mod digits;
mod fault;
mod field;
mod growing;
mod laws;
mod layout;
mod mask;
mod name;
mod number;
mod number_or_none;
mod pair;
mod place;
mod point;
mod ranges;
mod record_type;
mod side;
mod tabled;
mod tables;
mod text;
mod turn;
mod type1;
mod type2;
mod type4;
mod type5;
mod type6;
mod type7;
mod type8;
mod type_i;
mod type_p;
mod writing;

pub use blank::Blank;
pub use fault::{DeviceFault, FieldFault, FieldKind};
pub use growing::reserve_ahead;
pub use laws::{
    a_mask_blanks_its_fields, a_turn_exchanges_partners, blanking_and_turning_change_places,
};
pub use layout::{LONGEST_LINE, Layout};
pub use mask::Mask;
pub use name::FeatureName;
pub use number::{are_digits, is_blank, trim_start};
pub use number_or_none::NumberOrNone;
pub use pair::LeftRight;
pub use point::Point;
pub use ranges::Ranges;
pub use record_type::{MOST_RECORDS, Record};
pub use side::Side;
pub use tabled::Tabled;
pub use tables::Tables;
pub use text::Text;
pub use turn::Turn;
pub use type_i::{BodyI, RecI};
pub use type_p::{BodyP, RecP};
pub use type1::Rec1;
pub use type1::body::Body1;
pub use type1::fields::{Body1Fields, GeographicEntities, NativeAreas};
pub use type2::Rec2;
pub use type4::Rec4;
pub use type5::{Body5, Rec5};
pub use type6::Rec6;
pub use type7::{Body7, Rec7};
pub use type8::Rec8;
pub use writing::put_line;
