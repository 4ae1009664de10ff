//! Records that know the table of their type.

ghost use Rattle.std.specs.Prelude.{OnErr, OnOk, ◌≡◌};
ghost use Rattle.tl_layout.specs.RecordTypes.{Type1, Type2, Type4, Type5, Type6, Type7, Type8, TypeI, TypeP, record_of};
ghost use Rattle.tl_layout.specs.Laws.RecordTypeLaws.{spelling_of_record, type_of_record};
ghost use Rattle.tl_layout.specs.RecordText.{spelling_of, type_of};
ghost use Rattle.tl_layout.specs.Tables.{AddsRecord, AreSameTables};
ghost use Rattle.tl_layout.specs.declared.record_type.Record.{Record};

use crate::growing::push_reserving;
use crate::{Layout, Rec1, Rec2, Rec4, Rec5, Rec6, Rec7, Rec8, RecI, RecP, Record, Tables};
use std::alloc::AllocError;

/// One of the nine record types: it converts its records to records of any type, and adds them to the
/// table of their type.
pub trait Tabled: Layout + Drop {
    /// The record as a record of any type.
    ghost as_record: { Self → Record };

    /// Converts the record to a record of any type.
    fn into_record(self) -> Record
        ensures { result ≡ as_record self };

    /// Appends the record to the table of its type.
    ///
    /// # Errors
    ///
    /// `AllocError` if an allocation failed.
    fn push_into(self, tables: &mut Tables) -> Result<(), AllocError>
        ensures ok { OnOk result (AddsRecord tables.old (as_record self) tables.new) }
        // If an allocation fails, the tables keep what they had.
        ensures err { OnErr result (AreSameTables tables.old tables.new) };

    /// Its type is the layout's.
    ghost type_is: { (r : Self) → type_of (as_record r) ≡ Self.RTYPE };

    /// Its canonical spelling is the layout's.
    ghost spelling_is: { (r : Self) → spelling_of (as_record r) ≡ Self.spelling r };
}

impl Tabled for Rec1 {
    ghost as_record = { record_of Type1 };

    fn into_record(self) -> Record {
        Record::One(self)
    }

    fn push_into(self, tables: &mut Tables) -> Result<(), AllocError> {
        push_reserving(&mut tables.type_1, self)
    }

    ghost type_is = { type_of_record Type1 };

    ghost spelling_is = { spelling_of_record Type1 };
}

impl Tabled for Rec2 {
    ghost as_record = { record_of Type2 };

    fn into_record(self) -> Record {
        Record::Two(self)
    }

    fn push_into(self, tables: &mut Tables) -> Result<(), AllocError> {
        push_reserving(&mut tables.type_2, self)
    }

    ghost type_is = { type_of_record Type2 };

    ghost spelling_is = { spelling_of_record Type2 };
}

impl Tabled for Rec4 {
    ghost as_record = { record_of Type4 };

    fn into_record(self) -> Record {
        Record::Four(self)
    }

    fn push_into(self, tables: &mut Tables) -> Result<(), AllocError> {
        push_reserving(&mut tables.type_4, self)
    }

    ghost type_is = { type_of_record Type4 };

    ghost spelling_is = { spelling_of_record Type4 };
}

impl Tabled for Rec5 {
    ghost as_record = { record_of Type5 };

    fn into_record(self) -> Record {
        Record::Five(self)
    }

    fn push_into(self, tables: &mut Tables) -> Result<(), AllocError> {
        push_reserving(&mut tables.type_5, self)
    }

    ghost type_is = { type_of_record Type5 };

    ghost spelling_is = { spelling_of_record Type5 };
}

impl Tabled for Rec6 {
    ghost as_record = { record_of Type6 };

    fn into_record(self) -> Record {
        Record::Six(self)
    }

    fn push_into(self, tables: &mut Tables) -> Result<(), AllocError> {
        push_reserving(&mut tables.type_6, self)
    }

    ghost type_is = { type_of_record Type6 };

    ghost spelling_is = { spelling_of_record Type6 };
}

impl Tabled for Rec7 {
    ghost as_record = { record_of Type7 };

    fn into_record(self) -> Record {
        Record::Seven(self)
    }

    fn push_into(self, tables: &mut Tables) -> Result<(), AllocError> {
        push_reserving(&mut tables.type_7, self)
    }

    ghost type_is = { type_of_record Type7 };

    ghost spelling_is = { spelling_of_record Type7 };
}

impl Tabled for Rec8 {
    ghost as_record = { record_of Type8 };

    fn into_record(self) -> Record {
        Record::Eight(self)
    }

    fn push_into(self, tables: &mut Tables) -> Result<(), AllocError> {
        push_reserving(&mut tables.type_8, self)
    }

    ghost type_is = { type_of_record Type8 };

    ghost spelling_is = { spelling_of_record Type8 };
}

impl Tabled for RecI {
    ghost as_record = { record_of TypeI };

    fn into_record(self) -> Record {
        Record::I(self)
    }

    fn push_into(self, tables: &mut Tables) -> Result<(), AllocError> {
        push_reserving(&mut tables.type_i, self)
    }

    ghost type_is = { type_of_record TypeI };

    ghost spelling_is = { spelling_of_record TypeI };
}

impl Tabled for RecP {
    ghost as_record = { record_of TypeP };

    fn into_record(self) -> Record {
        Record::P(self)
    }

    fn push_into(self, tables: &mut Tables) -> Result<(), AllocError> {
        push_reserving(&mut tables.type_p, self)
    }

    ghost type_is = { type_of_record TypeP };

    ghost spelling_is = { spelling_of_record TypeP };
}
