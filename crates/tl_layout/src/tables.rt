//! The records of a set, by type.

ghost use Rattle.std.specs.Prelude.{All, IfOk, OnErr, OnOk, []};
ghost use Rattle.tl_layout.specs.RecordText.{FitsRecord};
ghost use Rattle.tl_layout.specs.Tables.{AddsRecord, AreSameTables, HoldsByType};

use crate::{Rec1, Rec2, Rec4, Rec5, Rec6, Rec7, Rec8, RecI, RecP, Record, Tabled};
use std::alloc::{AllocError, Global};

/// The records of a set, by type: a vector for each record type, with its records in their order in the set.
#[derive(Debug, Drop)]
pub struct Tables {
    /// Chains with their two end points (record type 1).
    pub type_1: Vec<Rec1>,
    /// Shape points of chains (record type 2).
    pub type_2: Vec<Rec2>,
    /// Further names of chains (record type 4).
    pub type_4: Vec<Rec4>,
    /// Names of features (record type 5).
    pub type_5: Vec<Rec5>,
    /// Further address ranges of chains (record type 6).
    pub type_6: Vec<Rec6>,
    /// Landmarks (record type 7).
    pub type_7: Vec<Rec7>,
    /// Polygons of landmarks (record type 8).
    pub type_8: Vec<Rec8>,
    /// Nodes of chains and the polygons beside them (record type I).
    pub type_i: Vec<RecI>,
    /// Polygons' inner points (record type P).
    pub type_p: Vec<RecP>,
}

impl Tables {
    /// Tables without records. Takes no memory.
    pub fn new(alloc: Global) -> Tables
        ensures { HoldsByType result [] }
    {
        Tables {
            type_1: Vec::new(alloc),
            type_2: Vec::new(alloc),
            type_4: Vec::new(alloc),
            type_5: Vec::new(alloc),
            type_6: Vec::new(alloc),
            type_7: Vec::new(alloc),
            type_8: Vec::new(alloc),
            type_i: Vec::new(alloc),
            type_p: Vec::new(alloc),
        }
    }

    /// Sorts the records of a list by type.
    ///
    /// # Errors
    ///
    /// `AllocError` if an allocation failed.
    pub fn of(alloc: Global, records: Vec<Record>) -> Result<Tables, AllocError>
        ensures held { IfOk result (λ tables. HoldsByType tables records.items) }
        // Each record fits, which the types of its fields guarantee.
        ensures fits { OnOk result (All FitsRecord records.items) }
    {
        let mut tables = Tables::new(alloc);
        for record in records {
            record.show_fit();
            tables.add(record)?;
        }
        Ok(tables)
    }

    /// Appends a record to the table of its type.
    ///
    /// # Errors
    ///
    /// `AllocError` if an allocation failed.
    pub fn add(&mut self, added: Record) -> Result<(), AllocError>
        ensures ok { OnOk result (AddsRecord self.old added self.new) }
        // If an allocation fails, the tables keep what they had.
        ensures err { OnErr result (AreSameTables self.old self.new) }
    {
        match added {
            Record::One(r) => r.push_into(self),
            Record::Two(r) => r.push_into(self),
            Record::Four(r) => r.push_into(self),
            Record::Five(r) => r.push_into(self),
            Record::Six(r) => r.push_into(self),
            Record::Seven(r) => r.push_into(self),
            Record::Eight(r) => r.push_into(self),
            Record::I(r) => r.push_into(self),
            Record::P(r) => r.push_into(self),
        }
    }
}
