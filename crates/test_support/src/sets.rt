//! Patterns of lines in which `{n}` means n blanks, sets written in them, and the lines of records.
//!
//! A function that returns an `AllocError` does so if an allocation failed.

ghost use Rattle.std.specs.Prelude.{All, IfOk};
ghost use Rattle.tl_layout.specs.Limits.{IsWithinLimit, most_records};
ghost use Rattle.tl_layout.specs.RecordText.{FitsRecord};

use crate::masks::BOTH;
use bumpalo::Bump;
use std::alloc::{AllocError, Global};
use tl_cert::{Renaming, check};
use tl_county::{County, CountyIn, link, link_in};
use tl_layout::{Mask, Record};
use tl_load::{LoadFault, Loader};
use tl_profile::{Admitted, AdmittedIn, admit, admit_in};

/// Appends a piece of a pattern: as many blanks as the number before a `}`, if it has one, and the text.
fn put_piece(bytes: &mut Vec<u8>, piece: &str) -> Result<(), AllocError> {
    let (blanks, text) = piece.split_once('}').unwrap_or(("0", piece));
    let len = bytes.len().saturating_add(blanks.parse().unwrap_or(0));
    bytes.resize(len, b' ')?;
    bytes.extend_from_slice(text.as_bytes())
}

/// Appends the line of a pattern, terminated by LF.
fn put_line(bytes: &mut Vec<u8>, pattern: &str) -> Result<(), AllocError> {
    for piece in pattern.split('{') {
        put_piece(bytes, piece)?;
    }
    bytes.push(b'\n')?;
    Ok(())
}

/// Returns the lines of the patterns, each terminated by LF.
pub fn lines_of(alloc: Global, patterns: &[&str]) -> Result<Vec<u8>, AllocError> {
    let mut bytes = Vec::new(alloc);
    for pattern in patterns {
        put_line(&mut bytes, pattern)?;
    }
    Ok(bytes)
}

/// A set as patterns: its purpose or its refusal, its lines, and the lines of its canonical text if it is accepted.
pub type Row = (
    &'static str,
    &'static [&'static str],
    &'static [&'static str],
);

/// A set, its canonical text if it is accepted, and the mask for calls that take one.
#[derive(Clone, Copy)]
pub struct Set<'a> {
    pub row: &'a str,
    pub bytes: &'a [u8],
    pub text: &'a [u8],
    pub mask: Mask,
}

/// The bytes of a set and of its canonical text.
#[derive(Drop)]
pub struct SetLines {
    pub row: &'static str,
    pub bytes: Vec<u8>,
    pub text: Vec<u8>,
}

impl SetLines {
    /// Returns the set of this row.
    pub fn of(alloc: Global, row: &Row) -> Result<SetLines, AllocError> {
        let bytes = lines_of(alloc, row.1)?;
        let text = lines_of(alloc, row.2)?;
        let row = row.0;
        Ok(SetLines { row, bytes, text })
    }

    /// Returns the set with its text, borrowed, and a mask that leaves out everything that masks can leave out.
    pub fn set(&self) -> Set<'_> {
        self.under(BOTH)
    }

    /// Returns the set with its text, borrowed, and this mask.
    pub fn under(&self, mask: Mask) -> Set<'_> {
        Set {
            row: self.row,
            bytes: &self.bytes,
            text: &self.text,
            mask,
        }
    }
}

/// Appends the sets of a table.
fn put_sets(sets: &mut Vec<SetLines>, alloc: Global, rows: &[Row]) -> Result<(), AllocError> {
    for row in rows {
        sets.push(SetLines::of(alloc, row)?)?;
    }
    Ok(())
}

/// Returns the sets of these tables.
pub fn sets_of(alloc: Global, tables: &[&[Row]]) -> Result<Vec<SetLines>, AllocError> {
    let mut sets = Vec::new(alloc);
    for rows in tables {
        put_sets(&mut sets, alloc, rows)?;
    }
    Ok(sets)
}

/// Returns the records of this set.
///
/// # Errors
///
/// The first fault of the lines, or out of memory.
pub fn records_of(alloc: Global, set: &[u8]) -> Result<Vec<Record>, LoadFault>
    ensures fits { IfOk result (λ records. All FitsRecord records.items) }
    ensures few { IfOk result (λ records. IsWithinLimit most_records records.items) }
{
    let mut loader = Loader::new(alloc);
    loader.feed(set)?;
    loader.finish()
}

/// Returns the county of this set, or nothing if the set has a fault or an allocation failed.
pub fn county_of(alloc: Global, set: &[u8]) -> Option<County> {
    match records_of(alloc, set) {
        Ok(records) => link(alloc, records).ok(),
        Err(_) => None,
    }
}

/// Returns the same county in an arena.
pub fn county_in_of<'a>(alloc: Global, arena: &'a Bump, set: &[u8]) -> Option<CountyIn<'a>> {
    match records_of(alloc, set) {
        Ok(records) => link_in(alloc, arena, records).ok(),
        Err(_) => None,
    }
}

/// Returns the admitted county of this set, or nothing if the set is rejected or an allocation failed.
pub fn admitted_of(alloc: Global, set: &[u8]) -> Option<Admitted> {
    match county_of(alloc, set) {
        Some(county) => admit(alloc, county).ok(),
        None => None,
    }
}

/// Returns the same county in an arena.
pub fn admitted_in_of<'a>(alloc: Global, arena: &'a Bump, set: &[u8]) -> Option<AdmittedIn<'a>> {
    match county_in_of(alloc, arena, set) {
        Some(county) => admit_in(alloc, county).ok(),
        None => None,
    }
}

/// Checks whether the renaming carries one set's county onto another's. Returns nothing if a set has a fault or an allocation failed.
pub fn carries(alloc: Global, here: &[u8], there: &[u8], renaming: &Renaming) -> Option<bool> {
    let (here, there) = (county_of(alloc, here), county_of(alloc, there));
    match (&here, &there) {
        (Some(here), Some(there)) => check(alloc, here, there, renaming).ok(),
        _ => None,
    }
}

/// Returns the lines of records in canonical spelling, each terminated by LF.
pub fn spelled(alloc: Global, records: &[Record]) -> Result<Vec<u8>, AllocError> {
    let mut text = Vec::new(alloc);
    for record in records {
        let mut line = [0; 228];
        let len = record.line_len();
        record.put(&mut line[..len]);
        text.extend_from_slice(&line[..len])?;
        text.push(b'\n')?;
    }
    Ok(text)
}
