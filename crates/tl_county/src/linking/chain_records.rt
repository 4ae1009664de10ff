//! The records of types 1 and I at their places, read before the chains are built from them.

ghost use Rattle.std.specs.Prelude.{IfOk, slice_get, ◌≡◌};
ghost use Rattle.ordered_lists.specs.Places.{at_places};

use std::alloc::{AllocError, Global};
use std::marker::Model;
use tl_layout::{Point, Rec1, RecI};

/// A type 1 record, with its TLID and its ends.
///
/// Trick: records can be in any order, so each read may wait for memory. The fields of all records are read before the first chain is
/// built, so that many waits overlap.
#[derive(Drop)]
pub(crate) struct ChainBasics<'t> {
    record: &'t Rec1,
    tlid: u64,
    start: Point,
    end: Point,
}

impl<'t> Model for ChainBasics<'t> {
    ghost use Rattle.std.specs.Prelude.{◌≡◌};
    ghost use Rattle.tl_layout.specs.Fields.{Fields1};

    ghost Value = { Fields1 };

    ghost view = { λ h. h.record.now };

    ghost invariant = { λ h. (h.tlid ≡ h.record.now.tlid) × (h.start ≡ h.record.now.start) × (h.end ≡ h.record.now.end) };
}

impl<'t> ChainBasics<'t> {
    /// Reads a record.
    fn new(basics: &'t Rec1) -> ChainBasics<'t>
        ensures { result ≡ basics.now }
    {
        ChainBasics {
            record: basics,
            tlid: basics.tlid(),
            start: basics.start(),
            end: basics.end(),
        }
    }

    pub(crate) fn record(&self) -> &'t Rec1
        ensures { result.now ≡ self.now }
    {
        self.record
    }

    pub(crate) fn tlid(&self) -> u64
        ensures { result ≡ self.now.tlid }
    {
        self.tlid
    }

    pub(crate) fn start(&self) -> Point
        ensures { result ≡ self.now.start }
    {
        self.start
    }

    pub(crate) fn end(&self) -> Point
        ensures { result ≡ self.now.end }
    {
        self.end
    }
}

fn basics_at<'t>(records: &'t [Rec1], place: u64) -> Option<ChainBasics<'t>>
    ensures { result ≡ slice_get records.now place }
{
    records
        .get(place as usize)
        .map(|basics| ChainBasics::new(basics))
}

pub(crate) fn all_basics_at<'t>(
    alloc: Global,
    records: &'t [Rec1],
    places: &[u64],
) -> Result<Vec<ChainBasics<'t>>, AllocError>
    ensures { IfOk result (λ all_basics. all_basics.items ≡ at_places records.now places.now) }
{
    let mut all_basics = Vec::with_capacity(alloc, places.len())?;
    all_basics.extend(places.iter().filter_map(|place| basics_at(records, *place)))?;
    Ok(all_basics)
}

/// A type I record.
#[derive(Drop)]
pub(crate) struct ChainTopology<'t> {
    record: &'t RecI,
}

impl<'t> Model for ChainTopology<'t> {
    ghost use Rattle.tl_layout.specs.Fields.{FieldsI};

    ghost Value = { FieldsI };

    ghost view = { λ l. l.record.now };
}

impl<'t> ChainTopology<'t> {
    pub(crate) fn record(&self) -> &'t RecI
        ensures { result.now ≡ self.now }
    {
        self.record
    }
}

fn topology_at<'t>(records: &'t [RecI], place: u64) -> Option<ChainTopology<'t>>
    ensures { result ≡ slice_get records.now place }
{
    records
        .get(place as usize)
        .map(|topology| ChainTopology { record: topology })
}

pub(crate) fn topologies_at<'t>(
    alloc: Global,
    records: &'t [RecI],
    places: &[u64],
) -> Result<Vec<ChainTopology<'t>>, AllocError>
    ensures { IfOk result (λ topologies. topologies.items ≡ at_places records.now places.now) }
{
    let mut topologies = Vec::with_capacity(alloc, places.len())?;
    topologies.extend(
        places
            .iter()
            .filter_map(|place| topology_at(records, *place)),
    )?;
    Ok(topologies)
}
