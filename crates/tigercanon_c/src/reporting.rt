//! A fault reported as numbers, and its status.

ghost use Rattle.std.specs.Prelude.{List, ℕ, ◌<◌, ◌≡◌, ◌≢◌, ◌⊎◌};
ghost use Rattle.tigercanon.specs.Comparing.{ReportsRefusalOfOne};
ghost use Rattle.tigercanon.specs.Faults.{IsWantOfMemory, ReportsRefusalOfRead};
ghost use Rattle.tigercanon.specs.Statuses.{status_of};
ghost use Rattle.tigercanon_c.specs.Answers.{ReportsFirstFaultOfRead, status_of_two};
ghost use Rattle.tigercanon_c.specs.Reported.{fault_reported, fault_reported_of_two, in_numbers, no_fault, place_number, with_numbers, with_polygon, with_type};

use crate::edge::FaultNumbers;
use fault_report::{FaultPlace, FaultReport};
use tigercanon::{CompareFault, Fault};
use tl_load::LoadFault;

/// Returns a fault with up to three numbers as its places.
fn with_numbers(set: u8, number: u8, first: u64, second: u64, third: u64) -> FaultNumbers
    ensures { result ≡ with_numbers set number first second third }
{
    FaultNumbers {
        number,
        set,
        record_type: 0,
        cenid: [0, 0, 0, 0, 0],
        first,
        second,
        third,
    }
}

/// Returns a fault with a record type and a TLID as its places.
fn with_type(set: u8, number: u8, record_type: u8, tlid: u64) -> FaultNumbers
    ensures { result ≡ with_type set number record_type tlid }
{
    FaultNumbers {
        number,
        set,
        record_type,
        cenid: [0, 0, 0, 0, 0],
        first: tlid,
        second: 0,
        third: 0,
    }
}

/// Returns a fault with a polygon as its place.
fn with_polygon(set: u8, number: u8, cenid: [u8; 5], polyid: u64) -> FaultNumbers
    ensures { result ≡ with_polygon set number cenid polyid }
{
    FaultNumbers {
        number,
        set,
        record_type: 0,
        cenid,
        first: polyid,
        second: 0,
        third: 0,
    }
}

/// Returns the number at a place, or 0 if there is none.
fn place_number(place: FaultPlace) -> u64
    ensures { result ≡ place_number place }
{
    match place {
        FaultPlace::Number(number) => number,
        FaultPlace::Nowhere | FaultPlace::RecordType(_) | FaultPlace::Cenid(_) => 0,
    }
}

/// Returns the report of a fault in numbers. `set` is 1 or 2 for one of two sets, and else 0.
fn in_numbers(set: u8, report: FaultReport) -> FaultNumbers
    ensures { result ≡ in_numbers set report }
{
    let number = report.kind.number();
    let [first, second, third] = report.places;
    let (one, two, three) = (
        place_number(first),
        place_number(second),
        place_number(third),
    );
    match first {
        FaultPlace::RecordType(byte) => with_type(set, number, byte, two),
        FaultPlace::Cenid(cenid) => with_polygon(set, number, cenid, two),
        FaultPlace::Number(_) | FaultPlace::Nowhere => with_numbers(set, number, one, two, three),
    }
}

/// Returns a fault in numbers. `set` is 1 or 2 for one of two sets, and else 0.
fn fault_reported(set: u8, fault: Fault) -> FaultNumbers
    ensures { result ≡ fault_reported set fault }
{
    in_numbers(set, fault.report())
}

/// Reports that there is no fault, and returns status 0.
pub(crate) fn report_none(fault: &mut FaultNumbers) -> u8
    ensures status { result ≡ 0 }
    ensures reported { fault.new ≡ no_fault }
{
    *fault = with_numbers(0, 0, 0, 0, 0);
    0
}

/// Reports the fault of a set, and returns its status.
pub(crate) fn report(of: Fault, fault: &mut FaultNumbers) -> u8
    ensures status { result ≡ status_of of }
    ensures reported { fault.new ≡ fault_reported 0 of }
    ensures failed { 1 < result }
    ensures refused { (parts : List (List ℕ)) → ReportsRefusalOfRead parts of → (result ≡ 3) ⊎ (result ≡ 5) }
    ensures faulty { (parts : List (List ℕ)) → ReportsFirstFaultOfRead parts of → (result ≡ 3) ⊎ (result ≡ 5) }
    ensures memory { IsWantOfMemory of → result ≡ 5 }
{
    *fault = fault_reported(0, of);
    of.status()
}

/// Reports the fault of one of two sets, and returns its status.
pub(crate) fn report_of_two(of: CompareFault, fault: &mut FaultNumbers) -> u8
    ensures status { result ≡ status_of_two of }
    ensures reported { fault.new ≡ fault_reported_of_two of }
    ensures failed { 1 < result }
    ensures refused { (a b : List (List ℕ)) → ReportsRefusalOfOne a b of
        → ((set : ℕ) → of ≢ CompareFault.In set (Fault.Load LoadFault.Device)) → (result ≡ 3) ⊎ (result ≡ 5) }
{
    match of {
        CompareFault::In { set, fault: of } => {
            *fault = fault_reported(set, of);
            of.status()
        }
        CompareFault::Memory => {
            *fault = fault_reported(0, Fault::Memory);
            5
        }
    }
}
