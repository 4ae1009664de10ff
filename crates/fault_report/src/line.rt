//! Lines that report faults. They are made on the stack, by calls that can't fail, so a line is whole before any of it is written.

ghost use Rattle.std.specs.Fmt.{decimal};
ghost use Rattle.std.specs.Prelude.{encode_utf8, length, ◌++◌, ◌+◌, ◌∷◌, ◌≡◌, ◌≤◌};
ghost use Rattle.hex.specs.Hex.{encode_lower};
ghost use Rattle.fault_report.specs.Reports.{place_text};

use crate::report::FaultPlace;
use arrayvec::ArrayVec;

/// The capacity of a line, in bytes. Every line is shorter.
pub const LINE_CAPACITY: usize = 160;

/// A line that reports a fault.
pub type Line = ArrayVec<u8, LINE_CAPACITY>;

/// Appends bytes.
pub fn push(line: &mut Line, bytes: &[u8])
    requires { length line.old.items + length bytes.now ≤ LINE_CAPACITY }
    ensures bytes { line.new.items ≡ line.old.items ++ bytes.now }
    ensures length { length line.new.items ≡ length line.old.items + length bytes.now }
{
    let _ = line.try_extend_from_slice(bytes);
}

/// Appends a number in decimal.
pub fn push_digits(line: &mut Line, number: u64)
    requires { length line.old.items + 20 ≤ LINE_CAPACITY }
    ensures bytes { line.new.items ≡ line.old.items ++ decimal number }
    ensures length { length line.new.items ≤ length line.old.items + 20 }
{
    let mut digits = itoa::Buffer::new();
    push(line, digits.format(number).as_bytes());
}

/// Appends a blank and a number in decimal.
fn push_number(line: &mut Line, number: u64)
    requires { length line.old.items + 21 ≤ LINE_CAPACITY }
    ensures bytes { line.new.items ≡ line.old.items ++ 32 ∷ decimal number }
    ensures length { length line.new.items ≤ length line.old.items + 21 }
{
    push(line, b" ");
    push_digits(line, number);
}

/// Appends a blank and the character of a record type.
fn push_record_type(line: &mut Line, byte: u8)
    requires { length line.old.items + 21 ≤ LINE_CAPACITY }
    ensures bytes { line.new.items ≡ line.old.items ++ 32 ∷ encode_utf8 byte }
    ensures length { length line.new.items ≤ length line.old.items + 21 }
{
    push(line, b" ");
    let mut character = [0; 4];
    push(
        line,
        char::from(byte).encode_utf8(&mut character).as_bytes(),
    );
}

/// Appends a blank and a CENID in hexadecimal digits.
fn push_cenid(line: &mut Line, cenid: &[u8; 5])
    requires { length line.old.items + 21 ≤ LINE_CAPACITY }
    ensures bytes { line.new.items ≡ line.old.items ++ 32 ∷ encode_lower cenid.now }
    ensures length { length line.new.items ≤ length line.old.items + 21 }
{
    push(line, b" ");
    let mut digits = [0; 10];
    let _ = hex::encode_to_slice(*cenid, &mut digits);
    push(line, &digits);
}

/// Appends a place, after a blank.
pub(crate) fn push_place(line: &mut Line, place: &FaultPlace)
    requires { length line.old.items + 21 ≤ LINE_CAPACITY }
    ensures bytes { line.new.items ≡ line.old.items ++ place_text place.now }
    ensures length { length line.new.items ≤ length line.old.items + 21 }
{
    match place {
        FaultPlace::Nowhere => (),
        FaultPlace::Number(number) => push_number(line, *number),
        FaultPlace::RecordType(byte) => push_record_type(line, *byte),
        FaultPlace::Cenid(cenid) => push_cenid(line, cenid),
    }
}
