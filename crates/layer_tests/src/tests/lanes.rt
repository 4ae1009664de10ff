//! The place of the first byte that no line may hold, in texts of every length around that of the lanes.

use super::Host;
use super::comparing::same;
use tl_load::first_bad;

/// The first and the last bytes of the ranges that no line may hold, and of the ranges that a line may hold, each with whether it
/// is forbidden.
const BYTES: [(u8, bool); 9] = [
    (0x00, true),
    (0x1f, true),
    (0x20, false),
    (0x7e, false),
    (0x7f, true),
    (0x80, true),
    (0x9f, true),
    (0xa0, false),
    (0xff, false),
];

/// The longest text.
const MOST: usize = 100;

fn put_byte(text: &mut [u8; MOST], place: usize, byte: u8) {
    if let Some(there) = text.get_mut(place) {
        *there = byte;
    }
}

/// In a text of `len` letters with `byte` at `place`, the first bad byte is at `place` if `byte` is forbidden, and otherwise at
/// `other`.
fn is_found(rt: &impl Host, len: usize, place: usize, byte: (u8, bool), other: Option<usize>) {
    let mut text = [b'A'; MOST];
    put_byte(&mut text, other.unwrap_or(MOST), 0x7f);
    put_byte(&mut text, place, byte.0);
    let wanted = if byte.1 { Some(place) } else { other };
    let found = first_bad(text.get(..len).unwrap_or_default());
    let row = "the first bad byte";
    same(rt, row, &(byte, place, found), &(byte, place, wanted));
}

/// Each byte is classified correctly at this place, with a bad byte at `other` if there is one.
fn are_distinguished(rt: &impl Host, len: usize, place: usize, other: Option<usize>) {
    for byte in BYTES {
        is_found(rt, len, place, byte, other);
    }
}

/// The same at each place of a text of this length.
fn are_distinguished_everywhere(rt: &impl Host, len: usize) {
    let none = first_bad(&[b'A'; MOST][..len.min(MOST)]);
    same(rt, "no bad byte", &none, &None);
    for place in 0..len {
        are_distinguished(rt, len, place, None);
    }
}

#[test]
fn the_first_bad_byte_is_found_at_each_place(rt: HostRuntime) {
    for len in 0..101 {
        are_distinguished_everywhere(&rt, len);
    }
    are_distinguished(&rt, MOST, 31, Some(32));
    are_distinguished(&rt, MOST, 32, Some(64));
}
