//! All memory that a process can have, taken so that none is left for others.

use std::alloc::{AllocError, Global};

/// The largest piece that is requested: half of the memory that a process can address.
const LARGEST: usize = 70_368_744_177_664;

/// The largest of the small pieces. Up to this size, pieces of all sizes are requested.
const SMALL: usize = 2048;

/// More pieces than can be found.
const MANY: usize = 100_000;

/// Takes pieces of this size until none is left.
fn take_all(alloc: Global, pieces: &mut Vec<Vec<u8>>, size: usize) {
    for _ in pieces.len()..MANY {
        match Vec::with_capacity(alloc, size) {
            Ok(piece) => {
                if pieces.push(piece).is_err() {
                    return;
                }
            }
            Err(_) => return,
        }
    }
}

/// Takes all memory that is left, in pieces that are never used.
///
/// # Errors
///
/// `AllocError` if there is no memory for the list of them.
pub fn all_memory(alloc: Global) -> Result<Vec<Vec<u8>>, AllocError> {
    let mut pieces = Vec::with_capacity(alloc, MANY)?;
    for halved in 0..36u32 {
        take_all(alloc, &mut pieces, LARGEST >> halved);
    }
    for less in 0..128 {
        take_all(alloc, &mut pieces, SMALL - 16 * less);
    }
    Ok(pieces)
}

/// Checks whether a single byte is refused.
pub fn is_all_taken(alloc: Global) -> bool {
    Vec::<u8>::with_capacity(alloc, 1).is_err()
}
