//! The file names of a set.

ghost use Rattle.std.specs.Prelude.{IfOk, map, string_bytes, ◌++◌, ◌≡◌};
ghost use Rattle.command_line.specs.Names.{files_named};

use std::alloc::{AllocError, Global};

/// The suffixes of the file names of a set, one for each record type, in the order of the parts.
const SUFFIXES: [&str; 9] = [
    ".RT1", ".RT2", ".RT4", ".RT5", ".RT6", ".RT7", ".RT8", ".RTI", ".RTP",
];

fn with_suffix(alloc: Global, stem: &str, suffix: &str) -> Result<String, AllocError>
    ensures { IfOk result (λ name. string_bytes name ≡ stem.now ++ suffix.now) }
{
    let mut name = String::from_str(alloc, stem)?;
    name.push_str(suffix)?;
    Ok(name)
}

fn with_suffixes(alloc: Global, stem: &str, suffixes: &[&str]) -> Result<Vec<String>, AllocError>
    ensures { IfOk result (λ names. map string_bytes names.items ≡ map (λ suffix. stem.now ++ suffix.now) suffixes.now) }
{
    let mut names = Vec::with_capacity(alloc, suffixes.len())?;
    for suffix in suffixes {
        names.push(with_suffix(alloc, stem, suffix)?)?;
    }
    Ok(names)
}

/// Returns the file names of a set, which is named by its only file, or by the stem of its file names.
pub(crate) fn files_of(alloc: Global, name: &str, is_stem: bool) -> Result<Vec<String>, AllocError>
    ensures { IfOk result (λ names. map string_bytes names.items ≡ files_named is_stem name.now) }
{
    if is_stem {
        return with_suffixes(alloc, name, SUFFIXES.as_slice());
    }
    let mut names = Vec::new(alloc);
    names.push(String::from_str(alloc, name)?)?;
    Ok(names)
}
