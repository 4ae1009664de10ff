//! Reading the parts of a set, from memory or from sources.
//!
//! Sources are read in two ways. Calls that stream a set, as the program's `normalise` does, stop at the read that brings a fault
//! ([`load_sources`]). The program's other jobs read each file to its end ([`read_to_ends`]), because they report a file that can't be
//! read before a fault in the lines.

ghost use Rattle.std.specs.Io.KnownBytes.{IsAtEnd};
ghost use Rattle.std.specs.Prelude.{All, Err, IfErr, IfOk, IfSome, List, OnOk, [], length, vec_len, ℕ, ◌+◌, ◌<◌, ◌≡◌, ◌≢◌, ◌≤◌};
ghost use Rattle.tigercanon.specs.Reading.{AreRead, IsFaultOfRead, IsUnread, NoneFailed, OneFailed, SomeUnread, TakesPart};
ghost use Rattle.tigercanon.specs.Devices.{StopsReading};
ghost use Rattle.tigercanon.specs.LentParts.{bytes_of_parts};
ghost use Rattle.tigercanon.specs.Respelling.{IsFirstFault};
ghost use Rattle.tl_layout.specs.Limits.{most_records};
ghost use Rattle.tl_layout.specs.declared.record_type.Record.{Record};
ghost use Rattle.tl_load.specs.Choice.{tiger};
ghost use Rattle.tl_load.specs.Keeping.{WasFedInto};
ghost use Rattle.tl_load.specs.Loaded.{IsNotDevice, IsOfLines};
ghost use Rattle.tl_load.specs.Outcome.{SpellsWithin};
ghost use Rattle.tl_load.specs.Sources.{Gave};

use crate::fault::Fault;
use std::alloc::{AllocError, Global};
use tl_load::{Collector, LoadFault, LoaderFor, Source};

/// Collects the records that the parts spell, in the order of their lines.
pub(crate) fn load<K: Collector>(alloc: Global, parts: &[&[u8]]) -> Result<K, LoadFault>
    ensures spelled { IfOk result (λ kept. (records : List Record) × K.holds kept records
        × SpellsWithin tiger most_records (bytes_of_parts parts.now) records) }
    ensures faulty { IfErr result (λ f. IsOfLines f → IsFirstFault (bytes_of_parts parts.now) f) }
    ensures no_device { IfErr result IsNotDevice }
{
    let mut loader = LoaderFor::<K>::new(alloc);
    for part in parts {
        loader.feed(part)?;
        loader.end_part()?;
    }
    loader.finish()
}

/// Returns a buffer for the bytes of one read.
fn read_buffer(alloc: Global) -> Result<Vec<u8>, AllocError>
    ensures { IfOk result (λ piece. 0 < vec_len piece) }
{
    vec![in alloc; 0u8; 65536]
}

/// Collects the records of the parts that the sources give. Reads each source to its end, in order, but no further than the read
/// that brings a fault.
pub(crate) fn load_sources<K: Collector, R: Source>(
    alloc: Global,
    sources: &mut [R],
) -> Result<K, LoadFault>
    requires { All (λ source. R.failed source < u64.MAX) sources.old }
    ensures loaded { IfOk result (λ kept. (parts : List (List ℕ)) × AreRead R.remaining R.given sources.old sources.new parts
        × (records : List Record) × K.holds kept records × SpellsWithin tiger most_records parts records) }
    ensures faulty { IfErr result (λ f. IsOfLines f → IsFaultOfRead R.remaining R.given R.reads sources.old sources.new f) }
    ensures device { result ≡ Err LoadFault.Device → OneFailed R.failed sources.old sources.new }
    ensures no_device { result ≢ Err LoadFault.Device → NoneFailed R.failed sources.old sources.new }
{
    let mut buffer = match read_buffer(alloc) {
        Ok(buffer) => buffer,
        Err(_) => return Err(LoadFault::Memory),
    };
    let buffer = buffer.as_mut_slice();
    let mut loader = LoaderFor::<K>::new(alloc);
    for source in sources.iter_mut() {
        loader.read_part_by(source, buffer)?;
    }
    loader.finish()
}

/// Reads a source to its end as the next part, even if its lines are faulty: the loader then keeps the fault. A source that has no
/// end counts as one that can't be read.
fn read_past_faults<K: Collector, R: Source>(
    loader: &mut LoaderFor<K>,
    source: &mut R,
    buffer: &mut [u8],
) -> Result<(), LoadFault>
    requires parts { loader.old.parts < u64.MAX }
    requires buffer { 0 < length buffer.old }
    requires failures { R.failed source.old < u64.MAX }
    requires no_device { IfSome loader.old.fault IsNotDevice }
    // The whole source was read, and no read failed.
    ensures fed { OnOk result ((part : List ℕ) × Gave R.remaining R.given source.old source.new part × IsAtEnd (R.remaining source.new)
        × TakesPart K.holds loader.old loader.new part) }
    ensures none_failed { OnOk result (R.failed source.new ≡ R.failed source.old) }
    ensures parts { loader.new.parts ≤ loader.old.parts + 1 }
    ensures no_device { IfSome loader.new.fault IsNotDevice }
    ensures device { IfErr result (λ f. (f ≡ LoadFault.Device) × IsUnread R.failed R.reads source.old source.new) }
{
    for made in 0..u64::MAX {
        match source.read(buffer) {
            Ok(0) => {
                let _ = loader.end_part();
                return Ok(());
            }
            Ok(count) => {
                let _ = loader.feed(&buffer[..count]);
            }
            Err(_) => return Err(LoadFault::Device),
        }
    }
    Err(LoadFault::Device)
}

/// Returns a loader that was fed what the sources give, each read to its end, in order. The loader reports faults in the lines when it
/// finishes.
pub(crate) fn read_to_ends<K: Collector, R: Source>(
    alloc: Global,
    sources: &mut [R],
) -> Result<LoaderFor<K>, Fault>
    requires { All (λ source. R.failed source < u64.MAX) sources.old }
    ensures fed { IfOk result (λ loader. (parts : List (List ℕ)) × AreRead R.remaining R.given sources.old sources.new parts
        × WasFedInto K.holds most_records loader parts []) }
    ensures reported_none { IfOk result (λ loader. IfSome loader.fault IsNotDevice) }
    ensures no_device { result ≢ Err (Fault.Load LoadFault.Device) → NoneFailed R.failed sources.old sources.new }
    ensures stopped { IfErr result (StopsReading (SomeUnread R.failed R.reads sources.old sources.new)) }
{
    let mut buffer = read_buffer(alloc)?;
    let buffer = buffer.as_mut_slice();
    let mut loader = LoaderFor::<K>::new(alloc);
    for source in sources.iter_mut() {
        read_past_faults(&mut loader, source, buffer)?;
    }
    Ok(loader)
}
