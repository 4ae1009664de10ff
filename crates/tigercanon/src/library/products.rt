//! What the calls make from a canonical county: its text in memory, the renaming onto it, its text on a sink, and its hash.

ghost use Rattle.std.specs.Prelude.{IfOk, [], ◌<◌, ◌∷◌, ◌≡◌};
ghost use Rattle.tigercanon.specs.Sets.{CarriesSetInView, IsCanonicalTextInView};
ghost use Rattle.tigercanon.specs.Fingerprints.{IsFingerprintInView};
ghost use Rattle.tigercanon.specs.Normalising.{IsWrittenInView};
ghost use Rattle.county_chart.specs.MaskedCounty.{masked};
ghost use Rattle.county_chart.specs.Packing.{packed};
ghost use Rattle.tl_layout.specs.RecordText.{text_of};
ghost use Rattle.arranged_county.specs.Views.{arranged_county};

use crate::library::making::Product;
use renamings::Renaming;
use sha2::{Digest, Sha256};
use std::alloc::{AllocError, Global};
use tl_county::Chart;
use tl_layout::{DeviceFault, Mask};
use tl_number::CanonCounty;
use tl_write::{CountedOut, Sink, WriteFault, write_to};

/// From this many chains on, capacity for the text is reserved.
const MANY_CHAINS: usize = 1024;

/// The text of a county with all record types nearly always has at most this many bytes per chain.
const BYTES_A_CHAIN: usize = 512;

/// Returns an empty text. If the county has many chains, capacity for its text is reserved. Capacity that is never written takes no memory,
/// and if the allocation fails, the text grows like any other.
fn text_with_capacity(alloc: Global, chains: usize) -> Vec<u8>
    ensures { result.items ≡ [] }
{
    let mut text = Vec::new(alloc);
    if chains >= MANY_CHAINS {
        let _ = text.reserve(chains.saturating_mul(BYTES_A_CHAIN));
    }
    text
}

fn text_in_memory<C: Chart>(alloc: Global, county: &CanonCounty<C>) -> Result<Vec<u8>, AllocError>
    ensures { IfOk result (λ text. text.items ≡ text_of (packed (arranged_county county.now))) }
{
    let mut sink = CountedOut::new(text_with_capacity(alloc, county.chain_count()));
    match write_to(county, &mut sink) {
        Ok(_) => Ok(sink.into_inner()),
        // A vector fails only if it can't grow.
        Err(_) => Err(AllocError),
    }
}

/// A sink that takes everything written to it and keeps only the SHA-256 hash. It never fails.
#[derive(Drop)]
struct Hashing {
    hasher: Sha256,
}

impl Sink for Hashing {
    ghost use Rattle.sha2.specs.Hashers.{Holds256};

    ghost failed = { λ _. 0 };

    ghost holds = { λ s. Holds256 s.hasher };

    fn failures(&self) -> u64 {
        0
    }

    fn write(&mut self, buf: &[u8]) -> Result<usize, DeviceFault> {
        self.hasher.update(buf);
        Ok(buf.len())
    }
}

/// Makes the canonical text, in memory.
#[derive(Drop)]
pub(crate) struct TextInMemory;

impl Product<()> for TextInMemory {
    type Out = Result<Vec<u8>, AllocError>;

    ghost IsReady = { λ _ _. Unit {0} };

    ghost Answers = { λ mask parts _ _ made _. IfOk made (λ text. IsCanonicalTextInView (masked mask) parts text.items) };

    fn of<C: Chart>(
        self,
        alloc: Global,
        county: &CanonCounty<C>,
        _device: &mut (),
        _mask: Mask,
    ) -> Result<Vec<u8>, AllocError> {
        text_in_memory(alloc, county)
    }
}

/// Makes the canonical text, in memory, and the renaming onto it.
#[derive(Drop)]
pub(crate) struct TextAndRenaming;

impl Product<()> for TextAndRenaming {
    type Out = Result<(Vec<u8>, Renaming), AllocError>;

    ghost IsReady = { λ _ _. Unit {0} };

    ghost Answers = { λ mask parts _ _ made _. IfOk made (λ answer. IsCanonicalTextInView (masked mask) parts answer.0.items
        × CarriesSetInView (masked mask) answer.1 parts (answer.0.items ∷ [])) };

    fn of<C: Chart>(
        self,
        alloc: Global,
        county: &CanonCounty<C>,
        _device: &mut (),
        _mask: Mask,
    ) -> Result<(Vec<u8>, Renaming), AllocError> {
        let renaming = county.renaming(alloc)?;
        let text = text_in_memory(alloc, county)?;
        Ok((text, renaming))
    }
}

/// Writes the canonical text to a sink, and returns how many bytes it has.
#[derive(Drop)]
pub(crate) struct Written;

impl<W: Sink> Product<W> for Written {
    ghost use Rattle.std.below.core.specs.declared.int.u64.TheConstants.{MAX};

    type Out = Result<u64, WriteFault>;

    ghost IsReady = { λ _ out. W.failed out < MAX };

    ghost Answers = { λ mask parts _ old made new. IsWrittenInView (masked mask) W.failed W.holds parts old new made };

    fn of<C: Chart>(
        self,
        _alloc: Global,
        county: &CanonCounty<C>,
        out: &mut W,
        _mask: Mask,
    ) -> Result<u64, WriteFault> {
        write_to(county, out)
    }
}

/// Makes the SHA-256 hash of the canonical text, which is hashed as it is written, and isn't kept.
#[derive(Drop)]
pub(crate) struct Hash;

impl Product<()> for Hash {
    type Out = [u8; 32];

    ghost IsReady = { λ _ _. Unit {0} };

    ghost Answers = { λ mask parts _ _ hash _. IsFingerprintInView (masked mask) parts hash };

    fn of<C: Chart>(
        self,
        _alloc: Global,
        county: &CanonCounty<C>,
        _device: &mut (),
        _mask: Mask,
    ) -> [u8; 32] {
        let mut hashing = Hashing {
            hasher: Sha256::new(),
        };
        // Hashing never fails.
        let _ = write_to(county, &mut hashing);
        hashing.hasher.finalize()
    }
}
