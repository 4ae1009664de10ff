//! The files of a set: the outcomes of opening them, and the files as sources.

ghost use Rattle.std.specs.Prelude.{IfErr, IfOk, IsErr, Ok, OnErr, slice_get, ◌≡◌, ◌≢◌};
ghost use Rattle.std.specs.Io.KnownBytes.{ReadConsumes};
ghost use Rattle.std.specs.Io.{ReadsAtMost};
ghost use Rattle.std.specs.IoError.{error_kind};
ghost use Rattle.tigercanon.specs.Files.{AreCounted, AreReadable, bytes_of, is_absent, is_failed, lacks_file, opened_of};
ghost use Rattle.tigercanon.specs.Statuses.{set_of_job};

use crate::fault::Fault;
use crate::program::ending::{Stopped, stopped_in};
use command_line::Job;
use std::alloc::{AllocError, Global};
use std::io::{self, Error, ErrorKind, Read};
use tl_load::Counted;

/// A file, or the reason why it isn't open.
#[derive(Drop)]
pub enum Opened<R> {
    /// The file is open.
    Found(R),
    /// There is no such file.
    Absent,
    /// It could not be opened for any other reason.
    Failed,
}

impl<R> Opened<R> {
    /// Sorts the outcome of opening a file: an error of kind `NotFound` means an absent file, and any other error a file that can't
    /// be read.
    pub fn of(outcome: io::Result<R>) -> Opened<R>
        ensures found { IfOk outcome (λ file. result ≡ Opened.Found file) }
        ensures absent { IfErr outcome (λ error. error_kind error ≡ ErrorKind.NotFound → result ≡ Opened.Absent) }
        ensures failed { IfErr outcome (λ error. error_kind error ≢ ErrorKind.NotFound → result ≡ Opened.Failed) }
    {
        match outcome {
            Ok(file) => Opened::Found(file),
            Err(error) if error.kind() == ErrorKind::NotFound => Opened::Absent,
            Err(_) => Opened::Failed,
        }
    }
}

/// Reads the file: an absent one is empty, and one that couldn't be opened fails at every read.
impl<R: Read> Read for Opened<R> {
    ghost remaining = { bytes_of R.remaining };

    fn read(&mut self, buf: &mut [u8]) -> io::Result<usize>
        ensures bound { ReadsAtMost result buf.new }
        ensures bytes { ReadConsumes (bytes_of R.remaining self.old) (bytes_of R.remaining self.new) result buf.new }
        ensures absent { self.old ≡ Opened.Absent → (result ≡ Ok 0) × (self.new ≡ Opened.Absent) }
        ensures failed { self.old ≡ Opened.Failed → IsErr result × (self.new ≡ Opened.Failed) }
    {
        match self {
            Opened::Found(reader) => reader.read(buf),
            Opened::Absent => Ok(0),
            Opened::Failed => Err(Error::from(ErrorKind::Other)),
        }
    }
}

fn is_first_absent<R>(files: &[Opened<R>]) -> bool
    ensures { result ≡ is_absent (slice_get files.now 0) }
{
    match files.first() {
        Some(file) => matches!(file, Opened::Absent),
        None => false,
    }
}

fn has_failed<R>(file: &Opened<R>) -> bool
    ensures { result ≡ is_failed file.now }
{
    matches!(file, Opened::Failed)
}

/// Checks whether a set lacks a file that it needs: the first is absent, or one couldn't be opened.
pub(crate) fn lacks_file<R>(files: &[Opened<R>]) -> bool
    ensures { result ≡ lacks_file files.now }
{
    is_first_absent(files) || files.iter().any(|file| has_failed(file))
}

/// A file as a source that counts its failures. Each read of one that couldn't be opened fails.
pub type CountedFile<R> = Counted<Opened<R>>;

fn is_first_counted_absent<R>(files: &[CountedFile<R>]) -> bool
    ensures { result ≡ is_absent (slice_get (opened_of files.now) 0) }
{
    match files.first() {
        Some(file) => matches!(file.get_ref(), Opened::Absent),
        None => false,
    }
}

/// Checks the same for files that count their failures.
pub(crate) fn lacks_counted_file<R>(files: &[CountedFile<R>]) -> bool
    ensures { result ≡ lacks_file (opened_of files.now) }
{
    is_first_counted_absent(files) || files.iter().any(|file| has_failed(file.get_ref()))
}

/// Returns these files as sources, one each, that haven't failed.
fn count_failures<R: Read + Drop>(
    alloc: Global,
    files: Vec<Opened<R>>,
) -> Result<Vec<CountedFile<R>>, AllocError>
    ensures readable { IfOk result (λ sources. AreReadable sources.items) }
    ensures counted { IfOk result (λ sources. AreCounted sources.items files.items) }
{
    files
        .into_iter()
        .map(|file| Counted::new(file))
        .collect(alloc)
}

/// Returns the files of one of a job's sets, the first or the second, as sources that haven't failed. `opened` has the outcomes of opening
/// them, unless there was no memory for these.
///
/// # Errors
///
/// Out of memory, in this set.
pub fn open_set<R: Read + Drop>(
    alloc: Global,
    job: Job,
    set: u8,
    opened: Result<Vec<Opened<R>>, AllocError>,
) -> Result<Vec<CountedFile<R>>, Stopped>
    ensures readable { IfOk result (λ sources. AreReadable sources.items) }
    ensures opened { IfOk result (λ sources. IfOk opened (λ files. AreCounted sources.items files.items)) }
    ensures unopened { OnErr opened (IsErr result) }
    ensures memory { IfErr result (λ stopped. stopped ≡ record { fault = Fault.Memory; set = set_of_job job set }) }
{
    match opened {
        Ok(files) => match count_failures(alloc, files) {
            Ok(sources) => Ok(sources),
            Err(error) => Err(stopped_in(job, set, Fault::from(error))),
        },
        Err(error) => Err(stopped_in(job, set, Fault::from(error))),
    }
}
