//! Readers and writers that transfer a few bytes at a time, and fail once.

use std::alloc::Global;
use std::cell::Cell;
use std::io::{self, Error, ErrorKind, Read, Write};

/// Returns all kinds of failures.
pub fn kinds() -> &'static [ErrorKind] {
    &[
        ErrorKind::NotFound,
        ErrorKind::PermissionDenied,
        ErrorKind::ConnectionRefused,
        ErrorKind::ConnectionReset,
        ErrorKind::HostUnreachable,
        ErrorKind::NetworkUnreachable,
        ErrorKind::ConnectionAborted,
        ErrorKind::NotConnected,
        ErrorKind::AddrInUse,
        ErrorKind::AddrNotAvailable,
        ErrorKind::NetworkDown,
        ErrorKind::BrokenPipe,
        ErrorKind::AlreadyExists,
        ErrorKind::WouldBlock,
        ErrorKind::NotADirectory,
        ErrorKind::IsADirectory,
        ErrorKind::DirectoryNotEmpty,
        ErrorKind::ReadOnlyFilesystem,
        ErrorKind::FilesystemLoop,
        ErrorKind::StaleNetworkFileHandle,
        ErrorKind::InvalidInput,
        ErrorKind::InvalidData,
        ErrorKind::TimedOut,
        ErrorKind::WriteZero,
        ErrorKind::StorageFull,
        ErrorKind::NotSeekable,
        ErrorKind::QuotaExceeded,
        ErrorKind::FileTooLarge,
        ErrorKind::ResourceBusy,
        ErrorKind::ExecutableFileBusy,
        ErrorKind::Deadlock,
        ErrorKind::CrossesDevices,
        ErrorKind::TooManyLinks,
        ErrorKind::InvalidFilename,
        ErrorKind::ArgumentListTooLong,
        ErrorKind::Interrupted,
        ErrorKind::Unsupported,
        ErrorKind::UnexpectedEof,
        ErrorKind::OutOfMemory,
        ErrorKind::InProgress,
        ErrorKind::Other,
        ErrorKind::Uncategorized,
    ]
}

/// Returns its bytes at most `step` at a time, and counts its reads. Only the read after `reads` of them fails.
#[derive(Drop)]
pub struct SlowReader<'a> {
    bytes: Vec<u8>,
    place: usize,
    step: usize,
    reads: Option<usize>,
    kind: ErrorKind,
    count: &'a Cell<usize>,
}

impl Read for SlowReader<'_> {
    fn read(&mut self, buf: &mut [u8]) -> io::Result<usize> {
        self.count.set(self.count.get().saturating_add(1));
        match self.reads {
            Some(0) => {
                self.reads = None;
                return Err(Error::from(self.kind));
            }
            Some(reads) => self.reads = Some(reads - 1),
            None => {}
        }
        let rest = self.bytes.get(self.place..).unwrap_or_default();
        let count = self.step.min(buf.len()).min(rest.len());
        buf[..count].copy_from_slice(&rest[..count]);
        self.place = self.place.saturating_add(count);
        Ok(count)
    }
}

/// Takes at most `step` bytes at a time, and counts its writes. Only the write after it holds `capacity` bytes fails.
#[derive(Drop)]
pub struct SlowWriter {
    /// What was written.
    pub held: Vec<u8>,
    /// The number of its writes.
    pub writes: usize,
    step: usize,
    capacity: Option<usize>,
    kind: ErrorKind,
}

impl Write for SlowWriter {
    fn write(&mut self, buf: &[u8]) -> io::Result<usize> {
        self.writes = self.writes.saturating_add(1);
        let left = match self.capacity {
            Some(capacity) => capacity.saturating_sub(self.held.len()),
            None => buf.len(),
        };
        if left == 0 && !buf.is_empty() {
            self.capacity = None;
            return Err(Error::from(self.kind));
        }
        let count = self.step.min(buf.len()).min(left);
        self.held.extend_from_slice(&buf[..count])?;
        Ok(count)
    }

    fn flush(&mut self) -> io::Result<()> {
        Ok(())
    }
}

/// Makes a reader of these bytes. A read returns at most `step` of them, and the read after `reads` fails.
pub fn reader(
    bytes: Vec<u8>,
    step: usize,
    reads: Option<usize>,
    kind: ErrorKind,
    count: &Cell<usize>,
) -> SlowReader<'_> {
    SlowReader {
        bytes,
        place: 0,
        step,
        reads,
        kind,
        count,
    }
}

/// Makes a writer that holds nothing yet, and fails with this kind of error.
pub fn failing_writer(alloc: Global, step: usize, capacity: usize, kind: ErrorKind) -> SlowWriter {
    SlowWriter {
        held: Vec::new(alloc),
        writes: 0,
        step,
        capacity: Some(capacity),
        kind,
    }
}

/// Makes a writer that holds nothing yet, and is interrupted.
pub fn writer(alloc: Global, step: usize, capacity: usize) -> SlowWriter {
    failing_writer(alloc, step, capacity, ErrorKind::Interrupted)
}
