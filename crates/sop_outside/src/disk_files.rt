//! The files of the system.
ghost use Rattle.std.specs.Prelude.{◌≡◌, ◌≢◌, ◌≤◌, Err, None, IfOk, vec_len};

use crate::files::{Files, LoadEnd};
use crate::load_counts::LoadCounts;
use std::alloc::Global;
use std::fs::File;
use std::io::{ErrorKind, Read};
use std::marker::Model;
use std::{io, rt};

/// The files of the system, under their paths. They tell no bytes.
///
/// A load is Missing where opening the path finds nothing, TooLong where more bytes than the limit were read,
/// Memory for want of memory, and Failed for every other failure, as of a directory.
#[derive(Drop)]
pub struct DiskFiles<'a, R: rt::Files> {
    system: &'a R,
    counts: LoadCounts,
}

impl<'a, R: rt::Files> Model for DiskFiles<'a, R> {
    ghost use Rattle.sop_outside.specs.declared.load_counts.LoadCounts.{LoadCounts};

    ghost Value = { LoadCounts };

    ghost view = { λ f. f.counts };
}

impl<'a, R: rt::Files> DiskFiles<'a, R> {
    /// The files of the system, with all counts at 0.
    pub fn new(system: &'a R) -> DiskFiles<'a, R>
        ensures faults { result.faults ≡ 0 }
        ensures misses { result.misses ≡ 0 }
        ensures overs { result.overs ≡ 0 }
    {
        DiskFiles {
            system,
            counts: LoadCounts::ZERO,
        }
    }
}

impl<R: rt::Files> Files for DiskFiles<'_, R> {
    ghost told = { λ _. None };

    ghost faults = { λ f. f.faults };

    ghost misses = { λ f. f.misses };

    ghost overs = { λ f. f.overs };

    fn load(&mut self, alloc: Global, name: &str, limit: u64) -> Result<Vec<u8>, LoadEnd> {
        let loaded = load_file(self.system, alloc, name, limit);
        self.counts.count(&loaded);
        loaded
    }
}

/// The bytes of a file, of which nothing is known but that they are at most `limit`.
fn load_file<R: rt::Files>(
    system: &R,
    alloc: Global,
    name: &str,
    limit: u64,
) -> Result<Vec<u8>, LoadEnd>
    ensures { IfOk result (λ bytes. vec_len bytes ≤ limit) }
{
    match File::open(system, name) {
        Ok(file) => read_file(alloc, file, limit),
        Err(error) => Err(match error.kind() {
            ErrorKind::NotFound => LoadEnd::Missing,
            kind => end_of_reading(kind),
        }),
    }
}

/// The bytes of a file that was opened, if they are at most `limit`.
fn read_file<R: Read + Drop>(alloc: Global, file: R, limit: u64) -> Result<Vec<u8>, LoadEnd>
    ensures short { IfOk result (λ bytes. vec_len bytes ≤ limit) }
    ensures opened { result ≢ Err LoadEnd.Missing }
{
    match read_within(alloc, file, limit) {
        Ok(bytes) if bytes.len() as u64 <= limit => Ok(bytes),
        Ok(_) => Err(LoadEnd::TooLong),
        Err(error) => Err(end_of_reading(error.kind())),
    }
}

/// Reads at most `limit` bytes, and one more where there are more.
fn read_within<R: Read + Drop>(alloc: Global, reader: R, limit: u64) -> io::Result<Vec<u8>> {
    let mut bytes = Vec::new(alloc);
    reader
        .take(limit.saturating_add(1))
        .read_to_end(&mut bytes)?;
    Ok(bytes)
}

/// How a load of a file that is there ends where the system fails so.
fn end_of_reading(kind: ErrorKind) -> LoadEnd
    ensures { result ≢ LoadEnd.Missing }
{
    match kind {
        ErrorKind::OutOfMemory => LoadEnd::Memory,
        _ => LoadEnd::Failed,
    }
}
