//! The files of the machine, and its standard output.

ghost use Rattle.std.specs.Prelude.{◌≡◌, ◌<◌, ◌≤◌, None, length, IfOk, IfErr};
ghost use Rattle.std.specs.Result.{IsErrOf};
ghost use Rattle.std.specs.Io.KnownBytes.{WriteAppends};
ghost use Rattle.sl_outside.specs.Causes.{Rose, next_count};
ghost use Rattle.sl_outside.specs.Uses.{UsesSink};

use crate::{FetchError, Files, SIZE_LIMIT, Sink, SinkError};
use std::alloc::Global;
use std::fs::File;
use std::io::{self, ErrorKind, Read};

/// The files of the machine, by their paths. It tells no folder.
///
/// A path that leads to nothing is absent: there is no such entry, a step goes through something
/// that isn't a directory, or the text is too long for a path or has a 0 byte in it. A directory,
/// or a file that can't be read, is a fault.
#[derive(Drop)]
pub struct DiskFiles<R: std::rt::Files + Drop> {
    alloc: Global,
    rt: R,
    faults: u64,
}

impl<R: std::rt::Files + Drop> DiskFiles<R> {
    pub fn new(alloc: Global, rt: R) -> Self
        ensures no_faults { result.faults ≡ 0 }
    {
        let faults = 0;
        DiskFiles { alloc, rt, faults }
    }

    // One byte past the limit is enough to see that a file is too long, also of one that never ends.
    fn read_front(&self, name: &str) -> io::Result<Vec<u8>> {
        let mut bytes = Vec::new(self.alloc);
        let limit = SIZE_LIMIT as u64 + 1;
        let _count = File::open(&self.rt, name)?
            .take(limit)
            .read_to_end(&mut bytes)?;
        Ok(bytes)
    }

    fn refusal(&mut self, kind: ErrorKind) -> FetchError
        ensures never_falls { self.old.faults ≤ self.new.faults }
        ensures failed { result ≡ FetchError.Failed → Rose self.old.faults self.new.faults }
    {
        match kind {
            ErrorKind::NotFound | ErrorKind::NotADirectory | ErrorKind::InvalidFilename => {
                FetchError::Absent
            }
            ErrorKind::OutOfMemory => FetchError::NoMemory,
            _ => {
                self.faults = self.faults.saturating_add(1);
                FetchError::Failed
            }
        }
    }
}

impl<R: std::rt::Files + Drop> Files for DiskFiles<R> {
    ghost told = { λ _. None };

    ghost faults = { λ files. files.faults };

    ghost asked = { λ _. None };

    fn fetch(&mut self, name: &str, into: &mut Vec<u8>) -> Result<(), FetchError> {
        if name.as_bytes().contains(&0) {
            return Err(FetchError::Absent);
        }
        match self.read_front(name) {
            Ok(bytes) => {
                if bytes.len() > SIZE_LIMIT {
                    return Err(FetchError::TooLong);
                }
                *into = bytes;
                Ok(())
            }
            Err(error) => Err(self.refusal(error.kind())),
        }
    }
}

/// The standard output. It doesn't tell what it has taken, and never wants memory.
///
/// A write that takes nothing is a fault.
#[derive(Drop)]
pub struct StdSink<R: Print + Drop> {
    rt: R,
    faults: u64,
    calls: u64,
}

impl<R: Print + Drop> StdSink<R> {
    pub fn new(rt: R) -> Self
        ensures no_faults { result.faults ≡ 0 }
        ensures no_calls { result.calls ≡ 0 }
    {
        StdSink {
            rt,
            faults: 0,
            calls: 0,
        }
    }
}

impl<R: Print + Drop> Sink for StdSink<R> {
    ghost taken = { λ _. None };

    ghost faults = { λ sink. sink.faults };

    ghost calls = { λ sink. sink.calls };

    fn put(&mut self, piece: &[u8]) -> Result<usize, SinkError>
        requires { 0 < length piece.now }
        ensures some { IfOk result (λ count. (0 < count) × (count ≤ length piece.now)) }
        ensures appends { WriteAppends None None result piece.now }
        ensures counts { self.new.calls ≡ next_count self.old.calls }
        ensures sink { UsesSink (λ s. s.faults) (λ s. s.calls) self.old self.new
            (IsErrOf result SinkError.Failed) }
        ensures no_other { IfErr result (λ error. error ≡ SinkError.Failed) }
    {
        self.calls = self.calls.saturating_add(1);
        match self.rt.write_some(piece) {
            Ok(count) if count > 0 => Ok(count),
            _ => {
                self.faults = self.faults.saturating_add(1);
                Err(SinkError::Failed)
            }
        }
    }
}
