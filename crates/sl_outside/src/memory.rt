//! Files and a sink in memory.

ghost use Rattle.std.specs.Prelude.{◌≡◌, ◌<◌, ◌≤◌, ◌↔◌, ◌++◌, [], ◌∷◌, Some, None, length, IfOk, OnOk, OnErr};
ghost use Rattle.std.specs.Result.{IsErrOf};
ghost use Rattle.std.specs.Io.KnownBytes.{WriteAppends};
ghost use Rattle.sl_outside.specs.Stops.{IsStopped};
ghost use Rattle.sl_outside.specs.Room.{fitting};

use crate::calls::Calls;
use crate::{FetchError, Files, SIZE_LIMIT, Sink, SinkError};
use std::alloc::{AllocError, Global};
use std::collections::BTreeMap;

/// Files that were added one by one. They tell their folder and the names that they were asked for.
///
/// A name counts as asked for as soon as it is noted; where that wants memory, nothing was asked for.
#[derive(Drop)]
pub struct MemFiles {
    alloc: Global,
    files: BTreeMap<String, Vec<u8>>,
    asked: Vec<String>,
    calls: Calls,
}

impl MemFiles {
    ghost use Rattle.sl_outside.specs.Folder.{IsTooLong, Puts, size_limit};
    ghost use Rattle.sl_outside.specs.Memory.{AddsFailing, IsUnchanged, fetches_of, folder_of, names_of};

    /// A folder without files. No fetch is to fail.
    pub fn new(alloc: Global) -> Self
        ensures empty { folder_of result ≡ (λ _. None) }
        ensures unasked { names_of result ≡ [] }
        ensures made { (fetches_of result).made ≡ 0 }
        ensures none_fails { (fetches_of result).failing.items ≡ [] }
    {
        let files = BTreeMap::new(alloc);
        let asked = Vec::new(alloc);
        let calls = Calls::new(alloc);
        MemFiles {
            alloc,
            files,
            asked,
            calls,
        }
    }

    /// Adds a file, of any length, in the place of an earlier one of the same name.
    pub fn add(&mut self, name: &str, bytes: &[u8]) -> Result<(), AllocError>
        ensures added { OnOk result (Puts (folder_of self.old) (folder_of self.new) name.now bytes.now) }
        ensures unchanged { OnErr result (folder_of self.new ≡ folder_of self.old) }
        ensures same_names { names_of self.new ≡ names_of self.old }
        ensures same_calls { fetches_of self.new ≡ fetches_of self.old }
    {
        let name = String::from_str(self.alloc, name)?;
        let bytes = Vec::from_slice(self.alloc, bytes)?;
        self.files.insert(name, bytes)?;
        Ok(())
    }

    /// From now on the fetch of this number fails. Fetches count from 1, the earlier ones among them.
    pub fn fail_on(&mut self, call: u64) -> Result<(), AllocError>
        ensures added { OnOk result (AddsFailing (fetches_of self.old) (fetches_of self.new) call) }
        ensures unchanged { OnErr result (IsUnchanged (fetches_of self.old) (fetches_of self.new)) }
        ensures same_folder { folder_of self.new ≡ folder_of self.old }
        ensures same_names { names_of self.new ≡ names_of self.old }
    {
        self.calls.fail_on(call)
    }

    /// Notes that this name was asked for, if there is memory.
    fn note(&mut self, name: &str) -> Result<(), AllocError>
        ensures noted { OnOk result (names_of self.new ≡ names_of self.old ++ name.now ∷ []) }
        ensures unchanged { OnErr result (names_of self.new ≡ names_of self.old) }
        ensures same_folder { folder_of self.new ≡ folder_of self.old }
        ensures same_calls { fetches_of self.new ≡ fetches_of self.old }
    {
        let name = String::from_str(self.alloc, name)?;
        self.asked.push(name)?;
        Ok(())
    }

    /// A copy of the file of this name.
    fn copy(&self, name: &str) -> Result<Vec<u8>, FetchError>
        ensures size { IfOk result (λ v. length v.items ≤ size_limit) }
        ensures found { IfOk result (λ v. folder_of self.now name.now ≡ Some v.items) }
        ensures absent { IsErrOf result FetchError.Absent → folder_of self.now name.now ≡ None }
        ensures too_long { IsErrOf result FetchError.TooLong → IsTooLong (folder_of self.now name.now) }
        ensures never_fails { IsErrOf result FetchError.Failed → ⊥ }
    {
        let Some(bytes) = self.files.get(name) else {
            return Err(FetchError::Absent);
        };
        if bytes.len() > SIZE_LIMIT {
            return Err(FetchError::TooLong);
        }
        match Vec::from_slice(self.alloc, bytes.as_slice()) {
            Ok(copy) => Ok(copy),
            Err(_) => Err(FetchError::NoMemory),
        }
    }
}

impl Files for MemFiles {
    ghost use Rattle.sl_outside.specs.Folder.{FolderHas, HoldsTooLong, Lacks, size_limit};
    ghost use Rattle.sl_outside.specs.Memory.{CountsCall, IsToFail};
    ghost use Rattle.sl_outside.specs.Memory.{asked_of, failed_fetches, fetches_of, told_of};
    ghost use Rattle.sl_outside.specs.Uses.{UsesFiles};

    ghost told = { told_of };

    ghost faults = { failed_fetches };

    ghost asked = { asked_of };

    fn fetch(&mut self, name: &str, into: &mut Vec<u8>) -> Result<(), FetchError>
        ensures size { OnOk result (length into.new.items ≤ size_limit) }
        ensures found { OnOk result (FolderHas (told_of self.old) name.now into.new.items) }

        ensures absent { IsErrOf result FetchError.Absent → Lacks (told_of self.old) name.now }
        ensures too_long { IsErrOf result FetchError.TooLong → HoldsTooLong (told_of self.old) name.now }
        ensures unchanged { OnErr result (into.new.items ≡ into.old.items) }
        ensures files { UsesFiles told_of failed_fetches asked_of self.old self.new (name.now ∷ [])
            (IsStopped result) (IsErrOf result FetchError.Failed) }

        ensures fails { IsErrOf result FetchError.Failed ↔ IsToFail (fetches_of self.old) }
        ensures counted { CountsCall (fetches_of self.old) (fetches_of self.new) }
    {
        let noted = self.note(name);
        if self.calls.count() {
            self.calls.fail();
            return Err(FetchError::Failed);
        }
        if noted.is_err() {
            return Err(FetchError::NoMemory);
        }
        match self.copy(name) {
            Ok(copy) => {
                *into = copy;
                Ok(())
            }
            Err(error) => Err(error),
        }
    }
}

/// A sink that keeps what it takes: of each piece as much as fits.
#[derive(Drop)]
pub struct MemSink {
    taken: Vec<u8>,
    room: Option<u64>,
    calls: Calls,
}

impl MemSink {
    ghost use Rattle.sl_outside.specs.Memory.{AddsFailing, IsUnchanged, bytes_of, puts_of, room_of};

    /// A sink that has taken nothing, with room for everything. No put is to fail.
    pub fn new(alloc: Global) -> Self
        ensures bytes { bytes_of result ≡ [] }
        ensures room { room_of result ≡ None }
        ensures made { (puts_of result).made ≡ 0 }
        ensures none_fails { (puts_of result).failing.items ≡ [] }
    {
        MemSink {
            taken: Vec::new(alloc),
            room: None,
            calls: Calls::new(alloc),
        }
    }

    /// All that the sink has taken.
    pub fn bytes(&self) -> &[u8]
        ensures { result.now ≡ bytes_of self.now }
    {
        self.taken.as_slice()
    }

    /// From now on the sink takes so many `bytes` more; the put that finds no room left fails.
    pub fn room(&mut self, bytes: u64)
        ensures room { room_of self.new ≡ Some bytes }
        ensures same_bytes { bytes_of self.new ≡ bytes_of self.old }
        ensures same_calls { puts_of self.new ≡ puts_of self.old }
    {
        self.room = Some(bytes);
    }

    /// From now on the put of this number fails. Puts count from 1, the earlier ones among them.
    pub fn fail_on(&mut self, call: u64) -> Result<(), AllocError>
        ensures added { OnOk result (AddsFailing (puts_of self.old) (puts_of self.new) call) }
        ensures unchanged { OnErr result (IsUnchanged (puts_of self.old) (puts_of self.new)) }
        ensures same_bytes { bytes_of self.new ≡ bytes_of self.old }
        ensures same_room { room_of self.new ≡ room_of self.old }
    {
        self.calls.fail_on(call)
    }
}

/// How many of `count` bytes fit.
fn fitting(room: Option<u64>, count: usize) -> usize
    ensures { result ≡ fitting room count }
{
    match room {
        None => count,
        Some(left) => left.min(count as u64) as usize,
    }
}

impl Sink for MemSink {
    ghost use Rattle.sl_outside.specs.Memory.{CountsCall, PutFails};
    ghost use Rattle.sl_outside.specs.Room.{fitting, room_after};
    ghost use Rattle.sl_outside.specs.Memory.{count_of_puts, failed_puts, puts_of, room_of, taken_of};
    ghost use Rattle.sl_outside.specs.Causes.{next_count};
    ghost use Rattle.sl_outside.specs.Uses.{UsesSink};

    ghost taken = { taken_of };

    ghost faults = { failed_puts };

    ghost calls = { count_of_puts };

    fn put(&mut self, piece: &[u8]) -> Result<usize, SinkError>
        requires { 0 < length piece.now }
        ensures some { IfOk result (λ count. (0 < count) × (count ≤ length piece.now)) }
        ensures appends { WriteAppends (taken_of self.old) (taken_of self.new) result piece.now }
        ensures counts { count_of_puts self.new ≡ next_count (count_of_puts self.old) }
        ensures sink { UsesSink failed_puts count_of_puts self.old self.new (IsErrOf result SinkError.Failed) }

        ensures fits { IfOk result (λ count. count ≡ fitting (room_of self.old) (length piece.now)) }
        ensures fails { IsErrOf result SinkError.Failed ↔ PutFails self.old }
        ensures counted { CountsCall (puts_of self.old) (puts_of self.new) }
        ensures room { IfOk result (λ count. room_of self.new ≡ room_after (room_of self.old) count) }
        ensures same_room { OnErr result (room_of self.new ≡ room_of self.old) }
    {
        if self.calls.count() || self.room == Some(0) {
            self.calls.fail();
            return Err(SinkError::Failed);
        }
        let count = fitting(self.room, piece.len());
        if self.taken.extend_from_slice(&piece[..count]).is_err() {
            return Err(SinkError::NoMemory);
        }
        self.room = self.room.map(|left| left - count as u64);
        Ok(count)
    }
}
