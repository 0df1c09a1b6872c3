//! What the program reads and writes: files by their names, and a sink that takes bytes.
#![tactic(auto)]

ghost use Rattle.std.specs.Prelude.{◌≡◌, ℕ, ◌<◌, ◌≤◌, [], ◌∷◌, List, Option, length, IfOk, OnOk, OnErr};
ghost use Rattle.std.specs.Result.{IsErrOf};
ghost use Rattle.std.specs.Io.KnownBytes.{WriteAppends};
ghost use Rattle.sl_outside.specs.Causes.{next_count};
ghost use Rattle.sl_outside.specs.Folder.{Folder, FolderHas, Lacks, HoldsTooLong, size_limit};
ghost use Rattle.sl_outside.specs.Stops.{IsStopped};
ghost use Rattle.sl_outside.specs.Uses.{Names, UsesFiles, UsesSink};

mod calls;
mod disk;
mod memory;

pub use disk::{DiskFiles, StdSink};
pub use memory::{MemFiles, MemSink};

/// The most bytes that a file may have: 16 mebibytes.
pub const SIZE_LIMIT: usize = 16_777_216;

/// Why a file wasn't handed out.
#[derive(Clone, Copy, Debug, Drop, PartialEq, Eq)]
pub enum FetchError {
    /// There is no file of this name.
    Absent,
    /// The file has more than `SIZE_LIMIT` bytes.
    TooLong,
    /// The reading failed; the count of faults went up.
    Failed,
    NoMemory,
}

/// Why no byte of a piece was taken.
#[derive(Clone, Copy, Debug, Drop, PartialEq, Eq)]
pub enum SinkError {
    /// The writing failed; the count of faults went up.
    Failed,
    NoMemory,
}

/// Files by their names.
///
/// `told` is the folder that the files come from, where the object says it; `faults` counts the
/// readings that failed, at most 2^64 - 1 of them; `asked` has the names that were asked for, in
/// their order, where the object says it.
pub trait Files {
    ghost told: { Self → Option Folder };

    ghost faults: { Self → ℕ };

    ghost asked: { Self → Names };

    /// Puts the bytes of the named file in the place of what `into` holds.
    fn fetch(&mut self, name: &str, into: &mut Vec<u8>) -> Result<(), FetchError>
        ensures size { OnOk result (length into.new.items ≤ size_limit) }
        ensures found { OnOk result (FolderHas (told self.old) name.now into.new.items) }

        ensures absent { IsErrOf result FetchError.Absent → Lacks (told self.old) name.now }
        ensures too_long { IsErrOf result FetchError.TooLong → HoldsTooLong (told self.old) name.now }
        ensures unchanged { OnErr result (into.new.items ≡ into.old.items) }

        ensures files { UsesFiles told faults asked self.old self.new (name.now ∷ [])
            (IsStopped result) (IsErrOf result FetchError.Failed) };
}

/// A sink of bytes.
///
/// `taken` is all that the sink has taken, where the object says it; `faults` counts the writings
/// that failed, and `calls` all calls of `put`, each at most 2^64 - 1 of them.
pub trait Sink {
    ghost taken: { Self → Option (List ℕ) };

    ghost faults: { Self → ℕ };

    ghost calls: { Self → ℕ };

    /// Takes one or more bytes from the front of the piece, and says how many.
    fn put(&mut self, piece: &[u8]) -> Result<usize, SinkError>
        requires { 0 < length piece.now }
        ensures some { IfOk result (λ count. (0 < count) × (count ≤ length piece.now)) }
        ensures appends { WriteAppends (taken self.old) (taken self.new) result piece.now }
        ensures counts { calls self.new ≡ next_count (calls self.old) }
        ensures sink { UsesSink faults calls self.old self.new (IsErrOf result SinkError.Failed) };
}
