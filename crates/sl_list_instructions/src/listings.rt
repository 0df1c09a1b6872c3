//! Listings, whatever is shown at a position.

ghost use Rattle.std.specs.Prelude.{◌≡◌, ℕ, ◌<◌, ◌≤◌, ◌^◌, ◌++◌, List, IfOk, OnOk, OnErr};
ghost use Rattle.std.specs.Result.{IsErrOf};
ghost use Rattle.sl_decode_contexts.specs.Runs.{Stands};
ghost use Rattle.sl_decode_contexts.specs.declared.commits.Commit.{Commit as CommitOf};
ghost use Rattle.sl_list_instructions.specs.Fronts.{IsBegun, IsListed};
ghost use Rattle.sl_list_instructions.specs.UnderWay.{IsCut, IsNext};
ghost use Rattle.sl_outside.specs.Uses.{UsesSink};

use crate::writing::write_all;
use sl_decode_contexts::{Commit, ContextMap};
use sl_outside::Sink;
use std::alloc::{AllocError, Global};

/// Why a listing wasn't written whole.
#[derive(Clone, Copy, Debug, PartialEq, Eq)]
pub enum ListError {
    /// The writing failed; the sink's count of faults went up.
    WriteFault,
    NoMemory,
}

impl From<AllocError> for ListError {
    ghost use Rattle.std.specs.Prelude.{◌≡◌};
    ghost use Rattle.sl_list_instructions.specs.declared.listings.ListError.TheVariants.{NoMemory};

    ghost from_gives = { λ _ e. e ≡ NoMemory };

    fn from(_error: AllocError) -> ListError {
        ListError::NoMemory
    }
}

/// What tells the lines of a listing. Positions count bytes from 0 up to an end.
pub trait Lister {
    /// Buffers that are used again from position to position.
    type Buffers;

    /// What may be shown at a position after these commits: a text, how many bytes it covers, and
    /// the commits that it makes.
    ghost shows: { Self → ℕ → List CommitOf → List ℕ → ℕ → List CommitOf → Type 0 };

    ghost end: { Self → ℕ };

    /// What has to hold before a position is shown.
    ghost ready: { Self → Type 0 };

    /// The context where no commit counts.
    ghost start: { Self → ℕ };

    fn end(&self) -> usize
        ensures value { result ≡ end self.now }
        ensures within { end self.now < 2 ^ 63 };

    fn start(&self) -> u64
        ensures { result ≡ start self.now };

    /// Puts the text of the position and its commits in the place of what the buffers hold. The
    /// result is the number of bytes that it covers. The only error is want of memory.
    fn show(
        &self,
        at: usize,
        contexts: &ContextMap,
        buffers: &mut Self::Buffers,
        text: &mut Vec<u8>,
        commits: &mut Vec<Commit>,
    ) -> Result<usize, AllocError>
        requires ready { ready self.now }
        requires within { at < end self.now }
        ensures some { IfOk result (λ n. (1 ≤ n) × (n ≤ 255)) }
        ensures shown { IfOk result (λ n. (cs : List CommitOf)
            → Stands contexts.now (start self.now) cs
            → shows self.now at cs text.new.items n commits.new.items) };
}

/// Hands out one position, and makes its commits. The result is the number of bytes that it covers.
fn next_line<L: Lister, K: Sink>(
    lister: &L,
    at: usize,
    contexts: &mut ContextMap,
    buffers: &mut L::Buffers,
    text: &mut Vec<u8>,
    commits: &mut Vec<Commit>,
    out: &mut K,
) -> Result<usize, ListError>
    requires ready { L.ready lister.now }
    requires within { at < L.end lister.now }
    ensures some { IfOk result (λ n. (1 ≤ n) × (n ≤ 255)) }
    ensures next { IfOk result (λ n. (cs : List CommitOf)
        → Stands contexts.old (L.start lister.now) cs
        → IsNext (L.shows lister.now) at n cs (L.start lister.now) contexts.new
        (K.taken out.old) (K.taken out.new)) }
    ensures front { OnErr result ((cs : List CommitOf)
        → Stands contexts.old (L.start lister.now) cs
        → IsCut (L.shows lister.now) at cs (K.taken out.old) (K.taken out.new)) }
    ensures sink { UsesSink K.faults K.calls out.old out.new
        (IsErrOf result ListError.WriteFault) }
{
    let count = match lister.show(at, contexts, buffers, text, commits) {
        Ok(count) => count,
        Err(_) => return Err(ListError::NoMemory),
    };
    match write_all(out, text) {
        Ok(()) => {}
        Err(error) => return Err(error),
    }
    match contexts.commit_all(commits) {
        Ok(()) => Ok(count),
        Err(_) => Err(ListError::NoMemory),
    }
}

/// Writes the listing, each line before the next position is looked at. At an `Err` a front was
/// written of what some first positions say; `WriteFault` comes only where the sink failed.
pub fn list_all<L: Lister, K: Sink>(
    alloc: Global,
    lister: &L,
    buffers: &mut L::Buffers,
    out: &mut K,
) -> Result<(), ListError>
    requires { L.ready lister.now }
    ensures whole { OnOk result (IsListed (L.shows lister.now) (L.end lister.now)
        (K.taken out.old) (K.taken out.new)) }
    ensures front { OnErr result (IsBegun (L.shows lister.now) (L.end lister.now)
        (K.taken out.old) (K.taken out.new)) }
    ensures sink { UsesSink K.faults K.calls out.old out.new
        (IsErrOf result ListError.WriteFault) }
{
    let mut contexts = ContextMap::new(alloc, lister.start());
    let mut text = Vec::new(alloc);
    let mut commits = Vec::new(alloc);
    let mut at = 0;
    let end = lister.end();
    'lines: while at < end {
        let count = match next_line(
            lister,
            at,
            &mut contexts,
            buffers,
            &mut text,
            &mut commits,
            out,
        ) {
            Ok(count) => count,
            Err(error) => return Err(error),
        };
        at += count;
    }
    Ok(())
}
