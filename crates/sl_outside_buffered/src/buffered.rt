//! A sink that gathers what it takes before another one gets it.

ghost use Rattle.std.specs.Prelude.{◌≡◌, ◌<◌, ◌≤◌, [], length, IfOk, OnOk};
ghost use Rattle.std.specs.Result.{IsErrOf};
ghost use Rattle.std.specs.Io.KnownBytes.{Keeps, WriteAppends};
ghost use Rattle.sl_outside_buffered.specs.Buffered.{all_taken, waiting};
ghost use Rattle.sl_outside.specs.Causes.{next_count};
ghost use Rattle.sl_outside.specs.Uses.{UsesSink};

use sl_outside::{Sink, SinkError};
use std::alloc::{AllocError, Global};

/// How many bytes are gathered.
const CAPACITY: usize = 65_536;

/// A sink before another one, which gets many small pieces as one. What the two have taken stands
/// in the other one as soon as `flush` has ended well; before, up to 65,536 bytes may wait.
#[derive(Drop)]
pub struct BufferedSink<K: Sink + Drop> {
    /// The other sink.
    pub sink: K,
    gathered: Vec<u8>,
    /// How many of the gathered bytes the other sink has got.
    handed: usize,
    calls: u64,
    ghost within: { handed ≤ length gathered.items },
}

impl<K: Sink + Drop> BufferedSink<K> {
    /// Nothing waits. The only error is want of memory.
    pub fn new(alloc: Global, sink: K) -> Result<Self, AllocError>
        ensures sink { IfOk result (λ b. b.sink ≡ sink) }
        ensures empty { IfOk result (λ b. waiting b.handed b.gathered.items ≡ []) }
    {
        let gathered = Vec::with_capacity(alloc, CAPACITY)?;
        Ok(BufferedSink {
            sink,
            gathered,
            handed: 0,
            calls: 0,
        })
    }

    /// Hands on all that waits. At an `Err` what the other sink hasn't got waits on.
    pub fn flush(&mut self) -> Result<(), SinkError>
        ensures same { Keeps
            (all_taken (K.taken self.old.sink) (waiting self.old.handed self.old.gathered.items))
            (all_taken (K.taken self.new.sink) (waiting self.new.handed self.new.gathered.items)) }
        ensures all { OnOk result (waiting self.new.handed self.new.gathered.items ≡ []) }
        ensures room { OnOk result (self.new.gathered.items ≡ []) }
        ensures calls { self.new.calls ≡ self.old.calls }
        ensures sink { UsesSink (λ b. K.faults b.sink) (λ b. b.calls) self.old self.new
            (IsErrOf result SinkError.Failed) }
    {
        'pieces: while self.handed < self.gathered.len() {
            match self.sink.put(&self.gathered[self.handed..]) {
                Ok(count) => self.handed += count,
                Err(error) => return Err(error),
            }
        }
        self.handed = 0;
        self.gathered.clear();
        Ok(())
    }

    /// Gathers as many bytes from the front of the piece as there is room for.
    fn gather(&mut self, piece: &[u8]) -> Result<usize, SinkError>
        requires some { 0 < length piece.now }
        requires room { length self.old.gathered.items < CAPACITY }
        ensures some { IfOk result (λ count. (0 < count) × (count ≤ length piece.now)) }
        ensures appends { WriteAppends
            (all_taken (K.taken self.old.sink) (waiting self.old.handed self.old.gathered.items))
            (all_taken (K.taken self.new.sink) (waiting self.new.handed self.new.gathered.items))
            result piece.now }
        ensures faults { K.faults self.new.sink ≡ K.faults self.old.sink }
        ensures calls { self.new.calls ≡ self.old.calls }
        ensures never_fails { IsErrOf result SinkError.Failed → ⊥ }
    {
        let count = piece.len().min(CAPACITY - self.gathered.len());
        match self.gathered.extend_from_slice(&piece[..count]) {
            Ok(()) => Ok(count),
            Err(_) => Err(SinkError::NoMemory),
        }
    }
}

impl<K: Sink + Drop> Sink for BufferedSink<K> {
    ghost taken = { λ b. all_taken (K.taken b.sink) (waiting b.handed b.gathered.items) };

    ghost faults = { λ b. K.faults b.sink };

    ghost calls = { λ b. b.calls };

    fn put(&mut self, piece: &[u8]) -> Result<usize, SinkError> {
        self.calls = self.calls.saturating_add(1);
        if self.gathered.len() >= CAPACITY {
            self.flush()?;
        }
        self.gather(piece)
    }
}
