//! What one question leaves to the next.

ghost use Rattle.std.specs.Prelude.{◌≡◌, List, [], IfOk, OnErr, OnOk};
ghost use Rattle.sl_decode_contexts.specs.declared.commits.Commit.{Commit as CommitOf};
ghost use Rattle.sl_session.specs.Answers.{window_of};
ghost use Rattle.sl_session.specs.Operations.{IsTranslated};
ghost use Rattle.sl_session.specs.Readers.{IsRead, StandsFor, choice_in, specification_in};
ghost use Rattle.sl_session.specs.Sessions.{Answers, GoesOn, HasMade, IsCutShort, Translates};

use crate::answer::{Answer, Translated};
use crate::buffers::Buffers;
use crate::reader::Reader;
use sl_decode_contexts::ContextMap;
use sl_list_instructions::window_at;
use std::alloc::{AllocError, Global};

/// What one question leaves to the next: the context where no commit counts, the commits so far,
/// and buffers.
#[derive(Drop)]
pub struct Session {
    pub alloc: Global,
    /// The context where no commit counts.
    pub start: u64,
    /// The commits so far.
    pub contexts: ContextMap,
    /// The last answer, and its tree.
    pub buffers: Buffers,
}

impl Session {
    /// A session in which nothing was asked yet.
    pub fn new(alloc: Global, start: u64) -> Self
        ensures start { result.start ≡ start }
        ensures none { HasMade result [] }
    {
        Session {
            alloc,
            start,
            contexts: ContextMap::new(alloc, start),
            buffers: Buffers::new(alloc),
        }
    }

    /// Begins anew from this context: no commit counts any more.
    pub fn begin(&mut self, start: u64)
        ensures start { self.new.start ≡ start }
        ensures none { HasMade self.new [] }
    {
        self.start = start;
        self.contexts = ContextMap::new(self.alloc, start);
    }

    /// Forgets the commits.
    pub fn forget(&mut self)
        ensures start { self.new.start ≡ self.old.start }
        ensures none { HasMade self.new [] }
    {
        self.begin(self.start);
    }

    /// What stands at an address: the instruction to which `bytes` decode, which zeros follow, or why
    /// there is none. Its text, its commits and its tree are in the buffers, and no commit counts
    /// yet. The only error is want of memory.
    pub fn read_at(
        &mut self,
        reader: &Reader<'_, '_>,
        bytes: &[u8],
        address: u64,
    ) -> Result<Answer, AllocError>
        ensures read { IfOk result (λ answer. (made : List CommitOf)
            → StandsFor reader.now → HasMade self.old made
            → IsRead (specification_in reader.now) (choice_in reader.now) self.old.start made
            (window_of bytes.now) address answer self.new.buffers) }
        ensures start { self.new.start ≡ self.old.start }
        ensures contexts { self.new.contexts ≡ self.old.contexts }
    {
        let window = window_at(bytes, 0);
        reader.read(&self.contexts, &window, address, &mut self.buffers)
    }

    /// The commits of the last answer count from now on. The only error is want of memory; then some
    /// first ones of them do.
    pub fn go_on(&mut self) -> Result<(), AllocError>
        ensures all { OnOk result ((made : List CommitOf) → HasMade self.old made
            → GoesOn self.old.start made self.new) }
        ensures some { OnErr result ((made : List CommitOf) → HasMade self.old made
            → IsCutShort self.old.start made self.new) }
        ensures buffers { self.new.buffers ≡ self.old.buffers }
    {
        self.contexts.commit_all(self.buffers.commits.as_slice())
    }

    /// What stands at an address, with the operations of an instruction. No commit counts yet. The
    /// only error is want of memory.
    pub fn look_at(
        &mut self,
        reader: &Reader<'_, '_>,
        bytes: &[u8],
        address: u64,
    ) -> Result<Translated, AllocError>
        ensures looks { IfOk result (λ x. (made : List CommitOf)
            → StandsFor reader.now → HasMade self.old made
            → IsTranslated (specification_in reader.now) (choice_in reader.now) self.old.start made
            (window_of bytes.now) address x.answer x.built self.new.buffers.text.items
            self.new.buffers.commits.items) }
        ensures start { self.new.start ≡ self.old.start }
        ensures contexts { self.new.contexts ≡ self.old.contexts }
    {
        let answer = match self.read_at(reader, bytes, address) {
            Ok(answer) => answer,
            Err(error) => return Err(error),
        };
        let window = window_at(bytes, 0);
        reader.build(self.alloc, answer, &window, address, &self.buffers)
    }

    /// What stands at an address. Its text is in the buffers, and its commits count from then on. The
    /// only error is want of memory; then some first ones of its commits may count.
    pub fn decode_at(
        &mut self,
        reader: &Reader<'_, '_>,
        bytes: &[u8],
        address: u64,
    ) -> Result<Answer, AllocError>
        ensures answers { IfOk result (λ answer. (made : List CommitOf)
            → StandsFor reader.now → HasMade self.old made
            → Answers reader.now self.old.start made bytes.now address answer self.new) }
        ensures cut { OnErr result ((made : List CommitOf) → HasMade self.old made
            → IsCutShort self.old.start made self.new) }
    {
        let answer = match self.read_at(reader, bytes, address) {
            Ok(answer) => answer,
            Err(error) => return Err(error),
        };
        match self.go_on() {
            Ok(()) => Ok(answer),
            Err(error) => Err(error),
        }
    }

    /// The same with the operations of an instruction.
    pub fn translate_at(
        &mut self,
        reader: &Reader<'_, '_>,
        bytes: &[u8],
        address: u64,
    ) -> Result<Translated, AllocError>
        ensures translates { IfOk result (λ translated. (made : List CommitOf)
            → StandsFor reader.now → HasMade self.old made
            → Translates reader.now self.old.start made bytes.now address translated self.new) }
        ensures cut { OnErr result ((made : List CommitOf) → HasMade self.old made
            → IsCutShort self.old.start made self.new) }
    {
        let translated = match self.look_at(reader, bytes, address) {
            Ok(translated) => translated,
            Err(error) => return Err(error),
        };
        match self.go_on() {
            Ok(()) => Ok(translated),
            Err(error) => Err(error),
        }
    }
}
