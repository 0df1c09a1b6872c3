//! The bytes that are left.

ghost use Rattle.std.specs.Prelude.{◌≡◌, ◌≤◌, drop, length, IfOk};
ghost use Rattle.sl_store_bytes.specs.Lists.{below};
ghost use Rattle.sl_store_bytes.specs.Numbers as numbers;
ghost use Rattle.sl_store_bytes.specs.Reader as reader;
ghost use Rattle.sl_store_bytes.specs.Reads.{Reads, Plain, IsFault};
ghost use Rattle.sl_store_bytes.specs.Tables.{coded, got};

use crate::tables::Coded;
use std::alloc::{AllocError, AllocFailed};
use std::convert::From;
use std::marker::Model;

/// Why nothing is read.
#[derive(Debug, Drop)]
pub enum Stop {
    /// The bytes end too early.
    Cut,
    /// No file goes on so. The number counts the bytes that are left, the damaged one among them.
    Damaged(usize),
    NoMemory,
}

impl From<AllocError> for Stop {
    ghost use Rattle.std.specs.Prelude.{◌≡◌};
    ghost use Rattle.sl_store_bytes.specs.declared.bytes.Stop.TheVariants.{NoMemory};

    ghost from_gives = { λ _ e. e ≡ NoMemory };

    fn from(_error: AllocError) -> Stop {
        Stop::NoMemory
    }
}

impl<T: Drop> From<AllocFailed<T>> for Stop {
    ghost use Rattle.std.specs.Prelude.{◌≡◌};
    ghost use Rattle.sl_store_bytes.specs.declared.bytes.Stop.TheVariants.{NoMemory};

    ghost from_gives = { λ _ e. e ≡ NoMemory };

    fn from(_error: AllocFailed<T>) -> Stop {
        Stop::NoMemory
    }
}

/// The bytes that are left.
#[derive(Drop)]
pub struct Bytes<'a> {
    pub(crate) left: &'a [u8],
}

impl<'a> Model for Bytes<'a> {
    ghost use Rattle.std.specs.Prelude.{ℕ, List};

    ghost Value = { List ℕ };

    ghost view = { λ a. a.left.now };
}

impl<'a> Bytes<'a> {
    /// All of these.
    pub fn new(left: &'a [u8]) -> Bytes<'a>
        ensures { result ≡ left.now }
    {
        Bytes { left }
    }

    /// The byte that comes next.
    pub fn first(&self) -> Option<u8>
        ensures { result ≡ reader.first self.now }
    {
        match self.left {
            [] => None,
            [byte, ..] => Some(*byte),
        }
    }

    /// Takes the byte that comes next.
    pub fn skip(&mut self)
        ensures { self.new ≡ drop 1 self.old }
    {
        if let [_, rest @ ..] = self.left {
            self.left = rest;
        }
    }

    /// Why a reader stops here: the byte that comes next is damaged, or none comes.
    pub fn refuse(&self) -> Stop
        ensures { IsFault (reader.stop_at self.now) result }
    {
        match self.left {
            [] => Stop::Cut,
            [_, ..] => Stop::Damaged(self.left.len()),
        }
    }

    /// How many are left.
    pub fn left(&self) -> usize
        ensures { result ≡ length self.now }
    {
        self.left.len()
    }

    /// A byte below the bound.
    #[tactic(auto, unfolding(crate::specs::Reader::choose, crate::specs::Reader::byte))]
    pub fn below(&mut self, bound: u8) -> Result<u8, Stop>
        ensures { Reads Plain (reader.byte (below bound) self.old) result self.new }
    {
        match self.left {
            [] => Err(Stop::Cut),
            [byte, rest @ ..] => {
                if *byte < bound {
                    self.left = rest;
                    Ok(*byte)
                } else {
                    Err(Stop::Damaged(self.left.len()))
                }
            }
        }
    }

    /// A byte of a number from `least` to `most`.
    #[tactic(auto, unfolding(crate::specs::Reader::choose, crate::specs::Reader::byte))]
    fn group(&mut self, least: u64, most: u64) -> Result<u8, Stop>
        ensures reads { Reads Plain (reader.byte (numbers.begins_number least most) self.old) result self.new }
        ensures high { IfOk result (λ b. b ≤ most) }
    {
        match self.left {
            [] => Err(Stop::Cut),
            [byte, rest @ ..] => {
                let value = u64::from(*byte);
                if least <= value && value <= most {
                    self.left = rest;
                    Ok(*byte)
                } else {
                    Err(Stop::Damaged(self.left.len()))
                }
            }
        }
    }

    /// A number from `least` to `most`, of at most `groups` bytes after the first.
    #[tactic(auto, unfolding(crate::specs::Numbers::number_within))]
    fn within(&mut self, groups: u8, least: u64, most: u64) -> Result<u64, Stop>
        ensures reads { Reads Plain (numbers.number_within groups least most self.old) result self.new }
        ensures high { IfOk result (λ n. n ≤ most) }
    {
        let byte = u64::from(self.group(least, most)?);
        if groups == 0 || byte < 128 {
            return Ok(byte);
        }
        let low = byte - 128;
        let above = self.within(groups - 1, 1, (most - low) / 128)?;
        Ok(low + 128 * above)
    }

    /// A number from `least` to `most`, in the fewest bytes.
    pub fn number(&mut self, least: u64, most: u64) -> Result<u64, Stop>
        ensures reads { Reads Plain (numbers.number least most self.old) result self.new }
        ensures high { IfOk result (λ n. n ≤ most) }
    {
        let number = self.within(9, least, most)?;
        Ok(number)
    }

    /// What the byte that comes next counts in the table of its type, if anything.
    pub fn peek<K: Coded>(&self) -> Option<K>
        ensures { result ≡ got K.table (reader.first self.now) }
    {
        let byte = self.first()?;
        let table = K::table();
        table.get(usize::from(byte)).copied()
    }

    /// A byte that counts in the table of its type.
    #[tactic(auto, unfolding(crate::specs::Reader::choose))]
    pub fn coded<K: Coded>(&mut self) -> Result<K, Stop>
        ensures { Reads Plain (coded K.table self.old) result self.new }
    {
        match self.peek::<K>() {
            Some(found) => {
                self.skip();
                Ok(found)
            }
            None => Err(self.refuse()),
        }
    }
}
