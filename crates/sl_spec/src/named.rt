//! Lists of things that have names, each name once.

ghost use Rattle.std.specs.Prelude.{◌≡◌, ◌<◌, ◌∷◌, [], ◌++◌, List, ℕ, false, Some};
ghost use Rattle.std.specs.Prelude.{OnOk, OnErr, option_copied, slice_get, length};
ghost use Rattle.std.specs.List.{list_any};
ghost use Rattle.std.specs.Str.{bytes_eq};
ghost use Rattle.std.specs.Iterator.Adapters.{IterYieldsInOrder};
ghost use Rattle.std.specs.Slice.Iter.{iter_rest};
ghost use Rattle.sl_spec.specs.Begun.{with_constructor, with_number, with_number_at};
ghost use Rattle.sl_spec.specs.Named.{has_name, named, index_named};

use crate::constructors::Table;
use crate::ids::CtorId;
use sl_base_names::NameIndex;
use std::alloc::{AllocError, Global};
use std::marker::Model;
use std::slice::Iter;

/// What has a name.
pub trait Entry {
    ghost name_of: { Self → List ℕ };
}

/// A list of things with names, each name once, in the order in which they were added. Contracts
/// see the list.
#[derive(Drop)]
pub struct Named<'a, T: Entry + Drop> {
    names: NameIndex<'a>,
    things: Vec<T>,
}

impl<'a, T: Entry + Drop> Model for Named<'a, T> {
    ghost use Rattle.std.specs.Prelude.{List, map, ◌≡◌};

    ghost Value = { List T };

    ghost view = { λ t. t.things.items };

    ghost invariant = { λ t. t.names ≡ map T.name_of t.things.items };
}

impl<'a, T: Entry + Drop> Named<'a, T> {
    pub fn new(alloc: Global) -> Self
        ensures { result ≡ [] }
    {
        Named {
            names: NameIndex::new(alloc),
            things: Vec::new(alloc),
        }
    }

    /// Whether something of this name is there.
    pub fn has(&self, name: &[u8]) -> bool
        ensures { result ≡ has_name T.name_of name.now self.now }
    {
        self.names.has(name)
    }

    /// What has this name.
    pub fn get(&self, name: &[u8]) -> Option<&T>
        ensures { option_copied result ≡ named T.name_of name.now self.now }
    {
        match self.index_of(name) {
            Some(index) => self.at(index),
            None => None,
        }
    }

    /// The index of what has this name.
    pub fn index_of(&self, name: &[u8]) -> Option<usize>
        ensures { result ≡ index_named T.name_of name.now self.now }
    {
        self.names.find(name)
    }

    /// The thing at an index.
    pub fn at(&self, index: usize) -> Option<&T>
        ensures { option_copied result ≡ slice_get self.now index }
    {
        self.things.get(index)
    }

    /// The thing at an index at which there is one.
    pub fn member(&self, index: usize) -> &T
        requires { index < length self.now }
        ensures { slice_get self.now index ≡ Some result.now }
    {
        self.at(index).unwrap()
    }

    /// The things in order.
    pub fn iter(&self) -> Iter<'_, T>
        ensures rest { iter_rest result ≡ self.now }
        ensures runs { IterYieldsInOrder T }
    {
        self.things.iter()
    }

    /// How many things there are.
    pub fn len(&self) -> usize
        ensures { result ≡ length self.now }
    {
        self.things.len()
    }

    /// Adds something whose name isn't there yet.
    pub fn add(&mut self, name: &'a [u8], added: T) -> Result<(), AllocError>
        requires named { T.name_of added ≡ name.now }
        requires fresh { has_name T.name_of name.now self.old ≡ false }
        ensures added { OnOk result (self.new ≡ self.old ++ added ∷ []) }
        ensures kept { OnErr result (self.new ≡ self.old) }
    {
        self.things.push(added)?;
        match self.names.add(name) {
            Ok(_) => Ok(()),
            Err(_) => {
                let _added = self.things.pop();
                Err(AllocError)
            }
        }
    }
}

/// Adds the number of a constructor.
fn add_number(table: &mut Table, number: CtorId) -> Result<(), AllocError>
    ensures name { table.new.name ≡ table.old.name }
    ensures added { OnOk result (table.new ≡ with_number table.old number) }
{
    table.constructors.push(number)?;
    Ok(())
}

impl<'a> Named<'a, Table<'a>> {
    /// Adds the number of a constructor to the table at an index.
    fn add_number(&mut self, index: usize, number: CtorId) -> Result<(), AllocError>
        requires { index < length self.old }
        ensures { OnOk result (self.new ≡ with_number_at self.old index number) }
    {
        add_number(&mut self.things[index], number)
    }

    /// Adds the number of a constructor to the table of this name, which is added as the last one
    /// if it isn't there.
    pub fn add_constructor(
        &mut self,
        alloc: Global,
        name: &'a [u8],
        number: CtorId,
    ) -> Result<(), AllocError>
        ensures { OnOk result (self.new ≡ with_constructor self.old name.now number) }
    {
        if let Some(index) = self.index_of(name) {
            return self.add_number(index, number);
        }
        let mut constructors = Vec::new(alloc);
        constructors.push(number)?;
        self.add(name, Table { name, constructors })
    }
}
