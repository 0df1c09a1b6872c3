//! Steps in rows, each of which constructors may share.

ghost use Rattle.std.specs.Prelude.{◌≡◌, ◌++◌, [], OnOk};
ghost use Rattle.sl_decode_plan.specs.Rows.{all_steps};

use std::alloc::{AllocError, Global};
use std::marker::Model;
use std::rc::Rc;

/// Steps, one row behind the other. Contracts see the list of all of them.
#[derive(Drop)]
pub struct Steps<T: Drop> {
    rows: Vec<Rc<Vec<T>>>,
}

impl<T: Drop> Model for Steps<T> {
    ghost use Rattle.std.specs.Prelude.{List};
    ghost use Rattle.sl_decode_plan.specs.Rows.{all_steps};

    ghost Value = { List T };

    ghost view = { λ s. all_steps s.rows.items };
}

impl<T: Drop> Steps<T> {
    /// No steps.
    pub(crate) fn new(alloc: Global) -> Self
        ensures { result ≡ [] }
    {
        Steps {
            rows: Vec::new(alloc),
        }
    }

    /// Adds a row. One without steps takes no room.
    pub(crate) fn add(&mut self, row: Rc<Vec<T>>) -> Result<(), AllocError>
        ensures { OnOk result (self.new ≡ self.old ++ row.value.items) }
    {
        if row.is_empty() {
            return Ok(());
        }
        self.rows.push(row)?;
        Ok(())
    }

    /// The rows.
    pub fn rows(&self) -> &[Rc<Vec<T>>]
        ensures { all_steps result.now ≡ self.now }
    {
        self.rows.as_slice()
    }
}
