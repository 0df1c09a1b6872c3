//! Where the texts of operands are in a buffer, so that each is made once.

ghost use Rattle.std.specs.Prelude.{◌≡◌, [], ℕ, List, OnOk, Some, cond};
ghost use Rattle.sl_show.specs.Spans.{span_of};
ghost use Rattle.sl_show.specs.declared.spans.Span.{Span};
ghost use Rattle.sl_spec.specs.Numbers.{is_number};

use std::alloc::{AllocError, Global};
use std::collections::BTreeMap;
use std::marker::Model;

/// The bytes of a buffer from one index up to another one.
#[derive(Clone, Copy)]
pub(crate) struct Span {
    pub start: usize,
    pub end: usize,
}

/// The spans of a buffer that have the texts of a node's table operands, by the operands' numbers.
/// Contracts see the numbers with the spans.
#[derive(Drop)]
pub(crate) struct Spans {
    spans: BTreeMap<usize, Span>,
}

impl Model for Spans {
    ghost Value = { List (ℕ × Span) };

    ghost view = { λ s. s.spans.entries };
}

impl Spans {
    /// No text was made yet.
    pub fn new(alloc: Global) -> Self
        ensures { result ≡ [] }
    {
        Spans {
            spans: BTreeMap::new(alloc),
        }
    }

    /// Where the text of the operand of this number is.
    pub fn get(&self, number: usize) -> Option<Span>
        ensures { result ≡ span_of self.now number }
    {
        self.spans.get(&number).copied()
    }

    /// Keeps where the text of the operand of this number is.
    pub fn put(&mut self, number: usize, span: Span) -> Result<(), AllocError>
        ensures { OnOk result ((n : ℕ) → span_of self.new n
            ≡ cond (is_number number n) (Some span) (span_of self.old n)) }
    {
        self.spans.insert(number, span)?;
        Ok(())
    }
}
