//! Numbers of the members of tables. Each counts from 0 in the order of the text; contracts see the
//! number.

ghost use Rattle.std.specs.Prelude.{◌≡◌};

use std::marker::Model;

/// A table of constructors. `instruction` is number 0.
#[derive(Clone, Copy, Debug, PartialEq, Eq)]
pub struct TableId(pub u32);

/// A constructor, by its place among all constructors.
#[derive(Clone, Copy, Debug, PartialEq, Eq)]
pub struct CtorId(pub u32);

/// A field of a token or of the context.
#[derive(Clone, Copy, Debug, PartialEq, Eq)]
pub struct FieldId(pub u32);

/// A register.
#[derive(Clone, Copy, Debug, PartialEq, Eq)]
pub struct RegId(pub u32);

impl Model for TableId {
    ghost use Rattle.std.specs.Prelude.{ℕ};

    ghost Value = { ℕ };

    ghost view = { λ id. id.0 };

    ghost inverse = { λ n. record { 0 = n } };
}

impl Model for CtorId {
    ghost use Rattle.std.specs.Prelude.{ℕ};

    ghost Value = { ℕ };

    ghost view = { λ id. id.0 };

    ghost inverse = { λ n. record { 0 = n } };
}

impl Model for FieldId {
    ghost use Rattle.std.specs.Prelude.{ℕ};

    ghost Value = { ℕ };

    ghost view = { λ id. id.0 };

    ghost inverse = { λ n. record { 0 = n } };
}

impl Model for RegId {
    ghost use Rattle.std.specs.Prelude.{ℕ};

    ghost Value = { ℕ };

    ghost view = { λ id. id.0 };

    ghost inverse = { λ n. record { 0 = n } };
}

impl FieldId {
    /// The field's index among all fields.
    pub fn number(self) -> u32
        ensures { result ≡ self }
    {
        self.0
    }
}
