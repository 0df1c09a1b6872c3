//! Modes: which lexemes may stand at a place, as the tokens before it say.

ghost use Rattle.std.specs.Prelude.{◌≡◌};
ghost use Rattle.sl_lex.specs.Modes.{next_mode};

/// A part of the text that has lexemes of its own.
#[derive(Clone, Copy, Debug, PartialEq, Eq)]
pub enum Mode {
    /// Between definitions and constructors, and in a constructor's table name.
    Top,
    /// The head of a `with` block, up to its `{`.
    Head,
    /// A definition, up to its `;`.
    Plain,
    /// A semantic section or a macro, up to its `}`.
    Body,
    /// A display section, up to the word `is`.
    Display,
    /// The pattern and the actions of a constructor.
    Pattern,
}

/// The mode in which a text goes on after a token with these bytes.
pub fn next_mode(mode: Mode, text: &[u8]) -> Mode
    ensures { result ≡ next_mode mode text.now }
{
    match (mode, text) {
        (Mode::Top, b"define" | b"attach") => Mode::Plain,
        (Mode::Top, b"macro") | (Mode::Pattern, b"{") => Mode::Body,
        (Mode::Top, b"with") => Mode::Head,
        (Mode::Top, b":") => Mode::Display,
        (Mode::Head, b"{")
        | (Mode::Plain, b";")
        | (Mode::Body, b"}")
        | (Mode::Pattern, b"unimpl") => Mode::Top,
        (Mode::Display, b"is") => Mode::Pattern,
        _ => mode,
    }
}
