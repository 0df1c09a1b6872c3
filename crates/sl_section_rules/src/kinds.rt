//! What names are, as far as rules ask.

ghost use Rattle.std.specs.Prelude.{◌≡◌, Some, option_map};
ghost use Rattle.sl_section_flat.specs.Views.{symbol_of};
ghost use Rattle.sl_section_rules.specs.Kinds.{is_handed_on, is_number, is_place, is_table};
ghost use Rattle.sl_section_rules.specs.Kinds.{is_pointer, kind_by, kind_of};

use crate::scopes::Scope;
use sl_section_flat::Symbol;
use sl_spec::Tables;

/// What a name of a section or macro is.
#[derive(Clone, Copy, Debug, PartialEq, Eq)]
pub enum Kind {
    /// A macro's parameter.
    Parameter,
    /// A field without registers, an action name, `inst_start` or `inst_next`.
    Number,
    /// A local, a register, or a field attached to variables.
    Storage,
    /// A bit range.
    Bits,
    Table,
    /// It stands for nothing.
    Nothing,
}

fn symbol_kind(in_macro: bool, symbol: Symbol) -> Kind
    ensures { result ≡ kind_by in_macro (option_map symbol_of (Some symbol)) }
{
    match symbol {
        Symbol::Register(_) => Kind::Storage,
        Symbol::BitRange(_, _) => Kind::Bits,
        Symbol::Local(_) => Kind::Storage,
        Symbol::Table(_) => Kind::Table,
        Symbol::Attached(_, _) => Kind::Storage,
        Symbol::Value(_) => {
            if in_macro {
                Kind::Parameter
            } else {
                Kind::Number
            }
        }
        Symbol::Start => Kind::Number,
        Symbol::Next => Kind::Number,
        Symbol::Integer(_) => Kind::Number,
    }
}

fn kind_by(in_macro: bool, symbol: Option<Symbol>) -> Kind
    ensures { result ≡ kind_by in_macro (option_map symbol_of symbol) }
{
    match symbol {
        Some(symbol) => symbol_kind(in_macro, symbol),
        None => Kind::Nothing,
    }
}

/// What a name is.
pub fn kind_of(t: &Tables, scope: &Scope, name: &[u8]) -> Kind
    ensures { result ≡ kind_of t.now scope.now name.now }
{
    let symbol = scope.names.symbol_named(t, name);
    kind_by(scope.in_macro, symbol)
}

/// Whether it may be assigned.
pub fn is_place(kind: Kind) -> bool
    ensures { result ≡ is_place kind }
{
    kind != Kind::Number
}

pub fn is_table(kind: Kind) -> bool
    ensures { result ≡ is_table kind }
{
    kind == Kind::Table
}

pub fn is_number(kind: Kind) -> bool
    ensures { result ≡ is_number kind }
{
    kind == Kind::Number
}

/// Whether it may be exported as it is.
pub fn is_handed_on(kind: Kind) -> bool
    ensures { result ≡ is_handed_on kind }
{
    kind == Kind::Storage || kind == Kind::Table
}

/// Whether it may be the pointer of an exported place in memory.
pub fn is_pointer(kind: Kind) -> bool
    ensures { result ≡ is_pointer kind }
{
    is_handed_on(kind) || is_number(kind)
}
