//! The functions and statements of sections that the language leaves out.

ghost use Rattle.std.specs.Prelude.{◌≡◌};
ghost use Rattle.sl_ast.specs.Operators.{missing_function, missing_statement};

use sl_ast::symbols::Feature;
use sl_parse_terminals::find_row;

static FUNCTIONS: [(&[u8], Feature); 11] = [
    (b"nan", Feature::FloatingPoint),
    (b"abs", Feature::FloatingPoint),
    (b"sqrt", Feature::FloatingPoint),
    (b"int2float", Feature::FloatingPoint),
    (b"float2float", Feature::FloatingPoint),
    (b"trunc", Feature::FloatingPoint),
    (b"ceil", Feature::FloatingPoint),
    (b"floor", Feature::FloatingPoint),
    (b"round", Feature::FloatingPoint),
    (b"cpool", Feature::ConstantPool),
    (b"newobject", Feature::NewObject),
];

static STATEMENTS: [(&[u8], Feature); 2] = [
    (b"crossbuild", Feature::Crossbuild),
    (b"delayslot", Feature::DelaySlot),
];

/// The feature that the function belongs to, if the language leaves it out.
#[tactic(auto, unfolding(sl_ast::specs::Operators::missing_function))]
pub fn feature_of(name: &[u8]) -> Option<Feature>
    ensures { result ≡ missing_function name.now }
{
    find_row(&FUNCTIONS, name)
}

/// The feature of which the word begins a statement, if the language leaves it out.
#[tactic(auto, unfolding(sl_ast::specs::Operators::missing_statement))]
pub fn statement_feature(name: &[u8]) -> Option<Feature>
    ensures { result ≡ missing_statement name.now }
{
    find_row(&STATEMENTS, name)
}
