//! The names of expressions.

ghost use Rattle.std.specs.Prelude.{◌≡◌, ◌||◌, not, option_map};
ghost use Rattle.sl_ast.specs.Views.{arguments, bytes, expression_of, expressions_of};
ghost use Rattle.sl_section_rules.specs.Known.{drops, is_context, knows, knows_names, reads};

use sl_ast::expressions::Expr;
use sl_section_terms::{Names, if_below, is_dropped};
use sl_spec::Tables;

/// Whether a name is that of the context's register.
pub fn is_context(context: Option<&[u8]>, name: &[u8]) -> bool
    ensures { result ≡ is_context (option_map bytes context.entry) name.now }
{
    match context {
        Some(register) => name == register,
        None => false,
    }
}

/// Whether a name stands for something, and not for the context's register.
pub fn knows(t: &Tables, context: Option<&[u8]>, names: &Names, name: &[u8]) -> bool
    ensures { result ≡ knows t.now (option_map bytes context.entry) names.now name.now }
{
    names.symbol_named(t, name).is_some() && !is_context(context, name)
}

/// Whether the space of a star form is defined, where one is written.
pub fn reads(t: &Tables, names: &Names, space: Option<&[u8]>) -> bool
    ensures { result ≡ reads t.now names.now (option_map bytes space.entry) }
{
    match space {
        Some(name) => if_below(names.reach.spaces, t.spaces.index_of(name)).is_some(),
        None => true,
    }
}

/// Whether the name of a call is known, where it drops bytes of what the name stands for.
fn call_knows(t: &Tables, context: Option<&[u8]>, names: &Names, name: &[u8], es: &[Expr]) -> bool
    ensures { result ≡ (not (drops t.now names.now name.now (arguments (expressions_of es.now)))
        || knows t.now (option_map bytes context.entry) names.now name.now) }
{
    !is_dropped(t, names, name, es) || knows(t, context, names, name)
}

/// Whether each name of an expression is known.
pub fn knows_names(t: &Tables, context: Option<&[u8]>, names: &Names, e: &Expr) -> bool
    ensures { result ≡ knows_names t.now (option_map bytes context.entry) names.now
        (expression_of e.now) }
{
    match e {
        Expr::Integer(_) => true,
        Expr::Name(name) => knows(t, context, names, name),
        Expr::Paren(e) => knows_names(t, context, names, e),
        Expr::Call(name, es) => {
            let es = es.as_slice();
            if !call_knows(t, context, names, name, es) {
                return false;
            }
            'given: for index in 0..es.len() {
                if !knows_names(t, context, names, &es[index]) {
                    return false;
                }
            }
            true
        }
        Expr::Sized(e, _) => knows_names(t, context, names, e),
        Expr::Dropped(e, _) => knows_names(t, context, names, e),
        Expr::Bits(e, _, _) => knows_names(t, context, names, e),
        Expr::Prefix(_, e) => knows_names(t, context, names, e),
        Expr::Star(space, _, e) => { reads(t, names, *space) && knows_names(t, context, names, e) }
        Expr::Binary(_, l, r) => {
            knows_names(t, context, names, l) && knows_names(t, context, names, r)
        }
    }
}
