//! The names that actions set.

ghost use Rattle.std.specs.Prelude.{◌≡◌, ◌<◌, OnOk, get_or, length};
ghost use Rattle.sl_ast.specs.Views.{action_of};
ghost use Rattle.sl_spec_actions.specs.ActionNames.{is_context_field, is_token_field};
ghost use Rattle.sl_spec_actions.specs.ActionNames.{with_action, with_name};

use sl_ast::patterns::Action;
use sl_spec::Tables;
use sl_spec_rules::NameSet;
use std::alloc::AllocError;

/// Whether a field of the context has this name.
pub(crate) fn is_context_field(t: &Tables, name: &[u8]) -> bool
    ensures { result ≡ is_context_field t.now name.now }
{
    match t.fields.get(name) {
        Some(field) => field.token.is_none(),
        None => false,
    }
}

/// Whether a field of a token has this name.
pub(crate) fn is_token_field(t: &Tables, name: &[u8]) -> bool
    ensures { result ≡ is_token_field t.now name.now }
{
    match t.fields.get(name) {
        Some(field) => field.token.is_some(),
        None => false,
    }
}

/// The name at an index.
pub(crate) fn name_at<'a>(names: &NameSet<'a>, index: usize) -> &'a [u8]
    requires { index < length names.now }
    ensures { result.now ≡ get_or names.now index result.now }
{
    names.at(index).unwrap_or(&[])
}

/// Adds a name, which stands once.
pub(crate) fn add_once<'a>(names: &mut NameSet<'a>, name: &'a [u8]) -> Result<(), AllocError>
    ensures { OnOk result (names.new ≡ with_name names.old name.now) }
{
    if !names.has(name) {
        names.add(name)?;
    }
    Ok(())
}

/// Adds the name that an action sets, where it is no field of the context.
pub(crate) fn add_action<'a>(
    t: &Tables<'a>,
    names: &mut NameSet<'a>,
    action: &Action<'a>,
) -> Result<(), AllocError>
    ensures { OnOk result (names.new ≡ with_action t.now names.old (action_of action.now)) }
{
    match action {
        Action::Assign(name, _) => {
            if !is_context_field(t, name) {
                add_once(names, name)?;
            }
        }
        Action::GlobalSet(_, _) => {}
    }
    Ok(())
}
