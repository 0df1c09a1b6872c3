//! The names that actions use, by which it is known for which other constructors their steps are
//! right.

ghost use Rattle.std.specs.Prelude.{◌≡◌, ℕ, List, IfOk, IsTrue, OnOk, false};
ghost use Rattle.sl_ast.specs.Views.{action_of, expression_of, operand_of_address};
ghost use Rattle.sl_decode_meaning.specs.Kinds.{kind_of};
ghost use Rattle.sl_decode_meaning.specs.Lookups.{given};
ghost use Rattle.sl_decode_meaning.specs.Values.{Site, reads};
ghost use Rattle.sl_decode_leaves.specs.Extents.{extent, leaves_at};
ghost use Rattle.sl_decode_plan.specs.Uses.{AreUses, HasNoPlace, ReadAsBefore, ReadsAsBefore, Uses};
ghost use Rattle.sl_decode_plan.specs.Uses.{IsSameAction, IsSameAddress, IsSameName, IsSameValue};
ghost use Rattle.sl_decode_plan.specs.Uses.{read_at};

use sl_ast::expressions::Expr;
use sl_ast::patterns::{Action, Address};
use sl_decode_leaves::{Extent, JoinedLeaves, is_same, kind_of, place_of};
use sl_decode_meaning::Kind;
use sl_spec::{Entry, Named, Operand, Tables};
use std::alloc::{AllocError, Global};

/// A name that actions use: what it stands for, and if that is a field of a token, the place at
/// which it is read.
#[derive(Drop)]
pub struct Used<'a> {
    pub(crate) name: &'a [u8],
    pub(crate) kind: Kind,
    pub(crate) place: Extent,
}

impl<'a> Entry for Used<'a> {
    ghost name_of = { λ x. x.name.now };
}

/// Whether the field of this index is one of a token. What any other gives hangs on no place.
pub(crate) fn is_in_token(t: &Tables, index: usize) -> bool
    ensures { result ≡ false → (bytes : List ℕ) (at other context : ℕ)
        → given t.now index bytes at context ≡ given t.now index bytes other context }
{
    match t.fields.at(index) {
        Some(of) => of.token.is_some(),
        None => false,
    }
}

/// Whether what a name gives may hang on a place.
fn has_place(t: &Tables, kind: Kind) -> bool
    ensures { result ≡ false → HasNoPlace t.now kind }
{
    match kind {
        Kind::Field(id) => is_in_token(t, id.number() as usize),
        Kind::Table(_) => false,
        Kind::Action(_) => false,
        Kind::Start => false,
        Kind::Next => false,
        Kind::Nothing => false,
    }
}

/// The place at which a name is read; 0 where what it gives hangs on none.
fn place_read(
    t: &Tables,
    operands: &[Operand],
    leaves: &JoinedLeaves,
    name: &[u8],
) -> Result<Extent, AllocError>
    ensures { IfOk result (λ r. (s : Site)
        → reads t.now operands.now (leaves_at s.lengths leaves.now) s name.now
        ≡ read_at t.now s (kind_of t.now operands.now name.now) (extent r s.lengths)) }
{
    if has_place(t, kind_of(t, operands, name)?) {
        let place = place_of(leaves, name)?;
        Ok(place)
    } else {
        Ok(Extent::Fixed(0))
    }
}

/// What a name stands for, and where it is read.
fn used_as<'a>(
    t: &Tables,
    operands: &[Operand],
    leaves: &JoinedLeaves,
    name: &'a [u8],
) -> Result<Used<'a>, AllocError>
    ensures name { IfOk result (λ x. x.name.now ≡ name.now) }
    ensures reads { IfOk result (ReadsAsBefore t.now operands.now leaves.now) }
{
    let kind = kind_of(t, operands, name)?;
    let place = place_read(t, operands, leaves, name)?;
    Ok(Used { name, kind, place })
}

// ---- what actions use

/// Adds a name, unless it is there.
fn use_name<'a>(
    t: &Tables,
    operands: &[Operand],
    leaves: &JoinedLeaves,
    name: &'a [u8],
    all: &mut Named<'a, Used<'a>>,
) -> Result<(), AllocError>
    requires { ReadAsBefore t.now operands.now leaves.now all.old }
    ensures { OnOk result (Uses t.now operands.now leaves.now all.old all.new
        (IsSameName t.now operands.now leaves.now name.now)) }
{
    if all.has(name) {
        return Ok(());
    }
    let used = used_as(t, operands, leaves, name)?;
    all.add(name, used)?;
    Ok(())
}

/// Adds the names of an expression.
fn use_expression<'a>(
    t: &Tables,
    operands: &[Operand],
    leaves: &JoinedLeaves,
    e: &Expr<'a>,
    all: &mut Named<'a, Used<'a>>,
) -> Result<(), AllocError>
    requires { ReadAsBefore t.now operands.now leaves.now all.old }
    ensures { OnOk result (Uses t.now operands.now leaves.now all.old all.new
        (IsSameValue t.now operands.now leaves.now (expression_of e.now))) }
{
    match e {
        Expr::Name(name) => use_name(t, operands, leaves, name, all),
        Expr::Paren(inner) => use_expression(t, operands, leaves, inner, all),
        Expr::Prefix(_, inner) => use_expression(t, operands, leaves, inner, all),
        Expr::Binary(_, left, right) => {
            use_expression(t, operands, leaves, left, all)?;
            use_expression(t, operands, leaves, right, all)
        }
        Expr::Integer(_) => Ok(()),
        Expr::Call(_, _) => Ok(()),
        Expr::Sized(_, _) => Ok(()),
        Expr::Dropped(_, _) => Ok(()),
        Expr::Bits(_, _, _) => Ok(()),
        Expr::Star(_, _, _) => Ok(()),
    }
}

/// Adds the name of an address.
fn use_address<'a>(
    t: &Tables,
    operands: &[Operand],
    leaves: &JoinedLeaves,
    of: &Address<'a>,
    all: &mut Named<'a, Used<'a>>,
) -> Result<(), AllocError>
    requires { ReadAsBefore t.now operands.now leaves.now all.old }
    ensures { OnOk result (Uses t.now operands.now leaves.now all.old all.new
        (IsSameAddress t.now operands.now leaves.now (operand_of_address of.now))) }
{
    match of {
        Address::Name(name) => use_name(t, operands, leaves, name, all),
        Address::Integer(_) => Ok(()),
    }
}

/// Adds the names of an action.
fn use_action<'a>(
    t: &Tables,
    operands: &[Operand],
    leaves: &JoinedLeaves,
    action: &Action<'a>,
    all: &mut Named<'a, Used<'a>>,
) -> Result<(), AllocError>
    requires { ReadAsBefore t.now operands.now leaves.now all.old }
    ensures { OnOk result (Uses t.now operands.now leaves.now all.old all.new
        (IsSameAction t.now operands.now leaves.now (action_of action.now))) }
{
    match action {
        Action::Assign(name, e) => {
            use_name(t, operands, leaves, name, all)?;
            use_expression(t, operands, leaves, e, all)
        }
        Action::GlobalSet(to, name) => {
            use_name(t, operands, leaves, name, all)?;
            use_address(t, operands, leaves, to, all)
        }
    }
}

/// The names that actions use, each once, with what it stands for here and where it is read.
pub(crate) fn uses_in<'a>(
    alloc: Global,
    t: &Tables,
    operands: &[Operand],
    leaves: &JoinedLeaves,
    actions: &[Action<'a>],
) -> Result<Named<'a, Used<'a>>, AllocError>
    ensures before { IfOk result (ReadAsBefore t.now operands.now leaves.now) }
    ensures uses { IfOk result (λ used. AreUses t.now operands.now leaves.now used actions.now) }
{
    let mut all = Named::new(alloc);
    'actions: for index in 0..actions.len() {
        use_action(t, operands, leaves, &actions[index], &mut all)?;
    }
    Ok(all)
}

// ---- whether they are as before

/// Whether both stand for the same, and are read at the same place.
fn is_alike(a: &Used, b: &Used) -> bool
    ensures { IsTrue result → (a.now.kind ≡ b.now.kind)
        × ((lengths : List ℕ) → extent a.now.place lengths ≡ extent b.now.place lengths) }
{
    a.kind == b.kind && is_same(&a.place, &b.place)
}

/// Whether a name stands for what it stood for, and is read where it was.
fn reads_as_before(
    t: &Tables,
    operands: &[Operand],
    leaves: &JoinedLeaves,
    x: &Used,
) -> Result<bool, AllocError>
    ensures { IfOk result (λ same. IsTrue same
        → ReadsAsBefore t.now operands.now leaves.now x.now) }
{
    let now = used_as(t, operands, leaves, x.name)?;
    Ok(is_alike(&now, x))
}

/// Whether names stand for what they stood for, and are read where they were.
pub(crate) fn read_as_before(
    t: &Tables,
    operands: &[Operand],
    leaves: &JoinedLeaves,
    used: &Named<Used>,
) -> Result<bool, AllocError>
    ensures { IfOk result (λ same. IsTrue same
        → ReadAsBefore t.now operands.now leaves.now used.now) }
{
    'used: for index in 0..used.len() {
        if !reads_as_before(t, operands, leaves, used.member(index))? {
            return Ok(false);
        }
    }
    Ok(true)
}
