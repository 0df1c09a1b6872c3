//! Assignments, and jumps by their targets.

ghost use Rattle.std.specs.Prelude.{◌≡◌, ◌++◌, ◌∷◌, [], IfOk, OnOk};
ghost use Rattle.sl_section_equations.specs.Equations.{bit_bytes, size_at};
ghost use Rattle.sl_section_flat.specs.Views.{symbol_of, term_of};
ghost use Rattle.sl_build_template.specs.Pieces as p;
ghost use Rattle.sl_build_template.specs.Views.{form_of, pieces_of};

use crate::form::{Form, size_of};
use crate::known::is_below;
use crate::piece::{Insert, NewBits, Piece};
use crate::puts::{put, register};
use crate::sizes::{of_address, same_size, size_of_variable, sized};
use crate::slot::{Given, Slot};
use crate::terms::{term_into, term_slot, term_value};
use crate::varnodes::{cut, in_space};
use sl_pcode::Code;
use sl_section_flat::{Span, Symbol, Term};
use sl_word::{Size, SpaceId};
use std::alloc::{AllocError, Global};

/// An expression is put where an operand stands.
fn operand_set(
    alloc: Global,
    form: &Form<'_>,
    out: &mut Vec<Piece>,
    i: u32,
    e: &Term,
) -> Result<(), AllocError>
    ensures { OnOk result (pieces_of out.new.items ≡ pieces_of out.old.items
        ++ p.operand_set (form_of form.now) i (term_of e.now)) }
{
    match term_slot(form, 0, e) {
        Some(v) => put(out, Piece::Put(i, v)),
        None => {
            let n = size_of(form, e);
            term_into(alloc, form, out, 0, e, Slot::Written(i, n))?;
            put(out, Piece::Stored(i, n))
        }
    }
}

/// `a = e;`
pub(crate) fn set(
    alloc: Global,
    form: &Form<'_>,
    out: &mut Vec<Piece>,
    a: Symbol,
    e: &Term,
) -> Result<(), AllocError>
    ensures { OnOk result (pieces_of out.new.items ≡ pieces_of out.old.items
        ++ p.set_pieces (form_of form.now) (symbol_of a) (term_of e.now)) }
{
    match a {
        Symbol::Register(r) => {
            let to = Slot::Fixed(in_space(r.space, r.offset, size_of(form, e)));
            term_into(alloc, form, out, 0, e, to)
        }
        Symbol::BitRange(r, span) => {
            let value = term_value(alloc, form, out, 0, e)?;
            let below = is_below(e, span.count);
            let new = NewBits { value, below, span };
            put_insert(out, 1, same_size(r.size), register(r), new, register(r))
        }
        Symbol::Local(x) => {
            let to = Slot::Local(x, size_of(form, e));
            term_into(alloc, form, out, 0, e, to)
        }
        Symbol::Table(i) => operand_set(alloc, form, out, i, e),
        Symbol::Attached(i, _) => operand_set(alloc, form, out, i, e),
        Symbol::Value(i) => operand_set(alloc, form, out, i, e),
        Symbol::Start | Symbol::Next | Symbol::Integer(_) => {
            term_value(alloc, form, out, 0, e)?;
            Ok(())
        }
    }
}

/// The size of a span of bits in bytes.
fn span_size(span: Span) -> Size
    ensures { result ≡ size_at (bit_bytes span.count) }
{
    sized((span.count + 7) / 8)
}

/// Bits are put among those of `old`, of `n` bytes.
fn put_insert(
    out: &mut Vec<Piece>,
    t: u32,
    n: Size,
    old: Slot,
    new: NewBits,
    to: Slot,
) -> Result<(), AllocError>
    ensures { OnOk result (pieces_of out.new.items ≡ pieces_of out.old.items
        ++ p.insert t n old new.value new.below new.span.low new.span.count to ∷ []) }
{
    let bits = Insert { size: n, old, new };
    put(out, Piece::Insert(t, bits, to))
}

/// Bits are put into bits of a register, which are `n` bytes.
fn range_bits(
    out: &mut Vec<Piece>,
    whole: Size,
    register: Slot,
    n: Size,
    outer: Span,
    new: NewBits,
) -> Result<(), AllocError>
    ensures { OnOk result (pieces_of out.new.items ≡ pieces_of out.old.items
        ++ p.range_bits whole register n outer.low outer.count new.value new.below new.span.low
        new.span.count) }
{
    let old = Slot::Temporary(1, n);
    let value = Slot::Temporary(2, n);
    let range = NewBits {
        value,
        below: false,
        span: outer,
    };
    put(out, Piece::Extract(1, register, outer, old))?;
    put_insert(out, 2, n, old, new, value)?;
    put_insert(out, 4, whole, register, range, register)
}

/// Bits are put where a name stands.
fn symbol_bits(
    form: &Form<'_>,
    out: &mut Vec<Piece>,
    a: Symbol,
    new: NewBits,
) -> Result<(), AllocError>
    ensures { OnOk result (pieces_of out.new.items ≡ pieces_of out.old.items
        ++ p.symbol_bits (form_of form.now) (symbol_of a) new.value new.below new.span.low
        new.span.count) }
{
    match a {
        Symbol::Register(r) => {
            put_insert(out, 2, same_size(r.size), register(r), new, register(r))
        }
        Symbol::BitRange(r, outer) => {
            let n = span_size(outer);
            range_bits(out, same_size(r.size), register(r), n, outer, new)
        }
        Symbol::Local(x) => {
            let n = size_of_variable(form.sizes, x);
            put_insert(out, 2, n, Slot::Local(x, n), new, Slot::Local(x, n))
        }
        Symbol::Table(i) => put(out, Piece::PutBits(i, new)),
        Symbol::Attached(i, _) => put(out, Piece::PutBits(i, new)),
        Symbol::Value(i) => put(out, Piece::PutBits(i, new)),
        Symbol::Start | Symbol::Next | Symbol::Integer(_) => Ok(()),
    }
}

/// `a[low,count] = e;`
pub(crate) fn set_bits(
    alloc: Global,
    form: &Form<'_>,
    out: &mut Vec<Piece>,
    a: Symbol,
    span: Span,
    e: &Term,
) -> Result<(), AllocError>
    ensures { OnOk result (pieces_of out.new.items ≡ pieces_of out.old.items
        ++ p.set_bits_pieces (form_of form.now) (symbol_of a) span.low span.count (term_of e.now)) }
{
    let value = term_value(alloc, form, out, 0, e)?;
    let below = is_below(e, span.count);
    symbol_bits(form, out, a, NewBits { value, below, span })
}

/// `*[space] pointer = e;`
pub(crate) fn store(
    alloc: Global,
    form: &Form<'_>,
    out: &mut Vec<Piece>,
    space: SpaceId,
    pointer: &Term,
    e: &Term,
) -> Result<(), AllocError>
    ensures { OnOk result (pieces_of out.new.items ≡ pieces_of out.old.items
        ++ p.store_pieces (form_of form.now) space.0 (term_of pointer.now) (term_of e.now)) }
{
    let v = term_value(alloc, form, out, 0, e)?;
    let pointer = term_value(alloc, form, out, 1, pointer)?;
    put(out, Piece::Store(space, pointer, v))
}

/// A jump, a call or a return to the value of an expression.
pub(crate) fn exit_by(
    alloc: Global,
    form: &Form<'_>,
    out: &mut Vec<Piece>,
    code: Code,
    e: &Term,
) -> Result<(), AllocError>
    ensures { OnOk result (pieces_of out.new.items ≡ pieces_of out.old.items
        ++ p.exit_pieces (form_of form.now) code (term_of e.now)) }
{
    let target = term_value(alloc, form, out, 0, e)?;
    put(out, Piece::Exit(code, target))
}

/// The size of an address of the default space.
fn address_size(form: &Form<'_>) -> Result<Size, AllocError>
    ensures value { IfOk result (λ n. n ≡ size_at (p.address_bytes (form_of form.now))) }
    ensures bytes { IfOk result (λ n. n.bytes ≡ p.address_bytes (form_of form.now)) }
{
    match form.spaces.get(form.default.0 as usize) {
        Some(n) => Ok(of_address(*n)),
        None => Err(AllocError),
    }
}

/// What a name stands for as a target.
pub(crate) fn target_slot(form: &Form<'_>, a: Symbol) -> Result<Slot, AllocError>
    ensures { IfOk result (λ v. v ≡ p.target_slot (form_of form.now) (symbol_of a)) }
{
    let n = address_size(form)?;
    match a {
        Symbol::Register(_) => Ok(Slot::Fixed(in_space(form.default, 0, n))),
        Symbol::BitRange(_, _) => Ok(Slot::Fixed(in_space(form.default, 0, n))),
        Symbol::Local(_) => Ok(Slot::Fixed(in_space(form.default, 0, n))),
        Symbol::Table(i) => Ok(Slot::Target(Given::Operand(i), n)),
        Symbol::Attached(i, _) => Ok(Slot::Target(Given::Operand(i), n)),
        Symbol::Value(i) => Ok(Slot::Target(Given::Operand(i), n)),
        Symbol::Start => Ok(Slot::Target(Given::Start, n)),
        Symbol::Next => Ok(Slot::Target(Given::Next, n)),
        Symbol::Integer(v) => Ok(Slot::Fixed(in_space(form.default, cut(v, n), n))),
    }
}
