//! What the tokens of an expression say of the size of its value.

ghost use Rattle.std.specs.Prelude.{◌≡◌};
ghost use Rattle.sl_explain_names.specs.Items.{is_operation};
ghost use Rattle.sl_explain_sizes.specs.ScopeView.{scope};
ghost use Rattle.sl_explain_sizes.specs.Values as spec;
ghost use Rattle.sl_lex.specs.Views.{views};

use crate::operators::{Class, class_of, main_of, star_length};
use crate::slices::{Extent, after_bracket, beyond, extent_of, front, in_bracket};
use crate::widths::{Scope, Width, bit_bytes, is_bytes, is_untold, named, star_size, told};
use sl_explain_heads::{from, text_at};
use sl_explain_names::{Kind, has_after, has_here, is, is_integer_at, is_word_at, number_after};
use sl_lex::Tok;

/// What is known of a value.
#[derive(Clone, Copy)]
pub struct Value {
    pub width: Width,
    /// The first number or name in it that says its width.
    pub extent: Extent,
    /// That is a parameter of the macro.
    pub is_given: bool,
}

/// A value with this width, told at the first of these tokens.
fn value_with(tokens: &[Tok<'_>], width: Width) -> Value
    ensures { result ≡ spec.value_with (views tokens.now) width }
{
    Value {
        width,
        extent: extent_of(front(tokens, 1)),
        is_given: false,
    }
}

/// A value that may have any size, told at all of these tokens.
fn open_value(tokens: &[Tok<'_>]) -> Value
    ensures { result ≡ spec.open_value (views tokens.now) }
{
    Value {
        width: Width::Open,
        extent: extent_of(tokens),
        is_given: false,
    }
}

fn with_width(value: Value, width: Width) -> Value
    ensures { result ≡ spec.with_width value width }
{
    Value {
        width,
        extent: value.extent,
        is_given: value.is_given,
    }
}

fn loosened_width(width: Width) -> Width
    ensures { result ≡ spec.loosened_width width }
{
    match width {
        Width::Number => Width::Open,
        Width::Bytes(size) => Width::Bytes(size),
        Width::Open => Width::Open,
        Width::Untold => Width::Untold,
    }
}

/// The value as a part of more, where a number isn't one by itself.
fn loosened(value: Value) -> Value
    ensures { result ≡ spec.loosened value }
{
    with_width(value, loosened_width(value.width))
}

// ---- operators

/// What two values of one size say of it.
fn alike(left: Value, right: Value) -> Value
    ensures { result ≡ spec.alike left right }
{
    if is_bytes(left.width) {
        left
    } else if is_bytes(right.width) {
        right
    } else if is_untold(right.width) {
        right
    } else {
        loosened(left)
    }
}

fn combined(class: Class, left: Value, right: Value) -> Value
    ensures { result ≡ spec.combined class left right }
{
    match class {
        Class::Alike => alike(left, right),
        Class::Shift => loosened(left),
        Class::Test => with_width(left, Width::Bytes(1)),
        Class::Boolean => with_width(left, Width::Bytes(1)),
        Class::Comma => with_width(left, Width::Untold),
    }
}

// ---- what isn't an operator with two sides

pub fn is_minus(tokens: &[Tok<'_>]) -> bool
    ensures { result ≡ spec.is_minus (views tokens.now) }
{
    has_here(tokens, 0, b"-") || has_here(tokens, 0, b"~")
}

pub fn is_not(tokens: &[Tok<'_>]) -> bool
    ensures { result ≡ spec.is_not (views tokens.now) }
{
    has_here(tokens, 0, b"!")
}

pub fn is_star(tokens: &[Tok<'_>]) -> bool
    ensures { result ≡ spec.is_star (views tokens.now) }
{
    has_here(tokens, 0, b"*")
}

pub fn is_group(tokens: &[Tok<'_>]) -> bool
    ensures { result ≡ spec.is_group (views tokens.now) }
{
    has_here(tokens, 0, b"(")
}

pub fn is_call(tokens: &[Tok<'_>]) -> bool
    ensures { result ≡ spec.is_call (views tokens.now) }
{
    is_word_at(tokens, 0) && has_after(tokens, 0, 1, b"(")
}

/// The expression after a prefix, the pointer of a star form, or what is in brackets.
pub fn inside<'t, 'a>(tokens: &'t [Tok<'a>]) -> &'t [Tok<'a>]
    ensures { views result.now ≡ spec.inside (views tokens.now) }
{
    if is_minus(tokens) || is_not(tokens) {
        from(tokens, 1)
    } else if is_star(tokens) {
        from(from(tokens, 1), star_length(tokens))
    } else if is_group(tokens) {
        in_bracket(from(tokens, 1))
    } else if is_call(tokens) {
        in_bracket(from(tokens, 2))
    } else {
        front(tokens, 0)
    }
}

/// What comes after a group, a call, a name or an integer.
pub fn suffix_of<'t, 'a>(tokens: &'t [Tok<'a>]) -> &'t [Tok<'a>]
    ensures { views result.now ≡ spec.suffix_of (views tokens.now) }
{
    if is_group(tokens) {
        after_bracket(from(tokens, 1))
    } else if is_call(tokens) {
        after_bracket(from(tokens, 2))
    } else {
        from(tokens, 1)
    }
}

/// The tokens before that.
fn primary_of<'t, 'a>(tokens: &'t [Tok<'a>]) -> &'t [Tok<'a>]
    ensures { views result.now ≡ spec.primary_of (views tokens.now) }
{
    front(tokens, tokens.len().saturating_sub(suffix_of(tokens).len()))
}

/// Whether it is a function whose arguments have one size.
pub fn is_carry(name: &[u8]) -> bool
    ensures { result ≡ spec.is_carry name.now }
{
    is(name, b"carry") || is(name, b"scarry") || is(name, b"sborrow")
}

/// Whether it is one of one value, whose result may have any size.
pub fn is_function(name: &[u8]) -> bool
    ensures { result ≡ spec.is_function name.now }
{
    is(name, b"zext") || is(name, b"sext") || is(name, b"popcount") || is(name, b"lzcount")
}

fn is_operation(kind: Kind) -> bool
    ensures { result ≡ is_operation kind }
{
    matches!(kind, Kind::UserOperation)
}

/// Whether a call of the name gives a value of any size.
pub fn gives_any(s: &Scope<'_, '_, '_>, name: &[u8]) -> bool
    ensures { result ≡ spec.gives_any (scope s.now) name.now }
{
    is_function(name) || is_operation(s.item.kind_of(name))
}

/// The value of the name that the first token is.
pub fn name_value(s: &Scope<'_, '_, '_>, tokens: &[Tok<'_>]) -> Value
    ensures { result ≡ spec.name_value (scope s.now) (views tokens.now) }
{
    let name = text_at(tokens, 0);
    Value {
        width: named(s, name),
        extent: extent_of(front(tokens, 1)),
        is_given: s.item.is_parameter(name),
    }
}

fn dropped_width(width: Width, count: u64) -> Width
    ensures { result ≡ spec.dropped_width width count }
{
    match width {
        Width::Bytes(size) => {
            if count < size {
                Width::Bytes(size - count)
            } else {
                Width::Untold
            }
        }
        Width::Number | Width::Open | Width::Untold => Width::Untold,
    }
}

/// The value without so many low bytes.
fn dropped(value: Value, count: u64) -> Value
    ensures { result ≡ spec.dropped value count }
{
    with_width(value, dropped_width(value.width, count))
}

fn call_value(s: &Scope<'_, '_, '_>, tokens: &[Tok<'_>]) -> Value
    ensures { result ≡ spec.call_value (scope s.now) (views tokens.now) }
{
    let name = text_at(tokens, 0);
    if is_carry(name) {
        value_with(tokens, Width::Bytes(1))
    } else if gives_any(s, name) {
        open_value(primary_of(tokens))
    } else {
        dropped(name_value(s, tokens), number_after(tokens, 0, 2))
    }
}

/// The value of a group, a call, a name or an integer, where what is in brackets has this one.
pub fn primary_value(s: &Scope<'_, '_, '_>, tokens: &[Tok<'_>], inner: Value) -> Value
    ensures { result ≡ spec.primary_value (scope s.now) (views tokens.now) inner }
{
    if is_group(tokens) {
        loosened(inner)
    } else if is_call(tokens) {
        call_value(s, tokens)
    } else if is_word_at(tokens, 0) {
        name_value(s, tokens)
    } else if is_integer_at(tokens, 0) {
        value_with(tokens, Width::Number)
    } else {
        value_with(tokens, Width::Untold)
    }
}

fn suffixed(suffix: &[Tok<'_>], value: Value) -> Value
    ensures { result ≡ spec.suffixed (views suffix.now) value }
{
    if suffix.len() == 0 {
        value
    } else if has_here(suffix, 0, b":") {
        with_width(value, told(number_after(suffix, 0, 1)))
    } else if has_here(suffix, 0, b"[") {
        with_width(value, told(bit_bytes(number_after(suffix, 0, 3))))
    } else {
        dropped(value, number_after(suffix, 0, 1))
    }
}

pub fn loaded_width(size: u64) -> Width
    ensures { result ≡ spec.loaded_width size }
{
    if size == 0 {
        Width::Open
    } else {
        Width::Bytes(size)
    }
}

/// The value of a star form.
fn loaded(tokens: &[Tok<'_>]) -> Value
    ensures { result ≡ spec.loaded (views tokens.now) }
{
    with_width(open_value(tokens), loaded_width(star_size(tokens)))
}

/// The value of an expression that no operator with two sides ends.
fn single(s: &Scope<'_, '_, '_>, tokens: &[Tok<'_>], inner: Value) -> Value
    ensures { result ≡ spec.single (scope s.now) (views tokens.now) inner }
{
    if is_minus(tokens) {
        loosened(inner)
    } else if is_not(tokens) {
        with_width(inner, Width::Bytes(1))
    } else if is_star(tokens) {
        loaded(tokens)
    } else {
        suffixed(suffix_of(tokens), primary_value(s, tokens, inner))
    }
}

// ---- expressions

/// The most operators and brackets of an expression in one another, and some more.
pub const MOST_DEPTH: u32 = 300;

/// The value of an expression with at most so many operators and brackets in one another.
#[tactic(auto, using(crate::proofs::DepthLemmas::value_out, crate::proofs::DepthLemmas::value_none, crate::proofs::DepthLemmas::value_two, crate::proofs::DepthLemmas::value_one,))]
fn value_in(depth: u32, s: &Scope<'_, '_, '_>, tokens: &[Tok<'_>]) -> Value
    ensures { result ≡ spec.value_in depth (scope s.now) (views tokens.now) }
{
    if depth == 0 {
        return value_with(tokens, Width::Untold);
    }
    if tokens.len() == 0 {
        return value_with(tokens, Width::Untold);
    }
    match main_of(tokens) {
        Some(at) => {
            let left = value_in(depth - 1, s, front(tokens, at));
            let right = value_in(depth - 1, s, beyond(tokens, at));
            combined(class_of(text_at(tokens, at)), left, right)
        }
        None => {
            let inner = value_in(depth - 1, s, inside(tokens));
            single(s, tokens, inner)
        }
    }
}

/// The value of an expression.
#[tactic(auto, unfolding(crate::specs::Values::value_of))]
pub fn value_of(s: &Scope<'_, '_, '_>, tokens: &[Tok<'_>]) -> Value
    ensures { result ≡ spec.value_of (scope s.now) (views tokens.now) }
{
    value_in(MOST_DEPTH, s, tokens)
}
