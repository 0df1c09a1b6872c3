//! The first part of an expression or of a statement whose sizes are at fault.

ghost use Rattle.std.specs.Prelude.{◌≡◌};
ghost use Rattle.sl_explain_sizes.specs.Faults as spec;
ghost use Rattle.sl_explain_sizes.specs.ScopeView.{scope};
ghost use Rattle.sl_lex.specs.Views.{views};

use crate::operators::{Class, class_of, main_of};
use crate::slices::{Extent, beyond, extent_of, front, up_to};
use crate::values::{
    MOST_DEPTH, Value, gives_any, inside, is_call, is_carry, is_function, is_group, is_minus,
    is_not, is_star, loaded_width, primary_value, suffix_of, value_of,
};
use crate::widths::{Scope, Width, bit_bytes, named, star_size, told};
use sl_explain_heads::{from, text_at};
use sl_explain_names::{has_after, has_here, is_integer_at, number_after, steps_to};
use sl_lex::Tok;

/// What is looked for.
#[derive(Clone, Copy)]
pub enum Wanted {
    /// Two sizes that differ and are asked to be equal.
    Clash,
    /// A value of which nothing says the size.
    Unfixed,
    /// A value of this size that is tied to one that has another size, or may have.
    Ties(u64),
}

/// Where nothing says a size.
#[derive(Clone, Copy)]
pub enum Why {
    /// A local.
    Local,
    /// A parameter of a macro.
    Argument,
    /// So many bytes are kept.
    Kept(u64),
    /// An amount of a shift.
    Amount,
    /// A pointer.
    Pointer,
    /// Another value.
    Value,
}

/// What is wrong with sizes.
#[derive(Clone, Copy)]
pub enum Finding {
    /// The parts have these sizes, and are asked to be equal.
    Differ {
        left: Extent,
        left_size: u64,
        right: Extent,
        right_size: u64,
    },
    /// The part has the first size, and is asked to have the second one.
    Asked {
        part: Extent,
        size: u64,
        asked: u64,
        is_condition: bool,
        /// The part is one token.
        is_token: bool,
    },
    /// Nothing says the size of the part.
    Unsaid {
        part: Extent,
        why: Why,
    },
    /// It is tied.
    Tied,
}

/// A place in a macro: the index of the macro's name, and a byte of the text.
#[derive(Clone, Copy)]
pub struct Inside {
    pub of: usize,
    pub byte: usize,
}

/// A part whose sizes are at fault: where it is told, and where in a macro it is.
#[derive(Clone, Copy)]
pub struct Culprit {
    pub extent: Extent,
    pub finding: Finding,
    pub inside: Option<Inside>,
}

/// The first of two culprits that is there.
pub fn or_else(first: Option<Culprit>, later: Option<Culprit>) -> Option<Culprit>
    ensures { result ≡ spec.or_else first later }
{
    match first {
        Some(culprit) => Some(culprit),
        None => later,
    }
}

pub fn if_so(b: bool, extent: Extent, finding: Finding) -> Option<Culprit>
    ensures { result ≡ spec.if_so b extent finding }
{
    if b {
        Some(Culprit {
            extent,
            finding,
            inside: None,
        })
    } else {
        None
    }
}

// ---- what is looked for

/// Whether both sizes are known, and differ.
fn differ(a: Width, b: Width) -> bool
    ensures { result ≡ spec.differ a b }
{
    match (a, b) {
        (Width::Bytes(a), Width::Bytes(b)) => a != b,
        _ => false,
    }
}

fn has_size(size: u64, width: Width) -> bool
    ensures { result ≡ spec.has_size size width }
{
    match width {
        Width::Bytes(bytes) => bytes == size,
        Width::Number | Width::Open | Width::Untold => false,
    }
}

/// Whether what has this width may have so many bytes.
fn may_have(size: u64, width: Width) -> bool
    ensures { result ≡ spec.may_have size width }
{
    match width {
        Width::Bytes(bytes) => bytes == size,
        Width::Number | Width::Open => true,
        Width::Untold => false,
    }
}

/// Whether one of two that are equal has so many bytes, and the other may have others.
fn ties(size: u64, a: Width, b: Width) -> bool
    ensures { result ≡ spec.ties size a b }
{
    has_size(size, a) && !may_have(size, b) || has_size(size, b) && !may_have(size, a)
}

/// The bytes of a width, or 0.
fn bytes_of(width: Width) -> u64
    ensures { result ≡ spec.bytes_of width }
{
    match width {
        Width::Bytes(size) => size,
        Width::Number | Width::Open | Width::Untold => 0,
    }
}

/// Whether nothing says its size but what is asked of it.
fn is_unsized(width: Width) -> bool
    ensures { result ≡ spec.is_unsized width }
{
    matches!(width, Width::Number | Width::Open)
}

/// Whether it isn't a number by itself either.
fn is_open(width: Width) -> bool
    ensures { result ≡ spec.is_open width }
{
    matches!(width, Width::Open)
}

// ---- findings

fn why_of(value: Value, why: Why) -> Why
    ensures { result ≡ spec.why_of value why }
{
    if value.is_given { Why::Argument } else { why }
}

fn unsaid(value: Value, why: Why) -> Option<Culprit>
    ensures { result ≡ spec.unsaid value why }
{
    let part = value.extent;
    let why = why_of(value, why);
    if_so(true, part, Finding::Unsaid { part, why })
}

/// What is wrong with a value whose place says nothing of its size, where that is looked for.
fn unsaid_if(wanted: Wanted, b: bool, value: Value, why: Why) -> Option<Culprit>
    ensures { result ≡ spec.unsaid_if wanted b value why }
{
    match wanted {
        Wanted::Unfixed => { if b { unsaid(value, why) } else { None } }
        Wanted::Clash => None,
        Wanted::Ties(_) => None,
    }
}

fn differing(left: &[Tok<'_>], right: &[Tok<'_>], a: Value, b: Value) -> Finding
    ensures { result ≡ spec.differing (views left.now) (views right.now) a b }
{
    Finding::Differ {
        left: extent_of(left),
        left_size: bytes_of(a.width),
        right: extent_of(right),
        right_size: bytes_of(b.width),
    }
}

/// What is wrong with two sides that are equal, in these tokens.
fn pair_fault(
    wanted: Wanted,
    tokens: &[Tok<'_>],
    left: &[Tok<'_>],
    right: &[Tok<'_>],
    a: Value,
    b: Value,
) -> Option<Culprit>
    ensures { result ≡ spec.pair_fault wanted (views tokens.now) (views left.now) (views right.now) a b }
{
    match wanted {
        Wanted::Clash => if_so(
            differ(a.width, b.width),
            extent_of(tokens),
            differing(left, right, a, b),
        ),
        Wanted::Ties(size) => {
            if_so(
                ties(size, a.width, b.width),
                extent_of(tokens),
                Finding::Tied,
            )
        }
        Wanted::Unfixed => None,
    }
}

fn asking(tokens: &[Tok<'_>], value: Value, asked: u64, is_condition: bool) -> Finding
    ensures { result ≡ spec.asking (views tokens.now) value asked is_condition }
{
    Finding::Asked {
        part: extent_of(tokens),
        size: bytes_of(value.width),
        asked,
        is_condition,
        is_token: tokens.len() == 1,
    }
}

/// What is wrong with these tokens, whose value is this one, where they are asked to have so many
/// bytes.
fn asked_fault(
    wanted: Wanted,
    tokens: &[Tok<'_>],
    value: Value,
    size: u64,
    is_condition: bool,
) -> Option<Culprit>
    ensures { result ≡ spec.asked_fault wanted (views tokens.now) value size is_condition }
{
    let asked = Width::Bytes(size);
    match wanted {
        Wanted::Clash => if_so(
            differ(value.width, asked),
            extent_of(tokens),
            asking(tokens, value, size, is_condition),
        ),
        Wanted::Ties(n) => if_so(
            ties(n, value.width, asked),
            extent_of(tokens),
            Finding::Tied,
        ),
        Wanted::Unfixed => None,
    }
}

// ---- operators

fn both_fault(
    wanted: Wanted,
    left: &[Tok<'_>],
    right: &[Tok<'_>],
    a: Value,
    b: Value,
) -> Option<Culprit>
    ensures { result ≡ spec.both_fault wanted (views left.now) (views right.now) a b }
{
    or_else(
        asked_fault(wanted, left, a, 1, false),
        asked_fault(wanted, right, b, 1, false),
    )
}

fn test_fault(
    wanted: Wanted,
    tokens: &[Tok<'_>],
    left: &[Tok<'_>],
    right: &[Tok<'_>],
    a: Value,
    b: Value,
) -> Option<Culprit>
    ensures { result ≡ spec.test_fault wanted (views tokens.now) (views left.now) (views right.now) a b }
{
    let are_unsized = is_unsized(a.width) && is_unsized(b.width);
    or_else(
        pair_fault(wanted, tokens, left, right, a, b),
        unsaid_if(wanted, are_unsized, a, Why::Value),
    )
}

/// What is wrong with the two sides of an operator of this class.
fn operator_fault(
    wanted: Wanted,
    class: Class,
    tokens: &[Tok<'_>],
    left: &[Tok<'_>],
    right: &[Tok<'_>],
    a: Value,
    b: Value,
) -> Option<Culprit>
    ensures { result ≡ spec.operator_fault wanted class (views tokens.now) (views left.now)
        (views right.now) a b }
{
    match class {
        Class::Alike => pair_fault(wanted, tokens, left, right, a, b),
        Class::Test => test_fault(wanted, tokens, left, right, a, b),
        Class::Boolean => both_fault(wanted, left, right, a, b),
        Class::Shift => unsaid_if(wanted, is_open(b.width), b, Why::Amount),
        Class::Comma => None,
    }
}

// ---- what isn't an operator with two sides

fn tied_if(wanted: Wanted, b: bool, tokens: &[Tok<'_>]) -> Option<Culprit>
    ensures { result ≡ spec.tied_if wanted b (views tokens.now) }
{
    match wanted {
        Wanted::Ties(_) => if_so(b, extent_of(tokens), Finding::Tied),
        Wanted::Clash => None,
        Wanted::Unfixed => None,
    }
}

fn is_sought(wanted: Wanted, width: Width) -> bool
    ensures { result ≡ spec.is_sought wanted width }
{
    match wanted {
        Wanted::Ties(size) => has_size(size, width),
        Wanted::Clash => false,
        Wanted::Unfixed => false,
    }
}

/// What is wrong with two arguments that are equal.
fn arguments_fault(wanted: Wanted, s: &Scope<'_, '_, '_>, arguments: &[Tok<'_>]) -> Option<Culprit>
    ensures { result ≡ spec.arguments_fault wanted (scope s.now) (views arguments.now) }
{
    match main_of(arguments) {
        Some(at) => {
            let left = front(arguments, at);
            let right = beyond(arguments, at);
            test_fault(
                wanted,
                arguments,
                left,
                right,
                value_of(s, left),
                value_of(s, right),
            )
        }
        None => None,
    }
}

/// What is wrong with a call with these arguments, whose value this is where there is one.
fn call_fault(
    wanted: Wanted,
    s: &Scope<'_, '_, '_>,
    tokens: &[Tok<'_>],
    arguments: &[Tok<'_>],
    value: Value,
) -> Option<Culprit>
    ensures { result ≡ spec.call_fault wanted (scope s.now) (views tokens.now)
        (views arguments.now) value }
{
    let name = text_at(tokens, 0);
    if is_carry(name) {
        arguments_fault(wanted, s, arguments)
    } else if is_function(name) {
        unsaid_if(wanted, is_unsized(value.width), value, Why::Value)
    } else if gives_any(s, name) {
        unsaid_if(wanted, is_open(value.width), value, Why::Value)
    } else {
        tied_if(wanted, is_sought(wanted, named(s, name)), tokens)
    }
}

/// Why nothing says the size of a value of which so many bytes are kept.
fn why_kept(width: Width, count: u64) -> Why
    ensures { result ≡ spec.why_kept width count }
{
    if is_open(width) {
        Why::Value
    } else {
        Why::Kept(count)
    }
}

/// What is wrong with taking bytes or bits of a value.
fn suffix_fault(
    wanted: Wanted,
    suffix: &[Tok<'_>],
    tokens: &[Tok<'_>],
    value: Value,
) -> Option<Culprit>
    ensures { result ≡ spec.suffix_fault wanted (views suffix.now) (views tokens.now) value }
{
    if suffix.len() == 0 {
        None
    } else if has_here(suffix, 0, b":") {
        let why = why_kept(value.width, number_after(suffix, 0, 1));
        unsaid_if(wanted, is_unsized(value.width), value, why)
    } else if has_here(suffix, 0, b"[") {
        unsaid_if(wanted, is_unsized(value.width), value, Why::Value)
    } else {
        tied_if(wanted, is_sought(wanted, value.width), tokens)
    }
}

fn primary_fault(
    wanted: Wanted,
    s: &Scope<'_, '_, '_>,
    tokens: &[Tok<'_>],
    inner: Value,
) -> Option<Culprit>
    ensures { result ≡ spec.primary_fault wanted (scope s.now) (views tokens.now) inner }
{
    if is_integer_at(tokens, 0) {
        None
    } else {
        let value = primary_value(s, tokens, inner);
        suffix_fault(wanted, suffix_of(tokens), tokens, value)
    }
}

fn called_fault(
    wanted: Wanted,
    s: &Scope<'_, '_, '_>,
    tokens: &[Tok<'_>],
    inner: Value,
) -> Option<Culprit>
    ensures { result ≡ spec.called_fault wanted (scope s.now) (views tokens.now) inner }
{
    if is_call(tokens) {
        call_fault(wanted, s, tokens, inside(tokens), inner)
    } else {
        None
    }
}

/// What is wrong with an expression that no operator with two sides ends.
fn single_fault(
    wanted: Wanted,
    s: &Scope<'_, '_, '_>,
    tokens: &[Tok<'_>],
    inner: Value,
) -> Option<Culprit>
    ensures { result ≡ spec.single_fault wanted (scope s.now) (views tokens.now) inner }
{
    if is_minus(tokens) {
        None
    } else if is_not(tokens) {
        asked_fault(wanted, inside(tokens), inner, 1, false)
    } else if is_star(tokens) {
        unsaid_if(wanted, is_open(inner.width), inner, Why::Pointer)
    } else {
        or_else(
            called_fault(wanted, s, tokens, inner),
            primary_fault(wanted, s, tokens, inner),
        )
    }
}

// ---- expressions

/// The first part at fault of an expression with at most so many operators and brackets in one
/// another.
#[tactic(auto, using(crate::proofs::DepthLemmas::fault_out, crate::proofs::DepthLemmas::fault_none, crate::proofs::DepthLemmas::fault_two, crate::proofs::DepthLemmas::fault_one,))]
fn fault_in(
    depth: u32,
    wanted: Wanted,
    s: &Scope<'_, '_, '_>,
    tokens: &[Tok<'_>],
) -> Option<Culprit>
    ensures { result ≡ spec.fault_in depth wanted (scope s.now) (views tokens.now) }
{
    if depth == 0 {
        return None;
    }
    if tokens.len() == 0 {
        return None;
    }
    match main_of(tokens) {
        Some(at) => {
            let left = front(tokens, at);
            let right = beyond(tokens, at);
            let first = fault_in(depth - 1, wanted, s, left);
            let second = fault_in(depth - 1, wanted, s, right);
            let class = class_of(text_at(tokens, at));
            let (a, b) = (value_of(s, left), value_of(s, right));
            let own = operator_fault(wanted, class, tokens, left, right, a, b);
            or_else(first, or_else(second, own))
        }
        None => {
            let within = inside(tokens);
            let first = fault_in(depth - 1, wanted, s, within);
            or_else(first, single_fault(wanted, s, tokens, value_of(s, within)))
        }
    }
}

/// The first part of an expression that is at fault.
#[tactic(auto, unfolding(crate::specs::Faults::fault_of))]
pub fn fault_of(wanted: Wanted, s: &Scope<'_, '_, '_>, tokens: &[Tok<'_>]) -> Option<Culprit>
    ensures { result ≡ spec.fault_of wanted (scope s.now) (views tokens.now) }
{
    fault_in(MOST_DEPTH, wanted, s, tokens)
}

// ---- statements

/// A condition without the brackets round it.
fn condition_of<'t, 'a>(tokens: &'t [Tok<'a>]) -> &'t [Tok<'a>]
    ensures { views result.now ≡ spec.condition_of (views tokens.now) }
{
    if is_group(tokens) && suffix_of(tokens).len() == 0 {
        inside(tokens)
    } else {
        tokens
    }
}

fn asked_condition(wanted: Wanted, s: &Scope<'_, '_, '_>, tokens: &[Tok<'_>]) -> Option<Culprit>
    ensures { result ≡ spec.asked_condition wanted (scope s.now) (views tokens.now) }
{
    asked_fault(wanted, tokens, value_of(s, tokens), 1, true)
}

fn if_fault(wanted: Wanted, s: &Scope<'_, '_, '_>, tokens: &[Tok<'_>]) -> Option<Culprit>
    ensures { result ≡ spec.if_fault wanted (scope s.now) (views tokens.now) }
{
    or_else(
        fault_of(wanted, s, tokens),
        asked_condition(wanted, s, condition_of(tokens)),
    )
}

/// What is wrong with a pointer, or with a target in brackets.
fn address_fault(wanted: Wanted, s: &Scope<'_, '_, '_>, tokens: &[Tok<'_>]) -> Option<Culprit>
    ensures { result ≡ spec.address_fault wanted (scope s.now) (views tokens.now) }
{
    let value = value_of(s, tokens);
    or_else(
        fault_of(wanted, s, tokens),
        unsaid_if(wanted, is_open(value.width), value, Why::Pointer),
    )
}

fn target_fault(wanted: Wanted, s: &Scope<'_, '_, '_>, tokens: &[Tok<'_>]) -> Option<Culprit>
    ensures { result ≡ spec.target_fault wanted (scope s.now) (views tokens.now) }
{
    if has_after(tokens, 0, 1, b"[") {
        let target = front(from(tokens, 2), tokens.len().saturating_sub(3));
        address_fault(wanted, s, target)
    } else {
        None
    }
}

fn without_local<'t, 'a>(tokens: &'t [Tok<'a>]) -> &'t [Tok<'a>]
    ensures { views result.now ≡ spec.without_local (views tokens.now) }
{
    if has_here(tokens, 0, b"local") {
        from(tokens, 1)
    } else {
        tokens
    }
}

/// What a left side asks of the value.
fn left_width(s: &Scope<'_, '_, '_>, tokens: &[Tok<'_>]) -> Width
    ensures { result ≡ spec.left_width (scope s.now) (views tokens.now) }
{
    if is_star(tokens) {
        loaded_width(star_size(tokens))
    } else if has_after(tokens, 0, 1, b":") {
        told(number_after(tokens, 0, 2))
    } else if has_after(tokens, 0, 1, b"[") {
        told(bit_bytes(number_after(tokens, 0, 4)))
    } else {
        named(s, text_at(tokens, 0))
    }
}

fn stored_fault(wanted: Wanted, s: &Scope<'_, '_, '_>, left: &[Tok<'_>]) -> Option<Culprit>
    ensures { result ≡ spec.stored_fault wanted (scope s.now) (views left.now) }
{
    if is_star(left) {
        address_fault(wanted, s, inside(left))
    } else {
        None
    }
}

/// What is wrong with a value that is given to a left side of this width.
fn given_fault(wanted: Wanted, left: Width, tokens: &[Tok<'_>], value: Value) -> Option<Culprit>
    ensures { result ≡ spec.given_fault wanted left (views tokens.now) value }
{
    match wanted {
        Wanted::Clash => if_so(
            differ(value.width, left),
            extent_of(tokens),
            asking(tokens, value, bytes_of(left), false),
        ),
        Wanted::Ties(size) => {
            if_so(
                ties(size, value.width, left),
                extent_of(tokens),
                Finding::Tied,
            )
        }
        Wanted::Unfixed => {
            let is_unsaid = is_open(left) && is_unsized(value.width);
            unsaid_if(Wanted::Unfixed, is_unsaid, value, Why::Value)
        }
    }
}

fn assignment_fault(
    wanted: Wanted,
    s: &Scope<'_, '_, '_>,
    left: &[Tok<'_>],
    right: &[Tok<'_>],
) -> Option<Culprit>
    ensures { result ≡ spec.assignment_fault wanted (scope s.now) (views left.now) (views right.now) }
{
    let own = given_fault(wanted, left_width(s, left), right, value_of(s, right));
    or_else(
        stored_fault(wanted, s, left),
        or_else(fault_of(wanted, s, right), own),
    )
}

fn is_jump(tokens: &[Tok<'_>]) -> bool
    ensures { result ≡ spec.is_jump (views tokens.now) }
{
    has_here(tokens, 0, b"goto") || has_here(tokens, 0, b"call") || has_here(tokens, 0, b"return")
}

/// Whether a statement has no sizes: a label, the brace that closes, `build` and `export`.
fn is_plain(tokens: &[Tok<'_>]) -> bool
    ensures { result ≡ spec.is_plain (views tokens.now) }
{
    has_here(tokens, 0, b"<")
        || has_here(tokens, 0, b"}")
        || has_here(tokens, 0, b"build")
        || has_here(tokens, 0, b"export")
}

fn has_equals(tokens: &[Tok<'_>]) -> bool
    ensures { result ≡ spec.has_equals (views tokens.now) }
{
    steps_to(b"=", tokens) < tokens.len()
}

/// The first part at fault of a statement that calls no macro.
pub fn statement_fault(wanted: Wanted, s: &Scope<'_, '_, '_>, tokens: &[Tok<'_>]) -> Option<Culprit>
    ensures { result ≡ spec.statement_fault wanted (scope s.now) (views tokens.now) }
{
    if is_plain(tokens) {
        None
    } else if has_here(tokens, 0, b"if") {
        if_fault(wanted, s, up_to(from(tokens, 1), b"goto"))
    } else if is_jump(tokens) {
        target_fault(wanted, s, tokens)
    } else if has_equals(tokens) {
        let left = without_local(up_to(tokens, b"="));
        assignment_fault(wanted, s, left, beyond(tokens, steps_to(b"=", tokens)))
    } else {
        fault_of(wanted, s, tokens)
    }
}
