//! The operators of a section's expressions.

ghost use Rattle.std.specs.Prelude.{◌≡◌};
ghost use Rattle.sl_explain_sizes.specs.Operators as spec;
ghost use Rattle.sl_lex.specs.Views.{views};

use crate::slices::{beyond, outside};
use sl_explain_heads::from;
use sl_explain_names::{has_after, is};
use sl_lex::Tok;

/// How an operator ties the sizes of its sides and of its result.
#[derive(Clone, Copy)]
pub enum Class {
    /// All three are equal.
    Alike,
    /// The result has that of the left side.
    Shift,
    /// The sides are equal, and the result has one byte.
    Test,
    /// Each has one byte.
    Boolean,
    /// Between two arguments.
    Comma,
}

// ---- ranks and classes

fn is_factor(text: &[u8]) -> bool
    ensures { result ≡ spec.is_factor text.now }
{
    is(text, b"*") || is(text, b"/") || is(text, b"%") || is(text, b"s/") || is(text, b"s%")
}

fn is_sum(text: &[u8]) -> bool
    ensures { result ≡ spec.is_sum text.now }
{
    is(text, b"+") || is(text, b"-")
}

fn is_shift(text: &[u8]) -> bool
    ensures { result ≡ spec.is_shift text.now }
{
    is(text, b"<<") || is(text, b">>") || is(text, b"s>>")
}

fn is_order(text: &[u8]) -> bool
    ensures { result ≡ spec.is_order text.now }
{
    is(text, b"<")
        || is(text, b"<=")
        || is(text, b">")
        || is(text, b">=")
        || is(text, b"s<")
        || is(text, b"s<=")
        || is(text, b"s>")
        || is(text, b"s>=")
}

fn is_equality(text: &[u8]) -> bool
    ensures { result ≡ spec.is_equality text.now }
{
    is(text, b"==") || is(text, b"!=")
}

fn is_conjunction(text: &[u8]) -> bool
    ensures { result ≡ spec.is_conjunction text.now }
{
    is(text, b"&&") || is(text, b"^^")
}

/// The rank of an operator, the higher the looser it is; 0 where the bytes are those of none.
fn rank_of(text: &[u8]) -> u8
    ensures { result ≡ spec.rank_of text.now }
{
    if is_factor(text) {
        1
    } else if is_sum(text) {
        2
    } else if is_shift(text) {
        3
    } else if is_order(text) {
        4
    } else if is_equality(text) {
        5
    } else if is(text, b"&") {
        6
    } else if is(text, b"^") {
        7
    } else if is(text, b"|") {
        8
    } else if is_conjunction(text) {
        9
    } else if is(text, b"||") {
        10
    } else if is(text, b",") {
        11
    } else {
        0
    }
}

/// The class of an operator.
pub fn class_of(text: &[u8]) -> Class
    ensures { result ≡ spec.class_of text.now }
{
    if is_shift(text) {
        Class::Shift
    } else if is_order(text) || is_equality(text) {
        Class::Test
    } else if is_conjunction(text) || is(text, b"||") {
        Class::Boolean
    } else if is(text, b",") {
        Class::Comma
    } else {
        Class::Alike
    }
}

// ---- the operator that is applied last

/// How many tokens of a star form are after its mark.
pub fn star_length(tokens: &[Tok<'_>]) -> usize
    ensures { result ≡ spec.star_length (views tokens.now) }
{
    if has_after(tokens, 0, 1, b"[") {
        if has_after(tokens, 0, 4, b":") { 5 } else { 3 }
    } else if has_after(tokens, 0, 1, b":") {
        2
    } else {
        0
    }
}

/// What is known of an expression up to a token.
#[derive(Clone, Copy)]
struct Scan {
    /// An operand is due, and no operator.
    due: bool,
    /// How many tokens belong to what is before them.
    skip: usize,
    /// The rank of the loosest operator, and the index of the last one of that rank.
    rank: u8,
    best: Option<usize>,
}

fn skipping(scan: Scan, skip: usize, due: bool) -> Scan
    ensures { result ≡ spec.skipping scan skip due }
{
    Scan {
        due,
        skip,
        rank: scan.rank,
        best: scan.best,
    }
}

/// What is known after the token of this index, where an operand is due.
fn at_operand(tokens: &[Tok<'_>], index: usize, text: &[u8], scan: Scan) -> Scan
    ensures { result ≡ spec.at_operand (views tokens.now) index text.now scan }
{
    if is(text, b"*") {
        skipping(scan, star_length(from(tokens, index)), true)
    } else if is(text, b"-") || is(text, b"~") || is(text, b"!") {
        skipping(scan, 0, true)
    } else if is(text, b"(") {
        skipping(scan, outside(b")", beyond(tokens, index)), false)
    } else {
        skipping(scan, 0, false)
    }
}

/// What is known after an operator of this rank, or after no operator.
fn with_operator(scan: Scan, index: usize, rank: u8) -> Scan
    ensures { result ≡ spec.with_operator scan index rank }
{
    if rank == 0 {
        skipping(scan, 0, false)
    } else if scan.rank <= rank {
        Scan {
            due: true,
            skip: 0,
            rank,
            best: Some(index),
        }
    } else {
        skipping(scan, 0, true)
    }
}

/// What is known after the token of this index, where an operand is there.
fn at_operator(tokens: &[Tok<'_>], index: usize, text: &[u8], scan: Scan) -> Scan
    ensures { result ≡ spec.at_operator (views tokens.now) index text.now scan }
{
    if is(text, b"(") {
        skipping(scan, outside(b")", beyond(tokens, index)), false)
    } else if is(text, b"[") {
        skipping(scan, outside(b"]", beyond(tokens, index)), false)
    } else if is(text, b":") {
        skipping(scan, 1, false)
    } else {
        with_operator(scan, index, rank_of(text))
    }
}

/// What is known after the token of this index.
fn step(tokens: &[Tok<'_>], index: usize, text: &[u8], scan: Scan) -> Scan
    ensures { result ≡ spec.step (views tokens.now) index text.now scan }
{
    if 0 < scan.skip {
        skipping(scan, scan.skip - 1, scan.due)
    } else if scan.due {
        at_operand(tokens, index, text, scan)
    } else {
        at_operator(tokens, index, text, scan)
    }
}

/// The index of the operator that is applied last, if there is one.
#[tactic(auto, unfolding(crate::specs::Operators::main_of))]
pub fn main_of(tokens: &[Tok<'_>]) -> Option<usize>
    ensures { result ≡ spec.main_of (views tokens.now) }
{
    let mut scan = Scan {
        due: true,
        skip: 0,
        rank: 0,
        best: None,
    };
    'tokens: for at in 0..tokens.len() {
        scan = step(tokens, at, tokens[at].text, scan);
    }
    scan.best
}
