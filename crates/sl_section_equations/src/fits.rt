//! Rule 40 within a section.

ghost use Rattle.std.specs.Prelude.{◌≡◌, option_map};
ghost use Rattle.sl_section_flat.specs.Sections.{variable_of};
ghost use Rattle.sl_section_flat.specs.Views.{export_of, step_of, steps_of};
ghost use Rattle.sl_section_flat.specs.Chains.{bytes_of, chain};
ghost use Rattle.sl_section_flat.specs.Views.{symbol_of, term_of, terms_of};
ghost use Rattle.sl_sizes.specs.Solutions.{bytes_at};
ghost use Rattle.sl_section_equations.specs.Fits as f;
ghost use Rattle.sl_section_equations.specs.Known.{operand_size};

use crate::known::KnownSizes;
use crate::put::span_size;
use sl_section_flat::{Export, Section, Span, Step, Symbol, Term, variable};
use sl_word::{Op1, Size};

/// The size of a variable in bytes; 0 past the last one.
fn bytes_at(sizes: &[Size], x: u32) -> u8
    ensures { result ≡ bytes_at sizes.now x }
{
    match sizes.get(x as usize) {
        Some(size) => size.bytes,
        None => 0,
    }
}

fn bits_fit(span: Span, n: u8) -> bool
    ensures { result ≡ f.bits_fit span.low span.count n }
{
    u128::from(span.low) + u128::from(span.count) <= 8 * u128::from(n)
}

fn one_fits(op: Op1, n: u8, m: u8) -> bool
    ensures { result ≡ f.one_fits op n m }
{
    match op {
        Op1::IntZext | Op1::IntSext => n <= m,
        Op1::Copy | Op1::IntNegate | Op1::Int2Comp | Op1::BoolNegate => true,
        Op1::PopCount | Op1::LzCount => true,
    }
}

/// The size in bytes of what a name stands for.
fn symbol_size(known: &KnownSizes<'_>, sizes: &[Size], a: Symbol) -> Option<u8>
    ensures { result
        ≡ f.symbol_size (bytes_at sizes.now) (operand_size known.now) (symbol_of a) }
{
    match a {
        Symbol::Register(r) => Some(r.size.bytes),
        Symbol::BitRange(_, span) => Some(span_size(span).bytes),
        Symbol::Local(x) => Some(bytes_at(sizes, x)),
        Symbol::Table(i) => match known.operand(i) {
            Some(size) => Some(size.bytes),
            None => None,
        },
        Symbol::Attached(_, n) => Some(n.bytes),
        Symbol::Value(_) | Symbol::Start | Symbol::Next | Symbol::Integer(_) => None,
    }
}

fn span_fits(span: Span, n: Option<u8>) -> bool
    ensures { result ≡ f.span_fits span.low span.count n }
{
    match n {
        None => false,
        Some(n) => bits_fit(span, n),
    }
}

fn term_fits(sizes: &[Size], t: &Term) -> bool
    ensures { result ≡ f.term_fits (bytes_at sizes.now) (term_of t.now) }
{
    match t {
        Term::Number(_, _) => true,
        Term::Sized(_, _, _) => true,
        Term::Name(_, _) => true,
        Term::Paren(t, _) => term_fits(sizes, t),
        Term::Kept(t, n, _) => term_fits(sizes, t) && n.bytes <= bytes_at(sizes, variable(t)),
        Term::Dropped(t, n, _) => term_fits(sizes, t) && *n < bytes_at(sizes, variable(t)),
        Term::Bits(t, span, _) => {
            term_fits(sizes, t) && bits_fit(*span, bytes_at(sizes, variable(t)))
        }
        Term::Load(_, _, t, _) => term_fits(sizes, t),
        Term::One(op, t, x) => {
            term_fits(sizes, t) && one_fits(*op, bytes_at(sizes, variable(t)), bytes_at(sizes, *x))
        }
        Term::Two(_, _, a, b, _) => term_fits(sizes, a) && term_fits(sizes, b),
        Term::User(_, ts, _) => {
            let ts = ts.as_slice();
            'arguments: for index in 0..ts.len() {
                if !term_fits(sizes, &ts[index]) {
                    return false;
                }
            }
            true
        }
    }
}

fn terms_fit(sizes: &[Size], ts: &[Term]) -> bool
    ensures { result ≡ f.terms_fit (bytes_at sizes.now) (chain (terms_of ts.now)) }
{
    'arguments: for index in 0..ts.len() {
        if !term_fits(sizes, &ts[index]) {
            return false;
        }
    }
    true
}

fn export_fits(sizes: &[Size], what: &Export) -> bool
    ensures { result ≡ f.export_fits (bytes_at sizes.now) (export_of what.now) }
{
    match what {
        Export::Name(_, _) => true,
        Export::Constant(_, t, _) => term_fits(sizes, t),
        Export::Memory(_, _, t, _) => term_fits(sizes, t),
    }
}

fn step_fits(known: &KnownSizes<'_>, sizes: &[Size], step: &Step<'_>) -> bool
    ensures { result
        ≡ f.step_fits (bytes_at sizes.now) (operand_size known.now) (step_of step.now) }
{
    match step {
        Step::Set(_, t) => term_fits(sizes, t),
        Step::SetBits(a, span, t) => {
            term_fits(sizes, t) && span_fits(*span, symbol_size(known, sizes, *a))
        }
        Step::Store(_, _, pointer, _, t) => term_fits(sizes, pointer) && term_fits(sizes, t),
        Step::User(_, ts) => terms_fit(sizes, ts.as_slice()),
        Step::BranchIf(t, _) => term_fits(sizes, t),
        Step::BranchTo(t) | Step::CallTo(t) | Step::Return(t) => term_fits(sizes, t),
        Step::Export(what) => export_fits(sizes, what),
        Step::Declare(_, _) | Step::Build(_) | Step::Label(_) | Step::Branch(_) => true,
        Step::Call(_) => true,
    }
}

/// Whether a section whose variables have these sizes keeps rule 40, but for its last demand, which
/// is judged over the constructors of a table.
pub fn section_fits(known: &KnownSizes<'_>, sizes: &[Size], section: &Section<'_>) -> bool
    ensures { result ≡ f.section_fits (bytes_at sizes.now) (operand_size known.now)
        (steps_of section.now.steps.items) }
{
    let steps = section.steps.as_slice();
    'steps: for step in steps {
        if !step_fits(known, sizes, step) {
            return false;
        }
    }
    true
}
