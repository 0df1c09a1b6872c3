//! Reading a section statement by statement, macros taken out.

ghost use Rattle.std.specs.Prelude.{◌≡◌, ◌+◌, ◌<◌, ◌++◌, ◌∷◌, [], length, IfOk, OnOk, Some, None};
ghost use Rattle.std.specs.Prelude.{slice_get, if◌then◌else◌};
ghost use Rattle.sl_ast.specs.Views.{expressions_of, statement_of};
ghost use Rattle.sl_section_resolve.specs.MacroViews.{bodies_of, macro_view};
ghost use Rattle.sl_section_resolve.specs.Steps.{macro_name, parameters_of};
ghost use Rattle.sl_section_resolve.specs.Work.{Begins, GoesOn, called_macro, gone_on, outcome};
ghost use Rattle.sl_section_resolve.specs.Work.{if_takes, left_in, outcome_with, statement_macro};
ghost use Rattle.sl_spec.specs.Named.{index_named};

use crate::arguments::bind;
use crate::macros::MacroBody;
use crate::state::State;
use crate::work::{Frame, Work};
use sl_ast::expressions::Expr;
use sl_ast::statements::Stmt;
use sl_section_terms::{Names, if_below, take};
use sl_spec::{Named, Tables};
use std::alloc::{AllocError, Global};

/// The number of the macro of a name.
fn index_of<'s, 'a>(macros: &Named<'a, MacroBody<'s, 'a>>, name: &[u8]) -> Option<usize>
    ensures { result ≡ index_named macro_name name.now (bodies_of macros.now) }
{
    macros.index_of(name)
}

/// A number, where it is chosen.
fn chosen(i: usize, takes: bool) -> Option<usize>
    ensures { result ≡ if takes then Some i else None }
{
    if takes { Some(i) } else { None }
}

/// The macro of this number, where it has as many parameters as there are arguments.
fn taking<'s, 'a>(macros: &Named<'a, MacroBody<'s, 'a>>, i: usize, es: &[Expr<'a>]) -> Option<usize>
    ensures { result ≡ if_takes i (slice_get (bodies_of macros.now) i) (expressions_of es.now) }
{
    match macros.at(i) {
        Some(m) => {
            let of = m.of;
            chosen(i, of.parameters.len() == es.len())
        }
        None => None,
    }
}

/// The macro that a call names, where it has as many parameters as there are arguments and is one
/// of the first `limit`.
fn called_macro<'s, 'a>(
    macros: &Named<'a, MacroBody<'s, 'a>>,
    limit: usize,
    name: &[u8],
    es: &[Expr<'a>],
) -> Option<usize>
    ensures { result ≡ called_macro (bodies_of macros.now) limit name.now (expressions_of es.now) }
{
    match if_below(limit, index_of(macros, name)) {
        Some(i) => taking(macros, i, es),
        None => None,
    }
}

/// The macro that a statement calls.
fn statement_macro<'s, 'a>(
    macros: &Named<'a, MacroBody<'s, 'a>>,
    limit: usize,
    x: &Stmt<'a>,
) -> Option<usize>
    ensures { result ≡ statement_macro (bodies_of macros.now) limit (statement_of x.now) }
{
    match x {
        Stmt::Invoke(name, es) => called_macro(macros, limit, name, es.as_slice()),
        Stmt::Local(_, _, _) => None,
        Stmt::Declare(_, _, _) => None,
        Stmt::Assign(_, _) => None,
        Stmt::Goto(_) => None,
        Stmt::Branch(_, _) => None,
        Stmt::Call(_) => None,
        Stmt::Return(_) => None,
        Stmt::Build(_) => None,
        Stmt::Export(_) => None,
        Stmt::Label(_) => None,
    }
}

/// Reads a statement of a frame, which calls no macro.
fn go_on<'s, 'a>(
    alloc: Global,
    t: &Tables<'a>,
    work: &mut Work<'s, 'a>,
    frame: Frame<'s, 'a>,
    x: &Stmt<'a>,
) -> Result<(), AllocError>
    requires { frame.at < length frame.body.now }
    ensures { OnOk result (GoesOn t.now frame.entry work.old (statement_of x.now) work.new) }
{
    let at = frame.at + 1;
    let mut st = State {
        names: frame.names,
        next: work.next,
        calls: work.calls,
    };
    st.statement(alloc, t, &mut work.steps, x)?;
    work.next = st.next;
    work.calls = st.calls;
    work.frames.push(Frame {
        names: st.names,
        limit: frame.limit,
        body: frame.body,
        at,
    })?;
    Ok(())
}

/// Begins a call of a macro, the one of number `i`.
fn begin<'s, 'a>(
    alloc: Global,
    t: &Tables<'a>,
    m: &MacroBody<'s, 'a>,
    i: usize,
    work: &mut Work<'s, 'a>,
    names: &Names<'a>,
    es: &[Expr<'a>],
) -> Result<Frame<'s, 'a>, AllocError>
    requires { length (parameters_of (macro_view m.now)) ≡ length es.now }
    ensures { IfOk result (λ inner. Begins t.now names.now work.old (macro_view m.now) i
        (expressions_of es.now) inner work.new) }
{
    let of = m.of;
    let here = take(&mut work.calls)?;
    let parameters = of.parameters.as_slice();
    let own = bind(
        alloc,
        t,
        names,
        &mut work.next,
        &mut work.steps,
        parameters,
        es,
    )?;
    let names = Names {
        own,
        reach: m.reach,
        here,
    };
    Ok(Frame {
        names,
        limit: i,
        body: of.body.as_slice(),
        at: 0,
    })
}

/// Puts a frame back, behind its statement, and that of the macro which the statement calls.
fn call<'s, 'a>(
    work: &mut Work<'s, 'a>,
    frame: Frame<'s, 'a>,
    inner: Frame<'s, 'a>,
) -> Result<(), AllocError>
    requires { frame.at < length frame.body.now }
    ensures frames { OnOk result (work.new.frames.items
        ≡ work.old.frames.items ++ gone_on frame.entry frame.entry.names ∷ inner.entry ∷ []) }
    ensures steps { OnOk result (work.new.steps ≡ work.old.steps) }
    ensures next { OnOk result (work.new.next ≡ work.old.next) }
    ensures calls { OnOk result (work.new.calls ≡ work.old.calls) }
{
    let at = frame.at + 1;
    work.frames.push(Frame {
        names: frame.names,
        limit: frame.limit,
        body: frame.body,
        at,
    })?;
    work.frames.push(inner)?;
    Ok(())
}

/// Begins the call of a macro that a statement makes, the one of number `i`.
fn enter<'s, 'a>(
    alloc: Global,
    t: &Tables<'a>,
    macros: &Named<'a, MacroBody<'s, 'a>>,
    i: usize,
    work: &mut Work<'s, 'a>,
    frame: Frame<'s, 'a>,
    x: &Stmt<'a>,
) -> Result<(), AllocError>
    requires within { frame.at < length frame.body.now }
    requires called { statement_macro (bodies_of macros.now) frame.limit (statement_of x.now)
        ≡ Some i }
    requires left { left_in frame ≡ statement_of x.now ∷ left_in (gone_on frame frame.names) }
    ensures { OnOk result (outcome t.now (bodies_of macros.now) work.new
        ≡ outcome_with t.now (bodies_of macros.now) frame.entry work.old) }
{
    match x {
        Stmt::Invoke(_, es) => {
            let m = macros.member(i);
            let inner = begin(alloc, t, m, i, work, &frame.names, es.as_slice())?;
            call(work, frame, inner)?;
            Ok(())
        }
        Stmt::Local(_, _, _) => Ok(()),
        Stmt::Declare(_, _, _) => Ok(()),
        Stmt::Assign(_, _) => Ok(()),
        Stmt::Goto(_) => Ok(()),
        Stmt::Branch(_, _) => Ok(()),
        Stmt::Call(_) => Ok(()),
        Stmt::Return(_) => Ok(()),
        Stmt::Build(_) => Ok(()),
        Stmt::Export(_) => Ok(()),
        Stmt::Label(_) => Ok(()),
    }
}

/// Reads the next statement of a frame that was taken off.
fn read<'s, 'a>(
    alloc: Global,
    t: &Tables<'a>,
    macros: &Named<'a, MacroBody<'s, 'a>>,
    work: &mut Work<'s, 'a>,
    frame: Frame<'s, 'a>,
) -> Result<(), AllocError>
    ensures { OnOk result (outcome t.now (bodies_of macros.now) work.new
        ≡ outcome_with t.now (bodies_of macros.now) frame.entry work.old) }
{
    let body = frame.body;
    let at = frame.at;
    if at >= body.len() {
        return Ok(());
    }
    let x = &body[at];
    match statement_macro(macros, frame.limit, x) {
        None => {
            go_on(alloc, t, work, frame, x)?;
            Ok(())
        }
        Some(i) => enter(alloc, t, macros, i, work, frame, x),
    }
}

/// Reads all that is left. 2^64 statements would be want of memory.
pub fn read_all<'s, 'a>(
    alloc: Global,
    t: &Tables<'a>,
    macros: &Named<'a, MacroBody<'s, 'a>>,
    work: &mut Work<'s, 'a>,
) -> Result<(), AllocError>
    ensures done { OnOk result (work.new.frames.items ≡ []) }
    ensures outcome { OnOk result (outcome t.now (bodies_of macros.now) work.new
        ≡ outcome t.now (bodies_of macros.now) work.old) }
{
    'rounds: for _round in 0..u64::MAX {
        match work.frames.pop() {
            None => return Ok(()),
            Some(frame) => read(alloc, t, macros, work, frame)?,
        }
    }
    Err(AllocError)
}
