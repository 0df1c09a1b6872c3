//! Statements that call no macro.

ghost use Rattle.std.specs.Prelude.{◌≡◌, ◌+◌, ◌++◌, ◌∷◌, [], IfOk, OnOk, Some, None, option_map};
ghost use Rattle.sl_ast.specs.Views as a;
ghost use Rattle.sl_ast.specs.Views.{bytes, arguments, expression_of, expressions_of};
ghost use Rattle.sl_ast.specs.Trees.{exports_star};
ghost use Rattle.sl_section_flat.specs.Sections as s;
ghost use Rattle.sl_section_flat.specs.Views.{label_of, step_of, steps_of, symbol_of};
ghost use Rattle.sl_section_flat.specs.Chains.{bytes_of};
ghost use Rattle.sl_section_flat.specs.Views.{term_of};
ghost use Rattle.sl_section_flat.specs.Views.{export_of, terms_of};
ghost use Rattle.sl_section_flat.specs.Views as v;
ghost use Rattle.sl_section_resolve.specs.Steps.{after, assign_after, assign_steps, build_steps};
ghost use Rattle.sl_section_resolve.specs.Steps.{call_step};
ghost use Rattle.sl_section_resolve.specs.Steps.{call_variables, direct_of, export_variables};
ghost use Rattle.sl_section_resolve.specs.Steps.{exported};
ghost use Rattle.sl_section_resolve.specs.Steps.{goto_step, goto_variables, is_const, label_here};
ghost use Rattle.sl_section_resolve.specs.Steps.{left_after, left_steps, local_after, local_steps};
ghost use Rattle.sl_section_resolve.specs.Steps.{moved};
ghost use Rattle.sl_section_resolve.specs.Steps.{place_of, pointer_term, size_or_1, space_here};
ghost use Rattle.sl_section_resolve.specs.Steps.{store_step};
ghost use Rattle.sl_section_resolve.specs.Steps.{taken, term_here, userop_calls, userop_steps};
ghost use Rattle.sl_section_terms.specs.Terms.{terms_at, variables, variables_in};
ghost use Rattle.sl_section_terms.specs.Scopes.{known_symbol, symbol_named};
ghost use Rattle.sl_section_resolve.specs.Seen.{Adds};

use crate::state::State;
use sl_ast::expressions::Expr;
use sl_ast::statements::{Dest, Direct as Written, Exported, Left, Pointer, Star, Stmt, Target};
use sl_section_flat::{Direct, Export, Label, Span, Step, Symbol, Term, written_size};
use sl_section_terms::{add_symbol, size_if_written, space_named, take, term, terms, userop_named};
use sl_spec::Tables;
use sl_word::{Size, UserId};
use std::alloc::{AllocError, Global};

/// Adds a step.
pub fn put<'a>(out: &mut Vec<Step<'a>>, step: Step<'a>) -> Result<(), AllocError>
    ensures { OnOk result (Adds out.old.items out.new.items (step_of step.entry ∷ [])) }
{
    out.push(step)?;
    Ok(())
}

impl<'a> State<'a> {
    /// The expression at this place.
    fn term_here(&mut self, alloc: Global, t: &Tables<'a>, e: &Expr<'a>) -> Result<Term, AllocError>
        ensures value { IfOk result (λ r. term_of r
            ≡ term_here t.now self.old (expression_of e.now)) }
        ensures moved { OnOk result (self.new ≡ moved (variables (expression_of e.now)) self.old) }
    {
        term(alloc, t, &self.names, &mut self.next, e)
    }

    fn label_here(&self, name: &'a [u8]) -> Label<'a>
        ensures { label_of result ≡ label_here self.now name.now }
    {
        Label {
            call: self.names.here,
            name,
        }
    }

    /// A target that is written out.
    fn direct_of(&self, t: &Tables, to: Written<'a>) -> Direct<'a>
        ensures { v.direct_of result ≡ direct_of t.now self.now (a.direct_of to.entry) }
    {
        match to {
            Written::Label(name) => Direct::Label(self.label_here(name)),
            Written::Name(name) => Direct::Place(self.names.known_symbol(t, name)),
            Written::Integer(n) => Direct::Place(Symbol::Integer(n)),
        }
    }

    /// A new local.
    fn declare(
        &mut self,
        t: &Tables<'a>,
        out: &mut Vec<Step<'a>>,
        name: &'a [u8],
        size: Option<Size>,
    ) -> Result<(), AllocError>
        ensures steps { OnOk result (Adds out.old.items out.new.items
            (local_steps t.now self.old (option_map bytes_of size) None)) }
        ensures state { OnOk result (self.new ≡ local_after name.now self.old None) }
    {
        let x = take(&mut self.next)?;
        put(out, Step::Declare(x, size))?;
        add_symbol(&mut self.names.own, name, Symbol::Local(x))
    }

    /// A new local with its value, which doesn't know it yet.
    fn declare_as(
        &mut self,
        alloc: Global,
        t: &Tables<'a>,
        out: &mut Vec<Step<'a>>,
        name: &'a [u8],
        size: Option<Size>,
        e: &Expr<'a>,
    ) -> Result<(), AllocError>
        ensures steps { OnOk result (Adds out.old.items out.new.items
            (local_steps t.now self.old (option_map bytes_of size) (Some (expression_of e.now)))) }
        ensures state { OnOk result (self.new
            ≡ local_after name.now self.old (Some (expression_of e.now))) }
    {
        let x = take(&mut self.next)?;
        put(out, Step::Declare(x, size))?;
        let first = term(alloc, t, &self.names, &mut self.next, e)?;
        put(out, Step::Set(Symbol::Local(x), first))?;
        add_symbol(&mut self.names.own, name, Symbol::Local(x))
    }

    /// `local`
    fn local(
        &mut self,
        alloc: Global,
        t: &Tables<'a>,
        out: &mut Vec<Step<'a>>,
        name: &'a [u8],
        size: Option<Size>,
        value: &Option<Expr<'a>>,
    ) -> Result<(), AllocError>
        ensures steps { OnOk result (Adds out.old.items out.new.items (local_steps t.now self.old
            (option_map bytes_of size) (option_map expression_of value.now))) }
        ensures state { OnOk result (self.new
            ≡ local_after name.now self.old (option_map expression_of value.now)) }
    {
        match value {
            Some(e) => self.declare_as(alloc, t, out, name, size, e),
            None => self.declare(t, out, name, size),
        }
    }

    /// An assignment to a name, which declares a local where the name stands for nothing.
    fn assign_name(
        &mut self,
        alloc: Global,
        t: &Tables<'a>,
        out: &mut Vec<Step<'a>>,
        name: &'a [u8],
        e: &Expr<'a>,
    ) -> Result<(), AllocError>
        ensures steps { OnOk result (Adds out.old.items out.new.items (assign_steps t.now self.old
            (symbol_named t.now self.old.names name.now) (expression_of e.now))) }
        ensures state { OnOk result (self.new ≡ assign_after name.now self.old
            (symbol_named t.now self.old.names name.now) (expression_of e.now)) }
    {
        match self.names.symbol_named(t, name) {
            None => self.declare_as(alloc, t, out, name, None, e),
            Some(symbol) => {
                let value = self.term_here(alloc, t, e)?;
                put(out, Step::Set(symbol, value))
            }
        }
    }

    /// An assignment to memory at a pointer.
    fn store(
        &mut self,
        alloc: Global,
        t: &Tables<'a>,
        form: Star<'a>,
        p: &Expr<'a>,
        e: &Expr<'a>,
    ) -> Result<Step<'a>, AllocError>
        ensures step { IfOk result (λ r. step_of r
            ≡ store_step t.now self.old (a.star_of form.entry) (expression_of p.now)
            (expression_of e.now)) }
        ensures state { OnOk result (self.new ≡ moved
            (variables (expression_of p.now) + 1 + variables (expression_of e.now)) self.old) }
    {
        let space = space_named(t, self.names.reach, form.space)?;
        let pointer = term(alloc, t, &self.names, &mut self.next, p)?;
        let x = take(&mut self.next)?;
        let value = term(alloc, t, &self.names, &mut self.next, e)?;
        Ok(Step::Store(space, size_if_written(form.size), pointer, x, value))
    }

    fn assign(
        &mut self,
        alloc: Global,
        t: &Tables<'a>,
        out: &mut Vec<Step<'a>>,
        left: &Left<'a>,
        e: &Expr<'a>,
    ) -> Result<(), AllocError>
        ensures steps { OnOk result (Adds out.old.items out.new.items
            (left_steps t.now self.old (a.left_of left.now) (expression_of e.now))) }
        ensures state { OnOk result (self.new
            ≡ left_after t.now self.old (a.left_of left.now) (expression_of e.now)) }
    {
        match left {
            Left::Name(name) => self.assign_name(alloc, t, out, name, e),
            Left::Bits(name, low, count) => {
                let symbol = self.names.known_symbol(t, name);
                let value = self.term_here(alloc, t, e)?;
                put(out, Step::SetBits(symbol, Span::new(*low, *count), value))
            }
            Left::Star(form, p) => {
                let step = self.store(alloc, t, *form, p, e)?;
                put(out, step)
            }
        }
    }

    fn goto(&mut self, alloc: Global, t: &Tables<'a>, to: &Dest<'a>) -> Result<Step<'a>, AllocError>
        ensures step { IfOk result (λ r. step_of r ≡ goto_step t.now self.old (a.dest_of to.now)) }
        ensures state { OnOk result (self.new
            ≡ moved (goto_variables (a.dest_of to.now)) self.old) }
    {
        match to {
            Dest::Direct(to) => Ok(Step::Branch(self.direct_of(t, *to))),
            Dest::Computed(e) => {
                let value = self.term_here(alloc, t, e)?;
                Ok(Step::BranchTo(value))
            }
        }
    }

    fn call(
        &mut self,
        alloc: Global,
        t: &Tables<'a>,
        to: &Target<'a>,
    ) -> Result<Step<'a>, AllocError>
        ensures step { IfOk result (λ r. step_of r
            ≡ call_step t.now self.old (a.target_of to.now)) }
        ensures state { OnOk result (self.new
            ≡ moved (call_variables (a.target_of to.now)) self.old) }
    {
        match to {
            Target::Name(name) => Ok(Step::Call(self.names.known_symbol(t, name))),
            Target::Integer(n) => Ok(Step::Call(Symbol::Integer(*n))),
            Target::Computed(e) => {
                let value = self.term_here(alloc, t, e)?;
                Ok(Step::CallTo(value))
            }
        }
    }

    fn branch(
        &mut self,
        alloc: Global,
        t: &Tables<'a>,
        e: &Expr<'a>,
        to: Written<'a>,
    ) -> Result<Step<'a>, AllocError>
        ensures step { IfOk result (λ r. step_of r ≡ s.branch_if
            (term_here t.now self.old (expression_of e.now))
            (direct_of t.now self.old (a.direct_of to.entry))) }
        ensures state { OnOk result (self.new ≡ moved (variables (expression_of e.now)) self.old) }
    {
        let to = self.direct_of(t, to);
        let value = self.term_here(alloc, t, e)?;
        Ok(Step::BranchIf(value, to))
    }

    /// The pointer of what is exported.
    fn pointer(&mut self, t: &Tables<'a>, p: Pointer<'a>) -> Result<Term, AllocError>
        ensures value { IfOk result (λ r. term_of r
            ≡ pointer_term t.now self.old (a.operand_of_pointer p.entry)) }
        ensures state { OnOk result (self.new ≡ moved 1 self.old) }
    {
        let x = take(&mut self.next)?;
        match p {
            Pointer::Name(name) => Ok(Term::Name(self.names.known_symbol(t, name), x)),
            Pointer::Integer(n) => Ok(Term::Number(n, x)),
        }
    }

    /// An exported star form.
    fn export_star(
        &mut self,
        t: &Tables<'a>,
        form: Star<'a>,
        p: Pointer<'a>,
    ) -> Result<Export, AllocError>
        ensures what { IfOk result (λ r. export_of r ≡ exported t.now self.old
            (exports_star (a.star_of form.entry) (a.operand_of_pointer p.entry))) }
        ensures state { OnOk result (self.new ≡ moved 2 self.old) }
    {
        let size = size_or_1(form.size);
        let pointer = self.pointer(t, p)?;
        let x = take(&mut self.next)?;
        if is_const(form.space) {
            return Ok(Export::Constant(size, pointer, x));
        }
        let space = space_named(t, self.names.reach, form.space)?;
        Ok(Export::Memory(space, size, pointer, x))
    }

    fn export(&mut self, t: &Tables<'a>, what: &Exported<'a>) -> Result<Export, AllocError>
        ensures what { IfOk result (λ r. export_of r
            ≡ exported t.now self.old (a.exported_of what.now)) }
        ensures state { OnOk result (self.new
            ≡ moved (export_variables (a.exported_of what.now)) self.old) }
    {
        match what {
            Exported::Name(name) => {
                let symbol = self.names.known_symbol(t, name);
                let x = take(&mut self.next)?;
                Ok(Export::Name(symbol, x))
            }
            Exported::Star(form, p) => self.export_star(t, *form, *p),
        }
    }

    /// A call of a user operation.
    fn userop(
        &mut self,
        alloc: Global,
        t: &Tables<'a>,
        out: &mut Vec<Step<'a>>,
        name: &[u8],
        es: &[Expr<'a>],
    ) -> Result<(), AllocError>
        ensures steps { OnOk result (Adds out.old.items out.new.items
            ((userop_calls t.now).taken name.now (expressions_of es.now) self.old)) }
        ensures state { OnOk result (self.new
            ≡ (userop_calls t.now).after name.now (expressions_of es.now) self.old) }
    {
        let op = userop_named(t, self.names.reach, name)?;
        let given = terms(alloc, t, &self.names, &mut self.next, es)?;
        match op {
            Some(op) => put(out, Step::User(op, given)),
            None => Ok(()),
        }
    }

    /// `build`
    fn build(&self, t: &Tables<'a>, out: &mut Vec<Step<'a>>, name: &[u8]) -> Result<(), AllocError>
        ensures { OnOk result (Adds out.old.items out.new.items
            (build_steps (known_symbol t.now self.now.names name.now))) }
    {
        match self.names.known_symbol(t, name) {
            Symbol::Table(i) => put(out, Step::Build(i)),
            _ => Ok(()),
        }
    }

    /// A statement that calls no macro.
    pub fn statement(
        &mut self,
        alloc: Global,
        t: &Tables<'a>,
        out: &mut Vec<Step<'a>>,
        x: &Stmt<'a>,
    ) -> Result<(), AllocError>
        ensures steps { OnOk result (Adds out.old.items out.new.items
            (taken t.now (userop_calls t.now) self.old (a.statement_of x.now))) }
        ensures state { OnOk result (self.new
            ≡ after t.now (userop_calls t.now) self.old (a.statement_of x.now)) }
    {
        match x {
            Stmt::Local(name, size, value) => {
                self.local(alloc, t, out, name, size_if_written(*size), value)
            }
            Stmt::Declare(name, size, e) => {
                self.declare_as(alloc, t, out, name, Some(written_size(*size)), e)
            }
            Stmt::Assign(left, e) => self.assign(alloc, t, out, left, e),
            Stmt::Goto(to) => put(out, self.goto(alloc, t, to)?),
            Stmt::Branch(e, to) => put(out, self.branch(alloc, t, e, *to)?),
            Stmt::Call(to) => put(out, self.call(alloc, t, to)?),
            Stmt::Return(e) => put(out, Step::Return(self.term_here(alloc, t, e)?)),
            Stmt::Build(name) => self.build(t, out, name),
            Stmt::Export(what) => put(out, Step::Export(self.export(t, what)?)),
            Stmt::Invoke(name, es) => self.userop(alloc, t, out, name, es.as_slice()),
            Stmt::Label(name) => put(out, Step::Label(self.label_here(name))),
        }
    }
}

/// A written size, or 1.
fn size_or_1(size: Option<u64>) -> Size
    ensures { result.bytes ≡ size_or_1 size }
{
    match size {
        Some(bytes) => written_size(bytes),
        None => written_size(1),
    }
}

/// Whether a star form is a number.
fn is_const(space: Option<&[u8]>) -> bool
    ensures { result ≡ is_const (option_map bytes space.entry) }
{
    match space {
        Some(name) => name == b"const".as_slice(),
        None => false,
    }
}
