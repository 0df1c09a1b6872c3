//! Refusals, and the text that is printed of them.

ghost use Rattle.std.specs.Prelude.{◌≡◌, ◌++◌, IfOk, OnOk};
ghost use Rattle.sl_tool_stages.specs.Problems.{apart_lines, lines_after, more_of, point_line};
ghost use Rattle.sl_tool_stages.specs.Problems.{report_lines, subject_text};

use crate::facts::Facts;
use crate::lines::{push_place, push_point};
use crate::place::{Name, Place};
use crate::problem::{Conflict, Problem, push_words};
use sl_bind_compile::Apart;
use sl_cube::Point;
use sl_explain::push_cause_facts;
use sl_preproc_directives::fault::Cause;
use std::alloc::{AllocError, Global};

/// What a refusal speaks of.
#[derive(Debug, Drop)]
pub enum Subject {
    /// A line of a file.
    Line(Place),
    /// A context field that a word names.
    Field(Name),
    /// The base.
    Base,
    /// The request as a whole.
    Nothing,
}

/// What is refused: its subject, the problem there, and what more is said of it.
#[derive(Debug, Drop)]
pub struct Refusal {
    /// The line of a file, the field of the context or another subject.
    pub subject: Subject,
    /// What is wrong with it.
    pub problem: Problem,
    /// Where it is to be seen, in which constructor, and what is asked of a text.
    pub facts: Facts,
}

impl Refusal {
    ghost use Rattle.std.specs.Prelude.{◌≡◌, IfOk};
    ghost use Rattle.sl_tool_stages.specs.Problems.{bare_refusal, explained_text, refusal};
    ghost use Rattle.sl_tool_stages.specs.Problems.{refusal_of_base, refusal_of_field};
    ghost use Rattle.sl_tool_stages.specs.Problems.{refusal_text};

    /// The refusal of a line of a file, counted from 1.
    pub fn of_line(
        alloc: Global,
        file: &str,
        line: u64,
        problem: Problem,
    ) -> Result<Self, AllocError>
        ensures { IfOk result (λ x. x ≡ refusal file.now line problem) }
    {
        let file = Name::copied(alloc, file)?;
        let subject = Subject::Line(Place { file, line });
        Ok(Refusal {
            subject,
            problem,
            facts: Facts::none(alloc),
        })
    }

    /// The refusal of a whole file, which is its line 0.
    pub fn of_file(alloc: Global, file: &str, problem: Problem) -> Result<Self, AllocError>
        ensures { IfOk result (λ x. x ≡ refusal file.now 0 problem) }
    {
        let refusal = Self::of_line(alloc, file, 0, problem)?;
        Ok(refusal)
    }

    /// The refusal of the context field of this name.
    pub fn of_field(alloc: Global, name: &str, problem: Problem) -> Result<Self, AllocError>
        ensures { IfOk result (λ x. x ≡ refusal_of_field name.now problem) }
    {
        let name = Name::copied(alloc, name)?;
        let subject = Subject::Field(name);
        Ok(Refusal {
            subject,
            problem,
            facts: Facts::none(alloc),
        })
    }

    /// The refusal of the base.
    pub fn of_base(alloc: Global, problem: Problem) -> Self
        ensures { result ≡ refusal_of_base problem }
    {
        Refusal {
            subject: Subject::Base,
            problem,
            facts: Facts::none(alloc),
        }
    }

    /// The refusal of a request as a whole.
    pub fn bare(alloc: Global, problem: Problem) -> Self
        ensures { result ≡ bare_refusal problem }
    {
        Refusal {
            subject: Subject::Nothing,
            problem,
            facts: Facts::none(alloc),
        }
    }

    /// The text that is printed of it, whole lines: the subject with the words of the problem, and
    /// for a conflict the lines of its report.
    pub fn text(&self, alloc: Global) -> Result<Vec<u8>, AllocError>
        ensures { IfOk result (λ text. text.items ≡ refusal_text self.now) }
    {
        let mut out = Vec::new(alloc);
        push_subject(&mut out, &self.subject)?;
        push_words(&mut out, &self.problem)?;
        out.extend_from_slice(b"\n")?;
        push_after(&mut out, &self.problem)?;
        Ok(out)
    }

    /// The same, and what more is said of it: lines that begin with two blanks.
    pub fn explained(&self, alloc: Global) -> Result<Vec<u8>, AllocError>
        ensures { IfOk result (λ text. text.items ≡ explained_text self.now) }
    {
        let mut out = self.text(alloc)?;
        out.extend_from_slice(self.facts.as_bytes())?;
        push_more(&mut out, &self.problem)?;
        Ok(out)
    }
}

/// Appends what the refusal speaks of, with a colon behind it; nothing of a request as a whole.
fn push_subject(out: &mut Vec<u8>, subject: &Subject) -> Result<(), AllocError>
    ensures { OnOk result (out.new.items ≡ out.old.items ++ subject_text subject.now) }
{
    match subject {
        Subject::Line(place) => {
            push_place(out, place)?;
            out.extend_from_slice(b": ")
        }
        Subject::Field(name) => {
            out.extend_from_slice(name.as_bytes())?;
            out.extend_from_slice(b": ")
        }
        Subject::Base => out.extend_from_slice(b"base: "),
        Subject::Nothing => Ok(()),
    }
}

/// Appends a line with a point after its name.
fn push_named_point(out: &mut Vec<u8>, name: &[u8], point: &Point) -> Result<(), AllocError>
    ensures { OnOk result (out.new.items ≡ out.old.items ++ point_line name.now point.now) }
{
    out.extend_from_slice(name)?;
    out.extend_from_slice(b" ")?;
    push_point(out, point)?;
    out.extend_from_slice(b"\n")
}

/// Appends the lines that say how the sets of two constructors differ.
fn push_apart(out: &mut Vec<u8>, apart: &Apart) -> Result<(), AllocError>
    ensures { OnOk result (out.new.items ≡ out.old.items ++ apart_lines apart.now) }
{
    match apart {
        Apart::Same => out.extend_from_slice(b"same\n"),
        Apart::Two {
            only_first,
            only_second,
        } => {
            push_named_point(out, b"first", only_first)?;
            push_named_point(out, b"second", only_second)
        }
    }
}

/// Appends the report of a conflict.
fn push_report(out: &mut Vec<u8>, conflict: &Conflict) -> Result<(), AllocError>
    ensures { OnOk result (out.new.items ≡ out.old.items ++ report_lines conflict.now) }
{
    push_named_point(out, b"both", &conflict.both)?;
    push_apart(out, &conflict.apart)
}

/// Appends what is printed after the line of the problem.
fn push_after(out: &mut Vec<u8>, problem: &Problem) -> Result<(), AllocError>
    ensures { OnOk result (out.new.items ≡ out.old.items ++ lines_after problem.now) }
{
    match problem {
        Problem::Ambiguous(conflict) => push_report(out, conflict),
        _ => Ok(()),
    }
}

/// Appends what more is said of a problem whatever is known of the text: of a file that can't be had
/// and of a directive.
fn push_more(out: &mut Vec<u8>, problem: &Problem) -> Result<(), AllocError>
    ensures { OnOk result (out.new.items ≡ out.old.items ++ more_of problem.now) }
{
    match problem {
        Problem::NoFile => push_cause_facts(out, Cause::NoFile),
        Problem::TooLong => push_cause_facts(out, Cause::TooLong),
        Problem::IncludeDepth => push_cause_facts(out, Cause::IncludeDepth),
        Problem::UndefinedName => push_cause_facts(out, Cause::UndefinedName),
        Problem::ReplaceDepth => push_cause_facts(out, Cause::ReplaceDepth),
        Problem::BadDirective => push_cause_facts(out, Cause::BadDirective),
        Problem::Unbalanced => push_cause_facts(out, Cause::Unbalanced),
        _ => Ok(()),
    }
}
