//! Conditions of directives.

ghost use Rattle.std.specs.Prelude.{◌≡◌, ◌<◌, ◌≤◌, [], ◌∷◌, length, codes, option_map, suc, IfSome, IfOk, OnOk, MatchOption};
ghost use Rattle.sl_preproc_directives.specs.Parts.{Reads};
ghost use Rattle.sl_preproc_directives.specs.Conditions.{same, turned, joined, value_at, comparison_at, compared_at, behind_defined, defined_at, simple_at, tight_at, loose_at, condition};
ghost use Rattle.sl_preproc_directives.specs.Definitions.{Values};
ghost use Rattle.sl_preproc_directives.specs.Levels.{new_level, flipped, product, whole, levels_of, IsReading, IsBehind, EndsLevel, GoesOn, Leaves};
ghost use Rattle.sl_preproc_directives.specs.Levels as spec;
ghost use Rattle.sl_preproc_directives.specs.Held.{values_of};

use crate::definitions::Definitions;
use crate::parts::{is_ended, mark_at, name_at, quoted_at, skip_blanks};
use std::alloc::{AllocError, Global};

/// What a condition says; none where a name that isn't defined had to be compared.
pub type Verdict = Option<bool>;

/// A part of a condition, and the bytes behind it.
type Read<'a, T> = Option<(T, &'a [u8])>;

fn same(left: Option<&[u8]>, right: Option<&[u8]>) -> Verdict
    ensures { result ≡ same (option_map (λ v. v.now) left.entry) (option_map (λ v. v.now) right.entry) }
{
    match (left, right) {
        (Some(left), Some(right)) => Some(left == right),
        _ => None,
    }
}

fn turned(verdict: Verdict) -> Verdict
    ensures { result ≡ turned verdict }
{
    match verdict {
        Some(holds) => Some(!holds),
        None => None,
    }
}

/// A name's value or a quoted text, to be compared.
#[tactic(auto, unfolding(crate::specs::Conditions::value_at))]
fn value_at<'d, 'a: 'd>(defs: &'d Definitions, text: &'a [u8]) -> Read<'a, Option<&'d [u8]>>
    ensures read { Reads (λ r. (option_map (λ v. v.now) r.0, r.1.now)) result (value_at (values_of defs.now) text.now) }
    ensures within { IfSome result (λ r. length r.1.now ≤ length text.now) }
{
    let text = skip_blanks(text);
    match name_at(text) {
        Some((name, rest)) => Some((defs.value(name), rest)),
        None => match quoted_at(text) {
            Some((quoted, rest)) => Some((Some(quoted), rest)),
            None => None,
        },
    }
}

/// Whether `==` stands here, or `!=`.
#[tactic(auto, unfolding(crate::specs::Conditions::comparison_at))]
fn comparison_at(text: &[u8]) -> Read<'_, bool>
    ensures read { Reads (λ r. (r.0, r.1.now)) result (comparison_at text.now) }
    ensures within { IfSome result (λ r. length r.1.now ≤ length text.now) }
{
    match mark_at("==", text) {
        Some(rest) => Some((true, rest)),
        None => match mark_at("!=", text) {
            Some(rest) => Some((false, rest)),
            None => None,
        },
    }
}

#[tactic(auto, unfolding(crate::specs::Conditions::compared_at))]
fn compared_at<'a>(defs: &Definitions, text: &'a [u8]) -> Read<'a, Verdict>
    ensures read { Reads (λ r. (r.0, r.1.now)) result (compared_at (values_of defs.now) text.now) }
    ensures within { IfSome result (λ r. length r.1.now ≤ length text.now) }
{
    let (left, rest) = value_at(defs, text)?;
    let (equal, rest) = comparison_at(rest)?;
    let (right, rest) = value_at(defs, rest)?;
    let same = same(left, right);
    Some((if equal { same } else { turned(same) }, rest))
}

/// What stands behind `defined(`.
#[tactic(auto, unfolding(crate::specs::Conditions::behind_defined))]
fn behind_defined(text: &[u8]) -> Option<&[u8]>
    ensures read { Reads (λ r. r.now) result (behind_defined text.now) }
    ensures within { IfSome result (λ r. length r.now ≤ length text.now) }
{
    let (name, rest) = name_at(skip_blanks(text))?;
    if name == b"defined".as_slice() {
        mark_at("(", rest)
    } else {
        None
    }
}

#[tactic(auto, unfolding(crate::specs::Conditions::defined_at))]
fn defined_at<'a>(defs: &Definitions, text: &'a [u8]) -> Read<'a, Verdict>
    ensures read { Reads (λ r. (r.0, r.1.now)) result (defined_at (values_of defs.now) text.now) }
    ensures within { IfSome result (λ r. length r.1.now ≤ length text.now) }
{
    let (name, rest) = name_at(skip_blanks(text))?;
    let rest = mark_at(")", rest)?;
    Some((Some(defs.has(name)), rest))
}

#[tactic(auto, unfolding(crate::specs::Conditions::simple_at))]
fn simple_at<'a>(defs: &Definitions, text: &'a [u8]) -> Read<'a, Verdict>
    ensures read { Reads (λ r. (r.0, r.1.now)) result (simple_at (values_of defs.now) text.now) }
    ensures within { IfSome result (λ r. length r.1.now ≤ length text.now) }
{
    match behind_defined(text) {
        Some(inside) => defined_at(defs, inside),
        None => compared_at(defs, text),
    }
}

/// An operator that joins conditions.
#[derive(Clone, Copy, Debug)]
pub enum Operator {
    And,
    Xor,
    Or,
}

fn joined(operator: Operator, left: Verdict, right: Verdict) -> Verdict
    ensures { result ≡ joined operator left right }
{
    let Some(holds) = left else {
        return None;
    };
    match operator {
        Operator::And => { if holds { right } else { Some(false) } }
        Operator::Or => { if holds { Some(true) } else { right } }
        Operator::Xor => { if holds { turned(right) } else { right } }
    }
}

/// `&&` or `^^`.
#[tactic(auto, unfolding(crate::specs::Conditions::tight_at))]
fn tight_at(text: &[u8]) -> Read<'_, Operator>
    ensures read { Reads (λ r. (r.0, r.1.now)) result (tight_at text.now) }
    ensures within { IfSome result (λ r. length r.1.now < length text.now) }
{
    match mark_at("&&", text) {
        Some(rest) => Some((Operator::And, rest)),
        None => match mark_at("^^", text) {
            Some(rest) => Some((Operator::Xor, rest)),
            None => None,
        },
    }
}

/// `||`.
#[tactic(auto, unfolding(crate::specs::Conditions::loose_at))]
fn loose_at(text: &[u8]) -> Read<'_, Operator>
    ensures read { Reads (λ r. (r.0, r.1.now)) result (loose_at text.now) }
    ensures within { IfSome result (λ r. length r.1.now < length text.now) }
{
    match mark_at("||", text) {
        Some(rest) => Some((Operator::Or, rest)),
        None => None,
    }
}

/// What has been read of a level of parentheses: the conditions in front of the last `||`, those in front of the last
/// tight operator behind it, that operator, and whether the number of `!` in front of the next operand is odd. Where
/// nothing stands there, `false ||` and `true &&` stand for it.
#[derive(Clone, Copy, Debug)]
pub struct Level {
    pub either: Verdict,
    pub left: Verdict,
    pub operator: Operator,
    pub negated: bool,
}

/// Where the reading of a condition has come to.
#[derive(Clone, Copy, Debug)]
pub enum Step<'a> {
    /// An operand is to be read here, within this level.
    Operand(Level, &'a [u8]),
    /// What the whole condition says, and what stands behind it.
    Whole(Verdict, &'a [u8]),
    Malformed,
}

fn new_level() -> Level
    ensures { result ≡ new_level }
{
    Level {
        either: Some(false),
        left: Some(true),
        operator: Operator::And,
        negated: false,
    }
}

/// The level behind one `!` more.
fn flipped(level: Level) -> Level
    ensures { result ≡ flipped level }
{
    Level {
        negated: !level.negated,
        ..level
    }
}

/// What an operand says with the `!` and the tight operators in front of it.
fn product(level: Level, verdict: Verdict) -> Verdict
    ensures { result ≡ product level verdict }
{
    let signed = if level.negated {
        turned(verdict)
    } else {
        verdict
    };
    joined(level.operator, level.left, signed)
}

/// What an operand says with all that stands in front of it.
fn whole(level: Level, verdict: Verdict) -> Verdict
    ensures { result ≡ whole level verdict }
{
    joined(Operator::Or, level.either, product(level, verdict))
}

/// Goes within the level round this one.
fn enter(level: Level, levels: &mut Vec<Level>) -> Result<(), AllocError>
    ensures { OnOk result (levels_of levels.new ≡ level ∷ levels_of levels.old) }
{
    levels.push(level)?;
    Ok(())
}

/// Goes back to the level round this one.
fn leave(levels: &mut Vec<Level>) -> Option<Level>
    ensures { MatchOption result (levels_of levels.old ≡ []) (λ l. levels_of levels.old ≡ l ∷ levels_of levels.new) }
{
    levels.pop()
}

/// Where an operator follows an operand that says this, the level and the text behind the operator.
fn next_at<'a>(level: Level, verdict: Verdict, text: &'a [u8]) -> Read<'a, Level>
    ensures goes_on { MatchOption result (EndsLevel level verdict text.now) (λ r. GoesOn level verdict text.now r.0 r.1.now) }
    ensures shorter { IfSome result (λ r. length r.1.now < length text.now) }
{
    if let Some((operator, rest)) = tight_at(text) {
        let left = product(level, verdict);
        return Some((
            Level {
                either: level.either,
                left,
                operator,
                negated: false,
            },
            rest,
        ));
    }
    match loose_at(text) {
        Some((_, rest)) => Some((
            Level {
                either: whole(level, verdict),
                ..new_level()
            },
            rest,
        )),
        None => None,
    }
}

/// Goes on behind an operand that says this: closes levels up to the next operator or the end.
fn close<'a>(level: Level, verdict: Verdict, text: &'a [u8], levels: &mut Vec<Level>) -> Step<'a>
    ensures { (defs : Values) (total : spec.Read) → IsBehind defs level (levels_of levels.old) verdict text.now total → Leaves defs (levels_of levels.new) text.now total result }
{
    let mut inner = level;
    let mut operand = verdict;
    let mut rest = text;
    'levels: loop {
        if let Some((next, behind)) = next_at(inner, operand, rest) {
            return Step::Operand(next, behind);
        }
        operand = whole(inner, operand);
        let Some(around) = leave(levels) else {
            return Step::Whole(operand, rest);
        };
        let Some(behind) = mark_at(")", rest) else {
            return Step::Malformed;
        };
        inner = around;
        rest = behind;
    }
}

/// Reads one `!`, an opening parenthesis, or a simple condition and what closes behind it.
fn read_step<'a>(
    defs: &Definitions,
    level: Level,
    text: &'a [u8],
    levels: &mut Vec<Level>,
) -> Result<Step<'a>, AllocError>
    ensures { IfOk result (λ s. (total : spec.Read) → IsReading (values_of defs.now) level (levels_of levels.old) text.now total → Leaves (values_of defs.now) (levels_of levels.new) text.now total s) }
{
    if let Some(operand) = mark_at("!", text) {
        return Ok(Step::Operand(flipped(level), operand));
    }
    if let Some(inside) = mark_at("(", text) {
        enter(level, levels)?;
        return Ok(Step::Operand(new_level(), inside));
    }
    match simple_at(defs, text) {
        Some((verdict, behind)) => Ok(close(level, verdict, behind, levels)),
        None => Ok(Step::Malformed),
    }
}

/// What the condition says; none where the bytes are no condition.
pub fn condition(
    alloc: Global,
    defs: &Definitions,
    text: &[u8],
) -> Result<Option<Verdict>, AllocError>
    ensures { IfOk result (λ o. o ≡ condition (values_of defs.now) text.now) }
{
    let mut levels = Vec::new(alloc);
    let mut level = new_level();
    let mut rest = text;
    'operands: loop {
        match read_step(defs, level, rest, &mut levels)? {
            Step::Operand(next, behind) => {
                level = next;
                rest = behind;
            }
            Step::Whole(verdict, behind) => {
                return Ok(if is_ended(behind) {
                    Some(verdict)
                } else {
                    None
                });
            }
            Step::Malformed => return Ok(None),
        }
    }
}
