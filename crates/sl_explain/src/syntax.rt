//! What more is said of tokens that spell no specification.

ghost use Rattle.std.specs.Prelude.{◌≡◌, ◌++◌, OnOk, option_map, slice_get};
ghost use Rattle.sl_explain.specs.Facts.{call_advice, is_double_relation, is_empty_call};
ghost use Rattle.sl_explain.specs.Facts.{is_export_of_number, is_in_pattern, is_in_section};
ghost use Rattle.sl_explain.specs.Facts.{is_integer, is_quoted, is_word, fault};
ghost use Rattle.sl_explain.specs.Facts.{form_asked, form_fault, keyword_note, nesting_asked};
ghost use Rattle.sl_explain.specs.Facts.{nesting_fault, syntax_asked, syntax_words, token_facts};
ghost use Rattle.sl_parse_faults.specs.Causes.{left_out, no_spelling, too_deep};
ghost use Rattle.std.specs.Str.{bytes_eq};
ghost use Rattle.sl_explain.specs.Errors.{parse_facts};
ghost use Rattle.sl_explain.specs.Facts.{syntax_advice, syntax_fault, words_at};
ghost use Rattle.sl_explain_heads.specs.Modes.{mode_view};
ghost use Rattle.sl_lex.specs.Views.{view, views};
ghost use Rattle.sl_preproc.specs.Expanded.{seen};

use crate::facts::{push_fault, push_token_spot};
use crate::sentences::{push_advice, push_advice_on_feature, push_asked};
use sl_ast::symbols::Feature;
use sl_explain_heads::{Mode, mode_at, push_token, text_before};
use sl_explain_lines::push_up_to;
use sl_lex::{Tok, TokKind};
use sl_parse::ParseError;
use sl_parse_terminals::keyword;
use sl_preproc::Expanded;
use std::alloc::AllocError;

fn is_word(kind: TokKind) -> bool
    ensures { result ≡ is_word kind }
{
    matches!(kind, TokKind::Word)
}

fn is_integer(kind: TokKind) -> bool
    ensures { result ≡ is_integer kind }
{
    matches!(kind, TokKind::Integer(_))
}

fn is_quoted(text: &[u8]) -> bool
    ensures { result ≡ is_quoted text.now }
{
    keyword(text).is_some()
}

fn is_in_section(mode: Mode) -> bool
    ensures { result ≡ is_in_section (mode_view mode) }
{
    matches!(mode, Mode::Body)
}

fn is_in_pattern(mode: Mode) -> bool
    ensures { result ≡ is_in_pattern (mode_view mode) }
{
    matches!(mode, Mode::Pattern)
}

/// Appends that the token is a keyword, if it is one.
#[tactic(auto, unfolding(crate::specs::Facts::keyword_note))]
fn push_keyword_note(out: &mut Vec<u8>, token: &Tok<'_>) -> Result<(), AllocError>
    ensures { OnOk result (out.new.items ≡ out.old.items ++ keyword_note (view token.now)) }
{
    if is_word(token.kind) && is_quoted(token.text) {
        out.extend_from_slice(b", which is a keyword")
    } else {
        Ok(())
    }
}

/// Appends the words for a token with which no specification goes on.
#[tactic(auto, unfolding(crate::specs::Facts::syntax_words))]
fn push_syntax_words(out: &mut Vec<u8>, token: &Tok<'_>) -> Result<(), AllocError>
    ensures { OnOk result (out.new.items ≡ out.old.items ++ syntax_words (view token.now)) }
{
    out.extend_from_slice(b"no specification goes on with ")?;
    push_token(out, token)?;
    out.extend_from_slice(b" here")?;
    push_keyword_note(out, token)
}

/// Appends that no specification goes on with the token.
#[tactic(auto, unfolding(crate::specs::Facts::fault))]
fn push_stray(out: &mut Vec<u8>, token: &Tok<'_>) -> Result<(), AllocError>
    ensures { OnOk result (out.new.items
        ≡ out.old.items ++ fault (syntax_words (view token.now))) }
{
    out.extend_from_slice(b"  fault ")?;
    push_syntax_words(out, token)?;
    out.extend_from_slice(b"\n")
}

/// Appends that no specification goes on with the token, or that none ends.
fn push_syntax_fault(out: &mut Vec<u8>, token: Option<&Tok<'_>>) -> Result<(), AllocError>
    ensures { OnOk result (out.new.items ≡ out.old.items
        ++ syntax_fault (option_map (λ t. view t.now) token.entry)) }
{
    match token {
        Some(token) => push_stray(out, token),
        None => push_fault(out, b"no specification ends here"),
    }
}

/// Whether the bytes are those of the word.
fn is(text: &[u8], word: &[u8]) -> bool
    ensures { result ≡ bytes_eq text.now word.now }
{
    text == word
}

/// Whether a number is exported: an integer after `export`.
fn is_export_of_number(tokens: &[Tok<'_>], index: usize, token: &Tok<'_>) -> bool
    ensures { result ≡ is_export_of_number (views tokens.now) index (view token.now) }
{
    is_integer(token.kind) && is(text_before(tokens, index, 1), b"export")
}

/// Whether a call in a section has no arguments: the `)` of `NAME ( )`.
fn is_empty_call(tokens: &[Tok<'_>], index: usize, token: &Tok<'_>) -> bool
    ensures { result ≡ is_empty_call (views tokens.now) index (view token.now) }
{
    is(token.text, b")")
        && is(text_before(tokens, index, 1), b"(")
        && is_in_section(mode_at(tokens, index))
}

/// Whether a relation stands in a pattern as other languages have it.
fn is_double_relation(tokens: &[Tok<'_>], index: usize, token: &Tok<'_>) -> bool
    ensures { result ≡ is_double_relation (views tokens.now) index (view token.now) }
{
    is(token.text, b"==") && is_in_pattern(mode_at(tokens, index))
}

/// Appends how a call of this name has an argument.
#[tactic(auto, unfolding(crate::specs::Facts::call_advice, crate::specs::Sentences::advice))]
fn push_call_advice(out: &mut Vec<u8>, name: &[u8]) -> Result<(), AllocError>
    ensures { OnOk result (out.new.items ≡ out.old.items ++ call_advice name.now) }
{
    out.extend_from_slice(b"  write an argument, as in ")?;
    push_up_to(out, 40, name)?;
    out.extend_from_slice(b"(0:1); a call that is a statement may have none\n")
}

/// Appends what to write instead of the token, if that is known.
#[tactic(auto, unfolding(crate::specs::Facts::syntax_advice))]
fn push_syntax_advice(
    out: &mut Vec<u8>,
    tokens: &[Tok<'_>],
    index: usize,
    token: Option<&Tok<'_>>,
) -> Result<(), AllocError>
    ensures { OnOk result (out.new.items ≡ out.old.items ++ syntax_advice (views tokens.now) index
        (option_map (λ t. view t.now) token.entry)) }
{
    let Some(token) = token else {
        return Ok(());
    };
    if is_export_of_number(tokens, index, token) {
        push_advice(out, b"export *[const]:4 0; for a number of 4 bytes")
    } else if is_empty_call(tokens, index, token) {
        push_call_advice(out, text_before(tokens, index, 2))
    } else if is_double_relation(tokens, index, token) {
        push_advice(out, b"=")
    } else {
        Ok(())
    }
}

/// Appends a token, or that it is the end.
#[tactic(auto, unfolding(crate::specs::Facts::words_at))]
fn push_words_at(out: &mut Vec<u8>, token: Option<&Tok<'_>>) -> Result<(), AllocError>
    ensures { OnOk result (out.new.items ≡ out.old.items
        ++ words_at (option_map (λ t. view t.now) token.entry)) }
{
    match token {
        Some(token) => push_token(out, token),
        None => out.extend_from_slice(b"the end"),
    }
}

/// Appends the token and what is wrong with it.
#[tactic(auto, unfolding(crate::specs::Facts::fault))]
fn push_token_fault(
    out: &mut Vec<u8>,
    token: Option<&Tok<'_>>,
    wrong: &[u8],
) -> Result<(), AllocError>
    ensures { OnOk result (out.new.items ≡ out.old.items
        ++ fault (words_at (option_map (λ t. view t.now) token.entry) ++ wrong.now)) }
{
    out.extend_from_slice(b"  fault ")?;
    push_words_at(out, token)?;
    out.extend_from_slice(wrong)?;
    out.extend_from_slice(b"\n")
}

/// Appends what is asked of tokens.
#[tactic(auto, unfolding(crate::specs::Facts::syntax_asked))]
fn push_asked_of_syntax(out: &mut Vec<u8>) -> Result<(), AllocError>
    ensures { OnOk result (out.new.items ≡ out.old.items ++ syntax_asked) }
{
    push_asked(out, b"a specification can go on with each of its tokens")
}

/// Appends what is asked of expressions and blocks.
#[tactic(auto, unfolding(crate::specs::Facts::nesting_asked))]
fn push_asked_of_nesting(out: &mut Vec<u8>) -> Result<(), AllocError>
    ensures { OnOk result (out.new.items ≡ out.old.items ++ nesting_asked) }
{
    push_asked(
        out,
        b"at most 256 operators and opening brackets stand in an expression or pattern, \
            and 16 blocks in one another",
    )
}

/// Appends what is asked of forms.
#[tactic(auto, unfolding(crate::specs::Facts::form_asked))]
fn push_asked_of_forms(out: &mut Vec<u8>) -> Result<(), AllocError>
    ensures { OnOk result (out.new.items ≡ out.old.items ++ form_asked) }
{
    push_asked(
        out,
        b"SLEIGH has this form, and this language leaves it out",
    )
}

/// Appends that the token goes past a limit.
#[tactic(auto, unfolding(crate::specs::Facts::nesting_fault))]
fn push_nesting_fault(out: &mut Vec<u8>, token: Option<&Tok<'_>>) -> Result<(), AllocError>
    ensures { OnOk result (out.new.items ≡ out.old.items
        ++ nesting_fault (option_map (λ t. view t.now) token.entry)) }
{
    push_token_fault(out, token, b" goes past a limit")
}

/// Appends that the token begins a form that the language leaves out.
#[tactic(auto, unfolding(crate::specs::Facts::form_fault))]
fn push_form_fault(out: &mut Vec<u8>, token: Option<&Tok<'_>>) -> Result<(), AllocError>
    ensures { OnOk result (out.new.items ≡ out.old.items
        ++ form_fault (option_map (λ t. view t.now) token.entry)) }
{
    push_token_fault(out, token, b" begins a form of SLEIGH that is left out")
}

/// The token of this index, if there is one.
pub fn token_at<'a, 'b>(tokens: &'b [Tok<'a>], at: usize) -> Option<&'b Tok<'a>>
    ensures { option_map (λ t. view t.now) result ≡ slice_get (views tokens.now) at }
{
    match tokens.get(at) {
        Some(token) => Some(token),
        None => None,
    }
}

/// Appends what more is said of a token with which no specification goes on.
#[tactic(auto, unfolding(crate::specs::Facts::token_facts))]
fn push_syntax_facts(
    out: &mut Vec<u8>,
    text: &Expanded,
    tokens: &[Tok<'_>],
    at: usize,
) -> Result<(), AllocError>
    ensures { OnOk result (out.new.items ≡ out.old.items
        ++ token_facts (seen text.now) (views tokens.now) no_spelling at) }
{
    let token = token_at(tokens, at);
    push_token_spot(out, text, token)?;
    push_syntax_fault(out, token)?;
    push_asked_of_syntax(out)?;
    push_syntax_advice(out, tokens, at, token)
}

/// Appends what more is said of a token that goes past a limit.
#[tactic(auto, unfolding(crate::specs::Facts::token_facts))]
fn push_nesting_facts(
    out: &mut Vec<u8>,
    text: &Expanded,
    tokens: &[Tok<'_>],
    at: usize,
) -> Result<(), AllocError>
    ensures { OnOk result (out.new.items ≡ out.old.items
        ++ token_facts (seen text.now) (views tokens.now) too_deep at) }
{
    let token = token_at(tokens, at);
    push_token_spot(out, text, token)?;
    push_nesting_fault(out, token)?;
    push_asked_of_nesting(out)
}

/// Appends what more is said of a token that begins a form that the language leaves out.
#[tactic(auto, unfolding(crate::specs::Facts::token_facts))]
fn push_left_out_facts(
    out: &mut Vec<u8>,
    text: &Expanded,
    tokens: &[Tok<'_>],
    feature: Feature,
    at: usize,
) -> Result<(), AllocError>
    ensures { OnOk result (out.new.items ≡ out.old.items
        ++ token_facts (seen text.now) (views tokens.now) (left_out feature) at) }
{
    let token = token_at(tokens, at);
    push_token_spot(out, text, token)?;
    push_form_fault(out, token)?;
    push_asked_of_forms(out)?;
    push_advice_on_feature(out, feature)
}

/// Appends what more is said of tokens that spell no specification.
pub fn push_parse_facts(
    out: &mut Vec<u8>,
    text: &Expanded,
    tokens: &[Tok<'_>],
    error: ParseError,
) -> Result<(), AllocError>
    ensures { OnOk result (out.new.items
        ≡ out.old.items ++ parse_facts (seen text.now) (views tokens.now) error) }
{
    match error {
        ParseError::Syntax(at) => push_syntax_facts(out, text, tokens, at),
        ParseError::Nesting(at) => push_nesting_facts(out, text, tokens, at),
        ParseError::NotSupported { feature, token } => {
            push_left_out_facts(out, text, tokens, feature, token)
        }
        ParseError::NoMemory => Ok(()),
    }
}
