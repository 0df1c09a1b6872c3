//! What the names of a text are.

ghost use Rattle.std.specs.Prelude.{◌≡◌, ◌++◌, IfOk, OnOk, find, option_map};
ghost use Rattle.std.specs.List.{list_any};
ghost use Rattle.std.specs.Str.{bytes_eq};
ghost use Rattle.sl_explain_heads.specs.Modes.{mode_view};
ghost use Rattle.sl_explain_names.specs.Names.{attached_role, begins_field, body_role};
ghost use Rattle.sl_explain_names.specs.Names.{context_role, count_up_to, defined_role, head_in};
ghost use Rattle.sl_explain_names.specs.Names.{head_role, is_attached, is_definition, is_known};
ghost use Rattle.sl_explain_names.specs.Names.{is_register_name, is_reserved, is_table_role};
ghost use Rattle.sl_explain_names.specs.Names.{kind_by, kind_in, kind_known, mentioned, mentions};
ghost use Rattle.sl_explain_names.specs.Names.{operation_role, plain_role, role_if, role_in};
ghost use Rattle.sl_explain_names.specs.Names.{space_role, stands_between, steps_to, token_role, top_role};
ghost use Rattle.sl_lex.specs.Views.{views};

use crate::tokens::{has_after, has_before, has_here, is, is_word_at};
use sl_explain_heads::{Mode, from, next_mode};
use sl_lex::Tok;
use std::alloc::{AllocError, Global};

/// What a name is.
#[derive(Clone, Copy)]
pub enum Kind {
    Space,
    Register,
    BitRange,
    UserOperation,
    Token,
    /// A field of a token.
    Field,
    ContextField,
    Macro,
    Table,
    /// A word that no definition may take.
    Reserved,
    /// The register that `define context` names.
    ContextRegister,
    /// Nothing has the name.
    Nothing,
}

/// What a token says of a name.
#[derive(Clone, Copy)]
pub enum Role {
    /// It is the name in a definition of this kind.
    Defines(Kind),
    /// The register of the context.
    Context,
    /// `default` of a space.
    Default,
    /// `alignment` of the text.
    Alignment,
    /// A field to which names or values are attached.
    Attached,
    /// A field to which registers are attached.
    AttachedToRegisters,
}

/// A token that says what a name is, by its index, with the first token of its item.
#[derive(Clone, Copy)]
pub struct Mention {
    pub index: usize,
    pub head: usize,
    pub role: Role,
}

// ---- the tokens that say what a name is

/// How many of the tokens are before one with these bytes.
pub fn steps_to(text: &[u8], tokens: &[Tok<'_>]) -> usize
    ensures { result ≡ steps_to text.now (views tokens.now) }
{
    'tokens: for at in 0..tokens.len() {
        if is(tokens[at].text, text) {
            return at;
        }
    }
    tokens.len()
}

/// How many tokens are from this index on before one with these bytes.
pub fn count_up_to(tokens: &[Tok<'_>], index: usize, text: &[u8]) -> usize
    ensures { result ≡ count_up_to (views tokens.now) index text.now }
{
    steps_to(text, from(tokens, index))
}

/// Whether a token with these bytes is from the first index on before the second.
pub fn stands_between(tokens: &[Tok<'_>], text: &[u8], index: usize, behind: usize) -> bool
    ensures { result ≡ stands_between (views tokens.now) text.now index behind }
{
    index < behind && count_up_to(tokens, index, text) < behind - index
}

/// Whether a field's definition begins here.
pub fn begins_field(tokens: &[Tok<'_>], index: usize) -> bool
    ensures { result ≡ begins_field (views tokens.now) index }
{
    has_after(tokens, index, 1, b"=") && has_after(tokens, index, 2, b"(")
}

fn is_register_name(tokens: &[Tok<'_>], head: usize, index: usize) -> bool
    ensures { result ≡ is_register_name (views tokens.now) head index }
{
    has_after(tokens, head, 2, b"offset")
        && is_word_at(tokens, index)
        && !has_before(tokens, index, 1, b"define")
        && !has_here(tokens, index, b"offset")
        && !has_here(tokens, index, b"size")
        && !has_here(tokens, index, b"_")
}

fn role_if(b: bool, role: Role) -> Option<Role>
    ensures { result ≡ role_if b role }
{
    if b { Some(role) } else { None }
}

/// What a token is in the definition of a token.
fn token_role(tokens: &[Tok<'_>], index: usize) -> Option<Role>
    ensures { result ≡ token_role (views tokens.now) index }
{
    if has_before(tokens, index, 1, b"token") {
        Some(Role::Defines(Kind::Token))
    } else {
        role_if(begins_field(tokens, index), Role::Defines(Kind::Field))
    }
}

/// What a token is in the definition of the context.
fn context_role(tokens: &[Tok<'_>], index: usize) -> Option<Role>
    ensures { result ≡ context_role (views tokens.now) index }
{
    if has_before(tokens, index, 1, b"context") {
        Some(Role::Context)
    } else {
        let begins = begins_field(tokens, index);
        role_if(begins, Role::Defines(Kind::ContextField))
    }
}

/// What a token is in the definition of a space.
fn space_role(tokens: &[Tok<'_>], index: usize) -> Option<Role>
    ensures { result ≡ space_role (views tokens.now) index }
{
    if has_before(tokens, index, 1, b"space") {
        Some(Role::Defines(Kind::Space))
    } else {
        role_if(has_here(tokens, index, b"default"), Role::Default)
    }
}

/// What a token is in the definition of user operations.
fn operation_role(tokens: &[Tok<'_>], index: usize) -> Option<Role>
    ensures { result ≡ operation_role (views tokens.now) index }
{
    let is_name = is_word_at(tokens, index) && !has_here(tokens, index, b"pcodeop");
    role_if(is_name, Role::Defines(Kind::UserOperation))
}

/// What a token is in the definition that begins at `head`.
fn defined_role(tokens: &[Tok<'_>], head: usize, index: usize) -> Option<Role>
    ensures { result ≡ defined_role (views tokens.now) head index }
{
    if has_after(tokens, head, 1, b"space") {
        space_role(tokens, index)
    } else if has_after(tokens, head, 1, b"bitrange") {
        let begins = has_after(tokens, index, 1, b"=");
        role_if(begins, Role::Defines(Kind::BitRange))
    } else if has_after(tokens, head, 1, b"pcodeop") {
        operation_role(tokens, index)
    } else if has_after(tokens, head, 1, b"token") {
        token_role(tokens, index)
    } else if has_after(tokens, head, 1, b"context") {
        context_role(tokens, index)
    } else if has_after(tokens, head, 1, b"alignment") {
        role_if(has_here(tokens, index, b"alignment"), Role::Alignment)
    } else {
        let is_register = is_register_name(tokens, head, index);
        role_if(is_register, Role::Defines(Kind::Register))
    }
}

/// Whether the item that begins at `head` attaches to this token, a field.
pub fn is_attached(tokens: &[Tok<'_>], head: usize, index: usize) -> bool
    ensures { result ≡ is_attached (views tokens.now) head index }
{
    is_word_at(tokens, index)
        && (has_before(tokens, index, 2, b"attach")
            || (has_after(tokens, head, 2, b"[")
                && !has_before(tokens, index, 1, b"attach")
                && !stands_between(tokens, b"]", head, index)))
}

fn attached_role(tokens: &[Tok<'_>], head: usize, index: usize) -> Option<Role>
    ensures { result ≡ attached_role (views tokens.now) head index }
{
    let is_attached = is_attached(tokens, head, index);
    if has_after(tokens, head, 1, b"variables") {
        role_if(is_attached, Role::AttachedToRegisters)
    } else {
        role_if(is_attached, Role::Attached)
    }
}

/// What a token is in an item that ends with a semicolon.
fn plain_role(tokens: &[Tok<'_>], head: usize, index: usize) -> Option<Role>
    ensures { result ≡ plain_role (views tokens.now) head index }
{
    if has_here(tokens, head, b"attach") {
        attached_role(tokens, head, index)
    } else {
        defined_role(tokens, head, index)
    }
}

/// What a token between items is.
fn top_role(tokens: &[Tok<'_>], index: usize) -> Option<Role>
    ensures { result ≡ top_role (views tokens.now) index }
{
    let is_table = is_word_at(tokens, index)
        && has_after(tokens, index, 1, b":")
        && !has_here(tokens, index, b"with");
    role_if(is_table, Role::Defines(Kind::Table))
}

/// What a token of a block's head is.
fn head_role(tokens: &[Tok<'_>], index: usize) -> Option<Role>
    ensures { result ≡ head_role (views tokens.now) index }
{
    let is_table = is_word_at(tokens, index) && has_before(tokens, index, 1, b"with");
    role_if(is_table, Role::Defines(Kind::Table))
}

/// What a token of a macro or a section is.
fn body_role(tokens: &[Tok<'_>], index: usize) -> Option<Role>
    ensures { result ≡ body_role (views tokens.now) index }
{
    let is_macro = has_before(tokens, index, 1, b"macro");
    role_if(is_macro, Role::Defines(Kind::Macro))
}

/// What a token of this mode is.
fn role_in(mode: Mode, tokens: &[Tok<'_>], head: usize, index: usize) -> Option<Role>
    ensures { result ≡ role_in (mode_view mode) (views tokens.now) head index }
{
    match mode {
        Mode::Top => top_role(tokens, index),
        Mode::Head => head_role(tokens, index),
        Mode::Plain => plain_role(tokens, head, index),
        Mode::Body => body_role(tokens, index),
        Mode::Display => None,
        Mode::Pattern => None,
    }
}

/// The first token of the item in which a token of this mode is.
fn head_in(mode: Mode, head: usize, index: usize) -> usize
    ensures { result ≡ head_in (mode_view mode) head index }
{
    match mode {
        Mode::Top => index,
        _ => head,
    }
}

/// Appends what a token says, if it says something.
fn push_mention(
    out: &mut Vec<Mention>,
    head: usize,
    index: usize,
    role: Option<Role>,
) -> Result<(), AllocError>
    ensures { OnOk result (out.new.items ≡ out.old.items ++ mentioned head index role) }
{
    match role {
        Some(role) => {
            out.push(Mention { index, head, role })?;
            Ok(())
        }
        None => Ok(()),
    }
}

/// The tokens of a text that say what a name is.
pub fn mentions(alloc: Global, tokens: &[Tok<'_>]) -> Result<Vec<Mention>, AllocError>
    ensures { IfOk result (λ names. names.items ≡ mentions (views tokens.now)) }
{
    let mut out = Vec::new(alloc);
    let mut mode = Mode::Top;
    let mut head = 0;
    'tokens: for at in 0..tokens.len() {
        head = head_in(mode, head, at);
        push_mention(&mut out, head, at, role_in(mode, tokens, head, at))?;
        mode = next_mode(mode, tokens[at].text);
    }
    Ok(out)
}

// ---- what a name is

/// Words that no definition may take: the names that are there from the start, the words of the
/// grammar, and the functions.
static RESERVED_WORDS: [&[u8]; 60] = [
    b"const",
    b"unique",
    b"instruction",
    b"inst_start",
    b"inst_next",
    b"inst_next2",
    b"epsilon",
    b"define",
    b"attach",
    b"endian",
    b"big",
    b"little",
    b"alignment",
    b"space",
    b"type",
    b"size",
    b"wordsize",
    b"default",
    b"bitrange",
    b"pcodeop",
    b"token",
    b"context",
    b"offset",
    b"signed",
    b"hex",
    b"dec",
    b"noflow",
    b"variables",
    b"names",
    b"values",
    b"macro",
    b"is",
    b"unimpl",
    b"globalset",
    b"with",
    b"local",
    b"goto",
    b"if",
    b"call",
    b"return",
    b"build",
    b"export",
    b"carry",
    b"scarry",
    b"sborrow",
    b"zext",
    b"sext",
    b"popcount",
    b"lzcount",
    b"nan",
    b"abs",
    b"sqrt",
    b"int2float",
    b"float2float",
    b"trunc",
    b"ceil",
    b"floor",
    b"round",
    b"cpool",
    b"newobject",
];

/// Whether the name is one of the words.
fn is_among(words: &[&[u8]], name: &[u8]) -> bool
    ensures { result ≡ list_any (λ w. bytes_eq name.now w.now) words.now }
{
    words.iter().any(|word| is(name, word))
}

/// Whether no definition may take the name.
#[tactic(auto, unfolding(crate::specs::Names::reserved_words, crate::specs::Names::is_reserved))]
pub fn is_reserved(name: &[u8]) -> bool
    ensures { result ≡ is_reserved name.now }
{
    is_among(&RESERVED_WORDS, name)
}

pub fn is_definition(role: Role) -> bool
    ensures { result ≡ is_definition role }
{
    matches!(role, Role::Defines(_))
}

pub fn is_table_role(role: Role) -> bool
    ensures { result ≡ is_table_role role }
{
    matches!(role, Role::Defines(Kind::Table))
}

/// Whether a token defines this name, before an item that begins at `start` or as that of a table.
fn is_known(tokens: &[Tok<'_>], start: usize, name: &[u8], mention: Mention) -> bool
    ensures { result ≡ is_known (views tokens.now) start name.now mention }
{
    is_definition(mention.role)
        && has_here(tokens, mention.index, name)
        && (mention.index < start || is_table_role(mention.role))
}

pub fn kind_by(role: Role) -> Kind
    ensures { result ≡ kind_by role }
{
    match role {
        Role::Defines(kind) => kind,
        _ => Kind::Nothing,
    }
}

/// A token, if there is one.
pub fn copied(mention: Option<&Mention>) -> Option<Mention>
    ensures { result ≡ option_map (λ m. m.now) mention.entry }
{
    match mention {
        Some(mention) => Some(*mention),
        None => None,
    }
}

fn find_definition<'x>(
    tokens: &[Tok<'_>],
    names: &'x [Mention],
    start: usize,
    name: &[u8],
) -> Option<&'x Mention>
    ensures { option_map (λ m. m.now) result
        ≡ find (is_known (views tokens.now) start name.now) names.now }
{
    names
        .iter()
        .find(|mention| is_known(tokens, start, name, **mention))
}

/// The first token that defines this name, before an item that begins at `start` or as that of a
/// table.
pub fn definition(
    tokens: &[Tok<'_>],
    names: &[Mention],
    start: usize,
    name: &[u8],
) -> Option<Mention>
    ensures { result ≡ find (is_known (views tokens.now) start name.now) names.now }
{
    copied(find_definition(tokens, names, start, name))
}

fn kind_in(mention: Option<Mention>) -> Kind
    ensures { result ≡ kind_in mention }
{
    match mention {
        Some(mention) => kind_by(mention.role),
        None => Kind::Nothing,
    }
}

/// What a name is in an item that begins at `start`.
pub fn kind_known(tokens: &[Tok<'_>], names: &[Mention], start: usize, name: &[u8]) -> Kind
    ensures { result ≡ kind_known (views tokens.now) names.now start name.now }
{
    if is(name, b"instruction") {
        Kind::Table
    } else if is_reserved(name) {
        Kind::Reserved
    } else {
        kind_in(definition(tokens, names, start, name))
    }
}
