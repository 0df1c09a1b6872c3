//! What is wrong with a culprit in words, what to write instead, and which sentence asks for it.

ghost use Rattle.std.specs.Prelude.{[], ◌≡◌, ◌++◌, IfOk, OnOk, codes, true};
ghost use Rattle.std.specs.Fmt.{decimal};
ghost use Rattle.sl_explain_names.specs.FaultWords as spec;
ghost use Rattle.sl_explain_names.specs.Names.{mentions};
ghost use Rattle.sl_lex.specs.Views.{views};

use crate::arguments::parameter_name;
use crate::culprits::Culprit;
use crate::findings::Finding;
use crate::item::{begins_at, is_context_field, is_field, is_register, is_table};
use crate::names::{Kind, kind_by, mentions};
use crate::tokens::text_after;
use itoa::Buffer;
use sl_explain_heads::{constructor_words, text_at};
use sl_explain_lines::{push_fact, push_up_to};
use sl_lex::Tok;
use std::alloc::{AllocError, Global};

// ---- what is wrong

fn push_name(out: &mut Vec<u8>, name: &[u8]) -> Result<(), AllocError>
    ensures { OnOk result (out.new.items ≡ out.old.items ++ spec.name_words name.now) }
{
    push_up_to(out, 40, name)
}

fn push_number(out: &mut Vec<u8>, number: u64) -> Result<(), AllocError>
    ensures { OnOk result (out.new.items ≡ out.old.items ++ decimal number) }
{
    let mut buffer = Buffer::new();
    out.extend_from_slice(buffer.format(number).as_bytes())
}

fn kind_words(kind: Kind) -> &'static [u8]
    ensures { result.now ≡ spec.kind_words kind }
{
    match kind {
        Kind::Space => b"a space",
        Kind::Register => b"a register",
        Kind::BitRange => b"a bit range",
        Kind::UserOperation => b"a user operation",
        Kind::Token => b"a token",
        Kind::Field => b"a field",
        Kind::ContextField => b"a field",
        Kind::Macro => b"a macro",
        Kind::Table => b"a table",
        Kind::Reserved => b"reserved",
        Kind::ContextRegister => b"the context's register",
        Kind::Nothing => b"defined nowhere before",
    }
}

pub fn push_kind(out: &mut Vec<u8>, kind: Kind) -> Result<(), AllocError>
    ensures { OnOk result (out.new.items ≡ out.old.items ++ spec.is_kind kind) }
{
    out.extend_from_slice(b" is ")?;
    out.extend_from_slice(kind_words(kind))
}

fn relation_note(kind: Kind) -> &'static [u8]
    ensures { result.now ≡ spec.relation_note kind }
{
    match kind {
        Kind::Nothing => b"",
        _ => b", and has a relation",
    }
}

fn arguments_word(count: usize) -> &'static [u8]
    ensures { result.now ≡ spec.arguments_word count }
{
    if count == 1 {
        b" argument, and takes "
    } else {
        b" arguments, and takes "
    }
}

/// What is said of a name after it, where it is one phrase.
fn phrase(finding: Finding) -> &'static [u8]
    ensures { result.now ≡ spec.phrase finding }
{
    match finding {
        Finding::BareTwice => b" is bare twice",
        Finding::IsBare => b" is bare",
        Finding::NotYetKnown => b" is not known yet",
        Finding::ActionName => b" is an action name",
        Finding::BehindTable => b" stands right of a ; whose left side holds a table",
        Finding::HasNoBits => b" has no bits",
        Finding::TooManyOperands => b" is operand 33",
        Finding::NoNumber => b" is no number",
        Finding::SetBefore => b" is set before",
        Finding::NotYetSet => b" is set by no action before",
        Finding::NotInPattern => b" is a field that isn't in the pattern",
        Finding::NotBare => b" isn't bare in the pattern",
        Finding::OfToken => b" is a field of a token",
        Finding::ParameterTwice => b" is a parameter before",
        Finding::LocalIsParameter => b" is a parameter",
        Finding::LocalIsOperand => b" is an action name",
        Finding::DeclaredTwice => b" is declared before",
        Finding::NoSpace => b" is no defined space",
        Finding::Number => b" is a number",
        Finding::NoLabel => b" stands nowhere here",
        Finding::LabelTwice => b" stands twice",
        Finding::BuiltTwice => b" is built before",
        Finding::InMacro => b" stands in a macro",
        Finding::Twice => b" stands twice",
        Finding::NoMultiple => b" is no multiple of 8",
        Finding::HasNoflow => b" has noflow",
        Finding::HexAndDec => b" has hex and dec",
        Finding::AttributeTwice => b" has an attribute twice",
        Finding::AttachedBefore => b" is attached",
        Finding::NoType => b" has no type",
        Finding::NoSize => b" has no size",
        Finding::IsNoType => b" is no type",
        Finding::IsInteger => b" is an integer",
        Finding::IsText => b" is a text",
        Finding::IsWord => b" is a word",
        Finding::PastValues => b" is past -2^63 to 2^63 - 1",
        _ => b"",
    }
}

/// Appends words and a number.
fn push_count(out: &mut Vec<u8>, words: &[u8], number: u64) -> Result<(), AllocError>
    ensures { OnOk result (out.new.items ≡ out.old.items ++ (words.now ++ decimal number)) }
{
    out.extend_from_slice(words)?;
    push_number(out, number)
}

fn push_arguments(out: &mut Vec<u8>, given: usize, taken: usize) -> Result<(), AllocError>
    ensures { OnOk result (out.new.items
        ≡ out.old.items ++ spec.said (Finding.Arguments given taken)) }
{
    push_count(out, b" has ", given as u64)?;
    push_count(out, arguments_word(given), taken as u64)
}

/// Appends what is said after the name.
fn push_said(out: &mut Vec<u8>, finding: Finding) -> Result<(), AllocError>
    ensures { OnOk result (out.new.items ≡ out.old.items ++ spec.said finding) }
{
    match finding {
        Finding::Is(kind) => push_kind(out, kind),
        Finding::LocalIs(kind) => push_kind(out, kind),
        Finding::HasRelation(kind) => {
            push_kind(out, kind)?;
            out.extend_from_slice(relation_note(kind))
        }
        Finding::NoOperand(kind) => {
            push_kind(out, kind)?;
            out.extend_from_slice(b", and no operand")
        }
        Finding::Below(least) => push_count(out, b" is below ", least),
        Finding::Above(most) => push_count(out, b" is above ", most),
        Finding::SizeIs(size) => push_count(out, b" has size ", size),
        Finding::Arguments { given, taken } => push_arguments(out, given, taken),
        _ => out.extend_from_slice(phrase(finding)),
    }
}

/// A fact that names no word.
fn sentence(finding: Finding) -> &'static [u8]
    ensures { result.now ≡ spec.sentence finding }
{
    match finding {
        Finding::NoBytes => b"its pattern may have 0 bytes",
        Finding::NoWrittenSize => b"no size is written",
        Finding::StatementAfter => b"a statement stands behind it",
        Finding::FirstItem => b"the first item is no define endian",
        Finding::SecondEndian => b"a second define endian",
        Finding::SecondAlignment => b"a second alignment",
        Finding::SecondContext => b"a second define context",
        Finding::NoRegister => b"no member is a register",
        Finding::NoMembers => b"no members",
        _ => b"",
    }
}

/// Appends the token that is so many after the one of this index.
fn push_after(
    out: &mut Vec<u8>,
    tokens: &[Tok<'_>],
    index: usize,
    ahead: usize,
) -> Result<(), AllocError>
    ensures { OnOk result (out.new.items
        ≡ out.old.items ++ spec.words_after (views tokens.now) index ahead) }
{
    push_name(out, text_after(tokens, index, ahead))
}

fn push_at(out: &mut Vec<u8>, tokens: &[Tok<'_>], index: usize) -> Result<(), AllocError>
    ensures { OnOk result (out.new.items
        ≡ out.old.items ++ spec.words_at (views tokens.now) index) }
{
    push_name(out, text_at(tokens, index))
}

/// Appends which bit of the field at this index is wrong.
fn push_bit(
    out: &mut Vec<u8>,
    words: &[u8],
    tokens: &[Tok<'_>],
    index: usize,
    ahead: usize,
) -> Result<(), AllocError>
    ensures { OnOk result (out.new.items ≡ out.old.items
        ++ (words.now ++ (spec.words_after (views tokens.now) index ahead
        ++ (codes " of " ++ spec.words_at (views tokens.now) index)))) }
{
    out.extend_from_slice(words)?;
    push_after(out, tokens, index, ahead)?;
    out.extend_from_slice(b" of ")?;
    push_at(out, tokens, index)
}

/// Appends which bit of the field at this index is wrong, and then words and a number.
fn push_bit_and_count(
    out: &mut Vec<u8>,
    front: &[u8],
    tokens: &[Tok<'_>],
    index: usize,
    ahead: usize,
    words: &[u8],
    number: u64,
) -> Result<(), AllocError>
    ensures { OnOk result (out.new.items ≡ out.old.items
        ++ (front.now ++ (spec.words_after (views tokens.now) index ahead
        ++ (codes " of " ++ (spec.words_at (views tokens.now) index
        ++ (words.now ++ decimal number)))))) }
{
    push_bit(out, front, tokens, index, ahead)?;
    push_count(out, words, number)
}

/// Appends the token that is so many after the one of this index, and then words.
fn push_after_and(
    out: &mut Vec<u8>,
    tokens: &[Tok<'_>],
    index: usize,
    ahead: usize,
    words: &[u8],
) -> Result<(), AllocError>
    ensures { OnOk result (out.new.items ≡ out.old.items
        ++ (spec.words_after (views tokens.now) index ahead ++ words.now)) }
{
    push_after(out, tokens, index, ahead)?;
    out.extend_from_slice(words)
}

/// Appends that the high bit of the field at this index isn't below so many.
fn push_high(
    out: &mut Vec<u8>,
    tokens: &[Tok<'_>],
    index: usize,
    bits: u64,
) -> Result<(), AllocError>
    ensures { OnOk result (out.new.items ≡ out.old.items
        ++ spec.fault_words (views tokens.now) 0 index (Finding.HighNotBelow bits)) }
{
    let words = b" is not below ";
    push_bit_and_count(out, b"the high bit ", tokens, index, 5, words, bits)
}

/// Appends that the space is `default` whose definition begins at this index.
fn push_default(out: &mut Vec<u8>, tokens: &[Tok<'_>], head: usize) -> Result<(), AllocError>
    ensures { OnOk result (out.new.items ≡ out.old.items
        ++ spec.fault_words (views tokens.now) 0 0 (Finding.DefaultIs head)) }
{
    push_after_and(out, tokens, head, 2, b" is default")
}

/// Appends that the first register has another size.
fn push_other_size(
    out: &mut Vec<u8>,
    tokens: &[Tok<'_>],
    first: usize,
    other: u64,
) -> Result<(), AllocError>
    ensures { OnOk result (out.new.items
        ≡ out.old.items ++ spec.sizes_words (views tokens.now) first other) }
{
    out.extend_from_slice(b", and ")?;
    push_at(out, tokens, first)?;
    push_count(out, b" has ", other)
}

/// Appends that the register at this index has another size than the first one.
fn push_sizes(
    out: &mut Vec<u8>,
    tokens: &[Tok<'_>],
    index: usize,
    size: u64,
    first: usize,
    other: u64,
) -> Result<(), AllocError>
    ensures { OnOk result (out.new.items ≡ out.old.items
        ++ spec.fault_words (views tokens.now) 0 index (Finding.SizesDiffer size first other)) }
{
    push_at(out, tokens, index)?;
    push_count(out, b" has size ", size)?;
    push_other_size(out, tokens, first, other)
}

/// Appends a number in hexadecimal, without leading zeros.
#[tactic(auto, unfolding(crate::specs::FaultWords::hex_words))]
pub fn push_hex(alloc: Global, out: &mut Vec<u8>, number: u64) -> Result<(), AllocError>
    ensures { OnOk result (out.new.items ≡ out.old.items ++ spec.hex_words number) }
{
    let digits = format!(in alloc; "{number:x}")?;
    out.extend_from_slice(b"0x")?;
    out.extend_from_slice(digits.as_bytes())
}

/// Appends where registers end, and where their space does.
#[tactic(auto, unfolding(crate::specs::FaultWords::ends_words))]
fn push_ends(alloc: Global, out: &mut Vec<u8>, end: u64, space: u64) -> Result<(), AllocError>
    ensures { OnOk result (out.new.items ≡ out.old.items ++ spec.ends_words end space) }
{
    out.extend_from_slice(b"the places end at ")?;
    push_hex(alloc, out, end)?;
    out.extend_from_slice(b", the space at ")?;
    push_hex(alloc, out, space)
}

/// Appends which bit the bit range at this index ends at.
#[tactic(auto, unfolding(crate::specs::FaultWords::end_words))]
fn push_end_bit(
    out: &mut Vec<u8>,
    tokens: &[Tok<'_>],
    index: usize,
    end: u64,
) -> Result<(), AllocError>
    ensures { OnOk result (out.new.items
        ≡ out.old.items ++ spec.end_words (views tokens.now) index end) }
{
    push_at(out, tokens, index)?;
    push_count(out, b" ends at bit ", end)
}

/// Appends how many bits the register of the bit range at this index has.
#[tactic(auto, unfolding(crate::specs::FaultWords::bits_words))]
fn push_range_bits(
    out: &mut Vec<u8>,
    tokens: &[Tok<'_>],
    index: usize,
    bits: u64,
) -> Result<(), AllocError>
    ensures { OnOk result (out.new.items
        ≡ out.old.items ++ spec.bits_words (views tokens.now) index bits) }
{
    out.extend_from_slice(b", and ")?;
    push_after(out, tokens, index, 2)?;
    push_count(out, b" has ", bits)
}

/// Appends what is wrong with the register of the bit range at this index.
fn push_range_of(
    out: &mut Vec<u8>,
    tokens: &[Tok<'_>],
    index: usize,
    kind: Kind,
) -> Result<(), AllocError>
    ensures { OnOk result (out.new.items ≡ out.old.items
        ++ (spec.words_after (views tokens.now) index 2 ++ spec.is_kind kind)) }
{
    push_after(out, tokens, index, 2)?;
    push_kind(out, kind)
}

/// Appends what an argument at this index is.
#[tactic(auto, unfolding(crate::specs::FaultWords::given_words))]
fn push_given(
    out: &mut Vec<u8>,
    tokens: &[Tok<'_>],
    index: usize,
    is_name: bool,
) -> Result<(), AllocError>
    ensures { OnOk result (out.new.items
        ≡ out.old.items ++ spec.given_words (views tokens.now) index is_name) }
{
    if is_name {
        push_at(out, tokens, index)?;
        out.extend_from_slice(b" is a number")
    } else {
        out.extend_from_slice(b"this is no name")
    }
}

/// Appends that the macro that is called at an index, and whose name has the index `of`, assigns the
/// parameter before which there are so many.
#[tactic(auto, unfolding(crate::specs::FaultWords::assigned_words))]
fn push_assigned(
    out: &mut Vec<u8>,
    tokens: &[Tok<'_>],
    call: usize,
    of: usize,
    count: usize,
) -> Result<(), AllocError>
    ensures { OnOk result (out.new.items
        ≡ out.old.items ++ spec.assigned_words (views tokens.now) call of count) }
{
    out.extend_from_slice(b", and ")?;
    push_at(out, tokens, call)?;
    out.extend_from_slice(b" assigns ")?;
    push_name(out, parameter_name(tokens, of, count))
}

/// Appends how many members there are.
#[tactic(auto, unfolding(crate::specs::FaultWords::members_words))]
fn push_member_count(out: &mut Vec<u8>, members: usize) -> Result<(), AllocError>
    ensures { OnOk result (out.new.items ≡ out.old.items ++ spec.members_words members) }
{
    push_number(out, members as u64)?;
    out.extend_from_slice(b" members, and ")
}

/// Appends how many values the field at this index has.
#[tactic(auto, unfolding(crate::specs::FaultWords::values_words))]
fn push_values(
    out: &mut Vec<u8>,
    tokens: &[Tok<'_>],
    index: usize,
    values: u64,
) -> Result<(), AllocError>
    ensures { OnOk result (out.new.items
        ≡ out.old.items ++ spec.values_words (views tokens.now) index values) }
{
    push_at(out, tokens, index)?;
    push_count(out, b" has ", values)?;
    out.extend_from_slice(b" values")
}

/// Appends that more members are attached than the field at this index has values.
fn push_members(
    out: &mut Vec<u8>,
    tokens: &[Tok<'_>],
    index: usize,
    members: usize,
    values: u64,
) -> Result<(), AllocError>
    ensures { OnOk result (out.new.items ≡ out.old.items
        ++ spec.fault_words (views tokens.now) 0 index (Finding.ManyMembers members values)) }
{
    push_member_count(out, members)?;
    push_values(out, tokens, index, values)
}

/// Appends what is wrong with a word of the item whose first token has this index.
fn push_words(
    alloc: Global,
    out: &mut Vec<u8>,
    tokens: &[Tok<'_>],
    start: usize,
    culprit: Culprit,
) -> Result<(), AllocError>
    ensures { OnOk result (out.new.items ≡ out.old.items
        ++ spec.fault_words (views tokens.now) start culprit.index culprit.finding) }
{
    let index = culprit.index;
    match culprit.finding {
        Finding::NoBytes => out.extend_from_slice(sentence(Finding::NoBytes)),
        Finding::NoWrittenSize => out.extend_from_slice(sentence(Finding::NoWrittenSize)),
        Finding::StatementAfter => out.extend_from_slice(sentence(Finding::StatementAfter)),
        Finding::FirstItem => out.extend_from_slice(sentence(Finding::FirstItem)),
        Finding::SecondEndian => out.extend_from_slice(sentence(Finding::SecondEndian)),
        Finding::SecondAlignment => out.extend_from_slice(sentence(Finding::SecondAlignment)),
        Finding::SecondContext => out.extend_from_slice(sentence(Finding::SecondContext)),
        Finding::NoRegister => out.extend_from_slice(sentence(Finding::NoRegister)),
        Finding::NoMembers => out.extend_from_slice(sentence(Finding::NoMembers)),
        Finding::OfRoot => {
            let words = constructor_words(alloc, tokens, start)?;
            out.extend_from_slice(words.as_slice())?;
            out.extend_from_slice(b" is of instruction")
        }
        Finding::SecondAttribute => {
            out.extend_from_slice(b"a second ")?;
            push_at(out, tokens, index)
        }
        Finding::NamesItself => {
            push_at(out, tokens, index)?;
            out.extend_from_slice(b" names ")?;
            push_at(out, tokens, index)
        }
        Finding::DividesByZero => {
            push_round(out, b"the constraint of ", tokens, index, b" divides by 0")
        }
        Finding::PlacesPast { end, space } => push_ends(alloc, out, end, space),
        Finding::RangeOf(kind) => push_range_of(out, tokens, index, kind),
        Finding::BitsPast { end, bits } => {
            push_end_bit(out, tokens, index, end)?;
            push_range_bits(out, tokens, index, bits)
        }
        Finding::Assigned {
            is_name,
            call,
            of,
            count,
        } => {
            push_given(out, tokens, index, is_name)?;
            push_assigned(out, tokens, call, of, count)
        }
        Finding::LowAbove => {
            push_bit(out, b"the low bit ", tokens, index, 3)?;
            out.extend_from_slice(b" is above ")?;
            push_after(out, tokens, index, 5)
        }
        Finding::HighNotBelow(bits) => push_high(out, tokens, index, bits),
        Finding::DefaultIs(head) => push_default(out, tokens, head),
        Finding::SizesDiffer { size, first, other } => {
            push_sizes(out, tokens, index, size, first, other)
        }
        Finding::ManyMembers { members, values } => {
            push_members(out, tokens, index, members, values)
        }
        _ => {
            push_at(out, tokens, index)?;
            push_said(out, culprit.finding)
        }
    }
}

/// Appends the line that says what is wrong with a word of the item whose first token has this
/// index.
#[tactic(auto, unfolding(crate::specs::FaultWords::fault_line))]
pub fn push_fault(
    alloc: Global,
    out: &mut Vec<u8>,
    tokens: &[Tok<'_>],
    start: usize,
    culprit: Culprit,
) -> Result<(), AllocError>
    ensures { OnOk result (out.new.items ≡ out.old.items
        ++ spec.fault_line (views tokens.now) start culprit) }
{
    let mut words = Vec::new(alloc);
    push_words(alloc, &mut words, tokens, start, culprit)?;
    push_fact(out, b"  fault ", words.as_slice())
}

// ---- what to write instead

/// The fields of the context, with `or` between them.
#[tactic(auto, unfolding(crate::specs::FaultWords::context_fields))]
fn context_fields(alloc: Global, tokens: &[Tok<'_>]) -> Result<Vec<u8>, AllocError>
    ensures { IfOk result (λ words. words.items ≡ spec.context_fields (views tokens.now)) }
{
    let names = mentions(alloc, tokens)?;
    let names = names.as_slice();
    let mut out = Vec::new(alloc);
    let mut is_first = true;
    'names: for at in 0..names.len() {
        let mention = names[at];
        if is_context_field(kind_by(mention.role)) {
            out.extend_from_slice(between(is_first))?;
            push_at(&mut out, tokens, mention.index)?;
            is_first = false;
        }
    }
    Ok(out)
}

/// What is between a field and the one before it.
fn between(is_first: bool) -> &'static [u8]
    ensures { result.now ≡ spec.between is_first }
{
    if is_first { b"" } else { b" or " }
}

#[tactic(auto, unfolding(crate::specs::FaultWords::fields_words))]
fn push_fields(alloc: Global, out: &mut Vec<u8>, tokens: &[Tok<'_>]) -> Result<(), AllocError>
    ensures { OnOk result (out.new.items
        ≡ out.old.items ++ spec.fields_words (views tokens.now)) }
{
    let fields = context_fields(alloc, tokens)?;
    push_up_to(out, 80, fields.as_slice())
}

fn push_context_advice(
    alloc: Global,
    out: &mut Vec<u8>,
    tokens: &[Tok<'_>],
) -> Result<(), AllocError>
    ensures { OnOk result (out.new.items
        ≡ out.old.items ++ spec.context_advice (views tokens.now)) }
{
    push_fields(alloc, out, tokens)?;
    out.extend_from_slice(b" as operands")
}

fn is_context(kind: Kind) -> bool
    ensures { result ≡ spec.is_context kind }
{
    matches!(kind, Kind::ContextRegister)
}

/// Appends words round the token of this index.
fn push_round(
    out: &mut Vec<u8>,
    before: &[u8],
    tokens: &[Tok<'_>],
    index: usize,
    after: &[u8],
) -> Result<(), AllocError>
    ensures { OnOk result (out.new.items ≡ out.old.items
        ++ (before.now ++ (spec.words_at (views tokens.now) index ++ after.now))) }
{
    out.extend_from_slice(before)?;
    push_at(out, tokens, index)?;
    out.extend_from_slice(after)
}

/// Appends what to write in the place of a name of this kind.
fn push_kind_advice(
    alloc: Global,
    out: &mut Vec<u8>,
    tokens: &[Tok<'_>],
    rule: u8,
    index: usize,
    kind: Kind,
) -> Result<(), AllocError>
    ensures { OnOk result (out.new.items ≡ out.old.items
        ++ spec.kind_advice (views tokens.now) rule index kind) }
{
    if rule == 17 && is_register(kind) {
        let after = b"; a display may show it";
        push_round(out, b"the pattern without ", tokens, index, after)
    } else if rule == 25 && is_table(kind) {
        let after = b", where its address is known";
        push_round(
            out,
            b"globalset in the constructors of ",
            tokens,
            index,
            after,
        )
    } else if is_context(kind) {
        push_context_advice(alloc, out, tokens)
    } else {
        Ok(())
    }
}

/// Appends what to write in the place of a name of this kind that is no operand.
fn push_operand_advice(
    out: &mut Vec<u8>,
    tokens: &[Tok<'_>],
    rule: u8,
    index: usize,
    kind: Kind,
) -> Result<(), AllocError>
    ensures { OnOk result (out.new.items ≡ out.old.items
        ++ spec.operand_advice (views tokens.now) rule index kind) }
{
    if !is_field(kind) {
        Ok(())
    } else if rule == 16 {
        push_at(out, tokens, index)?;
        push_round(
            out,
            b" in the pattern, bare; or \"",
            tokens,
            index,
            b"\" as a text",
        )
    } else {
        push_at(out, tokens, index)?;
        out.extend_from_slice(b" in the pattern, bare")
    }
}

/// Appends what to write in the place of a number.
fn push_number_advice(
    out: &mut Vec<u8>,
    tokens: &[Tok<'_>],
    rule: u8,
    index: usize,
) -> Result<(), AllocError>
    ensures { OnOk result (out.new.items ≡ out.old.items
        ++ spec.number_advice (views tokens.now) rule index) }
{
    if rule == 30 {
        let after = b"; with the size in bytes";
        push_round(out, b"export *[const]:2 ", tokens, index, after)
    } else {
        Ok(())
    }
}

/// Appends what to write in the place of a culprit, where that is known.
fn push_advice_words(
    alloc: Global,
    out: &mut Vec<u8>,
    tokens: &[Tok<'_>],
    rule: u8,
    culprit: Culprit,
) -> Result<(), AllocError>
    ensures { OnOk result (out.new.items ≡ out.old.items
        ++ spec.advice_words (views tokens.now) rule culprit.index culprit.finding) }
{
    let index = culprit.index;
    match culprit.finding {
        Finding::Is(kind) => push_kind_advice(alloc, out, tokens, rule, index, kind),
        Finding::NoOperand(kind) => push_operand_advice(out, tokens, rule, index, kind),
        Finding::Number => push_number_advice(out, tokens, rule, index),
        Finding::IsBare => out.extend_from_slice(b"a constructor for each side"),
        Finding::LocalIs(_) => out.extend_from_slice(b"another name"),
        Finding::LocalIsParameter => out.extend_from_slice(b"another name"),
        Finding::LocalIsOperand => out.extend_from_slice(b"another name"),
        _ => Ok(()),
    }
}

/// Appends the line with these words, if there are any.
fn push_advice_by(out: &mut Vec<u8>, words: &[u8]) -> Result<(), AllocError>
    ensures { OnOk result (out.new.items ≡ out.old.items ++ spec.advice_by words.now) }
{
    if words.is_empty() {
        Ok(())
    } else {
        push_fact(out, b"  write ", words)
    }
}

/// Appends the line that says what to write in the place of a culprit, where that is known.
#[tactic(auto, unfolding(crate::specs::FaultWords::advice_line))]
pub fn push_advice(
    alloc: Global,
    out: &mut Vec<u8>,
    tokens: &[Tok<'_>],
    rule: u8,
    culprit: Culprit,
) -> Result<(), AllocError>
    ensures { OnOk result (out.new.items ≡ out.old.items
        ++ spec.advice_line (views tokens.now) rule culprit) }
{
    let mut words = Vec::new(alloc);
    push_advice_words(alloc, &mut words, tokens, rule, culprit)?;
    push_advice_by(out, words.as_slice())
}

// ---- which sentence

/// The sentence of rule 26.
fn name_sentence(finding: Finding) -> usize
    ensures { result ≡ spec.name_sentence finding }
{
    match finding {
        Finding::LocalIs(_) => 1,
        Finding::LocalIsParameter => 1,
        Finding::LocalIsOperand => 1,
        Finding::DeclaredTwice => 1,
        Finding::ParameterTwice => 2,
        Finding::NoSpace => 3,
        Finding::Below(_) => 4,
        Finding::Above(_) => 4,
        _ => 0,
    }
}

/// The sentence of rule 27.
fn assigned_sentence(finding: Finding) -> usize
    ensures { result ≡ spec.assigned_sentence finding }
{
    match finding {
        Finding::Assigned { .. } => 1,
        _ => 0,
    }
}

/// The sentence of rule 30.
fn export_sentence(finding: Finding) -> usize
    ensures { result ≡ spec.export_sentence finding }
{
    match finding {
        Finding::StatementAfter => 0,
        Finding::OfRoot => 0,
        _ => 1,
    }
}

/// The sentence of rule 31 on a call, by where it is.
fn place_sentence(tokens: &[Tok<'_>], index: usize) -> usize
    ensures { result ≡ spec.place_sentence (views tokens.now) index }
{
    if begins_at(tokens, index) { 1 } else { 0 }
}

/// The sentence of rule 31.
fn call_sentence(tokens: &[Tok<'_>], index: usize, finding: Finding) -> usize
    ensures { result ≡ spec.call_sentence (views tokens.now) index finding }
{
    match finding {
        Finding::InMacro => 2,
        _ => place_sentence(tokens, index),
    }
}

/// The sentence of a rule that asks for what a culprit lacks, by its number among those of the rule.
#[tactic(auto, unfolding(crate::specs::FaultWords::sentence_of))]
pub fn sentence_of(tokens: &[Tok<'_>], rule: u8, culprit: Culprit) -> usize
    ensures { result ≡ spec.sentence_of (views tokens.now) rule culprit }
{
    if rule == 26 {
        name_sentence(culprit.finding)
    } else if rule == 27 {
        assigned_sentence(culprit.finding)
    } else if rule == 30 {
        export_sentence(culprit.finding)
    } else if rule == 31 {
        call_sentence(tokens, culprit.index, culprit.finding)
    } else {
        0
    }
}
