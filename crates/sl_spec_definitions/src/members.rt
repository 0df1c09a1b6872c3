//! Members of attached lists: rule 14, and the entries that they give.

ghost use Rattle.std.specs.Prelude.{◌≡◌, not, find, map, IfOk, option_copied, option_map, Some};
ghost use Rattle.std.specs.List.{list_all};
ghost use Rattle.sl_ast.specs.Views.{member_of};
ghost use Rattle.sl_spec.specs.Views.{entries_of};
ghost use Rattle.sl_spec_definitions.specs.AttachRules.{are_like, are_members, first_register};
ghost use Rattle.sl_spec_definitions.specs.AttachRules.{given_entries, has_size, is_gap, is_text};
ghost use Rattle.sl_spec_definitions.specs.AttachRules.{is_value, is_variable, register_entry};
ghost use Rattle.sl_spec_definitions.specs.AttachRules.{register_named, text_entry, value_entry};
ghost use Rattle.sl_spec_definitions.specs.Words.{unquoted};

use sl_ast::definitions::{AttachKind, Member};
use sl_spec::{Entries, Named, RegId, Register};
use sl_spec_registers::{is_skipped, register_number};
use std::alloc::{AllocError, Global};

/// Whether it is the word `_`, which gives no entry.
#[tactic(auto, using(crate::proofs::WordLemmas::word_again))]
fn is_gap(member: &Member) -> bool
    ensures { result ≡ is_gap (member_of member.now) }
{
    match member {
        Member::Word(word) => is_skipped(word),
        _ => false,
    }
}

/// The register that a word names.
#[tactic(auto, using(crate::proofs::WordLemmas::word_again))]
fn register_named<'t, 'a>(
    registers: &'t Named<'a, Register<'a>>,
    member: &Member,
) -> Option<&'t Register<'a>>
    ensures { option_copied result ≡ register_named registers.now (member_of member.now) }
{
    match member {
        Member::Word(word) => registers.get(word),
        _ => None,
    }
}

fn has_size(size: u8, register: Option<&Register>) -> bool
    ensures { result ≡ has_size size (option_copied register.entry) }
{
    match register {
        Some(register) => register.size.get() == size,
        None => false,
    }
}

/// Whether it is `_` or a register of this size.
fn is_variable<'a>(registers: &Named<'a, Register<'a>>, size: u8, member: &Member) -> bool
    ensures { result ≡ is_variable registers.now size (member_of member.now) }
{
    is_gap(member) || has_size(size, register_named(registers, member))
}

fn all_variables<'a>(registers: &Named<'a, Register<'a>>, size: u8, members: &[Member]) -> bool
    ensures { result ≡ list_all (λ m. is_variable registers.now size (member_of m)) members.now }
{
    members.iter().all(|m| is_variable(registers, size, m))
}

fn first_given<'s, 'a>(members: &'s [Member<'a>]) -> Option<&'s Member<'a>>
    ensures { option_map (λ m. m.now) result
        ≡ find (λ m. not (is_gap (member_of m))) members.now }
{
    members.iter().find(|m| !is_gap(m))
}

/// The register that the first member names which isn't `_`.
fn first_register<'t, 'a>(
    registers: &'t Named<'a, Register<'a>>,
    members: &[Member],
) -> Option<&'t Register<'a>>
    ensures { option_copied result ≡ first_register registers.now (map member_of members.now) }
{
    match first_given(members) {
        Some(member) => register_named(registers, member),
        None => None,
    }
}

/// Rule 14, of variables: registers of one size or `_`, and some register.
#[tactic(auto, using(sl_spec_rules::proofs::Seen::seen))]
fn are_like<'a>(registers: &Named<'a, Register<'a>>, members: &[Member]) -> bool
    ensures { result ≡ are_like registers.now
        (first_register registers.now (map member_of members.now)) (map member_of members.now) }
{
    match first_register(registers, members) {
        Some(first) => all_variables(registers, first.size.get(), members),
        None => false,
    }
}

/// Whether it is a text or a word.
fn is_text(member: &Member) -> bool
    ensures { result ≡ is_text (member_of member.now) }
{
    matches!(member, Member::Word(_) | Member::Text(_))
}

fn all_texts(members: &[Member]) -> bool
    ensures { result ≡ list_all (λ m. is_text (member_of m)) members.now }
{
    members.iter().all(|m| is_text(m))
}

/// The largest magnitude of a negative value.
const MOST_NEGATIVE: u64 = 0x8000_0000_0000_0000;

/// The integer that the member is, if it has 64 bits with its sign.
fn value_entry(member: &Member) -> Option<i64>
    ensures { result ≡ value_entry (member_of member.now) }
{
    match member {
        Member::Integer(n) if *n < MOST_NEGATIVE => Some(*n as i64),
        Member::Negative(n) if *n <= MOST_NEGATIVE => Some(-i128::from(*n) as i64),
        _ => None,
    }
}

/// Whether it is `_` or an integer of 64 bits with its sign.
fn is_value(member: &Member) -> bool
    ensures { result ≡ is_value (member_of member.now) }
{
    is_gap(member) || value_entry(member).is_some()
}

fn all_values(members: &[Member]) -> bool
    ensures { result ≡ list_all (λ m. is_value (member_of m)) members.now }
{
    members.iter().all(|m| is_value(m))
}

/// Rule 14: the members are such as the kind of the list takes.
#[tactic(auto, using(sl_spec_rules::proofs::Seen::seen), unfolding(crate::specs::AttachRules::are_members))]
pub fn are_members<'a>(
    registers: &Named<'a, Register<'a>>,
    kind: AttachKind,
    members: &[Member],
) -> bool
    ensures { result ≡ are_members registers.now kind (map member_of members.now) }
{
    match kind {
        AttachKind::Variables => are_like(registers, members),
        AttachKind::Names => all_texts(members),
        AttachKind::Values => all_values(members),
    }
}

/// The number of the register that a word names; nothing for `_`. 2^32 registers would be want of
/// memory.
#[tactic(auto, using(crate::proofs::WordLemmas::word_again))]
fn register_entry<'a>(
    registers: &Named<'a, Register<'a>>,
    member: &Member,
) -> Result<Option<RegId>, AllocError>
    ensures { IfOk result (λ n. n ≡ register_entry registers.now (member_of member.now)) }
{
    match member {
        Member::Word(word) if !is_skipped(word) => register_number(registers, word),
        _ => Ok(None),
    }
}

/// The bytes of a quoted text between its quotes.
fn unquoted(text: &[u8]) -> &[u8]
    ensures { result.now ≡ unquoted text.now }
{
    match text {
        [_, inside @ .., _] => inside,
        _ => &[],
    }
}

/// What a text or a word reads; nothing for the word `_`.
#[tactic(auto, using(crate::proofs::WordLemmas::word_again))]
fn text_entry<'a>(member: &Member<'a>) -> Option<&'a [u8]>
    ensures { option_map (λ t. t.now) result ≡ text_entry (member_of member.now) }
{
    match member {
        Member::Word(word) if !is_skipped(word) => Some(*word),
        Member::Text(text) => Some(unquoted(text)),
        _ => None,
    }
}

fn register_entries<'a>(
    alloc: Global,
    registers: &Named<'a, Register<'a>>,
    members: &[Member],
) -> Result<Vec<Option<RegId>>, AllocError>
    ensures { IfOk result (λ entries. entries.items
        ≡ map (register_entry registers.now) (map member_of members.now)) }
{
    let mut entries = Vec::new(alloc);
    'members: for index in 0..members.len() {
        let entry = register_entry(registers, &members[index])?;
        entries.push(entry)?;
    }
    Ok(entries)
}

fn text_entries<'a>(
    alloc: Global,
    members: &[Member<'a>],
) -> Result<Vec<Option<&'a [u8]>>, AllocError>
    ensures { IfOk result (λ entries. map (λ e. option_map (λ t. t.now) e) entries.items
        ≡ map text_entry (map member_of members.now)) }
{
    let mut entries = Vec::new(alloc);
    'members: for index in 0..members.len() {
        let entry = text_entry(&members[index]);
        entries.push(entry)?;
    }
    Ok(entries)
}

fn value_entries(alloc: Global, members: &[Member]) -> Result<Vec<Option<i64>>, AllocError>
    ensures { IfOk result (λ entries. entries.items
        ≡ map value_entry (map member_of members.now)) }
{
    let mut entries = Vec::new(alloc);
    'members: for index in 0..members.len() {
        let entry = value_entry(&members[index]);
        entries.push(entry)?;
    }
    Ok(entries)
}

/// The entries that members give, one each.
#[tactic(auto, unfolding(crate::specs::AttachRules::given_entries))]
pub fn given_entries<'a>(
    alloc: Global,
    registers: &Named<'a, Register<'a>>,
    kind: AttachKind,
    members: &[Member<'a>],
) -> Result<Entries<'a>, AllocError>
    ensures { IfOk result (λ entries. entries_of entries
        ≡ given_entries registers.now kind (map member_of members.now)) }
{
    match kind {
        AttachKind::Variables => {
            let entries = register_entries(alloc, registers, members)?;
            Ok(Entries::Registers(entries))
        }
        AttachKind::Names => {
            let entries = text_entries(alloc, members)?;
            Ok(Entries::Texts(entries))
        }
        AttachKind::Values => {
            let entries = value_entries(alloc, members)?;
            Ok(Entries::Values(entries))
        }
    }
}
