//! An item with the names that are known in it.

ghost use Rattle.std.specs.Prelude.{◌≡◌};
ghost use Rattle.sl_explain_names.specs.ItemView.{item};
ghost use Rattle.sl_explain_names.specs.Items as spec;
ghost use Rattle.sl_lex.specs.Views.{views};

use crate::names::{Kind, Mention, Role, kind_known, stands_between};
use crate::places::{Part, Place};
use crate::tokens::{has_after, has_before, has_here, is, is_word_at, text_after};
use sl_explain_heads::text_at;
use sl_lex::Tok;

/// An item of a text, with what the text says of names.
#[derive(Drop)]
pub struct Item<'t, 's> {
    /// The text's tokens.
    pub tokens: &'t [Tok<'s>],
    /// The index of the item's first token.
    pub start: usize,
    /// Its table, or no name.
    pub table: &'s [u8],
    pub names: Vec<Mention>,
    /// Its tokens by their parts, after those of the heads of the blocks round it.
    pub places: Vec<Place>,
}

// ---- parts

pub fn is_begin(part: Part) -> bool
    ensures { result ≡ spec.is_begin part }
{
    matches!(part, Part::Begin)
}

pub fn is_display(part: Part) -> bool
    ensures { result ≡ spec.is_display part }
{
    matches!(part, Part::Display)
}

pub fn is_pattern(part: Part) -> bool
    ensures { result ≡ spec.is_pattern part }
{
    matches!(part, Part::Pattern)
}

pub fn is_action(part: Part) -> bool
    ensures { result ≡ spec.is_action part }
{
    matches!(part, Part::Actions)
}

pub fn is_parameter_list(part: Part) -> bool
    ensures { result ≡ spec.is_parameter_list part }
{
    matches!(part, Part::Parameters)
}

pub fn is_section(part: Part) -> bool
    ensures { result ≡ spec.is_section part }
{
    matches!(part, Part::Section)
}

pub fn is_defining(part: Part) -> bool
    ensures { result ≡ spec.is_defining part }
{
    matches!(part, Part::Definition)
}

// ---- kinds

pub fn is_token_field(kind: Kind) -> bool
    ensures { result ≡ spec.is_token_field kind }
{
    matches!(kind, Kind::Field)
}

pub fn is_context_field(kind: Kind) -> bool
    ensures { result ≡ spec.is_context_field kind }
{
    matches!(kind, Kind::ContextField)
}

pub fn is_table(kind: Kind) -> bool
    ensures { result ≡ spec.is_table kind }
{
    matches!(kind, Kind::Table)
}

pub fn is_register(kind: Kind) -> bool
    ensures { result ≡ spec.is_register kind }
{
    matches!(kind, Kind::Register)
}

pub fn is_bit_range(kind: Kind) -> bool
    ensures { result ≡ spec.is_bit_range kind }
{
    matches!(kind, Kind::BitRange)
}

pub fn is_space(kind: Kind) -> bool
    ensures { result ≡ spec.is_space kind }
{
    matches!(kind, Kind::Space)
}

pub fn is_operation(kind: Kind) -> bool
    ensures { result ≡ spec.is_operation kind }
{
    matches!(kind, Kind::UserOperation)
}

pub fn is_macro(kind: Kind) -> bool
    ensures { result ≡ spec.is_macro kind }
{
    matches!(kind, Kind::Macro)
}

pub fn is_field(kind: Kind) -> bool
    ensures { result ≡ spec.is_field kind }
{
    is_token_field(kind) || is_context_field(kind)
}

/// Whether nothing has the name, or it is a word that no definition takes.
pub fn is_free(kind: Kind) -> bool
    ensures { result ≡ spec.is_free kind }
{
    matches!(kind, Kind::Nothing | Kind::Reserved)
}

fn is_relation(text: &[u8]) -> bool
    ensures { result ≡ spec.is_relation text.now }
{
    is(text, b"=")
        || is(text, b"!=")
        || is(text, b"<")
        || is(text, b"<=")
        || is(text, b">")
        || is(text, b">=")
}

pub fn is_context_role(role: Role) -> bool
    ensures { result ≡ spec.is_context_role role }
{
    matches!(role, Role::Context)
}

pub fn is_address_name(name: &[u8]) -> bool
    ensures { result ≡ spec.is_address_name name.now }
{
    is(name, b"inst_start") || is(name, b"inst_next")
}

/// Whether a statement begins at the token of this index: after a semicolon, the brace or a label.
pub fn begins_at(tokens: &[Tok<'_>], index: usize) -> bool
    ensures { result ≡ spec.begins_at (views tokens.now) index }
{
    has_before(tokens, index, 1, b";")
        || has_before(tokens, index, 1, b"{")
        || (has_before(tokens, index, 1, b">") && has_before(tokens, index, 3, b"<"))
}

impl<'t, 's> Item<'t, 's> {
    ghost use Rattle.std.specs.Prelude.{◌≡◌};
    ghost use Rattle.sl_explain_names.specs.ItemView.{item};
    ghost use Rattle.sl_explain_names.specs.Items as spec;

    /// The name at a place.
    pub fn name_at(&self, place: Place) -> &'s [u8]
        ensures { result.now ≡ spec.name_at (item self.now) place }
    {
        text_at(self.tokens, place.index)
    }

    pub fn is_named(&self, name: &[u8], place: Place) -> bool
        ensures { result ≡ spec.is_named (item self.now) name.now place }
    {
        has_here(self.tokens, place.index, name)
    }

    pub fn is_word(&self, place: Place) -> bool
        ensures { result ≡ spec.is_word_in (item self.now) place }
    {
        is_word_at(self.tokens, place.index)
    }

    /// What a name is that the text defines.
    pub fn kind_of(&self, name: &[u8]) -> Kind
        ensures { result ≡ spec.kind_of (item self.now) name.now }
    {
        kind_known(self.tokens, self.names.as_slice(), self.start, name)
    }

    // ---- patterns

    /// Whether a relation is after the name at a place.
    pub fn has_relation(&self, place: Place) -> bool
        ensures { result ≡ spec.has_relation (item self.now) place }
    {
        is_relation(text_after(self.tokens, place.index, 1))
    }

    /// Whether a place is `epsilon` by itself.
    fn is_empty_pattern(&self, place: Place) -> bool
        ensures { result ≡ spec.is_empty_pattern (item self.now) place }
    {
        self.is_named(b"epsilon", place) && !self.has_relation(place)
    }

    /// Whether a place is a name of the pattern, which that isn't, nor the word `unimpl` after it.
    pub fn is_pattern_name(&self, place: Place) -> bool
        ensures { result ≡ spec.is_pattern_name (item self.now) place }
    {
        is_pattern(place.part)
            && self.is_word(place)
            && !self.is_named(b"unimpl", place)
            && !self.is_empty_pattern(place)
    }

    /// Whether it is one without a relation.
    pub fn is_bare_name(&self, place: Place) -> bool
        ensures { result ≡ spec.is_bare_name (item self.now) place }
    {
        self.is_pattern_name(place) && !self.has_relation(place)
    }

    /// Whether a place of the pattern has the name.
    pub fn has_name(&self, name: &[u8], place: Place) -> bool
        ensures { result ≡ spec.has_name (item self.now) name.now place }
    {
        self.is_pattern_name(place) && self.is_named(name, place)
    }

    /// Whether it has it by itself.
    pub fn has_bare_name(&self, name: &[u8], place: Place) -> bool
        ensures { result ≡ spec.has_bare_name (item self.now) name.now place }
    {
        self.is_bare_name(place) && self.is_named(name, place)
    }

    /// Whether the name is in the pattern, by itself or with a relation.
    pub fn is_in_pattern(&self, name: &[u8]) -> bool
        ensures { result ≡ spec.is_in_pattern (item self.now) name.now }
    {
        self.places.iter().any(|p| self.has_name(name, *p))
    }

    /// Whether it is there by itself.
    pub fn is_bare(&self, name: &[u8]) -> bool
        ensures { result ≡ spec.is_bare (item self.now) name.now }
    {
        self.places.iter().any(|p| self.has_bare_name(name, *p))
    }

    // ---- actions

    /// Whether a place is the left side of an action.
    pub fn is_left(&self, place: Place) -> bool
        ensures { result ≡ spec.is_left (item self.now) place }
    {
        is_action(place.part) && self.is_word(place) && has_after(self.tokens, place.index, 1, b"=")
    }

    /// Whether a place sets the name.
    fn sets(&self, name: &[u8], place: Place) -> bool
        ensures { result ≡ spec.sets (item self.now) name.now place }
    {
        self.is_left(place) && self.is_named(name, place)
    }

    /// Whether a place sets the name in an action that ends before another place.
    fn sets_before(&self, at: Place, name: &[u8], place: Place) -> bool
        ensures { result ≡ spec.sets_before (item self.now) at name.now place }
    {
        self.sets(name, place) && self.is_settled(place, at)
    }

    /// Whether some action sets the name.
    pub fn is_set(&self, name: &[u8]) -> bool
        ensures { result ≡ spec.is_set (item self.now) name.now }
    {
        self.places.iter().any(|p| self.sets(name, *p))
    }

    /// Whether a semicolon is between two places.
    pub fn is_settled(&self, before: Place, after: Place) -> bool
        ensures { result ≡ spec.is_settled (item self.now) before after }
    {
        stands_between(self.tokens, b";", before.index, after.index)
    }

    /// Whether an action that ends before this place sets the name.
    pub fn is_set_before(&self, at: Place, name: &[u8]) -> bool
        ensures { result ≡ spec.is_set_before (item self.now) at name.now }
    {
        self.places.iter().any(|p| self.is_left(*p)
            && self.is_named(name, *p)
            && self.is_settled(*p, at))
    }

    /// Whether an action sets the name, which is no field of the context.
    pub fn is_action_name(&self, name: &[u8]) -> bool
        ensures { result ≡ spec.is_action_name (item self.now) name.now }
    {
        self.is_set(name) && !is_context_field(self.kind_of(name))
    }

    /// Whether an action that ends before this place does.
    pub fn is_action_name_before(&self, at: Place, name: &[u8]) -> bool
        ensures { result ≡ spec.is_action_name_before (item self.now) at name.now }
    {
        self.is_set_before(at, name) && !is_context_field(self.kind_of(name))
    }

    /// Whether the name is that of an operand: bare in the pattern, or an action's.
    pub fn is_operand(&self, name: &[u8]) -> bool
        ensures { result ≡ spec.is_operand (item self.now) name.now }
    {
        self.is_bare(name) || self.is_action_name(name)
    }

    // ---- sections

    /// Whether a place is a parameter of the macro.
    pub fn is_parameter_place(&self, place: Place) -> bool
        ensures { result ≡ spec.is_parameter_place (item self.now) place }
    {
        is_parameter_list(place.part)
            && self.is_word(place)
            && (has_before(self.tokens, place.index, 1, b"(")
                || has_before(self.tokens, place.index, 1, b","))
    }

    /// Whether it is the parameter of this name.
    pub fn has_parameter_name(&self, name: &[u8], place: Place) -> bool
        ensures { result ≡ spec.has_parameter_name (item self.now) name.now place }
    {
        self.is_parameter_place(place) && self.is_named(name, place)
    }

    pub fn is_parameter(&self, name: &[u8]) -> bool
        ensures { result ≡ spec.is_parameter (item self.now) name.now }
    {
        self.places
            .iter()
            .any(|p| self.has_parameter_name(name, *p))
    }

    /// Whether a statement begins at this place.
    pub fn begins_statement(&self, place: Place) -> bool
        ensures { result ≡ spec.begins_statement (item self.now) place }
    {
        begins_at(self.tokens, place.index)
    }

    /// Whether a place declares a local by its word or its size.
    pub fn is_declared(&self, place: Place) -> bool
        ensures { result ≡ spec.is_declared (item self.now) place }
    {
        is_section(place.part)
            && self.is_word(place)
            && (has_before(self.tokens, place.index, 1, b"local")
                || (self.begins_statement(place) && has_after(self.tokens, place.index, 1, b":")))
    }

    /// Whether a place is a name that a statement assigns.
    pub fn is_assigned(&self, place: Place) -> bool
        ensures { result ≡ spec.is_assigned (item self.now) place }
    {
        is_section(place.part)
            && self.is_word(place)
            && self.begins_statement(place)
            && has_after(self.tokens, place.index, 1, b"=")
    }

    /// Whether a place declares or assigns the name in a statement that ends before another one.
    fn makes_local(&self, place: Place, at: Place, name: &[u8]) -> bool
        ensures { result ≡ spec.makes_local (item self.now) at name.now place }
    {
        (self.is_declared(place) || self.is_assigned(place))
            && self.is_named(name, place)
            && self.is_settled(place, at)
    }

    /// Whether a statement that ends before this place declares or assigns the name.
    pub fn is_local_before(&self, at: Place, name: &[u8]) -> bool
        ensures { result ≡ spec.is_local_before (item self.now) at name.now }
    {
        self.places.iter().any(|p| self.makes_local(*p, at, name))
    }

    /// Whether a token names this register as that of the context.
    fn names_context(&self, name: &[u8], mention: Mention) -> bool
        ensures { result ≡ spec.names_context (item self.now) name.now mention }
    {
        is_context_role(mention.role) && has_here(self.tokens, mention.index, name)
    }

    /// Whether the name is that of the register of the context.
    pub fn is_context_register(&self, name: &[u8]) -> bool
        ensures { result ≡ spec.is_context_register (item self.now) name.now }
    {
        self.names.iter().any(|m| self.names_context(name, *m))
    }

    /// Whether the name stands for something in a section, at this place.
    pub fn stands_for(&self, at: Place, name: &[u8]) -> bool
        ensures { result ≡ spec.stands_for (item self.now) at name.now }
    {
        self.is_operand(name)
            || self.is_parameter(name)
            || is_address_name(name)
            || is_register(self.kind_of(name))
            || is_bit_range(self.kind_of(name))
            || self.is_local_before(at, name)
    }
}
