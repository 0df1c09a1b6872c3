//! The items of a specification.

use crate::constructors::{Constructor, Head, Inner, Macro};
use crate::definitions::{AttachKind, Definition, Member, Names};

/// An item of a specification. Attached lists with brackets and single members are told apart.
#[derive(Drop)]
pub enum ItemKind<'a> {
    Define(Definition<'a>),
    AttachList(AttachKind, Names<'a>, Vec<Member<'a>>),
    AttachOne(AttachKind, Names<'a>, Member<'a>),
    Macro(Macro<'a>),
    Constructor(Constructor<'a>),
    With(Head<'a>, Vec<Inner<'a>>),
}

/// An item, with the index of its first token in the token list.
#[derive(Drop)]
pub struct Item<'a> {
    pub first: usize,
    pub kind: ItemKind<'a>,
}

/// A specification.
#[derive(Drop)]
pub struct Spec<'a> {
    pub items: Vec<Item<'a>>,
}
