//! The tables of a specification.

use crate::attachments::Attachments;
use crate::constructors::{Ctor, Macro, Table, UserOp};
use crate::definitions::{BitRange, Field, Register, Space, Token};
use crate::ids::RegId;
use crate::listed::Listed;
use crate::named::Named;
use sl_word::Endian;

/// What a specification defines, each list in the order of the text. Contracts see it as it stands
/// here: lists are lists, names their bytes, and numbers of members numbers.
#[derive(Drop)]
pub struct Tables<'a> {
    pub endian: Endian,
    /// In bytes.
    pub alignment: u8,
    pub spaces: Named<'a, Space<'a>>,
    pub registers: Named<'a, Register<'a>>,
    pub bitranges: Named<'a, BitRange<'a>>,
    pub tokens: Named<'a, Token<'a>>,
    pub fields: Named<'a, Field<'a>>,
    /// The register whose bits the context's fields are.
    pub context: Option<RegId>,
    pub attached: Attachments<'a>,
    /// `instruction` stands first.
    pub tables: Named<'a, Table<'a>>,
    pub constructors: Listed<Ctor<'a>>,
    pub macros: Named<'a, Macro<'a>>,
    pub userops: Named<'a, UserOp<'a>>,
}
