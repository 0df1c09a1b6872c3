//! Definitions and attached lists.

/// The byte order that is written.
#[derive(Clone, Copy, Debug, PartialEq, Eq)]
pub enum ByteOrder {
    Big,
    Little,
}

/// An attribute of a space (SLEIGH manual, "Space Definitions").
#[derive(Clone, Copy, Debug)]
pub enum SpaceAttribute<'a> {
    Type(&'a [u8]),
    Size(u64),
    WordSize(u64),
    Default,
}

/// `name = register[least bit, count]` (SLEIGH manual, "Bit Range Registers").
#[derive(Clone, Copy, Debug)]
pub struct BitRange<'a> {
    pub name: &'a [u8],
    pub register: &'a [u8],
    pub low: u64,
    pub count: u64,
}

#[derive(Clone, Copy, Debug, PartialEq, Eq)]
pub enum FieldAttribute {
    Signed,
    Hex,
    Dec,
    NoFlow,
}

/// `name = (low, high)` with attributes (SLEIGH manual, "Defining Tokens and Fields").
#[derive(Drop)]
pub struct Field<'a> {
    pub name: &'a [u8],
    pub low: u64,
    pub high: u64,
    pub attributes: Vec<FieldAttribute>,
}

/// One name, or a list of names in brackets.
#[derive(Drop)]
pub enum Names<'a> {
    One(&'a [u8]),
    List(Vec<&'a [u8]>),
}

/// What follows the word `define` (SLEIGH manual, "Basic Definitions" and "Tokens and Fields").
#[derive(Drop)]
pub enum Definition<'a> {
    Endian(ByteOrder),
    Alignment(u64),
    Space(&'a [u8], Vec<SpaceAttribute<'a>>),
    /// One bit range or more.
    BitRanges(BitRange<'a>, Vec<BitRange<'a>>),
    PcodeOps(Names<'a>),
    /// `token name (bits) endian=.. fields`, the byte order being optional.
    Token(&'a [u8], u64, Option<ByteOrder>, Vec<Field<'a>>),
    Context(&'a [u8], Vec<Field<'a>>),
    /// `space offset=n size=n names`
    Registers(&'a [u8], u64, u64, Names<'a>),
}

/// What is attached (SLEIGH manual, "Attaching Registers" and the sections after it).
#[derive(Clone, Copy, Debug, PartialEq, Eq)]
pub enum AttachKind {
    Variables,
    Names,
    Values,
}

/// A member of an attached list: any word, a text with its quotes, or an integer with or without a `-`.
#[derive(Clone, Copy, Debug)]
pub enum Member<'a> {
    Word(&'a [u8]),
    Text(&'a [u8]),
    Integer(u64),
    Negative(u64),
}
