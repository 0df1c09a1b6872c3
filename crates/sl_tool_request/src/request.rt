//! Requests.

/// A field of the context register, by its name, and the value that it is given: -2^63 to 2^64 - 1.
#[derive(Clone, Copy, Debug)]
pub struct FieldValue<'a> {
    pub field: &'a str,
    pub value: i128,
}

/// The file of a specification, by its name.
#[derive(Clone, Copy, Debug)]
pub enum SpecFile<'a> {
    /// The main file of its text.
    Text(&'a str),
    /// A packed file.
    Packed(&'a str),
}

/// What is listed or run.
#[derive(Debug, Drop)]
pub struct Target<'a> {
    /// The file of the specification.
    pub spec: SpecFile<'a>,
    /// The file of the image.
    pub image: &'a str,
    /// The address of the image's first byte, in the default space.
    pub base: u64,
    /// Whether the image is hexadecimal text.
    pub is_hex: bool,
    /// The values of context fields, in the order of the words.
    pub context: Vec<FieldValue<'a>>,
}

/// What is assembled.
#[derive(Debug, Drop)]
pub struct Assembly<'a> {
    /// The file of the specification.
    pub spec: SpecFile<'a>,
    /// The instruction, as a listing shows it.
    pub text: &'a str,
    /// The address of the instruction, in the default space.
    pub base: u64,
    /// The values of context fields, in the order of the words.
    pub context: Vec<FieldValue<'a>>,
    /// Whether constructors may have actions.
    pub takes_actions: bool,
}

/// An edited listing whose image is made.
#[derive(Debug, Drop)]
pub struct Patch<'a> {
    /// The file of the specification.
    pub spec: SpecFile<'a>,
    /// The file of the listing, as `list` prints it, but for what was edited.
    pub listing: &'a str,
    /// The values of context fields, in the order of the words.
    pub context: Vec<FieldValue<'a>>,
    /// Whether constructors may have actions.
    pub takes_actions: bool,
}

/// What is asked for.
#[derive(Debug, Drop)]
pub enum Request<'a> {
    /// The specification of this file is checked, and a refusal is explained where that is asked for.
    Check(SpecFile<'a>, bool),
    /// The image is listed.
    List(Target<'a>),
    /// The image is listed with the p-code of its instructions.
    Pcode(Target<'a>),
    /// The image is run for at most this many steps.
    Run(Target<'a>, u64),
    /// A specification of this size is generated, 1 to 30,000, and compiled, listed and run.
    Gen(u64),
    /// What the specification of this file leaves unmatched is reported.
    Gaps(SpecFile<'a>),
    /// The specification with this main file is packed.
    Pack(&'a str),
    /// The bytes of an instruction are looked for.
    Asm(Assembly<'a>),
    /// The image of an edited listing is made.
    Patch(Patch<'a>),
}

/// What a command is given, before any value is read: its positional words, and the values of its
/// options.
#[derive(Debug, Drop)]
pub struct Arguments<'a> {
    pub words: Vec<&'a str>,
    pub base: Option<&'a str>,
    pub steps: Option<&'a str>,
    pub is_hex: bool,
    pub is_packed: bool,
    pub takes_actions: bool,
    pub by_lines: bool,
    pub explains: bool,
}
