//! Why something is refused, and its words.

ghost use Rattle.std.specs.Prelude.{◌≡◌, ◌++◌, OnOk};
ghost use Rattle.sl_tool_stages.specs.Problems.{conflict_words, feature_words, words_of};

use crate::lines::{push_counted, push_place};
use crate::place::{Name, Place};
use sl_ast::symbols::Feature;
use sl_bind_compile::Apart;
use sl_cube::Point;
use std::alloc::AllocError;

/// Two constructors of a table of which neither is the more specific one: the table's name, where
/// the second is, the least point that shows it, and how the two differ.
#[derive(Debug, Drop)]
pub struct Conflict {
    /// The name of the table.
    pub table: Name,
    /// Where the second constructor is; the refusal itself has the place of the first.
    pub other: Place,
    /// The least point at which neither is the choice.
    pub both: Point,
    /// How the sets of the two differ.
    pub apart: Apart,
}

/// Why a specification, an image or a word is refused.
#[derive(Debug, Drop)]
pub enum Problem {
    /// There is no file of this name.
    NoFile,
    /// A file or the expanded text has more bytes than it may have, or an image
    /// more than there are addresses from its base on.
    TooLong,
    /// A file would be included at depth 17.
    IncludeDepth,
    /// A name that isn't defined is to be replaced or compared.
    UndefinedName,
    /// A name is to be replaced at the 17th level.
    ReplaceDepth,
    /// A directive is unknown or malformed.
    BadDirective,
    /// A conditional directive without its group, or a group that is left open.
    Unbalanced,
    /// No token begins with this byte.
    BadByte,
    /// A quote isn't closed in its line.
    OpenString,
    /// An integer above 2^64 - 1.
    WideInteger,
    /// No specification goes on with this token.
    Syntax,
    /// More operators and brackets, or more blocks inside one another, than the language has.
    Nesting,
    /// A form that the language leaves out.
    NotSupported(Feature),
    /// A rule of the language is broken, by its number.
    Rule(u8),
    /// No sizes fit the section of a constructor.
    SizeClash,
    /// Several sizes fit the section of a constructor.
    SizeUnfixed,
    /// What stands behind a pattern that may go on doesn't hold everywhere.
    InteriorEllipsis,
    /// The tokens of two joined patterns differ.
    TokensDiffer,
    /// A pattern holds of no point.
    Impossible,
    /// How many cubes a pattern may need, which is too many.
    TooManyCubes(u32),
    /// How many bytes there are up to the last one that a pattern looks at, which is too many.
    WindowTooLong(u32),
    /// Two constructors of a table that isn't settled.
    Ambiguous(Conflict),
    /// A packed file has not the mark at its front.
    NotPacked,
    /// A packed file ends too early.
    Cut,
    /// The first byte after which no packed file goes on, counted from 0.
    Damaged(u64),
    /// An image is to be hexadecimal text, and spells no bytes.
    BadHex,
    /// No field of the context has this name.
    NoContextField,
    /// The field of the context can't have the value that is given, or the default space not the
    /// address.
    ValueOutOfRange,
    /// A constructor has an action or a `globalset`, and none may have one.
    HasActions,
    /// The address is no multiple of the alignment.
    Misaligned,
    /// No bytes are shown as the text; in a listing, none as many as the line shows.
    NoEncoding,
    /// A line isn't of the form of a listing's lines.
    BadLine,
    /// The address of a line isn't that after the line before it, or its bytes lie past the last one.
    BadAddress,
    /// An edited line has bytes that aren't listed so beside those of the other lines.
    Undecided,
}

/// Appends the words of the form.
fn push_feature(out: &mut Vec<u8>, feature: Feature) -> Result<(), AllocError>
    ensures { OnOk result (out.new.items ≡ out.old.items ++ feature_words feature) }
{
    match feature {
        Feature::Crossbuild => out.extend_from_slice(b"crossbuild"),
        Feature::DelaySlot => out.extend_from_slice(b"delay slot"),
        Feature::FloatingPoint => out.extend_from_slice(b"floating point"),
        Feature::ConstantPool => out.extend_from_slice(b"constant pool"),
        Feature::NewObject => out.extend_from_slice(b"new object"),
        Feature::AddressOf => out.extend_from_slice(b"address of"),
        Feature::LeadingEllipsis => out.extend_from_slice(b"leading ellipsis"),
        Feature::NameInConstraint => out.extend_from_slice(b"name in constraint"),
        Feature::WordSize => out.extend_from_slice(b"word size"),
        Feature::InstNext2 => out.extend_from_slice(b"inst_next2"),
        Feature::WideValue => out.extend_from_slice(b"wide value"),
    }
}

/// Appends the table that isn't settled, and the place of the second constructor.
fn push_conflict(out: &mut Vec<u8>, conflict: &Conflict) -> Result<(), AllocError>
    ensures { OnOk result (out.new.items ≡ out.old.items ++ conflict_words conflict.now) }
{
    out.extend_from_slice(b"ambiguous in ")?;
    out.extend_from_slice(conflict.table.as_bytes())?;
    out.extend_from_slice(b" with ")?;
    push_place(out, &conflict.other)
}

/// Appends the words of the problem.
pub fn push_words(out: &mut Vec<u8>, problem: &Problem) -> Result<(), AllocError>
    ensures { OnOk result (out.new.items ≡ out.old.items ++ words_of problem.now) }
{
    match problem {
        Problem::NoFile => out.extend_from_slice(b"no such file"),
        Problem::TooLong => out.extend_from_slice(b"too long"),
        Problem::IncludeDepth => out.extend_from_slice(b"includes too deep"),
        Problem::UndefinedName => out.extend_from_slice(b"undefined name"),
        Problem::ReplaceDepth => out.extend_from_slice(b"replacement too deep"),
        Problem::BadDirective => out.extend_from_slice(b"bad directive"),
        Problem::Unbalanced => out.extend_from_slice(b"unbalanced condition"),
        Problem::BadByte => out.extend_from_slice(b"bad byte"),
        Problem::OpenString => out.extend_from_slice(b"open string"),
        Problem::WideInteger => out.extend_from_slice(b"wide integer"),
        Problem::Syntax => out.extend_from_slice(b"syntax error"),
        Problem::Nesting => out.extend_from_slice(b"nesting too deep"),
        Problem::NotSupported(feature) => {
            out.extend_from_slice(b"not supported: ")?;
            push_feature(out, *feature)
        }
        Problem::Rule(number) => push_counted(out, b"rule ", u64::from(*number)),
        Problem::SizeClash => out.extend_from_slice(b"size clash"),
        Problem::SizeUnfixed => out.extend_from_slice(b"size unfixed"),
        Problem::InteriorEllipsis => out.extend_from_slice(b"interior ellipsis"),
        Problem::TokensDiffer => out.extend_from_slice(b"tokens differ"),
        Problem::Impossible => out.extend_from_slice(b"impossible pattern"),
        Problem::TooManyCubes(count) => push_counted(out, b"too many cubes ", u64::from(*count)),
        Problem::WindowTooLong(count) => push_counted(out, b"window too long ", u64::from(*count)),
        Problem::Ambiguous(conflict) => push_conflict(out, conflict),
        Problem::NotPacked => out.extend_from_slice(b"not packed"),
        Problem::Cut => out.extend_from_slice(b"cut"),
        Problem::Damaged(at) => push_counted(out, b"damaged at ", *at),
        Problem::BadHex => out.extend_from_slice(b"bad hex"),
        Problem::NoContextField => out.extend_from_slice(b"no such context field"),
        Problem::ValueOutOfRange => out.extend_from_slice(b"value out of range"),
        Problem::HasActions => out.extend_from_slice(b"has actions"),
        Problem::Misaligned => out.extend_from_slice(b"misaligned"),
        Problem::NoEncoding => out.extend_from_slice(b"no encoding"),
        Problem::BadLine => out.extend_from_slice(b"bad line"),
        Problem::BadAddress => out.extend_from_slice(b"bad address"),
        Problem::Undecided => out.extend_from_slice(b"undecided"),
    }
}
