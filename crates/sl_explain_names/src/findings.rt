//! What is wrong with a word.

use crate::names::Kind;

/// What is wrong with a word of an item.
#[derive(Clone, Copy)]
pub enum Finding {
    /// It is of a kind that isn't asked here.
    Is(Kind),
    /// It is of a kind that has no relation, and has one.
    HasRelation(Kind),
    /// It is of this kind, and no operand.
    NoOperand(Kind),
    /// It is declared as a local, and is of this kind.
    LocalIs(Kind),
    BareTwice,
    /// It is the 33rd operand.
    TooManyOperands,
    NamesItself,
    /// It is bare inside of `|`.
    IsBare,
    /// The constraint of the field divides by 0.
    DividesByZero,
    /// The pattern of the constructor that begins here may have no bytes.
    NoBytes,
    SetBefore,
    /// No action before sets it, but a later one.
    NotYetSet,
    /// It is `inst_next` where the instruction isn't decoded yet.
    NotYetKnown,
    /// It is an action's name.
    ActionName,
    /// It is on the right of a `;` whose left side has a table.
    BehindTable,
    /// It is a field that isn't in the pattern.
    NotInPattern,
    /// It is a field that isn't bare in the pattern.
    NotBare,
    /// It is a field of a token.
    OfToken,
    /// A parameter before has the same name.
    ParameterTwice,
    /// It is declared as a local, and is a parameter.
    LocalIsParameter,
    /// It is declared as a local, and is an action's name.
    LocalIsOperand,
    /// A local before has the same name.
    DeclaredTwice,
    Below(u64),
    Above(u64),
    /// It is no defined space.
    NoSpace,
    /// It stands for a number.
    Number,
    /// No label of the section has this name.
    NoLabel,
    LabelTwice,
    BuiltTwice,
    /// An export of a constructor of `instruction`.
    OfRoot,
    /// A statement is after the export.
    StatementAfter,
    /// A star form that is exported without its size.
    NoWrittenSize,
    /// It stands for no number.
    NoNumber,
    /// `build` or `export` in a macro.
    InMacro,
    Arguments {
        given: usize,
        taken: usize,
    },
    /// It is a number, or no name by itself; the macro that the token of the index `call` names and
    /// whose own name has the index `of` assigns the parameter before which there are so many.
    Assigned {
        is_name: bool,
        call: usize,
        of: usize,
        count: usize,
    },
    /// The first item of a text that doesn't begin with the byte order.
    FirstItem,
    SecondEndian,
    SecondAlignment,
    SecondContext,
    /// Another word of the item has the same name.
    Twice,
    /// The space whose definition begins at this index is `default`.
    DefaultIs(usize),
    /// The registers end at this byte of a space that ends at that one.
    PlacesPast {
        end: u64,
        space: u64,
    },
    /// The register of the bit range is of this kind.
    RangeOf(Kind),
    /// The bit range has no bits.
    HasNoBits,
    /// The bit range ends at this bit of a register with so many.
    BitsPast {
        end: u64,
        bits: u64,
    },
    /// It is no multiple of 8.
    NoMultiple,
    LowAbove,
    /// The field's high bit isn't below this number.
    HighNotBelow(u64),
    HasNoflow,
    HexAndDec,
    AttributeTwice,
    /// Something is attached to it before.
    AttachedBefore,
    /// A space without type.
    NoType,
    /// A space without size.
    NoSize,
    IsNoType,
    /// The attribute is there before.
    SecondAttribute,
    /// It has so many bytes, which are too many.
    SizeIs(u64),
    /// It has so many bytes, and the register at this index has another number.
    SizesDiffer {
        size: u64,
        first: usize,
        other: u64,
    },
    NoRegister,
    IsInteger,
    IsText,
    IsWord,
    /// It is a number past those that are attached.
    PastValues,
    /// So many members are attached to a field with so many values.
    ManyMembers {
        members: usize,
        values: u64,
    },
    NoMembers,
}
