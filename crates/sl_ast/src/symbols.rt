//! Symbols: what the grammar sees of a token.

/// A mark of the language (SLEIGH manual, "Basic Specification Layout" and the chapters on patterns and on
/// semantic sections).
#[derive(Clone, Copy, Debug, PartialEq, Eq)]
pub enum Mark {
    /// `...`
    Ellipsis,
    /// `$and`
    WordAnd,
    /// `$or`
    WordOr,
    /// `$xor`
    WordXor,
    /// `<<`
    ShiftLeft,
    /// `>>`
    ShiftRight,
    /// `<=`
    LessEqual,
    /// `>=`
    GreaterEqual,
    /// `==`
    EqualEqual,
    /// `!=`
    NotEqual,
    /// `&&`
    AndAnd,
    /// `||`
    BarBar,
    /// `^^`
    CaretCaret,
    /// `(`
    Open,
    /// `)`
    Close,
    /// `[`
    OpenBracket,
    /// `]`
    CloseBracket,
    /// `{`
    OpenBrace,
    /// `}`
    CloseBrace,
    /// `,`
    Comma,
    /// `;`
    Semicolon,
    /// `:`
    Colon,
    /// `=`
    Equals,
    /// `+`
    Plus,
    /// `-`
    Minus,
    /// `*`
    Star,
    /// `/`
    Slash,
    /// `%`
    Percent,
    /// `&`
    Ampersand,
    /// `|`
    Bar,
    /// `^`
    Caret,
    /// `~`
    Tilde,
    /// `!`
    Exclamation,
    /// `<`
    Less,
    /// `>`
    Greater,
    /// `s>>`
    SignedShiftRight,
    /// `s<=`
    SignedLessEqual,
    /// `s>=`
    SignedGreaterEqual,
    /// `s<`
    SignedLess,
    /// `s>`
    SignedGreater,
    /// `s/`
    SignedSlash,
    /// `s%`
    SignedPercent,
    /// `f+`, `f-`, `f*`, `f/`, `f==`, `f!=`, `f<`, `f<=`, `f>` or `f>=`
    Floating,
    /// Other bytes, which are no mark of the language.
    Unknown,
}

/// A word that the grammar quotes, so that it names nothing, or `inst_next2`, which the language lacks.
#[derive(Clone, Copy, Debug, PartialEq, Eq)]
pub enum Keyword {
    Define,
    Attach,
    Endian,
    Big,
    Little,
    Alignment,
    Space,
    Type,
    Size,
    WordSize,
    Default,
    BitRange,
    PcodeOp,
    Token,
    Context,
    Offset,
    Signed,
    Hex,
    Dec,
    NoFlow,
    Variables,
    Names,
    Values,
    Macro,
    With,
    Is,
    Unimpl,
    GlobalSet,
    Local,
    Goto,
    If,
    Call,
    Return,
    Build,
    Export,
    InstNext2,
}

/// A form of SLEIGH that this language leaves out, by its name.
#[derive(Clone, Copy, Debug, PartialEq, Eq)]
pub enum Feature {
    Crossbuild,
    DelaySlot,
    FloatingPoint,
    ConstantPool,
    NewObject,
    AddressOf,
    LeadingEllipsis,
    NameInConstraint,
    WordSize,
    InstNext2,
    WideValue,
}
