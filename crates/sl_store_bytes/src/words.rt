//! The kinds of lexemes.

ghost use Rattle.std.specs.Prelude.{◌≡◌};
ghost use Rattle.sl_ast.specs.Operators.{missing_function};
ghost use Rattle.sl_store_bytes.specs.Words as words;

use crate::lexemes::Lexeme;
use sl_ast::symbols::{Feature, Keyword};
use sl_parse_terminals::{find_row, keyword};

/// The functions that the language leaves out.
static MISSING_FUNCTIONS: [(&[u8], Feature); 11] = [
    (b"nan", Feature::FloatingPoint),
    (b"abs", Feature::FloatingPoint),
    (b"sqrt", Feature::FloatingPoint),
    (b"int2float", Feature::FloatingPoint),
    (b"float2float", Feature::FloatingPoint),
    (b"trunc", Feature::FloatingPoint),
    (b"ceil", Feature::FloatingPoint),
    (b"floor", Feature::FloatingPoint),
    (b"round", Feature::FloatingPoint),
    (b"cpool", Feature::ConstantPool),
    (b"newobject", Feature::NewObject),
];

/// The words of statements that the language leaves out.
static MISSING_STATEMENTS: [(&[u8], Feature); 2] = [
    (b"crossbuild", Feature::Crossbuild),
    (b"delayslot", Feature::DelaySlot),
];

fn begins_word(byte: u8) -> bool
    ensures { result ≡ words.begins_word byte }
{
    matches!(byte, b'A'..=b'Z' | b'a'..=b'z' | b'_' | b'.')
}

fn is_word_byte(byte: u8) -> bool
    ensures { result ≡ words.is_word_byte byte }
{
    begins_word(byte) || matches!(byte, b'0'..=b'9')
}

/// Whether two dots are at the end.
fn two_dots(before: &[u8]) -> bool
    ensures { result ≡ words.two_dots before.now }
{
    let count = before.len();
    count >= 2 && before[count - 1] == b'.' && before[count - 2] == b'.'
}

/// Whether the byte may be in a word after these.
fn goes_on(before: &[u8], byte: u8) -> bool
    ensures { result ≡ words.goes_on before.now byte }
{
    if before.is_empty() {
        begins_word(byte)
    } else {
        is_word_byte(byte)
    }
}

/// Whether the byte is no third dot in a row.
fn is_no_dot(before: &[u8], byte: u8) -> bool
    ensures { result ≡ words.is_no_dot before.now byte }
{
    !two_dots(before) || byte != b'.'
}

fn is_name(word: &[u8]) -> bool
    ensures { result ≡ words.is_name word.now }
{
    keyword(word).is_none()
}

/// The feature that the function belongs to, if the language leaves it out.
#[tactic(auto, unfolding(sl_ast::specs::Operators::missing_function))]
fn missing_function(word: &[u8]) -> Option<Feature>
    ensures { result ≡ missing_function word.now }
{
    find_row(&MISSING_FUNCTIONS, word)
}

fn is_function(word: &[u8]) -> bool
    ensures { result ≡ words.is_none (missing_function word.now) }
{
    missing_function(word).is_none()
}

#[tactic(auto, unfolding(sl_ast::specs::Operators::missing_statement))]
fn is_first(word: &[u8]) -> bool
    ensures { result ≡ words.is_first word.now }
{
    is_name(word) && find_row(&MISSING_STATEMENTS, word).is_none()
}

fn is_member(word: &[u8]) -> bool
    ensures { result ≡ words.is_member word.now }
{
    !matches!(keyword(word), Some(Keyword::InstNext2))
}

fn is_shown(word: &[u8]) -> bool
    ensures { result ≡ words.is_shown word.now }
{
    !matches!(keyword(word), Some(Keyword::Is))
}

/// A word that the grammar doesn't quote.
pub struct NameBytes;

impl Lexeme for NameBytes {
    ghost use Rattle.sl_store_bytes.specs.Words.{word_follow, is_name};

    ghost follow = { word_follow is_name };

    #[tactic(auto, unfolding(crate::specs::Words::whole_follow))]
    fn may_follow(left: u64, before: &[u8], byte: u8, word: &[u8]) -> bool {
        goes_on(before, byte) && is_no_dot(before, byte) && (left != 0 || is_name(word))
    }
}

/// A name that may begin a statement.
pub struct FirstBytes;

impl Lexeme for FirstBytes {
    ghost use Rattle.sl_store_bytes.specs.Words.{word_follow, is_first};

    ghost follow = { word_follow is_first };

    #[tactic(auto, unfolding(crate::specs::Words::whole_follow))]
    fn may_follow(left: u64, before: &[u8], byte: u8, word: &[u8]) -> bool {
        goes_on(before, byte) && is_no_dot(before, byte) && (left != 0 || is_first(word))
    }
}

/// A name of a function in an expression.
pub struct CalledBytes;

impl Lexeme for CalledBytes {
    ghost use Rattle.sl_store_bytes.specs.Words.{word_follow, is_called};

    ghost follow = { word_follow is_called };

    #[tactic(auto, unfolding(crate::specs::Words::whole_follow))]
    fn may_follow(left: u64, before: &[u8], byte: u8, word: &[u8]) -> bool {
        goes_on(before, byte)
            && is_no_dot(before, byte)
            && (left != 0 || is_name(word) && is_function(word))
    }
}

/// A name that may begin a statement that is a call.
pub struct InvokedBytes;

impl Lexeme for InvokedBytes {
    ghost use Rattle.sl_store_bytes.specs.Words.{word_follow, is_invoked};

    ghost follow = { word_follow is_invoked };

    #[tactic(auto, unfolding(crate::specs::Words::whole_follow))]
    fn may_follow(left: u64, before: &[u8], byte: u8, word: &[u8]) -> bool {
        goes_on(before, byte)
            && is_no_dot(before, byte)
            && (left != 0 || is_first(word) && is_function(word))
    }
}

/// Any word of an attached list.
pub struct MemberBytes;

impl Lexeme for MemberBytes {
    ghost use Rattle.sl_store_bytes.specs.Words.{word_follow, is_member};

    ghost follow = { word_follow is_member };

    #[tactic(auto, unfolding(crate::specs::Words::whole_follow))]
    fn may_follow(left: u64, before: &[u8], byte: u8, word: &[u8]) -> bool {
        goes_on(before, byte) && is_no_dot(before, byte) && (left != 0 || is_member(word))
    }
}

/// Any word of a display.
pub struct ShownBytes;

impl Lexeme for ShownBytes {
    ghost use Rattle.sl_store_bytes.specs.Words.{shown_follow, is_shown};

    ghost follow = { shown_follow is_shown };

    #[tactic(auto, unfolding(crate::specs::Words::whole_follow))]
    fn may_follow(left: u64, before: &[u8], byte: u8, word: &[u8]) -> bool {
        goes_on(before, byte) && (left != 0 || is_shown(word))
    }
}

/// A text with its quotes.
pub struct TextBytes;

impl Lexeme for TextBytes {
    ghost use Rattle.sl_store_bytes.specs.Words.{text_follow};

    ghost follow = { text_follow };

    #[tactic(auto, unfolding(crate::specs::Words::text_follow))]
    fn may_follow(left: u64, before: &[u8], byte: u8, _word: &[u8]) -> bool {
        if before.is_empty() || left == 0 {
            byte == b'"'
        } else {
            matches!(byte, b' '..=b'~') && byte != b'"'
        }
    }
}

/// Blanks of a display.
pub struct BlankBytes;

impl Lexeme for BlankBytes {
    ghost use Rattle.sl_store_bytes.specs.Words.{blank_follow};

    ghost follow = { blank_follow };

    #[tactic(auto, unfolding(crate::specs::Words::blank_follow))]
    fn may_follow(_left: u64, _before: &[u8], byte: u8, _word: &[u8]) -> bool {
        matches!(byte, b' ' | b'\t' | b'\r' | b'\n')
    }
}

/// `^` of a display.
pub struct CaretBytes;

impl Lexeme for CaretBytes {
    ghost use Rattle.sl_store_bytes.specs.Words.{caret_follow};

    ghost follow = { caret_follow };

    #[tactic(auto, unfolding(crate::specs::Words::caret_follow))]
    fn may_follow(_left: u64, _before: &[u8], byte: u8, _word: &[u8]) -> bool {
        byte == b'^'
    }
}

/// Another byte of a display.
pub struct CharBytes;

impl Lexeme for CharBytes {
    ghost use Rattle.sl_store_bytes.specs.Words.{char_follow};

    ghost follow = { char_follow };

    #[tactic(auto, unfolding(crate::specs::Words::char_follow))]
    fn may_follow(_left: u64, _before: &[u8], byte: u8, _word: &[u8]) -> bool {
        matches!(byte, b'!'..=b'~') && byte != b'"' && byte != b'^' && !begins_word(byte)
    }
}
