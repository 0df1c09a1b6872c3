//! The marks of the language by their length.

ghost use Rattle.std.specs.Prelude.{◌≡◌, ◌≢◌, ◌∷◌, []};
ghost use Rattle.sl_parse_terminals.specs.Lengths.{of_length};
ghost use Rattle.sl_parse_terminals.specs.Marks.{mark_of, marks};
ghost use Rattle.sl_parse_terminals.specs.Rows.{rows_of};

use sl_ast::symbols::Mark;

static OF_2_BYTES: [(&[u8], Mark); 19] = [
    (b"<<", Mark::ShiftLeft),
    (b">>", Mark::ShiftRight),
    (b"<=", Mark::LessEqual),
    (b">=", Mark::GreaterEqual),
    (b"==", Mark::EqualEqual),
    (b"!=", Mark::NotEqual),
    (b"&&", Mark::AndAnd),
    (b"||", Mark::BarBar),
    (b"^^", Mark::CaretCaret),
    (b"s<", Mark::SignedLess),
    (b"s>", Mark::SignedGreater),
    (b"s/", Mark::SignedSlash),
    (b"s%", Mark::SignedPercent),
    (b"f+", Mark::Floating),
    (b"f-", Mark::Floating),
    (b"f*", Mark::Floating),
    (b"f/", Mark::Floating),
    (b"f<", Mark::Floating),
    (b"f>", Mark::Floating),
];

static OF_3_BYTES: [(&[u8], Mark); 9] = [
    (b"...", Mark::Ellipsis),
    (b"$or", Mark::WordOr),
    (b"s>>", Mark::SignedShiftRight),
    (b"s<=", Mark::SignedLessEqual),
    (b"s>=", Mark::SignedGreaterEqual),
    (b"f==", Mark::Floating),
    (b"f!=", Mark::Floating),
    (b"f<=", Mark::Floating),
    (b"f>=", Mark::Floating),
];

static OF_4_BYTES: [(&[u8], Mark); 2] = [(b"$and", Mark::WordAnd), (b"$xor", Mark::WordXor)];

/// The mark that is `byte` alone; `Unknown` where it is none of the language.
#[tactic(auto, unfolding(crate::specs::Marks::mark_of))]
pub fn mark_of_byte(byte: u8) -> Mark
    ensures { result ≡ mark_of (byte ∷ []) }
{
    match byte {
        b'(' => Mark::Open,
        b')' => Mark::Close,
        b'[' => Mark::OpenBracket,
        b']' => Mark::CloseBracket,
        b'{' => Mark::OpenBrace,
        b'}' => Mark::CloseBrace,
        b',' => Mark::Comma,
        b';' => Mark::Semicolon,
        b':' => Mark::Colon,
        b'=' => Mark::Equals,
        b'+' => Mark::Plus,
        b'-' => Mark::Minus,
        b'*' => Mark::Star,
        b'/' => Mark::Slash,
        b'%' => Mark::Percent,
        b'&' => Mark::Ampersand,
        b'|' => Mark::Bar,
        b'^' => Mark::Caret,
        b'~' => Mark::Tilde,
        b'!' => Mark::Exclamation,
        b'<' => Mark::Less,
        b'>' => Mark::Greater,
        _ => Mark::Unknown,
    }
}

/// The marks of `count` bytes, in the order of the definition, where `count` isn't 1.
pub fn marks_of_length(count: usize) -> &'static [(&'static [u8], Mark)]
    ensures { count ≢ 1 → rows_of result.now ≡ of_length count marks }
{
    match count {
        2 => &OF_2_BYTES,
        3 => &OF_3_BYTES,
        4 => &OF_4_BYTES,
        _ => &[],
    }
}
