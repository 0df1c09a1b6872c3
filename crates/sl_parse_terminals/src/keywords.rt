//! The words that the grammar quotes, and the one that the language lacks, by their length.

ghost use Rattle.std.specs.Prelude.{◌≡◌};
ghost use Rattle.sl_ast.specs.Symbols.{keywords};
ghost use Rattle.sl_parse_terminals.specs.Lengths.{of_length};
ghost use Rattle.sl_parse_terminals.specs.Rows.{rows_of};

use sl_ast::symbols::Keyword;

static OF_2_BYTES: [(&[u8], Keyword); 2] = [(b"is", Keyword::Is), (b"if", Keyword::If)];

static OF_3_BYTES: [(&[u8], Keyword); 3] = [
    (b"big", Keyword::Big),
    (b"hex", Keyword::Hex),
    (b"dec", Keyword::Dec),
];

static OF_4_BYTES: [(&[u8], Keyword); 5] = [
    (b"type", Keyword::Type),
    (b"size", Keyword::Size),
    (b"with", Keyword::With),
    (b"goto", Keyword::Goto),
    (b"call", Keyword::Call),
];

static OF_5_BYTES: [(&[u8], Keyword); 6] = [
    (b"space", Keyword::Space),
    (b"token", Keyword::Token),
    (b"names", Keyword::Names),
    (b"macro", Keyword::Macro),
    (b"local", Keyword::Local),
    (b"build", Keyword::Build),
];

static OF_6_BYTES: [(&[u8], Keyword); 11] = [
    (b"define", Keyword::Define),
    (b"attach", Keyword::Attach),
    (b"endian", Keyword::Endian),
    (b"little", Keyword::Little),
    (b"offset", Keyword::Offset),
    (b"signed", Keyword::Signed),
    (b"noflow", Keyword::NoFlow),
    (b"values", Keyword::Values),
    (b"unimpl", Keyword::Unimpl),
    (b"return", Keyword::Return),
    (b"export", Keyword::Export),
];

static OF_7_BYTES: [(&[u8], Keyword); 3] = [
    (b"default", Keyword::Default),
    (b"pcodeop", Keyword::PcodeOp),
    (b"context", Keyword::Context),
];

static OF_8_BYTES: [(&[u8], Keyword); 2] = [
    (b"wordsize", Keyword::WordSize),
    (b"bitrange", Keyword::BitRange),
];

static OF_9_BYTES: [(&[u8], Keyword); 3] = [
    (b"alignment", Keyword::Alignment),
    (b"variables", Keyword::Variables),
    (b"globalset", Keyword::GlobalSet),
];

static OF_10_BYTES: [(&[u8], Keyword); 1] = [(b"inst_next2", Keyword::InstNext2)];

/// The keywords of `count` bytes, in the order of the definition.
pub fn keywords_of_length(count: usize) -> &'static [(&'static [u8], Keyword)]
    ensures { rows_of result.now ≡ of_length count keywords }
{
    match count {
        2 => &OF_2_BYTES,
        3 => &OF_3_BYTES,
        4 => &OF_4_BYTES,
        5 => &OF_5_BYTES,
        6 => &OF_6_BYTES,
        7 => &OF_7_BYTES,
        8 => &OF_8_BYTES,
        9 => &OF_9_BYTES,
        10 => &OF_10_BYTES,
        _ => &[],
    }
}
