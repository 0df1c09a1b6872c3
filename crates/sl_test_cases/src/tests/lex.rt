use sl_lex::TokKind::{Blank, Caret, Char, Integer, Mark, Text, Word};
use sl_lex::{TokKind, lex};
use std::test::Fail;

/// A text, and its tokens by kind and by length in bytes.
static READ: [(&[u8], &[(TokKind, usize)]); 14] = [
    (b"", &[]),
    (b" \t\r\n# $ \xff\n#", &[]),
    (
        b"define a.b 0x1F;",
        &[(Word, 6), (Word, 3), (Integer(31), 4), (Mark, 1)],
    ),
    (b"a....b..", &[(Word, 1), (Mark, 3), (Word, 4)]),
    (b"..... .", &[(Mark, 3), (Word, 2), (Word, 1)]),
    (
        b"12ab 0x 0b2",
        &[
            (Integer(12), 2),
            (Word, 2),
            (Integer(0), 1),
            (Word, 1),
            (Integer(0), 1),
            (Word, 2),
        ],
    ),
    (
        b"0b101 007 0xfF",
        &[(Integer(5), 5), (Integer(7), 3), (Integer(255), 4)],
    ),
    (
        b"18446744073709551615",
        &[(Integer(18_446_744_073_709_551_615), 20)],
    ),
    (
        b"attach names f \"a{\"",
        &[(Word, 6), (Word, 5), (Word, 1), (Text, 4)],
    ),
    (b"s>>1", &[(Word, 1), (Mark, 2), (Integer(1), 1)]),
    (
        b"macro s>> f<= ss< f == s/f",
        &[
            (Word, 5),
            (Mark, 3),
            (Mark, 3),
            (Word, 2),
            (Mark, 1),
            (Word, 1),
            (Mark, 2),
            (Mark, 2),
            (Word, 1),
        ],
    ),
    (
        b":a...^#\n\"b\"7 is a...$andb{s<}s<",
        &[
            (Mark, 1),
            (Word, 4),
            (Caret, 1),
            (Char, 1),
            (Blank, 1),
            (Text, 3),
            (Char, 1),
            (Blank, 1),
            (Word, 2),
            (Word, 1),
            (Mark, 3),
            (Mark, 4),
            (Word, 1),
            (Mark, 1),
            (Mark, 2),
            (Mark, 1),
            (Word, 1),
            (Mark, 1),
        ],
    ),
    (
        b":is unimpl:7",
        &[(Mark, 1), (Word, 2), (Word, 6), (Mark, 1), (Char, 1)],
    ),
    (
        b"with:7{:7",
        &[
            (Word, 4),
            (Mark, 1),
            (Integer(7), 1),
            (Mark, 1),
            (Mark, 1),
            (Char, 1),
        ],
    ),
];

#[test]
fn tokens_of_texts(rt: HostRuntime) -> Result<(), Fail> {
    for (text, tokens) in &READ {
        let toks = lex(rt.alloc(), text)?;
        assert_eq!(rt; toks.len(), tokens.len());
        for (tok, (kind, length)) in toks.iter().zip(tokens.iter()) {
            assert_eq!(rt; tok.kind, *kind);
            assert_eq!(rt; tok.text.len(), *length);
        }
    }
    Ok(())
}
