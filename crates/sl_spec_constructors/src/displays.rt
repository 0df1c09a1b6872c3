//! What displays show: rule 16.

ghost use Rattle.std.specs.Prelude.{◌≡◌, ◌≤◌, drop, length, map};
ghost use Rattle.std.specs.List.{list_all};
ghost use Rattle.sl_ast.specs.Views.{piece_of};
ghost use Rattle.sl_spec_constructors.specs.ConstructorRules.{is_shown, shows_operands};
ghost use Rattle.sl_spec_constructors.specs.Displays.{behind, is_blank, is_caret, is_literal};
ghost use Rattle.sl_spec_constructors.specs.Displays.{shown};

use sl_ast::constructors::Shown;
use sl_spec::Tables;
use sl_spec_rules::NameSet;

/// Whether a piece is a blank.
pub fn is_blank(piece: &Shown) -> bool
    ensures { result ≡ is_blank (piece_of piece.now) }
{
    matches!(piece, Shown::Blank(_))
}

/// Whether a piece is a `^`.
fn is_caret(piece: &Shown) -> bool
    ensures { result ≡ is_caret (piece_of piece.now) }
{
    matches!(piece, Shown::Caret(_))
}

/// Whether a piece goes on a mnemonic.
pub fn is_literal(piece: &Shown) -> bool
    ensures { result ≡ is_literal (piece_of piece.now) }
{
    !(is_blank(piece) || is_caret(piece))
}

/// The index of the first piece that is no blank, or the number of pieces.
pub fn blanks(pieces: &[Shown]) -> usize
    ensures most { result ≤ length pieces.now }
    ensures rest { drop result (map piece_of pieces.now)
        ≡ behind is_blank (map piece_of pieces.now) }
{
    'pieces: for index in 0..pieces.len() {
        if !is_blank(&pieces[index]) {
            return index;
        }
    }
    pieces.len()
}

/// The index of the first blank or `^` from an index on.
fn literal_end(pieces: &[Shown], from: usize) -> usize
    requires { from ≤ length pieces.now }
    ensures most { result ≤ length pieces.now }
    ensures rest { drop result (map piece_of pieces.now)
        ≡ behind is_literal (drop from (map piece_of pieces.now)) }
{
    'pieces: for index in from..pieces.len() {
        if !is_literal(&pieces[index]) {
            return index;
        }
    }
    pieces.len()
}

/// The index of the first piece that is shown behind the mnemonic, where there is one.
fn shown_from(has_mnemonic: bool, pieces: &[Shown]) -> usize
    ensures most { result ≤ length pieces.now }
    ensures rest { drop result (map piece_of pieces.now)
        ≡ shown has_mnemonic (map piece_of pieces.now) }
{
    if has_mnemonic {
        literal_end(pieces, blanks(pieces))
    } else {
        0
    }
}

/// Whether a piece is no word, or that of an operand or a register.
#[tactic(auto, using(sl_spec_definitions::proofs::WordLemmas::word_again))]
fn is_shown(t: &Tables, names: &NameSet, piece: &Shown) -> bool
    ensures { result ≡ is_shown t.now.registers names.now (piece_of piece.now) }
{
    match piece {
        Shown::Word(word) => names.has(word) || t.registers.has(word),
        _ => true,
    }
}

fn all_shown(t: &Tables, names: &NameSet, pieces: &[Shown]) -> bool
    ensures { result
        ≡ list_all (λ p. is_shown t.now.registers names.now (piece_of p)) pieces.now }
{
    pieces.iter().all(|p| is_shown(t, names, p))
}

/// Rule 16: each display word after the mnemonic is an operand or a register.
#[tactic(auto, unfolding(crate::specs::ConstructorRules::shows_operands))]
pub fn shows_operands(t: &Tables, names: &NameSet, has_mnemonic: bool, display: &[Shown]) -> bool
    ensures { result
        ≡ shows_operands t.now names.now has_mnemonic (map piece_of display.now) }
{
    let from = shown_from(has_mnemonic, display);
    let (_, rest) = display.split_at(from);
    all_shown(t, names, rest)
}
