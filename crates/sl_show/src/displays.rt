//! Templates of displays.

ghost use Rattle.std.specs.Prelude.{◌≡◌, ◌+◌, ◌<◌, ◌≤◌, ◌++◌, OnOk, IfOk};
ghost use Rattle.std.specs.Prelude.{drop, length, map};
ghost use Rattle.std.specs.List.{flat_map};
ghost use Rattle.sl_ast.specs.Views.{piece_of};
ghost use Rattle.sl_spec_constructors.specs.Displays.{behind, is_blank, is_literal};
ghost use Rattle.sl_spec_definitions.specs.Words.{unquoted};
ghost use Rattle.sl_decode_leaves.specs.Extents.{leaves_at};
ghost use Rattle.sl_show.specs.Pieces.{display_text, ends_blanks, front, literal_text};
ghost use Rattle.sl_show.specs.Pieces.{is_passed, piece_text_by, pieces_text};
ghost use Rattle.sl_show.specs.Templates.{made, parts_text};
ghost use Rattle.sl_show.specs.Texts.{Spot, operand_text, word_text};
ghost use Rattle.sl_spec.specs.declared.tables.Tables.{Tables as TablesOf};

use crate::templates::{Maker, Part, Template};
use sl_ast::constructors::Shown;
use sl_decode_leaves::{JoinedLeaves, bare, operand_named, slot_number};
use sl_spec::{Means, Operand};
use sl_spec_constructors::{blanks, is_blank, is_literal};
use std::alloc::{AllocError, Global};

// ---- pieces

/// The bytes of a quoted text between its quotes.
fn unquoted(text: &[u8]) -> &[u8]
    ensures { result.now ≡ unquoted text.now }
{
    match text {
        [_, inside @ .., _] => inside,
        _ => &[],
    }
}

/// Whether a blank before the piece of an index is shown with it.
fn ends_blanks(pieces: &[Shown], index: usize) -> bool
    ensures { result ≡ ends_blanks (drop index (map piece_of pieces.now)) }
{
    match pieces.get(index) {
        Some(piece) => is_blank(piece),
        None => true,
    }
}

// ---- operands

/// Adds the text of an operand of this name.
fn add_operand(
    alloc: Global,
    maker: &mut Maker,
    operands: &[Operand],
    leaves: &JoinedLeaves,
    name: &[u8],
    means: Means,
) -> Result<(), AllocError>
    ensures { OnOk result ((t : TablesOf) (s : Spot) → made t s maker.new ≡ made t s maker.old
        ++ operand_text t operands.now (leaves_at s.lengths leaves.now) s name.now means) }
{
    match means {
        Means::Field(id) => {
            let place = bare(leaves, name)?;
            maker.add(alloc, Part::Field(id, place))
        }
        Means::Table(_) => match slot_number(operands, name) {
            Some(number) => maker.add(alloc, Part::Table(number)),
            None => Ok(()),
        },
        Means::Action(number) => maker.add(alloc, Part::Action(number)),
    }
}

/// Adds what a word stands for.
fn add_word(
    alloc: Global,
    maker: &mut Maker,
    operands: &[Operand],
    leaves: &JoinedLeaves,
    word: &[u8],
) -> Result<(), AllocError>
    ensures { OnOk result ((t : TablesOf) (s : Spot) → made t s maker.new ≡ made t s maker.old
        ++ word_text t operands.now (leaves_at s.lengths leaves.now) s word.now) }
{
    match operand_named(operands, word) {
        Some(operand) => add_operand(alloc, maker, operands, leaves, word, operand.means),
        None => maker.add_text(word),
    }
}

// ---- displays

/// Adds a piece that isn't taken for an operand.
#[tactic(auto, using(sl_spec_definitions::proofs::WordLemmas::word_again))]
fn add_literal(maker: &mut Maker, piece: &Shown) -> Result<(), AllocError>
    ensures { OnOk result ((t : TablesOf) (s : Spot)
        → made t s maker.new ≡ made t s maker.old ++ literal_text (piece_of piece.now)) }
{
    match piece {
        Shown::Word(word) => maker.add_text(word),
        Shown::Text(text) => maker.add_text(unquoted(text)),
        Shown::Blank(_) => maker.add_text(b" "),
        Shown::Caret(_) => maker.add_text(b""),
        Shown::Char(text) => maker.add_text(text),
    }
}

/// Adds a piece.
#[tactic(auto, using(sl_spec_definitions::proofs::WordLemmas::word_again))]
fn add_piece(
    alloc: Global,
    maker: &mut Maker,
    operands: &[Operand],
    leaves: &JoinedLeaves,
    piece: &Shown,
) -> Result<(), AllocError>
    ensures { OnOk result ((t : TablesOf) (s : Spot) → made t s maker.new ≡ made t s maker.old
        ++ piece_text_by (word_text t operands.now (leaves_at s.lengths leaves.now) s)
        (piece_of piece.now)) }
{
    match piece {
        Shown::Word(word) => add_word(alloc, maker, operands, leaves, word),
        _ => add_literal(maker, piece),
    }
}

/// Whether the piece at an index is a blank that is shown with the next one, or isn't.
fn is_passed(display: &[Shown], index: usize) -> bool
    requires { index < length display.now }
    ensures { result ≡ is_passed (drop index (map piece_of display.now)) }
{
    is_blank(&display[index]) && ends_blanks(display, index + 1)
}

/// Adds the piece at an index, unless it is a blank before another one or before the end.
fn add_at(
    alloc: Global,
    maker: &mut Maker,
    operands: &[Operand],
    leaves: &JoinedLeaves,
    display: &[Shown],
    index: usize,
) -> Result<(), AllocError>
    requires { index < length display.now }
    ensures { OnOk result ((t : TablesOf) (s : Spot) → made t s maker.new
        ++ pieces_text (word_text t operands.now (leaves_at s.lengths leaves.now) s)
        (drop (index + 1) (map piece_of display.now))
        ≡ made t s maker.old
        ++ pieces_text (word_text t operands.now (leaves_at s.lengths leaves.now) s)
        (drop index (map piece_of display.now))) }
{
    if is_passed(display, index) {
        return Ok(());
    }
    add_piece(alloc, maker, operands, leaves, &display[index])?;
    Ok(())
}

/// Adds the pieces from an index on.
fn add_rest(
    alloc: Global,
    maker: &mut Maker,
    operands: &[Operand],
    leaves: &JoinedLeaves,
    display: &[Shown],
    from: usize,
) -> Result<(), AllocError>
    requires { from ≤ length display.now }
    ensures { OnOk result ((t : TablesOf) (s : Spot) → made t s maker.new ≡ made t s maker.old
        ++ pieces_text (word_text t operands.now (leaves_at s.lengths leaves.now) s)
        (drop from (map piece_of display.now))) }
{
    'pieces: for index in from..display.len() {
        add_at(alloc, maker, operands, leaves, display, index)?;
    }
    Ok(())
}

/// Adds the pieces from an index up to the first blank or `^`. The result is its index.
fn add_mnemonic(maker: &mut Maker, display: &[Shown], from: usize) -> Result<usize, AllocError>
    requires { from ≤ length display.now }
    ensures most { IfOk result (λ end. end ≤ length display.now) }
    ensures added { OnOk result ((t : TablesOf) (s : Spot) → made t s maker.new
        ≡ made t s maker.old
        ++ flat_map literal_text (front is_literal (drop from (map piece_of display.now)))) }
    ensures rest { IfOk result (λ end. drop end (map piece_of display.now)
        ≡ behind is_literal (drop from (map piece_of display.now))) }
{
    'pieces: for index in from..display.len() {
        if !is_literal(&display[index]) {
            return Ok(index);
        }
        add_literal(maker, &display[index])?;
    }
    Ok(display.len())
}

/// Adds a display.
#[tactic(auto, unfolding(crate::specs::Pieces::display_text))]
fn add_display(
    alloc: Global,
    maker: &mut Maker,
    operands: &[Operand],
    leaves: &JoinedLeaves,
    has_mnemonic: bool,
    display: &[Shown],
) -> Result<(), AllocError>
    ensures { OnOk result ((t : TablesOf) (s : Spot) → made t s maker.new ≡ made t s maker.old
        ++ display_text has_mnemonic
        (word_text t operands.now (leaves_at s.lengths leaves.now) s)
        (map piece_of display.now)) }
{
    let from = blanks(display);
    if has_mnemonic {
        let end = add_mnemonic(maker, display, from)?;
        add_rest(alloc, maker, operands, leaves, display, end)
    } else {
        add_rest(alloc, maker, operands, leaves, display, from)
    }
}

/// The template of a display, with a mnemonic or without; `leaves` are the names of the pattern with
/// their places.
pub(crate) fn template_of(
    alloc: Global,
    operands: &[Operand],
    leaves: &JoinedLeaves,
    has_mnemonic: bool,
    display: &[Shown],
) -> Result<Template, AllocError>
    ensures { IfOk result (λ template. (t : TablesOf) (s : Spot)
        → parts_text t s template.parts.items ≡ display_text has_mnemonic
        (word_text t operands.now (leaves_at s.lengths leaves.now) s)
        (map piece_of display.now)) }
{
    let mut maker = Maker::new(alloc);
    add_display(alloc, &mut maker, operands, leaves, has_mnemonic, display)?;
    let template = maker.end(alloc)?;
    Ok(template)
}
