//! Laws of packing and unpacking.

ghost use Rattle.sl_store.specs.Kinds.{KindsAreLexemes};
ghost use Rattle.sl_store.specs.Laws.{AnswersAgree, AreOneToOne, EachHasAVerdict};

/// Specifications that may be packed and packed files are one to one, where a specification is told
/// by the names of its files, its places and its items.
pub fn are_one_to_one()
    ensures { AreOneToOne }
{}

/// Two answers of `unpack` on the same bytes are the same, unless memory runs out.
pub fn answers_agree()
    ensures { AnswersAgree }
{}

/// All bytes are a packed file, the beginning of one, damaged at a byte, or without the mark.
pub fn each_has_a_verdict()
    ensures { EachHasAVerdict }
{}

/// The words, texts and tokens of displays that a file may have are the lexer's lexemes of these
/// kinds.
pub fn kinds_are_lexemes()
    ensures { KindsAreLexemes }
{}
