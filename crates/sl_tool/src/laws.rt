//! Laws of the definitions.

ghost use Rattle.sl_tool.specs.Laws.{AcceptedAreAnswered, HasOneAnswer, HasSomeAnswer, IsComplete};
ghost use Rattle.sl_tool.specs.Laws.{AssembledIsListed, PackedIsAlike, PatchedIsListed};
ghost use Rattle.sl_tool.specs.SureLaws.{PrintedSureIsMatched};

/// A request has one answer at most, where the folder is told or it is a `gen`: an ending and a
/// text, or a refusal; but for the lists of operations that `pcode` prints, of which any may stand
/// that does what is meant, and for `asm`, which may take any shortest encoding.
pub fn one_answer()
    ensures { HasOneAnswer }
{}

/// It can't be that a request has no answer.
pub fn some_answer()
    ensures { HasSomeAnswer }
{}

/// Where what a request names is accepted, it surely has an answer that is no refusal, and no
/// other: it ends as done, or, where it runs an image, as done or as stopped.
pub fn accepted_are_answered()
    ensures { AcceptedAreAnswered }
{}

/// Where besides no count of faults rose, the whole call writes such an answer, or memory runs out.
pub fn complete()
    ensures { IsComplete }
{}

/// Of a sound specification, each request over the file that it packs into is answered as the same
/// over its text, where that file isn't too long.
pub fn packed_is_alike()
    ensures { PackedIsAlike }
{}

/// Where a call of `gaps` ends as done, and the last line of the text that it wrote is `sure`, no
/// decode by the specification ends for want of a constructor, whatever the bytes, the address and
/// the context.
pub fn printed_sure_is_matched()
    ensures { PrintedSureIsMatched }
{}

/// What `asm` prints of a text is what `list` prints of the bytes in it, at the base and in the
/// context that the words give.
pub fn assembled_is_listed()
    ensures { AssembledIsListed }
{}

/// What `asm` writes of an edited listing is an image of which `list` prints, in the context that the
/// words give, lines with the addresses, the numbers of bytes and the texts of the listing's lines.
pub fn patched_is_listed()
    ensures { PatchedIsListed }
{}
