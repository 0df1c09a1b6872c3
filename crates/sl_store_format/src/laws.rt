//! Laws of packed specifications.

ghost use Rattle.sl_store_format.specs.Cases.{WorkedCases};
ghost use Rattle.sl_store_format.specs.Laws.{ConditionsAreExact, ItemsHaveNoFault, PlacesTellTheValue, VerdictsExcludeEachOther};
ghost use Rattle.sl_store_format.specs.Packed.{IsPackable, pack, write_written, written_here};
ghost use Rattle.sl_store_bytes.specs.Exact.{AreApart, Exact};

/// The reader takes the bytes of each packable value and no others, and what it takes, where it refuses and
/// what it can still complete depends on no byte that follows.
pub fn files_are_exact()
    ensures { Exact write_written IsPackable written_here }
{}

/// Each packable value has one spelling, and none is the beginning of another.
pub fn files_are_apart()
    ensures { AreApart pack IsPackable }
{}

/// Bytes are a packed file, the beginning of one, or damaged at one place, and never two of these.
pub fn verdicts_exclude_each_other()
    ensures { VerdictsExcludeEachOther }
{}

/// The files' names, the places and the items say which value it is.
pub fn places_tell_the_value()
    ensures { PlacesTellTheValue }
{}

/// The items of what may be packed are those of a specification without a fault.
pub fn items_have_no_fault()
    ensures { ItemsHaveNoFault }
{}

/// What may be packed, told with the places in a list of their own: the items are those of a specification
/// without a fault, names, texts and numbers are such, there are as many places as items, and each is in one
/// of the files.
pub fn conditions_are_exact()
    ensures { ConditionsAreExact }
{}

/// Worked cases, reckoned by the definition.
pub fn worked_cases()
    ensures { WorkedCases }
{}
