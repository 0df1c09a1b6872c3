//! What reading and writing owe each other, for numbers, names, texts and lists.

ghost use Rattle.sl_store_bytes.specs.Exact.{Exact, AreApart};
ghost use Rattle.sl_store_bytes.specs.Lexemes.{write_bytes};
ghost use Rattle.sl_store_bytes.specs.Lists.{AreEach, list_of, write_list};
ghost use Rattle.sl_store_bytes.specs.Numbers.{IsWithin, greatest, number, write_number};
ghost use Rattle.sl_store_bytes.specs.Words as words;

/// A number is read from the bytes that are written, in the fewest bytes, and from no others.
pub fn numbers_are_exact()
    ensures { Exact write_number (IsWithin 0 greatest) (number 0 greatest) }
{}

/// Each number has one spelling, and none is the beginning of another.
pub fn numbers_are_apart()
    ensures { AreApart write_number (IsWithin 0 greatest) }
{}

/// A name is read from the bytes that are written, and from no others.
pub fn names_are_exact()
    ensures { Exact write_bytes words.IsName words.name }
{}

/// Each name has one spelling, and none is the beginning of another.
pub fn names_are_apart()
    ensures { AreApart write_bytes words.IsName }
{}

/// A list of names is read from the bytes that are written, and from no others.
pub fn lists_are_exact()
    ensures { Exact (write_list write_bytes) (AreEach words.IsName) (list_of words.name) }
{}

/// Each list of names has one spelling, and none is the beginning of another.
pub fn lists_are_apart()
    ensures { AreApart (write_list write_bytes) (AreEach words.IsName) }
{}
