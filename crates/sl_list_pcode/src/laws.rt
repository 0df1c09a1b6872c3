//! Laws of listings with operations.

ghost use Rattle.sl_list_pcode.specs.Laws.{ListingHasOperations, TextIsOne};

/// An operation has one text, whichever names of the tables it is printed with.
#[tactic(auto, using(crate::proofs::NameLemmas::text_is_one))]
pub fn text_is_one()
    ensures { TextIsOne }
{}

/// An image that has a listing by an accepted text has one with operations.
pub fn listing_has_operations()
    ensures { ListingHasOperations }
{}
