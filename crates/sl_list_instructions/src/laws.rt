//! Laws of listings.

ghost use Rattle.sl_list_instructions.specs.Laws.{BeginsListing, ListingIsOne, SomeListing};

/// The listing of an image is one.
#[tactic(auto, using(crate::proofs::LawLemmas::listing_is_one))]
pub fn listing_is_one()
    ensures { ListingIsOne }
{}

/// There is one, where each instruction has a byte at least.
#[tactic(auto, using(crate::proofs::LawLemmas::some_listing))]
pub fn some_listing()
    ensures { SomeListing }
{}

/// What is written where the writing fails, or memory runs out, is a front of the listing.
#[tactic(auto, using(crate::proofs::LawLemmas::begins_listing))]
pub fn begins_listing()
    ensures { BeginsListing }
{}
