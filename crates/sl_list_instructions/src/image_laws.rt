//! Laws of listings.

ghost use Rattle.sl_list_instructions.specs.ImageLaws.{ListingIsOne, SomeListing};

/// An image has one listing at most by a specification.
pub fn listing_is_one()
    ensures { ListingIsOne }
{}

/// It can't be that it has none, where the specification is sound.
pub fn some_listing()
    ensures { SomeListing }
{}
