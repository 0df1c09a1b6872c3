//! Laws of whole listings with operations.

ghost use Rattle.sl_list_pcode.specs.WholeLaws.{BegunGoOn, SomePcodeListing};

/// What a listing says for some first positions is a front of a whole one.
pub fn begun_go_on()
    ensures { BegunGoOn }
{}

/// It can't be that an image has no listing, where each name of the text is UTF-8.
pub fn some_pcode_listing()
    ensures { SomePcodeListing }
{}
