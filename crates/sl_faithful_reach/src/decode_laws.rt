//! What bytes decide.

ghost use Rattle.sl_faithful_reach.specs.DecodeLaws.{BytesDecide, EntriesTell};

/// Bytes that are the same as far as the decode of an instruction looks decode to the same.
#[tactic(auto, using(crate::proofs::ReadLemmas::bytes_decide))]
pub fn bytes_decide()
    ensures { BytesDecide }
{}

/// Nodes in a row tell how far their decode looks.
#[tactic(auto, using(crate::proofs::EntryLemmas::entries_tell))]
pub fn entries_tell()
    ensures { EntriesTell }
{}
