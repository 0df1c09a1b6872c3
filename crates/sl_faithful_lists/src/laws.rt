//! Laws of lists that are faithful to decoded instructions.

ghost use Rattle.sl_faithful_lists.specs.Laws.{NodesLeadToDefault, TranslationsAreFaithful};

/// The operations of an instruction lead to no other space than the default one, and call only user
/// operations that the sections of its nodes name.
#[tactic(auto, using(crate::proofs::Nodes::nodes_lead_to_default))]
pub fn nodes_lead_to_default()
    ensures { NodesLeadToDefault }
{}

/// Operations that are those of a decoded instruction, and a translation of it, are faithful to it
/// where sections name what there is.
#[tactic(auto, using(crate::proofs::Instructions::translations_are_faithful))]
pub fn translations_are_faithful()
    ensures { TranslationsAreFaithful }
{}
