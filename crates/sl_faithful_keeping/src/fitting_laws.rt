//! Laws of the operations of instructions whose trees keep the rules.

ghost use Rattle.sl_faithful_keeping.specs.FittingLaws.{TreesAreTranslated, TreesFit};

/// In a tree whose nodes keep the rules names have the size of their readers, what they name lies
/// in its space, and operations have sizes that they take.
pub fn trees_fit()
    ensures { TreesFit }
{}

/// The operations of an instruction whose nodes keep the rules are a well-formed list, which does
/// what the instruction does.
#[tactic(auto, using(crate::proofs::Trees::trees_are_translated))]
pub fn trees_are_translated()
    ensures { TreesAreTranslated }
{}
