//! What the report's `sure` promises.

ghost use Rattle.sl_gap_sure.specs.Laws.{SureIsMatched};

/// Where each constructor is plain, the first table has no gap and there is no hole, no decode ends
/// for want of a constructor, whatever the bytes, the address and the context.
pub fn sure_is_matched()
    ensures { SureIsMatched }
{}
