//! Laws of the definitions.

ghost use Rattle.sl_gap.specs.Laws.{HasOneReport, HasSomeReport};

/// A specification has one report at most.
pub fn report_is_one()
    ensures { HasOneReport }
{}

/// It can't be that a specification has no report.
pub fn some_report()
    ensures { HasSomeReport }
{}
