//! What calls of macros mean, which flat sections take in: as laws.
#![tactic(auto)]

ghost use Rattle.sl_meaning_calls.specs.Laws.{CallsAreSections, CallsAreTakenIn};
ghost use Rattle.sl_meaning_calls.specs.Laws.{CallsHaveNewLocals, JumpsGoToText};
ghost use Rattle.sl_meaning_calls.specs.Laws.{SectionsAreReadSo, TakenKeepLabels};

/// In a flat section a call of a macro is the steps that evaluate its arguments, and then the
/// macro's statements, in which a parameter stands for what its argument does.
pub fn calls_are_taken_in()
    ensures { CallsAreTakenIn }
{}

/// The macro's statements do what they do as a section of their own, with their own labels, and
/// then what follows the call is done.
pub fn calls_are_sections()
    ensures { CallsAreSections }
{}

/// A jump goes to what follows its label in the text of the section or macro in which it is
/// written, and into no call.
pub fn jumps_go_to_text()
    ensures { JumpsGoToText }
{}

/// The locals of a call are new ones: no statement before or after it has them.
pub fn calls_have_new_locals()
    ensures { CallsHaveNewLocals }
{}

/// Of the steps of a section, and of those of a macro's statements where it is called, these laws
/// can be said.
pub fn sections_are_read_so()
    ensures { SectionsAreReadSo }
{}

/// Where a text keeps rules 1 to 37, each of its macros has its labels once, and each to which it
/// jumps.
pub fn taken_keep_labels()
    ensures { TakenKeepLabels }
{}
