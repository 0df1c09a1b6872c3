//! Laws of choices.

ghost use Rattle.sl_decode_choices.specs.Laws.{ChoiceIsOne, SomeChoice};

/// The choice of each table at each point is one.
pub fn choice_is_one()
    ensures { ChoiceIsOne }
{}

/// It can't be that sound tables have none.
pub fn some_choice()
    ensures { SomeChoice }
{}
