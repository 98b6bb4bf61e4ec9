// The laws of this crate's definitions, as the contract of a function that does nothing: they are proved, or the crate is not.
ghost use Rattle.composing.specs.Line.{TextReadLaw, TextGivesLaw, TextOnlyLaw, TextNoZeroLaw, TextLengthLaw, TextLineLaw};
ghost use Rattle.composing.specs.Examples.{ExamplesHold};

pub fn laws_hold()
    ensures read { TextReadLaw }
    ensures gives { TextGivesLaw }
    ensures only { TextOnlyLaw }
    ensures no_zero { TextNoZeroLaw }
    ensures length { TextLengthLaw }
    ensures one_line { TextLineLaw }
    ensures examples { ExamplesHold }
{}
