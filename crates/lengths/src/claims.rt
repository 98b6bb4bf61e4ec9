// The laws of this crate's definitions, as the contract of a function that does nothing: they are proved, or the crate is not.
ghost use Rattle.lengths.specs.Lengths.{AloneLaw, AllLaw};

pub fn laws_hold()
    ensures alone { AloneLaw }
    ensures all { AllLaw }
{}
