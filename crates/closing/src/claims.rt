// The laws of this crate's definitions, as the contract of a function that does nothing: they are proved, or the crate is not.
ghost use Rattle.closing.specs.Closing.{CloseLaw, NoneLaw, OnlyLaw, GapLaw};

pub fn laws_hold()
    ensures close { CloseLaw }
    ensures none { NoneLaw }
    ensures only { OnlyLaw }
    ensures gap { GapLaw }
{}
