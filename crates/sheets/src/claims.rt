// The laws of this crate's definitions, as the contract of a function that does nothing: they are proved, or the crate is not.
ghost use Rattle.sheets.specs.Sheet.{CountsWithinLaw, SheetTestsLaw, SheetRefusedLaw, SheetAddsLaw};
ghost use Rattle.sheets.specs.Examples.{ExamplesHold};

pub fn laws_hold()
    ensures within { CountsWithinLaw }
    ensures tests { SheetTestsLaw }
    ensures refused { SheetRefusedLaw }
    ensures adds { SheetAddsLaw }
    ensures examples { ExamplesHold }
{}
