// The laws of this crate's definitions, as the contract of a function that does nothing: they are proved, or the crate is not.
ghost use Rattle.reading.specs.Names.{TablesLaw};
ghost use Rattle.reading.specs.Line.{OrderLaw, PreviewFormLaw};
ghost use Rattle.reading.specs.Examples.{ExamplesHold};

pub fn laws_hold()
    ensures tables { TablesLaw }
    ensures order { OrderLaw }
    ensures previews { PreviewFormLaw }
    ensures examples { ExamplesHold }
{}
