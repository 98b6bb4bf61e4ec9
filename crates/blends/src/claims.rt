// The laws of this crate's definitions, as the contract of a function that does nothing: they are proved, or the crate is not.
ghost use Rattle.blends.specs.Laws.{OrderLaw, ColumnLaw, DrawsLaw, ReceivesLaw, KeptLaw};

pub fn laws_hold()
    ensures order { OrderLaw }
    ensures columns { ColumnLaw }
    ensures draws { DrawsLaw }
    ensures receives { ReceivesLaw }
    ensures kept { KeptLaw }
{}
