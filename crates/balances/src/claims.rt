// The laws of this crate's definitions, as the contract of a function that does nothing: they are proved, or the crate is not.
ghost use Rattle.balances.specs.Balance.{BalanceLaw, StayLaw, RecycleLaw, MovesLaw, SkipLaw, SheetLaw, BlendLaw};

pub fn laws_hold()
    ensures balances { BalanceLaw }
    ensures figures { StayLaw }
    ensures recycles { RecycleLaw }
    ensures moves { MovesLaw }
    ensures previews { SkipLaw }
    ensures sheets { SheetLaw }
    ensures blends { BlendLaw }
{}
