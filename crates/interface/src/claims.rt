// The laws of this crate's definitions, as the contract of a function that does nothing: they are proved, or the crate is not.
ghost use Rattle.interface.specs.Laws.{BurntLaw, CoveredLaw, ShortLaw, InertsLaw, FeedLaw, ReturnLaw};
ghost use Rattle.interface.specs.Before.{AsBeforeLaw};
ghost use Rattle.interface.specs.Plants.{PlantsHold};

pub fn laws_hold()
    ensures burnt { BurntLaw }
    ensures covered { CoveredLaw }
    ensures short { ShortLaw }
    ensures inerts { InertsLaw }
    ensures before { AsBeforeLaw }
    ensures feed { FeedLaw }
    ensures back { ReturnLaw }
    ensures plants { PlantsHold }
{}
