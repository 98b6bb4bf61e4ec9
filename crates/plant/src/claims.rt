// The laws of this crate's definitions, as the contract of a function that does nothing: they are proved, or the crate is not.
ghost use Rattle.plant.specs.Calls.{TellsLaw, ExactLaw, FiguresLaw};
ghost use Rattle.plant.specs.Record.{MadeLaw};
ghost use Rattle.plant.specs.Laws.{SameLaw};

pub fn laws_hold()
    ensures tells { TellsLaw }
    ensures exact { ExactLaw }
    ensures figures { FiguresLaw }
    ensures made { MadeLaw }
    ensures same { SameLaw }
{}
