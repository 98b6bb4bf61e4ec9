// What is in the three tanks.
ghost use Rattle.std.specs.Prelude.{◌≡◌};
ghost use Rattle.plant.specs.Tanks.{cod_in, tkn_in, oxygen_in, nitrate_in};
ghost use Rattle.holding.specs.Held.{RecordBelow, held_of};

use plant::Plant;
use refusals::Refusal;
use vectors::{Milligrams, Ticks, Unit};

// COD, TKN, oxygen and nitrate of all three tanks.
#[derive(Clone, Copy)]
pub struct HeldTotals {
    pub cod: Milligrams,
    pub tkn: Ticks,
    pub oxygen: Milligrams,
    pub nitrate: Ticks,
}

// Refusals 15 and 1.
pub fn held(plant: Plant) -> Result<HeldTotals, Refusal>
    ensures { result ≡ held_of plant }
{
    plant::usable(plant)?;
    let tanks = Tanks { plant };
    Ok(HeldTotals {
        cod: tanks.cod(),
        tkn: tanks.tkn(),
        oxygen: tanks.oxygen(),
        nitrate: tanks.nitrate(),
    })
}

// A record of permitted figures within its ceilings, so that the sums fit.
#[derive(Clone, Copy)]
struct Tanks {
    plant: Plant,
    ghost low: { RecordBelow plant },
}

// Four totals, each of other columns and in its own unit.
impl Tanks {
    fn cod(self) -> Milligrams
        ensures { result.0 ≡ cod_in self.plant }
    {
        vectors::cod(self.plant.sludge)
            .plus(vectors::cod(self.plant.digester))
            .plus(vectors::cod(self.plant.reject))
    }

    fn tkn(self) -> Ticks
        ensures { result.0 ≡ tkn_in self.plant }
    {
        let f = self.plant.figures;
        vectors::tkn(f, self.plant.sludge)
            .plus(vectors::tkn(f, self.plant.digester))
            .plus(vectors::tkn(f, self.plant.reject))
    }

    // so of sludge and reject, and co of the digester.
    fn oxygen(self) -> Milligrams
        ensures { result.0 ≡ oxygen_in self.plant }
    {
        Milligrams(self.plant.sludge[7])
            .plus(Milligrams(self.plant.digester[24]))
            .plus(Milligrams(self.plant.reject[7]))
    }

    // sno of sludge and reject, and cn of the digester.
    fn nitrate(self) -> Ticks
        ensures { result.0 ≡ nitrate_in self.plant }
    {
        Ticks(self.plant.sludge[8])
            .plus(Ticks(self.plant.digester[25]))
            .plus(Ticks(self.plant.reject[8]))
    }
}
