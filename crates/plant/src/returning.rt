// Return draws k thousandths of the digester, converts them and adds them to the reject tank.
ghost use Rattle.std.specs.Prelude.{◌≡◌};
ghost use Rattle.plant.specs.Answer.{told};
ghost use Rattle.plant.specs.Calls.{step, told_for, ruled, returning, give_back};

use crate::answer::{Answer, Outcome, outcome_of};
use crate::record::{Plant, is_thousandths, usable};
use refusals::{Refusal, unless};

// Document 01's return, whose word the language keeps. Refusals 15, 1, 2, 5 and 10.
pub fn give_back(plant: Plant, k: u64) -> Outcome
    ensures outcome { result ≡ step plant (returning k) }
    ensures tells { told result.answer ≡ told_for plant (returning k) }
    ensures figures { result.plant.figures ≡ plant.figures }
{
    outcome_of(plant, given_back(plant, k))
}

// The same, or the first refusal that applies.
fn given_back(plant: Plant, k: u64) -> Result<Outcome, Refusal>
    ensures { result ≡ ruled (give_back plant k) }
{
    usable(plant)?;
    unless(is_thousandths(k), Refusal::NotThousandths)?;
    let drawn = vectors::drawn(plant.digester, k);
    let o = interface::return_of(plant.figures, drawn)?;
    let reject = vectors::sum_within(plant.reject, o.vector).ok_or(Refusal::TankAbove)?;
    let digester = vectors::rest(plant.digester, k);
    Ok(Outcome {
        answer: Answer::Returned {
            stripped: o.stripped,
        },
        vector: [0; 13],
        plant: Plant {
            digester,
            reject,
            ..plant
        },
    })
}
