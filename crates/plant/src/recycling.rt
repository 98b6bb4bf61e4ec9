// Recycle draws k thousandths of the reject tank and adds them to the sludge tank.
ghost use Rattle.std.specs.Prelude.{◌≡◌};
ghost use Rattle.plant.specs.Answer.{told};
ghost use Rattle.plant.specs.Calls.{step, told_for, ruled, recycling, recycle};

use crate::answer::{Answer, Outcome, outcome_of};
use crate::record::{Plant, is_thousandths, usable};
use refusals::{Refusal, unless};

// Refusals 15, 1, 2 and 10.
pub fn recycle(plant: Plant, k: u64) -> Outcome
    ensures outcome { result ≡ step plant (recycling k) }
    ensures tells { told result.answer ≡ told_for plant (recycling k) }
    ensures figures { result.plant.figures ≡ plant.figures }
{
    outcome_of(plant, recycled(plant, k))
}

// The same, or the first refusal that applies.
fn recycled(plant: Plant, k: u64) -> Result<Outcome, Refusal>
    ensures { result ≡ ruled (recycle plant k) }
{
    usable(plant)?;
    unless(is_thousandths(k), Refusal::NotThousandths)?;
    let drawn = vectors::drawn(plant.reject, k);
    let sludge = vectors::sum_within(plant.sludge, drawn).ok_or(Refusal::TankAbove)?;
    let reject = vectors::rest(plant.reject, k);
    Ok(Outcome {
        answer: Answer::Recycled,
        vector: [0; 13],
        plant: Plant {
            sludge,
            reject,
            ..plant
        },
    })
}
