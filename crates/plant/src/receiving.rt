// Receive adds an ASM1 vector to the sludge tank.
ghost use Rattle.std.specs.Prelude.{◌≡◌};
ghost use Rattle.plant.specs.Answer.{told};
ghost use Rattle.plant.specs.Calls.{step, told_for, ruled, receiving, receive};

use crate::answer::{Answer, Outcome, outcome_of};
use crate::record::{Plant, usable};
use refusals::{Refusal, unless};

// Refusals 15, 1, 3 and 10.
pub fn receive(plant: Plant, v: [u64; 13]) -> Outcome
    ensures outcome { result ≡ step plant (receiving v) }
    ensures tells { told result.answer ≡ told_for plant (receiving v) }
    ensures figures { result.plant.figures ≡ plant.figures }
{
    outcome_of(plant, received(plant, v))
}

// The same, or the first refusal that applies.
fn received(plant: Plant, v: [u64; 13]) -> Result<Outcome, Refusal>
    ensures { result ≡ ruled (receive plant v) }
{
    usable(plant)?;
    unless(vectors::is_within(v), Refusal::ColumnAbove)?;
    let sludge = vectors::sum_within(plant.sludge, v).ok_or(Refusal::TankAbove)?;
    Ok(Outcome {
        answer: Answer::Received,
        vector: [0; 13],
        plant: Plant { sludge, ..plant },
    })
}
