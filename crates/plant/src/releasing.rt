// Release and draw: k thousandths of the reject tank are handed out, to the works or to the host of a side-stream reactor.
ghost use Rattle.std.specs.Prelude.{◌≡◌};
ghost use Rattle.plant.specs.Answer.{told};
ghost use Rattle.plant.specs.Calls.{step, told_for, ruled, handed_out, releasing, drawing};

use crate::answer::{Answer, Outcome, outcome_of};
use crate::record::{Plant, is_thousandths, usable};
use refusals::{Refusal, unless};

// Refusals 15, 1 and 2.
pub fn release(plant: Plant, k: u64) -> Outcome
    ensures outcome { result ≡ step plant (releasing k) }
    ensures tells { told result.answer ≡ told_for plant (releasing k) }
    ensures figures { result.plant.figures ≡ plant.figures }
{
    outcome_of(plant, handed_out(plant, k, Answer::Released))
}

// The same, to the reactor's host.
pub fn draw(plant: Plant, k: u64) -> Outcome
    ensures outcome { result ≡ step plant (drawing k) }
    ensures tells { told result.answer ≡ told_for plant (drawing k) }
    ensures figures { result.plant.figures ≡ plant.figures }
{
    outcome_of(plant, handed_out(plant, k, Answer::Drawn))
}

// The outcome with this answer, or the first refusal that applies.
fn handed_out(plant: Plant, k: u64, answer: Answer) -> Result<Outcome, Refusal>
    ensures { result ≡ ruled (handed_out answer plant k) }
{
    usable(plant)?;
    unless(is_thousandths(k), Refusal::NotThousandths)?;
    let drawn = vectors::drawn(plant.reject, k);
    let reject = vectors::rest(plant.reject, k);
    Ok(Outcome {
        answer,
        vector: drawn,
        plant: Plant { reject, ..plant },
    })
}
