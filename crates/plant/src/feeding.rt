// Feed draws k thousandths of the sludge tank, converts them and adds them to the digester. Its draw, and that of return, of release
// and draw, and of recycle, are two lines in each: a function for all would take the tank, its rest and the record behind it, and be
// longer.
ghost use Rattle.std.specs.Prelude.{◌≡◌};
ghost use Rattle.plant.specs.Answer.{told};
ghost use Rattle.plant.specs.Calls.{step, told_for, ruled, feeding, feed};

use crate::answer::{Answer, Outcome, outcome_of};
use crate::record::{Plant, is_thousandths, usable};
use refusals::{Refusal, unless};

// Refusals 15, 1, 2, 4 and 10.
pub fn feed(plant: Plant, k: u64) -> Outcome
    ensures outcome { result ≡ step plant (feeding k) }
    ensures tells { told result.answer ≡ told_for plant (feeding k) }
    ensures figures { result.plant.figures ≡ plant.figures }
{
    outcome_of(plant, fed(plant, k))
}

// The same, or the first refusal that applies.
fn fed(plant: Plant, k: u64) -> Result<Outcome, Refusal>
    ensures { result ≡ ruled (feed plant k) }
{
    usable(plant)?;
    unless(is_thousandths(k), Refusal::NotThousandths)?;
    let drawn = vectors::drawn(plant.sludge, k);
    let o = interface::feed_of(plant.figures, drawn)?;
    let digester = vectors::sum_within(plant.digester, o.vector).ok_or(Refusal::TankAbove)?;
    let sludge = vectors::rest(plant.sludge, k);
    Ok(Outcome {
        answer: Answer::Fed {
            burnt: o.burnt,
            oxygen: o.oxygen,
            nitrate: o.nitrate,
            warn: o.warn,
        },
        vector: [0; 13],
        plant: Plant {
            sludge,
            digester,
            ..plant
        },
    })
}
