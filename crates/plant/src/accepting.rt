// Accept adds what comes from the side-stream reactor to the sludge tank: an ASM1 vector, and of its nitrite what stands for nitrate.
ghost use Rattle.std.specs.Prelude.{true, ◌≡◌, ◌≤◌};
ghost use Rattle.plant.specs.Answer.{told};
ghost use Rattle.plant.specs.Nitrite.{nitrite_ceiling, acceptable, with_nitrite, n2_of};
ghost use Rattle.plant.specs.Calls.{step, told_for, ruled, accepting, accept};

use crate::answer::{Answer, Outcome, outcome_of};
use crate::record::{Plant, usable};
use refusals::{Refusal, unless};
use vectors::{TICK_CEILING, Ticks};

// Refusals 15, 1, 3 and 10.
pub fn accept(plant: Plant, v: [u64; 13], n: Ticks) -> Outcome
    ensures outcome { result ≡ step plant (accepting v n) }
    ensures tells { told result.answer ≡ told_for plant (accepting v n) }
    ensures figures { result.plant.figures ≡ plant.figures }
{
    outcome_of(plant, accepted(plant, v, n))
}

// The same, or the first refusal that applies.
fn accepted(plant: Plant, v: [u64; 13], n: Ticks) -> Result<Outcome, Refusal>
    ensures { result ≡ ruled (accept plant v n) }
{
    usable(plant)?;
    unless(is_acceptable(v, n), Refusal::ColumnAbove)?;
    let handed = with_nitrite(v, n);
    let sludge = vectors::sum_within(plant.sludge, handed).ok_or(Refusal::TankAbove)?;
    Ok(Outcome {
        answer: Answer::Accepted { n2: n2_of(n) },
        vector: [0; 13],
        plant: Plant { sludge, ..plant },
    })
}

// Whether neither a column nor the nitrite is above its ceiling: refusal 3 where one is.
fn is_acceptable(v: [u64; 13], n: Ticks) -> bool
    ensures { result ≡ acceptable v n }
{
    vectors::is_within(v) && n.0 <= TICK_CEILING
}

// What goes into the tank: three fifths of the nitrite are in sno.
fn with_nitrite(v: [u64; 13], n: Ticks) -> [u64; 13]
    requires { acceptable v n ≡ true }
    ensures { result ≡ with_nitrite v n }
{
    let mut handed = v;
    handed[8] += 3 * n.0 / 5;
    handed
}

// What leaves as N2.
fn n2_of(n: Ticks) -> Ticks
    requires { n.0 ≤ nitrite_ceiling }
    ensures { result ≡ n2_of n }
{
    Ticks(n.0 - 3 * n.0 / 5)
}
