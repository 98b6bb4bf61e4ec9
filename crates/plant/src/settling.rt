// Settle replaces the digester's contents by those that the host's solver proposes, where COD, TKN, oxygen and nitrate close.
ghost use Rattle.std.specs.Prelude.{◌≡◌, ◌&&◌, ◌+◌, eqb};
ghost use Rattle.std.specs.Result.{result_err};
ghost use Rattle.refusals.specs.Tests.{first};
ghost use Rattle.vectors.specs.Columns.{Below, digester_ceilings};
ghost use Rattle.vectors.specs.Figures.{Permitted};
ghost use Rattle.vectors.specs.Totals.{digester_oxygen, digester_nitrate};
ghost use Rattle.plant.specs.Answer.{told};
ghost use Rattle.plant.specs.Calls.{step, told_for, ruled, settling, settled_tests, settle};

use crate::answer::{Answer, Outcome, outcome_of};
use crate::record::{Plant, usable};
use refusals::{Refusal, unless};
use vectors::{Figures, Milligrams, Ticks, Unit};

// Refusals 15, 1, 3, 7, 8 and 9.
pub fn settle(plant: Plant, gas: Milligrams, d: [u64; 26]) -> Outcome
    ensures outcome { result ≡ step plant (settling gas d) }
    ensures tells { told result.answer ≡ told_for plant (settling gas d) }
    ensures figures { result.plant.figures ≡ plant.figures }
{
    outcome_of(plant, settled(plant, gas, d))
}

// The same, or the first refusal that applies.
fn settled(plant: Plant, gas: Milligrams, d: [u64; 26]) -> Result<Outcome, Refusal>
    ensures { result ≡ ruled (settle plant gas d) }
{
    usable(plant)?;
    unless(vectors::is_within(d), Refusal::ColumnAbove)?;
    closes(plant.figures, plant.digester, gas, d)?;
    Ok(Outcome {
        answer: Answer::Settled,
        vector: [0; 13],
        plant: Plant {
            digester: d,
            ..plant
        },
    })
}

// Refusals 7, 8 and 9, of d with its gas in the place of old. Both vectors are plain arrays and the figures any nine numbers, so that their
// bounds are asked for.
fn closes(f: Figures, old: [u64; 26], gas: Milligrams, d: [u64; 26]) -> Result<(), Refusal>
    requires { (Permitted f) × ((Below digester_ceilings old) × (Below digester_ceilings d)) }
    ensures { result_err result ≡ first (settled_tests f old gas d) }
{
    let cod = vectors::cod(old);
    unless(cod_closes(cod, vectors::cod(d), gas), Refusal::CodOpen)?;
    let tkn = vectors::tkn(f, old);
    let proposed = vectors::tkn(f, d);
    unless(tkn == proposed, Refusal::TknOpen)?;
    unless(carried_same(old, d), Refusal::CarriedOpen)
}

// Whether old = new + gas, over whole numbers.
fn cod_closes(old: Milligrams, new: Milligrams, gas: Milligrams) -> bool
    ensures { result ≡ eqb old.0 (new.0 + gas.0) }
{
    new <= old && old.less(new) == gas
}

// Whether oxygen and nitrate that are carried through are the same.
fn carried_same(old: [u64; 26], d: [u64; 26]) -> bool
    ensures { result ≡ (eqb (digester_oxygen old) (digester_oxygen d) && eqb (digester_nitrate old) (digester_nitrate d)) }
{
    Milligrams(old[24]) == Milligrams(d[24]) && Ticks(old[25]) == Ticks(d[25])
}
