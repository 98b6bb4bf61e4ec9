// The call: all draws are added to the sludge tank and taken from the loads.
ghost use Rattle.std.specs.Prelude.{◌≡◌, ◌*◌, true, length, cond, Some, None};
ghost use Rattle.std.specs.List.{list_all, zip};
ghost use Rattle.vectors.specs.Columns.{asm1_ceilings, within, added};
ghost use Rattle.plant.specs.Record.{thousandths};
ghost use Rattle.refusals.specs.Tests.{first, decide};
ghost use Rattle.blends.specs.Blend.{loads_of, are_loads, each_within, draws, rests, blend_tests, blend, loads_left};

use plant::{Plant, is_thousandths, usable};
use refusals::{Refusal, unless};

// Refusals 15, 1, 16, 2, 3 and 10. Thirteen columns stand in `loads` for each number of `ks`; where it refuses, they stay as they are.
pub fn blend(plant: Plant, loads: &mut [u64], ks: &[u64]) -> Result<Plant, Refusal>
    ensures outcome { result ≡ blend plant loads.old ks.now }
    ensures loads { loads.new ≡ loads_left plant loads.old ks.now }
{
    let sludge = blended(plant, loads, ks)?;
    draw_off(loads, ks);
    Ok(Plant { sludge, ..plant })
}

// The sludge tank with all draws in it, or the first refusal that applies.
fn blended(plant: Plant, loads: &[u64], ks: &[u64]) -> Result<[u64; 13], Refusal>
    ensures { result ≡ decide (first (blend_tests plant loads.now ks.now)) (added plant.sludge (draws (loads_of loads.now ks.now))) }
{
    usable(plant)?;
    unless(are_loads(loads, ks), Refusal::NoBlend)?;
    unless(each_k(ks), Refusal::NotThousandths)?;
    let (loads, _) = loads.as_chunks::<13>();
    unless(each_within(loads), Refusal::ColumnAbove)?;
    with_draws(plant.sludge, loads, ks).ok_or(Refusal::TankAbove)
}

// Whether there are one to eight loads, and thirteen columns for each. The product is of at most eight.
fn are_loads(loads: &[u64], ks: &[u64]) -> bool
    ensures { result ≡ are_loads loads.now ks.now }
{
    1 <= ks.len() && ks.len() <= 8 && loads.len() == 13 * ks.len()
}

// Whether each k is from 1 to 1000.
fn each_k(ks: &[u64]) -> bool
    ensures { result ≡ list_all thousandths ks.now }
{
    ks.iter().all(|k| is_thousandths(*k))
}

// Whether no column of any load is above its ceiling.
fn each_within(loads: &[[u64; 13]]) -> bool
    ensures { result ≡ list_all (within asm1_ceilings) loads.now }
{
    loads.iter().all(|v| vectors::is_within(*v))
}

// A sludge tank with all draws in it, or nothing where a column of it would pass its ceiling.
fn with_draws(sludge: [u64; 13], loads: &[[u64; 13]], ks: &[u64]) -> Option<[u64; 13]>
    requires sludge { within asm1_ceilings sludge ≡ true }
    requires long { length loads.now ≡ length ks.now }
    requires ks { list_all thousandths ks.now ≡ true }
    requires within { list_all (within asm1_ceilings) loads.now ≡ true }
    ensures { let s = added sludge (draws (zip loads.now ks.now)) in result ≡ cond (within asm1_ceilings s) (Some s) None }
{
    let mut sum = sludge;
    for i in 0..ks.len() {
        sum = vectors::sum_within(sum, vectors::drawn(loads[i], ks[i]))?;
    }
    Some(sum)
}

// What stays of each column takes its place. It goes by places, and asks no `vectors::rest`: of a slice that is lent in thirteens for
// writing (`as_chunks_mut`) nothing is known at its end.
fn draw_off(loads: &mut [u64], ks: &[u64])
    requires long { length loads.old ≡ 13 * length ks.now }
    requires ks { list_all thousandths ks.now ≡ true }
    requires within { each_within (loads_of loads.old ks.now) ≡ true }
    ensures { loads.new ≡ rests (loads_of loads.old ks.now) }
{
    for i in 0..loads.len() {
        loads[i] -= loads[i] * ks[i / 13] / 1000;
    }
}
