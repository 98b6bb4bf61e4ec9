// COD and TKN of a vector, by its weights by column. Arrays and figures are of plain types, so that their bounds are asked for.
ghost use Rattle.std.specs.Prelude.{◌≡◌, ◌≤◌};
ghost use Rattle.vectors.specs.Columns.{Below};
ghost use Rattle.vectors.specs.Figures.{Permitted};
ghost use Rattle.vectors.specs.Totals.{weigh};

use crate::figures::Figures;
use crate::units::{Milligrams, Ticks};
use crate::vector::Vector;

// The COD of a vector.
pub fn cod<const N: usize>(v: [u64; N]) -> Milligrams
where
    [u64; N]: Vector<N>,
    requires { Below ⟦<[u64; N] as Vector<N>>⟧.CEILINGS v }
    ensures { (result.0 ≡ ⟦<[u64; N] as Vector<N>>⟧.cod v.entry) × (result.0 ≤ ⟦<[u64; N] as Vector<N>>⟧.cod_most) }
{
    Milligrams(weighed(<[u64; N] as Vector<N>>::COD, v))
}

// Its TKN.
pub fn tkn<const N: usize>(f: Figures, v: [u64; N]) -> Ticks
where
    [u64; N]: Vector<N>,
    requires { (Permitted f) × (Below ⟦<[u64; N] as Vector<N>>⟧.CEILINGS v) }
    ensures { (result.0 ≡ ⟦<[u64; N] as Vector<N>>⟧.tkn f v.entry) × (result.0 ≤ ⟦<[u64; N] as Vector<N>>⟧.tkn_most) }
{
    Ticks(weighed(<[u64; N] as Vector<N>>::fractions(f), v))
}

// Weights times columns, added up. By index: with zip, map and sum what `sum` asks of each product does not close.
fn weighed<const N: usize>(weights: [u64; N], v: [u64; N]) -> u64
    requires { weigh weights v ≤ 1000000000000000000 }
    ensures { result ≡ weigh weights.entry v.entry }
{
    let mut sum = 0;
    for i in 0..N {
        sum += weights[i] * v[i];
    }
    sum
}
