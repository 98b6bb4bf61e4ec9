// The draw of k thousandths of a vector, and what remains of it. Both loops go by index: `map` asks that N columns fit memory, which no
// type says of N, and of a write through `iter_mut` the logic knows no element.
ghost use Rattle.std.specs.Prelude.{true, ◌≡◌, ◌≤◌};
ghost use Rattle.vectors.specs.Columns.{within};
ghost use Rattle.vectors.specs.Draw.{drawn, rest};

use crate::vector::Vector;

// k thousandths of a vector.
pub fn drawn<const N: usize>(v: [u64; N], k: u64) -> [u64; N]
where
    [u64; N]: Vector<N>,
    requires { (within ⟦<[u64; N] as Vector<N>>⟧.CEILINGS v ≡ true) × (k ≤ 1000) }
    ensures { result ≡ drawn k v.entry }
{
    let mut s = v;
    for i in 0..N {
        s[i] = s[i] * k / 1000;
    }
    s
}

// What remains of it.
pub fn rest<const N: usize>(v: [u64; N], k: u64) -> [u64; N]
where
    [u64; N]: Vector<N>,
    requires { (within ⟦<[u64; N] as Vector<N>>⟧.CEILINGS v ≡ true) × (k ≤ 1000) }
    ensures { result ≡ rest k v.entry }
{
    let mut s = v;
    for i in 0..N {
        s[i] -= s[i] * k / 1000;
    }
    s
}
