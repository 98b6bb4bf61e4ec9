// Ceilings, and sums of vectors.
ghost use Rattle.std.specs.Prelude.{true, ◌&&◌, ◌≡◌, leb, cond, Some, None};
ghost use Rattle.std.specs.List.{fold, list_all, zip};
ghost use Rattle.vectors.specs.Columns.{within, added, fits};

use crate::vector::Vector;

// Whether no column of a vector is above its ceiling.
pub fn is_within<const N: usize>(v: [u64; N]) -> bool
where
    [u64; N]: Vector<N>,
    ensures { result ≡ within ⟦<[u64; N] as Vector<N>>⟧.CEILINGS v.entry }
{
    all_low(&v, &<[u64; N] as Vector<N>>::CEILINGS)
}

// Whether no column of the sum of two vectors is above its ceiling.
pub fn sum_is_within<const N: usize>(a: [u64; N], b: [u64; N]) -> bool
where
    [u64; N]: Vector<N>,
    ensures { result ≡ within ⟦<[u64; N] as Vector<N>>⟧.CEILINGS (added a.entry b.entry) }
{
    all_fit(&a, &b, &<[u64; N] as Vector<N>>::CEILINGS)
}

// The sum of two vectors. By index: of a write through `iter_mut` the logic knows no element.
pub fn sum<const N: usize>(a: [u64; N], b: [u64; N]) -> [u64; N]
where
    [u64; N]: Vector<N>,
    requires { within ⟦<[u64; N] as Vector<N>>⟧.CEILINGS (added a b) ≡ true }
    ensures { result ≡ added a.entry b.entry }
{
    let mut s = a;
    for i in 0..N {
        s[i] += b[i];
    }
    s
}

// Their sum, or nothing where a column of it is above its ceiling.
pub fn sum_within<const N: usize>(a: [u64; N], b: [u64; N]) -> Option<[u64; N]>
where
    [u64; N]: Vector<N>,
    ensures { result ≡ cond (within ⟦<[u64; N] as Vector<N>>⟧.CEILINGS (added a.entry b.entry)) (Some (added a.entry b.entry)) None }
{
    if !sum_is_within(a, b) {
        return None;
    }
    Some(sum(a, b))
}

// Whether each column is at most its ceiling. It goes through all columns, because a test that leaves early runs slower.
pub(crate) fn all_low(v: &[u64], ceilings: &[u64]) -> bool
    ensures { result ≡ fold (λ ok p. ok && leb p.0 p.1) true (zip v.now ceilings.now) }
{
    v.iter()
        .zip(ceilings)
        .fold(true, |ok, (x, c)| ok & (*x <= *c))
}

// Whether each column of the sum is at most its ceiling. It adds nothing, so it asks for no bound.
fn all_fit(a: &[u64], b: &[u64], ceilings: &[u64]) -> bool
    ensures { result ≡ list_all fits (zip (zip a.now b.now) ceilings.now) }
{
    a.iter()
        .zip(b)
        .zip(ceilings)
        .all(|((x, y), c)| *x <= *c && *y <= *c - *x)
}
