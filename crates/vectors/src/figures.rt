// The nine figures of document 01, a set of them, and whether it is permitted.
ghost use Rattle.std.specs.Prelude.{◌≡◌};
ghost use Rattle.vectors.specs.Figures.{figures_of, figures_list, permitted};

use crate::ceilings::all_low;

// Nitrogen is in ticks per milligram of COD, and fxi, fch, fli are parts in ten thousand. Any nine numbers are a set: those that need a
// permitted one say so, since a narrower type would take fewer.
#[derive(Clone, Copy, PartialEq, Eq)]
pub struct Figures {
    pub ixb: u64,
    pub ixe: u64,
    pub nxc: u64,
    pub ni: u64,
    pub naa: u64,
    pub nbac: u64,
    pub fxi: u64,
    pub fch: u64,
    pub fli: u64,
}

// The house set.
pub const HOUSE: Figures = Figures {
    ixb: 880,
    ixe: 880,
    nxc: 280,
    ni: 280,
    naa: 980,
    nbac: 875,
    fxi: 8000,
    fch: 2000,
    fli: 2500,
};

// The greatest figure that is permitted.
const FIGURE_MOST: u64 = 10000;

// The set that nine numbers are, in the order above.
impl From<[u64; 9]> for Figures {
    ghost from_gives = { λ n f. f ≡ figures_of n };

    fn from(n: [u64; 9]) -> Figures {
        let [ixb, ixe, nxc, ni, naa, nbac, fxi, fch, fli] = n;
        Figures {
            ixb,
            ixe,
            nxc,
            ni,
            naa,
            nbac,
            fxi,
            fch,
            fli,
        }
    }
}

// Its nine numbers again.
impl From<Figures> for [u64; 9] {
    ghost from_gives = { λ f n. n ≡ figures_list f };

    fn from(f: Figures) -> [u64; 9] {
        [
            f.ixb, f.ixe, f.nxc, f.ni, f.naa, f.nbac, f.fxi, f.fch, f.fli,
        ]
    }
}

// Whether a set is permitted: refusal 15 where it is not. No test leaves early.
pub fn is_permitted(f: Figures) -> bool
    ensures { result ≡ permitted f }
{
    let low = all_low(&<[u64; 9]>::from(f), &[FIGURE_MOST; 9]);
    low & ((1 <= f.nxc) & ((1 <= f.naa) & ((1 <= f.fch) | (1 <= f.fli))))
}
