// The two vectors, each an array of its columns: 13 of ASM1, 26 of a digester. What differs between them stands here, and each function
// of this crate is written once for both.
ghost use Rattle.std.specs.Prelude.{true, ◌≡◌, refl, List, ℕ, ◌≤◌, leb};
ghost use Rattle.std.specs.List.{list_all};
ghost use native.Mathlib.Omega.{arith};
ghost use Rattle.vectors.specs.declared.figures.Figures.{Figures};
ghost use Rattle.vectors.specs.Columns.{asm1_ceilings, digester_ceilings, Below};
ghost use Rattle.vectors.specs.Figures.{Permitted};
ghost use Rattle.vectors.specs.Totals.{asm1_cod, asm1_tkn, digester_cod, digester_tkn, weigh};
ghost use Rattle.vectors.specs.Totals.{asm1_cod_weights, digester_cod_weights, asm1_fractions, digester_fractions};
ghost use Rattle.vectors.specs.Weighed.{asm1_cod-weigh, asm1_cod-le, asm1_tkn-weigh, asm1_tkn-le};
ghost use Rattle.vectors.specs.Weighed.{digester_cod-weigh, digester_cod-le, digester_tkn-weigh, digester_tkn-le};

use crate::figures::Figures;

// The ceiling of a column of COD, oxygen or millimoles, and of one of ticks.
pub const COD_CEILING: u64 = 1000000000000;

pub const TICK_CEILING: u64 = 10000000000000000;

// A vector of N columns in document 01's order. It is a plain array, as document 01 asks ("Where each form goes"), so that what needs it
// within its ceilings says so.
pub trait Vector<const N: usize> {
    ghost CEILINGS: { List ℕ };

    // The ceilings of the columns.
    const CEILINGS: [u64; N];

    ghost COD: { List ℕ };

    // 1 at each COD column, else 0.
    const COD: [u64; N];

    ghost cod: { List ℕ → ℕ };

    ghost cod_most: { ℕ };

    ghost tkn: { Figures → List ℕ → ℕ };

    ghost tkn_most: { ℕ };

    ghost fractions: { Figures → List ℕ };

    // The nitrogen fractions by column, in ticks per milligram, and 1 where a column is nitrogen.
    fn fractions(f: Figures) -> [u64; N]
        ensures { result ≡ fractions f };

    // The columns times a thousand, and the totals of a vector within its ceilings, fit 64 bits.
    ghost ceilings_low: { list_all (λ c. leb c 10000000000000000) CEILINGS ≡ true };

    ghost cod_weighed: { (v : List ℕ) → cod v ≡ weigh COD v };

    ghost cod_low: { (v : List ℕ) → Below CEILINGS v → cod v ≤ cod_most };

    ghost cod_fits: { cod_most ≤ 1000000000000000000 };

    ghost tkn_weighed: { (f : Figures) (v : List ℕ) → tkn f v ≡ weigh (fractions f) v };

    ghost tkn_low: { (f : Figures) (v : List ℕ) → Permitted f → Below CEILINGS v → tkn f v ≤ tkn_most };

    ghost tkn_fits: { tkn_most ≤ 1000000000000000000 };
}

impl Vector<13> for [u64; 13] {
    ghost CEILINGS = { asm1_ceilings };

    const CEILINGS: [u64; 13] = [
        COD_CEILING,
        COD_CEILING,
        COD_CEILING,
        COD_CEILING,
        COD_CEILING,
        COD_CEILING,
        COD_CEILING,
        COD_CEILING,
        TICK_CEILING,
        TICK_CEILING,
        TICK_CEILING,
        TICK_CEILING,
        COD_CEILING,
    ];

    ghost COD = { asm1_cod_weights };

    const COD: [u64; 13] = [1, 1, 1, 1, 1, 1, 1, 0, 0, 0, 0, 0, 0];

    ghost cod = { asm1_cod };

    ghost cod_most = { 7000000000000 };

    ghost tkn = { asm1_tkn };

    ghost tkn_most = { 70000000000000000 };

    ghost fractions = { asm1_fractions };

    fn fractions(f: Figures) -> [u64; 13] {
        [0, 0, f.ixe, 0, f.ixb, f.ixb, f.ixe, 0, 0, 1, 1, 1, 0]
    }

    ghost ceilings_low = { refl };

    ghost cod_weighed = { asm1_cod-weigh };

    ghost cod_low = { asm1_cod-le };

    ghost cod_fits = { omega arith };

    ghost tkn_weighed = { asm1_tkn-weigh };

    ghost tkn_low = { asm1_tkn-le };

    ghost tkn_fits = { omega arith };
}

impl Vector<26> for [u64; 26] {
    ghost CEILINGS = { digester_ceilings };

    const CEILINGS: [u64; 26] = [
        COD_CEILING,
        COD_CEILING,
        COD_CEILING,
        COD_CEILING,
        COD_CEILING,
        COD_CEILING,
        COD_CEILING,
        COD_CEILING,
        COD_CEILING,
        COD_CEILING,
        COD_CEILING,
        COD_CEILING,
        COD_CEILING,
        COD_CEILING,
        COD_CEILING,
        COD_CEILING,
        COD_CEILING,
        COD_CEILING,
        COD_CEILING,
        COD_CEILING,
        COD_CEILING,
        COD_CEILING,
        TICK_CEILING,
        COD_CEILING,
        COD_CEILING,
        TICK_CEILING,
    ];

    ghost COD = { digester_cod_weights };

    const COD: [u64; 26] = [
        1, 1, 1, 1, 1, 1, 1, 1, 1, 1, 1, 1, 1, 1, 1, 1, 1, 1, 1, 1, 1, 1, 0, 0, 0, 0,
    ];

    ghost cod = { digester_cod };

    ghost cod_most = { 22000000000000 };

    ghost tkn = { digester_tkn };

    ghost tkn_most = { 130000000000000000 };

    ghost fractions = { digester_fractions };

    fn fractions(f: Figures) -> [u64; 26] {
        [
            f.ni, 0, f.naa, 0, 0, 0, 0, 0, 0, 0, f.ni, f.nxc, 0, f.naa, 0, f.nbac, f.nbac, f.nbac,
            f.nbac, f.nbac, f.nbac, f.nbac, 1, 0, 0, 0,
        ]
    }

    ghost ceilings_low = { refl };

    ghost cod_weighed = { digester_cod-weigh };

    ghost cod_low = { digester_cod-le };

    ghost cod_fits = { omega arith };

    ghost tkn_weighed = { digester_tkn-weigh };

    ghost tkn_low = { digester_tkn-le };

    ghost tkn_fits = { omega arith };
}
