// The two conversions of a vector by itself, with no draw and no record around it, for any figures and any vector: BSM2's asm2adm
// and adm2asm.
ghost use Rattle.std.specs.Prelude.{◌≡◌};
ghost use Rattle.interface.specs.Whole.{asm_to_adm, adm_to_asm};

use crate::feed::{Fed, feed_of};
use crate::returning::{Returned, return_of};
use refusals::{Refusal, unless};
use vectors::Figures;

// Two functions of three lines: one for both would take the conversion as a closure, and be no plainer.

// ASM1 to digester. Refusals 15, 3 and 4.
pub fn asm_to_adm(f: Figures, v: [u64; 13]) -> Result<Fed, Refusal>
    ensures { result ≡ asm_to_adm f v }
{
    unless(vectors::is_permitted(f), Refusal::NotPermitted)?;
    unless(vectors::is_within(v), Refusal::ColumnAbove)?;
    feed_of(f, v)
}

// Digester to ASM1. Refusals 15, 3 and 5.
pub fn adm_to_asm(f: Figures, d: [u64; 26]) -> Result<Returned, Refusal>
    ensures { result ≡ adm_to_asm f d }
{
    unless(vectors::is_permitted(f), Refusal::NotPermitted)?;
    unless(vectors::is_within(d), Refusal::ColumnAbove)?;
    return_of(f, d)
}
