// The two conversions of a vector by itself, with any nine figures: each gives the refusal's number, 0 where there is none; a refusal has
// zeros beside it. Each is one call of interface; they share `tell`, and differ in the call, what goes out and the outcome's type.
ghost use Rattle.host.specs.Calls.{AsmToAdmCalled, AdmToAsmCalled};

use crate::told::tell;
use vectors::Figures;

// ASM1 to digester: the vector, and burnt, oxygen, nitrate and warn.
#[unsafe(no_mangle)]
pub extern "C" fn jilghvani_asm_to_adm(
    figures: &[u64; 9],
    v: &[u64; 13],
    d: &mut [u64; 26],
    told: &mut [u64; 4],
) -> u64
    ensures { AsmToAdmCalled figures.now v.now result d.new told.new }
{
    // a match: two things go out, and with `map_or` for the vector `returns` stays open without a clause on its closure
    match interface::asm_to_adm(Figures::from(*figures), *v) {
        Ok(o) => {
            // by a variable: the borrow checker covers an array of a struct neither stored straight nor taken by the arm's pattern
            let vector = o.vector;
            *d = vector;
            tell(told, Ok([o.burnt.0, o.oxygen.0, o.nitrate.0, o.warn]))
        }
        Err(refusal) => {
            *d = [0; 26];
            tell(told, Err(refusal))
        }
    }
}

// Digester to ASM1: the vector, and the COD stripped.
#[unsafe(no_mangle)]
pub extern "C" fn jilghvani_adm_to_asm(
    figures: &[u64; 9],
    d: &[u64; 26],
    v: &mut [u64; 13],
    told: &mut [u64; 1],
) -> u64
    ensures { AdmToAsmCalled figures.now d.now result v.new told.new }
{
    // a match: two things go out, and with `map_or` for the vector `returns` stays open without a clause on its closure
    match interface::adm_to_asm(Figures::from(*figures), *d) {
        Ok(o) => {
            // by a variable: the borrow checker covers an array of a struct neither stored straight nor taken by the arm's pattern
            let vector = o.vector;
            *v = vector;
            tell(told, Ok([o.stripped.0]))
        }
        Err(refusal) => {
            *v = [0; 13];
            tell(told, Err(refusal))
        }
    }
}
