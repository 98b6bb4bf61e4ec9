// Thirteen entries in the order of the ASM1 columns: what each comes to, or the first refusal.
ghost use Rattle.std.specs.Prelude.{◌≡◌, map, count_by};
ghost use Rattle.sheets.specs.Value.{count, limit, missing};
ghost use Rattle.vectors.specs.Columns.{asm1_ceilings};
ghost use Rattle.sheets.specs.Sheet.{scales, per_unit, ceiling, sheet_readings};

use crate::finding::Finding;
use crate::value::Scale;
use refusals::Refusal;

// Counts to the gram of COD or of oxygen, to the mole of salk, and to the gram of nitrogen.
const PER_GRAM: u64 = 1000;

const TICKS_PER_GRAM: u64 = 10000000;

// A column of COD, oxygen or moles, and one of nitrogen.
const GRAMS: Scale = Scale {
    per_unit: PER_GRAM,
    ceiling: vectors::COD_CEILING,
};

const NITROGEN: Scale = Scale {
    per_unit: TICKS_PER_GRAM,
    ceiling: vectors::TICK_CEILING,
};

// It stops at the first bad column.
pub fn read_sheet(sheet: [Finding<f32>; 13]) -> Result<[Finding<u64>; 13], Refusal>
    ensures { result ≡ sheet_readings sheet }
{
    let scales = scales();
    let mut readings = [Finding::NotSampled; 13];
    for i in 0..13 {
        readings[i] = sheet[i].read(scales[i])?;
    }
    Ok(readings)
}

// The scales in document 01's order of columns.
fn scales() -> [Scale; 13]
    ensures counts { map per_unit result ≡ scales }
    ensures ceilings { map ceiling result ≡ asm1_ceilings }
{
    [
        GRAMS, GRAMS, GRAMS, GRAMS, GRAMS, GRAMS, GRAMS, GRAMS, NITROGEN, NITROGEN, NITROGEN,
        NITROGEN, GRAMS,
    ]
}

// What the entries count as. Beside `limits_of` it names which number of an entry is taken, which a closure would not.
pub fn counts_of(readings: [Finding<u64>; 13]) -> [u64; 13]
    ensures { result ≡ map count readings }
{
    readings.map(|r| r.count())
}

// The counts of their limits.
pub fn limits_of(readings: [Finding<u64>; 13]) -> [u64; 13]
    ensures { result ≡ map limit readings }
{
    readings.map(|r| r.limit())
}

// How many were not sampled.
pub fn unsampled(readings: [Finding<u64>; 13]) -> u64
    ensures { result ≡ count_by missing readings }
{
    readings
        .iter()
        .filter(|r| matches!(r, Finding::NotSampled))
        .count() as u64
}
