// A sheet into the sludge tank.
ghost use Rattle.std.specs.Prelude.{◌≡◌, map, count_by};
ghost use Rattle.vectors.specs.Columns.{asm1_ceilings, Below};
ghost use Rattle.sheets.specs.Value.{limit, missing};
ghost use Rattle.sheets.specs.Sheet.{sheet_step, sheet_received, unseen_by};

use crate::finding::Finding;
use crate::sheet::{counts_of, limits_of, read_sheet, unsampled};
use plant::{Answer, Outcome, Plant};
use refusals::Refusal;
use vectors::{Milligrams, Millimoles, Ticks, Unit};

// What lies unseen below the detection limits, at most: milligrams of COD and oxygen, ticks, millimoles; and how many columns were
// not sampled.
#[derive(Clone, Copy)]
pub struct Unseen {
    pub milligrams: Milligrams,
    pub ticks: Ticks,
    pub millimoles: Millimoles,
    pub unsampled: u64,
}

// What is told, or the refusal; and the new record, which is the one that was handed in where it is refused.
#[derive(Clone, Copy)]
pub struct SheetOutcome {
    pub told: Result<Unseen, Refusal>,
    pub plant: Plant,
}

// Refusals 13 and 14, at the first bad column, and then receive's 15, 1 and 10.
pub fn receive_sheet(plant: Plant, sheet: [Finding<f32>; 13]) -> SheetOutcome
    ensures outcome { result ≡ sheet_step plant sheet }
    ensures figures { result.plant.figures ≡ plant.figures }
{
    match read_sheet(sheet) {
        Ok(readings) => {
            let unseen = unseen_in(readings);
            received(unseen, plant::receive(plant, counts_of(readings)))
        }
        Err(refusal) => SheetOutcome {
            told: Err(refusal),
            plant,
        },
    }
}

// What receive's outcome is for a sheet.
fn received(unseen: Unseen, o: Outcome) -> SheetOutcome
    ensures { result ≡ sheet_received unseen o }
{
    SheetOutcome {
        told: match o.answer {
            Answer::Refused(r) => Err(r),
            _ => Ok(unseen),
        },
        plant: o.plant,
    }
}

// The totals of the limits' counts, which are a plain array, so that their ceilings are asked for.
fn unseen_in(readings: [Finding<u64>; 13]) -> Unseen
    requires { Below asm1_ceilings (map limit readings) }
    ensures { result ≡ unseen_by (map limit readings) (count_by missing readings) }
{
    let limits = limits_of(readings);
    let cod = vectors::cod(limits);
    Unseen {
        milligrams: cod.plus(Milligrams(limits[7])),
        ticks: Ticks(limits[8] + limits[9] + limits[10] + limits[11]),
        millimoles: Millimoles(limits[12]),
        unsampled: unsampled(readings),
    }
}
