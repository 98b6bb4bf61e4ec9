// A laboratory sheet by kinds and values: two arrays, as C lends them.
ghost use Rattle.std.specs.Prelude.{◌≡◌, Ok};
ghost use Rattle.host.specs.Calls.{unseen_of, SheetCalled};
ghost use Rattle.host.specs.Sheet.{finding_of, sheet_at};

use crate::record::{plant_at, put_plant};
use crate::told::tell;
use sheets::Finding;

// The sheet's call: the unseen milligrams, ticks and millimoles and the number not sampled are told.
#[unsafe(no_mangle)]
pub extern "C" fn jilghvani_sheet(
    columns: &mut [u64; 61],
    kinds: &[u8; 13],
    values: &[f32; 13],
    told: &mut [u64; 4],
) -> u64
    ensures { SheetCalled columns.old (sheet_at kinds.now values.now)
        result columns.new told.new }
{
    let o = sheets::receive_sheet(plant_at(columns), sheet_at(kinds, values));
    put_plant(columns, o.plant);
    let unseen = o.told.map(
        |u|
            ensures { result ≡ unseen_of (Ok u) }
        { [u.milligrams.0, u.ticks.0, u.millimoles.0, u.unsampled] },
    );
    tell(told, unseen)
}

// The entries that kinds and values stand for. A for over the places: from_fn does not say that its closure keeps what it captured.
fn sheet_at(kinds: &[u8; 13], values: &[f32; 13]) -> [Finding<f32>; 13]
    ensures { result ≡ sheet_at kinds.now values.now }
{
    let mut sheet = [Finding::NotSampled; 13];
    for i in 0..13 {
        sheet[i] = finding_of(kinds[i], &values[i]);
    }
    sheet
}

// An entry by its kind, a number because C asks for it so. The value is read for kinds 0 and 1 alone, as the header says, so that it comes
// as a reference; a kind that is none stands for no number.
#[tactic(auto, using(crate::proofs::Laws::Sheet::no_number), unfolding(crate::specs::Sheet::finding_of))]
fn finding_of(kind: u8, value: &f32) -> Finding<f32>
    ensures { result ≡ finding_of kind value.now }
{
    match kind {
        0 => Finding::Measured(*value),
        1 => Finding::BelowLimit(*value),
        2 => Finding::NotSampled,
        _ => Finding::Measured(f32::NAN),
    }
}
