// The record as 61 numbers one behind the other: sludge 13, digester 26, reject 13, and the nine figures.
ghost use Rattle.std.specs.Prelude.{◌≡◌};
ghost use Rattle.host.specs.Record.{plant_at, columns_at};

use plant::Plant;
use vectors::Figures;

// The plant record that 61 numbers stand for: a function, because Plant is another crate's type, takes no From here, and its crate knows
// nothing of 61 numbers.
pub fn plant_at(columns: &[u64; 61]) -> Plant
    ensures { result ≡ plant_at columns.now }
{
    let mut sludge = [0; 13];
    let mut digester = [0; 26];
    let mut reject = [0; 13];
    let mut figures = [0; 9];
    sludge.copy_from_slice(&columns[..13]);
    digester.copy_from_slice(&columns[13..39]);
    reject.copy_from_slice(&columns[39..52]);
    figures.copy_from_slice(&columns[52..]);
    Plant {
        sludge,
        digester,
        reject,
        figures: Figures::from(figures),
    }
}

// A plant record's columns take the place of those that are there. By splits: with ranges, as above, `returns` stays open.
pub fn put_plant(columns: &mut [u64; 61], p: Plant)
    ensures { columns.new ≡ columns_at p }
{
    let (sludge, rest) = columns.split_at_mut(13);
    let (digester, rest) = rest.split_at_mut(26);
    let (reject, figures) = rest.split_at_mut(13);
    sludge.copy_from_slice(&p.sludge);
    digester.copy_from_slice(&p.digester);
    reject.copy_from_slice(&p.reject);
    figures.copy_from_slice(&<[u64; 9]>::from(p.figures));
}
