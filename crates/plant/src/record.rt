// The plant record.
ghost use Rattle.std.specs.Prelude.{◌≡◌};
ghost use Rattle.std.specs.Result.{result_err};
ghost use Rattle.vectors.specs.Figures.{house};
ghost use Rattle.plant.specs.Record.{fresh_plant, made, record_within, record_refusal, thousandths};

use refusals::{Refusal, unless};
use vectors::{Figures, HOUSE};

// Three tanks: sludge and reject are ASM1 vectors, the digester is a digester vector. Behind them the nine figures that the record was made
// with: no call changes them.
#[derive(Clone, Copy, PartialEq, Eq)]
pub struct Plant {
    pub sludge: [u64; 13],
    pub digester: [u64; 26],
    pub reject: [u64; 13],
    pub figures: Figures,
}

// What a wish for a record gives: the refusal, if any, and the record.
#[derive(Clone, Copy)]
pub struct Made {
    pub refusal: Option<Refusal>,
    pub plant: Plant,
}

// A fresh record of the house set, by document 01's word for it and not as a Default.
pub fn fresh() -> Plant
    ensures { result ≡ fresh_plant house }
{
    fresh_with(HOUSE)
}

// A fresh record of any nine figures. Refusal 15 where they are no permitted set; then the record has the house set.
pub fn make(f: Figures) -> Made
    ensures { result ≡ made f }
{
    if !vectors::is_permitted(f) {
        return Made {
            refusal: Some(Refusal::NotPermitted),
            plant: fresh(),
        };
    }
    Made {
        refusal: None,
        plant: fresh_with(f),
    }
}

// A record with every column zero.
fn fresh_with(figures: Figures) -> Plant
    ensures { result ≡ fresh_plant figures }
{
    Plant {
        sludge: [0; 13],
        digester: [0; 26],
        reject: [0; 13],
        figures,
    }
}

// Refusals 15 and 1: what every call tests of its record first.
pub fn usable(p: Plant) -> Result<(), Refusal>
    ensures { result_err result ≡ record_refusal p }
{
    unless(vectors::is_permitted(p.figures), Refusal::NotPermitted)?;
    unless(record_within(p), Refusal::RecordAbove)
}

// Whether no column of a record is above its ceiling: refusal 1 where it is not.
#[tactic(auto, unfolding(crate::specs::Record::record_within))]
fn record_within(p: Plant) -> bool
    ensures { result ≡ record_within p }
{
    vectors::is_within(p.sludge) && vectors::is_within(p.digester) && vectors::is_within(p.reject)
}

// Whether k is from 1 to 1000: refusal 2 where it is not.
pub fn is_thousandths(k: u64) -> bool
    ensures { result ≡ thousandths k }
{
    1 <= k && k <= 1000
}
