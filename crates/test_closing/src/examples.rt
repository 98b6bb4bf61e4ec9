// The examples: a record, of which two columns of the digester are named, and a proposal, of which two columns are named.
use crate::write::example;
use plant::Plant;
use test_show::places::asm1::SALK;
use test_show::places::digester::{CN, CO, SAA, SIC, SIN, SSU, XC};
use test_show::sets;
use vectors::Figures;

// The ceilings, and the least number above each.
const COD: u64 = 1000000000000;

const COD_OVER: u64 = 1000000000001;

const TICKS: u64 = 10000000000000000;

const TICKS_OVER: u64 = 10000000000000001;

// A digester vector with every column zero.
const NONE: [u64; 26] = [0; 26];

// The digester of a record; no two of its columns are the same.
const OLD: [u64; 26] = [
    101, 102, 103, 104, 105, 106, 107, 108, 109, 110, 111, 112, 113, 114, 115, 116, 117, 118, 119,
    120, 121, 122, 3000000, 31, 41, 51,
];

// A proposal in its place; no column is as it was.
const PROPOSED: [u64; 26] = [
    1, 2, 3, 4, 5, 6, 7, 8, 9, 10, 11, 12, 13, 14, 15, 16, 17, 18, 19, 20, 21, 22, 7, 32, 42, 52,
];

// Close is accepted: gas is told, and sin, co and cn are replaced, also where they are proposed at their ceilings or close at them.
pub fn accepted() {
    small(b"nothing", NONE, NONE);
    small(b"gas", of(&[(SSU, 5)]), of(&[(SSU, 3)]));
    small(b"sin", of(&[(XC, 2), (SIN, 10)]), of(&[(XC, 1), (SIN, 3)]));
    small(b"carried", of(&[(CO, 2), (CN, 3)]), of(&[(CO, 7), (CN, 9)]));
    small(b"not carried", NONE, of(&[(CO, COD), (CN, TICKS)]));
    small(b"sic", of(&[(SIC, 4), (CO, 1)]), of(&[(SIC, 6), (SIN, 5)]));
    let nitrogen = of(&[(SSU, 1), (SIN, 980)]);
    small(b"last nitrogen", nitrogen, of(&[(SAA, 1), (SIN, TICKS)]));
    let most = of(&[(XC, 1), (SIN, TICKS)]);
    small(b"sin at its ceiling", most, of(&[(XC, 1)]));
}

// Whole vectors: the other 23 columns are as they are proposed, and a refusal leaves all 26. Then the largest gaps.
pub fn whole() {
    small(b"whole", OLD, PROPOSED);
    small(b"whole, refused", PROPOSED, OLD);
    small(b"full record", full(), NONE);
    small(b"full proposal", NONE, full());
}

// Refusal 1: a column of a tank is above its ceiling.
pub fn record_above() {
    let v = test_show::with([0; 13], &[(SALK, COD_OVER)]);
    let d = of(&[(SSU, 1), (SIN, 2)]);
    let sludge = Plant {
        sludge: v,
        ..plant::fresh()
    };
    example(b"sludge above", sludge, d);
    small(b"digester above", of(&[(SSU, 1), (CN, TICKS_OVER)]), d);
    let reject = Plant {
        reject: v,
        ..plant::fresh()
    };
    example(b"reject above", reject, d);
}

// Refusal 15, before 1: the record's figures are no permitted set.
pub fn figures_outside() {
    let outside = Plant {
        figures: Figures::from([0; 9]),
        ..plant::fresh()
    };
    example(b"figures outside", outside, of(&[(SSU, COD_OVER)]));
    let above = Plant {
        reject: test_show::with([0; 13], &[(SALK, COD_OVER)]),
        ..outside
    };
    example(b"15 before 1", above, of(&[(SSU, 1)]));
}

// With a dairy's figures: nitrogen that closes with them and not with the house set. Of xc 2 they hold 820 ticks.
pub fn dairy() {
    let p = Plant {
        digester: of(&[(SSU, 2), (SIN, 820)]),
        figures: Figures::from(sets::DAIRY),
        ..plant::fresh()
    };
    example(b"dairy", p, of(&[(XC, 2)]));
    example(b"dairy, one more", p, of(&[(XC, 1), (SAA, 1)]));
}

// Refusal 3: a proposed column is above its ceiling, also one that would be replaced; or the sin that closes is.
pub fn column_above() {
    let held = of(&[(SSU, 5), (SIN, 5)]);
    small(b"ssu above", held, of(&[(SSU, COD_OVER), (SIN, 5)]));
    small(b"sin above", held, of(&[(SSU, 5), (SIN, TICKS_OVER)]));
    small(b"sic above", held, of(&[(SSU, 5), (SIC, COD_OVER)]));
    small(b"co above", held, of(&[(SSU, 5), (CO, COD_OVER)]));
    small(b"cn above", held, of(&[(SSU, 5), (CN, TICKS_OVER)]));
    let most = of(&[(XC, 1), (SIN, TICKS)]);
    small(b"closing sin above", most, of(&[(SSU, 1), (SIN, 5)]));
}

// Refusals 7 and 8: COD and nitrogen are one count too much.
pub fn open() {
    small(
        b"COD too much",
        of(&[(SSU, 5), (CO, 1)]),
        of(&[(SSU, 6), (CO, 2)]),
    );
    small(
        b"nitrogen too much",
        of(&[(SSU, 1), (SIN, 979)]),
        of(&[(SAA, 1), (SIN, 5)]),
    );
}

// Two refusals apply: 1 is before 3, 7 and 8, then 3, then 7.
pub fn two_apply() {
    let d = of(&[(SSU, 1), (SIN, TICKS_OVER)]);
    small(b"1 before 3", of(&[(SSU, COD_OVER), (CN, 1)]), d);
    let more = of(&[(SSU, 1), (SIN, 5)]);
    small(b"1 before 7", of(&[(SIN, 5), (CN, TICKS_OVER)]), more);
    let bound = of(&[(SAA, 1), (SIN, 5)]);
    small(b"1 before 8", of(&[(SSU, 1), (CO, COD_OVER)]), bound);
    let held = of(&[(SSU, 1), (SIN, 5)]);
    small(
        b"column 3 before 7",
        held,
        of(&[(SSU, 2), (CN, TICKS_OVER)]),
    );
    small(b"column 3 before 8", held, of(&[(SAA, 1), (CO, COD_OVER)]));
    let most = of(&[(XC, 1), (SIN, TICKS)]);
    small(b"closing 3 before 7", most, of(&[(SSU, 2), (SIN, 5)]));
    small(b"7 before 8", held, of(&[(SAA, 2), (SIN, 5)]));
}

// An example whose record has a digester alone.
fn small(name: &[u8], old: [u64; 26], d: [u64; 26]) {
    let p = Plant {
        digester: old,
        ..plant::fresh()
    };
    example(name, p, d);
}

// A digester vector by its columns that are not zero.
fn of(columns: &[(usize, u64)]) -> [u64; 26] {
    test_show::with(NONE, columns)
}

// One with every column at its ceiling.
fn full() -> [u64; 26] {
    test_show::with([COD; 26], &[(SIN, TICKS), (CN, TICKS)])
}
