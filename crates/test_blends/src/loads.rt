// Loads that a haulier brings.
use crate::write::{example, flat};
use plant::Plant;
use test_show::places::asm1::{SI, SND, SNH, SS, XI, XND, XS};

// A dairy's, a brewery's and one from septic tanks.
pub const DAIRY: [u64; 13] = [
    1_001,
    850_003,
    40_007,
    310_011,
    7,
    3,
    1,
    2_003,
    15_000_001,
    120_000_007,
    31_000_003,
    28_000_001,
    9_001,
];

pub const BREWERY: [u64; 13] = [
    503, 1_200_001, 11_003, 95_007, 13, 1, 9, 4_001, 2_000_003, 40_000_001, 9_000_007, 61_000_009,
    5_003,
];

pub const SEPTIC: [u64; 13] = [
    30_101,
    63_251,
    751_201,
    902_321,
    28_171,
    101,
    7,
    0,
    0,
    315_599_999,
    69_500_003,
    105_900_007,
    7_001,
];

// One load: a thousandth, some, and all of it.
pub fn one() {
    example(b"one, 1", plant::fresh(), DAIRY, &[1]);
    example(b"one, 333", held(), DAIRY, &[333]);
    example(b"one, 1000", held(), DAIRY, &[1000]);
    example(b"an empty load", held(), [0; 13], &[500]);
}

// Three loads, and eight.
pub fn several() {
    let three: [u64; 39] = flat([DAIRY, BREWERY, SEPTIC]);
    example(b"three", held(), three, &[500, 1000, 250]);
    let eight: [u64; 104] = flat(eight_loads());
    example(
        b"eight",
        held(),
        eight,
        &[999, 1, 500, 333, 1000, 250, 125, 62],
    );
}

// The same loads in other orders, each with its k: the sludge tank is the same.
pub fn shuffled() {
    let backwards: [u64; 39] = flat([SEPTIC, BREWERY, DAIRY]);
    example(b"backwards", held(), backwards, &[250, 1000, 500]);
    let round: [u64; 39] = flat([BREWERY, SEPTIC, DAIRY]);
    example(b"round", held(), round, &[1000, 250, 500]);
    // the loads are shuffled and the k are not: another tank
    let other: [u64; 39] = flat([BREWERY, SEPTIC, DAIRY]);
    example(b"other k", held(), other, &[500, 1000, 250]);
}

// Eight of which each has one column; two have the same.
fn eight_loads() -> [[u64; 13]; 8] {
    [
        load(SI, 1_001),
        load(SS, 2_003),
        load(XI, 3_001),
        load(XS, 4_003),
        load(SNH, 50_000_001),
        load(SND, 60_000_003),
        load(XND, 70_000_001),
        load(SS, 8_009),
    ]
}

// A load of one column.
pub fn load(i: usize, x: u64) -> [u64; 13] {
    test_show::with([0; 13], &[(i, x)])
}

// A record that holds 1 in each column of its sludge tank.
pub fn held() -> Plant {
    Plant {
        sludge: [1; 13],
        ..plant::fresh()
    }
}
