// Refusals 15, 1, 2, 3 and 10, and the first of those that apply.
use crate::loads::{BREWERY, DAIRY, SEPTIC, held, load};
use crate::write::{example, flat};
use plant::Plant;
use test_show::places::asm1::{SALK, SI, SNO, SS};
use vectors::Figures;

// The highest that a tank holds in COD, and in nitrate.
const FULL: u64 = 1_000_000_000_000;

const FULL_NITRATE: u64 = 10_000_000_000_000_000;

// One bad k among good ones, at each place: 2.
pub fn each_k() {
    three_by(b"k 0, first", [0, 1000, 250]);
    three_by(b"k 1001, second", [500, 1001, 250]);
    three_by(b"k 2^64 - 1, last", [500, 1000, u64::MAX]);
}

fn three_by(name: &[u8], ks: [u64; 3]) {
    let c: [u64; 39] = flat([DAIRY, BREWERY, SEPTIC]);
    example(name, held(), c, &ks);
}

// One column above its ceiling, at the first place, the last and in between: 3, also where its draw is not. At the ceiling there is none.
pub fn each_column() {
    two(b"si of the first", [load(SI, FULL + 1), BREWERY], [1, 1]);
    two(
        b"sno of the second",
        [DAIRY, load(SNO, FULL_NITRATE + 1)],
        [1, 1],
    );
    two(b"salk of the second", [DAIRY, load(SALK, u64::MAX)], [1, 1]);
    two(
        b"at the ceilings",
        [load(SI, FULL), load(SNO, FULL_NITRATE)],
        [1, 1],
    );
}

fn two(name: &[u8], loads: [[u64; 13]; 2], ks: [u64; 2]) {
    let c: [u64; 26] = flat(loads);
    example(name, held(), c, &ks);
}

// Draws that pass a ceiling only together: 10. One count less, and the tank is full.
pub fn together() {
    let half = load(SS, FULL / 2);
    two(b"half a tank twice", [half, half], [1000, 1000]);
    let less = load(SS, FULL / 2 - 1);
    two(b"one count less", [half, less], [1000, 1000]);
    example(b"half a tank alone", held(), half, &[1000]);
    let eight: [u64; 104] = flat([load(SNO, FULL_NITRATE / 8); 8]);
    example(b"an eighth of sno", held(), eight, &[1000; 8]);
}

// From one slice that has all faults, the faults go one after the other.
pub fn first_applies() {
    let outside = Plant {
        figures: Figures::from([0; 9]),
        ..above()
    };
    let over = load(SS, FULL + 1);
    let full = load(SS, FULL);
    example(b"15 and all", outside, over, &[1001, 1]);
    example(b"1 and the rest", above(), over, &[1001, 1]);
    example(b"16 and the rest", held(), over, &[1001, 1]);
    two(b"2 and the rest", [full, over], [1000, 1001]);
    two(b"3 and 10", [full, over], [1000, 1000]);
    two(b"10 alone", [full, full], [1000, 1000]);
}

// A record that has a column of its reject tank above the ceiling.
fn above() -> Plant {
    Plant {
        reject: load(SALK, FULL + 1),
        ..held()
    }
}
