// Slices that are no blend, 16: no loads, more than eight, and lengths that do not agree.
use crate::loads::{BREWERY, DAIRY, SEPTIC, held};
use crate::write::{example, flat};

// None at all, columns without k, and k without columns.
pub fn no_loads() {
    example(b"none", held(), [], &[]);
    example(b"columns alone", held(), DAIRY, &[]);
    example(b"k alone", held(), [], &[500]);
}

// A column too few and one too many, for one load, two and eight.
pub fn off_by_one() {
    let c: [u64; 12] = flat([DAIRY]);
    example(b"12 for one", held(), c, &[500]);
    let c: [u64; 14] = flat([DAIRY, BREWERY]);
    example(b"14 for one", held(), c, &[500]);
    let c: [u64; 25] = flat([DAIRY, BREWERY]);
    example(b"25 for two", held(), c, &[500, 250]);
    let c: [u64; 27] = flat([DAIRY, BREWERY, SEPTIC]);
    example(b"27 for two", held(), c, &[500, 250]);
    example(b"103 for eight", held(), [1; 103], &[500; 8]);
    example(b"105 for eight", held(), [1; 105], &[500; 8]);
}

// Lengths that agree: eight loads are a blend, and nine are none. A whole load too many or too few is none either.
pub fn agreeing() {
    example(b"104 for eight", held(), [2; 104], &[500; 8]);
    example(b"117 for nine", held(), [2; 117], &[500; 9]);
    example(b"26 for one", held(), [2; 26], &[500]);
    example(b"13 for two", held(), [2; 13], &[500; 2]);
}
