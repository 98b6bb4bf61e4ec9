// Runs the hand-worked plants a to k of document 01 through the compiled conversions, with the house set and k = 1000, and writes
// what each gives: the refusal, or the numbers told and the columns that are not zero. crates/interface/specs/Plants.antt is the same
// table for the definitions. Under the letter n stand four feeds more, on both sides of nitrate that COD just covers, and under m six whose
// inerts lack nitrogen that amino acids give, or cannot give.
#![tactic(auto)]

use Example::{Feed, Return};
use interface::{Fed, Returned};
use test_show::places::digester;
use vectors::{Milligrams, Ticks};

// A feed of the whole of a sludge vector, or a return of three of the digester's columns: xi, xc and sin.
#[derive(Clone, Copy)]
enum Example {
    Feed([u64; 13]),
    Return(u64, u64, u64),
}

// Each by its plant's letter.
const PLANTS: [(u8, Example); 23] = [
    (
        b'a',
        Feed([0, 40000, 0, 0, 0, 0, 0, 5000, 100000000, 0, 0, 0, 0]),
    ),
    (
        b'b',
        Feed([0, 10000, 0, 30000, 0, 0, 0, 5000, 100000000, 0, 0, 0, 0]),
    ),
    (b'c', Feed([0, 100, 0, 0, 0, 0, 0, 0, 0, 0, 10000, 0, 0])),
    (b'd', Feed([0, 5, 0, 0, 0, 0, 0, 0, 0, 0, 10000, 0, 0])),
    (b'e', Feed([0, 0, 10, 0, 0, 0, 0, 0, 0, 0, 0, 0, 0])),
    (b'f', Feed([1, 0, 0, 0, 0, 0, 0, 0, 0, 280, 0, 0, 0])),
    (b'f', Feed([1, 0, 0, 0, 0, 0, 0, 0, 0, 279, 0, 0, 0])),
    (b'g', Feed([0, 0, 0, 5, 0, 0, 0, 7, 100, 0, 0, 0, 0])),
    (b'h', Feed([0, 0, 0, 0, 0, 1, 0, 0, 3501, 0, 0, 0, 0])),
    (b'i', Feed([0, 0, 0, 100, 0, 0, 0, 0, 0, 0, 0, 2810, 0])),
    (b'j', Return(8, 2, 6000)),
    (b'k', Return(1, 0, 600)),
    (b'k', Return(1, 0, 599)),
    (b'm', Feed([1, 1, 0, 0, 0, 0, 0, 0, 0, 0, 980, 0, 0])),
    (b'm', Feed([8, 2, 0, 0, 0, 0, 0, 0, 0, 280, 1960, 0, 0])),
    (b'm', Feed([8, 2, 0, 0, 0, 0, 0, 0, 0, 279, 1960, 0, 0])),
    (b'm', Feed([1, 2, 0, 0, 0, 0, 0, 0, 0, 279, 1960, 0, 0])),
    (b'm', Feed([1, 2, 0, 0, 0, 0, 0, 0, 0, 280, 1960, 0, 0])),
    (b'm', Feed([1, 1, 0, 10, 0, 0, 0, 0, 0, 0, 980, 0, 0])),
    (b'n', Feed([0, 143, 0, 0, 0, 0, 0, 0, 500499, 0, 0, 0, 0])),
    (b'n', Feed([0, 143, 0, 0, 0, 0, 0, 0, 500500, 0, 0, 0, 0])),
    (b'n', Feed([0, 143, 0, 0, 0, 0, 0, 0, 500501, 0, 0, 0, 0])),
    (b'n', Feed([0, 150, 0, 0, 0, 0, 0, 7, 500501, 0, 0, 0, 0])),
];

// Each example on a line behind its letter.
fn main() {
    for (letter, example) in PLANTS {
        test_show::text(&[letter]);
        test_show::text(b":");
        match example {
            Feed(v) => feed(v),
            Return(xi, xc, sin) => give_back(test_show::with(
                [0; 26],
                &[(digester::XI, xi), (digester::XC, xc), (digester::SIN, sin)],
            )),
        }
        test_show::text(b"\n");
    }
}

// The whole of a sludge vector is fed.
fn feed(v: [u64; 13]) {
    if vectors::is_within(v) {
        let c = vectors::drawn(v, 1000);
        match interface::feed_of(vectors::HOUSE, c) {
            Ok(o) => fed(0, o),
            Err(refusal) => fed(refusal.number(), NOT_FED),
        }
    }
}

// A refusal has zeros for what is told, and in the vector.
const NOT_FED: Fed = Fed {
    burnt: Milligrams(0),
    oxygen: Milligrams(0),
    nitrate: Ticks(0),
    warn: 0,
    vector: [0; 26],
};

fn fed(n: u64, o: Fed) {
    test_show::number(b" refusal ", n);
    test_show::number(b" D ", o.burnt.0);
    test_show::number(b" o ", o.oxygen.0);
    test_show::number(b" r ", o.nitrate.0);
    test_show::number(b" warn ", o.warn);
    test_show::digester(o.vector);
}

// The whole of a digester vector is returned.
fn give_back(v: [u64; 26]) {
    if vectors::is_within(v) {
        let c = vectors::drawn(v, 1000);
        match interface::return_of(vectors::HOUSE, c) {
            Ok(o) => returned(0, o),
            Err(refusal) => returned(refusal.number(), NOT_RETURNED),
        }
    }
}

const NOT_RETURNED: Returned = Returned {
    stripped: Milligrams(0),
    vector: [0; 13],
};

fn returned(n: u64, o: Returned) {
    test_show::number(b" refusal ", n);
    test_show::number(b" stripped ", o.stripped.0);
    test_show::asm1(o.vector);
}
