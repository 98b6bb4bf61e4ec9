// Whole sheets, two bad columns, and records that refuse a sheet.
use crate::write::{example, sheet};
use plant::Plant;
use sheets::Finding;
use sheets::Finding::{BelowLimit, Measured, NotSampled};
use test_show::places::asm1::{SALK, SNO, SO, SS};
use vectors::Figures;

// Thirteen measured values, thirteen limits, nothing sampled, and one of all kinds.
pub fn sheets() {
    example(b"measured", plant::fresh(), measured());
    example(b"measured again", held(), measured());
    example(b"limits", plant::fresh(), limits());
    let none = [NotSampled; 13];
    example(b"nothing sampled", held(), none);
    example(b"mixed", held(), mixed());
    let all = [BelowLimit(1000000000.0); 13];
    example(b"highest limits", plant::fresh(), all);
}

// The first bad column decides, and 13 comes before 14 at one column alone.
pub fn first_bad_column() {
    let high = Measured(2000000000.0);
    let below = Measured(-1.0);
    let limit = BelowLimit(2000000000.0);
    let wrong = BelowLimit(-1.0);
    example(
        b"14, then 13",
        plant::fresh(),
        sheet(&[(SS, high), (SNO, below)]),
    );
    example(
        b"13, then 14",
        plant::fresh(),
        sheet(&[(SS, below), (SNO, high)]),
    );
    example(
        b"limits 14, then 13",
        plant::fresh(),
        sheet(&[(SO, limit), (SALK, wrong)]),
    );
    example(
        b"limits 13, then 14",
        plant::fresh(),
        sheet(&[(SO, wrong), (SALK, limit)]),
    );
    let least = Measured(-2000000000.0);
    example(b"both at one column", plant::fresh(), sheet(&[(SS, least)]));
}

// Refusals 15, 1 and 10 stand behind 13 and 14.
pub fn behind() {
    let high = Measured(2000000000.0);
    let below = Measured(-1.0);
    let full = Measured(1000000000.0);
    example(b"record above", above(), measured());
    example(b"record above, 13", above(), sheet(&[(SALK, below)]));
    example(b"record above, 14", above(), sheet(&[(SALK, high)]));
    let outside = Plant {
        figures: Figures::from([0; 9]),
        ..above()
    };
    example(b"figures outside", outside, measured());
    example(b"figures outside, 13", outside, sheet(&[(SALK, below)]));
    example(b"figures outside, 14", outside, sheet(&[(SALK, high)]));
    example(b"no room", held(), sheet(&[(SS, full)]));
    example(b"no room, 14", held(), sheet(&[(SS, full), (SALK, high)]));
    example(
        b"limits need no room",
        held(),
        sheet(&[(SS, BelowLimit(1000000000.0))]),
    );
}

// A record that holds 1 in each column of its sludge tank.
fn held() -> Plant {
    Plant {
        sludge: [1; 13],
        ..plant::fresh()
    }
}

// One that has a column of its reject tank above the ceiling.
fn above() -> Plant {
    Plant {
        reject: test_show::with([0; 13], &[(SALK, 1000000000001)]),
        ..plant::fresh()
    }
}

// The numbers of a sheet as a laboratory sends it.
const NUMBERS: [f32; 13] = [
    30.1, 63.25, 51.2, 202.32, 28.17, 0.1, 0.007, 2.0003, 5.37, 31.56, 6.9500003, 10.59, 7.0005,
];

// They are measured.
fn measured() -> [Finding<f32>; 13] {
    NUMBERS.map(Measured)
}

// The same numbers as limits.
fn limits() -> [Finding<f32>; 13] {
    NUMBERS.map(BelowLimit)
}

// Every kind in COD, in ticks and in between.
fn mixed() -> [Finding<f32>; 13] {
    [
        Measured(30.1),
        BelowLimit(0.05),
        NotSampled,
        Measured(202.32),
        BelowLimit(0.0999),
        NotSampled,
        Measured(0.007),
        BelowLimit(0.25),
        Measured(5.37),
        BelowLimit(0.0001),
        NotSampled,
        BelowLimit(0.00025),
        BelowLimit(0.0125),
    ]
}
