// Tests of lent buffers: in buffers of several lengths, with a pattern in them, what is answered, what part is handed back, and whether
// the bytes behind the answer kept their values.
#![tactic(auto)]

use plant::{Answer, Plant};
use refusals::Refusal;
use test_show::places::asm1::SS;
use vectors::{Figures, Milligrams, Ticks};

// Buffers of no byte, of one, around 512, and longer than any answer: the first bytes of a space.
fn main() {
    let mut space = [0u8; 1100];
    for n in [0, 1, 511, 512, 513, 1025, 1100] {
        if let Some(buf) = space.get_mut(..n) {
            all(buf);
        }
    }
}

// Lines of each kind, held lines, both on a record whose figures are no permitted set too, the longest answer, and each kind of answer
// handed back.
fn all(buf: &mut [u8]) {
    each_line(buf, plant::fresh());
    for ss in [0, 1000000000000, 1000000000001] {
        held(buf, ss);
    }
    outside(buf);
    longest(buf);
    each_kind_handed_back(buf);
}

// Lines that are accepted, that are refused, that are no form, and two that draw from the reject tank.
const LINES: [&[u8]; 9] = [
    b"(receive (ss 10))",
    b"(feed 1)",
    b"(feed 0)",
    b"(feed 00)",
    b"",
    b"(settle 0)",
    b"(return 1000)",
    b"(release 1000)",
    b"(recycle 1000)",
];

// The answers to the lines, each on the same record.
fn each_line(buf: &mut [u8], p: Plant) {
    for s in LINES {
        line(buf, p, s);
    }
}

// The answer to a line on a record.
fn line(buf: &mut [u8], p: Plant, s: &[u8]) {
    test_show::fill(buf);
    let a = lines::answer_line(p, s, buf);
    test_show::number(b"refusal ", plant::refusal_of(a.outcome.answer));
    tell(buf, a.length);
}

// The held line of a record with ss in its reject tank.
fn held(buf: &mut [u8], ss: u64) {
    held_of(buf, above(ss));
}

// The held line of a record.
fn held_of(buf: &mut [u8], p: Plant) {
    test_show::fill(buf);
    let h = lines::held_line(p, buf);
    test_show::number(b"refusal ", h.refusal.map_or(0, |r| r.number()));
    tell(buf, h.length);
}

// Figures that are no permitted set: 15 behind 12 and 11, and before 1 and 2.
fn outside(buf: &mut [u8]) {
    let p = Plant {
        figures: Figures::from([0; 9]),
        ..above(1000000000001)
    };
    each_line(buf, p);
    held_of(buf, p);
}

// A fresh record but for ss in its reject tank.
fn above(ss: u64) -> Plant {
    Plant {
        reject: test_show::with([0; 13], &[(SS, ss)]),
        ..plant::fresh()
    }
}

// The longest answer that there is: a release with twenty digits in each column.
fn longest(buf: &mut [u8]) {
    test_show::fill(buf);
    let v = [18446744073709551615u64; 13];
    let k = writing::write_answer(buf, Answer::Released, v);
    test_show::text(b"longest");
    tell(buf, k);
}

// An answer of each kind, and a refusal with the longest number; a release and a draw hand out a vector.
fn each_kind_handed_back(buf: &mut [u8]) {
    let kinds = [
        Answer::Received,
        fed(),
        Answer::Settled,
        Answer::Returned {
            stripped: Milligrams(14),
        },
        Answer::Released,
        Answer::Recycled,
        Answer::Drawn,
        Answer::Accepted {
            n2: Ticks(4000000000000000),
        },
        Answer::Refused(Refusal::CodOpen),
        Answer::Refused(Refusal::Other(18446744073709551615)),
    ];
    for a in kinds {
        let v = match a {
            Answer::Released | Answer::Drawn => [1, 2, 3, 4, 5, 6, 7, 8, 9, 10, 11, 12, 13],
            _ => [0; 13],
        };
        handed_back(buf, a, v);
    }
}

// What a feed tells: four numbers that differ.
fn fed() -> Answer {
    Answer::Fed {
        burnt: Milligrams(33572),
        oxygen: Milligrams(5000),
        nitrate: Ticks(100000000),
        warn: 1,
    }
}

// The part that the answer writer itself hands back, and a look behind it afterwards. Under 512 bytes the part is empty, and the look goes
// over the whole buffer.
fn handed_back(buf: &mut [u8], a: Answer, v: [u64; 13]) {
    test_show::fill(buf);
    let k = test_show::part(b"handed back", writing::filled_answer(buf, a, v).0);
    test_show::behind(buf, k);
}

// The buffer's length, the part that an answer of n bytes fills, and a look behind it: whether the bytes there kept their values.
fn tell(buf: &[u8], n: usize) {
    test_show::number(b" in ", buf.len() as u64);
    let p = writing::filled_part(buf, n);
    test_show::number(b" bytes ", p.len() as u64);
    test_show::part(b"", p);
    test_show::behind(buf, n);
}
