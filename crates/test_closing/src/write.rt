// Writes what the calls give to standard output.
use closing::{Closed, Gaps};
use plant::Plant;
use vectors::{Milligrams, Ticks};

// An example's name, then what close and gap give, and where close is accepted, what settle says to it.
pub fn example(name: &[u8], p: Plant, d: [u64; 26]) {
    test_show::text(name);
    match closing::close(p, d) {
        Ok(c) => {
            closed(0, c);
            gap(p, d);
            settled(p, c);
        }
        Err(refusal) => {
            closed(refusal.number(), unclosed(d));
            gap(p, d);
        }
    }
    test_show::text(b"\n");
}

// A refusal leaves the proposal as it is, and has no gas.
fn unclosed(d: [u64; 26]) -> Closed {
    Closed {
        gas: Milligrams(0),
        vector: d,
    }
}

// The refusal, the gas and the vector.
fn closed(n: u64, c: Closed) {
    test_show::number(b": close ", n);
    test_show::number(b" gas ", c.gas.0);
    test_show::digester(c.vector);
}

// What gap gives: a refusal has zeros for the gaps.
fn gap(p: Plant, d: [u64; 26]) {
    match closing::gap(p, d) {
        Ok(g) => gaps(0, g),
        Err(refusal) => gaps(refusal.number(), NO_GAP),
    }
}

const NO_GAP: Gaps = Gaps {
    cod: Milligrams(0),
    tkn: Ticks(0),
    sin: Ticks(0),
};

// The refusal and the three gaps.
fn gaps(n: u64, g: Gaps) {
    test_show::number(b", gap ", n);
    test_show::number(b" cod ", g.cod.0);
    test_show::number(b" tkn ", g.tkn.0);
    test_show::number(b" sin ", g.sin.0);
}

// The number of settle's answer to what close gave.
fn settled(p: Plant, c: Closed) {
    let o = plant::settle(p, c.gas, c.vector);
    test_show::number(b", settle ", plant::refusal_of(o.answer));
}
