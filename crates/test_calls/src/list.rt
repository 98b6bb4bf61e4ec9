// A list of calls and previews from a fresh record of any figures, with the sums of demand 3 added up from the calls and their answers.
use plant::{Answer, Call, Outcome, Plant, Request};
use std::ops::Add;
use test_show::places::{asm1, digester};
use test_show::sets;
use vectors::{Figures, HOUSE, Milligrams};

// One total of each balance.
#[derive(Clone, Copy, Default)]
pub struct Amounts {
    pub cod: u64,
    pub tkn: u64,
    pub oxygen: u64,
    pub nitrate: u64,
}

// Totals are added column by column, as far as 64 bits go.
impl Add for Amounts {
    type Output = Amounts;

    fn add(self, more: Amounts) -> Amounts {
        Amounts {
            cod: self.cod.wrapping_add(more.cod),
            tkn: self.tkn.wrapping_add(more.tkn),
            oxygen: self.oxygen.wrapping_add(more.oxygen),
            nitrate: self.nitrate.wrapping_add(more.nitrate),
        }
    }
}

// The record, what was received, and what was released or drawn, burnt, reduced, vented, stripped or told as N2; and how many calls were
// accepted.
#[derive(Clone, Copy)]
pub struct Run {
    pub plant: Plant,
    pub received: Amounts,
    pub gone: Amounts,
    pub accepted: u64,
}

// The four balances with the house set, and with sets of other figures.
pub fn balances() {
    balances_of(HOUSE);
    for set in [
        sets::DAIRY,
        sets::GREATEST,
        sets::LEAST,
        sets::LEAST_BY_LIPID,
    ] {
        balances_of(Figures::from(set));
    }
}

// Calls by a fixed sequence of numbers, and writes the four balances.
fn balances_of(figures: Figures) {
    let mut run = start(figures);
    let mut x: u64 = 20261115;
    for i in 0..240 {
        run = called(run, request(run.plant, x / 64, i));
        x = next(x);
    }
    report(run);
}

// The beginning of a list: a fresh record of these figures, and nothing in the sums.
pub fn start(figures: Figures) -> Run {
    Run {
        plant: plant::make(figures).plant,
        received: Amounts::default(),
        gone: Amounts::default(),
        accepted: 0,
    }
}

// The next number of the sequence.
fn next(x: u64) -> u64 {
    ((x % 2147483648) * 1103515245 + 12345) % 2147483648
}

// A call behind its preview, and what it adds to the sums; the preview adds nothing.
pub fn called(run: Run, r: Request) -> Run {
    let seen = requests::preview(run.plant, r);
    let o = requests::answer_request(seen.plant, r);
    let (came, went) = moved(run.plant.figures, r, o);
    let accepted = !matches!(o.answer, Answer::Refused(_));
    Run {
        plant: o.plant,
        received: run.received + came,
        gone: run.gone + went,
        accepted: run.accepted.wrapping_add(u64::from(accepted)),
    }
}

// What an accepted receive or accept was handed, and what was released or drawn, burnt, reduced, vented, stripped or told as N2.
fn moved(f: Figures, r: Request, o: Outcome) -> (Amounts, Amounts) {
    let none = Amounts::default();
    match (r.call, o.answer) {
        (_, Answer::Received) => (totals_of(f, r.sludge), none),
        (_, Answer::Released | Answer::Drawn) => (none, totals_of(f, o.vector)),
        (Call::Accept(n), Answer::Accepted { n2 }) => {
            (totals_of(f, r.sludge) + nitrate(n.0), nitrate(n2.0))
        }
        (
            _,
            Answer::Fed {
                burnt,
                oxygen,
                nitrate,
                warn: _,
            },
        ) => {
            let fed = Amounts {
                cod: burnt.0,
                oxygen: oxygen.0,
                nitrate: nitrate.0,
                ..none
            };
            (none, fed)
        }
        (Call::Settle(gas), Answer::Settled) => (none, cod(gas.0)),
        (_, Answer::Returned { stripped }) => (none, cod(stripped.0)),
        _ => (none, none),
    }
}

// COD alone.
fn cod(n: u64) -> Amounts {
    Amounts {
        cod: n,
        ..Amounts::default()
    }
}

// Nitrate alone.
fn nitrate(n: u64) -> Amounts {
    Amounts {
        nitrate: n,
        ..Amounts::default()
    }
}

// The totals of an ASM1 vector by a set of figures.
fn totals_of(f: Figures, v: [u64; 13]) -> Amounts {
    if vectors::is_permitted(f) && vectors::is_within(v) {
        return Amounts {
            cod: vectors::cod(v).0,
            tkn: vectors::tkn(f, v).0,
            oxygen: v[asm1::SO],
            nitrate: v[asm1::SNO],
        };
    }
    Amounts::default()
}

// The request of place i, whose numbers go by x: of eight in a row, three are receives and the others a call each. Some have a k of 0, and
// some proposals are open.
fn request(p: Plant, x: u64, i: u64) -> Request {
    let k = x % 1200;
    match i % 8 {
        3 => Request::from(Call::Feed(k)),
        4 => settling(p, x),
        5 => Request::from(Call::Return(k)),
        6 => Request::from(Call::Release(k)),
        7 => Request::from(Call::Recycle(k)),
        _ => Request {
            sludge: columns(x),
            ..Request::from(Call::Receive)
        },
    }
}

// A proposal: half of ssu becomes methane, part of which is vented, and sic is another. Every fourth one is a milligram short.
fn settling(p: Plant, x: u64) -> Request {
    let mut d = p.digester;
    let half = d[digester::SSU] / 2;
    let vent = half / 3;
    d[digester::SSU] -= half;
    d[digester::SCH4] = d[digester::SCH4].wrapping_add(half - vent);
    d[digester::SIC] = x % 1000;
    let more = u64::from(x % 4 == 0);
    Request {
        digester: d,
        ..Request::from(Call::Settle(Milligrams(vent.wrapping_add(more))))
    }
}

// An ASM1 vector by a number.
fn columns(x: u64) -> [u64; 13] {
    let a = x % 1009;
    let b = x % 9973;
    let c = x % 99991;
    [a, c, b, c, b, a, b, a, c * 7, c * 9, c * 5, b * 11, a]
}

// How many calls were accepted, and the four balances.
pub fn report(run: Run) {
    test_show::number(b"accepted ", run.accepted);
    test_show::text(b"\n");
    let (came, held, gone) = (run.received, held(run.plant), run.gone);
    line(b"COD", came.cod, held.cod, gone.cod);
    line(b"TKN", came.tkn, held.tkn, gone.tkn);
    line(b"oxygen", came.oxygen, held.oxygen, gone.oxygen);
    line(b"nitrate", came.nitrate, held.nitrate, gone.nitrate);
}

// What is in the tanks, and nothing where it is refused.
fn held(p: Plant) -> Amounts {
    match holding::held(p) {
        Ok(h) => Amounts {
            cod: h.cod.0,
            tkn: h.tkn.0,
            oxygen: h.oxygen.0,
            nitrate: h.nitrate.0,
        },
        Err(_) => Amounts::default(),
    }
}

// One balance: received, in the tanks, gone, and whether it closes.
fn line(name: &[u8], received: u64, held: u64, gone: u64) {
    test_show::text(name);
    test_show::number(b" received ", received);
    test_show::number(b" held ", held);
    test_show::number(b" gone ", gone);
    if held.wrapping_add(gone) == received {
        test_show::text(b" closes\n");
    } else {
        test_show::text(b" OPEN\n");
    }
}
