// The side-stream reactor: reject water drawn for it, and what it gives back, with nitrite.
use crate::list::{Run, called, report, start};
use crate::round::works;
use crate::small::Column::{Digester, Reject, Sludge};
use crate::small::{COD, COD_OVER, MOST, Row, TICKS_OVER, example};
use plant::Call::{Accept, Draw};
use plant::{Call, Request};
use test_show::places::{asm1, digester};
use vectors::Ticks;

// Nitrite's ceiling, which is that of each column in ticks.
const TICKS: u64 = 10000000000000000;

// Draws by k at its edges, and on records above a ceiling.
static DRAWS: [Row; 10] = [
    (
        &[Reject(asm1::XS, 2000), Reject(asm1::SNH, 999)],
        Draw(0),
        &[],
    ),
    (
        &[Reject(asm1::XS, 2000), Reject(asm1::SNH, 999)],
        Draw(1),
        &[],
    ),
    (
        &[Reject(asm1::XS, 2000), Reject(asm1::SNH, 999)],
        Draw(999),
        &[],
    ),
    (
        &[Reject(asm1::XS, 2000), Reject(asm1::SNH, 999)],
        Draw(1000),
        &[],
    ),
    (
        &[Reject(asm1::XS, 2000), Reject(asm1::SNH, 999)],
        Draw(1001),
        &[],
    ),
    (&[Reject(asm1::XS, 2000)], Draw(MOST), &[]),
    (&[Sludge(asm1::XP, COD_OVER)], Draw(1), &[]),
    (&[Digester(digester::CN, TICKS_OVER)], Draw(0), &[]),
    (&[Reject(asm1::SI, MOST)], Draw(1000), &[]),
    (&[], Draw(1000), &[]),
];

// Accepts at the ceilings, and where two refusals apply.
static ACCEPTS: [Row; 15] = [
    (&[], Accept(Ticks(TICKS)), &[]),
    (&[], Accept(Ticks(TICKS_OVER)), &[]),
    (&[], Accept(Ticks(MOST)), &[]),
    // The vector's own sno at its ceiling, which the share of one tick leaves as it is and that of two brings past it; and sno above it.
    (&[], Accept(Ticks(1)), &[(asm1::SNO, TICKS)]),
    (&[], Accept(Ticks(2)), &[(asm1::SNO, TICKS)]),
    (&[], Accept(Ticks(0)), &[(asm1::SNO, TICKS_OVER)]),
    // Nitrate passes its ceiling in the tank with the nitrite's share alone: of five and six ticks it fits, of seven it does not.
    (
        &[Sludge(asm1::SNO, TICKS - 5)],
        Accept(Ticks(5)),
        &[(asm1::SNO, 2)],
    ),
    (
        &[Sludge(asm1::SNO, TICKS - 5)],
        Accept(Ticks(6)),
        &[(asm1::SNO, 2)],
    ),
    (
        &[Sludge(asm1::SNO, TICKS - 5)],
        Accept(Ticks(7)),
        &[(asm1::SNO, 2)],
    ),
    (&[Sludge(asm1::SS, COD)], Accept(Ticks(9)), &[(asm1::SS, 1)]),
    (&[], Accept(Ticks(9)), &[(asm1::SALK, COD_OVER)]),
    // 1 before 3, and 3 before 10.
    (&[Reject(asm1::XS, COD_OVER)], Accept(Ticks(MOST)), &[]),
    (
        &[Sludge(asm1::SNO, TICKS)],
        Accept(Ticks(TICKS_OVER)),
        &[(asm1::SNO, 1)],
    ),
    (
        &[Sludge(asm1::SS, COD)],
        Accept(Ticks(5)),
        &[(asm1::SS, 1), (asm1::XS, COD_OVER)],
    ),
    // A full column, and nitrite of which nothing joins it.
    (
        &[Sludge(asm1::SNO, TICKS)],
        Accept(Ticks(1)),
        &[(asm1::SI, 1)],
    ),
];

// Draws, accepts with no to nine ticks of nitrite, and accepts at the ceilings.
pub fn examples() {
    for row in &DRAWS {
        example(*row);
    }
    for n in 0..10 {
        example((
            &[Sludge(asm1::SNO, 100), Sludge(asm1::SNH, 10)],
            Accept(Ticks(n)),
            &[(asm1::SNO, 20), (asm1::SNH, 3)],
        ));
    }
    for row in &ACCEPTS {
        example(*row);
    }
}

// One receive, three rounds of feed, return, draw and accept, and the four balances.
pub fn rounds() {
    let mut run = called(start(vectors::HOUSE), works());
    for nitrite in [100003, 100004, 100005] {
        run = round(run, nitrite);
    }
    report(run);
}

// Half of the reject goes to the reactor, whose nitrite and rest are accepted.
fn round(run: Run, nitrite: u64) -> Run {
    let fed = called(run, Request::from(Call::Feed(900)));
    let returned = called(fed, Request::from(Call::Return(950)));
    let drawn = called(returned, Request::from(Draw(500)));
    called(
        drawn,
        Request {
            sludge: [10, 0, 3, 7, 0, 0, 0, 0, 50001, 20002, 0, 0, 5],
            ..Request::from(Accept(Ticks(nitrite)))
        },
    )
}
