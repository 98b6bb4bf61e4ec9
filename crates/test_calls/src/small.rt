// Small examples of the calls, one to a row of a table.
use crate::write::{answer, call_name};
use Column::{Digester, Reject, Sludge};
use plant::Call::{Feed, Receive, Recycle, Release, Return, Settle};
use plant::{Call, Outcome, Plant, Request};
use test_show::places::{asm1, digester};
use vectors::Milligrams;

// A ceiling, numbers above one, and the largest number.
pub const COD: u64 = 1000000000000;

pub const COD_OVER: u64 = 1000000000001;

pub const TICKS_OVER: u64 = 10000000000000001;

pub const MOST: u64 = 18446744073709551615;

// A column of a tank by its place, and its value.
#[derive(Clone, Copy)]
pub enum Column {
    Sludge(usize, u64),
    Digester(usize, u64),
    Reject(usize, u64),
}

// A row: the columns of the record that are not zero, the call, and those of the vector that is handed to it.
pub type Row = (&'static [Column], Call, &'static [(usize, u64)]);

static ROWS: [Row; 85] = [
    // The small examples of document 01, with the nearest accepted call beside each.
    (&[Sludge(asm1::SS, COD_OVER)], Feed(1000), &[]),
    (&[], Feed(0), &[]),
    (&[], Receive, &[(asm1::SS, COD_OVER)]),
    (&[], Receive, &[(asm1::SS, COD)]),
    (
        &[Sludge(asm1::SI, 1), Sludge(asm1::SNH, 279)],
        Feed(1000),
        &[],
    ),
    (
        &[Sludge(asm1::SI, 1), Sludge(asm1::SNH, 280)],
        Feed(1000),
        &[],
    ),
    (
        &[Digester(digester::XI, 1), Digester(digester::SIN, 599)],
        Return(1000),
        &[],
    ),
    (
        &[Digester(digester::XI, 1), Digester(digester::SIN, 600)],
        Return(1000),
        &[],
    ),
    (
        &[Digester(digester::SSU, 5)],
        Settle(Milligrams(0)),
        &[(digester::SSU, 4)],
    ),
    (
        &[Digester(digester::SSU, 5)],
        Settle(Milligrams(1)),
        &[(digester::SSU, 4)],
    ),
    (
        &[Digester(digester::SIN, 5)],
        Settle(Milligrams(0)),
        &[(digester::SIN, 4)],
    ),
    (&[Digester(digester::CO, 2)], Settle(Milligrams(0)), &[]),
    (
        &[Digester(digester::CO, 2)],
        Settle(Milligrams(0)),
        &[(digester::CO, 2), (digester::SIC, 7)],
    ),
    (&[Sludge(asm1::SS, COD)], Receive, &[(asm1::SS, 1)]),
    // Where two refusals apply, the lower number is given.
    (&[Reject(asm1::SALK, COD_OVER)], Feed(0), &[]),
    (
        &[Sludge(asm1::SNH, TICKS_OVER)],
        Receive,
        &[(asm1::SS, COD_OVER)],
    ),
    (
        &[Digester(digester::SSU, 5), Reject(asm1::XND, TICKS_OVER)],
        Settle(Milligrams(0)),
        &[],
    ),
    (&[Sludge(asm1::SI, 1)], Feed(1001), &[]),
    (&[Digester(digester::XI, 1)], Return(0), &[]),
    (
        &[Sludge(asm1::SS, COD), Sludge(asm1::XS, 1)],
        Receive,
        &[(asm1::SS, 1), (asm1::XS, COD_OVER)],
    ),
    (&[], Settle(Milligrams(0)), &[(digester::SCH4, COD_OVER)]),
    (
        &[Sludge(asm1::SI, 1), Digester(digester::SI, COD)],
        Feed(1000),
        &[],
    ),
    (
        &[Digester(digester::XI, 1), Reject(asm1::XI, COD)],
        Return(1000),
        &[],
    ),
    (
        &[Digester(digester::SSU, 5), Digester(digester::SIN, 5)],
        Settle(Milligrams(0)),
        &[],
    ),
    (
        &[Digester(digester::SIN, 5), Digester(digester::CO, 2)],
        Settle(Milligrams(0)),
        &[],
    ),
    (
        &[Digester(digester::CN, 2)],
        Settle(Milligrams(0)),
        &[(digester::CN, 3)],
    ),
    (
        &[Sludge(asm1::SS, 2), Digester(digester::SSU, COD)],
        Feed(1000),
        &[],
    ),
    (
        &[Digester(digester::SSU, 2), Reject(asm1::SS, COD)],
        Return(1000),
        &[],
    ),
    // K at its edges.
    (&[Sludge(asm1::SS, 2000), Sludge(asm1::SO, 3)], Feed(0), &[]),
    (&[Sludge(asm1::SS, 2000), Sludge(asm1::SO, 3)], Feed(1), &[]),
    (
        &[Sludge(asm1::SS, 2000), Sludge(asm1::SO, 3)],
        Feed(999),
        &[],
    ),
    (
        &[Sludge(asm1::SS, 2000), Sludge(asm1::SO, 3)],
        Feed(1000),
        &[],
    ),
    (
        &[Sludge(asm1::SS, 2000), Sludge(asm1::SO, 3)],
        Feed(1001),
        &[],
    ),
    (
        &[Sludge(asm1::SS, 2000), Sludge(asm1::SO, 3)],
        Feed(MOST),
        &[],
    ),
    (
        &[Digester(digester::SCH4, 1500), Digester(digester::SIN, 999)],
        Return(0),
        &[],
    ),
    (
        &[Digester(digester::SCH4, 1500), Digester(digester::SIN, 999)],
        Return(1),
        &[],
    ),
    (
        &[Digester(digester::SCH4, 1500), Digester(digester::SIN, 999)],
        Return(999),
        &[],
    ),
    (
        &[Digester(digester::SCH4, 1500), Digester(digester::SIN, 999)],
        Return(1000),
        &[],
    ),
    (
        &[Digester(digester::SCH4, 1500), Digester(digester::SIN, 999)],
        Return(1001),
        &[],
    ),
    (
        &[Digester(digester::SCH4, 1500), Digester(digester::SIN, 999)],
        Return(MOST),
        &[],
    ),
    (
        &[Reject(asm1::XS, 2000), Reject(asm1::SNH, 999)],
        Release(0),
        &[],
    ),
    (
        &[Reject(asm1::XS, 2000), Reject(asm1::SNH, 999)],
        Release(1),
        &[],
    ),
    (
        &[Reject(asm1::XS, 2000), Reject(asm1::SNH, 999)],
        Release(999),
        &[],
    ),
    (
        &[Reject(asm1::XS, 2000), Reject(asm1::SNH, 999)],
        Release(1000),
        &[],
    ),
    (
        &[Reject(asm1::XS, 2000), Reject(asm1::SNH, 999)],
        Release(1001),
        &[],
    ),
    (
        &[Reject(asm1::XS, 2000), Reject(asm1::SNH, 999)],
        Release(MOST),
        &[],
    ),
    // A gas near 2^64.
    (
        &[Digester(digester::SSU, 5)],
        Settle(Milligrams(MOST)),
        &[(digester::SSU, 5)],
    ),
    (&[], Settle(Milligrams(MOST)), &[]),
    (&[], Settle(Milligrams(MOST - 4)), &[(digester::SSU, 5)]),
    (
        &[Digester(digester::SSU, 5), Digester(digester::SAC, 7)],
        Settle(Milligrams(12)),
        &[],
    ),
    // A record above its ceiling in the sludge tank, in the digester, in the reject tank.
    (&[Sludge(asm1::XP, COD_OVER)], Receive, &[]),
    (&[Sludge(asm1::XP, COD_OVER)], Feed(1), &[]),
    (&[Sludge(asm1::XP, COD_OVER)], Settle(Milligrams(0)), &[]),
    (&[Sludge(asm1::XP, COD_OVER)], Return(1), &[]),
    (&[Sludge(asm1::XP, COD_OVER)], Release(1), &[]),
    (&[Digester(digester::CN, TICKS_OVER)], Receive, &[]),
    (&[Digester(digester::CN, TICKS_OVER)], Feed(1), &[]),
    (
        &[Digester(digester::CN, TICKS_OVER)],
        Settle(Milligrams(0)),
        &[],
    ),
    (&[Digester(digester::CN, TICKS_OVER)], Return(1), &[]),
    (&[Digester(digester::CN, TICKS_OVER)], Release(1), &[]),
    (&[Reject(asm1::SI, MOST)], Receive, &[]),
    (&[Reject(asm1::SI, MOST)], Feed(1), &[]),
    (&[Reject(asm1::SI, MOST)], Settle(Milligrams(0)), &[]),
    (&[Reject(asm1::SI, MOST)], Return(1), &[]),
    (&[Reject(asm1::SI, MOST)], Release(1), &[]),
    // Recycles. K at its edges.
    (
        &[Reject(asm1::XS, 2000), Reject(asm1::SNH, 999)],
        Recycle(0),
        &[],
    ),
    (
        &[Reject(asm1::XS, 2000), Reject(asm1::SNH, 999)],
        Recycle(1),
        &[],
    ),
    (
        &[Reject(asm1::XS, 2000), Reject(asm1::SNH, 999)],
        Recycle(999),
        &[],
    ),
    (
        &[Reject(asm1::XS, 2000), Reject(asm1::SNH, 999)],
        Recycle(1000),
        &[],
    ),
    (
        &[Reject(asm1::XS, 2000), Reject(asm1::SNH, 999)],
        Recycle(1001),
        &[],
    ),
    (
        &[Reject(asm1::XS, 2000), Reject(asm1::SNH, 999)],
        Recycle(MOST),
        &[],
    ),
    // Onto what is in the sludge tank, up to its ceiling and past it.
    (
        &[Sludge(asm1::XS, 5), Reject(asm1::XS, 2001)],
        Recycle(500),
        &[],
    ),
    (
        &[Sludge(asm1::SS, COD - 1), Reject(asm1::SS, 1)],
        Recycle(1000),
        &[],
    ),
    (
        &[Sludge(asm1::SS, COD), Reject(asm1::SS, 1)],
        Recycle(1000),
        &[],
    ),
    (
        &[Sludge(asm1::SS, COD), Reject(asm1::SS, 999)],
        Recycle(1),
        &[],
    ),
    (
        &[Sludge(asm1::SS, COD), Reject(asm1::SS, 1000)],
        Recycle(1),
        &[],
    ),
    (
        &[Sludge(asm1::XND, TICKS_OVER - 1), Reject(asm1::XND, 2)],
        Recycle(500),
        &[],
    ),
    (
        &[Sludge(asm1::SALK, COD), Reject(asm1::SALK, COD)],
        Recycle(1000),
        &[],
    ),
    // Where two refusals apply.
    (&[Reject(asm1::SALK, COD_OVER)], Recycle(0), &[]),
    (
        &[Sludge(asm1::SS, COD_OVER), Reject(asm1::SS, 1)],
        Recycle(1000),
        &[],
    ),
    (
        &[Sludge(asm1::SS, COD), Reject(asm1::SS, COD)],
        Recycle(1001),
        &[],
    ),
    (
        &[Sludge(asm1::SS, COD), Reject(asm1::SS, COD)],
        Recycle(MOST),
        &[],
    ),
    // A record above its ceiling.
    (&[Sludge(asm1::XP, COD_OVER)], Recycle(1), &[]),
    (&[Digester(digester::CN, TICKS_OVER)], Recycle(1), &[]),
    (&[Reject(asm1::SI, MOST)], Recycle(1), &[]),
];

// The rows, one by one.
pub fn examples() {
    for row in &ROWS {
        example(*row);
    }
}

// Makes a row's record, previews the call and makes it, and writes both answers and whether the record is the one handed in.
pub fn example(row: Row) {
    let (columns, call, vector) = row;
    let mut p = plant::fresh();
    for column in columns {
        set(&mut p, *column);
    }
    let r = request(call, vector);
    test_show::text(b"preview ");
    shown(p, r, requests::preview(p, r));
    shown(p, r, requests::answer_request(p, r));
}

// Sets a column of a record.
fn set(p: &mut Plant, column: Column) {
    match column {
        Sludge(i, x) => p.sludge = test_show::with(p.sludge, &[(i, x)]),
        Digester(i, x) => p.digester = test_show::with(p.digester, &[(i, x)]),
        Reject(i, x) => p.reject = test_show::with(p.reject, &[(i, x)]),
    }
}

// Writes a call with its answer, and whether the record is the one handed in.
fn shown(before: Plant, r: Request, o: Outcome) {
    call_name(r.call);
    answer(o);
    if o.plant == before {
        test_show::text(b", kept\n");
    } else {
        test_show::text(b", moved\n");
    }
}

// The request of a row; a call takes one of its two vectors, or none.
fn request(call: Call, vector: &[(usize, u64)]) -> Request {
    Request {
        call,
        sludge: test_show::with([0; 13], vector),
        digester: test_show::with([0; 26], vector),
    }
}
