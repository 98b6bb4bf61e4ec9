// Writes calls and answers to standard output.
use plant::{Answer, Call, Outcome, Plant};

// A call's word and number. The test of composing has calls of its own: it writes a receive without a number, and test_show knows no calls.
pub fn call_name(c: Call) {
    match c {
        Call::Receive => test_show::number(b"receive ", 0),
        Call::Feed(k) => test_show::number(b"feed ", k),
        Call::Settle(g) => test_show::number(b"settle ", g.0),
        Call::Return(k) => test_show::number(b"return ", k),
        Call::Release(k) => test_show::number(b"release ", k),
        Call::Recycle(k) => test_show::number(b"recycle ", k),
        Call::Draw(k) => test_show::number(b"draw ", k),
        Call::Accept(n) => test_show::number(b"accept ", n.0),
    }
    test_show::text(b": ");
}

// The answer, with the columns of a vector that is handed out that are not zero.
pub fn answer(o: Outcome) {
    match o.answer {
        Answer::Refused(r) => test_show::number(b"no ", r.number()),
        Answer::Received => test_show::text(b"ok receive"),
        Answer::Fed {
            burnt,
            oxygen,
            nitrate,
            warn,
        } => fed(burnt.0, oxygen.0, nitrate.0, warn),
        Answer::Settled => test_show::text(b"ok settle"),
        Answer::Returned { stripped } => test_show::number(b"ok return stripped ", stripped.0),
        Answer::Released => test_show::text(b"ok release"),
        Answer::Recycled => recycled(o.plant),
        Answer::Drawn => test_show::text(b"ok draw"),
        Answer::Accepted { n2 } => accepted(o.plant, n2.0),
    }
    test_show::asm1(o.vector);
}

// A recycle tells nothing; what the two tanks hold then is shown.
fn recycled(p: Plant) {
    test_show::text(b"ok recycle, ");
    tanks(p);
}

// An accept tells the N2; what the sludge tank holds then is shown.
fn accepted(p: Plant, n2: u64) {
    test_show::number(b"ok accept n2 ", n2);
    test_show::text(b", sludge ");
    test_show::asm1(p.sludge);
}

// The columns of the sludge and reject tanks that are not zero.
pub fn tanks(p: Plant) {
    test_show::text(b"sludge ");
    test_show::asm1(p.sludge);
    test_show::text(b", reject ");
    test_show::asm1(p.reject);
}

fn fed(burnt: u64, oxygen: u64, nitrate: u64, warn: u64) {
    test_show::number(b"ok feed burnt ", burnt);
    test_show::number(b" oxygen ", oxygen);
    test_show::number(b" nitrate ", nitrate);
    test_show::number(b" warn ", warn);
}
