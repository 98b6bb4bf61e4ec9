// Calls on records whose figures are no permitted set: each gets 15, on a record that is above a ceiling too, and gives the record back.
// With permitted figures the record above its ceiling gets 1.
use crate::write::{answer, held};
use plant::{Call, Outcome, Plant, Request};
use test_show::places::asm1::SS;
use test_show::sets;
use test_show::sets::NAA;
use vectors::{Figures, Milligrams, Ticks};

const CALLS: [Call; 8] = [
    Call::Receive,
    Call::Feed(0),
    Call::Settle(Milligrams(1)),
    Call::Return(0),
    Call::Release(0),
    Call::Recycle(0),
    Call::Draw(0),
    Call::Accept(Ticks(10000000000000001)),
];

// On four records: figures outside or not, a column above or not. Each call would be refused behind these two tests, or is accepted.
pub fn calls() {
    let outside = test_show::with(sets::DAIRY, &[(NAA, 0)]);
    on(b"outside, within", outside, 0);
    on(b"outside, above", outside, 1000000000001);
    on(b"permitted, above", sets::DAIRY, 1000000000001);
    on(b"permitted, within", sets::DAIRY, 0);
}

fn on(name: &[u8], set: [u64; 9], ss: u64) {
    test_show::text(name);
    test_show::text(b"\n");
    let p = Plant {
        sludge: test_show::with([0; 13], &[(SS, ss)]),
        figures: Figures::from(set),
        ..plant::fresh()
    };
    for call in CALLS {
        let r = Request::from(call);
        shown(p, requests::preview(p, r));
        shown(p, requests::answer_request(p, r));
    }
    held(p);
}

// The answer, and whether the record is the one that was handed in.
fn shown(before: Plant, o: Outcome) {
    answer(o);
    if o.plant == before {
        test_show::text(b" kept\n");
    } else {
        test_show::text(b" moved\n");
    }
}
