// Writes records, figures and answers to standard output.
use plant::{Outcome, Plant};
use vectors::Figures;

// The nine figures.
pub fn figures(f: Figures) {
    for x in <[u64; 9]>::from(f) {
        test_show::number(b" ", x);
    }
}

// The refusal's number, or 0, and all that is told.
pub fn answer(o: Outcome) {
    let t = plant::told_of(o.answer);
    test_show::number(b"  ", t.number);
    for x in [t.burnt, t.oxygen, t.nitrate, t.warn, t.stripped, t.n2] {
        test_show::number(b" ", x);
    }
}

// The columns of the tanks that are not zero, and what they hold together.
pub fn tanks(p: Plant) {
    test_show::text(b", sludge");
    test_show::asm1(p.sludge);
    test_show::text(b", digester");
    test_show::digester(p.digester);
    test_show::text(b", reject");
    test_show::asm1(p.reject);
    test_show::text(b"\n");
    held(p);
}

// COD, TKN, oxygen and nitrate of the tanks, or the refusal.
pub fn held(p: Plant) {
    match holding::held(p) {
        Ok(h) => {
            test_show::number(b"  held ", h.cod.0);
            for x in [h.tkn.0, h.oxygen.0, h.nitrate.0] {
                test_show::number(b" ", x);
            }
            test_show::text(b"\n");
        }
        Err(r) => {
            test_show::number(b"  held no ", r.number());
            test_show::text(b"\n");
        }
    }
}
