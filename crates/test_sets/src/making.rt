// The wish for a record: each set with its refusal, or 0, and the figures that the record has.
use crate::write::figures;
use test_show::sets;
use test_show::sets::{FCH, FLI, NAA, NXC};
use vectors::{Figures, HOUSE};

// Sets that are permitted, and sets that are outside by one figure.
pub fn wishes() {
    wish(b"house", <[u64; 9]>::from(HOUSE));
    wish(b"dairy", sets::DAIRY);
    wish(b"greatest", sets::GREATEST);
    wish(b"least", sets::LEAST);
    wish(b"least by lipid", sets::LEAST_BY_LIPID);
    for i in 0..9 {
        wish(b"10001", test_show::with(sets::DAIRY, &[(i, 10001)]));
    }
    wish(
        b"2^64 - 1",
        test_show::with(sets::DAIRY, &[(FLI, 18446744073709551615)]),
    );
    wish(b"no nxc", test_show::with(sets::DAIRY, &[(NXC, 0)]));
    wish(b"no naa", test_show::with(sets::DAIRY, &[(NAA, 0)]));
    wish(b"no fch", test_show::with(sets::DAIRY, &[(FCH, 0)]));
    wish(b"no fli", test_show::with(sets::DAIRY, &[(FLI, 0)]));
    wish(
        b"neither",
        test_show::with(sets::DAIRY, &[(FCH, 0), (FLI, 0)]),
    );
    wish(b"zeros", [0; 9]);
}

// One wish.
fn wish(name: &[u8], set: [u64; 9]) {
    let made = plant::make(Figures::from(set));
    test_show::text(name);
    test_show::number(b": ", made.refusal.map_or(0, |r| r.number()));
    figures(made.plant.figures);
    if made.plant.sludge == [0; 13]
        && made.plant.digester == [0; 26]
        && made.plant.reject == [0; 13]
    {
        test_show::text(b", fresh");
    }
    test_show::text(b"\n");
}
