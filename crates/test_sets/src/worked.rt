// Plants worked by hand: a load is received, fed whole and returned, and what is in the tanks is written behind each call.
//
// The dairy's: saa = min(100, floor(10000 / 1120)) = 8. P = 10000 - 8960 + 30000 + 850 x 20 + 640 x 20 = 60840.
// xi = floor(7350 x 20 / 10000) = 14, q = 220 x 14 = 3080, P' = 57760. R = 200 + 20 + 20 - 14 = 226, xc = floor(57760 / 410) = 140,
// xch = floor(1200 x 86 / 7000) = 14, xli = 72, sin = 1000 + 57760 - 57400 = 1360. On return xnd = 410 x 140 + 220 x 14 - 640 x 14
// = 51520, snd = 1120 x 8, snh = 1360.
//
// The greatest: all COD columns but xp hold 10^12 and nitrogen none. P = 10000 x 2 x 10^12 + 10000 x 10^12 = 3 x 10^16, xi = 10^12,
// q = 2 x 10^16, P' = 10^16. R = 3 x 10^12, xc = 10^12, xch = xli = 10^12, sin = 0: each column is at its ceiling. Of three tenths of it,
// xnd = 10000 x (3 + 3) x 10^11 - 10000 x 3 x 10^11 = 3 x 10^15, snd = 3 x 10^15. Returned whole, xs would pass its ceiling.
//
// The least: saa = min(10, 6) = 6, P = 9, xi = 0, q = 0, R = 33, xc = 9, all of the 24 left is xch, or xli; sin = 4. On return xnd = 9,
// snd = 6, snh = 4.
use crate::write::{answer, tanks};
use plant::{Outcome, Plant};
use test_show::places::asm1::{SI, SND, SNH, SS, XBA, XBH, XI, XND, XP, XS};
use test_show::sets;
use vectors::Figures;

const MOST: u64 = 1000000000000;

// A dairy's load, one at the ceilings, and a small one.
const LOAD: [(usize, u64); 8] = [
    (SS, 100),
    (XI, 10),
    (XS, 200),
    (XBH, 20),
    (XP, 10),
    (SNH, 1000),
    (SND, 10000),
    (XND, 30000),
];

const FULL: [(usize, u64); 6] = [
    (SI, MOST),
    (SS, MOST),
    (XI, MOST),
    (XS, MOST),
    (XBH, MOST),
    (XBA, MOST),
];

const SMALL: [(usize, u64); 10] = [
    (SI, 5),
    (SS, 10),
    (XI, 7),
    (XS, 20),
    (XBH, 3),
    (XBA, 2),
    (XP, 1),
    (SNH, 4),
    (SND, 6),
    (XND, 9),
];

// Each load with its set.
pub fn plants() {
    plant(b"dairy", sets::DAIRY, &LOAD, 1000);
    plant(b"greatest", sets::GREATEST, &FULL, 1000);
    plant(b"greatest", sets::GREATEST, &FULL, 300);
    plant(b"least", sets::LEAST, &SMALL, 1000);
    plant(b"least by lipid", sets::LEAST_BY_LIPID, &SMALL, 1000);
}

// Received, fed whole, and k thousandths of the digester returned.
fn plant(name: &[u8], set: [u64; 9], load: &[(usize, u64)], k: u64) {
    test_show::text(name);
    test_show::text(b"\n");
    let fresh = plant::make(Figures::from(set)).plant;
    let received = shown(plant::receive(fresh, test_show::with([0; 13], load)));
    let fed = shown(plant::feed(received, 1000));
    shown(plant::give_back(fed, k));
}

// Writes the answer, what is in the tanks and what is held.
fn shown(o: Outcome) -> Plant {
    answer(o);
    tanks(o.plant);
    o.plant
}
