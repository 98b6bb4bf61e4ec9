// Vectors by the names of their columns, each column in its unit, and the arrays that hold them in document 01's order.
ghost use Rattle.std.specs.Prelude.{◌≡◌};
ghost use Rattle.vectors.specs.Columns.{asm1, digester, asm1_columns, digester_columns};
ghost use Rattle.columns.specs.Counts.{asm1_counts, digester_counts};

use vectors::{Milligrams, Millimoles, Ticks};

// Two structs and not one: document 01 gives their columns other names.
#[derive(Clone, Copy)]
pub struct Asm1 {
    pub si: Milligrams,
    pub ss: Milligrams,
    pub xi: Milligrams,
    pub xs: Milligrams,
    pub xbh: Milligrams,
    pub xba: Milligrams,
    pub xp: Milligrams,
    pub so: Milligrams,
    pub sno: Ticks,
    pub snh: Ticks,
    pub snd: Ticks,
    pub xnd: Ticks,
    pub salk: Millimoles,
}

#[derive(Clone, Copy)]
pub struct Digester {
    pub si: Milligrams,
    pub ssu: Milligrams,
    pub saa: Milligrams,
    pub sfa: Milligrams,
    pub sva: Milligrams,
    pub sbu: Milligrams,
    pub spro: Milligrams,
    pub sac: Milligrams,
    pub sh2: Milligrams,
    pub sch4: Milligrams,
    pub xi: Milligrams,
    pub xc: Milligrams,
    pub xch: Milligrams,
    pub xpr: Milligrams,
    pub xli: Milligrams,
    pub xsu: Milligrams,
    pub xaa: Milligrams,
    pub xfa: Milligrams,
    pub xc4: Milligrams,
    pub xpro: Milligrams,
    pub xac: Milligrams,
    pub xh2: Milligrams,
    pub sin: Ticks,
    pub sic: Millimoles,
    pub co: Milligrams,
    pub cn: Ticks,
}

// The vector that an array holds.
impl From<[u64; 13]> for Asm1 {
    ghost from_gives = { λ c v. asm1_counts v ≡ asm1 c };

    fn from(c: [u64; 13]) -> Asm1 {
        Asm1 {
            si: Milligrams(c[0]),
            ss: Milligrams(c[1]),
            xi: Milligrams(c[2]),
            xs: Milligrams(c[3]),
            xbh: Milligrams(c[4]),
            xba: Milligrams(c[5]),
            xp: Milligrams(c[6]),
            so: Milligrams(c[7]),
            sno: Ticks(c[8]),
            snh: Ticks(c[9]),
            snd: Ticks(c[10]),
            xnd: Ticks(c[11]),
            salk: Millimoles(c[12]),
        }
    }
}

// Its array again.
impl From<Asm1> for [u64; 13] {
    ghost from_gives = { λ v c. c ≡ asm1_columns (asm1_counts v) };

    fn from(v: Asm1) -> [u64; 13] {
        [
            v.si.0, v.ss.0, v.xi.0, v.xs.0, v.xbh.0, v.xba.0, v.xp.0, v.so.0, v.sno.0, v.snh.0, v
                .snd
                .0, v.xnd.0, v.salk.0,
        ]
    }
}

// The vector that an array holds.
impl From<[u64; 26]> for Digester {
    ghost from_gives = { λ c d. digester_counts d ≡ digester c };

    fn from(c: [u64; 26]) -> Digester {
        Digester {
            si: Milligrams(c[0]),
            ssu: Milligrams(c[1]),
            saa: Milligrams(c[2]),
            sfa: Milligrams(c[3]),
            sva: Milligrams(c[4]),
            sbu: Milligrams(c[5]),
            spro: Milligrams(c[6]),
            sac: Milligrams(c[7]),
            sh2: Milligrams(c[8]),
            sch4: Milligrams(c[9]),
            xi: Milligrams(c[10]),
            xc: Milligrams(c[11]),
            xch: Milligrams(c[12]),
            xpr: Milligrams(c[13]),
            xli: Milligrams(c[14]),
            xsu: Milligrams(c[15]),
            xaa: Milligrams(c[16]),
            xfa: Milligrams(c[17]),
            xc4: Milligrams(c[18]),
            xpro: Milligrams(c[19]),
            xac: Milligrams(c[20]),
            xh2: Milligrams(c[21]),
            sin: Ticks(c[22]),
            sic: Millimoles(c[23]),
            co: Milligrams(c[24]),
            cn: Ticks(c[25]),
        }
    }
}

// Its array again.
impl From<Digester> for [u64; 26] {
    ghost from_gives = { λ d c. c ≡ digester_columns (digester_counts d) };

    fn from(d: Digester) -> [u64; 26] {
        [
            d.si.0, d.ssu.0, d.saa.0, d.sfa.0, d.sva.0, d.sbu.0, d.spro.0, d.sac.0, d.sh2.0, d
                .sch4
                .0, d.xi.0, d.xc.0, d.xch.0, d.xpr.0, d.xli.0, d.xsu.0, d.xaa.0, d.xfa.0, d.xc4.0, d
                .xpro
                .0, d.xac.0, d.xh2.0, d.sin.0, d.sic.0, d.co.0, d.cn.0,
        ]
    }
}
