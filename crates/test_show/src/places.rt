// Where each column stands in the two vectors.

// In an ASM1 vector.
pub mod asm1 {
    pub const SI: usize = 0;

    pub const SS: usize = 1;

    pub const XI: usize = 2;

    pub const XS: usize = 3;

    pub const XBH: usize = 4;

    pub const XBA: usize = 5;

    pub const XP: usize = 6;

    pub const SO: usize = 7;

    pub const SNO: usize = 8;

    pub const SNH: usize = 9;

    pub const SND: usize = 10;

    pub const XND: usize = 11;

    pub const SALK: usize = 12;
}

// In a digester vector.
pub mod digester {
    pub const SI: usize = 0;

    pub const SSU: usize = 1;

    pub const SAA: usize = 2;

    pub const SFA: usize = 3;

    pub const SVA: usize = 4;

    pub const SBU: usize = 5;

    pub const SPRO: usize = 6;

    pub const SAC: usize = 7;

    pub const SH2: usize = 8;

    pub const SCH4: usize = 9;

    pub const XI: usize = 10;

    pub const XC: usize = 11;

    pub const XCH: usize = 12;

    pub const XPR: usize = 13;

    pub const XLI: usize = 14;

    pub const XSU: usize = 15;

    pub const XAA: usize = 16;

    pub const XFA: usize = 17;

    pub const XC4: usize = 18;

    pub const XPRO: usize = 19;

    pub const XAC: usize = 20;

    pub const XH2: usize = 21;

    pub const SIN: usize = 22;

    pub const SIC: usize = 23;

    pub const CO: usize = 24;

    pub const CN: usize = 25;
}
