// One value at one column, on a fresh record. The float of a bit pattern is one no number for all of theirs.
use crate::write::{example, sheet};
use sheets::Finding;
use sheets::Finding::{BelowLimit, Measured, NotSampled};
use std::num::f32_from_bits_with_nan as float;
use test_show::places::asm1::{SALK, SNO, SO, SS, XND};

// Zero, minus zero, the smallest value above zero, and values beside 1 count and 2.
pub fn counted() {
    value(b"zero", SS, Measured(0.0));
    value(b"minus zero", SS, Measured(-0.0));
    value(b"smallest", SS, Measured(float(1)));
    value(b"smallest, ticks", SNO, Measured(float(1)));
    value(b"largest below normal", SNO, Measured(float(0x007fffff)));
    value(b"next below 0.001", SS, Measured(float(0x3a83126e)));
    value(b"0.001", SS, Measured(float(0x3a83126f)));
    value(b"0.001 mol", SALK, Measured(float(0x3a83126f)));
    value(b"next below 0.0000001", SNO, Measured(float(0x33d6bf94)));
    value(b"0.0000001", SNO, Measured(float(0x33d6bf95)));
    value(b"0.0000001 of COD", SS, Measured(float(0x33d6bf95)));
    value(b"next below 1", SS, Measured(float(0x3f7fffff)));
    value(b"next below 1, ticks", XND, Measured(float(0x3f7fffff)));
    value(b"1", SS, Measured(1.0));
    value(b"1.5 of oxygen", SO, Measured(1.5));
    value(b"20.96, a little less", SS, Measured(float(0x41a7ae14)));
    value(b"2^24 - 1", SS, Measured(16777215.0));
    value(b"2^24 - 1, ticks", SNO, Measured(16777215.0));
}

// The largest value that fits each ceiling, and the next above it.
pub fn ceilings() {
    value(b"10^9 of COD", SS, Measured(float(0x4e6e6b28)));
    value(b"next above, COD", SS, Measured(float(0x4e6e6b29)));
    value(b"10^9 of oxygen", SO, Measured(float(0x4e6e6b28)));
    value(b"next above, oxygen", SO, Measured(float(0x4e6e6b29)));
    value(b"10^9 of nitrogen", XND, Measured(float(0x4e6e6b28)));
    value(b"next above, nitrogen", XND, Measured(float(0x4e6e6b29)));
    value(b"10^9 mol", SALK, Measured(float(0x4e6e6b28)));
    value(b"next above, mol", SALK, Measured(float(0x4e6e6b29)));
    value(b"2^64 counts", SNO, Measured(float(0x53d6bf95)));
    value(b"largest", SS, Measured(float(0x7f7fffff)));
}

// Values that are negative, infinite or no number.
pub fn sent_away() {
    value(b"greatest below zero", SS, Measured(float(0x80000001)));
    value(b"-1", SALK, Measured(-1.0));
    value(b"most negative", SNO, Measured(float(0xff7fffff)));
    value(b"infinity", SS, Measured(float(0x7f800000)));
    value(b"minus infinity", SNO, Measured(float(0xff800000)));
    value(b"no number", SS, Measured(float(0x7fc00000)));
    value(b"no number, ticks", SNO, Measured(float(0xffffffff)));
}

// Limits: they count as zero and are told, and the same refusals apply.
pub fn limits() {
    value(b"limit 0.5 of COD", SS, BelowLimit(0.5));
    value(b"limit 0.5 of oxygen", SO, BelowLimit(0.5));
    value(b"limit 0.5 of nitrogen", SNO, BelowLimit(0.5));
    value(b"limit 0.5 mol", SALK, BelowLimit(0.5));
    value(b"limit minus zero", SS, BelowLimit(-0.0));
    value(b"limit smallest", SS, BelowLimit(float(1)));
    value(b"limit 10^9", XND, BelowLimit(float(0x4e6e6b28)));
    value(b"limit next above", XND, BelowLimit(float(0x4e6e6b29)));
    value(b"negative limit", SS, BelowLimit(-0.5));
    value(b"infinite limit", SS, BelowLimit(float(0x7f800000)));
    value(b"no limit", SALK, BelowLimit(float(0x7fc00000)));
    value(b"not sampled", SS, NotSampled);
}

fn value(name: &[u8], i: usize, x: Finding<f32>) {
    example(name, plant::fresh(), sheet(&[(i, x)]));
}
