// Writes text, numbers and columns to standard output, for the test programs, and makes vectors by some of their columns.
//
//   pattern   a pattern in a lent buffer, and whether it is there still
//   places    where the columns stand in the two vectors
//   sets      sets of figures
#![tactic(auto)]

mod pattern;
pub mod places;
pub mod sets;

pub use pattern::{behind, fill};

pub fn text(s: &[u8]) {
    io::write_all(1, s);
}

// A label and bytes in brackets. It hands back how many they are: where they are part of a lent buffer, a look behind them can follow.
pub fn part(label: &[u8], s: &[u8]) -> usize {
    text(label);
    text(b" [");
    text(s);
    text(b"]");
    s.len()
}

// A name and a number.
pub fn number(name: &[u8], x: u64) {
    io::write_all(1, name);
    io::print_decimal(1, x);
}

// The columns of an ASM1 vector that are not zero, each with its name. The names stand here again, so that a test does not read the code's
// own table.
pub fn asm1(v: [u64; 13]) {
    let names = [
        *b"   si", *b"   ss", *b"   xi", *b"   xs", *b"  xbh", *b"  xba", *b"   xp", *b"   so",
        *b"  sno", *b"  snh", *b"  snd", *b"  xnd", *b" salk",
    ];
    columns(names, v);
}

// The same of a digester vector, whose names stand here again for the same reason.
pub fn digester(v: [u64; 26]) {
    let names = [
        *b"   si", *b"  ssu", *b"  saa", *b"  sfa", *b"  sva", *b"  sbu", *b" spro", *b"  sac",
        *b"  sh2", *b" sch4", *b"   xi", *b"   xc", *b"  xch", *b"  xpr", *b"  xli", *b"  xsu",
        *b"  xaa", *b"  xfa", *b"  xc4", *b" xpro", *b"  xac", *b"  xh2", *b"  sin", *b"  sic",
        *b"   co", *b"   cn",
    ];
    columns(names, v);
}

// As many names, of five bytes each, as there are columns.
fn columns<const N: usize>(names: [[u8; 5]; N], v: [u64; N]) {
    for (name, x) in names.iter().zip(v.iter()) {
        if *x != 0 {
            text(name);
            number(b" ", *x);
        }
    }
}

// A vector with other values at some of its places; a place past its end is none.
pub fn with<T: Copy, const N: usize>(v: [T; N], entries: &[(usize, T)]) -> [T; N] {
    let mut v = v;
    for (i, x) in entries {
        if let Some(column) = v.get_mut(*i) {
            *column = *x;
        }
    }
    v
}
