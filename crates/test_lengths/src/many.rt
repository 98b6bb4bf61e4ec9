// Inputs of many lines, and of long ones.
use crate::tell;

// How many lines an input has.
const COUNTS: [usize; 6] = [0, 1, 999, 1000, 1001, 5000];

// Empty lines.
pub fn empty_lines() {
    let space = [b'\n'; 5000];
    for n in COUNTS {
        if let Some(input) = space.get(..n) {
            counted(b" empty lines", n, input);
        }
    }
}

// Recycles of an empty tank, without the last newline too.
pub fn recycles() {
    let space = repeated(b"(recycle 1)\n");
    for n in COUNTS {
        let end = n.saturating_mul(12);
        if let Some(input) = space.get(..end) {
            counted(b" lines", n, input);
        }
        if let Some(input) = space.get(..end.saturating_sub(1)) {
            counted(b" lines, the last without a newline", n, input);
        }
    }
}

// Lines of which the last alone changes the held line: it is counted where it is the thousandth.
pub fn a_receive_behind() {
    for n in [999, 1000] {
        let mut space = repeated(b"(recycle 1)\n");
        let from = 12usize.saturating_mul(n);
        let line = b"(receive (xs 123456))\n";
        if let Some(last) = space.get_mut(from..from.saturating_add(line.len())) {
            last.copy_from_slice(line);
        }
        if let Some(input) = space.get(..from.saturating_add(line.len())) {
            counted(b" lines and a receive", n, input);
        }
    }
}

// One line without a newline, up to 1,024 bytes and longer: it is no form, and its answer is as short.
pub fn long_lines() {
    let space = [b'x'; 5000];
    for n in [1023, 1024, 1025, 1026, 5000] {
        if let Some(input) = space.get(..n) {
            counted(b" bytes without a newline", n, input);
        }
    }
}

// The same line again and again, up to 60,000 bytes.
fn repeated(line: &[u8; 12]) -> [u8; 60000] {
    let mut space = [0u8; 60000];
    for part in space.chunks_exact_mut(12) {
        part.copy_from_slice(line);
    }
    space
}

// With the count before the name.
fn counted(name: &[u8], n: usize, input: &[u8]) {
    test_show::number(b"", n as u64);
    tell(name, plant::fresh(), input);
}
