// A pattern in a lent buffer, and whether it is there still.
use crate::text;

// Writes the pattern.
pub fn fill(buf: &mut [u8]) {
    for (i, b) in buf.iter_mut().enumerate() {
        *b = mark(i);
    }
}

// Tells whether the bytes from a place on have the pattern still. The place goes beside the buffer: a byte's mark goes by its place in it.
pub fn behind(buf: &[u8], n: usize) {
    if kept(buf, n) {
        text(b" kept\n");
    } else {
        text(b" CHANGED\n");
    }
}

// Whether the bytes from a place on have the pattern still.
fn kept(buf: &[u8], from: usize) -> bool {
    buf.iter()
        .enumerate()
        .skip(from)
        .all(|(i, b)| *b == mark(i))
}

// The pattern: a byte that goes by its place and is never zero.
fn mark(i: usize) -> u8 {
    (i % 251 + 1) as u8
}
