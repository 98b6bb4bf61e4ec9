// Tests of how long answers will be: each input's bytes, the lines that are not counted, and beside them how many bytes the answers to the
// counted lines and the held line really have, newlines included.
//
//   kinds   an answer of each kind, refusals, previews and records
//   many    inputs of many lines and of long ones
#![tactic(auto)]

mod kinds;
mod many;

use plant::Plant;

fn main() {
    ends();
    kinds::calls();
    kinds::refused();
    kinds::previews();
    kinds::records();
    many::empty_lines();
    many::recycles();
    many::a_receive_behind();
    many::long_lines();
}

// No byte, newlines alone, and a line with a final newline and without one.
fn ends() {
    let p = plant::fresh();
    tell(b"no byte", p, b"");
    tell(b"a newline", p, b"\n");
    tell(b"two newlines", p, b"\n\n");
    tell(b"a line", p, b"(recycle 1)\n");
    tell(b"a line without a newline", p, b"(recycle 1)");
    tell(b"a line behind an empty one", p, b"\n(recycle 1)");
    tell(b"a carriage return", p, b"(recycle 1)\r\n");
}

// Tells what is told for an input on a record, and what is printed for its counted lines.
fn tell(name: &[u8], p: Plant, input: &[u8]) {
    let a = lengths::answer_bytes(p, input);
    test_show::text(name);
    test_show::number(b": bytes ", a.bytes as u64);
    test_show::number(b", not counted ", a.uncounted as u64);
    test_show::number(b", printed ", printed(p, input) as u64);
    test_show::text(b"\n");
}

// How many bytes the answers to the first 1,000 lines and the held line have, each written into a buffer.
fn printed(plant: Plant, input: &[u8]) -> usize {
    let mut buf = [0u8; 512];
    let mut p = plant;
    let mut n: usize = 0;
    for line in input.split(|b| *b == b'\n').take(lines_to_answer(input)) {
        let a = lines::answer_line(p, line, &mut buf);
        p = a.outcome.plant;
        n = n.saturating_add(a.length).saturating_add(1);
    }
    n.saturating_add(lines::held_line(p, &mut buf).length)
        .saturating_add(1)
}

// A split has a piece behind the last newline, which is no line where it is empty.
fn lines_to_answer(input: &[u8]) -> usize {
    let pieces = input.split(|b| *b == b'\n').count();
    let lines = if input.is_empty() || input.ends_with(b"\n") {
        pieces.saturating_sub(1)
    } else {
        pieces
    };
    lines.min(1000)
}
